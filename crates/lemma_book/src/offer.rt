ghost use Rattle.std.specs.Prelude.{◌≡◌, ◌<◌, ◌≤◌, None, length, slice_get, IfOk, IfErr, IfSome, OnOk, OnErr};
ghost use Rattle.lemma_book.specs.Entry.{first_entries, settled_at, with_last};
ghost use Rattle.lemma_book.specs.Good.{IsGood};
ghost use Rattle.lemma_book.specs.Fault.{IsJudgement, IsRefusal, Takes};
ghost use Rattle.lemma_book.specs.Judging.{standing_of};
ghost use Rattle.lemma_book.specs.Book.{IsLegal, answer_to, book_after, IsFrom};

use crate::book::Book;
use crate::entry::Entry;
use crate::judge::Judge;
use crate::refused::{Judgement, Offered, Refused};
use netlist::Net;
use std::alloc::{AllocError, Global};

impl Book {
    /// Judges an entry over this book, which stays as it is: it is good, or this is the first cause
    /// against it. Who judges many keeps a `Judge`.
    pub fn judge(&self, alloc: Global, net: &Net, entry: &Entry) -> Result<Judgement, AllocError>
        requires legal { IsLegal net.now self.now }
        ensures { IfOk result (IsJudgement net.now self.now entry.now) }
    {
        let mut judge = Judge::once(alloc);
        judge.judge(alloc, net, self, entry)
    }

    /// Takes an entry that is good over this book as its last one. Any other comes back with the first
    /// cause against it, but for one that an entry of the book settles: that is answered by the other
    /// entry's place.
    pub fn offer(
        &mut self,
        alloc: Global,
        net: &Net,
        entry: Entry,
    ) -> Result<Offered, (Entry, Refused)>
        requires legal { IsLegal net.now self.old }
        ensures taken { IfOk result (Takes net.now self.old entry self.new) }
        ensures refused { IfErr result (λ e. (e.0 ≡ entry) × IsRefusal net.now self.old entry e.1) }
        ensures unchanged { OnErr result (self.new ≡ self.old) }
        ensures stays_legal { IsLegal net.now self.new }
    {
        match standing(self.judge(alloc, net, &entry)) {
            Ok(None) => self.take(alloc, entry),
            Ok(Some(place)) => Ok(Offered::Already(place)),
            Err(refused) => Err((entry, refused)),
        }
    }

    /// Takes an entry that is good over the first `known` entries as the last one, without judging it
    /// again, unless a later entry settles it.
    pub fn append(
        &mut self,
        alloc: Global,
        net: &Net,
        known: u64,
        entry: Entry,
    ) -> Result<Offered, (Entry, AllocError)>
        requires legal { IsLegal net.now self.old }
        requires known { known ≤ length self.old.entries }
        requires good { IsGood net.now (first_entries known self.old) entry }
        ensures answer { IfOk result (λ o. (o ≡ answer_to self.old entry) × IsFrom known o) }
        ensures after { OnOk result (self.new ≡ book_after self.old entry) }
        ensures refused { IfErr result (λ e. (e.0 ≡ entry) × (self.new ≡ self.old)) }
        ensures stays_legal { IsLegal net.now self.new }
    {
        let place = self.len();
        match self.settled_at(&entry) {
            Some(place) => Ok(Offered::Already(place)),
            None => match self.push(alloc, entry) {
                Ok(()) => Ok(Offered::At(place)),
                Err(refused) => Err(refused),
            },
        }
    }

    /// Takes entry `i` of another book as `append` does, and shares it with that book, so that a long list of
    /// steps isn't copied.
    pub fn append_shared(
        &mut self,
        net: &Net,
        known: u64,
        from: &Book,
        i: u64,
    ) -> Result<Offered, AllocError>
        requires legal { IsLegal net.now self.old }
        requires known { known ≤ length self.old.entries }
        requires there { i < length from.now.entries }
        requires good { IfSome (slice_get from.now.entries i)
            (λ e. IsGood net.now (first_entries known self.old) e) }
        ensures answer { IfSome (slice_get from.now.entries i)
            (λ e. IfOk result (λ o. (o ≡ answer_to self.old e) × IsFrom known o)) }
        ensures after { IfSome (slice_get from.now.entries i)
            (λ e. OnOk result (self.new ≡ book_after self.old e)) }
        ensures refused { OnErr result (self.new ≡ self.old) }
        ensures stays_legal { IsLegal net.now self.new }
    {
        let place = self.len();
        match from.entry(i) {
            Some(entry) => match self.settled_at(entry) {
                Some(place) => Ok(Offered::Already(place)),
                None => {
                    self.push_shared(from, i)?;
                    Ok(Offered::At(place))
                }
            },
            None => unreachable!(),
        }
    }

    /// Takes an entry that is good over this book as its last one.
    fn take(&mut self, alloc: Global, entry: Entry) -> Result<Offered, (Entry, Refused)>
        requires { settled_at self.old.entries entry ≡ None }
        ensures taken { IfOk result
            (λ o. (o ≡ Offered.At (length self.old.entries)) × (self.new ≡ with_last self.old entry)) }
        ensures refused { IfErr result (λ e. (e.0 ≡ entry) × (e.1 ≡ Refused.NoMemory)) }
        ensures unchanged { OnErr result (self.new ≡ self.old) }
    {
        let place = self.len();
        match self.push(alloc, entry) {
            Ok(()) => Ok(Offered::At(place)),
            Err((entry, AllocError)) => Err((entry, Refused::NoMemory)),
        }
    }

    /// The place of the entry that settles this one; none where no entry does.
    pub(crate) fn settled_at(&self, entry: &Entry) -> Option<u64>
        ensures { result ≡ settled_at self.now.entries entry.now }
    {
        match entry.subject() {
            Some(subject) => self.place_on(subject),
            None => None,
        }
    }
}

/// How an entry stands that is judged so: it is refused, settled at a place, or neither where it is good.
fn standing(judgement: Result<Judgement, AllocError>) -> Result<Option<u64>, Refused>
    ensures { result ≡ standing_of judgement }
{
    match judgement {
        Ok(Judgement::Good) => Ok(None),
        Ok(Judgement::Settled(place)) => Ok(Some(place)),
        Ok(Judgement::NotApart) => Err(Refused::NotApart),
        Ok(Judgement::Bad(fault)) => Err(Refused::Bad(fault)),
        Err(AllocError) => Err(Refused::NoMemory),
    }
}
