ghost use Rattle.std.specs.Prelude.{◌≡◌, IfOk, IfSome, OnErr};
ghost use Rattle.lemma_book.specs.Book.{IsLegal};
ghost use Rattle.lemma_book.specs.Good.{IsGood};
ghost use Rattle.circuit_search.specs.Answer.{CountsDropped, CountsRefused, Finds, SettlesOutput, SettlesPair};

use crate::judged::judged;
use crate::proposer::Proposer;
use crate::shared::Shared;
use lemma_book::{Book, Entry, Judge, Task};
use netlist::Net;
use search_parts::Caps;
use std::alloc::{AllocError, Global};

/// Searches a net for why two nodes, or the two literals of an output, are equal or not. It keeps its memory
/// from query to query.
pub struct Search {
    proposer: Proposer,
    judge: Judge,
    dropped: u64,
}

// Written out, so that a drop is one call and not one for each field at each exit of a function.
impl Drop for Search {
    fn drop(self) {
        let Search {
            proposer: _,
            judge: _,
            dropped: _,
        } = self;
    }
}

impl Search {
    /// A search of a net, over any of its books.
    pub fn new(alloc: Global, net: &Net) -> Result<Search, AllocError>
        ensures { IfOk result (λ s. s.dropped ≡ 0) }
    {
        Ok(Search {
            proposer: Proposer::of(alloc, net)?,
            judge: Judge::new(alloc),
            dropped: 0,
        })
    }

    /// How many of the entries that it found the books refused.
    pub fn dropped(&self) -> u64
        ensures { result ≡ self.now.dropped }
    {
        self.dropped
    }

    /// How many clauses its queries learned, each from a conflict. It is a count for the reader: nothing is
    /// claimed of it.
    pub fn conflicts(&self) -> u64 {
        self.proposer.conflicts()
    }

    /// Searches for an entry about a pair: that node and literal have one value, or an input on which they
    /// differ. None where it gives up.
    pub fn pair(
        &mut self,
        alloc: Global,
        net: &Net,
        book: &Book,
        task: &Task,
        caps: Caps,
    ) -> Result<Option<Entry>, AllocError>
        requires legal { IsLegal net.now book.now }
        ensures found { IfOk result (Finds (SettlesPair task.now) net.now book.now) }
        ensures counted { IfOk result (CountsDropped self.old.dropped self.new.dropped) }
        ensures err { OnErr result (self.new.dropped ≡ self.old.dropped) }
    {
        self.proposer.catch_up(net, book);
        let steps = book.sweep_budget().saturating_add(2);
        match self.proposer.pair(alloc, net, task, caps, steps)? {
            Some(entry) => self.judged(alloc, net, book, entry),
            None => Ok(None),
        }
    }

    /// Searches for an entry about an output, as `output` does, but not for long.
    pub fn output_shortly(
        &mut self,
        alloc: Global,
        net: &Net,
        book: &Book,
        output: u32,
        caps: Caps,
    ) -> Result<Option<Entry>, AllocError>
        requires legal { IsLegal net.now book.now }
        ensures found { IfOk result (Finds (SettlesOutput output) net.now book.now) }
        ensures counted { IfOk result (CountsDropped self.old.dropped self.new.dropped) }
        ensures err { OnErr result (self.new.dropped ≡ self.old.dropped) }
    {
        self.proposer.catch_up(net, book);
        match self.proposer.output_shortly(alloc, net, output, caps)? {
            Some(entry) => self.judged(alloc, net, book, entry),
            None => Ok(None),
        }
    }

    /// Hands out the equalities that were found since the exchange before, and takes in those that others found.
    /// The first search that comes looks for equalities of the pairs that the book leaves open.
    pub fn exchange(
        &mut self,
        alloc: Global,
        net: &Net,
        shared: &mut Shared,
        caps: Caps,
    ) -> Result<(), AllocError>
        ensures { self.new.dropped ≡ self.old.dropped }
    {
        self.proposer.exchange(alloc, net, shared, caps)
    }

    /// Searches for an entry about an output: that both circuits give it one value, or an input on which they
    /// don't. None where it gives up.
    pub fn output(
        &mut self,
        alloc: Global,
        net: &Net,
        book: &Book,
        output: u32,
        caps: Caps,
    ) -> Result<Option<Entry>, AllocError>
        requires legal { IsLegal net.now book.now }
        ensures found { IfOk result (Finds (SettlesOutput output) net.now book.now) }
        ensures counted { IfOk result (CountsDropped self.old.dropped self.new.dropped) }
        ensures err { OnErr result (self.new.dropped ≡ self.old.dropped) }
    {
        self.proposer.catch_up(net, book);
        match self.proposer.output(alloc, net, output, caps)? {
            Some(entry) => self.judged(alloc, net, book, entry),
            None => Ok(None),
        }
    }

    /// The entry, if it is good over the book; else it is counted.
    fn judged(
        &mut self,
        alloc: Global,
        net: &Net,
        book: &Book,
        entry: Entry,
    ) -> Result<Option<Entry>, AllocError>
        requires legal { IsLegal net.now book.now }
        ensures good { IfOk result (λ o. IfSome o (λ e. (e ≡ entry) × IsGood net.now book.now e)) }
        ensures counted { IfOk result (CountsRefused self.old.dropped self.new.dropped) }
        ensures err { OnErr result (self.new.dropped ≡ self.old.dropped) }
    {
        let judged = judged(alloc, net, book, &mut self.judge, entry)?;
        if judged.is_none() {
            self.dropped = self.dropped.saturating_add(1);
        }
        Ok(judged)
    }
}
