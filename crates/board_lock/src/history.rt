ghost use Rattle.std.specs.Prelude.{◌≡◌, ◌+◌, ◌^◌, ◌<◌, ◌≤◌, Some, [], length, IfOk, IfErr, OnOk, OnErr};
ghost use Rattle.lemma_book.specs.Entry.{first_entries, settled_at};
ghost use Rattle.lemma_book.specs.Book.{IsLegal, StartsWith, IsFrom, answer_to};
ghost use Rattle.lemma_book.specs.Good.{IsGood};
ghost use Rattle.lemma_book.specs.declared.refused.Offered.TheVariants.{Already};
ghost use Rattle.sweep_core.specs.Run.{what_of as what_of_answer};
ghost use Rattle.board_lock.specs.declared.view.Said.TheVariants.{Known};
ghost use Rattle.board_lock.specs.Story.{Story, story_after, story_missed, note_of, said_of, IsAnswer};

use lemma_book::{Book, Entry, Offered, Turn, What};
use netlist::Net;
use std::alloc::{AllocError, Global};
use std::marker::Model;

/// What lies in the lock's slot: the book, the turns that were answered, and how many were missed.
#[derive(Drop)]
pub struct History {
    book: Book,
    turns: Vec<Turn>,
    missed: u64,
}

impl Model for History {
    ghost use Rattle.board_lock.specs.Story.{Story};

    ghost Value = { Story };

    ghost view = { λ h. record { book = h.book; turns = h.turns.items; missed = h.missed } };
}

impl History {
    /// The book, with no turn yet.
    pub fn of(alloc: Global, book: Book) -> History
        ensures { result ≡ record { book = book; turns = []; missed = 0 } }
    {
        History {
            book,
            turns: Vec::new(alloc),
            missed: 0,
        }
    }

    /// The book, the turns, and how many were missed.
    pub fn into_parts(self) -> (Book, Vec<Turn>, u64)
        ensures book { result.0 ≡ self.book }
        ensures turns { result.1.items ≡ self.turns }
        ensures missed { result.2 ≡ self.missed }
    {
        (self.book, self.turns, self.missed)
    }

    /// Counts a missed turn.
    pub fn miss(&mut self)
        requires { self.old.missed < 2 ^ 62 }
        ensures { self.new ≡ story_missed self.old }
    {
        self.missed += 1;
    }

    /// Adds the book's further entries to those that were seen, and answers how many there are; the turn is
    /// noted. Where memory is refused nothing has changed.
    pub fn look(&mut self, alloc: Global, seen: &mut Book, pass: u64) -> Result<u64, AllocError>
        requires { StartsWith self.old.book seen.old }
        ensures seen { OnOk result (seen.new ≡ self.old.book) }
        ensures known { IfOk result (λ n. n ≡ length self.old.book.entries) }
        ensures noted { IfOk result (λ n. self.new ≡ story_after self.old (note_of pass (Known n))) }
        ensures err { OnErr result ((seen.new ≡ seen.old) × (self.new ≡ self.old)) }
    {
        self.turns.reserve(1)?;
        seen.catch_up(alloc, &self.book)?;
        let known = self.book.len();
        self.turns.push_reserved(Turn {
            pass,
            what: What::Known(known),
        });
        Ok(known)
    }

    /// Puts an entry last that is good over the first `known` ones, or answers the one that settles it; the
    /// turn is noted. Where memory is refused the entry comes back, and nothing has changed.
    pub fn append(
        &mut self,
        alloc: Global,
        net: &Net,
        known: u64,
        pass: u64,
        entry: Entry,
    ) -> Result<Offered, (Entry, AllocError)>
        requires legal { IsLegal net.now self.old.book }
        requires known { known ≤ length self.old.book.entries }
        requires good { IsGood net.now (first_entries known self.old.book) entry }
        ensures answer { IfOk result (λ o. o ≡ answer_to self.old.book entry) }
        ensures machine { IfOk result (λ o. IsAnswer net.now self.old.book (said_of entry o)) }
        ensures from { IfOk result (IsFrom known) }
        ensures noted { IfOk result (λ o. self.new ≡ story_after self.old (note_of pass (said_of entry o))) }
        ensures err { IfErr result (λ e. (e.0 ≡ entry) × (self.new ≡ self.old)) }
    {
        let Ok(()) = self.turns.reserve(1) else {
            return Err((entry, AllocError));
        };
        match self.book.append(alloc, net, known, entry) {
            Ok(offered) => {
                self.turns.push_reserved(Turn {
                    pass,
                    what: what_of(offered),
                });
                Ok(offered)
            }
            Err(refused) => Err(refused),
        }
    }

    /// Notes that the entry at a place settles this one, which isn't put last. Where memory is refused nothing
    /// has changed.
    pub fn note_settled(&mut self, pass: u64, entry: &Entry, place: u64) -> Result<(), AllocError>
        requires { settled_at self.old.book.entries entry.now ≡ Some place }
        ensures noted { OnOk result (self.new ≡ story_after self.old (note_of pass (said_of entry.now (Already place)))) }
        ensures err { OnErr result (self.new ≡ self.old) }
    {
        self.turns.reserve(1)?;
        let _settled = entry;
        self.turns.push_reserved(Turn {
            pass,
            what: What::Already(place),
        });
        Ok(())
    }
}

/// What an answer says of the book.
fn what_of(offered: Offered) -> What
    ensures { result ≡ what_of_answer offered }
{
    match offered {
        Offered::At(place) => What::At(place),
        Offered::Already(place) => What::Already(place),
    }
}
