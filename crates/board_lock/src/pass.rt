//! A pass of a board: what one thread does to the shared book.
ghost use Rattle.std.specs.Prelude.{◌≡◌, ◌+◌, ◌^◌, ◌<◌, ◌≤◌, Some, length, IfOk, IfErr, OnOk, OnErr};
ghost use Rattle.lemma_book.specs.Entry.{settled_at};
ghost use Rattle.lemma_book.specs.declared.refused.Offered.TheVariants.{Already};
ghost use Rattle.lemma_book.specs.Good.{IsGood};
ghost use Rattle.lemma_book.specs.Book.{IsFrom};
ghost use Rattle.ticket_lock.specs.Views.{IsIdle};
ghost use Rattle.board_lock.specs.Pass.{DrewOne, SplitOff, Refreshed, OfferedOne, joined, missed_one, IsPass, held_of, Spends, Shares, Gains};

use crate::board::Board;
use crate::plays::{Asked, Place};
use crate::turn;
use lemma_book::{Book, Entry, Offered};
use netlist::Net;
use std::alloc::{AllocError, Global};
use std::marker::{Brand, Model};
use std::sync::Wait;

/// One thread's part in a board: the book as it has seen it, and so many turns.
///
/// Each draw, refresh, offer and split takes one turn. The turns that are left and those that were taken make
/// 2^62 over all passes of a board, so no number is drawn twice and none wraps.
#[derive(Drop)]
pub struct Pass {
    place: Place,
    number: u64,
    seen: Book,
    left: u64,
}

impl Model for Pass {
    ghost use Rattle.board_lock.specs.Pass.{Held, held_of, IsPass};

    ghost Value = { Held };

    ghost view = { λ p. held_of p.place.table_id p.place.me.0 };

    ghost invariant = { λ p. IsPass p.place.me p.number p.seen p.left };
}

impl Pass {
    /// The pass of a seat, by what its view says of it.
    pub(crate) fn of(place: Place, number: u64, seen: Book, left: u64) -> Pass
        requires { IsPass place.me number seen left }
        ensures { result ≡ held_of place.table_id place.me.0 }
    {
        Pass {
            place,
            number,
            seen,
            left,
        }
    }

    /// The seat, and no pass any more.
    pub(crate) fn into_place(self) -> Place
        ensures table { result.table_id ≡ self.table }
        ensures held { held_of result.table_id result.me.0 ≡ self }
        ensures idle { IsIdle result.me.0 }
    {
        self.place
    }

    /// The book as the pass knows it: the opening one, or that of its last refresh.
    pub fn seen(&self) -> &Book
        ensures { result.now ≡ self.now.known }
    {
        &self.seen
    }

    /// How many turns are left.
    pub fn left(&self) -> u64
        ensures { result ≡ self.now.left }
    {
        self.left
    }

    /// Draws the number of a task; none where there are no more tasks. No lock is taken.
    pub fn draw(&mut self, board: &Board) -> Option<u64>
        requires own { self.old.table ≡ board.now.table }
        requires left { 1 ≤ self.old.left }
        ensures drew { DrewOne board.now.tasks self.old self.new result }
        ensures spent { Spends self.old self.new }
    {
        let number = turn::draw(&board.lock, &mut self.place);
        self.left -= 1;
        if number < board.tasks {
            Some(number)
        } else {
            None
        }
    }

    /// Takes in another pass: this one knows the longer of both books, and has the turns, draws and answers
    /// of both.
    pub fn join(&mut self, board: &Board, other: Pass)
        requires own { (self.old.table ≡ board.now.table) × (other.table ≡ board.now.table) }
        requires few { self.old.left + other.left < 2 ^ 64 }
        ensures joined { self.new ≡ joined self.old other }
        ensures gained { Gains self.old other self.new }
    {
        let Pass {
            place,
            number: _,
            seen,
            left,
        } = other;
        turn::join(&board.lock, &mut self.place, place);
        self.left += left;
        if self.seen.len() <= seen.len() {
            self.seen = seen;
        }
    }

    /// A new pass with so many of the turns, which knows what this one knows. Where memory is refused nothing
    /// is done, and no turn is taken.
    pub fn split(&mut self, alloc: Global, board: &Board, turns: u64) -> Result<Pass, AllocError>
        requires own { self.old.table ≡ board.now.table }
        requires few { turns < self.old.left }
        ensures ok { IfOk result (SplitOff turns self.old self.new) }
        ensures shared { IfOk result (Shares turns self.old self.new) }
        ensures err { OnErr result (self.new ≡ self.old) }
    {
        let seen = self.seen.copy(alloc)?;
        let (number, place) = turn::split(&board.lock, &mut self.place, turns);
        self.left = self.left - 1 - turns;
        Ok(Pass::of(place, number, seen, turns))
    }

    /// Looks at the book, and answers how many entries there are. Only the entries past those that were seen
    /// are added, and they are shared. Where memory is refused the turn is missed.
    pub fn refresh<R: Wait>(
        &mut self,
        rt: &R,
        alloc: Global,
        board: &Board,
    ) -> Result<u64, AllocError>
        requires own { self.old.table ≡ board.now.table }
        requires left { 1 ≤ self.old.left }
        ensures ok { IfOk result (Refreshed board.now.root.net self.old self.new) }
        ensures err { OnErr result (self.new ≡ missed_one self.old) }
        ensures spent { Spends self.old self.new }
    {
        turn::come_in(rt, &board.lock, &mut self.place);
        let mut history = turn::take(alloc, &board.lock, &mut self.place);
        self.left -= 1;
        match history.look(alloc, &mut self.seen, self.number) {
            Ok(known) => {
                turn::leave_known::<Brand>(&board.lock, &mut self.place, history, known);
                Ok(known)
            }
            Err(AllocError) => {
                turn::miss(&board.lock, &mut self.place, history);
                Err(AllocError)
            }
        }
    }

    /// Offers an entry that is good over what the pass has seen, and is checked no more: it goes last, unless
    /// an entry settles it that the pass hasn't seen. Where memory is refused the turn is missed, and the
    /// entry comes back.
    pub fn offer<R: Wait>(
        &mut self,
        rt: &R,
        alloc: Global,
        net: &Net,
        board: &Board,
        entry: Entry,
    ) -> Result<Offered, (Entry, AllocError)>
        requires own { self.old.table ≡ board.now.table }
        requires net { net.now ≡ board.now.root.net }
        requires left { 1 ≤ self.old.left }
        requires good { IsGood net.now self.old.known entry }
        ensures ok { IfOk result (OfferedOne entry self.old self.new) }
        ensures from { IfOk result (IsFrom (length self.old.known.entries)) }
        ensures err { IfErr result (λ e. (e.0 ≡ entry) × (self.new ≡ missed_one self.old)) }
        ensures spent { Spends self.old self.new }
    {
        self.offer_by::<Brand, R>(rt, alloc, net, board, entry)
    }

    /// Notes that an entry is settled by one that the pass has seen, as if it had been offered too late. It isn't
    /// checked. Where memory is refused the turn is missed.
    pub fn note_settled<R: Wait>(
        &mut self,
        rt: &R,
        alloc: Global,
        board: &Board,
        entry: &Entry,
        place: u64,
    ) -> Result<(), AllocError>
        requires own { self.old.table ≡ board.now.table }
        requires left { 1 ≤ self.old.left }
        requires settled { settled_at self.old.known.entries entry.now ≡ Some place }
        ensures ok { OnOk result (OfferedOne entry.now self.old self.new (Already place)) }
        ensures err { OnErr result (self.new ≡ missed_one self.old) }
        ensures spent { Spends self.old self.new }
    {
        self.note_settled_by::<Brand, R>(rt, alloc, board, entry, place)
    }

    fn note_settled_by<N: Asked, R: Wait>(
        &mut self,
        rt: &R,
        alloc: Global,
        board: &Board,
        entry: &Entry,
        place: u64,
    ) -> Result<(), AllocError>
        requires asked { entry.now ≡ N.entry }
        requires own { self.old.table ≡ board.now.table }
        requires left { 1 ≤ self.old.left }
        requires settled { settled_at self.old.known.entries entry.now ≡ Some place }
        ensures ok { OnOk result (OfferedOne entry.now self.old self.new (Already place)) }
        ensures err { OnErr result (self.new ≡ missed_one self.old) }
        ensures spent { Spends self.old self.new }
    {
        turn::come_in(rt, &board.lock, &mut self.place);
        let mut history = turn::take(alloc, &board.lock, &mut self.place);
        self.left -= 1;
        match history.note_settled(self.number, entry, place) {
            Ok(()) => {
                let settled = Offered::Already(place);
                turn::leave_offered::<N>(&board.lock, &mut self.place, history, settled);
                Ok(())
            }
            Err(AllocError) => {
                turn::miss(&board.lock, &mut self.place, history);
                Err(AllocError)
            }
        }
    }

    fn offer_by<N: Asked, R: Wait>(
        &mut self,
        rt: &R,
        alloc: Global,
        net: &Net,
        board: &Board,
        entry: Entry,
    ) -> Result<Offered, (Entry, AllocError)>
        requires asked { entry ≡ N.entry }
        requires own { self.old.table ≡ board.now.table }
        requires net { net.now ≡ board.now.root.net }
        requires left { 1 ≤ self.old.left }
        requires good { IsGood net.now self.old.known entry }
        ensures ok { IfOk result (OfferedOne entry self.old self.new) }
        ensures from { IfOk result (IsFrom (length self.old.known.entries)) }
        ensures err { IfErr result (λ e. (e.0 ≡ entry) × (self.new ≡ missed_one self.old)) }
        ensures spent { Spends self.old self.new }
    {
        turn::come_in(rt, &board.lock, &mut self.place);
        let mut history = turn::take(alloc, &board.lock, &mut self.place);
        self.left -= 1;
        match history.append(alloc, net, self.seen.len(), self.number, entry) {
            Ok(offered) => {
                turn::leave_offered::<N>(&board.lock, &mut self.place, history, offered);
                Ok(offered)
            }
            Err(refused) => {
                turn::miss(&board.lock, &mut self.place, history);
                Err(refused)
            }
        }
    }
}
