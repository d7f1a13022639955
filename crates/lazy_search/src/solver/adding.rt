use crate::clauses::Name;
use crate::given::Given;
use crate::reason::Reason;
use crate::solver::LazySolver;
use search_parts::{FREE, HintSpan, NONE, at, count};
use std::alloc::AllocError;
use xor_sums::{Move, Sums};

/// How often a clause may be split for what it takes.
const SPLITS: u32 = 1 << 16;

/// Whether a clause follows by unit propagation.
#[derive(Clone, Copy)]
enum Shown {
    /// It does, and is kept under this number.
    Yes(u32),
    /// It may follow by cases of this variable.
    Open(u32),
    No,
}

impl LazySolver {
    /// Learns what makes two codes equal by propagation alone, where they are sums of the same nodes and this
    /// takes at most so many steps. Whether it did.
    pub(super) fn add_up(
        &mut self,
        given: &Given,
        sums: &mut Sums,
        first: u32,
        second: u32,
        most: u64,
    ) -> Result<bool, AllocError> {
        if !self.list_gates(given, sums, first, second, most)? {
            return Ok(false);
        }
        if !sums.make_plan(most)? {
            return Ok(false);
        }
        let moves = sums.moves();
        for place in 0..moves {
            let is_last = place.saturating_add(1) == moves;
            if !self.follow_move(given, sums, place, is_last)? {
                return Ok(false);
            }
        }
        Ok(true)
    }

    /// Lists the gates whose sum is that of two codes, from the highest on. Whether there are such gates, at
    /// least a few and no more than can be added up in so many steps.
    fn list_gates(
        &mut self,
        given: &Given,
        sums: &mut Sums,
        first: u32,
        second: u32,
        most: u64,
    ) -> Result<bool, AllocError> {
        let one = self.root(given, first)?;
        let two = self.root(given, second)?;
        sums.begin(one / 2, two / 2);
        let mut is_odd = (one ^ two) & 1 == 1;
        self.add_pending(sums, one)?;
        self.add_pending(sums, two)?;
        for _ in 0..most {
            let Some(position) = sums.next_pending() else {
                return Ok(!is_odd && sums.has_enough());
            };
            if !sums.cancels(position) {
                let var = self.variables.number(position)?;
                let Some(gate) = self.exclusive(given, var)? else {
                    return Ok(false);
                };
                is_odd ^= gate.is_odd();
                sums.add_gate(var, gate)?;
                self.add_pending(sums, gate.left)?;
                self.add_pending(sums, gate.right)?;
            }
        }
        Ok(false)
    }

    /// Notes that a code's node is a term of the sum.
    fn add_pending(&self, sums: &mut Sums, code: u32) -> Result<(), AllocError> {
        sums.add_pending(self.variables.position(code / 2))
    }

    /// Makes a move of the order. Whether all was shown.
    fn follow_move(
        &mut self,
        given: &Given,
        sums: &mut Sums,
        place: u32,
        is_last: bool,
    ) -> Result<bool, AllocError> {
        match sums.order(place) {
            Some(Move::Join(one, two)) => {
                sums.unite(one, two)?;
                Ok(true)
            }
            Some(Move::Say(sum)) => self.say(given, sums, sum, is_last),
            None => Ok(false),
        }
    }

    /// Learns the clauses of a sum. Whether they were all shown.
    fn say(
        &mut self,
        given: &Given,
        sums: &mut Sums,
        sum: u32,
        is_last: bool,
    ) -> Result<bool, AllocError> {
        let first = sums.said();
        let assignments = sums.begin_saying(sum)?;
        for values in 0..assignments {
            if sums.begin_goal(sum, values)? && !self.show_goal(given, sums, sum, is_last)? {
                return Ok(false);
            }
        }
        sums.note_said(sum);
        self.watch_said(sums, first)?;
        Ok(true)
    }

    /// Watches the clauses of sums from a place on. Now and then all are watched anew but those of sums that
    /// aren't needed any more: with these, and with cases watched too, a CRC of 16 by 32 bits took twice as long.
    fn watch_said(&mut self, sums: &mut Sums, first: usize) -> Result<(), AllocError> {
        let mut from = first;
        if sums.is_stale() {
            self.watches.clear();
            sums.keep_needed();
            from = 0;
        }
        for place in from..sums.said() {
            self.watch(sums.said_at(place))?;
        }
        Ok(())
    }

    /// Watches a clause by its first two codes.
    fn watch(&mut self, clause: u32) -> Result<(), AllocError> {
        let codes = self.clauses.get(clause);
        let (first, second) = (at(codes, 0), at(codes, 1));
        self.watches
            .watch(clause, first, second, self.variables.len())
    }

    /// Shows a clause, after clauses that have terms of the sum's parts besides. One of the last sum isn't kept,
    /// since the query finds it by what it rests on.
    fn show_goal(
        &mut self,
        given: &Given,
        sums: &mut Sums,
        sum: u32,
        is_last: bool,
    ) -> Result<bool, AllocError> {
        let whole = sums.goal().len();
        for _ in 0..SPLITS {
            let is_whole = sums.goal().len() == whole;
            match self.show(given, sums, !(is_last && is_whole))? {
                Shown::Yes(_) if is_whole && is_last => return Ok(true),
                Shown::Yes(clause) if is_whole => {
                    sums.push_said(sum, clause)?;
                    return Ok(true);
                }
                Shown::Yes(clause) => {
                    sums.end_case(clause)?;
                    if is_last {
                        self.watch(clause)?;
                    }
                }
                Shown::Open(var) => sums.begin_case(var.wrapping_mul(2))?,
                Shown::No => return Ok(false),
            }
        }
        Ok(false)
    }

    /// A term of the sum's parts that has no value.
    fn free_inner(&self, sums: &Sums) -> Option<u32> {
        for var in sums.inner() {
            if self.trail.value(var.wrapping_mul(2)) == FREE {
                return Some(*var);
            }
        }
        None
    }

    /// Asks whether the clause that is to be shown follows by unit propagation; then it is kept, if that is
    /// asked for.
    fn show(&mut self, given: &Given, sums: &Sums, is_kept: bool) -> Result<Shown, AllocError> {
        self.trail.cut(0);
        if self.denied.is_some() || self.propagate(given)?.is_some() {
            return Ok(Shown::No);
        }
        if !self.assume_opposite(sums)? {
            return Ok(Shown::No);
        }
        let Some(conflict) = self.propagate(given)? else {
            return Ok(match self.free_inner(sums) {
                Some(var) => Shown::Open(var),
                None => Shown::No,
            });
        };
        if !is_kept {
            return Ok(Shown::Yes(NONE));
        }
        let hints = self.learned.refutation(
            &self.variables,
            &self.clauses,
            &self.trail,
            sums.goal(),
            conflict,
        )?;
        self.trail.cut(0);
        self.keep_goal(sums.goal(), hints)
    }

    /// Assumes that each code of the clause is false, at a level of its own; unless one has a value by itself.
    fn assume_opposite(&mut self, sums: &Sums) -> Result<bool, AllocError> {
        for code in sums.goal() {
            if self.trail.value(*code) != FREE {
                return Ok(false);
            }
        }
        self.trail.begin()?;
        for place in 0..count(sums.goal().len()) {
            self.trail.choose(at(sums.goal(), place) ^ 1);
        }
        for case in sums.cases() {
            if self.trail.value(case.code) == FREE {
                self.trail.assign(case.code, Reason::Listed(case.clause));
            }
        }
        Ok(true)
    }

    /// Keeps a clause, all of whose codes are free, as a learned one with these hints.
    fn keep_goal(&mut self, goal: &[u32], hints: HintSpan) -> Result<Shown, AllocError> {
        let name = Name::Learned(self.learned.len());
        let number = self.clauses.push(goal, name)?;
        if goal.len() == 1 {
            self.trail.assign(at(goal, 0), Reason::Listed(number));
        }
        self.learned.push(number, hints)?;
        Ok(Shown::Yes(number))
    }
}
