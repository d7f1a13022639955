ghost use Rattle.std.specs.Prelude.{◌≡◌, ◌<◌, ◌≤◌, ◌+◌, ◌&&◌, not, length, OnOk, IfOk, IsSome};
ghost use Rattle.std.specs.Bool.{OnTrue, OnFalse};
ghost use Rattle.lits.specs.Clause.{has};
ghost use Rattle.lits.specs.Same.{same_lit, opposite};
ghost use Rattle.watch_lists.specs.Trail.{IsTrail, IsConflict, put_at, clause_at};
ghost use Rattle.solver_watch.specs.Marked.{is_marked, AreMet, Keeps, IsCounted, IsBlank, MarksOne, IsMarking, IsCut, IsWalking, IsSupported, IsRefuted, IsTraced};

use crate::marks::Marks;
use crate::order::Order;
use lits::{Clause, Lit, Literal};
use std::alloc::{AllocError, Global};
use watch_lists::{Put, Trail, flip};

/// What the analysis of a conflict has met: the places of the literals that the conflict comes from.
///
/// It is the implication graph's cut of Marques-Silva and Sakallah (1996), walked backwards along the
/// trail by marks, so that each place and each reason is looked at once.
#[derive(Drop)]
pub(crate) struct Cut {
    pub(crate) marks: Marks,
    /// The marked places of earlier levels.
    pub(crate) below: Vec<usize>,
    /// How many places of the last level are marked.
    pub(crate) count: usize,
}

impl Cut {
    /// A cut that has met nothing.
    pub(crate) fn new(alloc: Global) -> Cut {
        Cut {
            marks: Marks::new(alloc),
            below: Vec::new(alloc),
            count: 0,
        }
    }

    /// Forgets what was met, and makes room for so many places.
    fn clear(&mut self, count: usize) -> Result<(), AllocError>
        ensures { OnOk result (IsBlank count self.new) }
    {
        self.below.clear();
        self.count = 0;
        self.marks.clear(count)
    }

    /// Marks a place.
    fn mark(&mut self, puts: &[Put], place: usize, level: u64) -> Result<(), AllocError>
        requires counted { IsCounted puts.now level self.old }
        requires place { place < length puts.now }
        ensures counted { OnOk result (IsCounted puts.now level self.new) }
        ensures marks { OnOk result (MarksOne self.old.marks place self.new.marks) }
    {
        if self.marks.has(place) {
            return Ok(());
        }
        if puts[place].level == level {
            self.count += 1;
        } else {
            self.below.push(place)?;
        }
        self.marks.put(place);
        Ok(())
    }

    /// Marks the negations of the clause's literals.
    fn mark_clause(
        &mut self,
        trail: &Trail,
        order: &mut Order,
        number: u64,
    ) -> Result<(), AllocError>
        requires counted { IsCounted trail.now.puts trail.now.last self.old }
        requires number { number < length trail.now.clauses }
        ensures { OnOk result (IsMarking trail.now (clause_at trail.now.clauses number) self.old self.new) }
    {
        let puts = trail.lits();
        let level = trail.level();
        for code in trail.clause(number) {
            match trail.place(flip(*code)) {
                Some(place) => {
                    order.bump(*code / 2);
                    self.mark(puts, place, level)?;
                }
                None => {}
            }
        }
        Ok(())
    }

    /// Marks what the put at a place was forced by.
    fn resolve(&mut self, trail: &Trail, order: &mut Order, place: usize) -> Result<(), AllocError>
        requires counted { IsCounted trail.now.puts trail.now.last self.old }
        requires place { place < length trail.now.puts }
        requires forced { IsSome (put_at trail.now.puts place).by }
        ensures { OnOk result (IsTraced trail.now place self.old self.new) }
    {
        let Some(by) = trail.lits()[place].by else {
            unreachable!();
        };
        self.mark_clause(trail, order, by)?;
        Ok(())
    }

    /// Goes back from a conflict to the first unique implication point: the last place of the last
    /// level through which all of the conflict comes (Moskewicz, Madigan, Zhao, Zhang and Malik 2001).
    pub(crate) fn first_point(
        &mut self,
        trail: &Trail,
        order: &mut Order,
        conflict: u64,
    ) -> Result<usize, AllocError>
        requires number { conflict < length trail.now.clauses }
        requires conflict { IsConflict trail.now.puts (clause_at trail.now.clauses conflict) }
        requires level { 1 ≤ trail.now.last }
        ensures cut { IfOk result (λ point. IsCut trail.now point self.new) }
        ensures met { OnOk result
            (AreMet trail.now.puts self.new.marks (clause_at trail.now.clauses conflict)) }
    {
        let count = trail.lits().len();
        self.clear(count)?;
        self.mark_clause(trail, order, conflict)?;
        let mut passed: usize = 0;
        let mut place = count;
        while place > 0 {
            place -= 1;
            if self.is_point(trail, order, place, &mut passed)? {
                return Ok(place);
            }
        }
        unreachable!()
    }

    /// Whether the place is the point; otherwise it is resolved, if it is marked.
    fn is_point(
        &mut self,
        trail: &Trail,
        order: &mut Order,
        place: usize,
        passed: &mut usize,
    ) -> Result<bool, AllocError>
        requires trail { IsTrail trail.now }
        requires place { place < length trail.now.puts }
        requires walking { IsWalking trail.now passed.old (place + 1) self.old }
        ensures point { IfOk result (λ b. OnTrue b (IsCut trail.now place self.new)) }
        ensures walking { IfOk result (λ b. OnFalse b (IsWalking trail.now passed.new place self.new)) }
        ensures keeps { OnOk result (Keeps self.old.marks self.new.marks) }
    {
        if !self.marks.has(place) {
            return Ok(false);
        }
        let count = self.count;
        *passed += 1;
        if *passed == count {
            return Ok(true);
        }
        self.resolve(trail, order, place)?;
        Ok(false)
    }

    /// Goes back from a conflict to the target's negations, where no other decision stands.
    pub(crate) fn to_target(
        &mut self,
        trail: &Trail,
        order: &mut Order,
        target: &Clause<Lit>,
        conflict: u64,
    ) -> Result<(), AllocError>
        requires { IsRefuted trail.now target.now conflict }
        ensures { OnOk result (IsSupported trail.now self.new.marks 0 target.now target.now conflict) }
    {
        let count = trail.lits().len();
        self.clear(count)?;
        self.mark_clause(trail, order, conflict)?;
        let mut place = count;
        while place > 0 {
            place -= 1;
            if self.is_behind(trail, target, place) {
                self.resolve(trail, order, place)?;
            }
        }
        Ok(())
    }

    /// Whether the place is marked and not that of one of the target's negations.
    fn is_behind(&self, trail: &Trail, target: &Clause<Lit>, place: usize) -> bool
        requires place { place < length trail.now.puts }
        requires room { length trail.now.puts ≤ length self.now.marks }
        ensures { result
            ≡ (is_marked self.now.marks place
            && not (has same_lit target.now (opposite (put_at trail.now.puts place).lit))) }
    {
        self.marks.has(place) && !target.has(trail.lits()[place].lit.not())
    }
}
