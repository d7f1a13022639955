use crate::clauses::{Clauses, Name};
use crate::learned::LearnedClauses;
use crate::reason::Reason;
use crate::trail::Trail;
use crate::variables::Variables;
use crate::watches::Watches;
use search_parts::{FALSE, HintSpan, at, count, put};
use std::alloc::AllocError;

impl LearnedClauses {
    /// Learns from a clause that is false at the last level: keeps the clause that is learned, goes back to
    /// where it forces a code, and makes that true.
    pub(crate) fn learn(
        &mut self,
        variables: &Variables,
        clauses: &mut Clauses,
        trail: &mut Trail,
        watches: &mut Watches,
        conflict: Reason,
    ) -> Result<(), AllocError> {
        let hints = self.analyze(variables, clauses, trail, conflict)?;
        let second = self.bring_second(trail);
        let number = clauses.push(&self.lits, Name::Learned(self.len()))?;
        let first = at(&self.lits, 0);
        if self.lits.len() > 1 {
            watches.watch(number, first, at(&self.lits, 1), variables.len())?;
        }
        trail.cut(second);
        trail.assign(first, Reason::Listed(number));
        self.push(number, hints)
    }

    /// Finds the clause of the first unique implication point of a conflict at the last level, by the reasons
    /// between it and the conflict (Marques-Silva and Sakallah 1996). Gives the clauses that show it.
    fn analyze(
        &mut self,
        variables: &Variables,
        clauses: &Clauses,
        trail: &Trail,
        conflict: Reason,
    ) -> Result<HintSpan, AllocError> {
        self.restart(variables.len())?;
        self.lits.push(0)?;
        self.follow(variables, clauses, trail, conflict, trail.level())?;
        self.climb(variables, clauses, trail)?;
        self.descend(variables, clauses, trail)?;
        for place in 1..count(self.lits.len()) {
            let var = at(&self.lits, place) / 2;
            let _marked = self.unmark(var);
        }
        self.keep_trace()
    }

    /// Follows the reasons of the last level up to its first unique implication point, which becomes the
    /// first code of the clause.
    fn climb(
        &mut self,
        variables: &Variables,
        clauses: &Clauses,
        trail: &Trail,
    ) -> Result<(), AllocError> {
        for place in (0..trail.log.len()).rev() {
            let code = trail.log.lit(place);
            if self.pass(trail, code / 2) {
                if self.last == 0 {
                    put(&mut self.lits, 0, code ^ 1);
                    return Ok(());
                }
                let reason = trail.cause(code / 2).reason;
                self.follow(variables, clauses, trail, reason, trail.level())?;
            }
        }
        Ok(())
    }

    /// Follows the reasons of the codes of level 0, as long as one is marked: mostly none is.
    fn descend(
        &mut self,
        variables: &Variables,
        clauses: &Clauses,
        trail: &Trail,
    ) -> Result<(), AllocError> {
        for place in (0..trail.ground()).rev() {
            if self.ground == 0 {
                return Ok(());
            }
            let var = trail.log.lit(place) / 2;
            if self.pass(trail, var) {
                self.follow(variables, clauses, trail, trail.cause(var).reason, 0)?;
            }
        }
        Ok(())
    }

    /// The clauses by which a false clause, whose codes stand on levels 0 and 1, refutes what is assumed of the
    /// variables of some codes.
    pub(crate) fn refutation(
        &mut self,
        variables: &Variables,
        clauses: &Clauses,
        trail: &Trail,
        assumed: &[u32],
        conflict: Reason,
    ) -> Result<HintSpan, AllocError> {
        self.restart(variables.len())?;
        self.follow(variables, clauses, trail, conflict, 1)?;
        for place in (0..trail.log.len()).rev() {
            if self.last == 0 && self.ground == 0 {
                break;
            }
            let var = trail.log.lit(place) / 2;
            if self.pass(trail, var) && !has_variable(assumed, var) {
                self.follow(variables, clauses, trail, trail.cause(var).reason, 1)?;
            }
        }
        self.keep_trace()
    }

    /// Takes a clause as a hint, and marks what makes its codes false. Those below the level, but not on
    /// level 0, go into the clause that is learned.
    #[inline(always)]
    fn follow(
        &mut self,
        variables: &Variables,
        clauses: &Clauses,
        trail: &Trail,
        reason: Reason,
        level: u32,
    ) -> Result<(), AllocError> {
        self.trace.push(reason)?;
        match reason {
            Reason::Listed(number) => {
                for code in clauses.get(number) {
                    self.follow_code(trail, *code, level)?;
                }
                Ok(())
            }
            _ => {
                let [first, second, third] = variables.codes(reason);
                self.follow_code(trail, first, level)?;
                self.follow_code(trail, second, level)?;
                self.follow_code(trail, third, level)
            }
        }
    }

    /// Marks the variable of a code that is false: it is followed later, or goes into the clause.
    #[inline(always)]
    fn follow_code(&mut self, trail: &Trail, code: u32, level: u32) -> Result<(), AllocError> {
        if trail.value(code) != FALSE || !self.mark(code / 2) {
            return Ok(());
        }
        let from = trail.cause(code / 2).level;
        if from == 0 {
            self.ground = self.ground.saturating_add(1);
        } else if from == level {
            self.last = self.last.saturating_add(1);
        } else {
            self.lits.push(code)?;
        }
        Ok(())
    }

    /// Takes the mark of a variable of the level, or of level 0, away; false where it had none.
    #[inline(always)]
    fn pass(&mut self, trail: &Trail, var: u32) -> bool {
        if !self.unmark(var) {
            return false;
        }
        if trail.cause(var).level == 0 {
            self.ground = self.ground.saturating_sub(1);
        } else {
            self.last = self.last.saturating_sub(1);
        }
        true
    }

    /// Brings the code of the highest level behind the first one to the second place, and tells its level; 0
    /// where there is none.
    fn bring_second(&mut self, trail: &Trail) -> u32 {
        let mut highest = 0;
        let mut found = 1;
        for place in 1..self.lits.len() {
            let level = trail.cause(self.lits[place] / 2).level;
            if level > highest {
                highest = level;
                found = place;
            }
        }
        if found < self.lits.len() && self.lits.len() > 1 {
            self.lits.swap(1, found);
        }
        highest
    }
}

/// Whether a code of the list is of this variable.
fn has_variable(codes: &[u32], var: u32) -> bool {
    for code in codes {
        if *code / 2 == var {
            return true;
        }
    }
    false
}
