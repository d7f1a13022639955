use crate::given::Given;
use crate::reason::Reason;
use crate::solver::LazySolver;
use crate::trail::Levels;
use search_parts::HintSpan;
use std::alloc::AllocError;

/// What a query of two codes ends with.
#[derive(Clone, Copy)]
pub(super) enum Outcome {
    /// They aren't both true, by these clauses.
    Refuted(HintSpan),
    /// They are both true on the inputs that the trail has, where all others are false.
    Possible,
    /// A cap was reached.
    Open,
}

impl LazySolver {
    /// Asks whether two codes can both be true.
    pub(super) fn ask(
        &mut self,
        given: &Given,
        first: u32,
        second: u32,
    ) -> Result<Outcome, AllocError> {
        self.trail.cut(0);
        self.assumed = [first, second];
        for _ in 0..u64::MAX {
            if let Some(outcome) = self.round(given, first, second)? {
                return Ok(outcome);
            }
        }
        Ok(Outcome::Open)
    }

    /// Propagates, and then learns from a conflict or makes a choice.
    fn round(
        &mut self,
        given: &Given,
        first: u32,
        second: u32,
    ) -> Result<Option<Outcome>, AllocError> {
        let conflict = self.conflict(given)?;
        if self.trail.level() == 0 {
            return self.assume(first, second, conflict);
        }
        match conflict {
            Some(conflict) => self.meet(conflict),
            None => self.go_on(),
        }
    }

    /// A clause that is false, if propagation finds one.
    fn conflict(&mut self, given: &Given) -> Result<Option<Reason>, AllocError> {
        if self.denied.is_some() {
            return Ok(self.denied);
        }
        self.propagate(given)
    }

    /// Assumes the codes, unless they are refuted before anything is assumed: one of them is false already, or
    /// a clause is. Such a clause stands for the whole query; there is one only where no input is admitted.
    fn assume(
        &mut self,
        first: u32,
        second: u32,
        conflict: Option<Reason>,
    ) -> Result<Option<Outcome>, AllocError> {
        if let Some(refuted) = self.trail.refuted(first, second) {
            return self.meet(refuted);
        }
        if let Some(conflict) = conflict {
            self.denied = Some(conflict);
            return self.meet(conflict);
        }
        self.trail.assume(first, second)?;
        Ok(None)
    }

    /// Makes the next choice, or ends where no gate is left to be justified.
    fn go_on(&mut self) -> Result<Option<Outcome>, AllocError> {
        let Some(code) = self.trail.open_fanin(&self.variables) else {
            return Ok(Some(Outcome::Possible));
        };
        if self.left.decisions == 0 {
            return Ok(Some(Outcome::Open));
        }
        self.left.decisions -= 1;
        self.trail.decide(code)?;
        Ok(None)
    }

    /// Answers a conflict of what is assumed, and learns from any other. The clause of a gate that came late
    /// may have one code alone at its highest level: then it should have forced that code earlier, and does so
    /// now.
    fn meet(&mut self, conflict: Reason) -> Result<Option<Outcome>, AllocError> {
        let levels = self.levels(conflict);
        if levels.highest <= 1 {
            let hints = self.refutation(conflict)?;
            return Ok(Some(Outcome::Refuted(hints)));
        }
        if levels.many == 1 {
            self.trail.cut(levels.second);
            self.trail.assign(levels.last, conflict);
            return Ok(None);
        }
        self.trail.cut(levels.highest);
        if self.left.conflicts == 0 {
            return Ok(Some(Outcome::Open));
        }
        self.left.conflicts -= 1;
        self.conflicts = self.conflicts.saturating_add(1);
        self.learned.learn(
            &self.variables,
            &mut self.clauses,
            &mut self.trail,
            &mut self.watches,
            conflict,
        )?;
        Ok(None)
    }

    /// The levels of the codes of a false clause.
    fn levels(&self, conflict: Reason) -> Levels {
        match conflict {
            Reason::Listed(number) => self.trail.levels(self.clauses.get(number)),
            _ => self.trail.levels(&self.variables.codes(conflict)),
        }
    }

    /// The clauses by which a false clause refutes what is assumed.
    fn refutation(&mut self, conflict: Reason) -> Result<HintSpan, AllocError> {
        self.learned.refutation(
            &self.variables,
            &self.clauses,
            &self.trail,
            &self.assumed,
            conflict,
        )
    }
}
