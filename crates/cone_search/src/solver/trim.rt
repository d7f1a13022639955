use crate::solver::ConeSolver;
use crate::solver::store::Name;
use search_parts::{FALSE, NONE, at, count};
use std::alloc::AllocError;

impl ConeSolver {
    /// Finds other hints for what two clauses lead to, so that they lead to fewer: from the last one back each that is
    /// needed is shown once more, by those first that are needed already (Heule, Hunt and Wetzler 2013).
    ///
    /// The search's trail and watches are given up for that.
    pub(crate) fn trim(&mut self, cases: (u32, u32)) -> Result<(), AllocError> {
        self.reach(cases)?;
        self.query = self.query.wrapping_add(1);
        self.watch_for_trim()?;
        self.need(cases.0)?;
        self.need(cases.1)?;
        for place in (0..count(self.listed.len())).rev() {
            let number = at(&self.listed, place);
            self.unwatch(number);
            if self.is_needed(number) {
                self.show_once_more(number)?;
                self.need_hints(number)?;
            }
        }
        Ok(())
    }

    /// Has the clauses watched of the circuit, the book and the equalities, and apart from them what was learned and is
    /// listed. Nothing is true.
    fn watch_for_trim(&mut self) -> Result<(), AllocError> {
        self.trail.clear();
        self.watches.empty();
        self.spare.clear();
        for _ in 0..self.variables {
            self.trail.grow()?;
            self.spare.grow()?;
        }
        self.open.clear();
        for number in 0..self.store.len() {
            if !self.is_lesson(number) {
                self.watch_needed(number)?;
            }
        }
        for place in 0..count(self.listed.len()) {
            let number = at(&self.listed, place);
            self.watch_spare(number)?;
        }
        Ok(())
    }

    /// Whether a clause was learned, and isn't a step of the equalities.
    fn is_lesson(&self, number: u32) -> bool {
        match self.store.record(number).name {
            Name::Lesson => true,
            _ => false,
        }
    }

    /// Whether a clause counts for nothing, or is needed already.
    fn is_needed(&self, number: u32) -> bool {
        self.store.record(number).wanted == self.query || !self.is_lesson(number)
    }

    /// Has a clause watched that is needed.
    fn watch_needed(&mut self, number: u32) -> Result<(), AllocError> {
        let clause = self.store.bring_back(number)?;
        if self.store.size_of(clause) > 1 {
            return self.watch(clause);
        }
        Ok(self.open.push(number)?)
    }

    /// Has a clause watched that isn't needed yet.
    fn watch_spare(&mut self, number: u32) -> Result<(), AllocError> {
        let clause = self.store.bring_back(number)?;
        if self.store.size_of(clause) > 1 {
            return self.spare.watch(&self.store, clause);
        }
        Ok(self.open.push(number)?)
    }

    /// Has a clause watched no more.
    fn unwatch(&mut self, number: u32) {
        let clause = self.store.record(number).start;
        if self.store.size_of(clause) > 1 {
            if self.is_needed(number) {
                self.watches.unwatch(&self.store, clause);
            } else {
                self.spare.unwatch(&self.store, clause);
            }
        }
    }

    /// Notes that a clause is needed.
    fn need(&mut self, number: u32) -> Result<(), AllocError> {
        if self.is_needed(number) {
            return Ok(());
        }
        let mut record = self.store.record(number);
        record.wanted = self.query;
        if self.store.size_of(record.start) > 1 {
            self.spare.unwatch(&self.store, record.start);
            self.watch(record.start)?;
        }
        self.store.set_record(number, record);
        Ok(())
    }

    /// Notes that the hints of a clause are needed.
    fn need_hints(&mut self, number: u32) -> Result<(), AllocError> {
        let hints = self.store.record(number).hints;
        for place in hints.start..hints.start.saturating_add(hints.len) {
            let hint = self.store.hint(place);
            self.need(hint)?;
        }
        Ok(())
    }

    /// Finds new hints for a clause by what stands before it. It keeps those that it has where that finds none.
    fn show_once_more(&mut self, number: u32) -> Result<(), AllocError> {
        let conflict = self.refute(number)?;
        if conflict != NONE {
            let clause = self.store.record(number).start;
            self.analysis
                .once_more(&mut self.store, &self.trail, clause, conflict)?;
            self.store.set_hints(number, &self.analysis.hints)?;
        }
        self.trail.cut(0);
        Ok(())
    }

    /// Has the codes of a clause false, and propagates that. Tells the place of a clause that is false then; `NONE`
    /// where none is.
    fn refute(&mut self, number: u32) -> Result<u32, AllocError> {
        self.trail.begin()?;
        for code in self.store.codes(self.store.record(number).start) {
            self.trail.choose(*code ^ 1);
        }
        let conflict = self.take_units(number, true);
        if conflict != NONE {
            return Ok(conflict);
        }
        let conflict = self.watches.propagate(&mut self.store, &mut self.trail)?;
        if conflict != NONE {
            return Ok(conflict);
        }
        let conflict = self.take_units(number, false);
        if conflict != NONE {
            return Ok(conflict);
        }
        self.watches
            .propagate_with(&mut self.spare, &mut self.store, &mut self.trail)
    }

    /// Has the clauses of one code true that stand before a clause and are needed, or aren't. Tells the place of one
    /// that is false.
    fn take_units(&mut self, before: u32, is_needed: bool) -> u32 {
        for place in 0..count(self.open.len()) {
            let number = at(&self.open, place);
            let is_before = number < before || !self.is_lesson(number);
            if is_before && self.is_needed(number) == is_needed {
                let clause = self.store.record(number).start;
                let code = self.store.code(clause);
                if self.trail.value(code) == FALSE {
                    return clause;
                }
                self.trail.take(code, clause);
            }
        }
        NONE
    }
}
