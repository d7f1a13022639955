use crate::plan::{Move, Plan, Sum, power};
use search_parts::{at, count};
use std::alloc::AllocError;

/// A sum of more terms isn't said by clauses unless it has to be: a join with the next one mostly has fewer.
const NARROW: u32 = 3;

/// So many sums that aren't said stand on each other at most.
const DEEPEST: u32 = 3;

impl Plan {
    /// How many terms two sums have in common.
    fn common(&self, one: u32, two: u32) -> u32 {
        let Sum { start, len, .. } = self.sum(one);
        let mut many: u32 = 0;
        for place in start..start.saturating_add(len) {
            if self.has(two, at(&self.terms, place)) {
                many = many.saturating_add(1);
            }
        }
        many
    }

    /// Has clauses say what a new sum needs: one of few terms is said itself, after its parts where that takes
    /// fewer steps; else its parts are. How many steps these are.
    pub(super) fn settle(&mut self, sum: u32) -> Result<u64, AllocError> {
        let Sum { one, two, len, .. } = self.sum(sum);
        if len == 0 {
            return Ok(0);
        }
        let parts = self
            .cost_unsaid(one)?
            .saturating_add(self.cost_unsaid(two)?);
        if len <= NARROW {
            let straight = self.cost(sum)?;
            let both = self.common(one, two);
            let behind = power(len.saturating_add(both).saturating_sub(2));
            if straight <= parts.saturating_add(behind) {
                self.say(sum)?;
                return Ok(straight);
            }
            self.say_parts(one, two)?;
            self.say(sum)?;
            return Ok(parts.saturating_add(behind));
        }
        self.say_parts(one, two)?;
        Ok(parts)
    }

    /// How many steps it takes to say a sum, unless it is said.
    fn cost_unsaid(&mut self, sum: u32) -> Result<u64, AllocError> {
        if self.sum(sum).is_said {
            return Ok(0);
        }
        self.cost(sum)
    }

    /// How many steps it takes to say a sum over its parts: its clauses, each split by all of the terms that go
    /// but those that the parts force.
    fn cost(&mut self, sum: u32) -> Result<u64, AllocError> {
        let parts = self.list_inner(sum)?;
        let inner = count(self.inner.len())
            .saturating_add(1)
            .saturating_sub(parts);
        let width = self.width(sum).saturating_sub(1);
        Ok(power(width.saturating_add(inner).min(40)))
    }

    /// Has both of these said.
    fn say_parts(&mut self, one: u32, two: u32) -> Result<(), AllocError> {
        if !self.sum(one).is_said {
            self.say(one)?;
        }
        if !self.sum(two).is_said {
            self.say(two)?;
        }
        Ok(())
    }

    /// Has a sum said.
    fn say(&mut self, sum: u32) -> Result<(), AllocError> {
        self.moves.push(Move::Say(sum))?;
        self.note_said(sum);
        Ok(())
    }

    /// Notes that a sum is said.
    pub(crate) fn note_said(&mut self, sum: u32) {
        let sum = sum as usize;
        if sum < self.sums.len() {
            self.sums[sum].is_said = true;
        }
    }

    /// Lists the terms of a sum's parts that it hasn't itself. How many parts these are.
    pub(crate) fn list_inner(&mut self, sum: u32) -> Result<u32, AllocError> {
        self.inner.clear();
        let Sum { one, two, .. } = self.sum(sum);
        let parts = self.list_part(sum, one)?;
        Ok(parts.saturating_add(self.list_part(sum, two)?))
    }

    /// Lists those of a part, or of its own parts if it isn't said.
    fn list_part(&mut self, sum: u32, part: u32) -> Result<u32, AllocError> {
        let Sum {
            one,
            two,
            is_said,
            ..
        } = self.sum(part);
        if is_said {
            self.list_terms(sum, part)?;
            return Ok(1);
        }
        self.list_terms(sum, one)?;
        self.list_terms(sum, two)?;
        Ok(2)
    }

    /// Lists the terms of a part that a sum hasn't and that aren't listed.
    fn list_terms(&mut self, sum: u32, part: u32) -> Result<(), AllocError> {
        let Sum { start, len, .. } = self.sum(part);
        for place in start..start.saturating_add(len) {
            let term = at(&self.terms, place);
            if !self.has(sum, term) && !self.inner.contains(&term) {
                self.inner.push(term)?;
            }
        }
        Ok(())
    }

    /// Whether what says a sum may still be needed: it is no part of one that is said.
    pub(crate) fn is_needed(&self, sum: u32) -> bool {
        let mut part = self.sum(sum);
        for _ in 0..DEEPEST {
            if part.is_live {
                return true;
            }
            part = self.sum(part.above);
            if part.is_said {
                return false;
            }
        }
        true
    }
}
