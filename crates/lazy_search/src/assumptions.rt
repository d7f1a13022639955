use crate::reason::Reason;
use crate::trail::Trail;
use search_parts::{FALSE, FREE};
use std::alloc::AllocError;

impl Trail {
    /// The clause that has made one of two codes false, and did so first; none where neither is false.
    pub(crate) fn refuted(&self, first: u32, second: u32) -> Option<Reason> {
        if self.value(first) != FALSE && self.value(second) != FALSE {
            return None;
        }
        for code in self.lits() {
            if *code == first ^ 1 || *code == second ^ 1 {
                return Some(self.cause(*code / 2).reason);
            }
        }
        None
    }

    /// Assumes two codes, neither of which is false, at a level of their own.
    pub(crate) fn assume(&mut self, first: u32, second: u32) -> Result<(), AllocError> {
        self.begin()?;
        self.choose(first);
        self.choose(second);
        Ok(())
    }

    /// Makes a code true for no reason, if it is free.
    pub(crate) fn choose(&mut self, code: u32) {
        if self.value(code) == FREE {
            self.assign(code, Reason::Choice);
        }
    }

    /// Makes a code true at a level of its own.
    pub(crate) fn decide(&mut self, code: u32) -> Result<(), AllocError> {
        self.begin()?;
        self.choose(code);
        Ok(())
    }
}
