use crate::reason::Reason;
use search_parts::{at, part, put};
use std::alloc::{AllocError, Global};

/// Why a variable has its value.
#[derive(Clone, Copy)]
pub(crate) struct Cause {
    pub(crate) level: u32,
    pub(crate) reason: Reason,
}

const NO_CAUSE: Cause = Cause {
    level: 0,
    reason: Reason::Choice,
};

/// Which codes are true and why, in order.
#[derive(Drop)]
pub(crate) struct Log {
    /// For each variable why it has its value, if it has one.
    causes: Vec<Cause>,
    /// The codes that are true, and behind them room for one of each other variable.
    lits: Vec<u32>,
    /// How many codes are true.
    len: u32,
    /// The level that was begun last.
    pub(crate) level: u32,
}

impl Log {
    /// No codes.
    pub(crate) fn new(alloc: Global) -> Log {
        Log {
            causes: Vec::new(alloc),
            lits: Vec::new(alloc),
            len: 0,
            level: 0,
        }
    }

    /// For how many variables there is room.
    #[inline(always)]
    pub(crate) fn room(&self) -> usize {
        self.lits.len()
    }

    /// Makes room for one more variable.
    pub(crate) fn grow(&mut self) -> Result<(), AllocError> {
        self.causes.push(NO_CAUSE)?;
        self.lits.push(0)?;
        Ok(())
    }

    /// Notes a code that is true now.
    #[inline(always)]
    pub(crate) fn note(&mut self, code: u32, reason: Reason) {
        put(&mut self.lits, self.len, code);
        self.len = self.len.wrapping_add(1);
        let level = self.level;
        let var = (code / 2) as usize;
        if var < self.causes.len() {
            self.causes[var] = Cause { level, reason };
        }
    }

    /// Why a variable has its value, if it has one.
    #[inline(always)]
    pub(crate) fn cause(&self, var: u32) -> Cause {
        match self.causes.get(var as usize) {
            Some(cause) => *cause,
            None => NO_CAUSE,
        }
    }

    /// How many codes are true.
    #[inline(always)]
    pub(crate) fn len(&self) -> u32 {
        self.len
    }

    /// The code at a place among those that are true.
    #[inline(always)]
    pub(crate) fn lit(&self, place: u32) -> u32 {
        at(&self.lits, place)
    }

    /// The codes that are true from a place on, in order.
    pub(crate) fn since(&self, place: u32) -> &[u32] {
        part(&self.lits, place, self.len.saturating_sub(place))
    }

    /// Keeps so many codes, of levels up to this one.
    pub(crate) fn truncate(&mut self, len: u32, level: u32) {
        self.len = len;
        self.level = level;
    }
}
