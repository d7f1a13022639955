use search_parts::{FALSE, FREE, NONE, TRUE, at, count, part, put};
use std::alloc::{AllocError, Global};

/// Why a variable has its value, if it has one.
#[derive(Clone, Copy)]
pub(crate) struct Cause {
    pub(crate) level: u32,
    /// The place of the clause that has forced it; `NONE` where it was assumed or chosen.
    pub(crate) reason: u32,
    /// Its place among the codes that are true.
    pub(crate) place: u32,
    /// The last bit of the code that was true last, which is chosen again (Pipatsrisawat and Darwiche 2007).
    pub(crate) phase: u32,
}

const NO_CAUSE: Cause = Cause {
    level: 0,
    reason: NONE,
    place: 0,
    phase: 1,
};

/// Which codes are true, and why, in order. It has room for all variables, so that making one true can't fail.
#[derive(Drop)]
pub(crate) struct Trail {
    values: Vec<u32>,
    causes: Vec<Cause>,
    lits: Vec<u32>,
    len: u32,
    /// Where the levels begin.
    starts: Vec<u32>,
    /// How many of the codes were propagated.
    head: u32,
}

impl Trail {
    /// No variables.
    pub(crate) fn new(alloc: Global) -> Trail {
        Trail {
            values: Vec::new(alloc),
            causes: Vec::new(alloc),
            lits: Vec::new(alloc),
            len: 0,
            starts: Vec::new(alloc),
            head: 0,
        }
    }

    /// Forgets all variables.
    pub(crate) fn clear(&mut self) {
        self.values.clear();
        self.causes.clear();
        self.lits.clear();
        self.len = 0;
        self.starts.clear();
        self.head = 0;
    }

    /// Makes room for the next variable.
    pub(crate) fn grow(&mut self) -> Result<(), AllocError> {
        self.values.extend_from_slice(&[FREE, FREE])?;
        self.causes.push(NO_CAUSE)?;
        self.lits.push(0)?;
        Ok(())
    }

    /// The value of a code.
    #[inline(always)]
    pub(crate) fn value(&self, code: u32) -> u32 {
        at(&self.values, code)
    }

    /// The values of all codes.
    #[inline(always)]
    pub(crate) fn values(&self) -> &[u32] {
        self.values.as_slice()
    }

    /// Why a variable has its value, if it has one.
    #[inline(always)]
    pub(crate) fn cause(&self, var: u32) -> Cause {
        match self.causes.get(var as usize) {
            Some(cause) => *cause,
            None => NO_CAUSE,
        }
    }

    /// How many levels were begun.
    #[inline(always)]
    pub(crate) fn level(&self) -> u32 {
        count(self.starts.len())
    }

    /// How many codes are true.
    #[inline(always)]
    pub(crate) fn len(&self) -> u32 {
        self.len
    }

    /// The code at a place among those that are true.
    #[inline(always)]
    pub(crate) fn lit(&self, place: u32) -> u32 {
        at(&self.lits, place)
    }

    /// The codes that are true above a level, in order.
    pub(crate) fn above(&self, level: u32) -> &[u32] {
        match self.starts.get(level as usize) {
            Some(start) => self.since(*start),
            None => self.since(self.len),
        }
    }

    /// The codes that are true from a place on, in order.
    pub(crate) fn since(&self, place: u32) -> &[u32] {
        part(&self.lits, place, self.len.saturating_sub(place))
    }

    /// Makes a code true that is free.
    #[inline(always)]
    pub(crate) fn assign(&mut self, code: u32, reason: u32) {
        put(&mut self.values, code, TRUE);
        put(&mut self.values, code ^ 1, FALSE);
        let level = self.level();
        let place = self.len;
        put(&mut self.lits, place, code);
        self.len = place.wrapping_add(1);
        let var = (code / 2) as usize;
        if var < self.causes.len() {
            self.causes[var] = Cause {
                level,
                reason,
                place,
                phase: code & 1,
            };
        }
    }

    /// Gives a variable that has a value another reason for it.
    pub(crate) fn explain(&mut self, var: u32, reason: u32) {
        let var = var as usize;
        if var < self.causes.len() {
            self.causes[var].reason = reason;
        }
    }

    /// Makes a code true for this reason, if it is free.
    pub(crate) fn take(&mut self, code: u32, reason: u32) {
        if self.value(code) == FREE {
            self.assign(code, reason);
        }
    }

    /// Makes a code true for no reason, if it is free.
    pub(crate) fn choose(&mut self, code: u32) {
        if self.value(code) == FREE {
            self.assign(code, NONE);
        }
    }

    /// Begins a level.
    pub(crate) fn begin(&mut self) -> Result<(), AllocError> {
        self.starts.push(self.len)?;
        Ok(())
    }

    /// The next code that is to be propagated.
    #[inline(always)]
    pub(crate) fn next(&mut self) -> Option<u32> {
        if self.head >= self.len {
            return None;
        }
        let code = self.lit(self.head);
        self.head = self.head.wrapping_add(1);
        Some(code)
    }

    /// Gives the levels above this one up.
    pub(crate) fn cut(&mut self, level: u32) {
        let start = match self.starts.get(level as usize) {
            Some(start) => *start,
            None => return,
        };
        for code in part(&self.lits, start, self.len.saturating_sub(start)) {
            put(&mut self.values, *code, FREE);
            put(&mut self.values, *code ^ 1, FREE);
        }
        self.len = start;
        self.starts.truncate(level as usize);
        self.head = start;
    }
}
