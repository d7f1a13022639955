use crate::log::{Cause, Log};
use crate::reason::Reason;
use search_parts::{FALSE, FREE, NONE, TRUE, at, count, put};
use std::alloc::{AllocError, Global};

/// Where a level began: how many codes were true, how many gates were open, and how many of these justified.
#[derive(Clone, Copy)]
struct Start {
    lits: u32,
    open: u32,
    justified: u32,
}

/// The levels on which the codes of a false clause stand.
#[derive(Clone, Copy)]
pub(crate) struct Levels {
    pub(crate) highest: u32,
    /// How many codes stand on the highest level.
    pub(crate) many: u32,
    /// The last of these.
    pub(crate) last: u32,
    /// The second highest level.
    pub(crate) second: u32,
}

/// The values that were assumed, chosen or forced, in order.
///
/// Its tables keep their size from query to query: what a query gave a value is taken back, and nothing else
/// is written.
#[derive(Drop)]
pub(crate) struct Trail {
    /// For each code `FREE`, `TRUE` or `FALSE`.
    pub(crate) values: Vec<u32>,
    pub(crate) log: Log,
    /// The gates that were false without a false fanin when they were propagated.
    pub(crate) open: Vec<u32>,
    starts: Vec<Start>,
    /// How many of the codes were propagated.
    head: u32,
    /// So many of the open gates are justified.
    pub(crate) justified: u32,
}

impl Trail {
    /// An empty trail.
    pub(crate) fn new(alloc: Global) -> Trail {
        Trail {
            values: Vec::new(alloc),
            log: Log::new(alloc),
            open: Vec::new(alloc),
            starts: Vec::new(alloc),
            head: 0,
            justified: 0,
        }
    }

    /// Forgets all.
    pub(crate) fn clear(&mut self) {
        free(&mut self.values, self.log.since(0));
        self.log.truncate(0, 0);
        self.open.clear();
        self.starts.clear();
        self.head = 0;
        self.justified = 0;
    }

    /// Makes room for a variable, the next one for which there is none. All behind the codes that are true is
    /// free.
    #[inline(always)]
    pub(crate) fn grow(&mut self, var: u32) -> Result<(), AllocError> {
        if (var as usize) < self.log.room() {
            return Ok(());
        }
        self.values.extend_from_slice(&[FREE, FREE])?;
        self.log.grow()
    }

    /// The value of a code.
    #[inline(always)]
    pub(crate) fn value(&self, code: u32) -> u32 {
        at(&self.values, code)
    }

    /// Why a variable has its value, if it has one.
    #[inline(always)]
    pub(crate) fn cause(&self, var: u32) -> Cause {
        self.log.cause(var)
    }

    /// The levels of a false clause's codes. One that stands twice, one behind the other, counts once.
    pub(crate) fn levels(&self, clause: &[u32]) -> Levels {
        let mut highest = 0;
        let mut many: u32 = 0;
        let mut last = NONE;
        let mut second = 0;
        for code in clause {
            let level = self.cause(*code / 2).level;
            if level > highest {
                second = highest;
                highest = level;
                many = 1;
                last = *code;
            } else if level == highest && *code != last {
                many = many.saturating_add(1);
                last = *code;
            } else if level < highest {
                second = second.max(level);
            }
        }
        Levels {
            highest,
            many,
            last,
            second,
        }
    }

    /// The level that was begun last.
    #[inline(always)]
    pub(crate) fn level(&self) -> u32 {
        self.log.level
    }

    /// The codes that are true, in order.
    pub(crate) fn lits(&self) -> &[u32] {
        self.log.since(0)
    }

    /// Where the codes of level 0 end.
    pub(crate) fn ground(&self) -> u32 {
        match self.starts.get(0) {
            Some(start) => start.lits,
            None => self.log.len(),
        }
    }

    /// Makes a code true that is free.
    #[inline(always)]
    pub(crate) fn assign(&mut self, code: u32, reason: Reason) {
        assign(&mut self.values, &mut self.log, code, reason);
    }

    /// Begins a level.
    pub(crate) fn begin(&mut self) -> Result<(), AllocError> {
        let start = Start {
            lits: self.log.len(),
            open: count(self.open.len()),
            justified: self.justified,
        };
        self.starts.push(start)?;
        self.log.level = count(self.starts.len());
        Ok(())
    }

    /// The next code that is to be propagated.
    #[inline(always)]
    pub(crate) fn next(&mut self) -> Option<u32> {
        if self.head >= self.log.len() {
            return None;
        }
        let code = self.log.lit(self.head);
        self.head = self.head.wrapping_add(1);
        Some(code)
    }

    /// Gives the levels above this one up.
    pub(crate) fn cut(&mut self, level: u32) {
        let start = match self.starts.get(level as usize) {
            Some(start) => *start,
            None => return,
        };
        free(&mut self.values, self.log.since(start.lits));
        self.log.truncate(start.lits, level);
        self.starts.truncate(level as usize);
        self.open.truncate(start.open as usize);
        self.head = start.lits;
        self.justified = start.justified;
    }
}

/// Makes a code true that is free, in a trail's values and log.
#[inline(always)]
pub(crate) fn assign(values: &mut [u32], log: &mut Log, code: u32, reason: Reason) {
    put(values, code, TRUE);
    put(values, code ^ 1, FALSE);
    log.note(code, reason);
}

/// Takes the values of these codes away.
fn free(values: &mut [u32], codes: &[u32]) {
    for code in codes {
        put(values, *code, FREE);
        put(values, *code ^ 1, FREE);
    }
}
