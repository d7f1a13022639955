use crate::reason::Reason;
use lits::Side;
use search_parts::{at, count, part};
use std::alloc::{AllocError, Global};

/// What a clause is called that isn't a gate's.
#[derive(Clone, Copy)]
pub(crate) enum Name {
    /// The learned clause of this number.
    Learned(u32),
    /// The unit of a constraint of one side.
    Bound(Side, u32),
}

/// Where a clause's codes stand.
#[derive(Clone, Copy)]
pub(crate) struct Span {
    pub(crate) start: u32,
    pub(crate) len: u32,
    name: Option<Name>,
}

const NOWHERE: Span = Span {
    start: 0,
    len: 0,
    name: None,
};

/// The clauses that aren't a gate's, learned ones and the units of constraints, as codes, one after the other in
/// one list. The two that are watched stand first in each.
#[derive(Drop)]
pub(crate) struct Clauses {
    lits: Vec<u32>,
    spans: Vec<Span>,
}

impl Clauses {
    /// No clauses.
    pub(crate) fn new(alloc: Global) -> Clauses {
        Clauses {
            lits: Vec::new(alloc),
            spans: Vec::new(alloc),
        }
    }

    /// Forgets all clauses.
    pub(crate) fn clear(&mut self) {
        self.lits.clear();
        self.spans.clear();
    }

    /// Whether there is none.
    #[inline(always)]
    pub(crate) fn is_empty(&self) -> bool {
        self.spans.is_empty()
    }

    /// Puts a clause last, and gives its number.
    pub(crate) fn push(&mut self, clause: &[u32], name: Name) -> Result<u32, AllocError> {
        let number = count(self.spans.len());
        let span = Span {
            start: count(self.lits.len()),
            len: count(clause.len()),
            name: Some(name),
        };
        self.lits.extend_from_slice(clause)?;
        self.spans.push(span)?;
        Ok(number)
    }

    /// Where the codes of a clause stand.
    #[inline(always)]
    pub(crate) fn span(&self, clause: u32) -> Span {
        match self.spans.get(clause as usize) {
            Some(span) => *span,
            None => NOWHERE,
        }
    }

    /// The codes of a clause.
    #[inline(always)]
    pub(crate) fn get(&self, clause: u32) -> &[u32] {
        let span = self.span(clause);
        part(&self.lits, span.start, span.len)
    }

    /// The code at a place of the list.
    #[inline(always)]
    pub(crate) fn code(&self, place: u32) -> u32 {
        at(&self.lits, place)
    }

    /// What a clause is called.
    pub(crate) fn name(&self, clause: u32) -> Option<Name> {
        self.span(clause).name
    }

    /// The learned clause that a reason is, if it is one.
    pub(crate) fn learned(&self, reason: Reason) -> Option<u32> {
        let Reason::Listed(clause) = reason else {
            return None;
        };
        match self.name(clause) {
            Some(Name::Learned(number)) => Some(number),
            _ => None,
        }
    }

    /// Exchanges two places of the list.
    #[inline(always)]
    pub(crate) fn swap(&mut self, first: u32, second: u32) {
        let first = first as usize;
        let second = second as usize;
        if first < self.lits.len() && second < self.lits.len() {
            self.lits.swap(first, second);
        }
    }
}
