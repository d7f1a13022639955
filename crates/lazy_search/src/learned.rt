use crate::clauses::Clauses;
use crate::reason::Reason;
use search_parts::{HintSpan, count, mark};
use std::alloc::{AllocError, Global};

/// A clause that was learned.
#[derive(Clone, Copy)]
pub(crate) struct Learned {
    /// The clause's number.
    pub(crate) clause: u32,
    pub(crate) hints: HintSpan,
    /// Its number among those that the entry needs, and 1; 0 where it doesn't need it.
    pub(crate) order: u32,
}

/// What a query learned: clauses, each with the clauses that show it by unit propagation, in order; and the
/// tools to find these.
#[derive(Drop)]
pub(crate) struct LearnedClauses {
    clauses: Vec<Learned>,
    /// The hints of all clauses, one after the other.
    hints: Vec<Reason>,
    /// Which variables a conflict comes from, as far as these weren't passed.
    marked: Vec<bool>,
    /// How many variables of the conflict's level are marked, and how many of level 0.
    pub(crate) last: u32,
    pub(crate) ground: u32,
    /// The codes of the clause that is learned.
    pub(crate) lits: Vec<u32>,
    /// Its hints, the last one first.
    pub(crate) trace: Vec<Reason>,
}

impl LearnedClauses {
    /// No clauses.
    pub(crate) fn new(alloc: Global) -> LearnedClauses {
        LearnedClauses {
            clauses: Vec::new(alloc),
            hints: Vec::new(alloc),
            marked: Vec::new(alloc),
            last: 0,
            ground: 0,
            lits: Vec::new(alloc),
            trace: Vec::new(alloc),
        }
    }

    /// Forgets all.
    pub(crate) fn clear(&mut self) {
        self.clauses.clear();
        self.hints.clear();
        self.lits.clear();
        self.trace.clear();
    }

    /// Marks a variable; false where it was marked before.
    #[inline(always)]
    pub(crate) fn mark(&mut self, var: u32) -> bool {
        !mark(&mut self.marked, var, true)
    }

    /// Takes the mark of a variable away; false where it had none.
    #[inline(always)]
    pub(crate) fn unmark(&mut self, var: u32) -> bool {
        mark(&mut self.marked, var, false)
    }

    /// Forgets the clause that was learned last, but not its hints, and makes room for the marks of so many
    /// variables. None is marked: whatever marks one passes it.
    pub(crate) fn restart(&mut self, variables: u32) -> Result<(), AllocError> {
        self.lits.clear();
        self.trace.clear();
        self.last = 0;
        self.ground = 0;
        let room = self.marked.len().max(variables as usize);
        self.marked.resize(room, false)
    }

    /// Keeps the trace as hints.
    pub(crate) fn keep_trace(&mut self) -> Result<HintSpan, AllocError> {
        let start = count(self.hints.len());
        let len = count(self.trace.len());
        for reason in self.trace.iter().rev() {
            self.hints.push(*reason)?;
        }
        Ok(HintSpan { start, len })
    }

    /// Notes a learned clause.
    pub(crate) fn push(&mut self, clause: u32, hints: HintSpan) -> Result<(), AllocError> {
        self.clauses.push(Learned {
            clause,
            hints,
            order: 0,
        })?;
        Ok(())
    }

    /// How many clauses there are.
    pub(crate) fn len(&self) -> u32 {
        count(self.clauses.len())
    }

    /// The learned clause of this number.
    pub(crate) fn get(&self, number: u32) -> Learned {
        match self.clauses.get(number as usize) {
            Some(learned) => *learned,
            None => Learned {
                clause: 0,
                hints: HintSpan { start: 0, len: 0 },
                order: 0,
            },
        }
    }

    /// The hint at a place.
    pub(crate) fn hint(&self, place: u32) -> Reason {
        match self.hints.get(place as usize) {
            Some(hint) => *hint,
            None => Reason::Choice,
        }
    }

    /// Numbers the learned clauses that two lists of hints lead to, in order. The others are left out: a merge may
    /// have so many steps and no more. A query has one entry, so this is done once in it.
    pub(crate) fn reach(&mut self, clauses: &Clauses, first: HintSpan, second: HintSpan) {
        self.reach_from(clauses, first);
        self.reach_from(clauses, second);
        for number in (0..self.len()).rev() {
            let learned = self.get(number);
            if learned.order > 0 {
                self.reach_from(clauses, learned.hints);
            }
        }
        number_needed(&mut self.clauses);
    }

    /// Marks the learned clauses among the hints.
    fn reach_from(&mut self, clauses: &Clauses, hints: HintSpan) {
        for place in hints.start..hints.start.saturating_add(hints.len) {
            if let Some(number) = clauses.learned(self.hint(place)) {
                self.need(number as usize);
            }
        }
    }

    /// Marks a learned clause as one that the entry needs.
    fn need(&mut self, number: usize) {
        if number < self.clauses.len() {
            self.clauses[number].order = 1;
        }
    }
}

/// Numbers the learned clauses that were marked.
fn number_needed(clauses: &mut [Learned]) {
    let mut number: u32 = 0;
    for learned in clauses.iter_mut() {
        if learned.order > 0 {
            number = number.saturating_add(1);
            learned.order = number;
        }
    }
}
