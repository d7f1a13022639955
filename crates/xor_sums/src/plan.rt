use crate::exclusive::Exclusive;
use crate::plan::joins::pair_of;
use rand_core::SeedableRng;
use rand_pcg::Lcg128Xsl64;
use search_parts::{at, count, put};
use std::alloc::{AllocError, Global};
use std::collections::BinaryHeap;

mod joins;
mod saying;

/// How many orders are tried at least, and how many gates are added up in them at most.
const TRIES: u64 = 8;

const WORK: u64 = 1 << 17;

/// Orders of more steps than this are only looked for until so many more gates were added up in vain than for orders
/// that were found: some seconds.
const LONG: u64 = 1000;

const VAIN: u64 = 1 << 21;

/// Variables whose sum modulo 2 is known.
#[derive(Clone, Copy)]
struct Sum {
    /// Where its terms stand.
    start: u32,
    len: u32,
    is_odd: bool,
    /// The two that it is the join of, if it is no gate's.
    one: u32,
    two: u32,
    /// The one that it is a part of, if it is one's.
    above: u32,
    /// Whether it is no part of another one.
    is_live: bool,
    /// Whether clauses say it.
    is_said: bool,
}

const NOTHING: Sum = Sum {
    start: 0,
    len: 0,
    is_odd: false,
    one: 0,
    two: 0,
    above: 0,
    is_live: false,
    is_said: false,
};

/// What is done next to add gates up.
#[derive(Clone, Copy)]
pub enum Move {
    /// Two sums are joined.
    Join(u32, u32),
    /// A sum is said by clauses.
    Say(u32),
}

/// In which order gates are added up.
///
/// Those sums are joined first whose join has few terms for what they have, as contractions of tensors are
/// ordered (Gray and Kourtis 2021). Each try draws noise, and the order is kept that takes the fewest steps: on a
/// CRC of 16 by 32 bits one order without noise took 9 to 30 thousand steps for an output, and the best of a
/// thousand 5 to 6 thousand.
#[derive(Drop)]
pub(crate) struct Plan {
    /// The gates' sums, and behind them those of the joins.
    sums: Vec<Sum>,
    /// The terms of all sums, one after the other.
    terms: Vec<u32>,
    /// How many sums are a gate's.
    gates: u32,
    /// The variables whose sum is asked for.
    ends: (u32, u32),
    /// For each variable the last link of the chain of sums that have it, and 1.
    heads: Vec<u32>,
    /// A sum, and the next link of its chain, and 1.
    links: Vec<(u32, u32)>,
    /// For each variable the number of the look at a sum that had it last.
    marks: Vec<u32>,
    look: u32,
    /// Joins that may be made, the best one first.
    queue: BinaryHeap<u64>,
    /// The moves of this try and those of the best one.
    moves: Vec<Move>,
    best: Vec<Move>,
    /// The terms of the parts of a sum that it hasn't itself.
    inner: Vec<u32>,
    /// How many more gates were added up in vain for long orders than for those that were found.
    vain: u64,
}

impl Plan {
    /// No gates.
    pub(crate) fn new(alloc: Global) -> Plan {
        Plan {
            sums: Vec::new(alloc),
            terms: Vec::new(alloc),
            gates: 0,
            ends: (0, 0),
            heads: Vec::new(alloc),
            links: Vec::new(alloc),
            marks: Vec::new(alloc),
            look: 0,
            queue: BinaryHeap::new(alloc),
            moves: Vec::new(alloc),
            best: Vec::new(alloc),
            inner: Vec::new(alloc),
            vain: 0,
        }
    }

    /// Forgets all gates; the sum of these two variables is asked for.
    pub(crate) fn clear(&mut self, first: u32, second: u32) {
        self.forget_chains();
        self.sums.clear();
        self.terms.clear();
        self.gates = 0;
        self.ends = (first, second);
        self.best.clear();
    }

    /// How many gates there are.
    pub(crate) fn gates(&self) -> u32 {
        self.gates
    }

    /// Puts the gate last that has this variable.
    pub(crate) fn add_gate(&mut self, var: u32, gate: Exclusive) -> Result<(), AllocError> {
        let start = count(self.terms.len());
        self.terms
            .extend_from_slice(&[var, gate.left / 2, gate.right / 2])?;
        self.sums.push(Sum {
            start,
            len: 3,
            is_odd: gate.is_odd(),
            is_live: true,
            is_said: true,
            ..NOTHING
        })?;
        self.gates = self.gates.saturating_add(1);
        Ok(())
    }

    /// Finds an order in which the gates are added up in at most so many steps. Whether there is one.
    pub(crate) fn make(&mut self, most: u64) -> Result<bool, AllocError> {
        if most > LONG && self.vain > VAIN {
            return Ok(false);
        }
        let gates = u64::from(self.gates);
        let mut generator = Lcg128Xsl64::seed_from_u64(1);
        let mut fewest = most.saturating_add(1);
        let mut work: u64 = 0;
        for number in 0..WORK {
            if number >= TRIES && work > worth(fewest) {
                break;
            }
            work = work.saturating_add(gates);
            let found = self.attempt(&mut generator, number % 16, fewest)?;
            if let Some(steps) = found {
                fewest = steps;
                self.best.clear();
                self.best.extend_from_slice(&self.moves)?;
            }
        }
        self.restart();
        if most > LONG {
            self.vain = if fewest <= most {
                self.vain.saturating_sub(work)
            } else {
                self.vain.saturating_add(work)
            };
        }
        Ok(fewest <= most)
    }

    /// Adds all gates up in one order, which is the more drawn the greater the noise is. How many steps it
    /// takes, if fewer than these.
    fn attempt(
        &mut self,
        generator: &mut Lcg128Xsl64,
        noise: u64,
        fewest: u64,
    ) -> Result<Option<u64>, AllocError> {
        self.restart();
        for sum in 0..self.gates {
            self.link(sum, generator, noise)?;
        }
        let mut steps: u64 = 0;
        for _ in 0..u64::MAX {
            let Some(key) = self.queue.pop() else {
                break;
            };
            let (one, two) = pair_of(key);
            if self.sum(one).is_live && self.sum(two).is_live {
                let sum = self.unite(one, two)?;
                self.moves.push(Move::Join(one, two))?;
                steps = steps.saturating_add(self.settle(sum)?);
                if steps >= fewest {
                    return Ok(None);
                }
                if self.is_asked(sum) {
                    return Ok(Some(steps));
                }
                self.link(sum, generator, noise)?;
            }
        }
        Ok(None)
    }

    /// Forgets all joins.
    fn restart(&mut self) {
        self.forget_chains();
        self.sums.truncate(self.gates as usize);
        self.terms.truncate(self.gates.wrapping_mul(3) as usize);
        for sum in self.sums.iter_mut() {
            sum.is_live = true;
        }
        self.moves.clear();
        self.queue.clear();
    }

    /// Forgets which sums have which variables.
    fn forget_chains(&mut self) {
        for term in self.terms.as_slice() {
            put(&mut self.heads, *term, 0);
        }
        self.links.clear();
    }

    /// Whether a sum has a term.
    fn has(&self, sum: u32, term: u32) -> bool {
        let Sum { start, len, .. } = self.sum(sum);
        for place in start..start.saturating_add(len) {
            if at(&self.terms, place) == term {
                return true;
            }
        }
        false
    }

    /// Puts the join of two sums last, of which they are parts now, and gives its number.
    pub(crate) fn unite(&mut self, one: u32, two: u32) -> Result<u32, AllocError> {
        let number = count(self.sums.len());
        let start = count(self.terms.len());
        self.push_others(one, two)?;
        self.push_others(two, one)?;
        let len = count(self.terms.len()).saturating_sub(start);
        let is_odd = self.sum(one).is_odd != self.sum(two).is_odd;
        self.sums.push(Sum {
            start,
            len,
            is_odd,
            one,
            two,
            is_live: true,
            ..NOTHING
        })?;
        self.retire(one, number);
        self.retire(two, number);
        Ok(number)
    }

    /// Puts the terms of a sum last that another one hasn't.
    fn push_others(&mut self, one: u32, two: u32) -> Result<(), AllocError> {
        let Sum { start, len, .. } = self.sum(one);
        for place in start..start.saturating_add(len) {
            let term = at(&self.terms, place);
            if !self.has(two, term) {
                self.terms.push(term)?;
            }
        }
        Ok(())
    }

    /// Notes that a sum is a part of another one.
    fn retire(&mut self, sum: u32, above: u32) {
        let sum = sum as usize;
        if sum < self.sums.len() {
            self.sums[sum].is_live = false;
            self.sums[sum].above = above;
        }
    }

    /// Whether a sum is the one that is asked for.
    fn is_asked(&self, sum: u32) -> bool {
        self.width(sum) == 2 && self.has(sum, self.ends.0) && self.has(sum, self.ends.1)
    }

    /// The sum of this number.
    fn sum(&self, number: u32) -> Sum {
        match self.sums.get(number as usize) {
            Some(sum) => *sum,
            None => NOTHING,
        }
    }

    /// How many moves the order has.
    pub(crate) fn moves(&self) -> u32 {
        count(self.best.len())
    }

    /// The move at a place of the order.
    pub(crate) fn order(&self, place: u32) -> Option<Move> {
        self.best.get(place as usize).copied()
    }

    /// The terms of the parts of a sum that it hasn't itself.
    pub(crate) fn inner(&self) -> &[u32] {
        self.inner.as_slice()
    }

    /// How many terms a sum has.
    pub(crate) fn width(&self, sum: u32) -> u32 {
        self.sum(sum).len
    }

    /// Whether a sum is 1.
    pub(crate) fn is_odd(&self, sum: u32) -> bool {
        self.sum(sum).is_odd
    }

    /// Lists the codes of the clause which says that the terms of a sum haven't these values, a bit for each.
    pub(crate) fn list_clause(
        &self,
        sum: u32,
        values: u32,
        list: &mut Vec<u32>,
    ) -> Result<(), AllocError> {
        list.clear();
        let Sum { start, len, .. } = self.sum(sum);
        for place in 0..len {
            let term = at(&self.terms, start.wrapping_add(place));
            let bit = values.wrapping_shr(place) & 1;
            list.push(term.wrapping_mul(2) | bit)?;
        }
        Ok(())
    }
}

/// How many gates may be added up for an order with fewer steps than this: a step costs some times as much, and
/// long orders are those that noise makes shorter.
fn worth(steps: u64) -> u64 {
    steps
        .saturating_add(steps.saturating_mul(steps) / 512)
        .min(WORK)
}

/// So many assignments have so many terms.
fn power(terms: u32) -> u64 {
    1_u64.wrapping_shl(terms)
}
