use crate::proposer::{CONFLICTS, DECISIONS, Proposer};
use lazy_search::{Effort, Given};
use netlist::Net;
use search_parts::Caps;
use shared_equalities::Finder;
use std::alloc::{AllocError, Global};

/// How many more searches for one equality may fail than succeed.
const MISSES: u32 = 2;

impl Proposer {
    /// Searches for why pairs are equal that the book leaves open.
    pub(super) fn equate_open(
        &mut self,
        alloc: Global,
        net: &Net,
        caps: Caps,
    ) -> Result<(), AllocError> {
        self.equate_sums(alloc, net, caps.conflicts)?;
        self.equate(alloc, net, caps.conflicts)
    }

    /// Searches once more for why pairs are equal whose queries spent their budgets, from the inputs up.
    ///
    /// A few hard pairs leave most pairs above them open: on a Hamming decoder four of 188. With these few
    /// all others are easy again.
    ///
    /// Where most fail they are left to the search of whole cones, which finds what is needed with less:
    /// on 12 decimal digits in two styles, where 296 pairs are open, the outputs took 1.1 seconds for 4.2,
    /// and those of a floating-point adder 1.1 for 2.1. A Hamming decoder and a CRC, where few fail, took
    /// what they did.
    fn equate(&mut self, alloc: Global, net: &Net, conflicts: u64) -> Result<(), AllocError> {
        let mut left = conflicts;
        let mut misses: u32 = 0;
        for position in 0..net.positions() {
            if let Some(target) = self.unequated(position) {
                if misses >= MISSES {
                    return Ok(());
                }
                let caps = Caps {
                    conflicts: left.min(CONFLICTS),
                    decisions: DECISIONS,
                };
                let effort = Effort { caps, steps: 0 };
                let is_shown = self.equate_pair(alloc, net, position, target, effort)?;
                misses = counted(misses, is_shown);
                let spent = caps.conflicts.saturating_sub(self.lazy.left().conflicts);
                left = left.saturating_sub(spent);
            }
        }
        Ok(())
    }

    /// Adds up the sums of the pairs whose queries spent their budgets, from the inputs up: what is shown of one
    /// makes those above it short.
    fn equate_sums(&mut self, alloc: Global, net: &Net, most: u64) -> Result<(), AllocError> {
        let caps = Caps {
            conflicts: 0,
            decisions: 0,
        };
        let effort = Effort { caps, steps: most };
        for position in 0..net.positions() {
            if let Some(target) = self.unequated(position) {
                let _is_shown = self.equate_pair(alloc, net, position, target, effort)?;
            }
        }
        Ok(())
    }

    /// The code that a node was last compared with, if that is left open and wasn't shown since.
    fn unequated(&self, position: u32) -> Option<u32> {
        match self.equalities.target(Finder::Lazy, position) {
            Some(_) => None,
            None => self.merges.open(position),
        }
    }

    /// Searches for why a node is equal to a code, and tells whether it found that.
    fn equate_pair(
        &mut self,
        alloc: Global,
        net: &Net,
        position: u32,
        target: u32,
        effort: Effort,
    ) -> Result<bool, AllocError> {
        let given = Given {
            net,
            merges: &self.merges,
            equalities: &self.equalities,
        };
        let found = self
            .lazy
            .equality(alloc, &given, &mut self.sums, position, target, effort)?;
        let Some((equality, steps)) = found else {
            return Ok(false);
        };
        self.equalities
            .push(Finder::Lazy, position, equality, steps)?;
        Ok(true)
    }
}

/// How many more searches failed than succeeded, after one more.
fn counted(misses: u32, is_shown: bool) -> u32 {
    if is_shown {
        misses.saturating_sub(1)
    } else {
        misses.saturating_add(1)
    }
}
