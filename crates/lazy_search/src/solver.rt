use crate::clauses::Clauses;
use crate::learned::LearnedClauses;
use crate::reason::Reason;
use crate::trail::Trail;
use crate::variables::Variables;
use crate::watches::Watches;
use netlist::Net;
use search_parts::Caps;
use std::alloc::{AllocError, Global};

mod adding;
mod gates;
mod loading;
mod propagation;
mod proposal;
mod round;
mod steps;

/// A search that settles pairs and outputs in the circuit. It keeps its memory from query to query.
#[derive(Drop)]
pub struct LazySolver {
    /// How many steps of the equalities the query may use.
    shown: u32,
    variables: Variables,
    clauses: Clauses,
    watches: Watches,
    trail: Trail,
    learned: LearnedClauses,
    /// The codes that the query assumes.
    assumed: [u32; 2],
    /// A clause that is false whatever is assumed; there is one only under constraints.
    denied: Option<Reason>,
    /// What is left of the caps.
    left: Caps,
    /// How many clauses were learned since the solver was made.
    conflicts: u64,
}

impl LazySolver {
    /// A solver for queries about a net.
    pub fn of(alloc: Global, net: &Net) -> Result<LazySolver, AllocError> {
        Ok(LazySolver {
            shown: 0,
            variables: Variables::of(alloc, net.positions())?,
            clauses: Clauses::new(alloc),
            watches: Watches::new(alloc),
            trail: Trail::new(alloc),
            learned: LearnedClauses::new(alloc),
            assumed: [0, 0],
            denied: None,
            left: Caps {
                conflicts: 0,
                decisions: 0,
            },
            conflicts: 0,
        })
    }

    /// How many clauses its queries learned, each from a conflict.
    pub fn conflicts(&self) -> u64 {
        self.conflicts
    }

    /// What the last query left of its caps.
    pub fn left(&self) -> Caps {
        self.left
    }

    /// Forgets the query before, and begins one. The constant is true.
    fn begin(&mut self, caps: Caps) -> Result<(), AllocError> {
        self.variables.clear();
        self.clauses.clear();
        self.watches.clear();
        self.trail.clear();
        self.learned.clear();
        self.left = caps;
        self.denied = None;
        let constant = self.code(0)?;
        self.variables.define_free(0);
        self.trail.assign(constant, Reason::First(0));
        Ok(())
    }

    /// The code of a literal that is given by twice its position, and 1 where it is negated.
    #[inline(always)]
    fn code(&mut self, placed: u32) -> Result<u32, AllocError> {
        let number = self.variables.number(placed / 2)?;
        self.trail.grow(number)?;
        Ok(number.wrapping_mul(2) | (placed & 1))
    }
}
