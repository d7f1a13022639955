ghost use Rattle.std.specs.Prelude.{◌≡◌, [], false, IfOk, OnOk};
ghost use Rattle.unit_prop.specs.Refuter.{IsOver, Answers};

use crate::formula::Formula;
use crate::search::{Found, search};
use lits::{Clause, Lit, Named, Step};
use std::alloc::{AllocError, Global};
use std::marker::Model;
use unit_prop::{Refuted, Refuter};

/// The plain solver: it decides variables false in the order of the base, scans all clauses after
/// each decision, and learns from a clash the clause of all negated decisions.
pub struct PlainSolver {
    formula: Formula,
    ready: bool,
}

// Written out, so that a drop is one call and not one for each field at each exit of a function.
impl Drop for PlainSolver {
    fn drop(self) {
        let PlainSolver {
            formula: _,
            ready: _,
        } = self;
    }
}

impl Model for PlainSolver {
    ghost use Rattle.solver_plain.specs.Solver.{Solver};

    ghost Value = { Solver };

    ghost view = { λ s. record { base = s.formula.base; log = s.formula.log; ready = s.ready } };
}

impl PlainSolver {
    /// A solver without a base: the next call is `start`.
    pub fn new(alloc: Global) -> PlainSolver
        ensures { result ≡ record { base = []; log = []; ready = false } }
    {
        PlainSolver {
            formula: Formula::new(alloc),
            ready: false,
        }
    }
}

impl Refuter for PlainSolver {
    ghost base_of = { λ s. s.base };

    ghost log_of = { λ s. s.log };

    ghost is_ready = { λ s. s.ready };

    fn start(&mut self, alloc: Global, base: &[Named]) -> Result<(), AllocError> {
        self.ready = false;
        self.formula = Formula::of(alloc, base)?;
        self.ready = true;
        Ok(())
    }

    fn refute(
        &mut self,
        alloc: Global,
        target: &Clause<Lit>,
        left: &mut u64,
    ) -> Result<Refuted, AllocError> {
        self.ready = false;
        let mut units = *left;
        let answer = settle(alloc, &mut self.formula, target, &mut units)?;
        *left = units;
        self.ready = true;
        Ok(answer)
    }

    fn log(&self) -> &[Step] {
        self.formula.log()
    }
}

/// Searches and learns until there is an answer or no unit is left.
fn settle(
    alloc: Global,
    formula: &mut Formula,
    target: &Clause<Lit>,
    left: &mut u64,
) -> Result<Refuted, AllocError>
    requires { IsOver formula.old.base target.now }
    ensures answer { IfOk result
        (Answers formula.old.base target.now formula.old.log left.old formula.new.log left.new) }
    ensures base { OnOk result (formula.new.base ≡ formula.old.base) }
{
    while *left > 0 {
        match search(alloc, formula, target)? {
            Found::Yes(hints) => return Ok(Refuted::Yes(hints)),
            Found::No(model) => return Ok(Refuted::No(model)),
            Found::Learned(step) => formula.learn(step)?,
        }
        *left -= 1;
    }
    Ok(Refuted::Spent)
}
