ghost use Rattle.std.specs.Prelude.{◌≡◌, [], false, IfOk};

use crate::engine::Engine;
use crate::used::are_used;
use flat_base::FlatBase;
use lits::{Clause, Lit, Named, Step};
use std::alloc::{AllocError, Global};
use std::marker::Model;
use unit_prop::{Refuted, Refuter};

/// The learning solver: it decides by activity, propagates by watched literals, and learns from each
/// conflict the clause of its first unique implication point.
pub struct WatchSolver {
    engine: Engine,
    ready: bool,
}

// Written out, so that a drop is one call and not one for each field at each exit of a function.
impl Drop for WatchSolver {
    fn drop(self) {
        let WatchSolver {
            engine: _,
            ready: _,
        } = self;
    }
}

impl Model for WatchSolver {
    ghost use Rattle.std.specs.Prelude.{◌≡◌, true};
    ghost use Rattle.solver_plain.specs.Solver.{Solver};
    ghost use Rattle.solver_watch.specs.Known.{IsKnown, base_in};

    ghost Value = { Solver };

    ghost view = { λ s. record {
      base = base_in s.engine.formula;
      log = s.engine.formula.log.items;
      ready = s.ready;
    } };

    ghost invariant = { λ s. s.ready ≡ true → IsKnown s.engine.formula };
}

impl WatchSolver {
    /// A solver without a base: the next call is `start`.
    pub fn new(alloc: Global) -> Result<WatchSolver, AllocError>
        ensures { IfOk result (λ s. s ≡ record { base = []; log = []; ready = false }) }
    {
        Ok(WatchSolver {
            engine: Engine::new(alloc)?,
            ready: false,
        })
    }
}

impl Refuter for WatchSolver {
    ghost base_of = { λ s. s.base };

    ghost log_of = { λ s. s.log };

    ghost is_ready = { λ s. s.ready };

    fn start(&mut self, alloc: Global, base: &[Named]) -> Result<(), AllocError> {
        let _ = alloc;
        self.ready = false;
        self.engine.start(base)?;
        self.ready = true;
        Ok(())
    }

    fn start_flat(&mut self, alloc: Global, base: &FlatBase) -> Result<(), AllocError> {
        if !are_used(base) {
            let listed = base.listed(alloc)?;
            return self.start(alloc, listed.as_slice());
        }
        self.ready = false;
        self.engine.start_flat(base)?;
        self.ready = true;
        Ok(())
    }

    fn refute(
        &mut self,
        alloc: Global,
        target: &Clause<Lit>,
        left: &mut u64,
    ) -> Result<Refuted, AllocError> {
        self.ready = false;
        let mut units = *left;
        let answer = self.engine.settle(alloc, target, &mut units)?;
        *left = units;
        self.ready = true;
        Ok(answer)
    }

    fn log(&self) -> &[Step] {
        self.engine.formula.log.as_slice()
    }
}
