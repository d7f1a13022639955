ghost use Rattle.std.specs.Prelude.{◌≡◌, ◌<◌, ◌++◌, [], ◌∷◌, ℕ, Some, length, map, OnOk, IfOk};
ghost use Rattle.std.specs.List.{All};
ghost use Rattle.flat_base.specs.Codes.{lit_at, IsCode};
ghost use Rattle.flat_base.specs.Flat.{named_of};
ghost use Rattle.unit_prop.specs.Log.{IsBase};
ghost use Rattle.watch_lists.specs.Trail.{Adds, IsQuiet, clause_at, up_to, with_clause};
ghost use Rattle.solver_plain.specs.Formula.{clause_named};
ghost use Rattle.solver_watch.specs.Known.{AreUsed, IsKnown, IsStarted, clauses_known};

use flat_base::FlatBase;
use lits::{Named, Ref, Step};
use std::alloc::{AllocError, Global};
use watch_lists::Trail;

/// The clauses of a base and of the steps learned over it, by their names and on a trail.
pub(crate) struct Formula {
    /// The names of the base's clauses, which are the first of the trail.
    pub(crate) names: Vec<Ref>,
    pub(crate) log: Vec<Step>,
    /// It has the base's clauses and then the log's.
    pub(crate) trail: Trail,
}

// Written out, so that a drop is one call and not one for each field at each exit of a function.
impl Drop for Formula {
    fn drop(self) {
        let Formula {
            names: _,
            log: _,
            trail: _,
        } = self;
    }
}

impl Formula {
    /// The formula without clauses.
    pub(crate) fn new(alloc: Global) -> Result<Formula, AllocError>
        ensures { IfOk result (λ f. clauses_known f ≡ record { base = []; log = [] }) }
    {
        Ok(Formula {
            names: Vec::new(alloc),
            log: Vec::new(alloc),
            trail: Trail::new(alloc)?,
        })
    }

    /// Takes a base in the place of all that was there.
    pub(crate) fn start(&mut self, base: &[Named]) -> Result<(), AllocError>
        requires { IsBase base.now }
        ensures { OnOk result (IsStarted base.now self.new) }
    {
        self.names.clear();
        self.log.clear();
        self.trail.clear();
        for named in base {
            self.add(named)?;
        }
        Ok(())
    }

    /// The same of a flat base, without a probe or a copy of a clause besides the trail's.
    pub(crate) fn start_flat(&mut self, base: &FlatBase) -> Result<(), AllocError>
        requires base { IsBase (named_of base.now) }
        requires used { AreUsed base.now }
        ensures { OnOk result (IsStarted (named_of base.now) self.new) }
    {
        self.names.clear();
        self.log.clear();
        self.trail.start(base)?;
        for number in 0..base.len() {
            self.names.push(base.name(number))?;
        }
        Ok(())
    }

    /// Adds a clause of the base, as the last one.
    fn add(&mut self, named: &Named) -> Result<(), AllocError>
        requires { self.old.trail.last ≡ 0 }
        ensures trail { OnOk result (Adds self.old.trail named.now.clause self.new.trail) }
        ensures names { OnOk result (self.new.names.items ≡ self.old.names.items ++ named.now.by ∷ []) }
        ensures log { self.new.log.items ≡ self.old.log.items }
    {
        self.trail.add(&named.clause)?;
        self.names.push(named.by)?;
        Ok(())
    }

    /// Adds a learned step, whose literals have these codes, as the last one.
    pub(crate) fn learn(&mut self, step: Step, codes: &[u32]) -> Result<(), AllocError>
        requires within { All (IsCode self.old.trail.nodes) codes.now }
        requires same { map (lit_at self.old.trail.nodes) codes.now ≡ step.clause }
        requires quiet { (level : ℕ) → level < self.old.trail.last
            → IsQuiet (up_to level self.old.trail.puts) step.clause }
        ensures trail { OnOk result (self.new.trail ≡ with_clause self.old.trail step.clause) }
        ensures log { OnOk result (self.new.log.items ≡ self.old.log.items ++ step ∷ []) }
        ensures names { self.new.names.items ≡ self.old.names.items }
    {
        self.trail.add_codes(codes)?;
        self.log.push(step)?;
        Ok(())
    }

    /// The name of a clause of the trail.
    pub(crate) fn name(&self, number: u64) -> Ref
        requires known { IsKnown self.now }
        requires within { number < length self.now.trail.clauses }
        ensures { clause_named (clauses_known self.now) result
            ≡ Some (clause_at self.now.trail.clauses number) }
    {
        let base = self.names.len() as u64;
        if number < base {
            self.names[number as usize]
        } else {
            Ref::Own(number - base)
        }
    }
}
