ghost use Rattle.std.specs.Prelude.{◌≡◌, ◌≤◌, List, [], Bool, true, OnOk, OnErr, IfOk};
ghost use Rattle.lits.specs.declared.step.Named.{Named};
ghost use Rattle.lits.specs.declared.step.Step.{Step};
ghost use Rattle.flat_base.specs.Flat.{named_of};
ghost use Rattle.unit_prop.specs.Log.{IsBase};
ghost use Rattle.unit_prop.specs.Refuter.{IsOver, Answers};

use flat_base::FlatBase;
use lits::{Clause, Hints, Listed, Lit, Named, Step};
use std::alloc::{AllocError, Global};

/// What a query says of its target.
#[derive(Drop)]
pub enum Refuted {
    /// The base implies the target: these hints make it a step over base and log.
    Yes(Hints),
    /// The base doesn't imply it: an assignment that meets the base and makes the target false.
    No(Listed<Lit>),
    /// Each unit of the budget was spent for a learned clause.
    Spent,
}

/// A solver that asks whether its base implies a clause, one clause after another.
///
/// What it learns stays in its log, whose steps stand beside the base in later queries. After a refusal for
/// want of memory the next call is `start`.
pub trait Refuter: Drop {
    ghost base_of: { Self → List Named };

    ghost log_of: { Self → List Step };

    ghost is_ready: { Self → Bool };

    /// Takes a base and forgets all that was learned.
    fn start(&mut self, alloc: Global, base: &[Named]) -> Result<(), AllocError>
        requires { IsBase base.now }
        ensures ready { OnOk result (is_ready self.new ≡ true) }
        ensures base { OnOk result (base_of self.new ≡ base.now) }
        ensures empty { OnOk result (log_of self.new ≡ []) };

    /// Takes the clauses of a flat base as `start` takes a list of them.
    ///
    /// A solver that keeps its clauses by codes has no need of the list: its variables are numbered already.
    fn start_flat(&mut self, alloc: Global, base: &FlatBase) -> Result<(), AllocError>
        requires { IsBase (named_of base.now) }
        ensures ready { OnOk result (is_ready self.new ≡ true) }
        ensures base { OnOk result (base_of self.new ≡ named_of base.now) }
        ensures empty { OnOk result (log_of self.new ≡ []) }
    {
        let listed = base.listed(alloc)?;
        self.start(alloc, listed.as_slice())
    }

    /// Asks whether the base implies the target, for at most `left` learned clauses.
    fn refute(
        &mut self,
        alloc: Global,
        target: &Clause<Lit>,
        left: &mut u64,
    ) -> Result<Refuted, AllocError>
        requires ready { is_ready self.old ≡ true }
        requires budget { 1 ≤ left.old }
        requires target { IsOver (base_of self.old) target.now }
        ensures answer { IfOk result
            (Answers (base_of self.old) target.now (log_of self.old) left.old
            (log_of self.new) left.new) }
        ensures base { OnOk result (base_of self.new ≡ base_of self.old) }
        ensures ready { OnOk result (is_ready self.new ≡ true) }
        ensures refused { OnErr result (left.new ≡ left.old) };

    /// The steps learned since the start, in order.
    fn log(&self) -> &[Step]
        ensures { result.now ≡ log_of self.now };
}
