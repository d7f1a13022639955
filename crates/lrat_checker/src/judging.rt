ghost use Rattle.std.specs.Prelude.{◌≡◌, IfOk};
ghost use Rattle.lrat_text.specs.Derivation.{fault_over};
ghost use Rattle.lrat_checker.specs.Live.{clauses_of};

use crate::live::LiveClauses;
use lits::Dim;
use lrat_text::LratStep;
use std::alloc::AllocError;
use unit_prop::{BadStep, StepCheck};

/// The first fault of an addition over the live clauses; a deletion has none.
pub(crate) fn fault_over(
    check: &mut StepCheck<Dim>,
    live: &LiveClauses<'_>,
    step: &LratStep,
) -> Result<Option<BadStep>, AllocError>
    ensures { IfOk result (λ fault. fault ≡ fault_over (clauses_of live.now) step.now) }
{
    match step {
        LratStep::Add {
            id: _,
            clause,
            hints,
        } => check.fault_of(live, clause.as_slice(), hints.as_slice()),
        LratStep::Del { ids: _ } => Ok(None),
    }
}
