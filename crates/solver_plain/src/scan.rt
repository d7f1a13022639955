ghost use Rattle.std.specs.Prelude.{IfOk};
ghost use Rattle.solver_plain.specs.Scan.{IsSound, IsScan};

use crate::effect::Effect;
use crate::formula::Formula;
use lits::{Hints, Lit, LiteralSet};
use std::alloc::{AllocError, Global};

/// Lets the clauses add to the set of true literals what they force, each time by the first that
/// does something, until one is wholly false or none does anything more. The hints in the first case.
pub(crate) fn scan(
    alloc: Global,
    formula: &Formula,
    set: &mut LiteralSet<Lit>,
) -> Result<Option<Hints>, AllocError>
    requires { IsSound formula.now set.old }
    ensures { IfOk result (IsScan formula.now set.old set.new) }
{
    let mut hints = Vec::new(alloc);
    while let Some(hint) = formula.next_hint(set) {
        hints.push(hint.by)?;
        match hint.effect {
            Effect::Clashes => return Ok(Some(Hints::of(hints))),
            Effect::Forces(lit) => set.push(lit)?,
        }
    }
    Ok(None)
}
