ghost use Rattle.std.specs.Prelude.{◌≡◌, [], ◌∷◌, ◌++◌, IfOk};

use lits::{Clause, Hints, Listed, Lit, Step};
use std::alloc::{AllocError, Global};

/// The clause of one literal.
pub(crate) fn unit(alloc: Global, lit: Lit) -> Result<Clause<Lit>, AllocError>
    ensures { IfOk result (λ c. c ≡ lit ∷ []) }
{
    Clause::from_slice(alloc, &[lit])
}

/// The same steps once more.
pub(crate) fn copied(alloc: Global, steps: &[Step]) -> Result<Vec<Step>, AllocError>
    ensures { IfOk result (λ v. v.items ≡ steps.now) }
{
    let mut copies = Vec::with_capacity(alloc, steps.len())?;
    for step in steps {
        copies.push(copy_of(alloc, step)?)?;
    }
    Ok(copies)
}

/// The same steps, and one more.
pub(crate) fn one_more(
    alloc: Global,
    steps: &[Step],
    clause: Clause<Lit>,
    hints: Hints,
) -> Result<Listed<Step>, AllocError>
    ensures { IfOk result (λ l. l ≡ steps.now ++ record { clause = clause; hints = hints } ∷ []) }
{
    let mut steps = copied(alloc, steps)?;
    steps.push(Step { clause, hints })?;
    Ok(Listed::of(steps))
}

/// A copy of a step: the solver keeps its log for the next query, and the entry has to own its steps.
fn copy_of(alloc: Global, step: &Step) -> Result<Step, AllocError>
    ensures { IfOk result (λ s. s ≡ step.now) }
{
    let clause = step.clause.copy()?;
    let hints = Hints::of(step.hints.to_vec(alloc)?);
    Ok(Step { clause, hints })
}
