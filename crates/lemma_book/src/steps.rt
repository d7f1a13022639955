ghost use Rattle.std.specs.Prelude.{◌≡◌, List, Option, Ok, Err, IfOk, IfErr, OnOk};
ghost use Rattle.lits.specs.declared.literal.Lit.{Lit};
ghost use Rattle.lits.specs.declared.step.Ref.{Ref};
ghost use Rattle.lits.specs.Same.{same_lit, opposite};
ghost use Rattle.unit_prop.specs.Step.{first_fault, after_found, IfBad};
ghost use Rattle.unit_prop.specs.Log.{with_own};
ghost use Rattle.lemma_book.specs.Judging.{IsFirstBad, IsFaultOf};

use lits::{Lit, Ref, Step};
use std::alloc::AllocError;
use unit_prop::{BadStep, StepCheck, StepErr, Why};

/// Clauses that the hints of an entry's steps may name, besides the entry's own earlier steps.
pub(crate) trait Sources {
    ghost find: { Self → Ref → Option (List Lit) };

    /// Gives the check the clause of a name as its next hint.
    fn hint(&self, check: &mut StepCheck<Lit>, name: Ref) -> Result<(), StepErr>
        ensures ok { OnOk result
            (after_found same_lit opposite check.old (find self.now name) ≡ Ok check.new) }
        ensures bad { IfErr result (λ e. IfBad e (λ w.
            after_found same_lit opposite check.old (find self.now name) ≡ Err w)) };
}

/// The first of the steps that is none over the sources and the steps before it, and its first fault.
pub(crate) fn first_bad<S: Sources>(
    check: &mut StepCheck<Lit>,
    sources: &S,
    steps: &[Step],
) -> Result<Option<(u64, BadStep)>, AllocError>
    ensures { IfOk result (IsFirstBad (S.Sources.find sources.now) steps.now) }
{
    for (k, step) in steps.iter().enumerate() {
        if let Some(bad) = fault_of(check, sources, &steps[..k], step)? {
            return Ok(Some((k as u64, bad)));
        }
    }
    Ok(None)
}

/// The first fault of a step over the sources and the steps before it.
fn fault_of<S: Sources>(
    check: &mut StepCheck<Lit>,
    sources: &S,
    before: &[Step],
    step: &Step,
) -> Result<Option<BadStep>, AllocError>
    ensures { IfOk result (λ fault. fault
        ≡ first_fault same_lit opposite (with_own (S.Sources.find sources.now) before.now)
        step.now.clause step.now.hints) }
{
    if let Err(error) = check.begin(step.clause.lits()) {
        return told(0, error);
    }
    for i in 0..step.hints.len() {
        if let Err(error) = take_hint(check, sources, before, step.hints.at(i)) {
            return told(i as u64 + 1, error);
        }
    }
    match check.end() {
        Ok(()) => Ok(None),
        Err(why) => Ok(Some(BadStep { hint: 0, why })),
    }
}

/// Gives the check the clause of a name, which may be that of an own step.
fn take_hint<S: Sources>(
    check: &mut StepCheck<Lit>,
    sources: &S,
    before: &[Step],
    name: Ref,
) -> Result<(), StepErr>
    ensures ok { OnOk result (after_found same_lit opposite check.old
        (with_own (S.Sources.find sources.now) before.now name) ≡ Ok check.new) }
    ensures bad { IfErr result (λ e. IfBad e (λ w. after_found same_lit opposite check.old
        (with_own (S.Sources.find sources.now) before.now name) ≡ Err w)) }
{
    match name {
        Ref::Own(k) => match before.get(k as usize) {
            Some(step) => check.hint(step.clause.lits()),
            None => Err(StepErr::Bad(Why::NoClause)),
        },
        Ref::Axiom(_, _) | Ref::Entry(_, _) | Ref::Bound(_, _) => sources.hint(check, name),
    }
}

/// The fault with its place, unless memory ran out.
fn told(hint: u64, error: StepErr) -> Result<Option<BadStep>, AllocError>
    ensures { IfOk result (IsFaultOf hint error) }
{
    match error {
        StepErr::Bad(why) => Ok(Some(BadStep { hint, why })),
        StepErr::NoMemory => Err(AllocError),
    }
}
