ghost use Rattle.std.specs.Prelude.{◌≡◌, false, map, IfOk};
ghost use Rattle.std.specs.List.{list_all};
ghost use Rattle.keep_lemmas.specs.Kept.{renewed_hint, renewed_step, renewed};
ghost use Rattle.keep_lemmas.specs.Keeping.{number_in, is_current, is_current_step, is_current_hint};

use lemma_book::Entry;
use lits::{Hints, Listed, Ref, Step};
use std::alloc::{AllocError, Global};

/// Whether the entry's hints name entries by their new numbers as they are.
pub(crate) fn is_current(numbers: &[Option<u64>], entry: &Entry) -> bool
    ensures { result ≡ is_current numbers.now entry.now }
{
    match entry {
        Entry::Merge { steps, .. } | Entry::Out { steps, .. } => {
            are_current(numbers, steps.as_slice())
        }
        Entry::Apart { .. }
        | Entry::Spent { .. }
        | Entry::OutApart { .. }
        | Entry::OutSpent { .. } => true,
    }
}

fn are_current(numbers: &[Option<u64>], steps: &[Step]) -> bool
    ensures { result ≡ list_all (is_current_step numbers.now) steps.now }
{
    steps.iter().all(|step| is_current_step(numbers, step))
}

fn is_current_step(numbers: &[Option<u64>], step: &Step) -> bool
    ensures { result ≡ is_current_step numbers.now step.now }
{
    for place in 0..step.hints.len() {
        if !is_current_hint(numbers, step.hints.at(place)) {
            return false;
        }
    }
    true
}

fn is_current_hint(numbers: &[Option<u64>], hint: Ref) -> bool
    ensures { result ≡ is_current_hint numbers.now hint }
{
    match hint {
        Ref::Entry(place, _) => number_in(numbers, place) == place,
        Ref::Axiom(_, _) | Ref::Own(_) | Ref::Bound(_, _) => true,
    }
}

/// A copy of the entry, whose hints name entries by their new numbers.
pub(crate) fn renewed(
    alloc: Global,
    numbers: &[Option<u64>],
    entry: &Entry,
) -> Result<Entry, AllocError>
    requires { is_current numbers.now entry.now ≡ false }
    ensures { IfOk result (λ e. e ≡ renewed (number_in numbers.now) entry.now) }
{
    match entry {
        Entry::Merge { node, lit, steps } => Ok(Entry::Merge {
            node: *node,
            lit: *lit,
            steps: Listed::of(renewed_steps(alloc, numbers, steps.as_slice())?),
        }),
        Entry::Out { output, steps } => Ok(Entry::Out {
            output: *output,
            steps: Listed::of(renewed_steps(alloc, numbers, steps.as_slice())?),
        }),
        Entry::Apart { .. }
        | Entry::Spent { .. }
        | Entry::OutApart { .. }
        | Entry::OutSpent { .. } => unreachable!(),
    }
}

/// Copies of the steps, whose hints name entries by their new numbers.
fn renewed_steps(
    alloc: Global,
    numbers: &[Option<u64>],
    steps: &[Step],
) -> Result<Vec<Step>, AllocError>
    ensures { IfOk result (λ v. v.items ≡ map (renewed_step (number_in numbers.now)) steps.now) }
{
    let mut renewed = Vec::with_capacity(alloc, steps.len())?;
    for step in steps {
        renewed.push(renewed_step(alloc, numbers, step)?)?;
    }
    Ok(renewed)
}

fn renewed_step(alloc: Global, numbers: &[Option<u64>], step: &Step) -> Result<Step, AllocError>
    ensures { IfOk result (λ s. s ≡ renewed_step (number_in numbers.now) step.now) }
{
    let clause = step.clause.copy()?;
    let hints = renewed_hints(alloc, numbers, &step.hints)?;
    Ok(Step {
        clause,
        hints: Hints::of(hints),
    })
}

fn renewed_hints(
    alloc: Global,
    numbers: &[Option<u64>],
    hints: &Hints,
) -> Result<Vec<Ref>, AllocError>
    ensures { IfOk result (λ v. v.items ≡ map (renewed_hint (number_in numbers.now)) hints.now) }
{
    let mut renewed = Vec::with_capacity(alloc, hints.len())?;
    for place in 0..hints.len() {
        renewed.push(renewed_hint(numbers, hints.at(place)))?;
    }
    Ok(renewed)
}

fn renewed_hint(numbers: &[Option<u64>], hint: Ref) -> Ref
    ensures { result ≡ renewed_hint (number_in numbers.now) hint }
{
    match hint {
        Ref::Axiom(node, k) => Ref::Axiom(node, k),
        Ref::Entry(place, k) => Ref::Entry(number_in(numbers, place), k),
        Ref::Own(step) => Ref::Own(step),
        Ref::Bound(side, k) => Ref::Bound(side, k),
    }
}

/// The new number of the entry that had this place; 0 where it has none, of which no step asks that stays.
fn number_in(numbers: &[Option<u64>], place: u64) -> u64
    ensures { result ≡ number_in numbers.now place }
{
    match numbers.get(place as usize) {
        Some(Some(number)) => *number,
        _ => 0,
    }
}
