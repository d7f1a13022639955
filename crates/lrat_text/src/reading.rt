ghost use Rattle.std.specs.Prelude.{◌≡◌};
ghost use Rattle.lrat_text.specs.Steps.{id_after};
ghost use Rattle.lrat_text.specs.Reading.{addition_in, deletion_in, step_of, words_in, Gives};
ghost use Rattle.lrat_text.specs.Parts.{addition_of, deletion_of};

use crate::error::LratErr;
use crate::parts::{Parts, Place};
use crate::step::LratStep;
use byte_scan::NUMBER_LIMIT;
use lits::Listed;
use std::alloc::Global;
use tokens::{Number, Space, first_word, number_in};

/// The step that line `at` says, if it says one; the additions so far have ids up to `last`.
pub(crate) fn step_of(
    alloc: Global,
    at: u64,
    last: u64,
    line: &[u8],
) -> Result<Option<LratStep>, LratErr>
    ensures { Gives result (step_of at last (words_in line.now)) }
{
    let Some((first, rest)) = first_word::<Space>(line) else {
        return Ok(None);
    };
    let number = number_in(first).ok_or(LratErr::BadNumber(at))?;
    let step = match first_word::<Space>(rest) {
        Some(([b'd'], ids)) => deletion(alloc, at, ids)?,
        _ => addition(alloc, at, last, number, rest)?,
    };
    Ok(Some(step))
}

/// The addition with this id, of the rest of its line.
fn addition(alloc: Global, at: u64, last: u64, id: Number, rest: &[u8]) -> Result<LratStep, LratErr>
    ensures { Gives result (addition_in at last id (words_in rest.now)) }
{
    if id.minus || id.size == 0 || id.size >= NUMBER_LIMIT {
        return Err(LratErr::BadNumber(at));
    }
    let parts = Parts::read(alloc, at, Place::Literals, rest)?;
    addition_of(at, last, id.size, parts)
}

/// The addition in a line's parts, or its first fault: a line without an end, then an id that doesn't rise,
/// then a negative hint, which is one of a RAT step.
fn addition_of(at: u64, last: u64, id: u64, parts: Parts) -> Result<LratStep, LratErr>
    ensures { result ≡ addition_of at last id parts }
{
    if !parts.is_ended() {
        return Err(LratErr::Truncated(at));
    }
    if id <= last {
        return Err(LratErr::Order(at));
    }
    if parts.has_minus {
        return Err(LratErr::Rat(at));
    }
    let Parts {
        literals,
        hints,
        ..
    } = parts;
    let clause = Listed::of(literals);
    let hints = Listed::of(hints);
    Ok(LratStep::Add { id, clause, hints })
}

/// The deletion, of the part of its line behind the `d`.
fn deletion(alloc: Global, at: u64, rest: &[u8]) -> Result<LratStep, LratErr>
    ensures { Gives result (deletion_in at (words_in rest.now)) }
{
    let parts = Parts::read(alloc, at, Place::Hints, rest)?;
    deletion_of(at, parts)
}

/// The deletion in a line's parts, or its first fault. RAT has no part in it: a negative id is no number.
fn deletion_of(at: u64, parts: Parts) -> Result<LratStep, LratErr>
    ensures { result ≡ deletion_of at parts }
{
    if parts.has_minus {
        return Err(LratErr::BadNumber(at));
    }
    if !parts.is_ended() {
        return Err(LratErr::Truncated(at));
    }
    let ids = Listed::of(parts.hints);
    Ok(LratStep::Del { ids })
}

/// The id of the last addition behind the step, `last` being that before it.
pub(crate) fn id_after(last: u64, step: &LratStep) -> u64
    ensures { result ≡ id_after last step.now }
{
    match step {
        LratStep::Add { id, .. } => *id,
        LratStep::Del { .. } => last,
    }
}
