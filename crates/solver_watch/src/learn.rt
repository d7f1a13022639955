ghost use Rattle.std.specs.Prelude.{◌≡◌, ◌<◌, ◌≤◌, ◌⊎◌, ◌∷◌, length, map, IfOk, OnOk};
ghost use Rattle.std.specs.List.{All};
ghost use Rattle.lits.specs.Clause.{IsClause};
ghost use Rattle.lits.specs.Same.{same_lit, opposite};
ghost use Rattle.flat_base.specs.Codes.{lit_at, IsCode};
ghost use Rattle.watch_lists.specs.Trail.{IsTrail, IsConflict, put_at, clause_at};
ghost use Rattle.solver_watch.specs.Known.{IsKnown};
ghost use Rattle.solver_watch.specs.Marked.{negations_at, AreWithin, IsSecond};
ghost use Rattle.solver_watch.specs.Search.{IsLesson};

use crate::cut::Cut;
use crate::formula::Formula;
use crate::hints::hints;
use crate::order::Order;
use lits::{Clause, Lit, Literal, Step};
use std::alloc::{AllocError, Global};
use watch_lists::{Put, Trail, flip};

/// What a conflict teaches.
#[derive(Drop)]
pub(crate) struct Lesson {
    pub(crate) step: Step,
    /// The level at which the clause forces its first literal.
    pub(crate) level: u64,
}

/// The clause of a conflict's first unique implication point, with the codes of its literals, and their second
/// highest level.
///
/// Of all clauses that a conflict teaches this one has a single literal of the last level by the fewest
/// steps back, and so it forces that literal after going back (Moskewicz, Madigan, Zhao, Zhang and Malik
/// 2001).
pub(crate) fn analyse(
    alloc: Global,
    formula: &Formula,
    cut: &mut Cut,
    order: &mut Order,
    conflict: u64,
    codes: &mut Vec<u32>,
) -> Result<Lesson, AllocError>
    requires known { IsKnown formula.now }
    requires number { conflict < length formula.now.trail.clauses }
    requires conflict { IsConflict formula.now.trail.puts (clause_at formula.now.trail.clauses conflict) }
    requires level { 1 ≤ formula.now.trail.last }
    ensures lesson { IfOk result (IsLesson formula.now) }
    ensures codes { IfOk result (λ l. map (lit_at formula.now.trail.nodes) codes.new.items ≡ l.step.clause) }
    ensures within { OnOk result (All (IsCode formula.now.trail.nodes) codes.new.items) }
{
    let point = cut.first_point(&formula.trail, order, conflict)?;
    let puts = formula.trail.lits();
    let clause = negated(alloc, puts, cut.below.as_slice(), point)?;
    let level = second_level(puts, cut.below.as_slice());
    write_codes(&formula.trail, cut.below.as_slice(), point, codes)?;
    let hints = hints(alloc, formula, cut, point + 1, &[], clause.lits(), conflict)?;
    Ok(Lesson {
        step: Step { clause, hints },
        level,
    })
}

/// The clause that negates the literals at these places, of which none stands twice.
fn negated(
    alloc: Global,
    puts: &[Put],
    below: &[usize],
    point: usize,
) -> Result<Clause<Lit>, AllocError>
    requires point { point < length puts.now }
    requires within { AreWithin puts.now below.now }
    requires clause { IsClause same_lit opposite (negations_at puts.now (point ∷ below.now)) }
    ensures { IfOk result (λ c. c ≡ negations_at puts.now (point ∷ below.now)) }
{
    let mut lits = Vec::with_capacity(alloc, below.len() + 1)?;
    lits.push(put(puts, point).lit.not())?;
    for place in below {
        lits.push(put(puts, *place).lit.not())?;
    }
    Clause::from_slice(alloc, lits.as_slice())
}

/// Writes the codes of the negations of the literals at these places, so that the clause can join the trail
/// without a probe for each.
fn write_codes(
    trail: &Trail,
    below: &[usize],
    point: usize,
    codes: &mut Vec<u32>,
) -> Result<(), AllocError>
    requires point { point < length trail.now.puts }
    requires within { AreWithin trail.now.puts below.now }
    ensures codes { OnOk result (map (lit_at trail.now.nodes) codes.new.items
        ≡ negations_at trail.now.puts (point ∷ below.now)) }
    ensures within { OnOk result (All (IsCode trail.now.nodes) codes.new.items) }
{
    codes.clear();
    codes.push(flip(trail.code_at(point)))?;
    for place in below {
        codes.push(flip(trail.code_at(*place)))?;
    }
    Ok(())
}

/// The highest level of these places.
fn second_level(puts: &[Put], below: &[usize]) -> u64
    requires { AreWithin puts.now below.now }
    ensures { IsSecond puts.now below.now result }
{
    let mut level = 0;
    for place in below {
        level = higher(level, put(puts, *place).level);
    }
    level
}

fn put(puts: &[Put], place: usize) -> Put
    requires { place < length puts.now }
    ensures { result ≡ put_at puts.now place }
{
    puts[place]
}

fn higher(first: u64, second: u64) -> u64
    ensures one { (result ≡ first) ⊎ (result ≡ second) }
    ensures most { (first ≤ result) × (second ≤ result) }
{
    if first < second { second } else { first }
}

/// Lets the order have the variables of the levels above this one again.
pub(crate) fn hand_back(trail: &Trail, order: &mut Order, level: u64) -> Result<(), AllocError>
    ensures { IsTrail trail.now }
{
    let puts = trail.lits();
    for place in (0..puts.len()).rev() {
        if puts[place].level <= level {
            return Ok(());
        }
        order.put_back(trail.code_at(place) / 2)?;
    }
    Ok(())
}
