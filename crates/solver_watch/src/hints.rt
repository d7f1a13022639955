ghost use Rattle.std.specs.Prelude.{◌≡◌, ◌<◌, ◌≤◌, true, false, length, IfOk};
ghost use Rattle.lits.specs.Clause.{has, has_pair};
ghost use Rattle.unit_prop.specs.Step.{IsStep};
ghost use Rattle.lits.specs.Same.{same_lit, opposite};
ghost use Rattle.solver_plain.specs.Formula.{clause_named};
ghost use Rattle.watch_lists.specs.Trail.{put_at};
ghost use Rattle.solver_watch.specs.Known.{IsKnown, clauses_known};
ghost use Rattle.solver_watch.specs.Marked.{is_marked, IsResolved, IsSupported, IsReason};

use crate::cut::Cut;
use crate::formula::Formula;
use crate::marks::Marks;
use lits::{Hints, Lit, Literal, Ref};
use std::alloc::{AllocError, Global};

/// The hints by which a goal is a step: the reasons of the marked places, in the order in which they
/// propagated, and then the conflict.
///
/// A place of which the goal has the negation needs no reason, and one of which it has the literal is a
/// conflict itself. `shown` tells both, so that the goal need not be looked through. A learned clause has
/// as many hints as places of the last level are marked, so that their list has no room to spare.
pub(crate) fn hints(
    alloc: Global,
    formula: &Formula,
    cut: &Cut,
    from: usize,
    shown: &[Lit],
    goal: &[Lit],
    conflict: u64,
) -> Result<Hints, AllocError>
    requires known { IsKnown formula.now }
    requires apart { has_pair same_lit opposite goal.now ≡ false }
    requires supported { IsSupported formula.now.trail cut.now.marks from shown.now goal.now conflict }
    ensures { IfOk result (IsStep same_lit opposite (clause_named (clauses_known formula.now)) goal.now) }
{
    let _ = goal;
    let puts = formula.trail.lits();
    let mut hints = Vec::with_capacity(alloc, cut.count)?;
    for place in from..puts.len() {
        match reason(formula, &cut.marks, shown, place) {
            None => {}
            Some(by) => {
                hints.push(formula.name(by))?;
                if contains(shown, puts[place].lit) {
                    return Ok(Hints::of(hints));
                }
            }
        }
    }
    hints.push(formula.name(conflict))?;
    Ok(Hints::of(hints))
}

/// The clause by which the literal at a place is shown, if it is marked and `shown` doesn't negate it.
fn reason(formula: &Formula, marks: &Marks, shown: &[Lit], place: usize) -> Option<u64>
    requires place { place < length formula.now.trail.puts }
    requires room { length formula.now.trail.puts ≤ length marks.now }
    requires resolved { is_marked marks.now place ≡ true
        → has same_lit shown.now (opposite (put_at formula.now.trail.puts place).lit) ≡ false
        → IsResolved formula.now.trail marks.now place }
    ensures { IsReason formula.now.trail marks.now shown.now place result }
{
    if !marks.has(place) {
        return None;
    }
    let put = formula.trail.lits()[place];
    if contains(shown, put.lit.not()) {
        return None;
    }
    let Some(by) = put.by else {
        unreachable!();
    };
    Some(by)
}

fn contains(lits: &[Lit], lit: Lit) -> bool
    ensures { result ≡ has same_lit lits.now lit }
{
    lits.contains(&lit)
}
