//! Worked cases and small formulas, for any solver.

use crate::bases::{base_of, drawn_base};
use crate::checks::{asked, is_paid, solved, verdict};
use crate::clauses::{are, clause, expect, literals, parts};
use crate::formulas::{CONE_OF_XOR, DRAWN, ONE_GATE, TWIN_GATES};
use lits::{Clause, Lit, Named};
use std::alloc::Global;
use std::process::Abort;
use unit_prop::{Refuted, Refuter};

/// The query of the target over the base has that verdict; the units that are left.
fn left_of<R: Refuter>(
    rt: &impl Abort,
    alloc: Global,
    solver: &mut R,
    base: &[Named],
    target: &Clause<Lit>,
    budget: u64,
    wanted: Option<bool>,
) -> u64 {
    let (answer, left) = solved(rt, alloc, solver, base, target, budget);
    expect(rt, "the verdict", verdict(&answer) == wanted);
    left
}

/// What the solver answers of a gate that can be true, and the units that are left of 100.
fn answer_of_gate<R: Refuter>(rt: &impl Abort, alloc: Global, solver: &mut R) -> (Refuted, u64) {
    let base = base_of(rt, alloc, ONE_GATE);
    let target = clause(rt, alloc, "-a3");
    solved(rt, alloc, solver, base.as_slice(), &target, 100)
}

/// Whether these are both inputs and the gate, in any order.
fn are_all_true(rt: &impl Abort, alloc: Global, model: &[Lit]) -> bool {
    for lit in literals(rt, alloc, "a3 0 1").as_slice() {
        if !model.contains(lit) {
            return false;
        }
    }
    model.len() == 3
}

/// Whether the answer is the model in which all of them are true, by the plan in its order.
fn is_model(rt: &impl Abort, alloc: Global, answer: &Refuted, by_plan: bool) -> bool {
    match answer {
        Refuted::No(model) if by_plan => are(rt, alloc, model.as_slice(), "a3 0 1"),
        Refuted::No(model) => are_all_true(rt, alloc, model.as_slice()),
        _ => false,
    }
}

/// The model of a gate that can be true. The plan spends no unit for it, and learns nothing.
pub(crate) fn check_model<R: Refuter>(
    rt: &impl Abort,
    alloc: Global,
    mut solver: R,
    by_plan: bool,
) {
    let (answer, left) = answer_of_gate(rt, alloc, &mut solver);
    expect(rt, "the model", is_model(rt, alloc, &answer, by_plan));
    expect(rt, "no unit is spent", !by_plan || left == 100);
}

/// That the outputs of two XORs are equal.
const EQUAL_OUTPUTS: &str = "-d0";

/// All units are spent, one for each clause that is learned, and with them the query is given up.
fn check_given_up<R: Refuter>(
    rt: &impl Abort,
    alloc: Global,
    solver: &mut R,
    base: &[Named],
    target: &Clause<Lit>,
    units: u64,
) {
    let left = left_of(rt, alloc, solver, base, target, units, None);
    expect(rt, "all units are spent", left == 0);
}

/// A budget of one unit is spent for one clause.
pub(crate) fn check_spent<R: Refuter>(rt: &impl Abort, alloc: Global, solver: &mut R) {
    let base = base_of(rt, alloc, CONE_OF_XOR);
    let target = clause(rt, alloc, EQUAL_OUTPUTS);
    check_given_up(rt, alloc, solver, base.as_slice(), &target, 1);
}

/// With 100000 units the outputs are equal; the clauses that are learned are new.
pub(crate) fn check_enough<R: Refuter>(rt: &impl Abort, alloc: Global, solver: &mut R) {
    let base = base_of(rt, alloc, CONE_OF_XOR);
    let target = clause(rt, alloc, EQUAL_OUTPUTS);
    let base = base.as_slice();
    left_of(rt, alloc, solver, base, &target, 100_000, Some(true));
}

/// One unit is spent, and then as many as the answer takes; the units that are left of 100000. What was
/// learned in a query that was given up stays in the next.
fn left_of_second_query<R: Refuter>(rt: &impl Abort, alloc: Global, solver: &mut R) -> u64 {
    let base = base_of(rt, alloc, CONE_OF_XOR);
    let target = clause(rt, alloc, EQUAL_OUTPUTS);
    solved(rt, alloc, solver, base.as_slice(), &target, 1);
    let (answer, left) = asked(rt, alloc, solver, base.as_slice(), &target, 100_000);
    expect(rt, "the outputs are equal", verdict(&answer) == Some(true));
    left
}

/// What was learned stays in the next query, until the next start. The plan spends one unit and two more.
pub(crate) fn check_queries<R: Refuter>(
    rt: &impl Abort,
    alloc: Global,
    mut solver: R,
    by_plan: bool,
) {
    let left = left_of_second_query(rt, alloc, &mut solver);
    let is_paid = is_paid(&solver, left, 100_001);
    expect(rt, "a unit for each clause", is_paid);
    expect(rt, "three clauses are learned", !by_plan || left == 99_998);
    check_spent(rt, alloc, &mut solver);
}

/// Within 100 units the base implies the target, or doesn't, as it is said. A solver that goes by the plan
/// takes just so many units, which are all spent where there are no more.
fn check_query<R: Refuter>(
    rt: &impl Abort,
    alloc: Global,
    solver: &mut R,
    base: &[Named],
    target: &Clause<Lit>,
    (implied, units): (bool, u64),
    by_plan: bool,
) {
    let left = left_of(rt, alloc, solver, base, target, 100, Some(implied));
    if !by_plan {
        return;
    }
    expect(rt, "the plan's units", left.saturating_add(units) == 100);
    if units > 0 {
        check_given_up(rt, alloc, solver, base, target, units);
    }
}

/// The verdict of a case, which is `yes` or `no`, and its units.
fn answer_of(rt: &impl Abort, text: &str) -> (bool, u64) {
    let (word, units) = parts(rt, text, " ");
    expect(rt, "a verdict", word == "yes" || word == "no");
    (word == "yes", units.parse().expect(rt, "units"))
}

/// Tries a target over its base.
fn check_target<R: Refuter>(
    rt: &impl Abort,
    alloc: Global,
    solver: &mut R,
    base: &[Named],
    text: &str,
    by_plan: bool,
) {
    let (lits, answer) = parts(rt, text, "? ");
    let answer = answer_of(rt, answer.trim());
    let target = clause(rt, alloc, lits);
    check_query(rt, alloc, solver, base, &target, answer, by_plan);
}

/// Tries the targets, which bars divide, over the base.
pub(crate) fn check_targets<R: Refuter>(
    rt: &impl Abort,
    alloc: Global,
    solver: &mut R,
    (base, targets): (&str, &str),
    by_plan: bool,
) {
    let base = base_of(rt, alloc, base.trim());
    for text in targets.split('|') {
        check_target(rt, alloc, solver, base.as_slice(), text, by_plan);
    }
}

/// Twin gates imply one another, which takes no unit and no learned clause.
pub(crate) fn check_yes<R: Refuter>(rt: &impl Abort, alloc: Global, mut solver: R) {
    check_targets(rt, alloc, &mut solver, (TWIN_GATES, "-b3 a3? yes 0"), true);
}

/// Tries each line of the cases, for a solver that goes by the plan or by its own.
pub(crate) fn check_lines<R: Refuter>(
    rt: &impl Abort,
    alloc: Global,
    mut solver: R,
    lines: &str,
    by_plan: bool,
) {
    for line in lines.lines() {
        check_targets(rt, alloc, &mut solver, parts(rt, line, "|"), by_plan);
    }
}

/// Tries the clauses that are drawn from a seed: they are unsatisfiable or not, as it is said.
fn check_seed<R: Refuter>(
    rt: &impl Abort,
    alloc: Global,
    solver: &mut R,
    (seed, implied, units): (u32, bool, u64),
    by_plan: bool,
) {
    let base = drawn_base(rt, alloc, seed);
    let target = clause(rt, alloc, "");
    let answer = (implied, units);
    check_query(rt, alloc, solver, base.as_slice(), &target, answer, by_plan);
}

/// Tries all seeds.
pub(crate) fn check_drawn<R: Refuter>(
    rt: &impl Abort,
    alloc: Global,
    mut solver: R,
    by_plan: bool,
) {
    for row in &DRAWN {
        check_seed(rt, alloc, &mut solver, *row, by_plan);
    }
}
