//! Queries whose answers are checked outside of the solver.
ghost use Rattle.std.specs.Prelude.{◌≡◌, true};

use crate::bases::{is_base, is_over};
use crate::clauses::expect;
use crate::flat_bases::flat_of;
use lits::{Clause, Hints, Lit, Literal, Named, Ref, Step};
use std::alloc::Global;
use std::process::Abort;
use unit_prop::{Closure, Refuted, Refuter, StepCheck, close_under};

/// The clause of the name in base and log.
fn clause_named<'a>(base: &'a [Named], log: &'a [Step], name: Ref) -> Option<&'a Clause<Lit>> {
    if let Ref::Own(place) = name {
        return match log.get(place as usize) {
            Some(step) => Some(&step.clause),
            None => None,
        };
    }
    for named in base {
        if named.by == name {
            return Some(&named.clause);
        }
    }
    None
}

/// Takes the clause of the name as the next hint; whether it is one.
fn is_hint(check: &mut StepCheck<Lit>, base: &[Named], log: &[Step], name: Ref) -> bool {
    match clause_named(base, log, name) {
        Some(clause) => check.hint(clause.lits()).is_ok(),
        None => false,
    }
}

/// Whether the hints are these names, in order.
pub(crate) fn are_names(hints: &Hints, names: &[Ref]) -> bool {
    if hints.len() != names.len() {
        return false;
    }
    for place in 0..hints.len() {
        if hints.at(place) != names[place] {
            return false;
        }
    }
    true
}

/// Whether the hints make the clause a step over base and log.
fn is_step(
    check: &mut StepCheck<Lit>,
    base: &[Named],
    log: &[Step],
    clause: &Clause<Lit>,
    hints: &Hints,
) -> bool {
    if check.begin(clause.lits()).is_err() {
        return false;
    }
    for place in 0..hints.len() {
        if !is_hint(check, base, log, hints.at(place)) {
            return false;
        }
    }
    check.end().is_ok()
}

/// The negations of all literals but one.
fn negations(rt: &impl Abort, alloc: Global, lits: &[Lit], but: Lit) -> Vec<Lit> {
    let mut negations = Vec::new(alloc);
    for lit in lits {
        if *lit != but {
            negations.push(lit.not()).expect(rt, "memory");
        }
    }
    negations
}

/// Whether the closure of the clauses and of the negations of all literals but one lacks that one and
/// doesn't clash.
fn is_open(
    rt: &impl Abort,
    alloc: Global,
    clauses: &[Clause<Lit>],
    lits: &[Lit],
    lit: Lit,
) -> bool {
    let given = negations(rt, alloc, lits, lit);
    match close_under(alloc, clauses, given.as_slice()).expect(rt, "memory") {
        Closure::Clash => false,
        Closure::Free(found) => !found.as_slice().contains(&lit),
    }
}

/// Whether the clause of the literals is new over the clauses: it is open for one of its literals.
fn is_new(rt: &impl Abort, alloc: Global, clauses: &[Clause<Lit>], lits: &[Lit]) -> bool {
    for lit in lits {
        if is_open(rt, alloc, clauses, lits, *lit) {
            return true;
        }
    }
    false
}

fn push_copy(rt: &impl Abort, clauses: &mut Vec<Clause<Lit>>, clause: &Clause<Lit>) {
    let copy = clause.copy().expect(rt, "memory");
    clauses.push(copy).expect(rt, "memory");
}

/// Checks that each of the log's clauses is new over those of the base and before it.
fn check_new(rt: &impl Abort, alloc: Global, base: &[Named], log: &[Step]) {
    let mut clauses = Vec::new(alloc);
    for named in base {
        push_copy(rt, &mut clauses, &named.clause);
    }
    for step in log {
        let is_new = is_new(rt, alloc, clauses.as_slice(), step.clause.lits());
        expect(rt, "a new clause", is_new);
        push_copy(rt, &mut clauses, &step.clause);
    }
}

/// Checks that each step of the log follows by its hints from the base and the steps before it.
fn check_steps(rt: &impl Abort, check: &mut StepCheck<Lit>, base: &[Named], log: &[Step]) {
    for (place, step) in log.iter().enumerate() {
        let is_step = is_step(check, base, &log[..place], &step.clause, &step.hints);
        expect(rt, "a step", is_step);
    }
}

/// Whether the base's clauses are true under the model and the target is false.
fn is_model(base: &[Named], target: &Clause<Lit>, model: &[Lit]) -> bool {
    for named in base {
        if !named.clause.holds(model) {
            return false;
        }
    }
    !target.holds(model)
}

/// Whether the answer is right over base and log.
fn is_right(
    check: &mut StepCheck<Lit>,
    base: &[Named],
    log: &[Step],
    target: &Clause<Lit>,
    answer: &Refuted,
) -> bool {
    match answer {
        Refuted::Yes(hints) => is_step(check, base, log, target, hints),
        Refuted::No(model) => is_model(base, target, model.as_slice()),
        Refuted::Spent => true,
    }
}

/// Checks a solver's answer and log outside of it.
fn check_answer(
    rt: &impl Abort,
    alloc: Global,
    base: &[Named],
    log: &[Step],
    target: &Clause<Lit>,
    answer: &Refuted,
) {
    check_new(rt, alloc, base, log);
    let mut check = StepCheck::new(alloc);
    let is_right = is_right(&mut check, base, log, target, answer);
    expect(rt, "a right answer", is_right);
    check_steps(rt, &mut check, base, log);
}

/// The answer of a solver that has the base, which is checked, and the units that are left.
pub(crate) fn asked<R: Refuter>(
    rt: &impl Abort,
    alloc: Global,
    solver: &mut R,
    base: &[Named],
    target: &Clause<Lit>,
    budget: u64,
) -> (Refuted, u64)
    requires ready { R.Refuter.is_ready solver.old ≡ true }
    requires base { R.Refuter.base_of solver.old ≡ base.now }
    ensures ready { R.Refuter.is_ready solver.new ≡ true }
    ensures base { R.Refuter.base_of solver.new ≡ base.now }
{
    expect(rt, "literals of the base", is_over(base, target.lits()));
    expect(rt, "a unit", budget >= 1);
    let mut left = budget;
    let answer = solver.refute(alloc, target, &mut left).expect(rt, "memory");
    check_answer(rt, alloc, base, solver.log(), target, &answer);
    (answer, left)
}

/// Whether so many units and the clauses learned are as many as there were.
pub(crate) fn is_paid<R: Refuter>(solver: &R, left: u64, units: u64) -> bool {
    left.saturating_add(solver.log().len() as u64) == units
}

/// Whether both lists have the same clauses by the same names.
fn are_same(one: &[Named], other: &[Named]) -> bool {
    if one.len() != other.len() {
        return false;
    }
    for place in 0..one.len() {
        let (a, b) = (&one[place], &other[place]);
        if a.by != b.by || a.clause.lits() != b.clause.lits() {
            return false;
        }
    }
    true
}

/// Has the solver take the base flat. The list that this stands for, which is checked.
fn started_flat<R: Refuter>(
    rt: &impl Abort,
    alloc: Global,
    solver: &mut R,
    base: &[Named],
) -> Vec<Named>
    ensures ready { R.Refuter.is_ready solver.new ≡ true }
    ensures base { R.Refuter.base_of solver.new ≡ result.items }
{
    let flat = flat_of(rt, alloc, base);
    let listed = flat.listed(alloc).expect(rt, "memory");
    expect(rt, "a flat base", is_base(listed.as_slice()));
    solver.start_flat(alloc, &flat).expect(rt, "memory");
    listed
}

/// The verdict and the units that are left where the solver takes the base flat.
fn solved_flat<R: Refuter>(
    rt: &impl Abort,
    alloc: Global,
    solver: &mut R,
    base: &[Named],
    target: &Clause<Lit>,
    budget: u64,
) -> (Option<bool>, u64) {
    let listed = started_flat(rt, alloc, solver, base);
    let are_same = are_same(listed.as_slice(), base);
    expect(rt, "the list that the flat base stands for", are_same);
    expect(rt, "nothing is learned yet", solver.log().is_empty());
    let (answer, left) = asked(rt, alloc, solver, listed.as_slice(), target, budget);
    (verdict(&answer), left)
}

/// The same where the solver takes the base first, and forgets what it learned before. Each unit that it
/// spends is spent for a learned clause. From a flat base it answers the same for as many units.
pub(crate) fn solved<R: Refuter>(
    rt: &impl Abort,
    alloc: Global,
    solver: &mut R,
    base: &[Named],
    target: &Clause<Lit>,
    budget: u64,
) -> (Refuted, u64)
    ensures ready { R.Refuter.is_ready solver.new ≡ true }
    ensures base { R.Refuter.base_of solver.new ≡ base.now }
{
    let from_flat = solved_flat(rt, alloc, solver, base, target, budget);
    expect(rt, "a base", is_base(base));
    solver.start(alloc, base).expect(rt, "memory");
    expect(rt, "nothing is learned", solver.log().is_empty());
    let (answer, left) = asked(rt, alloc, solver, base, target, budget);
    expect(rt, "a unit for each clause", is_paid(solver, left, budget));
    let is_same = from_flat == (verdict(&answer), left);
    expect(rt, "the same from a flat base", is_same);
    (answer, left)
}

/// Whether the target is implied, or none where the budget was spent.
pub(crate) fn verdict(answer: &Refuted) -> Option<bool> {
    match answer {
        Refuted::Yes(_) => Some(true),
        Refuted::No(_) => Some(false),
        Refuted::Spent => None,
    }
}
