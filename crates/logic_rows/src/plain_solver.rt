//! What the cases make of `PlainSolver`. Each stands for any solver and takes its own, as in
//! `learning_solver`.
use crate::checks::are_names;
use crate::clauses::{are, expect};
use crate::formulas::{CHAINS, SMALL};
use crate::queries::{
    check_drawn, check_lines, check_model, check_queries, check_spent, check_yes,
};
use lits::{Ref, Step};
use solver_plain::PlainSolver;
use std::alloc::Global;
use std::process::Abort;
use unit_prop::Refuter;

const FIRST_HINTS: [Ref; 6] = [
    Ref::Entry(4, 0),
    Ref::Entry(8, 0),
    Ref::Entry(9, 0),
    Ref::Entry(14, 0),
    Ref::Entry(16, 0),
    Ref::Entry(18, 0),
];

/// Whether the log has just what the plan learns first, by its definition: the gate, x and y decided false,
/// then the first clauses that do something.
fn has_first_step_alone(rt: &impl Abort, alloc: Global, log: &[Step]) -> bool {
    match log {
        [step] if are_names(&step.hints, &FIRST_HINTS) => {
            are(rt, alloc, step.clause.lits(), "-d0 a3 0 1")
        }
        _ => false,
    }
}

fn check_first<R: Refuter>(rt: &impl Abort, alloc: Global, mut solver: R) {
    check_spent(rt, alloc, &mut solver);
    let is_first = has_first_step_alone(rt, alloc, solver.log());
    expect(rt, "the first step alone", is_first);
}

#[test]
fn refuter_yes(rt: HostRuntime) {
    check_yes(&rt, rt.alloc(), PlainSolver::new(rt.alloc()));
}

#[test]
fn refuter_no(rt: HostRuntime) {
    check_model(&rt, rt.alloc(), PlainSolver::new(rt.alloc()), true);
}

#[test]
fn refuter_spent(rt: HostRuntime) {
    check_first(&rt, rt.alloc(), PlainSolver::new(rt.alloc()));
}

#[test]
fn log_of_queries(rt: HostRuntime) {
    check_queries(&rt, rt.alloc(), PlainSolver::new(rt.alloc()), true);
}

#[test]
fn bases_and_parity_chains(rt: HostRuntime) {
    let alloc = rt.alloc();
    check_lines(&rt, alloc, PlainSolver::new(alloc), SMALL, true);
    check_lines(&rt, alloc, PlainSolver::new(alloc), CHAINS, true);
    check_drawn(&rt, alloc, PlainSolver::new(alloc), true);
}
