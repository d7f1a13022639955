//! What the cases make of `WatchSolver`. Each stands for any solver and takes its own: a test that calls more
//! than once while it owns a `WatchSolver` takes fifteen seconds and more to prove, in place of one.
use crate::formulas::{CHAINS, CONE_OF_XOR, SMALL};
use crate::queries::{
    check_drawn, check_enough, check_lines, check_model, check_queries, check_spent, check_targets,
    check_yes,
};
use solver_watch::WatchSolver;
use std::alloc::Global;
use std::process::Abort;
use unit_prop::Refuter;

/// A budget of one unit is spent for one clause; with units enough the outputs are equal.
fn check_paid<R: Refuter>(rt: &impl Abort, alloc: Global, mut solver: R) {
    check_spent(rt, alloc, &mut solver);
    check_enough(rt, alloc, &mut solver);
    let equal = (CONE_OF_XOR, "-d0? yes 3");
    check_targets(rt, alloc, &mut solver, equal, false);
}

fn new_solver(rt: &impl Abort, alloc: Global) -> WatchSolver {
    WatchSolver::new(alloc).expect(rt, "memory")
}

#[test]
fn refuter_yes(rt: HostRuntime) {
    check_yes(&rt, rt.alloc(), new_solver(&rt, rt.alloc()));
}

#[test]
fn refuter_no(rt: HostRuntime) {
    check_model(&rt, rt.alloc(), new_solver(&rt, rt.alloc()), false);
}

#[test]
fn refuter_spent(rt: HostRuntime) {
    check_paid(&rt, rt.alloc(), new_solver(&rt, rt.alloc()));
}

#[test]
fn log_of_queries(rt: HostRuntime) {
    check_queries(&rt, rt.alloc(), new_solver(&rt, rt.alloc()), false);
}

#[test]
fn bases_and_parity_chains(rt: HostRuntime) {
    let alloc = rt.alloc();
    check_lines(&rt, alloc, new_solver(&rt, alloc), SMALL, false);
    check_lines(&rt, alloc, new_solver(&rt, alloc), CHAINS, false);
    check_drawn(&rt, alloc, new_solver(&rt, alloc), false);
}
