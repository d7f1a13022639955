//! The plain solver: the first `Refuter`, and the definition's plain program for one.
//!
//! It assumes the target false, then decides the base's variables false in the order of their first place,
//! and scans all clauses after each decision. A clash of the assumptions alone answers Yes, a value for each
//! variable answers No. A clash with decisions teaches it the clause of all negated decisions (the decision
//! scheme of Zhang, Madigan, Moskewicz and Malik 2001) for one unit of the budget, and it begins anew. What
//! it promises is the contract of `unit_prop::Refuter`.
//!
//! Definitions of its own: `specs/Solver.antt` (what a solver is to its callers), and for its parts
//! `specs/Literals.antt` (variables, sets of literals), `specs/Effect.antt` (what one clause does),
//! `specs/Formula.antt` (clauses in order), `specs/Scan.antt` (closure or clash), `specs/Search.antt`. Begin
//! to read at `solver.rt`, then `search.rt`, `scan.rt`.
#![tactic(auto)]

pub use solver::PlainSolver;

mod effect;
mod formula;
mod literals;
mod scan;
mod search;
mod solver;
