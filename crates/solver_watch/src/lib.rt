//! The learning solver: it learns from each conflict the clause of the first unique implication point.
//!
//! It assumes the target's negations, each at a level of its own, then decides by activity (VSIDS),
//! false first, and propagates by the watched literals of `watch_lists`. A conflict above the target's
//! levels teaches it a clause for one unit of the budget (Marques-Silva and Sakallah 1996; Moskewicz,
//! Madigan, Zhao, Zhang and Malik 2001); it goes back to the clause's second highest level, where the
//! clause forces a literal. A conflict at the target's levels answers Yes, a value for each variable
//! No. Restarts go by Luby's sequence and take no unit. What it promises is the contract of
//! `unit_prop::Refuter`; that its clauses are new comes from what always holds of a `Trail` alone.
//!
//! Definitions of its own: `specs/Marked.antt` (what an analysis has met), `specs/Assuming.antt` (the
//! target's levels), `specs/Known.antt` (clauses and their names), `specs/Choice.antt`,
//! `specs/Search.antt`. Begin to read at `engine.rt`.
#![tactic(auto)]

pub use solver::WatchSolver;

mod choice;
mod cut;
mod engine;
mod formula;
mod hints;
mod learn;
mod marks;
mod order;
mod restarts;
mod solver;
mod used;
