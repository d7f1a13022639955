//! Unit propagation: what a step of a proof shows, and what a solver that writes such steps promises.
//!
//! A step adds a clause: the negations of its literals are assumed, and its hints name clauses that propagate
//! until one of them is wholly false (LRAT; Cruz-Filipe, Heule, Hunt, Kaufmann and Schneider-Kamp 2017).
//! Steps are read strictly: `StepCheck` takes one by its parts, and `StepCheck::fault_of` answers its first
//! fault. `close_under` is the definition's plain program, and `scan` finds the hints of a step. The trait
//! `Refuter` has the contract of every solver, whatever its method. `laws` says what all this means, and that
//! over v variables no solver spends a budget above `3^v`.
//!
//! Definitions: `specs/Closure.antt` (what clauses force), `specs/Step.antt` (a step and its first fault),
//! `specs/New.antt` (clauses that propagation hasn't already), `specs/Log.antt` (lists of steps, learned
//! steps), `specs/Refuter.antt` (answers), `specs/HintScan.antt` (hints that are found by scanning),
//! `specs/Variables.antt`; `specs/Propagation.antt` and `specs/StepCheck.antt` say what parts of the code do.
//! Begin to read at `step_check.rt`.
#![tactic(auto)]

pub use hint_scan::{scan, scanned_step};
pub use propagation::{Closure, close_under};
pub use refuter::{Refuted, Refuter};
pub use step_check::StepCheck;
pub use step_fault::Clauses;
pub use why::{BadStep, StepErr, Why};

mod hint_scan;
pub mod laws;
mod propagation;
mod refuter;
mod step_check;
mod step_fault;
mod why;
