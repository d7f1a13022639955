//! Sums of exclusive ORs: in which order gates are added up, and which clauses say the sums between.
//!
//! In: gates that are exclusive ORs, and two variables whose sum is asked for. Out: an order of joins
//! (`Sums::make_plan`), and of each sum on the way the clauses that say it (`begin_saying`, `begin_goal`). These are to
//! be shown by unit propagation, which this crate doesn't do: `lazy_search` is lent the sums, and notes here what it has
//! shown.
//!
//! Textbook: Gaussian elimination modulo 2 beside a solver (Soos, Nohl and Castelluccia 2009). Not so: a sum becomes
//! clauses, so that a proof is one of unit propagation, as the book wants it. That takes 2^(n-1) clauses for n terms, so
//! the order counts; it is looked for as contractions of tensors are ordered (Gray and Kourtis 2021).
//!
//! Measured: a chain and a tree of exclusive ORs over 4,096 bits take 1.7 seconds for 47 (`sums.rt`, `plan.rt`).
//!
//! Proved: the code of a case stands last in the clause that is to be shown. Nothing is claimed of the order.
//!
//! Begin to read at `sums.rt`, then `plan.rt`, `plan/joins.rt`, `plan/saying.rt`.
#![tactic(auto)]

pub use exclusive::Exclusive;
pub use plan::Move;
pub use sums::{Case, Sums};

mod exclusive;
mod plan;
mod sums;
