//! The lazy search: pairs of nodes and outputs are settled in the circuit, without the clauses of their whole
//! cones.
//!
//! A `LazySolver` assumes that two nodes differ and justifies that from the nodes down towards the inputs: a
//! node's clauses are loaded when it first has a value, so most of a cone is never looked at. It learns from
//! conflicts as a solver does, and gives up at its caps. A pair is searched on all inputs, and an output on those that
//! are admitted: there the constraints are assumed too. Sums of exclusive ORs are added up before the search.
//!
//! In: what a query may use (`Given`: the net, its merges, equalities), how far it goes (`Effort`), and the memory of
//! sums, which is lent. Out: an entry that is proposed (`pair`, `output`), or an equality with its steps (`equality`).
//!
//! Textbook: justification as in test generators (Goel 1981), with clauses learned in the circuit (Kuehlmann, Paruthi,
//! Krohm and Ganai 2002). Not so: each learned clause keeps its hints, of which the steps of an entry are made.
//!
//! It propagates by the structure, not by clauses: a gate kept as clauses with watches took twice the time
//! (`solver/propagation.rt`). Hence its propagation beside those of `cone_search` and `watch_lists`, where all clauses
//! are watched. Loading is its walk through a cone: only what has a value is gone through.
//!
//! Proved: an entry settles the pair or the output that was asked for. Whether it is good is for the book to judge.
//!
//! Begin to read at `given.rt`, then `solver.rt`, `solver/proposal.rt`, `solver/round.rt`, `solver/propagation.rt`,
//! `analysis.rt`; `solver/adding.rt` shows sums, `solver/steps.rt` makes steps.
#![tactic(auto)]

pub use given::{Domain, Effort, Given};
pub use solver::LazySolver;

mod analysis;
mod assumptions;
mod clauses;
mod given;
mod justify;
mod learned;
mod log;
mod reason;
mod solver;
mod trail;
mod variables;
mod visits;
mod watches;
