//! The search of whole cones, for outputs that the lazy search leaves.
//!
//! A `ConeSolver` has all clauses of an output's cone. Pairs of the cone that the book leaves open are searched first,
//! from the inputs up, since what they show makes those above them easy. It keeps what it learns from pair to pair, and
//! equalities alone from output to output.
//!
//! In: a net with its merges, the equalities that were found, an output and caps. Out: an entry that is proposed
//! (`ConeSolver::output`), and more equalities.
//!
//! Textbook: a learning solver, which shortens and drops what it learned (Marques-Silva and Sakallah 1996; Sörensson and
//! Biere 2009; Audemard and Simon 2009) and keeps phases (Pipatsrisawat and Darwiche 2007). Not so: hints are kept all
//! the while, in the order of the trail, since the steps of an entry are made of them.
//!
//! It is the second solver with watches, and has a propagation of its own. `solver_watch` never drops a clause: its log
//! answers for a budget that was spent, under a contract. Its walk through a cone (`solver/cone.rt`) loads what is new
//! alone, since cones of one output overlap. What was measured stands in `solver.rt`, and in docs/MEASURED.md.
//!
//! Proved: an entry settles the output that was asked for. Whether it is good is for the book to judge.
//!
//! Begin to read at `solver.rt`, then `solver/cone.rt`, `solver/query.rt`, `solver/analysis.rt`, `solver/steps.rt`.
#![tactic(auto)]

pub use solver::ConeSolver;

mod solver;
