//! Tests of the crates of literals, steps and solvers, from outside: each public call once, worked cases
//! with answers that come from outside, and small formulas. It has no code of its own.
//!
//! The tests of a crate stand here and not in it, since a crate with tests is proved twice. Cases are lines
//! of text: `clauses` reads literals and clauses, and has `expect`, by which a test says what isn't so;
//! `bases` reads the bases of solvers, and `flat_bases` makes flat ones of them. `literals` is of `lits`, `steps` of `unit_prop`, `trail` of
//! `watch_lists`. `checks` checks a query's answer and log outside of the solver, `queries` has the cases
//! for any solver, each proved once, over the lines of `formulas`; `plain_solver` and `learning_solver` run
//! them on `solver_plain` and on `solver_watch`. Begin to read at `literals.rt`, and for the solvers at
//! `queries.rt`.
#![tactic(auto)]

#[cfg(test)]
mod bases;
#[cfg(test)]
mod checks;
#[cfg(test)]
mod clauses;
#[cfg(test)]
mod flat_bases;
#[cfg(test)]
mod formulas;
#[cfg(test)]
mod learning_solver;
#[cfg(test)]
mod literals;
#[cfg(test)]
mod plain_solver;
#[cfg(test)]
mod queries;
#[cfg(test)]
mod steps;
#[cfg(test)]
mod trail;
