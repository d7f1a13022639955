//! Tests of the simulation in lanes, from outside, beside the plain one. It has no code of its own.
//!
//! `pools` makes the nets and the patterns. `rows` has a worked row of both simulations and compares them over one
//! to ten words, `grown` compares rows that were brought up to a pool with those that are made anew. Begin to read
//! at `rows.rt`.
#![tactic(auto)]

#[cfg(test)]
mod grown;
#[cfg(test)]
mod pools;
#[cfg(test)]
mod rows;
