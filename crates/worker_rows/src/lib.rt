//! Tests of the calls of many workers: what a sweep and the outputs behind it leave, and that two workers
//! run at once.
//!
//! `nets.rt` makes the nets and the patterns; `rows.rt` has what 1, 2, 4 and 64 workers leave of two
//! XORs, and `meeting.rt` a gate that two workers must pass together. Begin to read at `rows.rt`.
#![tactic(auto)]

#[cfg(test)]
mod meeting;
#[cfg(test)]
mod nets;
#[cfg(test)]
mod rows;
