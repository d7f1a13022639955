//! Tests of the crates of the sweep, from circuits to sessions and proofs, from outside: each public call
//! once and worked cases. It has no code of its own.
//!
//! The tests of a crate stand here and not in it, since a crate with tests is proved twice, and all in one
//! crate, since what each value drops is proved once in a crate. What they share: `pairs` has the nets that
//! most cases are about, `Case`, which is what a test checks of a net, and `expect`, by which it says what
//! isn't so; `entries` reads an entry of a book from a line of text. A net that a test makes in the call is
//! handed on, so that `pairs::check` alone drops it and not each test. Tests: `nets` and `edits` are of
//! `netlist`, `patterns` of `word_sim`, `classes` of `sig_classes`, `lemmas` and `bounds` of `lemma_book`, `machine` of
//! `sweep_core`, `structure` of `strash_pass`, `searches` of `circuit_search`,
//! `queries` of `cone_query` and `equal_outputs`, `sessions` and `edited` of `check_session`, `stitching` of
//! `proof_stitch`. Begin to read at `nets.rt`.
#![tactic(auto)]

#[cfg(test)]
mod bounds;
#[cfg(test)]
mod classes;
#[cfg(test)]
mod edited;
#[cfg(test)]
mod edits;
#[cfg(test)]
mod entries;
#[cfg(test)]
mod lemmas;
#[cfg(test)]
mod machine;
#[cfg(test)]
mod nets;
#[cfg(test)]
mod pairs;
#[cfg(test)]
mod patterns;
#[cfg(test)]
mod queries;
#[cfg(test)]
mod searches;
#[cfg(test)]
mod sessions;
#[cfg(test)]
mod stitching;
#[cfg(test)]
mod structure;
#[cfg(test)]
mod written;
