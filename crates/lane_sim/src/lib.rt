//! Simulation of a pair of circuits in lanes: the rows that `word_sim` gives, some words of a gate at a time.
//!
//! `fill` and `signatures` are those of `word_sim`, and whoever has the rows of one may use the other's.
//! `extend` brings rows up to a pool that has grown, and computes only the words that have new patterns.
//! A gate's words go through lanes of four (`std::simd`), and through a plain loop what doesn't fill them.
//!
//! Definitions: a row is `word_sim`'s, in its `specs/Rows.antt`; `specs/Known.antt` says what is known of
//! rows before they are filled. Begin to read at `rows.rt`, then `lanes.rt`.
#![tactic(auto)]

pub use rows::fill;
pub use sigs::{extend, signatures};

mod lanes;
mod rows;
mod sigs;
