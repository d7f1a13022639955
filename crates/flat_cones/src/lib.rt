//! Cones over a lemma book as flat bases, made one after another in the same memory.
//!
//! `Book::cone` keeps what it has found in a map and makes a vector for each clause. `Cones` has a spot for each
//! CNF variable that it was asked about, with the number of the query that found it last, so a query begins
//! with nothing found at no cost; its clauses go into one `FlatBase`, which numbers the nodes that they name.
//! The cones are those of `lemma_book`, clause for clause.
//!
//! Definitions: those of `lemma_book` (cones) and `flat_base` (what a flat base stands for);
//! `specs/Spots.antt` and `specs/Walk.antt` have what is found, `specs/Numbered.antt` which nodes have numbers.
//! Begin to read at `cones.rt`.
#![tactic(auto)]

pub use cones::Cones;

mod clauses;
mod cones;
mod merges;
mod nodes;
mod spots;
mod walk;
