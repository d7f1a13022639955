//! Outputs that the merges of a book alone show equal.
//!
//! Where the sweep has merged what is equal, the literals of most outputs have one root. `equal_output` makes
//! the `Out` of such an output without a query, from the clauses of its XOR and of the merges on the two ways
//! to the root. It promises that the entry is good over the book, and that there is none exactly where the
//! roots differ.
//!
//! `specs/EqualRoots.antt` says which steps show it. Begin to read at `equal_roots.rt`.
#![tactic(auto)]

pub use equal_roots::equal_output;

mod equal_roots;
