//! The net as a book's merges leave it, by positions.
//!
//! In: a net, and its book as it grows. Out: what defines the node at a position, an input, a merge or a gate
//! (`Merges::source`), how deep it lies, and with what its query spent its budget (`Merges::open`); and the root of each
//! node (`Roots`). Literals are codes: twice the position, and 1 where they are negated.
//!
//! The book has merges and roots too, under contracts, by its index. A search asks at every node, so it reads tables.
//! There are two. `Merges` has each merge by itself, since a proof cites the entry of each that it goes through. `Roots`
//! has where all of them lead. It is for the pattern filter, which cites nothing. `strash_pass::Merged` is a third one,
//! on which proofs stand; nobody has to believe these two.
//!
//! Textbook would be union-find (Tarjan 1975). It isn't needed, since a merge leads to an earlier position: one pass in
//! the order of positions finds all roots.
//!
//! Proved: `lit_code` has a code exactly where the net has the node.
//!
//! Begin to read at `codes.rt`, then `merges.rt`, `roots.rt`.
#![tactic(auto)]

pub use codes::{code_of, first_gate, has_constraints, lit_at, lit_code, node_at};
pub use merges::{Merges, Source};
pub use roots::{Roots, root_of};

mod codes;
mod merges;
mod roots;
