//! The lemma book: what was found out about nodes and outputs of a pair of circuits, each entry checkable on
//! its own.
//!
//! A `Merge` shows by proof steps that a node has the value of an earlier literal, an `Apart` has an input
//! on which they differ, and a `Spent` has the log of a solver that spent its whole budget; `Out`,
//! `OutApart` and `OutSpent` say the same of an output. Later entries may cite the clauses of earlier
//! merges. `Judge::judge` decides whether an entry is good over a book, `Book::offer` takes it where it is,
//! and `Book::append` takes one that is known to be good. In a legal book a merge's node and target have one
//! value on every input, and an `Out`'s outputs on every admitted one (`laws`): an input is admitted where all
//! constraints of both circuits are true on it. So the steps of an `Out` may cite the constraints, and the log
//! of an `OutSpent` stands on them; what is said of two nodes never rests on a constraint.
//!
//! Definitions: `specs/Entry.antt` (entries and their subjects), `specs/Root.antt` (roots),
//! `specs/Cone.antt` (cones), `specs/Good.antt` (good entry), `specs/Fault.antt` (first cause of a refusal),
//! `specs/Book.antt` (legal book), `specs/Agreement.antt` (what entries say of all inputs, or of all admitted
//! ones), `specs/Machine.antt` (many workers at one book). For the crate's own functions:
//! `specs/Judging.antt`, `specs/Walk.antt` (through a cone), `specs/Shelf.antt` (by what entries are found),
//! `specs/Index.antt` (the index of entries), `specs/MergeTable.antt` (merged gates in it),
//! `specs/NodeHasher.antt` (the hash of all else). Begin to read at `entry.rt`, then `book.rt`, `judge.rt`.
#![tactic(auto)]

pub use book::Book;
pub use entry::{Entry, Subject, Task};
pub use judge::Judge;
pub use node_hasher::NodeHasher;
pub use refused::{Fault, Judgement, Offered, Refused};
pub use turn::{Turn, What};

mod apart;
mod book;
mod cone_value;
mod cones;
mod entry;
mod index;
mod judge;
pub mod laws;
mod merge_table;
mod newness;
mod node_hasher;
mod offer;
mod output_cone;
mod packing;
mod presence;
mod refused;
mod shape;
mod shelf;
mod sources;
mod steps;
mod turn;
mod values;
mod walk;
