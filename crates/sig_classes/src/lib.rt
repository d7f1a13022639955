//! Which nodes of a pair of circuits no pattern tells apart, and the pairs that are to be asked for.
//!
//! Two nodes are in one class where their rows are equal or complements. A class is led by its least
//! root: `leader` finds that of one node by looking through all, `tasks` in one pass all that are to be
//! asked about: the gates that aren't led by themselves, each with its leader, but for those whose
//! query spent its budget. Where there is none the book is reduced over the patterns, and so it is
//! swept (`laws`).
//!
//! `KeptClasses` gives the same tasks while patterns join a pool, and simulates only those that are new: its
//! classes are kept, and break up by the new rows.
//!
//! Definitions: `specs/Leader.antt` (leader, tasks, reduced, swept), `specs/Kept.antt` (classes that are
//! kept); `specs/Alike.antt`, `specs/Chains.antt` and `specs/Pass.antt` say how classes are found, in one
//! pass, by a hash of the rows up to complement. Begin to read at `classes.rt`, then `kept.rt`.
#![tactic(auto)]

pub use classes::tasks;
pub use first::leader;
pub use kept::KeptClasses;

mod alike;
mod chains;
mod classes;
mod first;
mod kept;
pub mod laws;
