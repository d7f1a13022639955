//! A circuit while it is read: its inputs, gates and outputs in the order of a file, in which gates may
//! stand in any order and use what is defined later, or nowhere.
//!
//! `Draft::finish` makes the circuit: it names the first literal that is undefined, or the first gate on a
//! cycle or above one, and else puts the gates in an order in which each stands behind its fanins: the
//! file's where that serves, else by level. Levels are found by a walk down the fanins with a stack of its
//! own, each gate once.
//!
//! Definitions: `specs/Levels.antt` (levels, and the order that they give), `specs/Draft.antt` (what a draft
//! becomes); `specs/Steps.antt` and `specs/Buckets.antt` are for the crate's own functions. Begin to read at
//! `draft.rt`, then `levels.rt`, `climb.rt`, `order.rt`, `buckets.rt`.
#![tactic(auto)]

mod buckets;
mod climb;
mod draft;
mod levels;
mod order;

pub use draft::Draft;
