//! Simulation of a pair of circuits on many input patterns at once, 64 to a machine word.
//!
//! A `Pool` holds the patterns: first those that are drawn from a seed, then those that are added. `fill`
//! gives each node a row of words whose bits are the node's values on the patterns, gate by gate in the
//! order of positions, and `signatures` keeps these rows. Nodes with different rows differ; nodes with equal
//! rows may be equal (Kuehlmann 2002, Mishchenko et al. 2005). A `GateList` has the gates of some cones,
//! which `GateList::fill` simulates alone, by the same step.
//!
//! Definitions: `specs/Patterns.antt` (what a pool holds, what is drawn), `specs/Rows.antt` (a node's row);
//! `specs/Gates.antt` (rows of listed gates); `specs/Storage.antt` says how a pool keeps its patterns. Begin
//! to read at `pool.rt`, then `rows.rt`.
#![tactic(auto)]

pub use gates::{GateAt, GateList};
pub use pool::Pool;
pub use rows::{fill, fill_sources};
pub use sigs::{Sigs, signatures};

mod draws;
mod gates;
mod pool;
mod rows;
mod sigs;
mod words;
