//! What the searches share: tables by place, an order of variables, when to restart, when to try again, caps.
//!
//! These parts know nothing of a circuit. `lazy_search` and `cone_search` are made of them, and the crates between use
//! the tables.
//!
//! In: numbers of variables, and of learned clauses. Out: the next variable (`ActivityHeap`), whether a restart is due
//! (`Luby`), whether a search that failed of late is tried at this turn (`Backoff`).
//!
//! Textbook: the heap of activities (Moskewicz, Madigan, Zhao, Zhang and Malik 2001; the growing step is that of MiniSat,
//! Eén and Sörensson 2003), and Luby's sequence (Luby, Sinclair and Zuckerman 1993). Not so: `Backoff`, which rests twice
//! as long after each failure.
//!
//! `solver_watch` has a heap and a sequence of its own: it stands beside this crate, and its proofs are long.
//!
//! Proved: `at`, `put` and `mark` are reading and writing of a list, and nothing outside of it. Nothing is claimed of
//! what the heap, the sequence and `Backoff` choose.
//!
//! Definitions: `specs/Settles.antt` has what an entry settles, which each search is asked for. Begin to read at
//! `table.rt`, then `heap.rt`, `luby.rt`, `backoff.rt`.
#![tactic(auto)]

pub use backoff::Backoff;
pub use caps::Caps;
pub use heap::ActivityHeap;
pub use hint_span::HintSpan;
pub use luby::Luby;
pub use table::{NONE, at, count, mark, part, put};
pub use values::{FALSE, FREE, TRUE};

mod backoff;
mod caps;
mod heap;
mod hint_span;
mod luby;
mod table;
mod values;
