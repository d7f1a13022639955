//! The pure core of a sweep by many workers: the book machine, computed for every list of events.
//!
//! Workers draw numbers of tasks, get to know the book and offer entries to it. However their threads run,
//! what they do to what they share comes to a list of such events, one after the other, and `State` computes
//! that list with no thread at all. Each event does what the machine's definition says, the book stays legal,
//! and what a worker knows stays a first part of it.
//!
//! Definitions: `specs/Machine.antt` of `lemma_book` (the machine), `specs/Event.antt` (one event of any
//! kind), `specs/Run.antt` (a list of them). Begin to read at `event.rt`.
#![tactic(auto)]

pub use event::{Event, Reply};
pub use state::State;

mod event;
mod state;
