//! Many workers settle what a sweep asks, over one book.
//!
//! `sweep` makes rounds: each asks for the pairs of nodes that no pattern tells apart, and its workers draw
//! these pairs from a board, settle them and offer the entries. `outputs` does the same for the outputs that
//! have no entry. Each worker is a thread with a pass of the board, a search and a solver of its own; all
//! share the book, through the board, one sieve, and the equalities that only proofs of outputs use. A worker
//! settles over the book that it has seen, and looks at it again before its next task. Where little is asked,
//! one worker does so alone, without a board.
//!
//! Whatever order they run in, the book is legal, begins as before, and has an entry for what was asked: of the
//! tasks on a board each number was drawn once, and the entry that its worker offered is in the book, or one
//! that settles it. After `sweep` the book is reduced over the patterns, to which the counterexamples'
//! inputs were added; after `outputs` each output has an entry. A query of either that spent its budget saw at
//! least the book before, and an output that it leaves open has two roots.
//!
//! `sweep_by` and `outputs_by` are the same two calls for who keeps the workers in between. A `Watch` is told how far
//! they are, and has no effect in any contract.
//!
//! Definitions: `specs/Swept.antt` (what the two calls leave), `specs/Answered.antt` (what a round leaves),
//! `specs/Asked.antt` (its questions); `specs/Working.antt` says what a worker's pass shows. Begin to read at
//! `rounds.rt`, then `open_outputs.rt`, `round.rt`, `alone.rt`, `fan.rt`, `work.rt` and `worker.rt`; `calls.rt` has the
//! calls that begin with solvers.
#![tactic(auto)]

pub use calls::{outputs, sweep};
pub use open_outputs::outputs_by;
pub use rounds::{Swept, sweep_by};
pub use watch::{Part, Unwatched, Watch};
pub use worker::{Tally, Worker, shared_memory};

mod alone;
mod asked;
mod calls;
mod fan;
mod inputs;
mod open_outputs;
mod round;
mod rounds;
mod watch;
mod work;
mod worker;
