//! The board: one book that many threads share, and its record is one legal history.
//!
//! A `Board` holds a book in the slot of a ticket lock. Each thread works with a `Pass` of its own: it draws numbers
//! of tasks, looks at the book, and offers entries that are good over what it has seen. Between taking the lock and
//! giving it back stands one push of a shared entry and one of a turn, or as many pushes as there are entries that the
//! pass hasn't seen.
//!
//! What is promised:
//!
//! - *Pass.* It has a number, the book as it knows it, and turns that are left. It has what it made, or took over from
//!   passes that it joined: numbers, draws, splits, missed turns, and each answer with the entry that was offered.
//! - *Share.* A pass's share is the turns that are left and those that were taken. It is whole when that is 2^62, the
//!   share of the board's first pass. No other pass has a turn left then.
//! - *Draw.* It gives a number above all that the pass drew or took over, or none after the last task.
//! - *Refresh.* It gives a legal book that begins with what the pass knew, and in which all that it noted is so.
//! - *Offer.* It gets the book machine's answer over a book that begins with what the pass knows.
//! - *Split and join.* A split gives a pass with a number of its own that knows the same. A join knows the longer book,
//!   and has the turns, draws and answers of both.
//! - *Missed turn.* When memory is refused there is one turn less, and nothing else changes.
//! - *Answer.* At i is the machine's answer to an entry that is good over the book, when that has i entries. Already i
//!   is the answer when the first entry that settles it is number i. Known n is the answer when there are n entries.
//! - *So in a book.* Later At i is so when the entry stands at i. Already i is so when entry i settles it, Known n when
//!   there are at least n entries.
//! - *One legal history.* `Board::close` gives back a legal book, and the turns that lead to it from the opening book.
//!   The book begins with all that the closing pass knows, and what that noted is so in it. The turns under each number
//!   are in order those that the pass notes under it. The draws are the numbers below a bound, each once, and as many
//!   turns were missed as it notes.
//!
//! Definitions: `specs/Pass.antt` (what each call does), `specs/Closed.antt` (the record), `specs/Story.antt` (one
//! turn). The book machine stands in `specs/Machine.antt` of `lemma_book`. For the crate's own functions:
//! `specs/Rule.antt` (what the board claims of its lock), `specs/Views.antt` and `specs/Plays.antt` (what a step makes
//! of a pass, and tells it). Nobody has to believe these to use a board. Begin to read at `pass.rt`, then `board.rt`,
//! `history.rt` and `turn.rt`.
#![tactic(auto)]

pub use board::{Board, Record};
pub use pass::Pass;

mod about;
mod board;
mod history;
mod pass;
mod plays;
mod turn;
mod view;
