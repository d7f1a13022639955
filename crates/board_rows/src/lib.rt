//! Rows of calls on the board: what each call answers on one thread, and what two threads leave behind.
//!
//! `walk.rt` has a board of one task and two passes, and the answers of each call; `threads.rt` two threads
//! that offer, refresh, join and close; `circuits.rt` makes the net and the entries that they speak of, and
//! `calls.rt` has the calls that these make. `specs/Work.antt` says what a thread is given. Begin to read
//! at `walk.rt`.
#![tactic(auto)]

#[cfg(test)]
mod calls;
#[cfg(test)]
mod circuits;
#[cfg(test)]
mod threads;
#[cfg(test)]
mod walk;
