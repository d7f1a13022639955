//! The desk of the real world: files of the system, standard output and standard error.
//!
//! This is the trusted edge of a program. No contract can say what a file or a terminal holds, so an
//! `OsDesk` tells no content: its contract is the one of a `Desk`, which here says what is started and how
//! the counts of faults move, `specs/OsDesk.antt`. The loops over std's `read` and `write` are proved to
//! lose and to change no byte of a reader or a writer that tells its own, `specs/Streams.antt`, and
//! `OsDesk::read` gives all bytes of some file that it opened.
//!
//! Begin to read at `os_desk.rt`, whose calls are short so that they can be judged by eye, then
//! `streams.rt`.
#![tactic(auto)]

pub mod os_desk;
mod streams;

pub use os_desk::OsDesk;
