//! The outside of a program, as its crates see it: files, standard output, standard error, and a gate that
//! its workers pass.
//!
//! A `Desk` reads whole files, writes one file at a time, says and warns. Its contract speaks of what the
//! desk shows, `specs/Desk.antt`: the files and the bytes said and warned, each told or not told, the file
//! that is started, and three counts of faults that never fall. A call answers that it failed only where the
//! count of its kind rose, so nobody can be told of a fault that wasn't there.
//!
//! `Pieces` puts a text into the started file in writes of 65,536 bytes each but the last,
//! `specs/Pieces.antt`; a desk may tell the sizes of its writes, so that the rule can be said of whole files.
//!
//! `MemDesk` is a desk in memory that tells all and fails at the calls that it is told to fail at,
//! `specs/MemDesk.antt`, over a map of files, `specs/MemFiles.antt`. A `Gate` is for tests that hold
//! workers: it has no effect in any contract. Begin to read at `desk.rt`.
#![tactic(auto)]

pub mod desk;
pub mod errors;
pub mod gate;
pub mod mem_desk;
mod mem_files;
pub mod pieces;

pub use desk::Desk;
pub use errors::{PutErr, ReadErr};
pub use gate::{Gate, OpenGate};
pub use mem_desk::MemDesk;
pub use pieces::{PIECE, Pieces, put_in_pieces};
