//! What the command `cec lrat CNF PROOF` does, over a desk that stands for files and streams.
//!
//! `run` reads a CNF and a proof, checks the proof step by step and says whether it refutes the CNF. Its
//! contract says what each status means: `specs/Answers.antt`, where a reader who must trust a VERIFIED
//! begins. Which files are read, and what is found in them, is in `specs/Files.antt`; the lines of verdicts
//! and the texts of faults are in `specs/Texts.antt`. How a command is stopped and ends is that of every
//! command: `endings`.
//!
//! Begin to read at `command.rt`, then, as data flows: `reading.rt`, `judging.rt`, `texts.rt`.
#![tactic(auto)]

pub use command::run;

mod command;
mod judging;
mod reading;
mod texts;
