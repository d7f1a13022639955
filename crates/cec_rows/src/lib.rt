//! Tests of the whole program over a desk in memory: worked cases with their files, the bytes said and
//! warned, and the status. It has no code of its own, and no contract: what it shows is that the answers
//! that the contract of `run` allows do come.
//!
//! `cases.rt` has checks of two files, `constraints.rt` those of circuits with constraints, `names.rt` those
//! whose circuits are matched by name, `books.rt` what stands in the books that they hand back, `own.rt`
//! checks of circuits that the program makes, `shapes.rt` answers whose shape a small case doesn't reach,
//! `lemmas.rt` those that load lemmas and save them, `faults.rt` checks in which each call of the desk fails in turn, `scripts.rt` checks with an edit script
//! between, `script_faults.rt` those in which a call fails, `script_cuts.rt` those whose script is cut at
//! each byte, `reduced.rt` circuits that are reduced, `meeting.rt` a gate at which two workers of a check have to meet, `proofs.rt` the check of
//! proofs, forged ones among them, `readers.rt` files that are refused, and those that are cut at each byte.
//! `stats.rt` and `progress.rt` what is warned of a check on request, `witness.rt` the file of `--witness`.
//! `files.rt` has the circuits that most of them use, and `desk.rt` runs the program on a table of files and
//! words. Begin to read at `cases.rt`.
#![tactic(auto)]

#[cfg(test)]
mod books;
#[cfg(test)]
mod cases;
#[cfg(test)]
mod constraints;
#[cfg(test)]
mod desk;
#[cfg(test)]
mod faults;
#[cfg(test)]
mod files;
#[cfg(test)]
mod lemmas;
#[cfg(test)]
mod meeting;
#[cfg(test)]
mod names;
#[cfg(test)]
mod own;
#[cfg(test)]
mod progress;
#[cfg(test)]
mod proofs;
#[cfg(test)]
mod readers;
#[cfg(test)]
mod reduced;
#[cfg(test)]
mod script_cuts;
#[cfg(test)]
mod script_faults;
#[cfg(test)]
mod scripts;
#[cfg(test)]
mod shapes;
#[cfg(test)]
mod stats;
#[cfg(test)]
mod witness;
