//! Checks of a pair of circuits: what is found out about its outputs, and the book that shows it.
//!
//! A `Session` holds the pair, and takes edits of it between checks. Its `check` begins with what is kept of
//! the book of the last one, and with its patterns (`begin`), and sweeps in the way of FRAIGs (Kuehlmann et
//! al. 2002; Mishchenko, Chatterjee, Jiang and Brayton 2005). A pattern may tell an output apart at once
//! (`patterns`). Else `strash_pass` merges what the structure alone shows to be equal. Behind that a sieve of
//! many more patterns is looked through, for outputs that the structure leaves open, and then inputs that give
//! gates a value that they rarely have (`rare`): one that tells an output apart joins the patterns, and the
//! check ends as if it had been there. Else workers settle first the
//! candidates that simulation leaves, from the inputs up, and then the outputs (`sweep`, by `sweep_workers`).
//! In between the patterns that joined are looked at: one that tells an output apart ends the check.
//! The workers last for the whole check: each has a search, a solver and their memory. They share the sieve.
//!
//! `check` answers with a `Verdict`, and promises that the session's book is legal and shows it, and what it
//! means for the circuits. The book and the patterns go on from what the check began with. Over the patterns
//! that it leaves either the least output that one tells apart is told, or none tells one apart. Then behind
//! what the check began with the book has the merges of the structure, what was settled of
//! pairs of nodes, and what was settled of outputs; the patterns that joined are the inputs on which such pairs
//! differ; and over all patterns the book is reduced, and so swept. An output that is left open has two roots.
//! `write` then leaves the check's two files: the CNF of the circuits' miter, and its proof.
//!
//! `Session::counts` tells what the last check did, in numbers (`counts`): of those that stand in its book and its
//! patterns what they count, of the others nothing is claimed.
//!
//! `reduce` takes one circuit, which it sweeps by itself from the patterns that the seed draws, and gives the
//! circuit that is left where each literal gives way to its root, with a session that shows the two equal
//! (`reduction`).
//!
//! Definitions: `specs/Finding.antt` (what a book's entries show, and what that means), `specs/Pool.antt`
//! (the patterns of a check), `specs/Begun.antt` (what a check begins with), `specs/Sweep.antt` (what stands
//! behind that after a sweep), `specs/Check.antt` (a session, its edits, and a check that has its verdict),
//! `specs/Counts.antt` (its numbers), `specs/Reduction.antt` (a reduced circuit and its session),
//! `specs/Files.antt` (its files) and `specs/MiterText.antt` (the lines of the CNF, node by node);
//! `specs/Outputs.antt`, `Blocks.antt` and `Telling.antt` say what parts of a check do. Begin to read at `session.rt`, then
//! `begin.rt`, `sweep.rt`, `patterns.rt`, `write.rt`, `miter_text.rt` and `reduction.rt`.
#![tactic(auto)]

pub use counts::Counts;
pub use options::Options;
pub use reduction::reduce;
pub use session::Session;
pub use verdict::Verdict;

mod admitted;
mod begin;
mod counts;
mod laws;
mod miter_text;
mod options;
mod patterns;
mod rare;
mod reduction;
mod session;
mod sweep;
mod verdict;
mod write;
