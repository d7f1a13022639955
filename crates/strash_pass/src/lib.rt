//! The structural pass: gates that the structure alone shows to be equal are merged, before any query.
//!
//! Gate by gate in the order of positions, the roots of the two fanins are looked at. A gate that they
//! decide is merged to a constant or to one of them; else it is merged to the earliest gate over the same
//! two roots. A merge's proof steps take their few hints from the clauses of the two gates and from the
//! merges that their fanins went through, by scanning these clauses in the order of a cone; no solver is
//! asked.
//!
//! `run` promises that it adds merges alone, that a legal book stays legal, and that afterwards no unmerged
//! gate folds or has an earlier unmerged gate over the same roots. What each gate is merged to, by which
//! steps and in which order, is a definition, so that a run can be repeated to the byte; where memory is
//! refused, what stands is that of the first so many gates. `merge_to_twin` takes one such merge, of two gates
//! that the caller knows to be twins.
//!
//! Definitions: `specs/Strash.antt` (what is left to merge, and what is merged to what), `specs/Pass.antt`
//! (what the pass keeps), `specs/Coded.antt` (clauses as words of bits, by which `hints.rt` scans them),
//! `specs/Shapes.antt` (what scanning found, by which a later merge of the same words isn't scanned),
//! `specs/Words.antt` (those of a few nodes, which `words.rt` makes), `specs/Codes.antt` and
//! `specs/Twins.antt` (literals as numbers, and the table of gates by two of them, which `twins.rt` keeps in
//! an `IndexMap` with a hash of `circuit_seed.rt`), `specs/Merged.antt` (a book's merges by the positions of
//! their nodes).
//! Begin to read at `pass.rt`, then `visit.rt`.
#![tactic(auto)]

pub use known_twin::merge_to_twin;
pub use pass::run;
pub use words::Words;

mod circuit_seed;
mod coded;
mod codes;
mod fold;
mod hints;
mod known_twin;
mod marks;
mod merge;
mod merged;
mod pair;
mod pass;
mod shape;
mod shapes;
mod twins;
mod visit;
mod ways;
mod words;
