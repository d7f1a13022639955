//! One proof in LRAT (Cruz-Filipe et al. 2017) from the entries of a lemma book.
//!
//! An entry's steps cite the miter's axioms by node, the constraints' units by side, the clauses of earlier
//! merges by entry, and their own earlier steps by place. Here they become one text, the additions under ids
//! without gaps that go on behind the numbers of the miter's clauses. `refutation` writes the empty clause
//! from the outputs' units, and before it what it rests on of the steps of the Merge and Out entries, in the
//! order of the book, each deleted once nothing behind rests on it; `derivation` writes the logs of the outputs'
//! queries that spent their budgets, and before them likewise what they rest on. The crate promises which lines the text
//! spells, that they refute the miter, or derive from it, and how many they are, which `refutation_counted` and
//! `derivation_counted` tell besides. It goes over the steps of the book twice, from the back and then forward; no
//! clause speaks of time.
//!
//! Definitions: `specs/Steps.antt` (the additions that lists of steps make), `specs/Written.antt` (the steps
//! of a book in order, and the ids of the clauses that entries show), `specs/Trimmed.antt` (which lines of a
//! proof are reached, their deletions and new ids), `specs/Text.antt` (the text of lines, and what becomes of
//! the desk), `specs/Stitch.antt` (the refutation), `specs/Derivation.antt` (the derivation and its spans);
//! `specs/Ids.antt`, `specs/Table.antt` and `specs/Progress.antt` say what parts of the code need. Begin to
//! read at `write_refutation.rt`.
#![tactic(auto)]

pub use logs::Span;
pub use stitch_err::StitchErr;
pub use write_derivation::{derivation, derivation_counted};
pub use write_refutation::{refutation, refutation_counted};

mod addition;
mod by_step;
mod entries;
pub mod laws;
mod logs;
mod proof_text;
mod reach;
mod shown;
mod stitch_err;
mod write_derivation;
mod write_refutation;
mod written_step;
