//! The text of DIMACS CNF files: a header `p cnf VARIABLES CLAUSES`, then the clauses, each literal as a
//! signed number and each clause ended by 0.
//!
//! `read` answers the formula that a text spells, or its first fault, and `print` writes the text of a list
//! of clauses to a desk's started file. `CnfText` is for who has no list of them: it takes one literal after
//! another. The law says that what is written is read back.
//!
//! Begin to read at `cnf.rt` and with the grammar, `specs/Reading.antt`. Then, as data flows: `words.rt` (the
//! words of a text, without comments), `header.rt`, `clauses.rt`, `distinct.rt`, `writing.rt`, `laws.rt`, and
//! `error.rt`.
//!
//! Definitions: `specs/Reading.antt` (the grammar, with the first fault of a text that isn't in it) stands on
//! `specs/Words.antt` (comments, and the words of a text); `specs/CnfText.antt` has the one text of each list
//! of clauses, `specs/Clauses.antt` the clauses as far as they are read.
#![tactic(auto)]

pub use cnf::{Cnf, read};
pub use error::CnfErr;
pub use laws::written_formula;
pub use writing::{CnfText, print};

mod clauses;
mod cnf;
mod distinct;
mod error;
mod header;
mod laws;
mod words;
mod writing;
