//! Lemma files: what one run proved, kept for the next one, which may be on another machine and need not trust
//! it.
//!
//! `read` answers the entries that bytes spell, or the first fault. `load` makes a book of entries, of which it
//! takes those that are good over what it took before, and passes over all others. `print` writes the merges
//! and the equal outputs of a book. What is written is read back, and a book over the same net takes all of it
//! again (`laws`).
//!
//! A file is text. Its first line is `lemmas 1`; an entry is a line `m NODE LITERAL` or `o OUTPUT`, one line
//! `s LITERALS ; HINTS` or more, and a line `.`.
//!
//! Begin to read with the grammar, `specs/Reading.antt`. Then, as data flows: `parts.rt` (the lines of a text
//! and the words of a line), `words.rt` (what a word says), `clause.rt` (the clause of a step's literals),
//! `said.rt` (what a line says), `reading.rt`, `loading.rt`, `writing.rt`, `laws.rt`, and `error.rt`.
//!
//! Definitions: `specs/Reading.antt` (which entries bytes spell, with the first fault) stands on
//! `specs/Lines.antt` and `specs/Words.antt`; `specs/Loaded.antt` has the loaded book, and `specs/Writing.antt`
//! the one text of each book. `specs/Drafts.antt` is for the crate's own functions.
#![tactic(auto)]

pub use error::BookErr;
pub use loading::load;
pub use reading::read;
pub use writing::print;

mod clause;
mod error;
pub mod laws;
mod loading;
mod parts;
mod reading;
mod said;
mod words;
mod writing;
