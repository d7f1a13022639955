//! The words of the program's command line, read with `clap`.
//!
//! `read` answers with what the words ask for, with the text of help or the version exactly where they ask
//! for that, or with what is wrong with them. All commands, arguments and options stand in one table, from
//! which the parser and help are made. The law `words_are_one_of` says that words are exactly one of these,
//! and `plain_words` what words ask for as a user writes them (`specs/Plain.antt`): it anchors the
//! definition by `clap`'s walk. The law `plain_checks` says of `check A B`, with any of six options in any
//! order, that it asks for no other file than these two and those of `--out` (`specs/PlainWords.antt`).
//!
//! Definitions: `specs/Words.antt` (what words ask for, by `clap`'s own definition of what it takes and what
//! it finds), `specs/Commands.antt` (the commands), `specs/Answers.antt` (what `read` may answer);
//! `specs/Table.antt` and `specs/Parsing.antt` say what rows of the table and parts of `read` do. Begin to
//! read at `table.rt`.
#![tactic(auto)]

pub use asked::{
    Asked, BUDGET_LIMIT, CheckWords, FraigWords, LratWords, SelfWords, WORDS_LIMIT, WORKERS_LIMIT,
};
pub use laws::{
    given_numbers, left_names, plain_checks, plain_words, reduced_is_apart, saved_is_apart,
    witness_is_apart, words_are_one_of,
};
pub use reading::{Refusal, read};

mod asked;
mod command;
mod laws;
mod matches;
mod reading;
mod saved;
mod table;
