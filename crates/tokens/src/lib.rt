//! The tokens of a text: words, numbers and literals, as the formats of the SAT community write them.
//!
//! A line is its words, which blanks part; which bytes are blanks, and which numbers may stand where, each
//! format says for itself. What is written here is read back: the text of a number or a literal is one word,
//! which writes that number.
//!
//! Data flows from `words.rt` (the words of a line) to `number.rt` (the number that a word writes), and back
//! by `text.rt` (the text of numbers and literals). Begin to read at `words.rt`. Definitions:
//! `specs/Words.antt`, `specs/Numbers.antt`, `specs/Text.antt`, and `specs/Reading.antt` for the form of a
//! reader's contract, `Gives`.
#![tactic(auto)]

pub use number::{Number, number_in, size_in};
pub use text::{push_literal, push_number};
pub use words::{Blanks, Space, Whitespace, Words, first_word};

mod number;
mod text;
mod words;
