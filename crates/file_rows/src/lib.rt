//! Tests of lemma files, from outside: which bytes are one, what a net takes of one, and what is written of a
//! book; and of what lemmas make of a circuit. It has no code of its own.
//!
//! A file stands in a row as one line, in which a comma stands for the end of a line (`files`), and a table is
//! one text (`tables`). Tests: `reads` are of `book_file::read`, `loads` of `load`, `prints` of `print`, and
//! `reduced` of `fraig_write::reduce` and `mirror`. Begin to read at `reads.rt`.
#![tactic(auto)]

#[cfg(test)]
mod files;
#[cfg(test)]
mod loads;
#[cfg(test)]
mod prints;
#[cfg(test)]
mod reads;
#[cfg(test)]
mod reduced;
#[cfg(test)]
mod tables;
