//! Tests of `netlist_edits` and `keep_lemmas` from outside: lines that are read, edits of nets and their
//! faults, the texts that no clause says, and what is kept of books. It has no code of its own.
//!
//! `lines` has the table of lines, `edits` the scripts that are applied to nets, line by line; `told` puts
//! what comes of either into words, and asks it of a table. `kept` has books and what is kept of them.
//! Begin to read at `lines.rt`.
#![tactic(auto)]

#[cfg(test)]
mod edits;
#[cfg(test)]
mod kept;
#[cfg(test)]
mod lines;
#[cfg(test)]
mod told;
