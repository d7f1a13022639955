//! The circuit that a book's merges leave of a circuit: a functionally reduced and-inverter graph (FRAIG;
//! Mishchenko, Chatterjee, Jiang and Brayton 2005).
//!
//! Every literal of A gives way to its root in the book, and the gates that outputs and constraints no longer
//! rest on go. `reduce` promises that its answer is the reduced circuit of `specs/Reduced.antt`, which is a
//! definition of the book alone: which gates stay is a least set, and nothing is said of a walk. That it has
//! A's value at every output and at every constraint, on every input, is promised in `laws`, as is that it is
//! in AIGER's order, so that it can be written in the binary form. `mirror` makes the book that shows A and its
//! reduced circuit equal, without a query (`specs/Mirror.antt`).
//!
//! Begin to read at `reduced_circuit.rt`; `staying.rt` finds the gates that stay, by the marks of
//! `marks.rt`, and `renumbering.rt` gives them new numbers. `mirrored.rt` is apart from these.
#![tactic(auto)]

pub mod laws;
mod marks;
mod mirrored;
mod reduced_circuit;
mod renumbering;
mod staying;

pub use mirrored::mirror;
pub use reduced_circuit::reduce;
