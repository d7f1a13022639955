//! Queries: a solver's answer made into an entry of the lemma book.
//!
//! `pair` gathers the cone of a node and of the node of a literal, and asks a `Refuter` whether its clauses
//! imply that they have one value, `output` whether those of an output's cone, with the units of the
//! constraints, imply that its XOR is false. A proof becomes a `Merge` or an `Out`, a model an `Apart` or an
//! `OutApart` with the inputs' truth values, and a budget that is spent a `Spent` or an `OutSpent` with the
//! log. `Queries` asks one after another in the same memory. The crate promises that the entry is good over the book, whatever the solver.
//!
//! The definitions are those of `lemma_book`; `specs/Query.antt` has what an entry says besides,
//! `specs/Input.antt` the input that a model gives. For the crate's own functions `specs/Asked.antt` and
//! `specs/Answered.antt` say what holds while a pair or an output is asked about. Begin to read at
//! `pair_query.rt`.
#![tactic(auto)]

pub use output_query::output;
pub use pair_query::pair;
pub use queries::Queries;

mod copies;
mod input;
mod output_query;
mod pair_query;
mod queries;
