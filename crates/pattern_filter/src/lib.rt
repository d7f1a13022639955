//! Patterns that may tell the pairs of a round apart before any search.
//!
//! In: a net with its book, and the pairs of a round. Out: a mark for each pair, whether it is to be settled in this
//! round (`PatternFilter::sift`), the input that seems to tell a pair apart (`telling`), or an output (`difference`).
//! Nothing is claimed of such an input: who takes one evaluates it, as `circuit_search::apart` does.
//!
//! It is parted from the searches, so that many of them share one. `word_sim` simulates too, under contracts: all nodes,
//! on the few patterns that a check keeps. Here are many patterns for one round, so only the cones of what is asked are
//! simulated, over roots. Hence the second simulation, and a walk of its own through cones (`cone.rt`): from the last
//! position down a table of marks, for all pairs at once. The walks of `lemma_book` and `flat_cones` make clauses of one
//! cone.
//!
//! Textbook: random simulation before a solver is asked (Kuehlmann, Paruthi, Krohm and Ganai 2002). Not so: words in
//! which inputs are rarely true or like each other (`draws.rt`), and rounds that settle the first pair of each pattern.
//! What was tried of these stands in docs/MEASURED.md.
//!
//! Proved: `sift` has one mark for each pair.
//!
//! Begin to read at `filter.rt`, then `cone.rt`, `inputs.rt`, `draws.rt`.
#![tactic(auto)]

pub use filter::PatternFilter;

mod cone;
mod draws;
mod filter;
mod inputs;
