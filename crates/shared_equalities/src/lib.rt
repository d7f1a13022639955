//! Equalities of nodes that only the proofs of outputs use, and how searches exchange them.
//!
//! A merge has at most the steps of the sweep's budget, and two. A pair that takes more stays open, and with it most
//! pairs above. The proof of an output may be longer. So such a pair is shown once, and its steps stand here for each
//! proof that needs them.
//!
//! In: what a node is equal to, with the steps that show it (`Equalities::push`). Out: what a finder knows of a node
//! (`target`), and the steps of a proof after those of the equalities that it leads to (`proof`). `exchange` brings the
//! lists of one search up to date with those that the searches of a check share.
//!
//! Textbook: equal nodes inside as lemmas (Brand 1993; Kuehlmann and Krohm 1997), and solvers that share what they
//! learned (Hamadi, Jabbour and Sais 2009). Not so: each search has a whole copy, so it waits for no other one except in
//! an exchange. What sharing brings is measured in `circuit_search` (`shared.rt`).
//!
//! Proved: pushed steps stand last, in their order, so that the hint `Own(k)` stays step k. Nothing is claimed of what
//! they show: the book judges each entry.
//!
//! Begin to read at `equalities.rt`, then `equalities/exchange.rt`.
#![tactic(auto)]

pub use equalities::{Equalities, Equality, Finder};

mod equalities;
