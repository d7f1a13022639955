//! Literals and clauses: the words in which circuits, miters, lemmas and proofs speak to each other.
//!
//! A clause is its list of literals, without repeats and without a complementary pair. Two kinds of literal
//! share the trait `Literal`: `Lit`, a node of the two circuits with a sign, and `Dim`, a number of a DIMACS
//! file. Code that is generic over `Literal` is proved once, by the trait's laws: negation is an involution
//! without a fixed point, and `==` tells literals apart exactly.
//!
//! Definitions: `specs/Clause.antt` (what a clause is), `specs/Assignment.antt` (assignments, what a clause
//! asks of one, satisfiable), `specs/Dimacs.antt` (literals of DIMACS files), `specs/Same.antt` (equal,
//! negated), `specs/Code.antt` (numbers of literals), `specs/Chains.antt` and `specs/Finder.antt` (how a set
//! finds its literals), `specs/Hints.antt` (how a step's hints are kept). Begin to read at `node.rt`, then
//! `literal.rt`, `dimacs.rt`, `chains.rt`, `marks.rt`, `literal_set.rt`, `clause.rt`, `step.rt`, `hints.rt`,
//! `listed.rt`.
#![tactic(auto)]

pub use clause::{Clause, ClauseErr};
pub use dimacs::Dim;
pub use hints::Hints;
pub use listed::Listed;
pub use literal::{Lit, Literal};
pub use literal_set::LiteralSet;
pub use node::{Node, Side};
pub use step::{Named, Ref, Step};

mod chains;
mod clause;
mod dimacs;
mod finder;
mod hints;
mod listed;
mod literal;
mod literal_set;
mod marks;
mod node;
mod step;
