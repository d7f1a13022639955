//! Named clauses over numbered variables, in flat memory: the base of a query, as a solver keeps it.
//!
//! A base as a list has a vector for each clause, and names each variable once for each literal; whoever takes
//! it has to find the variables' numbers again. In a `FlatBase` each node has its number once, and clauses are
//! codes one after another in one vector that stays from query to query.
//!
//! Definitions: `specs/Codes.antt` (codes of literals), `specs/Flat.antt` (what a flat base stands for).
#![tactic(auto)]

pub use flat_base::FlatBase;

mod flat_base;
