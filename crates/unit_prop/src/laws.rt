//! What steps, closures and new clauses mean under assignments, and how many can be learned, each law the
//! contract of a function without a body.

pub mod budget;
pub mod dimacs;
pub mod lit;
