//! Rows of calls on `flat_cones`: a cone, the same one over a longer book, and an output's cone, each beside the
//! list that the book makes.
#![tactic(auto)]

#[cfg(test)]
mod cones;
