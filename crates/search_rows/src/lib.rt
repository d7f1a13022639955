//! Rows of calls on the parts of the circuit search, a procedure a test: its expected values are worked out by
//! hand, as each row's comment says, or by a script written apart.
//!
//! The crates are `search_parts`, `merged_net`, `shared_equalities`, `pattern_filter`, `xor_sums`, `lazy_search`
//! and `cone_search`. What a search learns is seen in the steps that it proposes, which `written` writes down as a
//! line of text. Begin to read at `written.rt`, then `parts.rt`.
#![tactic(auto)]

#[cfg(test)]
mod cones;
#[cfg(test)]
mod filter;
#[cfg(test)]
mod lazy;
#[cfg(test)]
mod merged;
#[cfg(test)]
mod parts;
#[cfg(test)]
mod shared;
#[cfg(test)]
mod sums;
#[cfg(test)]
mod written;
