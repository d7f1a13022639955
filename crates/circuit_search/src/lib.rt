//! Entries that searches propose and the book judges: what workers ask about pairs of nodes and outputs.
//!
//! A `Search` asks the lazy solver about a pair, and about an output shortly, then at length, then the cone solver. It
//! may be wrong: nothing is claimed of how it searches. What it finds is an entry that it gives to `Book::judge`, and it
//! hands out an entry only where the book says that it is good. An entry that the book refuses is dropped, and counted.
//!
//! In: a net with one of its books, a pair or an output, and `Caps`. Out: an entry that is good over the book and settles
//! what was asked, or none. `apart` has an input evaluated, which may be one of a pattern filter's.
//!
//! Searches of one check share in `Shared` the equalities that only proofs of outputs use, so that no two of them
//! search for one.
//!
//! The parts are crates by themselves: `lazy_search` with `xor_sums`, `cone_search`, `shared_equalities`, over
//! `merged_net` and `search_parts`. `pattern_filter` stands beside. The order in which they are asked is this crate's;
//! what was measured of it stands in `proposer/equating.rt`, `shared.rt` and docs/MEASURED.md.
//!
//! Definitions: `specs/Answer.antt`. Begin to read at `search.rt`, then `proposer.rt`, `proposer/equating.rt`.
#![tactic(auto)]

pub use judged::apart;
pub use search::Search;
pub use search_parts::Caps;
pub use shared::Shared;

mod judged;
mod proposer;
mod search;
mod shared;
