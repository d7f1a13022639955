//! The trail of a solver: literals that are decided or propagated, with two watched literals a clause.
//!
//! `Trail` holds clauses and literals. A level begins with a decision, and `propagate` puts what clauses
//! force; at each level below the last the literals are the closure of all clauses and the decisions among
//! them, without a clash. Each propagated literal names the clause that forced it, so that a solver can
//! learn from a conflict. Beside the literals stand codes, dense numbers by which the readers of a solver's
//! inner loops look things up without hashing.
//!
//! Definitions: `specs/Trail.antt` (what a trail holds and what always holds of it, what each call changes),
//! `specs/Codes.antt` (codes). Behind the trail stands an engine over codes: `specs/Whole.antt` (how the two
//! belong together), `specs/State.antt` and `specs/Step.antt` (what holds of the engine, what its steps do),
//! `specs/Guard.antt` (two watched literals), `specs/Flat.antt`, `specs/Lists.antt`, `specs/Numbers.antt`
//! (how it keeps clauses, watches and variables). Begin to read at `trail.rt`, then `engine.rt`,
//! `visits.rt`.
#![tactic(auto)]

pub use code::flip;
pub use put::Put;
pub use trail::Trail;

mod attach;
mod code;
mod engine;
mod flat;
mod levels;
mod lists;
mod numbers;
mod put;
mod trail;
mod visits;
