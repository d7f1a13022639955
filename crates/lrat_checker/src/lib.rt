//! The strict checker of proofs in the format LRAT (Cruz-Filipe, Heule, Hunt, Kaufmann and Schneider-Kamp
//! 2017).
//!
//! `check` judges the lines of a proof one after another over the clauses that are live, and names the first
//! line whose addition is no step. It says that the lines refute the formula exactly where they derive and
//! add the empty clause, and then no assignment meets the formula. `check_text` says the same of a text, whose
//! lines it judges as it reads them.
//!
//! Definitions: `specs/Verdict.antt` (what each verdict says of formula and lines), over what the steps of a
//! proof derive (`lrat_text`, `specs/Derivation.antt`); `specs/Text.antt` (the verdict on a text);
//! `specs/Live.antt` (how the live clauses are kept); `specs/Renamed.antt` (formulas and lines in other names,
//! and variables by numbers).
//! Begin to read at `checking.rt`, then `text.rt`.
#![tactic(auto)]

pub use checking::check;
pub use laws::one_verdict;
pub use text::check_text;
pub use verdict::Verdict;

mod checking;
mod extent;
mod judging;
mod laws;
mod live;
mod renumber;
mod text;
mod verdict;
