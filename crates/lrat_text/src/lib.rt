//! Proof texts in the format LRAT (Cruz-Filipe, Heule, Hunt, Kaufmann and Schneider-Kamp 2017): how a step is
//! written, which steps a text spells, and what they derive.
//!
//! `read` answers the steps that a text spells, or its first fault; `Lines` gives them one by one, so that
//! whoever needs each once keeps no list of them. `push_line` appends the line of one step. The laws say that
//! what is written spells its steps again, and that a formula that steps refute has no assignment that meets
//! it.
//!
//! Begin to read at `step.rt` and with the grammar, `specs/Reading.antt`. Then, as data flows: `lines.rt` (a
//! text line by line), `reading.rt` (the step of a line), `parts.rt` (the numbers of a line), `writing.rt` (a
//! line of a step), `laws.rt`, and `error.rt`.
//!
//! Definitions: `specs/Reading.antt` (the grammar, with the first fault of a text that isn't in it) stands on
//! `specs/Numbers.antt` (which numbers may stand where) and `specs/Steps.antt` (ids); `specs/Lines.antt` says
//! what is left of a text, also behind a fault, `specs/Parts.antt` a line as far as it is read;
//! `specs/Writing.antt` has the one text of each step, `specs/Derivation.antt` what lines derive and refute.
#![tactic(auto)]

pub use error::LratErr;
pub use laws::{derived_lines, written_text};
pub use lines::{Lines, read};
pub use step::{Line, LratStep};
pub use writing::push_line;

mod error;
mod laws;
mod lines;
mod parts;
mod reading;
mod step;
mod writing;
