//! The lines of an edit script, and what an edit makes of a net.
//!
//! Between two checks of a pair of circuits a script changes them: `set` gives a gate other fanins, `new`
//! puts a gate in, `drop` takes one out, `out` gives an output another literal. `read_line` answers what a
//! line spells, and `apply` changes a net, or names the first fault of the edit and leaves the net as it was.
//! Where memory is refused the net stays too, and the edit has no fault.
//!
//! Definitions: `specs/Line.antt` (the five forms of a line, and which numbers may stand there),
//! `specs/Fault.antt` (the first fault of an edit), `specs/Edited.antt` (the net after an edit and after a
//! list of edits, and the nodes that they touch). The lists of gates that an edit makes are those of
//! `netlist`, in its `specs/Edit.antt`.
//!
//! Begin to read at `edit.rt`. A line goes through `words.rt` and `line.rt` to an edit; an edit goes through
//! `change.rt`, which asks `faults.rt` first, and that asks `checks.rt` about the net.
#![tactic(auto)]

pub use change::{apply, make};
pub use edit::{Command, Edit};
pub use error::{BadLine, EditErr};
pub use faults::fault_of;
pub use line::read_line;

mod change;
mod checks;
mod edit;
mod error;
mod faults;
mod line;
mod words;
