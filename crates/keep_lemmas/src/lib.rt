//! What stays of a lemma book when its net is edited.
//!
//! Edits change a few gates and outputs, and most of what a book knows of the others is still so. `keep`
//! makes the book of what is: each `Merge` and `Out` whose steps speak of no gate that was set or dropped
//! and of no output that was changed, cite no axiom and no constraint's unit that does, and stand on no entry
//! that goes. Entries that stay get new numbers, and so do the hints that name them; an entry whose hints have
//! theirs already is shared with the old book. The inputs on which nodes or outputs differed are handed out,
//! since they tell apart much in the new net too.
//!
//! A book that was legal over the net before the edits gives one that is legal over the net after them.
//! The work is that of the book's steps and of the edits, whatever the size of the net.
//!
//! Definitions: `specs/Kept.antt` (which entries stay, the book that they make, the inputs that are handed
//! out), `specs/Keeping.antt` (for the crate's own functions). Which nodes an edit touches, and the net
//! after edits, are those of `netlist_edits`.
//!
//! Begin to read at `kept_book.rt`. It asks `staying.rt` of each entry, which looks at `touched.rt`;
//! `renewed.rt` copies steps with new numbers, and `inputs.rt` hands inputs out.
#![tactic(auto)]

pub use kept_book::keep;

mod inputs;
mod kept_book;
mod renewed;
mod staying;
mod touched;
