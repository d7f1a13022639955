//! A ticket lock over one value of any type, under a claim of its user's.
//!
//! Whoever waits has a ticket, and takes the value out of the lock's slot when that ticket is served (Reed and
//! Kanodia 1979; Mellor-Crummey and Scott 1991). It puts a value back, and the next ticket is served. Each thread
//! works with a `Place` of its own, which stands for a pass: what that thread may do, and what it knows.
//!
//! What is promised, whatever the other threads do:
//!
//! - *Line.* No two passes have one ticket, and a pass holds the slot only while its ticket is served. So one pass
//!   holds it at a time, and what it finds there is what the last one left.
//! - *Claim.* The user says what holds between any two steps (`Claim`): of the value in the slot, of how many turns
//!   were ended and numbers drawn, and of each pass. A call asks for what keeps that claim. It tells its pass what the
//!   claim then says (`Lesson`, `Ending`, `Drawing`).
//! - *Turns.* The first pass has 2^62 turns. Each turn at the lock, each draw and each split takes one, and a split
//!   and a join hand on what is left. So no count wraps.
//! - *Numbers.* Each pass has a number that no other has. A pass that takes in others has theirs too.
//! - *End.* `close` takes the pass that accounts for all turns. It gives the value in the slot, and how many numbers
//!   were drawn: the claim holds of them, and no other pass has made anything.
//!
//! Nothing is promised of progress: a turn may never come. A place that is dropped during its turn stops the line.
//!
//! Definitions: `specs/Claims.antt` (what a claim is about, and what each call asks of it), `specs/Views.antt` (a
//! pass's view after each step). For the crate's own functions: `specs/Line.antt` and `specs/Rule.antt` (what the lock
//! keeps), `specs/Plays.antt` (what a step tells), `specs/Totals.antt` (sums over all passes). Begin to read at
//! `claim.rt`, then `lock.rt`.
#![tactic(auto)]

pub use atomic_table::{Join, Split};
pub use claim::{Claim, Drawing, Ending, Lesson};
pub use lock::{Place, TicketLock};
pub use view::View;

mod claim;
mod lock;
mod plays;
mod view;
