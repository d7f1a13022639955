//! The steps of a pass at the lock.
ghost use Rattle.std.specs.Prelude.{◌≡◌, ◌^◌, ◌<◌, ◌≤◌, [], ◌∷◌, ◌++◌};
ghost use Rattle.lemma_book.specs.Book.{StartsWith};
ghost use Rattle.ticket_lock.specs.Views.{IsIdle, IsIn, past, numbering, kept_of, cut_of, both_of};
ghost use Rattle.ticket_lock.specs.Views.{drew as after_draw};
ghost use Rattle.ticket_lock.specs.Plays.{CameIn};
ghost use Rattle.board_lock.specs.Totals.{AllBelow};
ghost use Rattle.board_lock.specs.Story.{AreSo, book_after, no_story};
ghost use Rattle.board_lock.specs.Views.{noting, missing, drew, new_of};
ghost use Rattle.board_lock.specs.Views.{both_of as both_own};
ghost use Rattle.board_lock.specs.Plays.{Sees, Tells, known_note, offered_note};

use crate::history::History;
use crate::plays::{Asked, Cut, Glue, Lock, Look, Missed, Noted, Noting, Over, Place, Task};
use lemma_book::{Book, Offered};
use std::alloc::Global;
use std::marker::Brand;
use std::sync::Wait;

/// Waits for its turn, and takes the slot.
pub fn come_in<R: Wait>(rt: &R, lock: &Lock, place: &mut Place)
    requires own { place.old.table_id ≡ lock.now.table }
    requires idle { IsIdle place.old.me.0 × (place.old.me.1 ≡ []) }
    requires left { 1 ≤ place.old.me.0.left }
    ensures same { place.new.table_id ≡ place.old.table_id }
    ensures came { CameIn (Sees lock.now.about.net) place.old.me place.new.me }
{
    come_over::<Brand, R>(rt, lock, place);
}

/// The same, over the net that the board is about.
fn come_over<N: Over, R: Wait>(rt: &R, lock: &Lock, place: &mut Place)
    requires net { N.net ≡ lock.now.about.net }
    requires own { place.old.table_id ≡ lock.now.table }
    requires idle { IsIdle place.old.me.0 × (place.old.me.1 ≡ []) }
    requires left { 1 ≤ place.old.me.0.left }
    ensures same { place.new.table_id ≡ place.old.table_id }
    ensures came { CameIn (Sees N.net) place.old.me place.new.me }
{
    lock.come_in::<Look<N>, R>(rt, place);
}

/// Takes the history out of the slot.
pub fn take(alloc: Global, lock: &Lock, place: &mut Place) -> History
    requires own { place.old.table_id ≡ lock.now.table }
    requires there { place.old.me.1 ≡ (0, place.old.me.0.taken) ∷ [] }
    ensures same { place.new.table_id ≡ place.old.table_id }
    ensures taken { result ≡ place.old.me.0.taken }
    ensures left { place.new.me ≡ (place.old.me.0, (0, no_story) ∷ []) }
{
    lock.take(place, History::of(alloc, Book::new(alloc, 1, 1)))
}

/// Puts the history back, and ends the turn, which is noted.
fn leave<N: Noting>(lock: &Lock, place: &mut Place, history: History)
    requires own { place.old.table_id ≡ lock.now.table }
    requires inside { IsIn place.old.me.0 × (place.old.me.1 ≡ (0, no_story) ∷ []) }
    requires tells { Tells lock.now.about.net place.old.me.0 N.note history }
    ensures same { place.new.table_id ≡ place.old.table_id }
    ensures noted { place.new.me ≡ (past place.old.me.0 (noting place.old.me.0.own place.old.me.0.taken N.note), []) }
    ensures so { AreSo (book_after place.old.me.0.taken.book N.note.said)
        (place.old.me.0.own.notes ++ N.note ∷ []) }
    ensures known { StartsWith place.old.me.0.taken.book place.old.me.0.own.known }
{
    lock.leave::<Noted<N>>(place, history);
}

/// Puts the history back as it was taken, where the turn is counted as missed, and ends the turn.
pub fn miss(lock: &Lock, place: &mut Place, mut history: History)
    requires own { place.old.table_id ≡ lock.now.table }
    requires inside { IsIn place.old.me.0 × (place.old.me.1 ≡ (0, no_story) ∷ []) }
    requires missed { (history ≡ place.old.me.0.taken) × (history.missed < 2 ^ 62) }
    ensures same { place.new.table_id ≡ place.old.table_id }
    ensures left { place.new.me ≡ (past place.old.me.0 (missing place.old.me.0.own), []) }
{
    history.miss();
    lock.leave::<Missed>(place, history);
}

/// Draws a number.
pub fn draw(lock: &Lock, place: &mut Place) -> u64
    requires own { place.old.table_id ≡ lock.now.table }
    requires idle { IsIdle place.old.me.0 × (place.old.me.1 ≡ []) }
    requires left { 1 ≤ place.old.me.0.left }
    ensures same { place.new.table_id ≡ place.old.table_id }
    ensures drawn { place.new.me ≡ (after_draw place.old.me.0 (drew place.old.me.0.own result), []) }
    ensures above { AllBelow result place.old.me.0.own.draws }
{
    lock.draw::<Task>(place)
}

/// Cuts a pass in two: the new one gets so many turns, and the number that is told.
pub fn split(lock: &Lock, place: &mut Place, turns: u64) -> (u64, Place)
    requires own { place.old.table_id ≡ lock.now.table }
    requires idle { IsIdle place.old.me.0 × (place.old.me.1 ≡ []) }
    requires few { turns < place.old.me.0.left }
    ensures same { (place.new.table_id ≡ place.old.table_id) × (result.1.table_id ≡ place.old.table_id) }
    ensures kept { place.new.me ≡ (kept_of (λ o. o) turns (numbering place.old.me.0 result.0), []) }
    ensures cut { result.1.me ≡ (cut_of new_of turns (numbering place.old.me.0 result.0), []) }
{
    lock.split::<Cut>(place, turns)
}

/// Takes in another pass.
pub fn join(lock: &Lock, place: &mut Place, other: Place)
    requires own { (place.old.table_id ≡ lock.now.table) × (other.table_id ≡ lock.now.table) }
    requires idle { IsIdle place.old.me.0 × (place.old.me.1 ≡ []) }
    requires other_idle { IsIdle other.me.0 × (other.me.1 ≡ []) }
    ensures same { place.new.table_id ≡ place.old.table_id }
    ensures both { place.new.me ≡ (both_of both_own place.old.me.0 other.me.0, []) }
{
    lock.join::<Glue>(place, other);
}

/// Ends a turn that looked at the book.
pub fn leave_known<N: Noting>(lock: &Lock, place: &mut Place, history: History, known: u64)
    requires told { N.note ≡ known_note place.old.me.0 known }
    requires own { place.old.table_id ≡ lock.now.table }
    requires inside { IsIn place.old.me.0 × (place.old.me.1 ≡ (0, no_story) ∷ []) }
    requires tells { Tells lock.now.about.net place.old.me.0
        (known_note place.old.me.0 known) history }
    ensures same { place.new.table_id ≡ place.old.table_id }
    ensures noted { place.new.me ≡ (
      past place.old.me.0
          (noting place.old.me.0.own place.old.me.0.taken (known_note place.old.me.0 known)),
      [],
    ) }
    ensures so { AreSo place.old.me.0.taken.book
        (place.old.me.0.own.notes ++ known_note place.old.me.0 known ∷ []) }
    ensures known { StartsWith place.old.me.0.taken.book place.old.me.0.own.known }
{
    leave::<N>(lock, place, history);
}

/// Ends a turn that offered an entry, which is out of hand by now.
pub fn leave_offered<N: Asked>(lock: &Lock, place: &mut Place, history: History, offered: Offered)
    requires own { place.old.table_id ≡ lock.now.table }
    requires inside { IsIn place.old.me.0 × (place.old.me.1 ≡ (0, no_story) ∷ []) }
    requires tells { Tells lock.now.about.net place.old.me.0 (offered_note place.old.me.0 N.entry offered) history }
    ensures same { place.new.table_id ≡ place.old.table_id }
    ensures noted { place.new.me ≡ (
      past place.old.me.0
          (noting place.old.me.0.own place.old.me.0.taken (offered_note place.old.me.0 N.entry offered)),
      [],
    ) }
    ensures known { StartsWith place.old.me.0.taken.book place.old.me.0.own.known }
{
    leave_told::<Brand>(lock, place, history, offered);
}

fn leave_told<N: Noting>(lock: &Lock, place: &mut Place, history: History, _offered: Offered)
    requires own { place.old.table_id ≡ lock.now.table }
    requires inside { IsIn place.old.me.0 × (place.old.me.1 ≡ (0, no_story) ∷ []) }
    requires tells { Tells lock.now.about.net place.old.me.0 N.note history }
    ensures same { place.new.table_id ≡ place.old.table_id }
    ensures noted { place.new.me ≡ (past place.old.me.0 (noting place.old.me.0.own place.old.me.0.taken N.note), []) }
    ensures known { StartsWith place.old.me.0.taken.book place.old.me.0.own.known }
{
    leave::<N>(lock, place, history);
}
