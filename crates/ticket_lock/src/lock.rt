//! The lock: its steps are those of one table with four words and one slot.
ghost use Rattle.std.specs.Prelude.{◌≡◌, ℕ, ◌+◌, ◌^◌, ◌<◌, ◌≤◌, [], ◌∷◌, length, MatchBool, IfOk, IfErr};
ghost use Rattle.ticket_lock.specs.Views.{IsIdle, IsIn, member_of};
ghost use Rattle.ticket_lock.specs.Views.{in_line, past, drew, numbering, kept_of, cut_of, both_of, opener};
ghost use Rattle.ticket_lock.specs.Claims.{Begins, Learns, Ends, Draws, Parts, Merges, Sums, Ended};
ghost use Rattle.ticket_lock.specs.Plays.{Took, CameIn, IsInLine, IsCutting};

use crate::claim::{Claim, Drawing, Ending, Lesson};
use crate::plays::{Amount, Cut, Draw, Glue, Law, Leave, Look, Number, Ticket};
use crate::view::View;
use atomic_table::{Join, Seat, Split, Table};
use std::alloc::Global;
use std::hint::spin_loop;
use std::marker::{Brand, Model};
use std::sync::Wait;
use std::thread;
use std::time::Duration;

/// How many passes may be in line. What more or fewer cost: docs/DECISIONS.md, "A pass takes a ticket only
/// where fewer than two are in line".
const ROOM: u64 = 2;

/// How often a pass looks for room, each time after a pause twice as long, before it sleeps.
const PAUSES: u32 = 10;

/// A pass's place at the lock. It has no bytes.
pub type Place<S, U> = Seat<S, View<S, U>>;

/// A ticket lock over one value.
///
/// The table has four words, the turns that were ended, the tickets that were given, the numbers that were
/// drawn and the splits, and one slot.
#[derive(Drop)]
pub struct TicketLock<S: Drop, U, K, C: Claim<S, U, K>> {
    table: Table<S, View<S, U>, K, Law<C>, Global>,
}

impl<S: Drop, U, K, C: Claim<S, U, K>> Model for TicketLock<S, U, K, C> {
    ghost use Rattle.std.specs.Prelude.{◌≡◌};
    ghost use Rattle.ticket_lock.specs.Lock.{Lock};

    ghost Value = { Lock K };

    ghost view = { λ l. record { table = l.table.shared.table_id; about = l.table.shared.key } };

    ghost invariant = { λ l. (l.table.shared.table_id.words ≡ 4) × (l.table.shared.table_id.slots ≡ 1) };
}

impl<S: Drop, U, K, C: Claim<S, U, K>> TicketLock<S, U, K, C> {
    /// A lock over a value, and the place of the first pass, which has all 2^62 turns. Where memory is refused the
    /// value comes back.
    pub fn open(
        alloc: Global,
        value: S,
        about: &K,
    ) -> Result<(TicketLock<S, U, K, C>, Place<S, U>), S>
        requires { Begins (C.holds about.now) value (C.first about.now) }
        ensures lock { IfOk result (λ r. r.0.about ≡ about.now) }
        ensures place { IfOk result (λ r. (r.1.table_id ≡ r.0.table)
            × (r.1.me ≡ (opener C.blank (C.first about.now), []))) }
        ensures err { IfErr result (λ v. v ≡ value) }
    {
        let Ok(mut slots) = Vec::with_capacity(alloc, 1) else {
            return Err(value);
        };
        slots.push_reserved(value);
        match Table::new(alloc, &[0, 0, 0, 0], slots, about) {
            Ok((table, place)) => Ok((TicketLock { table }, place)),
            Err(refused) => Err(only(refused.slots)),
        }
    }

    /// Ends the lock with the pass that is whole: no other pass has a turn left. Gives what lies in the slot,
    /// and how many numbers were drawn.
    pub fn close(self, place: Place<S, U>) -> (S, u64)
        requires own { place.table_id ≡ self.table }
        requires idle { IsIdle place.me.0 }
        requires sums { Sums (C.holds self.about) C.made }
        requires whole { (place.me.0.left + place.me.0.splits) + C.made place.me.0.own ≡ 2 ^ 62 }
        ensures { Ended (C.holds self.about) C.made (member_of place.me.0) result.0 result.1 }
    {
        let TicketLock { table } = self;
        let mut closed = table.close_with(place);
        let slot = closed.take(0);
        let drawn = closed.word(2);
        closed.free();
        (slot, drawn)
    }

    /// Waits for its turn, and takes the slot.
    pub fn come_in<L: Lesson<S, U>, R: Wait>(&self, rt: &R, place: &mut Place<S, U>)
        requires own { place.old.table_id ≡ self.now.table }
        requires idle { IsIdle place.old.me.0 × (place.old.me.1 ≡ []) }
        requires left { 1 ≤ place.old.me.0.left }
        requires learns { Learns (C.holds self.now.about) (member_of place.old.me.0) (L.fact (member_of place.old.me.0)) }
        ensures same { place.new.table_id ≡ place.old.table_id }
        ensures came { CameIn L.fact place.old.me place.new.me }
    {
        self.wait_for_room(rt);
        let ticket = self.line_up(place);
        for _ in rt.forever() {
            if self.look::<L>(place, ticket) {
                break;
            }
            thread::yield_now();
        }
    }

    /// Waits while the line is full, before it joins it. Tickets are served in their order: with
    /// more threads than processors, a pass in line whose thread doesn't run would hold up all behind
    /// it, and each of them would be woken to find that.
    fn wait_for_room<R: Wait>(&self, rt: &R) {
        for doublings in 0..PAUSES {
            if self.has_room() {
                return;
            }
            pause(1 << doublings);
        }
        for _ in rt.forever() {
            if self.has_room() {
                return;
            }
            self.nap(rt);
        }
    }

    /// Whether so few passes are in line that one more may join it.
    fn has_room(&self) -> bool {
        let served = self.table.shared.peek(0);
        self.table.shared.peek(1).saturating_sub(served) < ROOM
    }

    /// Sleeps for a while, or until a pass is made: no turn wakes those that aren't in line.
    fn nap<R: Wait>(&self, rt: &R) {
        let passes = self.table.shared.peek(3) % (1 << 32);
        self.table
            .shared
            .park_timeout(rt, 3, passes as u32, Duration::from_millis(2));
    }

    /// Takes a ticket.
    fn line_up(&self, place: &mut Place<S, U>) -> u64
        requires own { place.old.table_id ≡ self.now.table }
        requires idle { IsIdle place.old.me.0 × (place.old.me.1 ≡ []) }
        requires left { 1 ≤ place.old.me.0.left }
        ensures same { place.new.table_id ≡ place.old.table_id }
        ensures line { place.new.me ≡ (in_line place.old.me.0 result, []) }
    {
        self.table.shared.fetch_add::<Ticket>(place, 1, 1)
    }

    /// Takes the slot if its ticket is served.
    fn look<L: Lesson<S, U>>(&self, place: &mut Place<S, U>, ticket: u64) -> bool
        requires own { place.old.table_id ≡ self.now.table }
        requires line { IsInLine ticket place.old.me }
        requires learns { Learns (C.holds self.now.about) (member_of place.old.me.0) (L.fact (member_of place.old.me.0)) }
        ensures same { place.new.table_id ≡ place.old.table_id }
        ensures took { MatchBool result (Took L.fact place.old.me place.new.me) (place.new.me ≡ place.old.me) }
    {
        self.table.shared.load::<Look<L>>(place, 0) == ticket
    }

    /// Takes the value out of the slot, where another stands in for it till the turn ends.
    pub fn take(&self, place: &mut Place<S, U>, stand_in: S) -> S
        requires own { place.old.table_id ≡ self.now.table }
        requires there { place.old.me.1 ≡ (0, place.old.me.0.taken) ∷ [] }
        ensures same { place.new.table_id ≡ place.old.table_id }
        ensures taken { result ≡ place.old.me.0.taken }
        ensures left { place.new.me ≡ (place.old.me.0, (0, stand_in) ∷ []) }
    {
        self.table.shared.exchange(place, 0, stand_in)
    }

    /// Puts a value into the slot, and ends the turn.
    pub fn leave<E: Ending<S, U>>(&self, place: &mut Place<S, U>, value: S)
        requires own { place.old.table_id ≡ self.now.table }
        requires inside { IsIn place.old.me.0 × ((stand_in : S) × (place.old.me.1 ≡ (0, stand_in) ∷ [])) }
        requires ends { Ends (C.holds self.now.about) (member_of place.old.me.0) place.old.me.0.taken value
            (E.after (member_of place.old.me.0) place.old.me.0.taken)
            (E.told (member_of place.old.me.0) place.old.me.0.taken) }
        ensures same { place.new.table_id ≡ place.old.table_id }
        ensures left { place.new.me
            ≡ (past place.old.me.0 (E.after (member_of place.old.me.0) place.old.me.0.taken), []) }
        ensures told { E.told (member_of place.old.me.0) place.old.me.0.taken }
    {
        drop(self.table.shared.exchange(place, 0, value));
        self.table.shared.fetch_add::<Leave<E>>(place, 0, 1);
    }

    /// Draws a number. No lock is taken.
    pub fn draw<D: Drawing<U>>(&self, place: &mut Place<S, U>) -> u64
        requires own { place.old.table_id ≡ self.now.table }
        requires idle { IsIdle place.old.me.0 × (place.old.me.1 ≡ []) }
        requires left { 1 ≤ place.old.me.0.left }
        requires draws { Draws (C.holds self.now.about) (member_of place.old.me.0)
            (D.after (member_of place.old.me.0)) (D.told (member_of place.old.me.0)) }
        ensures same { place.new.table_id ≡ place.old.table_id }
        ensures drawn { place.new.me ≡ (drew place.old.me.0 (D.after (member_of place.old.me.0) result), []) }
        ensures told { D.told (member_of place.old.me.0) result }
    {
        self.table.shared.fetch_add::<Draw<D>>(place, 2, 1)
    }

    /// Cuts a pass in two: the new one gets so many turns, and a number of its own, which is told. The split
    /// takes one turn more.
    pub fn split<M: Split<U>>(&self, place: &mut Place<S, U>, turns: u64) -> (u64, Place<S, U>)
        requires own { place.old.table_id ≡ self.now.table }
        requires idle { IsIdle place.old.me.0 × (place.old.me.1 ≡ []) }
        requires few { turns < place.old.me.0.left }
        requires parts { Parts (C.holds self.now.about) (member_of place.old.me.0) M.left M.right }
        ensures same { (place.new.table_id ≡ place.old.table_id) × (result.1.table_id ≡ place.old.table_id) }
        ensures kept { place.new.me ≡ (kept_of M.left turns (numbering place.old.me.0 result.0), []) }
        ensures cut { result.1.me ≡ (cut_of M.right turns (numbering place.old.me.0 result.0), []) }
    {
        let number = self.number(place);
        let cut = self.cut_by::<M, Brand>(place, turns);
        (number, cut)
    }

    /// Draws the number of a new pass.
    fn number(&self, place: &mut Place<S, U>) -> u64
        requires own { place.old.table_id ≡ self.now.table }
        requires idle { IsIdle place.old.me.0 × (place.old.me.1 ≡ []) }
        requires left { 1 ≤ place.old.me.0.left }
        ensures same { place.new.table_id ≡ place.old.table_id }
        ensures numbered { place.new.me ≡ (numbering place.old.me.0 result, []) }
    {
        self.table.shared.fetch_add::<Number>(place, 3, 1) + 1
    }

    fn cut_by<M: Split<U>, N: Amount>(&self, place: &mut Place<S, U>, turns: u64) -> Place<S, U>
        requires told { turns ≡ N.amount }
        requires own { place.old.table_id ≡ self.now.table }
        requires cutting { IsCutting place.old.me }
        requires few { turns ≤ place.old.me.0.left }
        requires parts { Parts (C.holds self.now.about) (member_of place.old.me.0) M.left M.right }
        ensures same { (place.new.table_id ≡ place.old.table_id) × (result.table_id ≡ place.old.table_id) }
        ensures kept { place.new.me ≡ (kept_of M.left turns place.old.me.0, []) }
        ensures cut { result.me ≡ (cut_of M.right turns place.old.me.0, []) }
    {
        self.table.shared.split_seat::<Cut<M, N>>(place)
    }

    /// Takes in another pass.
    pub fn join<M: Join<U>>(&self, place: &mut Place<S, U>, other: Place<S, U>)
        requires own { (place.old.table_id ≡ self.now.table) × (other.table_id ≡ self.now.table) }
        requires idle { IsIdle place.old.me.0 × (place.old.me.1 ≡ []) }
        requires other_idle { IsIdle other.me.0 × (other.me.1 ≡ []) }
        requires merges { Merges (C.holds self.now.about) (member_of place.old.me.0) (member_of other.me.0)
            M.both M.spent }
        ensures same { place.new.table_id ≡ place.old.table_id }
        ensures both { place.new.me ≡ (both_of M.both place.old.me.0 other.me.0, []) }
    {
        self.table.shared.join_seat::<Glue<K, C, M>>(place, other);
    }
}

fn pause(steps: u32) {
    for _ in 0..steps {
        spin_loop();
    }
}

/// The one value.
fn only<S: Drop>(mut values: Vec<S>) -> S
    requires { 1 ≤ length values.items }
    ensures { (v : S) → values.items ≡ v ∷ [] → result ≡ v }
{
    let Some(value) = values.pop() else {
        unreachable!()
    };
    value
}
