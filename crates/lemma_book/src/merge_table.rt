ghost use Rattle.std.specs.Prelude.{◌≡◌, ◌<◌, ◌≤◌, ◌==◌, ℕ, None, Some, [], length, OnOk, if◌then◌else◌};
ghost use Rattle.std.specs.Option.{option_or};
ghost use Rattle.lemma_book.specs.MergeTable.{place_in, place_at, HasSlot, IsWidened, NotesGate};

use lits::Side;
use std::alloc::{AllocError, Global};
use std::marker::Model;

/// How many places fit into the slots: a slot holds one more than a place, in 32 bits.
pub(crate) const MOST: usize = 4_294_967_295;

/// By gate the place of the entry that merges it: a slot for each AIGER variable of a circuit, up to the
/// greatest that was asked for, so a book without merges has none.
///
/// A variable takes 4 bytes, up to 8 of capacity: 200,000 gates against themselves took 236 MB with a hash
/// map for all keys, and take 217 MB. But one merged gate of variable 16,777,216 takes 64 MB of its side.
#[derive(Drop)]
pub(crate) struct MergeTable {
    a: Vec<u32>,
    b: Vec<u32>,
}

impl Model for MergeTable {
    ghost use Rattle.lemma_book.specs.MergeTable.{Table};

    ghost Value = { Table };

    ghost view = { λ t. record { a = t.a.items; b = t.b.items } };
}

impl MergeTable {
    /// No gate is merged.
    pub(crate) fn new(alloc: Global) -> MergeTable
        ensures { result ≡ record { a = []; b = [] } }
    {
        MergeTable {
            a: Vec::new(alloc),
            b: Vec::new(alloc),
        }
    }

    /// The place of the gate's merge; none where it isn't merged.
    pub(crate) fn place(&self, side: Side, var: u32) -> Option<u64>
        ensures { result ≡ place_at self.now side var }
    {
        match side {
            Side::A => place_in(self.a.as_slice(), var),
            Side::B => place_in(self.b.as_slice(), var),
        }
    }

    /// Makes a slot for the gate, where it has none.
    pub(crate) fn make_room(&mut self, side: Side, var: u32) -> Result<(), AllocError>
        ensures room { OnOk result (HasSlot self.new side var) }
        ensures keeps { IsWidened self.old self.new }
    {
        match side {
            Side::A => make_slot(&mut self.a, var),
            Side::B => make_slot(&mut self.b, var),
        }
    }

    /// Notes the place of the gate's merge, unless there is an earlier one.
    pub(crate) fn note(&mut self, side: Side, var: u32, place: u64)
        requires slot { HasSlot self.old side var }
        requires place { place < 4294967295 }
        ensures { NotesGate self.old side var place self.new }
    {
        match side {
            Side::A => fill(&mut self.a, var, place),
            Side::B => fill(&mut self.b, var, place),
        }
    }
}

/// The place that the variable's slot holds.
fn place_in(slots: &[u32], var: u32) -> Option<u64>
    ensures { result ≡ place_in slots.now var }
{
    match slots.get(var as usize) {
        Some(slot) => if *slot > 0 {
            Some(u64::from(*slot - 1))
        } else {
            None
        },
        None => None,
    }
}

/// Makes empty slots up to the variable's. Memory is doubled, so that asked for one by one they cost little.
fn make_slot(slots: &mut Vec<u32>, var: u32) -> Result<(), AllocError>
    ensures room { OnOk result (var < length slots.new.items) }
    ensures places { (v : ℕ) → place_in slots.new.items v ≡ place_in slots.old.items v }
    ensures slots { length slots.old.items ≤ length slots.new.items }
{
    let room = var as usize + 1;
    if slots.len() < room {
        slots.resize(room, 0)?;
    }
    Ok(())
}

/// Writes a place into the variable's slot, if that is empty.
fn fill(slots: &mut Vec<u32>, var: u32, place: u64)
    requires slot { var < length slots.old.items }
    requires place { place < 4294967295 }
    ensures places { (v : ℕ) → place_in slots.new.items v
        ≡ option_or (place_in slots.old.items v) (if var == v then Some place else None) }
    ensures slots { length slots.new.items ≡ length slots.old.items }
{
    let at = var as usize;
    if slots[at] == 0 {
        slots[at] = place as u32 + 1;
    }
}
