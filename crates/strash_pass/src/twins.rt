ghost use Rattle.std.specs.Prelude.{◌≡◌, ◌≤◌, [], Some, IfOk, IfNone, IfSome, OnErr};
ghost use Rattle.indexmap.specs.IndexMap.{get, insert_entry};
ghost use Rattle.strash_pass.specs.Twins.{IsPairOf, IsTwinOrNoted};

use crate::circuit_seed::CircuitSeed;
use indexmap::IndexMap;
use indexmap::map::Entry;
use std::alloc::{AllocError, Global};
use std::marker::Model;

/// The codes of a gate's roots, the lesser one first.
#[derive(Clone, Copy, PartialEq, Eq, Hash)]
pub struct Roots {
    pub low: u32,
    pub high: u32,
}

impl Roots {
    /// The two codes in order.
    fn of(one: u32, other: u32) -> Roots
        ensures ordered { result.low ≤ result.high }
        ensures pair { IsPairOf result one other }
    {
        if one < other {
            Roots {
                low: one,
                high: other,
            }
        } else {
            Roots {
                low: other,
                high: one,
            }
        }
    }
}

/// Gates by the pair of their fanins' roots.
#[derive(Drop)]
pub struct Twins {
    gates: IndexMap<Roots, u32, CircuitSeed>,
    /// The place after that of the gate found last.
    next: usize,
}

impl Model for Twins {
    ghost use Rattle.strash_pass.specs.Twins.{AreOrdered, Table, table_of};

    ghost Value = { Table };

    ghost view = { λ t. table_of t.gates.entries };

    ghost invariant = { λ t. AreOrdered t.gates.entries };
}

impl Twins {
    /// No gates, with room for so many.
    pub fn new(alloc: Global, gates: usize, seed: CircuitSeed) -> Result<Twins, AllocError>
        ensures { IfOk result (λ t. t ≡ record { notes = [] }) }
    {
        let gates = IndexMap::with_capacity_and_hasher(alloc, gates, seed)?;
        Ok(Twins { gates, next: 0 })
    }

    /// The gate that was noted with these roots' codes, in either order; where there is none, this gate is
    /// noted with them.
    pub fn twin_or_note(
        &mut self,
        one: u32,
        other: u32,
        gate: u32,
    ) -> Result<Option<u32>, AllocError>
        ensures noted { IfOk result (IsTwinOrNoted self.old one other gate self.new) }
        ensures err { OnErr result (self.new ≡ self.old) }
    {
        find_or_note(&mut self.gates, &mut self.next, Roots::of(one, other), gate)
    }
}

/// The gate that the map has at these roots; where it has none, it gets this one.
///
/// In a copy of a circuit the gates have their twins one after another, in the order in which these were
/// noted. So the place after the last one found is looked at first: each look-up by the hash fetches a line
/// of memory from anywhere in the table.
fn find_or_note(
    gates: &mut IndexMap<Roots, u32, CircuitSeed>,
    next: &mut usize,
    roots: Roots,
    gate: u32,
) -> Result<Option<u32>, AllocError>
    ensures first { IfOk result (λ r. r ≡ get ⟦<Roots as PartialEq>⟧.eq gates.old roots) }
    ensures noted { IfOk result (λ r. IfNone r
        (gates.new.entries ≡ insert_entry ⟦<Roots as PartialEq>⟧.eq gates.old.entries roots gate)) }
    ensures found { IfOk result (λ r. IfSome r (λ g. gates.new.entries ≡ gates.old.entries)) }
    ensures err { OnErr result (gates.new.entries ≡ gates.old.entries) }
{
    if let Some(twin) = gate_at(gates, *next, roots) {
        *next = next.saturating_add(1);
        return Ok(Some(twin));
    }
    match gates.entry(roots)? {
        Entry::Occupied(entry) => {
            *next = entry.index().saturating_add(1);
            Ok(Some(*entry.get()))
        }
        Entry::Vacant(entry) => {
            entry.insert(gate);
            Ok(None)
        }
    }
}

/// The gate at a place of the map, where these are its roots.
fn gate_at(gates: &IndexMap<Roots, u32, CircuitSeed>, place: usize, roots: Roots) -> Option<u32>
    ensures { IfSome result (λ g. get ⟦<Roots as PartialEq>⟧.eq gates.now roots ≡ Some g) }
{
    match gates.get_index(place) {
        Some((known, gate)) if *known == roots => Some(*gate),
        _ => None,
    }
}
