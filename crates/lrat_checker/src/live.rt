ghost use Rattle.std.specs.Prelude.{◌≡◌, ℕ, ◌∷◌, map, Some, None, IfOk, OnOk, ◌==◌, if◌then◌else◌};
ghost use Rattle.std.specs.List.{list_any};
ghost use Rattle.std.specs.Option.{option_copied};
ghost use Rattle.std.specs.BTreeMap.{get};
ghost use Rattle.std.specs.Ordering.{nat_cmp};
ghost use Rattle.lrat_checker.specs.Live.{held_in};

use lits::{Dim, Listed};
use lrat_text::LratStep;
use std::alloc::{AllocError, Global};
use std::collections::BTreeMap;
use unit_prop::Clauses;

/// What a slot holds: no clause, one that is lent, or one of its own.
#[derive(Drop)]
enum Slot<'a> {
    Empty,
    Lent(&'a [Dim]),
    Own(Listed<Dim>),
}

impl<'a> Slot<'a> {
    /// The literals of the clause, if there is one.
    fn held(&self) -> Option<&[Dim]>
        ensures { option_copied result ≡ held_in self.now }
    {
        match self {
            Slot::Empty => None,
            Slot::Lent(clause) => Some(clause),
            Slot::Own(clause) => Some(clause.as_slice()),
        }
    }
}

/// The clauses that are live, by their ids. Those of the formula stand there, and are only lent. Those of the
/// lines of a proof may be lent too, or be given, where no one else keeps the lines.
///
/// A clause stands in the slot that its id numbers, as all do in a proof whose ids have no gaps. Ids behind a
/// gap have no slot, and an ordered map holds their clauses, so that no choice of ids makes it slow. (A map of
/// all clauses took two to three times as long, though it was one by hashing.)
#[derive(Drop)]
pub(crate) struct LiveClauses<'a> {
    slots: Vec<Slot<'a>>,
    others: BTreeMap<u64, Slot<'a>>,
}

impl<'a> LiveClauses<'a> {
    ghost use Rattle.lrat_text.specs.Derivation.{formula_live, after_step};
    ghost use Rattle.lrat_checker.specs.Live.{clauses_of};

    /// The formula's clauses, by their places from 1.
    pub(crate) fn of(
        alloc: Global,
        formula: &'a [Listed<Dim>],
    ) -> Result<LiveClauses<'a>, AllocError>
        ensures { IfOk result (λ live. (id : ℕ) →
            clauses_of live id ≡ formula_live formula.now id) }
    {
        Ok(LiveClauses {
            slots: slots_of(alloc, formula)?,
            others: BTreeMap::new(alloc),
        })
    }

    /// Does what the step does to the live clauses, where its clause is lent.
    pub(crate) fn apply(&mut self, step: &'a LratStep) -> Result<(), AllocError>
        ensures { OnOk result ((id : ℕ) →
            clauses_of self.new id ≡ after_step (clauses_of self.old) step.now id) }
    {
        match step {
            LratStep::Add {
                id,
                clause,
                hints: _,
            } => self.put(*id, Slot::Lent(clause.as_slice()))?,
            LratStep::Del { ids } => self.delete_all(ids.as_slice()),
        }
        Ok(())
    }

    /// Does what the step does to the live clauses, and keeps its clause.
    pub(crate) fn take(&mut self, step: LratStep) -> Result<(), AllocError>
        ensures { OnOk result ((id : ℕ) →
            clauses_of self.new id ≡ after_step (clauses_of self.old) step id) }
    {
        match step {
            LratStep::Add {
                id,
                clause,
                hints: _,
            } => self.keep(id, clause),
            LratStep::Del { ids } => {
                self.delete_all(ids.as_slice());
                Ok(())
            }
        }
    }

    /// Puts a clause that is given under an id.
    fn keep(&mut self, id: u64, clause: Listed<Dim>) -> Result<(), AllocError>
        ensures { OnOk result ((name : ℕ) → clauses_of self.new name
            ≡ (if name == id then Some clause else clauses_of self.old name)) }
    {
        self.put(id, Slot::Own(clause))
    }

    /// Puts a clause under an id, in the place of the one that was there.
    fn put(&mut self, id: u64, clause: Slot<'a>) -> Result<(), AllocError>
        ensures { OnOk result ((name : ℕ) → clauses_of self.new name
            ≡ (if name == id then held_in clause.entry else clauses_of self.old name)) }
    {
        let place = id as usize;
        if place < self.slots.len() {
            self.slots[place] = clause;
        } else if place == self.slots.len() {
            self.slots.push(clause)?;
        } else {
            put_apart(&mut self.others, id, clause)?;
        }
        Ok(())
    }

    /// Drops the clauses with these ids.
    fn delete_all(&mut self, ids: &[u64])
        ensures { (name : ℕ) → clauses_of self.new name
            ≡ (if list_any (λ id. id == name) ids.now then None else clauses_of self.old name) }
    {
        for id in ids {
            self.delete(*id);
        }
    }

    /// Drops the clause with the id.
    fn delete(&mut self, id: u64)
        ensures { (name : ℕ) → clauses_of self.new name
            ≡ (if id == name then None else clauses_of self.old name) }
    {
        let place = id as usize;
        if place < self.slots.len() {
            self.slots[place] = Slot::Empty;
        } else {
            delete_apart(&mut self.others, id);
        }
    }
}

impl Clauses<u64, Dim> for LiveClauses<'_> {
    ghost use Rattle.lrat_checker.specs.Live.{clauses_of};

    ghost find = { clauses_of };

    fn clause(&self, id: u64) -> Option<&[Dim]> {
        match self.slots.get(id as usize) {
            Some(slot) => slot.held(),
            None => self.others.get(&id)?.held(),
        }
    }
}

/// Puts a clause under an id of the map.
fn put_apart<'a>(
    others: &mut BTreeMap<u64, Slot<'a>>,
    id: u64,
    clause: Slot<'a>,
) -> Result<(), AllocError>
    ensures { OnOk result ((name : ℕ) → get nat_cmp others.new name
        ≡ (if name == id then Some clause.entry else get nat_cmp others.old name)) }
{
    others.insert(id, clause)?;
    Ok(())
}

/// Drops the clause under an id of the map.
fn delete_apart(others: &mut BTreeMap<u64, Slot<'_>>, id: u64)
    ensures { (name : ℕ) → get nat_cmp others.new name
        ≡ (if id == name then None else get nat_cmp others.old name) }
{
    let _ = others.remove(&id);
}

/// An empty slot for the id 0, which no clause of the formula has, and the slots of the formula's clauses.
fn slots_of<'a>(alloc: Global, formula: &'a [Listed<Dim>]) -> Result<Vec<Slot<'a>>, AllocError>
    ensures { IfOk result (λ slots. map held_in slots.items ≡ None ∷ map Some formula.now) }
{
    let mut slots = vec![in alloc; Slot::Empty]?;
    for clause in formula {
        slots.push(Slot::Lent(clause.as_slice()))?;
    }
    Ok(slots)
}
