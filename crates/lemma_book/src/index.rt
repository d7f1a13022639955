ghost use Rattle.std.specs.Prelude.{◌≡◌, ◌<◌, ◌≤◌, ◌+◌, None, Some, [], ◌∷◌, map, IfOk, OnOk, if◌then◌else◌};
ghost use Rattle.std.specs.Arc.{arc_value};
ghost use Rattle.std.specs.Option.{option_or};
ghost use Rattle.std.specs.HashMap.{get, spare};
ghost use Rattle.lemma_book.specs.declared.index.Key.{Key};
ghost use Rattle.lemma_book.specs.MergeTable.{IsWidened};
ghost use Rattle.lemma_book.specs.Shelf.{same_key, key_of};
ghost use Rattle.lemma_book.specs.Index.{gate_of, place_by, others_of, HasSlotFor, HasRoom, TakesRoom, FindsSame, Notes};

use crate::entry::{Entry, Subject, Task};
use crate::merge_table::MergeTable;
use crate::node_hasher::NodeHasher;
use lits::{Node, Side};
use std::alloc::{AllocError, Global};
use std::collections::HashMap;
use std::sync::Arc;

/// By what an entry is found: its subject, or the pair for which it spent a budget.
#[derive(Clone, Copy, PartialEq, Eq, Hash)]
pub enum Key {
    On(Subject),
    SpentOn(Task),
}

impl Entry {
    /// By what the entry is found; an `Apart` is never looked for.
    pub(crate) fn key(&self) -> Option<Key>
        ensures { result ≡ key_of self.now }
    {
        match self {
            Entry::Spent { node, lit, .. } => Some(Key::SpentOn(Task {
                node: *node,
                lit: *lit,
            })),
            _ => match self.subject() {
                Some(subject) => Some(Key::On(subject)),
                None => None,
            },
        }
    }
}

/// Keys that are no merges of gates: those of outputs, and of queries that spent their budgets.
type Others = HashMap<Key, u64, NodeHasher>;

/// By key the place of the first entry that has it.
///
/// Nearly all entries of a large book are merges of gates, and each look at a cone's node asks for one:
/// these are found by their variables, with no hash.
#[derive(Drop)]
pub struct Index {
    merges: MergeTable,
    others: Others,
}

impl Index {
    /// Nothing is found.
    pub(crate) fn new(alloc: Global) -> Index
        ensures { (key : Key) → place_by result key ≡ None }
    {
        Index {
            merges: MergeTable::new(alloc),
            others: HashMap::with_hasher(alloc, NodeHasher::new()),
        }
    }

    /// The place of the first entry with the key.
    pub(crate) fn place(&self, key: Key) -> Option<u64>
        ensures { result ≡ place_by self.now key }
    {
        match gate_of(key) {
            Some((side, var)) => self.merges.place(side, var),
            None => self.others.get(&key).copied(),
        }
    }

    /// Makes room for an entry with this key.
    pub(crate) fn make_room(&mut self, key: Option<Key>) -> Result<(), AllocError>
        ensures room { OnOk result (HasRoom self.new (key ∷ [])) }
        ensures keeps { FindsSame self.old self.new }
    {
        let others = self.make_slot(key)?;
        self.others.reserve(others)
    }

    /// Makes room for all of these entries.
    pub(crate) fn make_room_for(&mut self, entries: &[Arc<Entry>]) -> Result<(), AllocError>
        ensures room { OnOk result (HasRoom self.new (map key_of (map arc_value entries.now))) }
        ensures keeps { FindsSame self.old self.new }
    {
        let mut others = 0;
        for entry in entries {
            others += self.make_slot(entry.key())?;
        }
        self.others.reserve(others)
    }

    /// Makes a slot for the merge of a gate; gives how many keys need room among the others.
    fn make_slot(&mut self, key: Option<Key>) -> Result<usize, AllocError>
        ensures count { IfOk result (λ n. n ≡ others_of key) }
        ensures slot { OnOk result (HasSlotFor self.new.merges key) }
        ensures merges { IsWidened self.old.merges self.new.merges }
        ensures others { self.new.others ≡ self.old.others }
    {
        match key {
            Some(key) => match gate_of(key) {
                Some((side, var)) => {
                    self.merges.make_room(side, var)?;
                    Ok(0)
                }
                None => Ok(1),
            },
            None => Ok(0),
        }
    }

    /// Notes the place of one more entry by its key, unless an earlier one has that.
    pub(crate) fn note(&mut self, key: Option<Key>, place: u64)
        requires room { HasRoom self.old (key ∷ []) }
        requires place { place < 4294967295 }
        ensures notes { Notes self.old key place self.new }
        ensures room { TakesRoom self.old key self.new }
    {
        if let Some(key) = key {
            match gate_of(key) {
                Some((side, var)) => self.merges.note(side, var, place),
                None => note_other(&mut self.others, key, place),
            }
        }
    }
}

/// The circuit and the variable of the gate that is merged.
fn gate_of(key: Key) -> Option<(Side, u32)>
    ensures { result ≡ gate_of key }
{
    match key {
        Key::On(Subject::Merged(Node::Gate(side, var))) => Some((side, var)),
        _ => None,
    }
}

/// Notes a place by a key that isn't a gate's, unless the key has one.
fn note_other(others: &mut Others, key: Key, place: u64)
    requires { 0 < spare others.old }
    ensures notes { (k : Key) → get same_key others.new k
        ≡ option_or (get same_key others.old k) (if same_key key k then Some place else None) }
    ensures spare { spare others.old ≤ spare others.new + 1 }
{
    if !others.contains_key(&key) {
        let _ = others.insert(key, place);
    }
}
