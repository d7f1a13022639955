ghost use Rattle.std.specs.Prelude.{◌≡◌, ◌<◌, ◌≤◌, ◌+◌, [], ◌∷◌, ◌++◌, length, drop, map, slice_get, vec_len, vec_capacity, IfOk, IfErr, IfSome, OnOk, OnErr};
ghost use Rattle.std.specs.Arc.{arc_value};
ghost use Rattle.std.specs.Option.{option_copied};
ghost use Rattle.lemma_book.specs.Shelf.{key_of, number_of};
ghost use Rattle.lemma_book.specs.Index.{IsIndex, FindsSame, HasRoom, TakesRoom};

use crate::entry::Entry;
use crate::index::{Index, Key};
use crate::merge_table::MOST;
use crate::packing::pack;
use std::alloc::{AllocError, Global};
use std::collections::VecDeque;
use std::marker::Model;
use std::sync::Arc;

/// Entries in order, shared, and an index from what they settle to their numbers.
#[derive(Drop)]
pub struct Shelf {
    entries: Vec<Arc<Entry>>,
    index: Index,
}

impl Model for Shelf {
    ghost use Rattle.std.specs.Prelude.{List, map};
    ghost use Rattle.std.specs.Arc.{arc_value};
    ghost use Rattle.lemma_book.specs.declared.entry.Entry.{Entry};
    ghost use Rattle.lemma_book.specs.Index.{IsIndex};

    ghost Value = { List Entry };

    ghost view = { λ s. map arc_value s.entries.items };

    ghost invariant = { λ s. IsIndex (map arc_value s.entries.items) s.index };
}

impl Shelf {
    /// No entries.
    pub fn new(alloc: Global) -> Shelf
        ensures { result ≡ [] }
    {
        Shelf {
            entries: Vec::new(alloc),
            index: Index::new(alloc),
        }
    }

    /// How many entries there are.
    pub fn len(&self) -> u64
        ensures { result ≡ length self.now }
    {
        self.entries.len() as u64
    }

    /// Entry `i`, if there are so many.
    pub fn entry(&self, i: u64) -> Option<&Entry>
        ensures { option_copied result ≡ slice_get self.now i }
    {
        match self.entries.get(i as usize) {
            Some(entry) => Some(&**entry),
            None => None,
        }
    }

    /// Puts an entry last. Where memory is refused the entry comes back and nothing has changed.
    pub fn push(&mut self, alloc: Global, entry: Entry) -> Result<(), (Entry, AllocError)>
        ensures ok { OnOk result (self.new ≡ self.old ++ entry ∷ []) }
        ensures err { OnErr result (self.new ≡ self.old) }
        ensures returned { IfErr result (λ e. e.0 ≡ entry) }
    {
        if make_room(&mut self.entries, &mut self.index, entry.key()).is_err() {
            return Err((entry, AllocError));
        }
        let mut entry = entry;
        pack(alloc, &mut entry);
        match Arc::new(alloc, entry) {
            Ok(shared) => {
                put(&mut self.entries, &mut self.index, shared);
                Ok(())
            }
            Err(failed) => Err((failed.value, AllocError)),
        }
    }

    /// Puts entry `i` of another list last, shared with it. Where memory is refused nothing has changed.
    pub fn push_shared(&mut self, from: &Shelf, i: u64) -> Result<(), AllocError>
        requires { i < length from.now }
        ensures ok { OnOk result (IfSome (slice_get from.now i) (λ e. self.new ≡ self.old ++ e ∷ [])) }
        ensures err { OnErr result (self.new ≡ self.old) }
    {
        let shared = Arc::try_clone(&from.entries[i as usize])?;
        make_room(&mut self.entries, &mut self.index, shared.key())?;
        put(&mut self.entries, &mut self.index, shared);
        Ok(())
    }

    /// Appends what a longer list has behind these entries, shared with it. Where memory is refused
    /// nothing has changed.
    pub fn catch_up(&mut self, alloc: Global, longer: &Shelf) -> Result<(), AllocError>
        requires { length self.old ≤ length longer.now }
        ensures ok { OnOk result (self.new ≡ self.old ++ drop (length self.old) longer.now) }
        ensures err { OnErr result (self.new ≡ self.old) }
    {
        if longer.entries.len() > MOST {
            return Err(AllocError);
        }
        let known = self.entries.len();
        let behind = &longer.entries[known..];
        let more = shared(alloc, behind)?;
        self.entries.reserve(more.len())?;
        self.index.make_room_for(behind)?;
        put_all(&mut self.entries, &mut self.index, more);
        Ok(())
    }

    /// The number of the first entry with the key.
    pub fn number(&self, key: Key) -> Option<u64>
        ensures { result ≡ number_of self.now key }
    {
        self.index.place(key)
    }
}

/// The entries, each shared once more.
fn shared(alloc: Global, entries: &[Arc<Entry>]) -> Result<VecDeque<Arc<Entry>>, AllocError>
    ensures { IfOk result (λ q. map arc_value q.items ≡ map arc_value entries.now) }
{
    let mut all = VecDeque::new(alloc);
    for entry in entries {
        all.push_back(Arc::try_clone(entry)?)?;
    }
    Ok(all)
}

/// Makes room for one more entry, which has this key.
fn make_room(
    entries: &mut Vec<Arc<Entry>>,
    index: &mut Index,
    key: Option<Key>,
) -> Result<(), AllocError>
    ensures few { OnOk result (vec_len entries.new < 4294967295) }
    ensures room { OnOk result (vec_len entries.new < vec_capacity entries.new) }
    ensures index { OnOk result (HasRoom index.new (key ∷ [])) }
    ensures entries { entries.new.items ≡ entries.old.items }
    ensures keeps { FindsSame index.old index.new }
{
    if entries.len() >= MOST {
        return Err(AllocError);
    }
    entries.reserve(1)?;
    index.make_room(key)
}

/// Puts the entries last, one by one, for which there is room.
fn put_all(entries: &mut Vec<Arc<Entry>>, index: &mut Index, more: VecDeque<Arc<Entry>>)
    requires index { IsIndex (map arc_value entries.old.items) index.old }
    requires few { vec_len entries.old + length more.items ≤ 4294967295 }
    requires room { vec_len entries.old + length more.items ≤ vec_capacity entries.old }
    requires keys { HasRoom index.old (map key_of (map arc_value more.items)) }
    ensures index { IsIndex (map arc_value entries.new.items) index.new }
    ensures entries { map arc_value entries.new.items
        ≡ map arc_value entries.old.items ++ map arc_value more.items }
{
    let mut more = more;
    while let Some(entry) = more.pop_front() {
        put(entries, index, entry);
    }
}

/// Puts an entry last, for which there is room.
fn put(entries: &mut Vec<Arc<Entry>>, index: &mut Index, entry: Arc<Entry>)
    requires index { IsIndex (map arc_value entries.old.items) index.old }
    requires few { vec_len entries.old < 4294967295 }
    requires room { vec_len entries.old < vec_capacity entries.old }
    requires key { HasRoom index.old (key_of (arc_value entry) ∷ []) }
    ensures index { IsIndex (map arc_value entries.new.items) index.new }
    ensures entries { entries.new.items ≡ entries.old.items ++ entry ∷ [] }
    ensures capacity { vec_capacity entries.new ≡ vec_capacity entries.old }
    ensures taken { TakesRoom index.old (key_of (arc_value entry)) index.new }
{
    index.note(entry.key(), entries.len() as u64);
    entries.push_reserved(entry);
}
