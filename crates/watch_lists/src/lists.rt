ghost use Rattle.std.specs.Prelude.{◌≡◌, ◌<◌, ◌≤◌, ◌+◌, ℕ, map, ◌++◌, ◌∷◌, [], length, ◌-◌, take, slice_set, slice_index_or, OnOk, OnErr};
ghost use Rattle.std.specs.List.{swap_remove};
ghost use Rattle.watch_lists.specs.Lists.{AreSpare};
ghost use Rattle.watch_lists.specs.State.{blocked, list_at, no_watch, pushed};

use std::alloc::{AllocError, Global};
use std::marker::Model;

/// That a clause watches a literal. Where the blocker, another literal of the clause, is true, the
/// clause isn't read; nor is one of two literals, since the blocker is the other one.
#[derive(Clone, Copy)]
pub(crate) struct Watch {
    pub(crate) clause: u32,
    pub(crate) blocker: u32,
    pub(crate) is_two: bool,
}

/// The watches of each literal.
///
/// The first lists are in use. Those behind them are empty, and keep their memory for later.
#[derive(Drop)]
pub(crate) struct Lists {
    alloc: Global,
    lists: Vec<Vec<Watch>>,
    used: usize,
}

impl Model for Lists {
    ghost use Rattle.std.specs.Prelude.{List, map, take};
    ghost use Rattle.watch_lists.specs.Lists.{AreSpare};
    ghost use Rattle.watch_lists.specs.declared.lists.Watch.{Watch};

    ghost Value = { List (List Watch) };

    ghost view = { λ l. take l.used (map (λ v. v.items) l.lists.items) };

    ghost invariant = { λ l. AreSpare (map (λ v. v.items) l.lists.items) l.used };
}

impl Lists {
    pub(crate) fn new(alloc: Global) -> Lists
        ensures { result ≡ [] }
    {
        Lists {
            alloc,
            lists: Vec::new(alloc),
            used: 0,
        }
    }

    pub(crate) fn len(&self, lit: u32) -> usize
        requires { lit < length self.now }
        ensures { result ≡ length (list_at self.now lit) }
    {
        self.lists[lit as usize].len()
    }

    pub(crate) fn get(&self, lit: u32, at: usize) -> Watch
        requires lit { lit < length self.now }
        requires at { at < length (list_at self.now lit) }
        ensures { result ≡ slice_index_or (list_at self.now lit) at result }
    {
        self.lists[lit as usize][at]
    }

    pub(crate) fn push(&mut self, lit: u32, watch: Watch) -> Result<(), AllocError>
        requires { lit < length self.old }
        ensures ok { OnOk result (self.new ≡ slice_set self.old lit (list_at self.old lit ++ watch ∷ [])) }
        ensures err { OnErr result (self.new ≡ self.old) }
    {
        self.lists[lit as usize].push(watch)?;
        Ok(())
    }

    /// Gives a watch another blocker.
    pub(crate) fn block(&mut self, lit: u32, at: usize, blocker: u32)
        requires lit { lit < length self.old }
        requires at { at < length (list_at self.old lit) }
        ensures { self.new ≡ slice_set self.old lit (blocked (list_at self.old lit) at blocker) }
    {
        let clause = self.lists[lit as usize][at].clause;
        self.lists[lit as usize][at] = Watch {
            clause,
            blocker,
            is_two: false,
        };
    }

    /// Takes a watch away, and the last one comes to its place: the order of watches is free.
    pub(crate) fn drop_at(&mut self, lit: u32, at: usize)
        requires lit { lit < length self.old }
        requires at { at < length (list_at self.old lit) }
        ensures { self.new ≡ slice_set self.old lit
            (swap_remove (list_at self.old lit) at (slice_index_or (list_at self.old lit) at no_watch)) }
    {
        self.lists[lit as usize].swap_remove(at);
    }

    /// Takes the last watch of the literal away.
    fn drop_last(&mut self, lit: u32)
        requires { lit < length self.old }
        ensures { self.new
            ≡ slice_set self.old lit (take (length (list_at self.old lit) - 1) (list_at self.old lit)) }
    {
        let _last = self.lists[lit as usize].pop();
    }

    /// Pushes two watches, or none.
    pub(crate) fn push_two(
        &mut self,
        first: u32,
        one: Watch,
        second: u32,
        two: Watch,
    ) -> Result<(), AllocError>
        requires first { first < length self.old }
        requires second { second < length self.old }
        ensures ok { OnOk result (self.new ≡ pushed (pushed self.old first one) second two) }
        ensures err { OnErr result (self.new ≡ self.old) }
    {
        self.push(first, one)?;
        match self.push(second, two) {
            Ok(()) => Ok(()),
            Err(error) => {
                self.drop_last(first);
                Err(error)
            }
        }
    }

    /// Puts two empty lists last.
    pub(crate) fn grow(&mut self) -> Result<(), AllocError>
        ensures ok { OnOk result (self.new ≡ self.old ++ [] ∷ [] ∷ []) }
        ensures err { OnErr result (self.new ≡ self.old) }
    {
        add_spare(&mut self.lists, self.alloc, self.used)?;
        self.used += 2;
        Ok(())
    }

    /// Takes every list away, and keeps their memory.
    pub(crate) fn clear(&mut self)
        ensures { self.new ≡ [] }
    {
        clear_first(&mut self.lists, self.used);
        self.used = 0;
    }
}

/// Empties the first lists.
fn clear_first(lists: &mut Vec<Vec<Watch>>, count: usize)
    requires { count ≤ length lists.old.items }
    ensures size { length lists.new.items ≡ length lists.old.items }
    ensures below { (k : ℕ) → k < count → slice_index_or (map (λ v. v.items) lists.new.items) k [] ≡ [] }
    ensures rest { (k : ℕ) → count ≤ k → slice_index_or (map (λ v. v.items) lists.new.items) k []
        ≡ slice_index_or (map (λ v. v.items) lists.old.items) k [] }
{
    for at in 0..count {
        lists[at].clear();
    }
}

/// Sees that two lists at least are spare.
fn add_spare(lists: &mut Vec<Vec<Watch>>, alloc: Global, used: usize) -> Result<(), AllocError>
    requires { AreSpare (map (λ v. v.items) lists.old.items) used }
    ensures spare { AreSpare (map (λ v. v.items) lists.new.items) used }
    ensures same { take used (map (λ v. v.items) lists.new.items)
        ≡ take used (map (λ v. v.items) lists.old.items) }
    ensures room { OnOk result (used + 2 ≤ length lists.new.items) }
{
    if lists.len() - used < 2 {
        push_empty(lists, alloc, used)?;
        push_empty(lists, alloc, used)?;
    }
    Ok(())
}

/// One empty list more.
fn push_empty(lists: &mut Vec<Vec<Watch>>, alloc: Global, used: usize) -> Result<(), AllocError>
    requires { AreSpare (map (λ v. v.items) lists.old.items) used }
    ensures spare { AreSpare (map (λ v. v.items) lists.new.items) used }
    ensures same { take used (map (λ v. v.items) lists.new.items)
        ≡ take used (map (λ v. v.items) lists.old.items) }
    ensures more { OnOk result (length lists.new.items ≡ length lists.old.items + 1) }
{
    lists.push(Vec::new(alloc))?;
    Ok(())
}
