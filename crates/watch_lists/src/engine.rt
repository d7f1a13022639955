ghost use Rattle.std.specs.Prelude.{◌≡◌, ◌<◌, true, false, length, OnOk, OnErr};
ghost use Rattle.watch_lists.specs.Step.{IsPut, IsSame, IsGrown, IsEmpty};

use crate::flat::Flat;
use crate::lists::Lists;
use std::alloc::{AllocError, Global};

/// The two watched literals of a clause.
#[derive(Clone, Copy)]
pub(crate) struct Pair {
    pub(crate) first: u32,
    pub(crate) second: u32,
}

/// Where a level began, and what had been propagated then.
#[derive(Clone, Copy)]
pub(crate) struct Level {
    pub(crate) start: usize,
    pub(crate) head: usize,
}

/// A trail over codes, with two watched literals a clause (Moskewicz, Madigan, Zhao, Zhang and Malik
/// 2001; blocking literals by Sörensson and Eén).
///
/// Watches stay as they are when levels are given up. Clauses that were added since the last
/// propagation have none yet: `pairs` has those of the first clauses only.
pub(crate) struct Engine {
    /// The clauses as they were added.
    pub(crate) clauses: Flat,
    /// The watched literals of the first of them. They stand apart, so that each clause is there once and stays
    /// as it was added: a second copy with these two in front took some 200 instructions a clause at the start.
    pub(crate) pairs: Vec<Pair>,
    /// The watches of each literal.
    pub(crate) lists: Lists,
    /// Whether each literal is on the trail.
    pub(crate) truth: Vec<bool>,
    /// The place of each literal that is on the trail.
    pub(crate) places: Vec<usize>,
    pub(crate) trail: Vec<u32>,
    /// For each literal of the trail the clause that forced it; None for a decision.
    pub(crate) reasons: Vec<Option<u32>>,
    pub(crate) levels: Vec<Level>,
    /// How much of the trail has been propagated.
    pub(crate) head: usize,
}

// Written out, so that a drop is one call and not one for each field at each exit of a function.
impl Drop for Engine {
    fn drop(self) {
        let Engine {
            clauses: _,
            pairs: _,
            lists: _,
            truth: _,
            places: _,
            trail: _,
            reasons: _,
            levels: _,
            head: _,
        } = self;
    }
}

/// What became of a watch.
pub(crate) enum Visit {
    /// It stays.
    Next,
    /// It went to another literal.
    Gone,
    /// Its clause is wholly negated.
    Conflict(u32),
}

impl Engine {
    pub(crate) fn new(alloc: Global) -> Engine
        ensures { IsEmpty result }
    {
        Engine {
            clauses: Flat::new(alloc),
            pairs: Vec::new(alloc),
            lists: Lists::new(alloc),
            truth: Vec::new(alloc),
            places: Vec::new(alloc),
            trail: Vec::new(alloc),
            reasons: Vec::new(alloc),
            levels: Vec::new(alloc),
            head: 0,
        }
    }

    /// Gives everything up, and keeps the memory.
    pub(crate) fn clear(&mut self)
        ensures { IsEmpty self.new }
    {
        self.clauses.clear();
        self.pairs.clear();
        self.lists.clear();
        self.truth.clear();
        self.places.clear();
        self.trail.clear();
        self.reasons.clear();
        self.levels.clear();
        self.head = 0;
    }

    /// Makes room for the two literals of one more variable.
    pub(crate) fn grow(&mut self) -> Result<(), AllocError>
        ensures ok { OnOk result (IsGrown self.old self.new) }
        ensures err { OnErr result (IsSame self.old self.new) }
    {
        self.truth.reserve(2)?;
        self.places.reserve(2)?;
        self.lists.grow()?;
        self.truth.push_reserved(false);
        self.truth.push_reserved(false);
        self.places.push_reserved(0);
        self.places.push_reserved(0);
        Ok(())
    }

    /// Puts a literal that is free, for that reason.
    pub(crate) fn put(&mut self, lit: u32, by: Option<u32>) -> Result<(), AllocError>
        requires within { lit < length self.old.truth.items }
        requires places { length self.old.places.items ≡ length self.old.truth.items }
        ensures ok { OnOk result (IsPut self.old lit by self.new) }
        ensures err { OnErr result (IsSame self.old self.new) }
        ensures room { self.new.levels ≡ self.old.levels }
    {
        self.trail.reserve(1)?;
        self.reasons.reserve(1)?;
        self.places[lit as usize] = self.trail.len();
        self.trail.push_reserved(lit);
        self.reasons.push_reserved(by);
        self.truth[lit as usize] = true;
        Ok(())
    }
}
