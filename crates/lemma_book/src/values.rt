ghost use Rattle.std.specs.Prelude.{◌≡◌, ◌≢◌, ◌<◌, ℕ, None, Some, length, OnOk, OnErr};
ghost use Rattle.lemma_book.specs.ConeValue.{known_at, AreListed};

use std::alloc::{AllocError, Global};
use std::marker::Model;

/// Values of nodes on one input, by position, as far as they are known.
///
/// The table is kept from input to input, and what was known is taken back one by one: to clear all of it for
/// each input would be the work of the net where that of a cone is enough.
#[derive(Drop)]
pub(crate) struct Values {
    values: Vec<Option<bool>>,
    /// The positions whose value is known.
    known: Vec<u32>,
}

impl Model for Values {
    ghost use Rattle.std.specs.Prelude.{List, Option, Bool};
    ghost use Rattle.lemma_book.specs.ConeValue.{AreListed};

    ghost Value = { List (Option Bool) };

    ghost view = { λ v. v.values.items };

    ghost invariant = { λ v. AreListed v.values.items v.known.items };
}

impl Values {
    /// No value is known.
    pub(crate) fn new(alloc: Global) -> Values
        ensures { (p : ℕ) → known_at result p ≡ None }
    {
        Values {
            values: Vec::new(alloc),
            known: Vec::new(alloc),
        }
    }

    /// The value of the node at a position, if it is known.
    pub(crate) fn at(&self, position: u32) -> Option<bool>
        ensures { result ≡ known_at self.now position }
    {
        match self.values.get(position as usize) {
            Some(value) => *value,
            None => None,
        }
    }

    /// Makes room for the value at a position.
    fn make_room(&mut self, position: u32) -> Result<(), AllocError>
        ensures room { OnOk result (position < length self.new) }
        ensures values { (p : ℕ) → known_at self.new p ≡ known_at self.old p }
    {
        let room = position as usize + 1;
        if self.values.len() < room {
            self.values.resize(room, None)?;
        }
        Ok(())
    }

    /// Notes the value of the node at a position.
    pub(crate) fn note(&mut self, position: u32, value: bool) -> Result<(), AllocError>
        ensures value { OnOk result (known_at self.new position ≡ Some value) }
        ensures others { (p : ℕ) → p ≢ position → known_at self.new p ≡ known_at self.old p }
        ensures err { OnErr result ((p : ℕ) → known_at self.new p ≡ known_at self.old p) }
    {
        self.make_room(position)?;
        self.known.push(position)?;
        self.values[position as usize] = Some(value);
        Ok(())
    }

    /// Forgets all values.
    pub(crate) fn forget(&mut self)
        ensures { (p : ℕ) → known_at self.new p ≡ None }
    {
        forget_all(&mut self.values, self.known.as_slice());
        self.known.clear();
    }
}

/// Forgets the values at the listed positions, which are all that are known.
fn forget_all(values: &mut Vec<Option<bool>>, listed: &[u32])
    requires { AreListed values.old.items listed.now }
    ensures { (p : ℕ) → known_at values.new.items p ≡ None }
{
    for position in listed {
        forget_at(values, *position);
    }
}

/// Forgets the value at a position.
fn forget_at(values: &mut Vec<Option<bool>>, position: u32)
    ensures at { known_at values.new.items position ≡ None }
    ensures others { (p : ℕ) → p ≢ position → known_at values.new.items p ≡ known_at values.old.items p }
{
    let at = position as usize;
    if at < values.len() {
        values[at] = None;
    }
}
