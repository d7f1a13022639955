ghost use Rattle.std.specs.Prelude.{◌≡◌, ◌+◌, ◌<◌, ◌≤◌, ◌^◌, ◌==◌, ◌||◌, ℕ, true, false, None, Some, if◌then◌else◌, IfSome, OnOk};
ghost use Rattle.flat_cones.specs.Spots.{is_marked, number_at, spot_at};

use std::alloc::{AllocError, Global};
use std::marker::Model;

/// The query that marked a variable last, and the number that the variable got there, counted from 1; 0 is
/// none.
#[derive(Clone, Copy)]
pub(crate) struct Spot {
    stamp: u32,
    number: u32,
}

/// A spot for each variable, up to the greatest that was asked for.
///
/// What an earlier query left has another stamp, so nothing is cleared between two queries.
#[derive(Drop)]
pub(crate) struct Spots {
    stamp: u32,
    spots: Vec<Spot>,
}

impl Model for Spots {
    ghost use Rattle.std.specs.Prelude.{◌≤◌, ◌^◌, length};
    ghost use Rattle.std.specs.List.{AllByRecursion};
    ghost use Rattle.flat_cones.specs.Spots.{Table};

    ghost Value = { Table };

    ghost view = { λ s. record { stamp = s.stamp; spots = s.spots.items } };

    ghost invariant = { λ s. (1 ≤ s.stamp) × (length s.spots.items ≤ 2 ^ 31)
        × AllByRecursion (λ p. p.stamp ≤ s.stamp) s.spots.items
        × AllByRecursion (λ p. p.number ≤ 2 ^ 31) s.spots.items };
}

impl Spots {
    /// No variable is marked.
    pub(crate) fn new(alloc: Global) -> Spots
        ensures { (v : ℕ) → is_marked result v ≡ false }
    {
        Spots {
            stamp: 1,
            spots: Vec::new(alloc),
        }
    }

    /// How many spots there are.
    pub(crate) fn len(&self) -> u32
        ensures { (v : ℕ) → is_marked self.now v ≡ true → v < result }
    {
        self.spots.len() as u32
    }

    /// Begins another query, in which no variable is marked yet.
    pub(crate) fn move_on(&mut self)
        ensures { (v : ℕ) → is_marked self.new v ≡ false }
    {
        if self.stamp == u32::MAX {
            self.spots.clear();
            self.stamp = 1;
        } else {
            self.stamp += 1;
        }
    }

    /// Whether the variable is marked.
    pub(crate) fn is_marked(&self, variable: u32) -> bool
        ensures { result ≡ is_marked self.now variable }
    {
        match self.spots.get(variable as usize) {
            Some(spot) => spot.stamp == self.stamp,
            None => false,
        }
    }

    /// The number of a marked variable; none where it is unmarked, or has no number yet.
    pub(crate) fn number(&self, variable: u32) -> Option<u32>
        ensures number { result ≡ number_at self.now variable }
        ensures small { IfSome result (λ k. k < 2 ^ 31) }
    {
        match self.spots.get(variable as usize) {
            Some(spot) => if spot.stamp == self.stamp && spot.number > 0 {
                Some(spot.number - 1)
            } else {
                None
            },
            None => None,
        }
    }

    /// Marks a variable that isn't marked. It has no number.
    pub(crate) fn mark(&mut self, variable: u32) -> Result<(), AllocError>
        requires small { variable < 2 ^ 31 }
        requires unmarked { is_marked self.old variable ≡ false }
        ensures marks { OnOk result
            ((v : ℕ) → is_marked self.new v ≡ (is_marked self.old v || variable == v)) }
        ensures numbers { OnOk result ((v : ℕ) → number_at self.new v ≡ number_at self.old v) }
    {
        self.put(variable, 0)
    }

    /// Gives a variable a number.
    pub(crate) fn set_number(&mut self, variable: u32, number: u32) -> Result<(), AllocError>
        requires small { variable < 2 ^ 31 }
        requires number { number < 2 ^ 31 }
        ensures { OnOk result
            ((v : ℕ) → number_at self.new v ≡ (if variable == v then Some number else number_at self.old v)) }
    {
        self.put(variable, number + 1)
    }

    /// Writes a spot. The table grows to it.
    fn put(&mut self, variable: u32, number: u32) -> Result<(), AllocError>
        requires variable { variable < 2 ^ 31 }
        requires number { number ≤ 2 ^ 31 }
        ensures stamp { OnOk result (self.new.stamp ≡ self.old.stamp) }
        ensures spots { OnOk result ((v : ℕ) → spot_at self.new v
            ≡ (if variable == v then record { stamp = self.old.stamp; number = number } else spot_at self.old v)) }
    {
        let place = variable as usize;
        if place >= self.spots.len() {
            self.spots.resize(
                place + 1,
                Spot {
                    stamp: 0,
                    number: 0,
                },
            )?;
        }
        let stamp = self.stamp;
        self.spots[place] = Spot { stamp, number };
        Ok(())
    }
}
