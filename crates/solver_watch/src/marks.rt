ghost use Rattle.std.specs.Prelude.{◌≡◌, ◌<◌, ◌≤◌, ℕ, [], true, false, length, slice_set, slice_index_or, OnOk};

use std::alloc::{AllocError, Global};
use std::marker::Model;

/// Marks of places, which are taken away without a pass over them: a place is marked where its stamp is
/// the latest one.
#[derive(Drop)]
pub(crate) struct Marks {
    stamps: Vec<u32>,
    latest: u32,
}

impl Model for Marks {
    ghost use Rattle.std.specs.Prelude.{List, Bool, ◌≤◌, map, nat_eq};
    ghost use Rattle.std.specs.List.{All};

    ghost Value = { List Bool };

    ghost view = { λ m. map (λ s. nat_eq s m.latest) m.stamps.items };

    ghost invariant = { λ m. All (λ s. s ≤ m.latest) m.stamps.items };
}

impl Marks {
    /// The marks of no place.
    pub(crate) fn new(alloc: Global) -> Marks
        ensures { result ≡ [] }
    {
        Marks {
            stamps: Vec::new(alloc),
            latest: 0,
        }
    }

    /// Takes all marks away, and makes room for so many places.
    pub(crate) fn clear(&mut self, count: usize) -> Result<(), AllocError>
        ensures room { OnOk result (count ≤ length self.new) }
        ensures none { OnOk result ((k : ℕ) → slice_index_or self.new k false ≡ false) }
    {
        if self.latest == u32::MAX {
            self.stamps.clear();
            self.latest = 0;
        }
        if self.stamps.len() < count {
            self.stamps.resize(count, 0)?;
        }
        self.latest += 1;
        Ok(())
    }

    /// Whether the place is marked.
    pub(crate) fn has(&self, place: usize) -> bool
        requires { place < length self.now }
        ensures { result ≡ slice_index_or self.now place false }
    {
        self.stamps[place] == self.latest
    }

    /// Marks the place.
    pub(crate) fn put(&mut self, place: usize)
        requires { place < length self.old }
        ensures { self.new ≡ slice_set self.old place true }
    {
        self.stamps[place] = self.latest;
    }
}
