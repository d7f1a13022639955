use shared_equalities::Equalities;
use std::alloc::Global;

/// What the searches of one check share: the equalities that they found of pairs that the book leaves open, so that
/// no two of them search for one.
///
/// Each search has a copy, which `Search::exchange` brings up to date, so a search needs this no longer than that
/// takes. When each searched for all of them, four workers had 2.4 times the conflicts of one on an adder of 256
/// bits and 2.5 times on a Hamming decoder of 64 bits; now they have a fifth more, and a tenth. Nothing is claimed
/// of what it holds: each proof that uses it is judged by the book.
pub struct Shared {
    pub(crate) equalities: Equalities,
    /// Whether the pairs that the book leaves open were searched.
    pub(crate) is_searched: bool,
}

// Written out, so that a drop is one call and not one for each field at each exit of a function.
impl Drop for Shared {
    fn drop(self) {
        let Shared {
            equalities: _,
            is_searched: _,
        } = self;
    }
}

impl Shared {
    /// Nothing yet.
    pub fn new(alloc: Global) -> Shared {
        Shared {
            equalities: Equalities::new(alloc),
            is_searched: false,
        }
    }
}
