ghost use Rattle.std.specs.Prelude.{◌≡◌, ◌≢◌, [], ◌∷◌};
ghost use Rattle.netlist.specs.Short.{kept_clause, IsShort};

use lits::{Lit, Literal};
use std::marker::Model;

/// A clause of at most three literals, held by value.
#[derive(Drop)]
pub struct Short {
    lits: [Lit; 3],
    len: usize,
}

impl Model for Short {
    ghost use Rattle.std.specs.Prelude.{◌≤◌, List, take};
    ghost use Rattle.lits.specs.declared.literal.Lit.{Lit};
    ghost use Rattle.lits.specs.Clause.{IsClause};
    ghost use Rattle.lits.specs.Same.{same_lit, opposite};

    ghost Value = { List Lit };

    ghost view = { λ s. take s.len s.lits };

    ghost invariant = { λ s. (s.len ≤ 3) × IsClause same_lit opposite (take s.len s.lits) };
}

impl Short {
    /// The literals, in order.
    pub fn lits(&self) -> &[Lit]
        ensures lits { result.now ≡ self.now }
        ensures short { IsShort self.now }
    {
        &self.lits[..self.len]
    }

    /// The same clause once more.
    pub(crate) fn copy(&self) -> Short
        ensures { result ≡ self.now }
    {
        Short {
            lits: self.lits,
            len: self.len,
        }
    }

    /// The clause of no literal.
    pub(crate) fn empty() -> Short
        ensures { result ≡ [] }
    {
        Short {
            lits: [Lit::default(); 3],
            len: 0,
        }
    }

    /// The clause of one literal.
    pub(crate) fn of_one(lit: Lit) -> Short
        ensures { result ≡ lit ∷ [] }
    {
        Short {
            lits: [lit, Lit::default(), Lit::default()],
            len: 1,
        }
    }

    /// The clause of two literals over two nodes.
    pub(crate) fn of_two(first: Lit, second: Lit) -> Short
        requires { first.node ≢ second.node }
        ensures { result ≡ first ∷ second ∷ [] }
    {
        Short {
            lits: [first, second, Lit::default()],
            len: 2,
        }
    }

    /// The clause of three literals, the first over a node of its own; none where the others are each other's
    /// negation.
    pub(crate) fn of_three(first: Lit, second: Lit, third: Lit) -> Option<Short>
        requires second { first.node ≢ second.node }
        requires third { first.node ≢ third.node }
        ensures { result ≡ kept_clause (first ∷ second ∷ third ∷ []) }
    {
        if third == second.not() {
            return None;
        }
        if second == third {
            return Some(Short::of_two(first, second));
        }
        Some(Short {
            lits: [first, second, third],
            len: 3,
        })
    }
}
