ghost use Rattle.std.specs.Prelude.{◌≡◌, ◌++◌, false, [], ◌∷◌, Some, slice_get, OnOk, OnErr, IfSome, IfNone};
ghost use Rattle.lits.specs.Clause.{has};
ghost use Rattle.lits.specs.Finder.{IsFinder};

use crate::chains::{Chains, place_in};
use crate::literal::Literal;
use crate::marks::Marks;
use std::alloc::{AllocError, Global};

/// How a set finds its literals.
#[derive(Drop)]
pub(crate) enum Finder {
    /// For a set of any literals: its memory is that of the set.
    Chains(Chains),
    /// For a set that is kept: its memory is that of the greatest code.
    Marks(Marks),
}

impl Finder {
    /// Whether the literal is in the list.
    pub(crate) fn has<L: Literal>(&self, lits: &[L], lit: L) -> bool
        requires { IsFinder L.PartialEq.eq L.Literal.code lits.now self.now }
        ensures { result ≡ has L.PartialEq.eq lits.now lit }
    {
        match self {
            Finder::Chains(chains) => chains.has(lits, lit),
            Finder::Marks(marks) => marks.has(lit.code()),
        }
    }

    /// A place of the literal in the list, if there is one.
    pub(crate) fn place<L: Literal>(&self, lits: &[L], lit: L) -> Option<usize>
        requires { IsFinder L.PartialEq.eq L.Literal.code lits.now self.now }
        ensures some { IfSome result (λ place. slice_get lits.now place ≡ Some lit) }
        ensures none { IfNone result (has L.PartialEq.eq lits.now lit ≡ false) }
    {
        match self {
            Finder::Chains(chains) => chains.place(lits, lit),
            Finder::Marks(_) => place_in(lits, lit),
        }
    }

    /// Makes ready for one literal more behind the list.
    pub(crate) fn expect<L: Literal>(
        &mut self,
        alloc: Global,
        lits: &[L],
        next: L,
    ) -> Result<(), AllocError>
        requires { IsFinder L.PartialEq.eq L.Literal.code lits.now self.old }
        ensures ok { OnOk result
            (IsFinder L.PartialEq.eq L.Literal.code (lits.now ++ next ∷ []) self.new) }
        ensures err { OnErr result (IsFinder L.PartialEq.eq L.Literal.code lits.now self.new) }
    {
        match self {
            Finder::Chains(chains) => chains.expect(alloc, lits, next),
            Finder::Marks(marks) => marks.expect(lits, next),
        }
    }

    /// Makes ready for the empty list.
    pub(crate) fn forget<L: Literal>(&mut self, lits: &[L])
        requires { IsFinder L.PartialEq.eq L.Literal.code lits.now self.old }
        ensures { IsFinder L.PartialEq.eq L.Literal.code [] self.new }
    {
        match self {
            Finder::Chains(_) => {}
            Finder::Marks(marks) => marks.take_back(lits),
        }
    }
}
