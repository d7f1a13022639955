ghost use Rattle.std.specs.Prelude.{◌≡◌, false, [], ◌∷◌, ◌++◌, Some, slice_get, IfOk, IfSome, IfNone, OnOk, OnErr, if◌then◌else◌};
ghost use Rattle.lits.specs.Clause.{has, firsts};
ghost use Rattle.lits.specs.Finder.{HasOwnCodes};

use crate::chains::Chains;
use crate::finder::Finder;
use crate::literal::Literal;
use crate::marks::Marks;
use std::alloc::{AllocError, Global};
use std::marker::Model;

/// Literals in the order in which they came, each once. A few are looked through, and among more one is found
/// in constant time on average; in a set that has marks, in one look.
pub struct LiteralSet<L: Literal> {
    order: Vec<L>,
    finder: Finder,
}

// Written out, so that a drop is one call and not one for each field at each exit of a function.
impl<L: Literal> Drop for LiteralSet<L> {
    fn drop(self) {
        let LiteralSet {
            order: _,
            finder: _,
        } = self;
    }
}

impl<L: Literal> Model for LiteralSet<L> {
    ghost use Rattle.std.specs.Prelude.{List};
    ghost use Rattle.lits.specs.Finder.{IsFinder};

    ghost Value = { List L };

    ghost view = { λ s. s.order.items };

    ghost invariant = { λ s. IsFinder L.PartialEq.eq L.Literal.code s.order.items s.finder };
}

impl<L: Literal> LiteralSet<L> {
    /// The empty set.
    pub fn new(alloc: Global) -> LiteralSet<L>
        ensures { result ≡ [] }
    {
        LiteralSet {
            order: Vec::new(alloc),
            finder: Finder::Chains(Chains::new(alloc)),
        }
    }

    /// The empty set, with room for so many literals.
    pub fn with_capacity(alloc: Global, capacity: usize) -> Result<LiteralSet<L>, AllocError>
        ensures { IfOk result (λ s. s ≡ []) }
    {
        Ok(LiteralSet {
            order: Vec::with_capacity(alloc, capacity)?,
            finder: Finder::Chains(Chains::new(alloc)),
        })
    }

    /// The empty set, which finds each literal in one look by a mark for each code. The marks take a byte for
    /// each code up to the greatest that the set ever has, so this is for a set that is kept and emptied often.
    pub fn marked(alloc: Global) -> LiteralSet<L>
        requires { HasOwnCodes L.Literal.code }
        ensures { result ≡ [] }
    {
        LiteralSet {
            order: Vec::new(alloc),
            finder: Finder::Marks(Marks::new(alloc)),
        }
    }

    /// The literals of a list, each at its first place.
    pub fn of(alloc: Global, lits: &[L]) -> Result<LiteralSet<L>, AllocError>
        ensures { IfOk result (λ s. s ≡ firsts L.PartialEq.eq lits.now) }
    {
        let mut set = LiteralSet::new(alloc);
        for lit in lits {
            set.add(*lit)?;
        }
        Ok(set)
    }

    /// Whether the literal is in the set.
    pub fn has(&self, lit: L) -> bool
        ensures { result ≡ has L.PartialEq.eq self.now lit }
    {
        self.finder.has(self.order.as_slice(), lit)
    }

    /// The place of a literal, from 0; none exactly where the set hasn't the literal.
    pub fn place(&self, lit: L) -> Option<usize>
        ensures some { IfSome result (λ place. slice_get self.now place ≡ Some lit) }
        ensures none { IfNone result (has L.PartialEq.eq self.now lit ≡ false) }
    {
        self.finder.place(self.order.as_slice(), lit)
    }

    /// Puts a literal last, unless it is there already.
    pub fn add(&mut self, lit: L) -> Result<(), AllocError>
        ensures ok { OnOk result
            (self.new ≡ (if has L.PartialEq.eq self.old lit then self.old else self.old ++ lit ∷ [])) }
        ensures err { OnErr result (self.new ≡ self.old) }
    {
        if !self.has(lit) {
            self.push(lit)?;
        }
        Ok(())
    }

    /// Puts a literal last that the set hasn't.
    pub fn push(&mut self, lit: L) -> Result<(), AllocError>
        requires { has L.PartialEq.eq self.old lit ≡ false }
        ensures ok { OnOk result (self.new ≡ self.old ++ lit ∷ []) }
        ensures err { OnErr result (self.new ≡ self.old) }
    {
        self.order.reserve(1)?;
        let alloc = *self.order.allocator();
        self.finder.expect(alloc, self.order.as_slice(), lit)?;
        self.order.push_reserved(lit);
        Ok(())
    }

    /// Takes every literal out.
    pub fn clear(&mut self)
        ensures { self.new ≡ [] }
    {
        self.finder.forget(self.order.as_slice());
        self.order.clear();
    }

    /// The literals, in the order in which they came.
    pub fn lits(&self) -> &[L]
        ensures { result.now ≡ self.now }
    {
        self.order.as_slice()
    }

    /// The literals as a vector, in the order in which they came.
    pub fn into_vec(self) -> Vec<L>
        ensures { result.items ≡ self }
    {
        let LiteralSet { order, finder: _ } = self;
        order
    }
}
