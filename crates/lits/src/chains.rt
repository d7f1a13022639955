ghost use Rattle.std.specs.Prelude.{◌≡◌, ◌+◌, ◌<◌, [], ◌∷◌, ◌++◌, false, replicate, length, slice_set, slice_get, Some, OnOk, OnErr, IfOk, IfSome, IfNone};
ghost use Rattle.lits.specs.Clause.{has};
ghost use Rattle.lits.specs.Chains.{IsIndex, IsReady, first_of, slot_of};

use crate::literal::Literal;
use std::alloc::{AllocError, Global};

/// 2 to the 64, divided by the golden ratio.
const MULTIPLIER: u64 = 11_400_714_819_323_198_485;

/// Among so many literals one is found by looking through them, which is as fast and needs no memory.
const FEW: usize = 16;

/// Finds literals in a list. A few are looked through; among more it goes by chains of places, one for each
/// of the slots over which their codes are spread (hashing with separate chaining; Knuth, The Art of Computer
/// Programming 6.4).
///
/// A place is named by its number and 1, and 0 ends a chain. Heads that stay behind from earlier lists do no
/// harm, since what a chain finds is compared: so the index is emptied without a pass over the heads.
#[derive(Drop)]
pub(crate) struct Chains {
    /// The last place of each slot.
    heads: Vec<usize>,
    /// For each place the one before it in its chain.
    links: Vec<usize>,
}

impl Chains {
    /// The index of no literal.
    pub(crate) fn new(alloc: Global) -> Chains
        ensures { (result.heads.items ≡ []) × (result.links.items ≡ []) }
    {
        Chains {
            heads: Vec::new(alloc),
            links: Vec::new(alloc),
        }
    }

    /// The same with so many slots.
    fn with_slots(alloc: Global, count: usize) -> Result<Chains, AllocError>
        ensures heads { IfOk result (λ c. c.heads.items ≡ replicate count 0) }
        ensures links { IfOk result (λ c. c.links.items ≡ []) }
    {
        Ok(Chains {
            heads: vec![in alloc; 0; count]?,
            links: Vec::new(alloc),
        })
    }

    /// Puts the literals into an empty index, in order.
    fn add_all<L: Literal>(&mut self, lits: &[L]) -> Result<(), AllocError>
        requires slots { 0 < length self.old.heads.items }
        requires empty { self.old.links.items ≡ [] }
        ensures index { OnOk result
            (IsIndex L.Literal.code self.new.heads.items self.new.links.items lits.now) }
        ensures slots { OnOk result (length self.new.heads.items ≡ length self.old.heads.items) }
    {
        for lit in lits {
            self.add(lit.code())?;
        }
        Ok(())
    }

    /// Makes the index that of the literals, with more slots than places.
    fn make_room<L: Literal>(&mut self, alloc: Global, lits: &[L]) -> Result<(), AllocError>
        requires { IsReady L.Literal.code self.old.heads.items self.old.links.items lits.now }
        ensures index { OnOk result
            (IsIndex L.Literal.code self.new.heads.items self.new.links.items lits.now) }
        ensures room { OnOk result (0 < length self.new.heads.items) }
        ensures err { OnErr result
            (IsReady L.Literal.code self.new.heads.items self.new.links.items lits.now) }
    {
        let count = self.heads.len();
        if lits.len() >= count {
            let mut chains = Chains::with_slots(alloc, count.saturating_mul(2).max(2 * FEW))?;
            chains.add_all(lits)?;
            *self = chains;
        } else if lits.len() <= FEW {
            self.links.clear();
            self.add_all(lits)?;
        }
        Ok(())
    }

    /// The last place of the code's chain.
    fn first(&self, code: u64) -> usize
        ensures { result ≡ first_of self.now.heads.items self.now.links.items code }
    {
        if self.heads.is_empty() {
            return 0;
        }
        let head = self.heads[slot(code, self.heads.len())];
        if head <= self.links.len() { head } else { 0 }
    }

    /// Puts the next place at the front of the code's chain.
    fn add(&mut self, code: u64) -> Result<(), AllocError>
        requires { 0 < length self.old.heads.items }
        ensures links { OnOk result (self.new.links.items
            ≡ self.old.links.items ++ first_of self.old.heads.items self.old.links.items code ∷ []) }
        ensures heads { OnOk result (self.new.heads.items
            ≡ slice_set self.old.heads.items (slot_of code (length self.old.heads.items))
            (length self.old.links.items + 1)) }
        ensures err { OnErr result
            ((self.new.links.items ≡ self.old.links.items) × (self.new.heads.items ≡ self.old.heads.items)) }
    {
        let first = self.first(code);
        self.links.push(first)?;
        let at = slot(code, self.heads.len());
        self.heads[at] = self.links.len();
        Ok(())
    }

    /// Whether the literal is in the list.
    pub(crate) fn has<L: Literal>(&self, lits: &[L], lit: L) -> bool
        requires { IsReady L.Literal.code self.now.heads.items self.now.links.items lits.now }
        ensures { result ≡ has L.PartialEq.eq lits.now lit }
    {
        self.place(lits, lit).is_some()
    }

    /// A place of the literal in the list, if there is one.
    pub(crate) fn place<L: Literal>(&self, lits: &[L], lit: L) -> Option<usize>
        requires { IsReady L.Literal.code self.now.heads.items self.now.links.items lits.now }
        ensures some { IfSome result (λ place. slice_get lits.now place ≡ Some lit) }
        ensures none { IfNone result (has L.PartialEq.eq lits.now lit ≡ false) }
    {
        if lits.len() <= FEW {
            place_in(lits, lit)
        } else {
            self.find(lits, lit)
        }
    }

    /// The same by the index.
    fn find<L: Literal>(&self, lits: &[L], lit: L) -> Option<usize>
        requires { IsIndex L.Literal.code self.now.heads.items self.now.links.items lits.now }
        ensures some { IfSome result (λ place. slice_get lits.now place ≡ Some lit) }
        ensures none { IfNone result (has L.PartialEq.eq lits.now lit ≡ false) }
    {
        let mut next = self.first(lit.code());
        while next > 0 {
            let place = next - 1;
            if lits[place] == lit {
                return Some(place);
            }
            next = self.links[place];
        }
        None
    }

    /// Makes ready for one literal more behind the list.
    pub(crate) fn expect<L: Literal>(
        &mut self,
        alloc: Global,
        lits: &[L],
        next: L,
    ) -> Result<(), AllocError>
        requires { IsReady L.Literal.code self.old.heads.items self.old.links.items lits.now }
        ensures ok { OnOk result
            (IsReady L.Literal.code self.new.heads.items self.new.links.items (lits.now ++ next ∷ [])) }
        ensures err { OnErr result
            (IsReady L.Literal.code self.new.heads.items self.new.links.items lits.now) }
    {
        if lits.len() >= FEW {
            self.make_room(alloc, lits)?;
            self.add(next.code())?;
        }
        Ok(())
    }
}

/// The same by looking through the list.
pub(crate) fn place_in<L: Literal>(lits: &[L], lit: L) -> Option<usize>
    ensures some { IfSome result (λ place. slice_get lits.now place ≡ Some lit) }
    ensures none { IfNone result (has L.PartialEq.eq lits.now lit ≡ false) }
{
    for (place, other) in lits.iter().enumerate() {
        if *other == lit {
            return Some(place);
        }
    }
    None
}

/// The slot of a code among so many.
fn slot(code: u64, count: usize) -> usize
    requires { 0 < count }
    ensures value { result ≡ slot_of code count }
    ensures within { result < count }
{
    let spread = code.wrapping_mul(MULTIPLIER);
    ((u128::from(spread) * count as u128) >> 64) as usize
}
