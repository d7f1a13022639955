ghost use Rattle.std.specs.Prelude.{◌≡◌, ◌≢◌, ◌<◌, ◌+◌, ◌⊎◌, ◌++◌, ◌∷◌, [], ℕ, true, false, List, take, nat_eq, length, OnOk, IfOk, IfSome, IfNone};
ghost use Rattle.std.specs.List.{All};
ghost use Rattle.unit_prop.specs.Closure.{is_negated, forces};
ghost use Rattle.lits.specs.Clause.{has};
ghost use Rattle.watch_lists.specs.Codes.{flip};
ghost use Rattle.watch_lists.specs.State.{IsEngine, Guards, IsStuck, IsBest, IsLed, height, Holds, codes_at};

use crate::code::flip;
use crate::engine::{Engine, Pair};
use crate::lists::Watch;
use std::alloc::AllocError;

/// Whether the clause, which has both literals of the pair, has no other.
fn is_all(pair: Pair, clause: &[u32]) -> bool
    ensures { result ≡ true → has nat_eq clause.now pair.first ≡ true → has nat_eq clause.now pair.second ≡ true
        → (l : ℕ) → has nat_eq clause.now l ≡ true → (l ≡ pair.first) ⊎ (l ≡ pair.second) }
{
    pair.first != pair.second && clause.len() == 2
}

/// The two literals of those seen that aren't false for longest, with how long they aren't.
///
/// It is changed where it stands, and knows its heights. A pair that was handed on by value was written in two
/// halves and read as one at each literal, and that wait took up to a sixth of the solver's time.
#[derive(Drop)]
struct Lead {
    first: u32,
    second: u32,
    first_height: usize,
    second_height: usize,
}

/// The two literals alone.
fn pair_of(lead: &Lead) -> Pair
    ensures { result ≡ record { first = lead.now.first; second = lead.now.second } }
{
    Pair {
        first: lead.first,
        second: lead.second,
    }
}

impl Engine {
    /// How long the literal isn't false.
    fn height(&self, lit: u32) -> usize
        requires engine { IsEngine self.now }
        requires within { lit < length self.now.truth.items }
        ensures { result ≡ height self.now.trail.items lit }
    {
        let negation = flip(lit) as usize;
        if self.truth[negation] {
            self.places[negation]
        } else {
            self.trail.len()
        }
    }

    /// Takes one more literal of the clause in.
    fn better(&self, lead: &mut Lead, lit: u32)
        requires engine { IsEngine self.now }
        requires within { lit < length self.now.truth.items }
        ensures { (seen : List ℕ) → IsLed self.now.trail.items seen lead.old
            → IsLed self.now.trail.items (seen ++ lit ∷ []) lead.new }
    {
        if lit == lead.first {
            return;
        }
        let height = self.height(lit);
        if height > lead.first_height {
            lead.second = lead.first;
            lead.second_height = lead.first_height;
            lead.first = lit;
            lead.first_height = height;
        } else if lead.first == lead.second || height > lead.second_height {
            lead.second = lit;
            lead.second_height = height;
        }
    }

    /// The two literals of the clause that aren't false for longest. Where two aren't false at all, no other
    /// literal is looked at.
    ///
    /// Where levels are given up these are free again no later than any other, so the watches may stay.
    fn best(&self, clause: &[u32]) -> Option<Pair>
        requires engine { IsEngine self.now }
        requires within { (l : ℕ) → has nat_eq clause.now l ≡ true → l < length self.now.truth.items }
        ensures some { IfSome result (IsBest self.now.trail.items clause.now) }
        ensures none { IfNone result (clause.now ≡ []) }
    {
        if clause.is_empty() {
            return None;
        }
        let mut lead = self.alone(clause[0]);
        for lit in clause {
            self.better(&mut lead, *lit);
            if self.is_highest(&lead) {
                return Some(pair_of(&lead));
            }
        }
        Some(pair_of(&lead))
    }

    /// The literal alone.
    fn alone(&self, lit: u32) -> Lead
        requires engine { IsEngine self.now }
        requires within { lit < length self.now.truth.items }
        ensures { IsLed self.now.trail.items (lit ∷ []) result }
    {
        let height = self.height(lit);
        Lead {
            first: lit,
            second: lit,
            first_height: height,
            second_height: height,
        }
    }

    /// Whether there are two literals that aren't false.
    fn is_highest(&self, lead: &Lead) -> bool
        ensures { result ≡ true → (lead.now.first ≢ lead.now.second)
            × (lead.now.second_height ≡ length self.now.trail.items) }
    {
        lead.first != lead.second && lead.second_height == self.trail.len()
    }

    /// Watches the next clause by its pair; false where it is wholly negated.
    fn attach_pair(&mut self, at: u32, pair: Pair) -> Result<bool, AllocError>
        requires engine { IsEngine self.old }
        requires at { (at ≡ length self.old.pairs.items) × (at < length self.old.clauses) }
        requires best { IsBest self.old.trail.items (codes_at self.old.clauses at) pair }
        ensures engine { IsEngine self.new }
        ensures more { IfOk result
            (λ b. b ≡ true → length self.new.pairs.items ≡ length self.old.pairs.items + 1) }
        ensures conflict { IfOk result
            (λ b. b ≡ false
            → is_negated flip (has nat_eq self.new.trail.items) (codes_at self.new.clauses at) ≡ true) }
        ensures keeps { Holds self.old self.new }
    {
        if self.truth[flip(pair.first) as usize] {
            return Ok(false);
        }
        if self.truth[pair.first as usize] {
            return self.watch(at, pair);
        }
        if pair.first == pair.second {
            return self.force_first(at, pair);
        }
        if self.truth[flip(pair.second) as usize] {
            return self.force_first(at, pair);
        }
        self.watch(at, pair)
    }

    /// The first of the pair is free, and every other literal of the clause is false.
    fn force_first(&mut self, at: u32, pair: Pair) -> Result<bool, AllocError>
        requires engine { IsEngine self.old }
        requires at { (at ≡ length self.old.pairs.items) × (at < length self.old.clauses) }
        requires best { IsBest self.old.trail.items (codes_at self.old.clauses at) pair }
        requires free { (has nat_eq self.old.trail.items pair.first ≡ false) ×
            (has nat_eq self.old.trail.items (flip pair.first) ≡ false) }
        requires forces { forces nat_eq flip (has nat_eq self.old.trail.items)
            (codes_at self.old.clauses at) pair.first ≡ true }
        ensures engine { IsEngine self.new }
        ensures more { IfOk result
            (λ b. b ≡ true → length self.new.pairs.items ≡ length self.old.pairs.items + 1) }
        ensures conflict { IfOk result
            (λ b. b ≡ false
            → is_negated flip (has nat_eq self.new.trail.items) (codes_at self.new.clauses at) ≡ true) }
        ensures keeps { Holds self.old self.new }
    {
        self.put(pair.first, Some(at))?;
        self.watch(at, pair)
    }

    /// Watches the next clause by a pair that guards it.
    fn watch(&mut self, at: u32, pair: Pair) -> Result<bool, AllocError>
        requires engine { IsEngine self.old }
        requires at { (at ≡ length self.old.pairs.items) × (at < length self.old.clauses) }
        requires guards { Guards (take self.old.head self.old.trail.items) self.old.trail.items
            (codes_at self.old.clauses at) pair }
        requires bounds { All
            (λ v. Guards (take v.head self.old.trail.items) (take v.start self.old.trail.items)
            (codes_at self.old.clauses at) pair)
            self.old.levels.items }
        ensures engine { IsEngine self.new }
        ensures more { OnOk result (length self.new.pairs.items ≡ length self.old.pairs.items + 1) }
        ensures ok { IfOk result (λ b. b ≡ true) }
        ensures keeps { Holds self.old self.new }
    {
        self.pairs.reserve(1)?;
        let is_two = is_all(pair, self.clauses.get(at));
        let one = Watch {
            clause: at,
            blocker: pair.second,
            is_two,
        };
        let two = Watch {
            clause: at,
            blocker: pair.first,
            is_two,
        };
        self.lists.push_two(pair.first, one, pair.second, two)?;
        self.pairs.push_reserved(pair);
        Ok(true)
    }

    /// Watches the next clause; false where it is wholly negated.
    fn attach(&mut self, at: u32) -> Result<bool, AllocError>
        requires engine { IsEngine self.old }
        requires at { (at ≡ length self.old.pairs.items) × (at < length self.old.clauses) }
        ensures engine { IsEngine self.new }
        ensures more { IfOk result
            (λ b. b ≡ true → length self.new.pairs.items ≡ length self.old.pairs.items + 1) }
        ensures conflict { IfOk result
            (λ b. b ≡ false
            → is_negated flip (has nat_eq self.new.trail.items) (codes_at self.new.clauses at) ≡ true) }
        ensures keeps { Holds self.old self.new }
    {
        match self.best(self.clauses.get(at)) {
            None => Ok(false),
            Some(pair) => self.attach_pair(at, pair),
        }
    }

    /// Watches the clauses that are new.
    pub(crate) fn attach_all(&mut self) -> Result<Option<u32>, AllocError>
        requires { IsEngine self.old }
        ensures engine { IsEngine self.new }
        ensures none { IfOk result (λ r. IfNone r (length self.new.pairs.items ≡ length self.new.clauses)) }
        ensures conflict { IfOk result (λ r. IfSome r (λ i. IsStuck self.new i)) }
        ensures keeps { Holds self.old self.new }
    {
        while self.pairs.len() < self.clauses.len() {
            let at = self.pairs.len() as u32;
            if !self.attach(at)? {
                return Ok(Some(at));
            }
        }
        Ok(None)
    }
}
