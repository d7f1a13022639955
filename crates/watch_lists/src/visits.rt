ghost use Rattle.std.specs.Prelude.{◌≡◌, ◌≢◌, ◌<◌, ℕ, true, false, nat_eq, length, slice_index_or, OnErr, IfOk, IfSome, IfNone};
ghost use Rattle.lits.specs.Clause.{has};
ghost use Rattle.watch_lists.specs.Codes.{flip};
ghost use Rattle.watch_lists.specs.State.{IsEngine, IsTurn, IsVisited, IsOther, IsTurnEnd, IsPropagated, Holds, Stays, codes_at, pair_at, list_at, watch_at};

use crate::code::flip;
use crate::engine::{Engine, Pair, Visit};
use crate::lists::Watch;
use std::alloc::AllocError;

/// The first literal of a clause that isn't false and isn't that one. The watched literal whose turn it is is false,
/// so that the loop passes over it as over all false ones.
fn replacement(clause: &[u32], truth: &[bool], other: u32) -> Option<u32>
    requires { (l : ℕ) → has nat_eq clause.now l ≡ true → flip l < length truth.now }
    ensures some { IfSome result (λ l. (has nat_eq clause.now l ≡ true)
        × (slice_index_or truth.now (flip l) false ≡ false) × (nat_eq other l ≡ false)) }
    ensures none { IfNone result ((l : ℕ) → has nat_eq clause.now l ≡ true → nat_eq other l ≡ false
        → slice_index_or truth.now (flip l) false ≡ true) }
{
    for lit in clause {
        if *lit != other && !truth[flip(*lit) as usize] {
            return Some(*lit);
        }
    }
    None
}

/// The other one of a pair, where the literal is one of it.
fn other_of(pair: Pair, lit: u32) -> Option<u32>
    ensures some { IfSome result (λ o. IsOther pair lit o) }
    ensures none { IfNone result ((pair.first ≢ lit) × (pair.second ≢ lit)) }
{
    if pair.first == lit {
        Some(pair.second)
    } else if pair.second == lit {
        Some(pair.first)
    } else {
        None
    }
}

impl Engine {
    /// The turn of one watch of a literal that is false now.
    fn visit(&mut self, lit: u32, at: usize) -> Result<Visit, AllocError>
        requires turn { IsTurn self.old lit at }
        requires at { at < length (list_at self.old.lists lit) }
        ensures ok { IfOk result (λ v. IsVisited self.old self.new lit at v) }
        ensures err { OnErr result (IsEngine self.new) }
        ensures keeps { Holds self.old self.new }
    {
        let watch = self.lists.get(lit, at);
        if self.truth[watch.blocker as usize] {
            return Ok(Visit::Next);
        }
        if watch.is_two {
            return self.force(lit, at, watch.clause, watch.blocker);
        }
        self.visit_clause(lit, at, watch.clause)
    }

    /// Visits the clause of a watch. Where the clause doesn't watch the literal any more the watch goes.
    fn visit_clause(&mut self, lit: u32, at: usize, clause: u32) -> Result<Visit, AllocError>
        requires turn { IsTurn self.old lit at }
        requires at { at < length (list_at self.old.lists lit) }
        requires clause { (watch_at (list_at self.old.lists lit) at).clause ≡ clause }
        ensures ok { IfOk result (λ v. IsVisited self.old self.new lit at v) }
        ensures err { OnErr result (IsEngine self.new) }
        ensures keeps { Holds self.old self.new }
    {
        match other_of(self.pairs[clause as usize], lit) {
            Some(other) => self.visit_pair(lit, at, clause, other),
            None => {
                self.lists.drop_at(lit, at);
                Ok(Visit::Gone)
            }
        }
    }

    /// Visits a clause by its other watched literal: where that is true the clause is, and nothing is looked
    /// for (Moskewicz, Madigan, Zhao, Zhang and Malik 2001). It becomes the watch's blocker then, as in MiniSat
    /// (Eén and Sörensson 2003), so that the clause isn't read again while it stays true.
    fn visit_pair(
        &mut self,
        lit: u32,
        at: usize,
        clause: u32,
        other: u32,
    ) -> Result<Visit, AllocError>
        requires turn { IsTurn self.old lit at }
        requires at { at < length (list_at self.old.lists lit) }
        requires clause { (watch_at (list_at self.old.lists lit) at).clause ≡ clause }
        requires other { IsOther (pair_at self.old.pairs.items clause) lit other }
        ensures ok { IfOk result (λ v. IsVisited self.old self.new lit at v) }
        ensures err { OnErr result (IsEngine self.new) }
        ensures keeps { Holds self.old self.new }
    {
        if other == lit {
            return Ok(Visit::Next);
        }
        if self.truth[other as usize] {
            self.lists.block(lit, at, other);
            return Ok(Visit::Next);
        }
        match replacement(self.clauses.get(clause), self.truth.as_slice(), other) {
            Some(new) => self.move_watch(lit, at, clause, other, new),
            None => self.force(lit, at, clause, other),
        }
    }

    /// Every other literal of the clause is false.
    fn force(&mut self, lit: u32, at: usize, clause: u32, other: u32) -> Result<Visit, AllocError>
        requires turn { IsTurn self.old lit at }
        requires at { at < length (list_at self.old.lists lit) }
        requires clause { (watch_at (list_at self.old.lists lit) at).clause ≡ clause }
        requires inside { has nat_eq (codes_at self.old.clauses clause) other ≡ true }
        requires missing { slice_index_or self.old.truth.items other false ≡ false }
        requires negated { (l : ℕ) → has nat_eq (codes_at self.old.clauses clause) l ≡ true
            → nat_eq other l ≡ false → has nat_eq self.old.trail.items (flip l) ≡ true }
        ensures ok { IfOk result (λ v. IsVisited self.old self.new lit at v) }
        ensures err { OnErr result (IsEngine self.new) }
        ensures keeps { Holds self.old self.new }
    {
        if self.truth[flip(other) as usize] {
            return Ok(Visit::Conflict(clause));
        }
        self.put(other, Some(clause))?;
        Ok(Visit::Next)
    }

    /// The watch goes to a literal that isn't false.
    fn move_watch(
        &mut self,
        lit: u32,
        at: usize,
        clause: u32,
        other: u32,
        new: u32,
    ) -> Result<Visit, AllocError>
        requires turn { IsTurn self.old lit at }
        requires at { at < length (list_at self.old.lists lit) }
        requires clause { (watch_at (list_at self.old.lists lit) at).clause ≡ clause }
        requires other { IsOther (pair_at self.old.pairs.items clause) lit other }
        requires apart { nat_eq other lit ≡ false }
        requires inside { has nat_eq (codes_at self.old.clauses clause) new ≡ true }
        requires free { slice_index_or self.old.truth.items (flip new) false ≡ false }
        requires fresh { nat_eq other new ≡ false }
        ensures ok { IfOk result (λ v. IsVisited self.old self.new lit at v) }
        ensures err { OnErr result (IsEngine self.new) }
        ensures keeps { Holds self.old self.new }
    {
        self.lists.push(
            new,
            Watch {
                clause,
                blocker: other,
                is_two: false,
            },
        )?;
        self.pairs[clause as usize] = Pair {
            first: other,
            second: new,
        };
        self.lists.drop_at(lit, at);
        Ok(Visit::Gone)
    }

    /// Goes through the watches of a literal that is false now.
    fn turn(&mut self, lit: u32) -> Result<Option<u32>, AllocError>
        requires { IsTurn self.old lit 0 }
        ensures ok { IfOk result (λ r. IsTurnEnd self.new lit r) }
        ensures err { OnErr result (IsEngine self.new) }
        ensures keeps { Holds self.old self.new }
    {
        let mut at = 0;
        while at < self.lists.len(lit) {
            match self.visit(lit, at)? {
                Visit::Next => at += 1,
                Visit::Gone => {}
                Visit::Conflict(clause) => return Ok(Some(clause)),
            }
        }
        Ok(None)
    }

    /// Takes the turns of the literals that are still to come.
    pub(crate) fn turns(&mut self) -> Result<Option<u32>, AllocError>
        requires { IsEngine self.old }
        ensures ok { IfOk result (λ r. IsPropagated self.new r) }
        ensures err { OnErr result (IsEngine self.new) }
        ensures keeps { Stays self.old self.new }
    {
        while self.head < self.trail.len() {
            let lit = flip(self.trail[self.head]);
            match self.turn(lit)? {
                Some(clause) => return Ok(Some(clause)),
                None => self.head += 1,
            }
        }
        Ok(None)
    }
}
