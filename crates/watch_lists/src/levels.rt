ghost use Rattle.std.specs.Prelude.{◌≡◌, ◌<◌, ℕ, true, false, not, ◌&&◌, take, nat_eq, length, None, slice_index_or, OnOk, OnErr, IfOk, IfSome, IfNone};
ghost use Rattle.std.specs.List.{All};
ghost use Rattle.unit_prop.specs.Closure.{IsClosure, Clashes, ClosureClashes};
ghost use Rattle.lits.specs.Clause.{has};
ghost use Rattle.watch_lists.specs.Codes.{flip};
ghost use Rattle.watch_lists.specs.State.{IsEngine, IsStuck, AsksNothing, Stays, codes_at, decisions, level_at};
ghost use Rattle.watch_lists.specs.Step.{IsAdded, IsDecided, IsSame, IsCut};

use crate::engine::{Engine, Level};
use std::alloc::AllocError;

impl Engine {
    /// Propagates.
    pub(crate) fn propagate(&mut self) -> Result<Option<u32>, AllocError>
        requires { IsEngine self.old }
        ensures engine { IsEngine self.new }
        ensures none { IfOk result (λ r. IfNone r (
            IsClosure nat_eq flip self.new.clauses
            (decisions self.new.trail.items self.new.reasons.items) self.new.trail.items
            × ¬ Clashes flip self.new.clauses (has nat_eq self.new.trail.items))) }
        ensures some { IfOk result (λ r. IfSome r (λ i. IsStuck self.new i)) }
        ensures clash { IfOk result (λ r. IfSome r (λ _.
            ClosureClashes nat_eq flip self.new.clauses
            (decisions self.new.trail.items self.new.reasons.items))) }
        ensures stays { Stays self.old self.new }
    {
        match self.attach_all()? {
            Some(clause) => Ok(Some(clause)),
            None => self.turns(),
        }
    }

    /// A clause is the last one.
    pub(crate) fn add(&mut self, clause: &[u32]) -> Result<(), AllocError>
        requires engine { IsEngine self.old }
        requires within { (l : ℕ) → has nat_eq clause.now l ≡ true → l < length self.old.truth.items }
        requires settled { All
            (λ v. AsksNothing (take v.start self.old.trail.items) clause.now) self.old.levels.items }
        ensures engine { IsEngine self.new }
        ensures ok { OnOk result (IsAdded self.old clause.now self.new) }
        ensures err { OnErr result (IsSame self.old self.new) }
    {
        if self.clauses.len() > u32::MAX as usize {
            return Err(AllocError);
        }
        self.clauses.push(clause)
    }

    /// A new level begins with a literal that is free, where no clause asks for anything.
    pub(crate) fn decide(&mut self, lit: u32) -> Result<(), AllocError>
        requires engine { IsEngine self.old }
        requires settled { (i : ℕ) → i < length self.old.clauses
            → AsksNothing self.old.trail.items (codes_at self.old.clauses i) }
        requires within { lit < length self.old.truth.items }
        requires free { (has nat_eq self.old.trail.items lit ≡ false) ×
            (has nat_eq self.old.trail.items (flip lit) ≡ false) }
        ensures engine { IsEngine self.new }
        ensures ok { OnOk result (IsDecided self.old lit self.new) }
        ensures err { OnErr result (IsSame self.old self.new) }
    {
        self.levels.reserve(1)?;
        let level = Level {
            start: self.trail.len(),
            head: self.head,
        };
        self.put(lit, None)?;
        self.levels.push_reserved(level);
        Ok(())
    }

    /// Gives the levels from that one on up.
    pub(crate) fn back(&mut self, count: usize)
        requires engine { IsEngine self.old }
        requires count { count < length self.old.levels.items }
        ensures engine { IsEngine self.new }
        ensures cut { IsCut self.old count (level_at self.old.levels.items count) self.new }
    {
        let level = self.levels[count];
        unmark(&mut self.truth, &self.trail.as_slice()[level.start..]);
        self.trail.truncate(level.start);
        self.reasons.truncate(level.start);
        self.levels.truncate(count);
        self.head = level.head;
    }
}

/// Takes the marks of the literals away.
fn unmark(truth: &mut Vec<bool>, lits: &[u32])
    requires { (l : ℕ) → has nat_eq lits.now l ≡ true → l < length truth.old.items }
    ensures len { length truth.new.items ≡ length truth.old.items }
    ensures marks { (l : ℕ) → slice_index_or truth.new.items l false
        ≡ (slice_index_or truth.old.items l false && not (has nat_eq lits.now l)) }
{
    for lit in lits {
        truth[*lit as usize] = false;
    }
}
