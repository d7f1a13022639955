use crate::solver::store::Store;
use crate::solver::trail::{Cause, Trail};
use search_parts::{FALSE, NONE, at, count, mark, part, put};
use std::alloc::{AllocError, Global};

/// What is learned from a conflict, and the tools to find it.
#[derive(Drop)]
pub(crate) struct Analysis {
    /// The codes of the clause that is learned.
    pub(crate) lits: Vec<u32>,
    /// The numbers of the clauses that show it, in order.
    pub(crate) hints: Vec<u32>,
    /// The variables that were met.
    met: Vec<u32>,
    /// How many of them before the clause was minimised.
    climbed: usize,
    /// For each variable whether it was met.
    marks: Vec<bool>,
    /// The places on the trail of the variables whose reasons are hints.
    used: Vec<u32>,
    /// Variables whose reasons are still to be followed.
    pending: Vec<u32>,
    /// How many variables of the last level are met, and not passed yet.
    open: u32,
    /// For each level the number of the conflict whose clause it was last in.
    stamps: Vec<u32>,
    stamp: u32,
}

impl Analysis {
    /// Of no variables.
    pub(crate) fn new(alloc: Global) -> Analysis {
        Analysis {
            lits: Vec::new(alloc),
            hints: Vec::new(alloc),
            met: Vec::new(alloc),
            climbed: 0,
            marks: Vec::new(alloc),
            used: Vec::new(alloc),
            pending: Vec::new(alloc),
            open: 0,
            stamps: Vec::new(alloc),
            stamp: 0,
        }
    }

    /// The variables by which the clause was found.
    pub(crate) fn climbed(&self) -> &[u32] {
        part(&self.met, 0, count(self.climbed))
    }

    /// Makes room for the next variable, and for a level more.
    pub(crate) fn grow(&mut self) -> Result<(), AllocError> {
        self.marks.push(false)?;
        self.stamps.push(0)?;
        Ok(())
    }

    /// Forgets all variables.
    pub(crate) fn clear(&mut self) {
        self.restart();
        self.marks.clear();
        self.stamps.clear();
        self.stamp = 0;
    }

    /// Forgets the conflict before.
    fn restart(&mut self) {
        for var in self.met.as_slice() {
            let _was = mark(&mut self.marks, *var, false);
        }
        self.met.clear();
        self.lits.clear();
        self.hints.clear();
        self.used.clear();
        self.open = 0;
    }

    /// Finds the clause of the first unique implication point of a conflict above level 1 (Marques-Silva and
    /// Sakallah 1996), without the codes that the others imply (Sörensson and Biere 2009). The point's code is
    /// the first, and one of the highest level behind it the second. Tells that level.
    pub(crate) fn learn(
        &mut self,
        store: &mut Store,
        trail: &Trail,
        conflict: u32,
    ) -> Result<u32, AllocError> {
        self.restart();
        self.lits.push(0)?;
        self.follow(store, trail, conflict, trail.level())?;
        self.climb(store, trail)?;
        self.climbed = self.met.len();
        self.minimise(store, trail)?;
        self.list_hints(store, trail, conflict)?;
        Ok(self.bring_second(trail))
    }

    /// The hints by which a clause that is false on levels 0 and 1 shows that one of these two codes is true,
    /// where both were assumed to be false.
    pub(crate) fn refutation(
        &mut self,
        store: &mut Store,
        trail: &Trail,
        codes: (u32, u32),
        conflict: u32,
    ) -> Result<(), AllocError> {
        self.restart();
        self.lits.extend_from_slice(&[codes.0, codes.1])?;
        self.meet(codes.0 / 2)?;
        self.meet(codes.1 / 2)?;
        self.follow_all(store, trail, conflict)
    }

    /// The hints by which a clause that is false shows another one, of which all codes were assumed to be false.
    pub(crate) fn once_more(
        &mut self,
        store: &mut Store,
        trail: &Trail,
        clause: u32,
        conflict: u32,
    ) -> Result<(), AllocError> {
        self.restart();
        for code in store.codes(clause) {
            self.meet(*code / 2)?;
        }
        self.follow_all(store, trail, conflict)
    }

    /// The hints by which a clause is false, down to what is met already.
    fn follow_all(
        &mut self,
        store: &mut Store,
        trail: &Trail,
        conflict: u32,
    ) -> Result<(), AllocError> {
        self.follow(store, trail, conflict, NONE)?;
        for _ in 0..u64::MAX {
            let Some(var) = self.pending.pop() else {
                break;
            };
            self.follow(store, trail, trail.cause(var).reason, NONE)?;
        }
        self.list_hints(store, trail, conflict)
    }

    /// The hints by which a clause that has forced a code of level 0 shows its unit. All others of level 0
    /// before it have their units as reasons.
    pub(crate) fn unit(
        &mut self,
        store: &mut Store,
        trail: &Trail,
        code: u32,
        reason: u32,
    ) -> Result<(), AllocError> {
        self.restart();
        self.lits.push(code)?;
        self.meet(code / 2)?;
        self.follow(store, trail, reason, NONE)?;
        self.list_hints(store, trail, reason)
    }

    /// Marks a variable; false where it was met before.
    #[inline(always)]
    fn meet(&mut self, var: u32) -> Result<bool, AllocError> {
        if mark(&mut self.marks, var, true) {
            return Ok(false);
        }
        self.met.push(var)?;
        Ok(true)
    }

    /// Meets the variables that make codes of a clause false. At a level, those of it are counted and those
    /// below go into the clause that is learned; with `NONE` those above level 0 are to be followed.
    #[inline(always)]
    fn follow(
        &mut self,
        store: &mut Store,
        trail: &Trail,
        clause: u32,
        level: u32,
    ) -> Result<(), AllocError> {
        store.note_use(clause);
        for code in store.codes(clause) {
            let var = *code / 2;
            if trail.value(*code) == FALSE && self.meet(var)? {
                let cause = trail.cause(var);
                if cause.level == 0 {
                    self.used.push(cause.place)?;
                } else if cause.level == level {
                    self.open = self.open.saturating_add(1);
                } else if level == NONE {
                    self.used.push(cause.place)?;
                    self.pending.push(var)?;
                } else {
                    self.lits.push(*code)?;
                }
            }
        }
        Ok(())
    }

    /// Follows the reasons of the last level up to its first unique implication point.
    fn climb(&mut self, store: &mut Store, trail: &Trail) -> Result<(), AllocError> {
        for place in (0..trail.len()).rev() {
            let code = trail.lit(place);
            let is_met = match self.marks.get((code / 2) as usize) {
                Some(is_met) => *is_met,
                None => false,
            };
            if is_met {
                self.open = self.open.saturating_sub(1);
                if self.open == 0 {
                    put(&mut self.lits, 0, code ^ 1);
                    return Ok(());
                }
                self.used.push(place)?;
                let reason = trail.cause(code / 2).reason;
                self.follow(store, trail, reason, trail.level())?;
            }
        }
        Ok(())
    }

    /// Counts those variables too, as ones by which the clause was found, that the reasons of its codes have. They are
    /// as near to the conflict (Liang, Ganesh, Poupart and Czarnecki 2016).
    pub(crate) fn climb_once_more(
        &mut self,
        store: &Store,
        trail: &Trail,
    ) -> Result<(), AllocError> {
        self.unmeet(self.climbed);
        for place in 0..count(self.lits.len()) {
            let var = at(&self.lits, place) / 2;
            let reason = trail.cause(var).reason;
            if reason != NONE {
                self.meet_all(store, trail, reason)?;
            }
        }
        self.climbed = self.met.len();
        Ok(())
    }

    /// Meets the variables of a clause above level 0.
    fn meet_all(&mut self, store: &Store, trail: &Trail, clause: u32) -> Result<(), AllocError> {
        for code in store.codes(clause) {
            let var = *code / 2;
            if trail.cause(var).level > 0 {
                self.meet(var)?;
            }
        }
        Ok(())
    }

    /// Leaves the codes out that the others imply.
    fn minimise(&mut self, store: &Store, trail: &Trail) -> Result<(), AllocError> {
        let mut levels: u64 = 0;
        for place in 1..count(self.lits.len()) {
            levels |= bit(trail.cause(at(&self.lits, place) / 2).level);
        }
        let mut to: u32 = 1;
        for place in 1..count(self.lits.len()) {
            let code = at(&self.lits, place);
            if !self.is_implied(store, trail, code / 2, levels)? {
                put(&mut self.lits, to, code);
                to = to.saturating_add(1);
            }
        }
        self.lits.truncate(to as usize);
        Ok(())
    }

    /// Whether the others imply a code, given by its variable: then the reasons that show it are hints. A
    /// variable of a level that the clause hasn't can't be implied.
    fn is_implied(
        &mut self,
        store: &Store,
        trail: &Trail,
        var: u32,
        levels: u64,
    ) -> Result<bool, AllocError> {
        let cause = trail.cause(var);
        if cause.reason == NONE {
            return Ok(false);
        }
        let met = self.met.len();
        let used = self.used.len();
        self.pending.clear();
        self.pending.push(var)?;
        self.used.push(cause.place)?;
        for _ in 0..u64::MAX {
            let Some(next) = self.pending.pop() else {
                return Ok(true);
            };
            if !self.imply(store, trail, next, levels)? {
                break;
            }
        }
        self.unmeet(met);
        self.used.truncate(used);
        Ok(false)
    }

    /// Meets what the reason of a variable rests on. Whether all of it may be implied by the clause.
    fn imply(
        &mut self,
        store: &Store,
        trail: &Trail,
        var: u32,
        levels: u64,
    ) -> Result<bool, AllocError> {
        for code in store.codes(trail.cause(var).reason) {
            let other = *code / 2;
            if other != var && self.meet(other)? {
                let cause = trail.cause(other);
                if may_not(cause, levels) {
                    return Ok(false);
                }
                self.used.push(cause.place)?;
                if cause.level > 0 {
                    self.pending.push(other)?;
                }
            }
        }
        Ok(true)
    }

    /// Takes the marks of the variables away that were met since there were so many.
    fn unmeet(&mut self, met: usize) {
        for place in count(met)..count(self.met.len()) {
            let _was = mark(&mut self.marks, at(&self.met, place), false);
        }
        self.met.truncate(met);
    }

    /// Lists the reasons of the variables that were used, in the order of the trail, and a clause last. So each
    /// forces the next code, since all before it are false by then.
    fn list_hints(&mut self, store: &Store, trail: &Trail, last: u32) -> Result<(), AllocError> {
        self.used.as_mut_slice().sort_unstable();
        for place in self.used.as_slice() {
            let reason = trail.cause(trail.lit(*place) / 2).reason;
            self.hints.push(store.number(reason))?;
        }
        self.hints.push(store.number(last))?;
        Ok(())
    }

    /// Brings a code of the highest level behind the first one to the second place, and tells its level; 0
    /// where there is none.
    fn bring_second(&mut self, trail: &Trail) -> u32 {
        let mut highest = 0;
        let mut found: u32 = 1;
        for place in 1..count(self.lits.len()) {
            let level = trail.cause(at(&self.lits, place) / 2).level;
            if level > highest {
                highest = level;
                found = place;
            }
        }
        let second = at(&self.lits, 1);
        let code = at(&self.lits, found);
        put(&mut self.lits, 1, code);
        put(&mut self.lits, found, second);
        highest
    }

    /// How many levels the clause that was learned spans (Audemard and Simon 2009).
    pub(crate) fn rank(&mut self, trail: &Trail) -> u32 {
        self.stamp = self.stamp.wrapping_add(1);
        let mut many: u32 = 0;
        for code in self.lits.as_slice() {
            let level = trail.cause(*code / 2).level;
            if at(&self.stamps, level) != self.stamp {
                put(&mut self.stamps, level, self.stamp);
                many = many.saturating_add(1);
            }
        }
        many
    }
}

/// Whether a variable can't be implied by a clause of these levels.
#[inline(always)]
fn may_not(cause: Cause, levels: u64) -> bool {
    cause.level > 0 && (cause.reason == NONE || levels & bit(cause.level) == 0)
}

/// The bit that stands for a level.
#[inline(always)]
fn bit(level: u32) -> u64 {
    1_u64.wrapping_shl(level)
}
