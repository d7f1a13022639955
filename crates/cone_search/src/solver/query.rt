use crate::solver::ConeSolver;
use crate::solver::cone::bring_free;
use crate::solver::restarts::Restarts;
use crate::solver::store::Name;
use search_parts::{FALSE, NONE, TRUE, at, count};
use std::alloc::AllocError;

/// What a query of two codes ends with.
#[derive(Clone, Copy)]
pub(crate) enum Answer {
    /// One of them is true, by the clause of this number.
    Shown(u32),
    /// Both are false on the inputs that the trail has.
    Possible,
    /// A cap was reached.
    Open,
}

impl ConeSolver {
    /// Asks whether one of two codes is true on all inputs.
    pub(crate) fn ask(&mut self, codes: (u32, u32), left: &mut u64) -> Result<Answer, AllocError> {
        self.back(0)?;
        self.restarts = Restarts::new();
        for _ in 0..u64::MAX {
            if let Some(answer) = self.round(codes, left)? {
                return Ok(answer);
            }
        }
        Ok(Answer::Open)
    }

    /// Propagates, and then learns from a conflict or makes a choice.
    fn round(&mut self, codes: (u32, u32), left: &mut u64) -> Result<Option<Answer>, AllocError> {
        let conflict = self.watches.propagate(&mut self.store, &mut self.trail)?;
        if conflict != NONE {
            return self.conflict(codes, conflict, left);
        }
        if self.trail.level() == 0 {
            self.explain_ground()?;
            return self.assume(codes);
        }
        Ok(self.choose()?)
    }

    /// Answers a conflict of what is assumed, and learns from any other.
    fn conflict(
        &mut self,
        codes: (u32, u32),
        conflict: u32,
        left: &mut u64,
    ) -> Result<Option<Answer>, AllocError> {
        if self.trail.level() == 0 {
            return Ok(Some(Answer::Open));
        }
        if self.trail.level() == 1 {
            return self.show(codes, conflict);
        }
        if *left == 0 || self.is_spent() {
            return Ok(Some(Answer::Open));
        }
        *left -= 1;
        self.learned = self.learned.saturating_add(1);
        let rank = self.learn(conflict)?;
        if self.restarts.count(rank) {
            self.restart()?;
        }
        Ok(None)
    }

    /// Assumes that both codes are false, unless one of them is true whatever is assumed.
    fn assume(&mut self, codes: (u32, u32)) -> Result<Option<Answer>, AllocError> {
        for code in [codes.0, codes.1] {
            if self.trail.value(code) == TRUE {
                let reason = self.trail.cause(code / 2).reason;
                return self.show(codes, reason);
            }
        }
        self.trail.begin()?;
        self.trail.choose(codes.0 ^ 1);
        self.trail.choose(codes.1 ^ 1);
        Ok(None)
    }

    /// Chooses the next variable's value; none is left where all of the cone have one.
    fn choose(&mut self) -> Result<Option<Answer>, AllocError> {
        for _ in 0..u64::MAX {
            let Some(var) = self.order.pop() else {
                break;
            };
            let code = var.wrapping_mul(2) | self.trail.cause(var).phase;
            if self.trail.value(code) != TRUE && self.trail.value(code) != FALSE {
                self.trail.begin()?;
                self.trail.choose(code);
                return Ok(None);
            }
        }
        Ok(Some(Answer::Possible))
    }

    /// Learns from a conflict: keeps the clause, goes back to where it forces a code, and makes that true. Tells how
    /// many levels the clause spans.
    fn learn(&mut self, conflict: u32) -> Result<u32, AllocError> {
        let level = self.analysis.learn(&mut self.store, &self.trail, conflict)?;
        let rank = self.analysis.rank(&self.trail);
        self.analysis.climb_once_more(&self.store, &self.trail)?;
        for var in self.analysis.climbed() {
            self.order.bump(*var);
        }
        self.order.decay();
        self.back(level)?;
        let place = self.store.push(
            &self.analysis.lits,
            Name::Lesson,
            &self.analysis.hints,
            rank,
        )?;
        self.lessons = self.lessons.saturating_add(1);
        self.attach(place)?;
        Ok(rank)
    }

    /// Goes back to what is assumed, or behind that where clauses are to be dropped.
    fn restart(&mut self) -> Result<(), AllocError> {
        if self.lessons < self.room {
            return self.back(1);
        }
        self.back(0)
    }

    /// Gives each code of level 0 its unit as its reason, so that each is traced once.
    fn explain_ground(&mut self) -> Result<(), AllocError> {
        for place in self.explained..self.trail.len() {
            let code = self.trail.lit(place);
            let reason = self.trail.cause(code / 2).reason;
            if self.store.size_of(reason) > 1 {
                self.analysis
                    .unit(&mut self.store, &self.trail, code, reason)?;
                let unit = self
                    .store
                    .push(&self.analysis.lits, Name::Lesson, &self.analysis.hints, 0)?;
                self.trail.explain(code / 2, unit);
            }
        }
        self.explained = self.trail.len();
        if self.lessons >= self.room {
            self.reduce()?;
        }
        Ok(())
    }

    /// Keeps as a clause that one of two codes is true, from one that is false where both are false.
    fn show(&mut self, codes: (u32, u32), conflict: u32) -> Result<Option<Answer>, AllocError> {
        self.analysis
            .refutation(&mut self.store, &self.trail, codes, conflict)?;
        self.back(0)?;
        self.added.clear();
        self.added.extend_from_slice(&self.analysis.lits)?;
        bring_free(&mut self.added, &self.trail);
        let number = self.store.len();
        let place = self
            .store
            .push(&self.added, Name::Lesson, &self.analysis.hints, 0)?;
        self.attach(place)?;
        Ok(Some(Answer::Shown(number)))
    }

    /// Drops half of the clauses that were learned, span many levels and weren't met of late (Audemard and Simon
    /// 2009). Each time a few more are learned before that.
    fn reduce(&mut self) -> Result<(), AllocError> {
        self.keys.clear();
        for place in 0..self.store.listed() {
            let number = self.store.listed_at(place);
            self.weigh(number)?;
        }
        self.keys.as_mut_slice().sort_unstable();
        let left = self.keys.len() / 2;
        for (place, key) in self.keys.iter().enumerate() {
            if place >= left {
                self.store.drop_clause(number_of(*key));
            }
        }
        self.lessons = 0;
        self.room = self.room.saturating_add(MORE);
        self.close_gaps()?;
        self.watch_anew()
    }

    /// Closes the gaps of what is dropped. The reasons of level 0, where nothing is dropped, move with the others.
    fn close_gaps(&mut self) -> Result<(), AllocError> {
        self.listed.clear();
        for code in self.trail.since(0) {
            let reason = self.trail.cause(*code / 2).reason;
            self.listed.push(self.store.number(reason))?;
        }
        self.store.close_gaps()?;
        for place in 0..count(self.listed.len()) {
            let reason = self.store.record(at(&self.listed, place)).start;
            self.trail.explain(self.trail.lit(place) / 2, reason);
        }
        Ok(())
    }

    /// Lists a clause among those that may be dropped: by its levels, then by its age.
    fn weigh(&mut self, number: u32) -> Result<(), AllocError> {
        let record = self.store.record(number);
        let rank = self.store.rank(record.start);
        if rank <= 2 {
            return Ok(());
        }
        if self.store.take_use(record.start) && rank <= 6 {
            return Ok(());
        }
        self.keys.push(key_of(rank, number))?;
        Ok(())
    }

    /// Has all clauses watched that are left.
    fn watch_anew(&mut self) -> Result<(), AllocError> {
        self.watches.empty();
        for place in 0..self.store.listed() {
            let clause = self.store.record(self.store.listed_at(place)).start;
            if self.store.size_of(clause) > 1 {
                self.watch(clause)?;
            }
        }
        Ok(())
    }
}

/// How many clauses are learned before some are dropped, and how many more each time.
pub(crate) const ROOM: u32 = 2000;

const MORE: u32 = 300;

/// What stands above a clause's number in its key.
const WORD: u64 = 1 << 32;

/// A number that is the greater the more levels a clause spans, and then the older it is.
fn key_of(rank: u32, number: u32) -> u64 {
    u64::from(rank).wrapping_mul(WORD) | u64::from(number ^ u32::MAX)
}

/// The clause of such a key.
fn number_of(key: u64) -> u32 {
    match u32::try_from(key % WORD) {
        Ok(number) => number ^ u32::MAX,
        Err(_) => NONE,
    }
}
