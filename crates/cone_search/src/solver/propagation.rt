use crate::solver::store::Store;
use crate::solver::trail::Trail;
use crate::solver::watches::{Watch, Watches};
use search_parts::{FALSE, NONE, TRUE, at, put};
use std::alloc::AllocError;

/// What becomes of a watch of a code that is false.
#[derive(Clone, Copy)]
enum Held {
    Stays,
    /// It moves to this code.
    Moves(u32, Watch),
    /// All other codes of its clause are false but this one, which may be false too.
    Forces(u32, u32),
}

/// What a scan of watches comes to, and behind how many of them.
#[derive(Clone, Copy)]
enum Met {
    Nothing,
    Moves(u32, u32, Watch),
    Forces(u32, u32, u32),
}

impl Watches {
    /// Makes true what the clauses force. Tells the place of one that is false; `NONE` where none is.
    pub(crate) fn propagate(
        &mut self,
        store: &mut Store,
        trail: &mut Trail,
    ) -> Result<u32, AllocError> {
        for _ in 0..u64::MAX {
            let Some(code) = trail.next() else {
                return Ok(NONE);
            };
            let conflict = self.visit_all(store, trail, code ^ 1)?;
            if conflict != NONE {
                return Ok(conflict);
            }
        }
        Ok(NONE)
    }

    /// The same by other watches too, of which one code's are visited whenever these force nothing any more.
    pub(crate) fn propagate_with(
        &mut self,
        others: &mut Watches,
        store: &mut Store,
        trail: &mut Trail,
    ) -> Result<u32, AllocError> {
        for place in 0..u32::MAX {
            let conflict = self.propagate(store, trail)?;
            if conflict != NONE || place >= trail.len() {
                return Ok(conflict);
            }
            let conflict = others.visit_all(store, trail, trail.lit(place) ^ 1)?;
            if conflict != NONE {
                return Ok(conflict);
            }
        }
        Ok(NONE)
    }

    /// Visits the watches of a code that is false now. One that moves leaves its place to the last one.
    fn visit_all(
        &mut self,
        store: &mut Store,
        trail: &mut Trail,
        code: u32,
    ) -> Result<u32, AllocError> {
        self.note_visit(code);
        let start = self.start(code);
        let mut place = start;
        let mut end = start.saturating_add(self.len(code));
        for _ in 0..u64::MAX {
            match scan(self.part(place, end), store.words(), trail.values(), code) {
                Met::Nothing => break,
                Met::Moves(passed, found, watch) => {
                    place = place.saturating_add(passed);
                    end = end.saturating_sub(1);
                    let last = self.get(end);
                    self.set(place, last);
                    self.push(found, watch)?;
                }
                Met::Forces(passed, clause, other) => {
                    place = place.saturating_add(passed).saturating_add(1);
                    if trail.value(other) == FALSE {
                        self.set_len(code, end.saturating_sub(start));
                        return Ok(clause);
                    }
                    trail.assign(other, clause);
                }
            }
        }
        self.set_len(code, end.saturating_sub(start));
        Ok(NONE)
    }
}

/// Goes over watches of a code that is false, up to one that doesn't stay as it is.
#[inline(always)]
fn scan(list: &mut [Watch], words: &mut [u32], values: &[u32], code: u32) -> Met {
    let mut passed: u32 = 0;
    for watch in list.iter_mut() {
        if at(values, watch.blocker) != TRUE {
            match hold(watch, words, values, code) {
                Held::Stays => {}
                Held::Moves(found, moved) => return Met::Moves(passed, found, moved),
                Held::Forces(clause, other) => return Met::Forces(passed, clause, other),
            }
        }
        passed = passed.wrapping_add(1);
    }
    Met::Nothing
}

/// Visits one watch whose blocker isn't true: its clause is true by its other watched code, or another code of it
/// that isn't false is watched, or it forces the other watched code.
#[inline(always)]
fn hold(watch: &mut Watch, words: &mut [u32], values: &[u32], code: u32) -> Held {
    let clause = watch.clause;
    if watch.is_two {
        return Held::Forces(clause, watch.blocker);
    }
    let other = at(words, clause) ^ at(words, clause.wrapping_add(1)) ^ code;
    let moved = Watch {
        clause,
        blocker: other,
        is_two: false,
    };
    if at(values, other) == TRUE {
        *watch = moved;
        return Held::Stays;
    }
    let found = find(words, values, clause, code, other);
    if found == NONE {
        return Held::Forces(clause, other);
    }
    Held::Moves(found, moved)
}

/// Finds a code of a clause, behind the two that are watched, that isn't false, and has it watched in place of
/// this one, beside the other one.
#[inline(always)]
fn find(words: &mut [u32], values: &[u32], clause: u32, code: u32, other: u32) -> u32 {
    let end = clause.saturating_add(at(words, clause.wrapping_sub(1)));
    for place in clause.saturating_add(2)..end {
        let found = at(words, place);
        if at(values, found) != FALSE {
            put(words, clause, other);
            put(words, clause.wrapping_add(1), found);
            put(words, place, code);
            return found;
        }
    }
    NONE
}
