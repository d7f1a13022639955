use crate::clauses::{Clauses, Span};
use crate::reason::Reason;
use crate::trail::Trail;
use crate::watches::Watches;
use search_parts::{FALSE, FREE, TRUE};

impl Watches {
    /// Visits the watches of a code that is false now: each moves to a code that isn't, or its clause's other
    /// watched code has to be true. Tells the clause that is false, if one is.
    #[inline(always)]
    pub(crate) fn visit_all(
        &mut self,
        clauses: &mut Clauses,
        trail: &mut Trail,
        code: u32,
    ) -> Option<Reason> {
        let mut before = 0;
        let mut watch = self.first(code);
        for _ in 0..u64::MAX {
            if watch == 0 {
                return None;
            }
            let next = self.next(watch);
            if !self.move_on(clauses, trail, code, before, watch) {
                let conflict = hold(clauses, trail, watch);
                if conflict.is_some() {
                    return conflict;
                }
                before = watch;
            }
            watch = next;
        }
        None
    }

    /// Moves a watch to a code that isn't false. Whether there is one, and the clause isn't true by its other
    /// watched code.
    #[inline(always)]
    fn move_on(
        &mut self,
        clauses: &mut Clauses,
        trail: &Trail,
        code: u32,
        before: u32,
        watch: u32,
    ) -> bool {
        let span = clauses.span(clause_of(watch));
        if trail.value(other_code(clauses, span, watch)) == TRUE {
            return false;
        }
        let end = span.start.saturating_add(span.len);
        for place in span.start.saturating_add(2)..end {
            let found = clauses.code(place);
            if trail.value(found) != FALSE {
                clauses.swap(span.start.saturating_add(watch & 1), place);
                self.take(code, before, watch);
                self.push(found, watch);
                return true;
            }
        }
        false
    }
}

/// Has a clause of which all codes but the other watched one are false, or this one is true, make it true.
/// Tells the clause where it is false.
#[inline(always)]
fn hold(clauses: &Clauses, trail: &mut Trail, watch: u32) -> Option<Reason> {
    let clause = clause_of(watch);
    let other = other_code(clauses, clauses.span(clause), watch);
    let value = trail.value(other);
    if value == FALSE {
        return Some(Reason::Listed(clause));
    }
    if value == FREE {
        trail.assign(other, Reason::Listed(clause));
    }
    None
}

/// The clause of a watch.
#[inline(always)]
fn clause_of(watch: u32) -> u32 {
    (watch / 2).wrapping_sub(1)
}

/// The other watched code of a watch's clause.
#[inline(always)]
fn other_code(clauses: &Clauses, span: Span, watch: u32) -> u32 {
    clauses.code(span.start.saturating_add(watch & 1 ^ 1))
}
