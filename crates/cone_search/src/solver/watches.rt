use crate::solver::store::Store;
use search_parts::count;
use std::alloc::{AllocError, Global};

/// That a clause watches a code. Where the blocker, another code of it, is true, the clause isn't read; nor is
/// one of two codes, since the blocker is the other one.
#[derive(Clone, Copy)]
pub(crate) struct Watch {
    pub(crate) clause: u32,
    pub(crate) blocker: u32,
    pub(crate) is_two: bool,
}

const NOTHING: Watch = Watch {
    clause: 0,
    blocker: 0,
    is_two: false,
};

/// Where the watches of a code stand, and how many there is room for.
#[derive(Clone, Copy)]
struct Span {
    start: u32,
    len: u32,
    room: u32,
}

const NOWHERE: Span = Span {
    start: 0,
    len: 0,
    room: 0,
};

/// The clauses that watch each code, in one pool. A list that outgrows its room moves to the pool's end.
#[derive(Drop)]
pub(crate) struct Watches {
    spans: Vec<Span>,
    pool: Vec<Watch>,
    /// How many watches were visited.
    visited: u64,
}

impl Watches {
    /// No watches.
    pub(crate) fn new(alloc: Global) -> Watches {
        Watches {
            spans: Vec::new(alloc),
            pool: Vec::new(alloc),
            visited: 0,
        }
    }

    /// Forgets all.
    pub(crate) fn clear(&mut self) {
        self.spans.clear();
        self.pool.clear();
    }

    /// How many watches were visited; those that are forgotten count too.
    pub(crate) fn visited(&self) -> u64 {
        self.visited
    }

    /// Counts the watches of a code that is visited.
    #[inline(always)]
    pub(crate) fn note_visit(&mut self, code: u32) {
        self.visited = self.visited.wrapping_add(u64::from(self.len(code)));
    }

    /// Forgets all watches, but not the codes.
    pub(crate) fn empty(&mut self) {
        self.spans.fill(NOWHERE);
        self.pool.clear();
    }

    /// Makes two empty lists, for the codes of the next variable.
    pub(crate) fn grow(&mut self) -> Result<(), AllocError> {
        self.spans.extend_from_slice(&[NOWHERE, NOWHERE])
    }

    /// Where a code's list begins in the pool.
    #[inline(always)]
    pub(crate) fn start(&self, code: u32) -> u32 {
        self.span(code).start
    }

    /// How many watches a code has.
    #[inline(always)]
    pub(crate) fn len(&self, code: u32) -> u32 {
        self.span(code).len
    }

    /// Says how many of its watches a code keeps.
    #[inline(always)]
    pub(crate) fn set_len(&mut self, code: u32, len: u32) {
        let code = code as usize;
        if code < self.spans.len() {
            self.spans[code].len = len;
        }
    }

    #[inline(always)]
    fn span(&self, code: u32) -> Span {
        match self.spans.get(code as usize) {
            Some(span) => *span,
            None => NOWHERE,
        }
    }

    /// The watch at a place of the pool.
    #[inline(always)]
    pub(crate) fn get(&self, place: u32) -> Watch {
        match self.pool.get(place as usize) {
            Some(watch) => *watch,
            None => NOTHING,
        }
    }

    /// The watches from a place of the pool up to another.
    #[inline(always)]
    pub(crate) fn part(&mut self, start: u32, end: u32) -> &mut [Watch] {
        let end = self.pool.len().min(end as usize);
        let start = end.min(start as usize);
        &mut self.pool[start..end]
    }

    /// Writes a watch at a place of the pool.
    #[inline(always)]
    pub(crate) fn set(&mut self, place: u32, watch: Watch) {
        let place = place as usize;
        if place < self.pool.len() {
            self.pool[place] = watch;
        }
    }

    /// Puts a watch last in a code's list.
    #[inline(always)]
    pub(crate) fn push(&mut self, code: u32, watch: Watch) -> Result<(), AllocError> {
        let span = self.span(code);
        if span.len >= span.room {
            return self.move_list(code, span, watch);
        }
        self.set(span.start.wrapping_add(span.len), watch);
        self.set_len(code, span.len.wrapping_add(1));
        Ok(())
    }

    /// Has a clause watched by its first two codes.
    pub(crate) fn watch(&mut self, store: &Store, clause: u32) -> Result<(), AllocError> {
        let first = store.code(clause);
        let second = store.code(clause.wrapping_add(1));
        let is_two = store.size_of(clause) == 2;
        let one = Watch {
            clause,
            blocker: second,
            is_two,
        };
        let two = Watch {
            clause,
            blocker: first,
            is_two,
        };
        self.push(first, one)?;
        self.push(second, two)
    }

    /// Has a clause watched no more.
    pub(crate) fn unwatch(&mut self, store: &Store, clause: u32) {
        self.remove(store.code(clause), clause);
        self.remove(store.code(clause.wrapping_add(1)), clause);
    }

    /// Takes the watch of a clause out of a code's list.
    fn remove(&mut self, code: u32, clause: u32) {
        let span = self.span(code);
        let end = span.start.saturating_add(span.len);
        for place in span.start..end {
            if self.get(place).clause == clause {
                let last = self.get(end.saturating_sub(1));
                self.set(place, last);
                self.set_len(code, span.len.saturating_sub(1));
                return;
            }
        }
    }

    /// Moves a code's list to the pool's end, with twice the room, and puts a watch last in it.
    fn move_list(&mut self, code: u32, span: Span, watch: Watch) -> Result<(), AllocError> {
        let start = count(self.pool.len());
        for place in span.start..span.start.saturating_add(span.len) {
            let moved = self.get(place);
            self.pool.push(moved)?;
        }
        let len = span.len.saturating_add(1);
        let room = len.saturating_mul(2).max(4);
        for _ in span.len..room {
            self.pool.push(watch)?;
        }
        let code = code as usize;
        if code < self.spans.len() {
            self.spans[code] = Span { start, len, room };
        }
        Ok(())
    }
}
