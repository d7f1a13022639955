use search_parts::{HintSpan, at, count, part, put};
use std::alloc::{AllocError, Global};

/// What a clause is called.
#[derive(Clone, Copy)]
pub(crate) enum Name {
    /// Clause k of the gate at this position.
    Axiom(u32, u8),
    /// Clause k of the merge at this place of the book.
    Entry(u32, u8),
    /// This step of the equalities.
    Shown(u32),
    /// A clause that was learned.
    Lesson,
}

/// What is known of a clause beside its codes.
#[derive(Clone, Copy)]
pub(crate) struct Record {
    /// The place of its first code, among the words while it is watched.
    pub(crate) start: u32,
    pub(crate) name: Name,
    /// The numbers of the clauses that show it.
    pub(crate) hints: HintSpan,
    /// Whether it is watched.
    pub(crate) is_live: bool,
    /// The number of the proof that needed it last, and its own number among the steps of that.
    pub(crate) wanted: u32,
    pub(crate) order: u32,
}

const NOWHERE: Record = Record {
    start: 0,
    name: Name::Lesson,
    hints: HintSpan { start: 0, len: 0 },
    is_live: false,
    wanted: 0,
    order: 0,
};

/// How many words stand before a clause's first code: its number, its rank and its length.
const HEAD: u32 = 3;

/// The clauses of a search, one after the other in one list, so that a clause that is read takes one line of
/// the cache. A clause is named by the place of its first code. The two that are watched stand first.
///
/// A lesson that isn't watched any more keeps its codes and its hints, since a later one may rest on it. Its codes move
/// out of the list, so that those that are read stay close to each other.
#[derive(Drop)]
pub(crate) struct Store {
    words: Vec<u32>,
    /// Clauses that aren't watched any more, each as its length and its codes.
    dropped: Vec<u32>,
    /// The numbers of the clauses in the list, in its order.
    live: Vec<u32>,
    records: Vec<Record>,
    hints: Vec<u32>,
}

impl Store {
    /// No clauses.
    pub(crate) fn new(alloc: Global) -> Store {
        Store {
            words: Vec::new(alloc),
            dropped: Vec::new(alloc),
            live: Vec::new(alloc),
            records: Vec::new(alloc),
            hints: Vec::new(alloc),
        }
    }

    /// Forgets all clauses.
    pub(crate) fn clear(&mut self) {
        self.words.clear();
        self.dropped.clear();
        self.live.clear();
        self.records.clear();
        self.hints.clear();
    }

    /// How many clauses there are.
    pub(crate) fn len(&self) -> u32 {
        count(self.records.len())
    }

    /// Puts a clause last, shown by these hints, and gives its place. Its rank is the number of levels that it
    /// spans; 0 keeps it for good.
    pub(crate) fn push(
        &mut self,
        clause: &[u32],
        name: Name,
        hints: &[u32],
        rank: u32,
    ) -> Result<u32, AllocError> {
        let number = self.len();
        let start = count(self.words.len()).saturating_add(HEAD);
        let len = count(clause.len());
        let shown = HintSpan {
            start: count(self.hints.len()),
            len: count(hints.len()),
        };
        self.hints.extend_from_slice(hints)?;
        self.words
            .extend_from_slice(&[number, rank.wrapping_mul(2), len])?;
        self.words.extend_from_slice(clause)?;
        self.live.push(number)?;
        self.records.push(Record {
            start,
            name,
            hints: shown,
            is_live: true,
            ..NOWHERE
        })?;
        Ok(start)
    }

    /// The record of the clause of this number.
    pub(crate) fn record(&self, number: u32) -> Record {
        match self.records.get(number as usize) {
            Some(record) => *record,
            None => NOWHERE,
        }
    }

    /// Says what is known of the clause of this number.
    pub(crate) fn set_record(&mut self, number: u32, record: Record) {
        let number = number as usize;
        if number < self.records.len() {
            self.records[number] = record;
        }
    }

    /// Has the clause of this number not watched any more.
    pub(crate) fn drop_clause(&mut self, number: u32) {
        let number = number as usize;
        if number < self.records.len() {
            self.records[number].is_live = false;
        }
    }

    /// How many clauses are in the list.
    pub(crate) fn listed(&self) -> u32 {
        count(self.live.len())
    }

    /// The number of the clause that is at a place of the list.
    pub(crate) fn listed_at(&self, place: u32) -> u32 {
        at(&self.live, place)
    }

    /// Moves those out of the list that aren't watched any more, and closes the gaps that they leave.
    pub(crate) fn close_gaps(&mut self) -> Result<(), AllocError> {
        let mut kept: u32 = 0;
        let mut end: u32 = 0;
        for place in 0..count(self.live.len()) {
            let number = at(&self.live, place);
            if self.record(number).is_live {
                end = self.move_down(number, end);
                put(&mut self.live, kept, number);
                kept = kept.saturating_add(1);
            } else {
                self.move_out(number)?;
            }
        }
        self.live.truncate(kept as usize);
        self.words.truncate(end as usize);
        Ok(())
    }

    /// Moves the clause of this number down to a place of the list. Tells where it ends.
    fn move_down(&mut self, number: u32, to: u32) -> u32 {
        let mut record = self.record(number);
        let from = record.start.saturating_sub(HEAD);
        let len = self.size_of(record.start).saturating_add(HEAD);
        for place in 0..len {
            let word = at(&self.words, from.saturating_add(place));
            put(&mut self.words, to.saturating_add(place), word);
        }
        record.start = to.saturating_add(HEAD);
        self.set_record(number, record);
        to.saturating_add(len)
    }

    /// Moves the clause of this number out of the list.
    fn move_out(&mut self, number: u32) -> Result<(), AllocError> {
        let mut record = self.record(number);
        let len = self.size_of(record.start);
        self.dropped.push(len)?;
        let start = count(self.dropped.len());
        self.dropped
            .extend_from_slice(part(&self.words, record.start, len))?;
        record.start = start;
        self.set_record(number, record);
        Ok(())
    }

    /// Brings the clause of this number back into the list, if it isn't there. Tells its place.
    pub(crate) fn bring_back(&mut self, number: u32) -> Result<u32, AllocError> {
        let mut record = self.record(number);
        if record.is_live {
            return Ok(record.start);
        }
        let len = at(&self.dropped, record.start.wrapping_sub(1));
        let place = count(self.words.len()).saturating_add(HEAD);
        self.words.extend_from_slice(&[number, 0, len])?;
        self.words
            .extend_from_slice(part(&self.dropped, record.start, len))?;
        self.live.push(number)?;
        record.start = place;
        record.is_live = true;
        self.set_record(number, record);
        Ok(place)
    }

    /// Says by which hints the clause of this number is shown.
    pub(crate) fn set_hints(&mut self, number: u32, hints: &[u32]) -> Result<(), AllocError> {
        let mut record = self.record(number);
        record.hints = HintSpan {
            start: count(self.hints.len()),
            len: count(hints.len()),
        };
        self.hints.extend_from_slice(hints)?;
        self.set_record(number, record);
        Ok(())
    }

    /// The hints at these places.
    pub(crate) fn hints(&self, hints: HintSpan) -> &[u32] {
        part(&self.hints, hints.start, hints.len)
    }

    /// The number of the clause that is the hint at this place.
    pub(crate) fn hint(&self, place: u32) -> u32 {
        at(&self.hints, place)
    }

    /// The number of the clause at a place.
    #[inline(always)]
    pub(crate) fn number(&self, clause: u32) -> u32 {
        at(&self.words, clause.wrapping_sub(3))
    }

    /// How many levels the clause at a place spanned when it was learned.
    pub(crate) fn rank(&self, clause: u32) -> u32 {
        at(&self.words, clause.wrapping_sub(2)) / 2
    }

    /// Notes that the clause at a place was met.
    #[inline(always)]
    pub(crate) fn note_use(&mut self, clause: u32) {
        let place = clause.wrapping_sub(2);
        let rank = at(&self.words, place);
        put(&mut self.words, place, rank | 1);
    }

    /// Whether the clause at a place was met since this was last asked.
    pub(crate) fn take_use(&mut self, clause: u32) -> bool {
        let place = clause.wrapping_sub(2);
        let rank = at(&self.words, place);
        put(&mut self.words, place, rank / 2 * 2);
        rank & 1 == 1
    }

    /// The codes of the clause of this number, watched or not.
    pub(crate) fn codes_of(&self, number: u32) -> &[u32] {
        let record = self.record(number);
        if record.is_live {
            return self.codes(record.start);
        }
        let len = at(&self.dropped, record.start.wrapping_sub(1));
        part(&self.dropped, record.start, len)
    }

    /// How many codes the clause at a place has.
    #[inline(always)]
    pub(crate) fn size_of(&self, clause: u32) -> u32 {
        at(&self.words, clause.wrapping_sub(1))
    }

    /// The codes of the clause at a place.
    #[inline(always)]
    pub(crate) fn codes(&self, clause: u32) -> &[u32] {
        part(&self.words, clause, self.size_of(clause))
    }

    /// All words, for a scan of many clauses.
    #[inline(always)]
    pub(crate) fn words(&mut self) -> &mut [u32] {
        self.words.as_mut_slice()
    }

    /// The code at a place.
    #[inline(always)]
    pub(crate) fn code(&self, place: u32) -> u32 {
        at(&self.words, place)
    }
}
