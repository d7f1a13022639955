use search_parts::Luby;

/// The clauses that are learned before the first restart by Luby's sequence, and the unit of the later ones.
const UNIT: u64 = 64;

/// How many conflicts a turn of one kind of restarts has: a power of two.
const TURN: u64 = 4096;

/// So many conflicts are there between two restarts at least.
const LEAST: u64 = 5;

/// What a level counts in the averages.
const LEVEL: u64 = 1 << 16;

/// When to restart, by turns of two kinds. In the first it is where the latest clauses span a tenth more levels than
/// all do (Audemard and Simon 2012), so that what goes badly is given up soon; in the second by Luby's sequence.
#[derive(Drop)]
pub(crate) struct Restarts {
    luby: Luby,
    /// How many clauses were learned, and how many since a restart.
    learned: u64,
    since: u64,
    /// How many levels the clauses span, on an average over some thirty of the latest and over some thousands.
    lately: u64,
    on_the_whole: u64,
}

impl Restarts {
    /// Before the first conflict.
    pub(crate) fn new() -> Restarts {
        Restarts {
            luby: Luby::new(UNIT),
            learned: 0,
            since: 0,
            lately: 0,
            on_the_whole: 0,
        }
    }

    /// Counts a learned clause that spans so many levels. Whether a restart is due.
    pub(crate) fn count(&mut self, levels: u32) -> bool {
        let levels = u64::from(levels).saturating_mul(LEVEL);
        if self.learned == 0 {
            self.lately = levels;
            self.on_the_whole = levels;
        }
        self.lately = averaged(self.lately, self.lately / 32, levels / 32);
        let less = self.on_the_whole / 4096;
        self.on_the_whole = averaged(self.on_the_whole, less, levels / 4096);
        self.learned = self.learned.saturating_add(1);
        if self.learned & TURN == 0 {
            return self.goes_badly();
        }
        self.luby.count()
    }

    /// Whether the latest clauses span more levels than all do.
    fn goes_badly(&mut self) -> bool {
        self.since = self.since.saturating_add(1);
        let is_more = self.lately.saturating_mul(10) > self.on_the_whole.saturating_mul(11);
        if self.since <= LEAST || !is_more {
            return false;
        }
        self.since = 0;
        true
    }
}

/// An average without a part of it, and with the same part of a new number.
fn averaged(average: u64, less: u64, more: u64) -> u64 {
    average.saturating_sub(less).saturating_add(more)
}
