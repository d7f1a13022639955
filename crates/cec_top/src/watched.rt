//! What a check tells of itself while it goes on, for a thread that looks at it from outside.
use crate::progress::Progress;
use desk_port::Gate;
use std::rt::Clock;
use std::sync::Wait;
use std::sync::atomic::{AtomicU64, Ordering};
use std::thread::Parker;
use std::time::{Duration, Instant};
use sweep_workers::{Part, Watch};

/// Where a check stands: not begun, begun or done.
const WAITING: u64 = 0;

const GOING: u64 = 1;

const DONE: u64 = 2;

/// The thousandths of a second at which a part begins that hasn't begun, or that the clock doesn't tell.
const NEVER: u64 = u64::MAX;

/// How many pauses a thread has to begin a check.
const PAUSES_TO_BEGIN: u64 = 4;

/// How long the parts of a check took, in thousandths of a second, where that is known.
#[derive(Clone, Copy)]
pub(crate) struct Parts {
    pub(crate) structure: Option<u64>,
    pub(crate) sweep: Option<u64>,
    pub(crate) outputs: Option<u64>,
}

/// A gate that keeps what a check told last. The numbers are changed one after the other, so who looks between
/// sees some of them new and some of them old.
pub(crate) struct Watched<'a, R: Clock, G: Gate> {
    rt: &'a R,
    gate: &'a G,
    /// When the check began, where the clock can be read.
    begun: Option<Instant>,
    state: AtomicU64,
    part: AtomicU64,
    round: AtomicU64,
    tasks: AtomicU64,
    settled: AtomicU64,
    open: AtomicU64,
    /// When the parts began, in thousandths of a second since the check did.
    structure: AtomicU64,
    sweep: AtomicU64,
    outputs: AtomicU64,
    /// On which the thread waits that looks.
    parker: Parker,
}

impl<R: Clock, G: Gate> Drop for Watched<'_, R, G> {
    fn drop(self) {
        let Watched {
            rt: _,
            gate: _,
            begun: _,
            state: _,
            part: _,
            round: _,
            tasks: _,
            settled: _,
            open: _,
            structure: _,
            sweep: _,
            outputs: _,
            parker: _,
        } = self;
    }
}

impl<R: Clock, G: Gate> Gate for Watched<'_, R, G> {
    fn pass(&self, worker: u32, task: u64) {
        self.gate.pass(worker, task);
    }
}

impl<R: Clock, G: Gate> Watch for Watched<'_, R, G> {
    fn begins(&self, part: Part, round: u64, tasks: u64) {
        if round == 0 {
            self.start_of(part).store(self.passed(), Ordering::SeqCst);
        }
        self.part.store(number_of(part), Ordering::SeqCst);
        self.round.store(round, Ordering::SeqCst);
        self.settled.store(0, Ordering::SeqCst);
        self.tasks.store(tasks, Ordering::SeqCst);
    }

    fn settles(&self, is_open: bool) {
        self.settled.fetch_add(1, Ordering::SeqCst);
        if is_open {
            self.open.fetch_add(1, Ordering::SeqCst);
        }
    }
}

impl<'a, R: Clock, G: Gate> Watched<'a, R, G> {
    /// A gate for a check that begins now.
    pub(crate) fn new(rt: &'a R, gate: &'a G) -> Watched<'a, R, G> {
        Watched {
            rt,
            gate,
            begun: Instant::now(rt).ok(),
            state: AtomicU64::new(WAITING),
            part: AtomicU64::new(0),
            round: AtomicU64::new(0),
            tasks: AtomicU64::new(0),
            settled: AtomicU64::new(0),
            open: AtomicU64::new(0),
            structure: AtomicU64::new(NEVER),
            sweep: AtomicU64::new(NEVER),
            outputs: AtomicU64::new(NEVER),
            parker: Parker::new(),
        }
    }

    /// Notes that the check goes on in a thread, or is done, and wakes who waits for that.
    pub(crate) fn note_begun(&self) {
        self.state.store(GOING, Ordering::SeqCst);
        self.parker.unpark();
    }

    pub(crate) fn note_done(&self) {
        self.state.store(DONE, Ordering::SeqCst);
        self.parker.unpark();
    }

    fn is_done(&self) -> bool {
        self.state.load(Ordering::SeqCst) == DONE
    }

    /// Waits until the check has begun in another thread. Tells whether it did: where no thread can be made it
    /// is called by this one, but only when this one waits no longer.
    pub(crate) fn has_begun<W: Wait>(&self, rt: &W) -> bool {
        for _ in 0..PAUSES_TO_BEGIN {
            if self.state.load(Ordering::SeqCst) != WAITING {
                return true;
            }
            self.parker.park_timeout(rt, pause());
        }
        false
    }

    /// Waits for a pause, or until the check is done. Tells whether it goes on: where the clock can't be read
    /// nobody knows how long a pause is, so it counts as done.
    pub(crate) fn goes_on<W: Wait>(&self, rt: &W) -> bool {
        let Ok(from) = Instant::now(self.rt) else {
            return false;
        };
        for _ in rt.forever() {
            if self.is_done() {
                return false;
            }
            match from.elapsed(self.rt) {
                Ok(passed) if passed < pause() => self.parker.park_timeout(rt, pause()),
                Ok(_) => return true,
                Err(_) => return false,
            }
        }
        false
    }

    /// How far the check is.
    pub(crate) fn progress(&self) -> Progress {
        Progress {
            part: part_of(self.part.load(Ordering::SeqCst)),
            round: self.round.load(Ordering::SeqCst),
            settled: self.settled.load(Ordering::SeqCst),
            tasks: self.tasks.load(Ordering::SeqCst),
            open: self.open.load(Ordering::SeqCst),
            seconds: self.seconds(),
        }
    }

    /// How long the parts took of a check that is done now.
    pub(crate) fn parts(&self) -> Parts {
        let structure = self.structure.load(Ordering::SeqCst);
        let sweep = self.sweep.load(Ordering::SeqCst);
        let outputs = self.outputs.load(Ordering::SeqCst);
        let now = self.passed();
        Parts {
            structure: span(structure, sweep.min(now)),
            sweep: span(sweep, outputs.min(now)),
            outputs: span(outputs, now),
        }
    }

    /// Where it is noted when a part began.
    fn start_of(&self, part: Part) -> &AtomicU64 {
        match part {
            Part::Structure => &self.structure,
            Part::Sweep => &self.sweep,
            Part::Outputs => &self.outputs,
        }
    }

    /// The thousandths of a second since the check began.
    fn passed(&self) -> u64 {
        match (self.begun, Instant::now(self.rt)) {
            (Some(begun), Ok(now)) => {
                u64::try_from(now.duration_since(begun).as_millis()).unwrap_or(NEVER)
            }
            _ => NEVER,
        }
    }

    /// The seconds since the check began, and 0 where the clock can't be read.
    fn seconds(&self) -> u64 {
        match self.passed() {
            NEVER => 0,
            passed => passed / 1000,
        }
    }
}

/// The time between two looks at the clock, where it told both.
fn span(from: u64, to: u64) -> Option<u64> {
    if from == NEVER || to == NEVER {
        None
    } else {
        to.checked_sub(from)
    }
}

/// How long nothing is warned between two lines.
fn pause() -> Duration {
    Duration::from_millis(500)
}

fn number_of(part: Part) -> u64 {
    match part {
        Part::Structure => 0,
        Part::Sweep => 1,
        Part::Outputs => 2,
    }
}

fn part_of(number: u64) -> Part {
    match number {
        0 => Part::Structure,
        1 => Part::Sweep,
        _ => Part::Outputs,
    }
}
