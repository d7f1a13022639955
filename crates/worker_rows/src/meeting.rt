//! Two workers run at once: each waits for the other behind its first draw.
use crate::nets::{pairs_of_ands, pool_for, solvers};
use desk_port::Gate;
use lemma_book::Book;
use lits::{Node, Side};
use std::alloc::Global;
use std::process::Abort;
use std::sync::Wait;
use std::sync::atomic::{AtomicBool, AtomicU64, Ordering};
use std::test::*;
use std::thread::{self, Threads};
use sweep_workers::{outputs, sweep};

/// How often the first caller looks for the second.
const LOOKS: u64 = 1_000_000_000;

/// Holds the first caller until the second has come, and has a mark where that one didn't.
#[derive(Drop)]
struct Meeting {
    calls: AtomicU64,
    is_missed: AtomicBool,
}

impl Meeting {
    fn new() -> Meeting {
        Meeting {
            calls: AtomicU64::new(0),
            is_missed: AtomicBool::new(false),
        }
    }

    /// Whether two came, and the first one didn't give up.
    fn is_kept(&self) -> bool {
        self.calls.load(Ordering::SeqCst) >= 2 && !self.is_missed.load(Ordering::SeqCst)
    }
}

impl Gate for Meeting {
    fn pass(&self, _worker: u32, _task: u64) {
        if self.calls.fetch_add(1, Ordering::SeqCst) > 0 {
            return;
        }
        for _ in 0..LOOKS {
            if self.calls.load(Ordering::SeqCst) > 1 {
                return;
            }
            thread::yield_now();
        }
        self.is_missed.store(true, Ordering::SeqCst);
    }
}

/// Workers on a sweep with two tasks.
fn meet_in_sweep<T: Threads + Wait + Sync + Abort>(rt: &T, alloc: Global, many: usize) {
    let net = pairs_of_ands(rt, alloc);
    let meeting = Meeting::new();
    let book = Book::new(alloc, 100_000, 100_000);
    let pool = pool_for(rt, alloc, &net);
    let solvers = solvers(rt, alloc, many);
    let (book, _pool, _solvers) = sweep(rt, alloc, &net, book, pool, solvers, &meeting).expect(
        rt, "memory",
    );
    assert!(rt; meeting.is_kept(), "two workers at once");
    assert!(rt; book.is_merged(Node::Gate(Side::B, 3)) && book.is_merged(Node::Gate(Side::B, 4)));
}

/// Workers on two outputs.
fn meet_in_outputs<T: Threads + Wait + Sync + Abort>(rt: &T, alloc: Global, many: usize) {
    let net = pairs_of_ands(rt, alloc);
    let meeting = Meeting::new();
    let book = Book::new(alloc, 100_000, 100_000);
    let solvers = solvers(rt, alloc, many);
    let (book, _solvers) = outputs(rt, alloc, &net, book, solvers, &meeting).expect(rt, "memory");
    assert!(rt; meeting.is_kept(), "two workers at once");
    assert!(rt; book.len() == 2, "an entry for each output");
}

#[test]
fn gate_of_a_sweep(rt: HostRuntime) {
    let alloc = rt.alloc();
    meet_in_sweep(&rt, alloc, 2);
    meet_in_sweep(&rt, alloc, 4);
}

#[test]
fn gate_of_outputs(rt: HostRuntime) {
    let alloc = rt.alloc();
    meet_in_outputs(&rt, alloc, 2);
    meet_in_outputs(&rt, alloc, 4);
}
