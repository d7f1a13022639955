//! The workers of a check run at once: the gate holds the first until a second has come.
use crate::desk::{Ran, expect, run_by};
use desk_port::Gate;
use std::process::Abort;
use std::rt::Clock;
use std::sync::Wait;
use std::sync::atomic::{AtomicBool, AtomicU64, Ordering};
use std::test::*;
use std::thread::{self, Threads};

/// How often the first caller looks for the second.
const LOOKS: u64 = 1_000_000_000;

/// Holds the first caller until the second has come, and has a mark where that one didn't.
#[derive(Drop)]
struct Meeting {
    calls: AtomicU64,
    is_missed: AtomicBool,
}

impl Meeting {
    fn new() -> Meeting {
        Meeting {
            calls: AtomicU64::new(0),
            is_missed: AtomicBool::new(false),
        }
    }

    /// Whether two came, and the first one didn't give up.
    fn is_kept(&self) -> bool {
        self.calls.load(Ordering::SeqCst) >= 2 && !self.is_missed.load(Ordering::SeqCst)
    }
}

impl Gate for Meeting {
    fn pass(&self, _worker: u32, _task: u64) {
        if self.calls.fetch_add(1, Ordering::SeqCst) > 0 {
            return;
        }
        for _ in 0..LOOKS {
            if self.calls.load(Ordering::SeqCst) > 1 {
                return;
            }
            thread::yield_now();
        }
        self.is_missed.store(true, Ordering::SeqCst);
    }
}

/// Two XORs of two inputs each, and the same ones by other gates: two pairs of nodes to be settled.
const PAIRS_OF_XORS: [(&str, &[u8]); 2] = [
    (
        "A",
        b"aag 10 4 0 2 6\n2\n4\n6\n8\n15\n21\n\
          10 2 5\n12 3 4\n14 11 13\n16 6 9\n18 7 8\n20 17 19\n",
    ),
    (
        "B",
        b"aag 10 4 0 2 6\n2\n4\n6\n8\n14\n20\n\
          10 2 4\n12 3 5\n14 11 13\n16 6 8\n18 7 9\n20 17 19\n",
    ),
];

/// Runs the check by so many workers behind a gate of its own, where two have to meet.
fn meet(rt: &(impl Threads + Wait + Clock + Sync + Abort + AllocGlobal), many: &str) {
    let meeting = Meeting::new();
    let words = ["check", "A", "B", "--workers", many];
    let ran: Option<Ran> = run_by(rt, &PAIRS_OF_XORS, &words, &[], &meeting).ok();
    let is_equal = match ran {
        Some(ran) => ran.desk.said() == b"EQUIVALENT\n".as_slice(),
        None => false,
    };
    expect(rt, "both XORs are equal", is_equal);
    expect(rt, "two workers at once", meeting.is_kept());
}

#[test]
fn gate_of_a_check(rt: HostRuntime) {
    meet(&rt, "2");
    meet(&rt, "4");
}
