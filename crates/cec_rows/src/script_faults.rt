//! A script of three checks in which one call of the desk fails, each in turn.
use crate::desk::{Ran, expect, run_words};
use crate::scripts::{LEFT, SAID, THERE_AND_BACK};
use std::alloc::AllocError;
use std::process::Abort;
use std::rt::Clock;
use std::sync::Wait;
use std::test::*;
use std::thread::Threads;

/// Calls from the first to the last, by their numbers from 0: the status where one of them fails, and how
/// many checks are said whole then. Where the call says a verdict, a first part of it may be said behind them.
#[derive(Clone, Copy)]
struct Calls {
    first: u64,
    last: u64,
    status: u8,
    whole: usize,
    says: bool,
}

const WRITES: Calls = Calls {
    first: 3,
    last: 8,
    status: 6,
    whole: 0,
    says: false,
};

/// Three reads; of each check start, write and close of the CNF, the same of the proof, and its verdict. The
/// proof of the check that differs is empty and isn't written.
static CALLS: [Calls; 7] = [
    Calls {
        first: 0,
        last: 2,
        status: 5,
        ..WRITES
    },
    WRITES,
    Calls {
        first: 9,
        last: 9,
        says: true,
        ..WRITES
    },
    Calls {
        first: 10,
        last: 14,
        whole: 1,
        ..WRITES
    },
    Calls {
        first: 15,
        last: 15,
        whole: 1,
        says: true,
        ..WRITES
    },
    Calls {
        first: 16,
        last: 21,
        whole: 2,
        ..WRITES
    },
    Calls {
        first: 22,
        last: 22,
        whole: 2,
        says: true,
        ..WRITES
    },
];

/// The line that is warned where the call fails.
fn line_of(call: u64) -> &'static [u8] {
    match call {
        0 => b"cec: A: cannot read\n",
        1 => b"cec: B: cannot read\n",
        2 => b"cec: F: cannot read\n",
        _ => b"cec: cannot write\n",
    }
}

/// Whether the verdicts of so many checks are said, and no more than a first part of the next one where that
/// may be.
fn are_said(said: &[u8], whole: usize, says: bool) -> bool {
    let mut rest = said;
    for text in SAID.iter().take(whole) {
        match rest.strip_prefix(text.as_bytes()) {
            Some(more) => rest = more,
            None => return false,
        }
    }
    match SAID.get(whole) {
        Some(next) if says => next.as_bytes().starts_with(rest),
        _ => rest.is_empty(),
    }
}

/// The names of the files of each check.
const NAMES: [[&str; 2]; 3] = [
    ["p.0.cnf", "p.0.lrat"],
    ["p.1.cnf", "p.1.lrat"],
    ["p.2.cnf", "p.2.lrat"],
];

/// Whether the files of so many checks are those of a run in which no call fails.
fn are_left(ran: &Ran, all: &Ran, whole: usize) -> bool {
    for names in NAMES.iter().take(whole) {
        for name in names {
            let file = ran.desk.file(name);
            if file.is_none() || file != all.desk.file(name) {
                return false;
            }
        }
    }
    true
}

/// How many books are handed back: that of the last check that was made, and none where a file isn't read.
fn books_of(status: u8) -> usize {
    if status == 5 { 0 } else { 1 }
}

/// Whether a run in which the call fails ends so.
fn ends_so(
    rt: &(impl Threads + Wait + Clock + Sync + AllocGlobal),
    all: &Ran,
    calls: Calls,
    call: u64,
) -> Result<bool, AllocError> {
    let ran = run_words(rt, &THERE_AND_BACK, &LEFT, &[call])?;
    Ok(
        ran.status.code() == calls.status
            && ran.desk.warned() == line_of(call)
            && are_said(ran.desk.said(), calls.whole, calls.says)
            && are_left(&ran, all, calls.whole)
            && ran.kept.len() == books_of(calls.status),
    )
}

fn check_calls(rt: &(impl Threads + Wait + Clock + Sync + Abort + AllocGlobal), all: &Ran) {
    for calls in &CALLS {
        for call in calls.first..=calls.last {
            expect(
                rt,
                "a call that fails",
                ends_so(rt, all, *calls, call) == Ok(true),
            );
        }
    }
}

/// Verdicts that were said, and their files, stand whatever fails later.
#[test]
fn each_call_of_a_script_failing(rt: HostRuntime) {
    // Nothing fails behind the last call.
    match run_words(&rt, &THERE_AND_BACK, &LEFT, &[23]) {
        Ok(all) => {
            expect(&rt, "all verdicts", are_said(all.desk.said(), 3, false));
            expect(&rt, "status 0", all.status.code() == 0);
            check_calls(&rt, &all);
        }
        Err(AllocError) => expect(&rt, "memory", false),
    }
}
