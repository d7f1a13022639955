//! The progress that is warned while a check goes on, where it is asked for.
use crate::desk::{Ran, expect, run_by, run_words};
use crate::files::{SWAPPED, XORS};
use cec_top::Status;
use desk_port::Gate;
use std::process::Abort;
use std::rt::Clock;
use std::sync::Wait;
use std::sync::atomic::{AtomicBool, Ordering};
use std::test::*;
use std::thread::Threads;
use std::time::Duration;

/// Holds the first worker that comes longer than nothing is warned.
struct Slow<'a, R: Clock> {
    rt: &'a R,
    is_passed: AtomicBool,
}

impl<R: Clock> Drop for Slow<'_, R> {
    fn drop(self) {
        let Slow {
            rt: _,
            is_passed: _,
        } = self;
    }
}

impl<R: Clock> Gate for Slow<'_, R> {
    fn pass(&self, _worker: u32, _task: u64) {
        if !self.is_passed.swap(true, Ordering::SeqCst) {
            self.rt.sleep(Duration::from_millis(1200));
        }
    }
}

/// What stands behind a number, of which there is a digit at least.
fn behind_number(text: &[u8]) -> Option<&[u8]> {
    let end = text.iter().position(|byte| !byte.is_ascii_digit())?;
    let (number, rest) = text.split_at(end);
    if number.is_empty() { None } else { Some(rest) }
}

/// What stands behind the name of a part.
fn behind_part(text: &[u8]) -> Option<&[u8]> {
    for name in ["structure", "sweep", "outputs"] {
        if let Some(rest) = text.strip_prefix(name.as_bytes()) {
            return Some(rest);
        }
    }
    None
}

/// What stands behind a first line of progress.
fn behind_line(text: &[u8]) -> Option<&[u8]> {
    let rest = behind_part(text.strip_prefix(b"cec: progress ")?)?;
    let rest = behind_number(rest.strip_prefix(b" round ")?)?;
    let rest = behind_number(rest.strip_prefix(b", ")?)?;
    let rest = behind_number(rest.strip_prefix(b" of ")?)?;
    let rest = behind_number(rest.strip_prefix(b" settled, ")?)?;
    let rest = behind_number(rest.strip_prefix(b" open, ")?)?;
    rest.strip_prefix(b" s\n")
}

/// How many lines of progress a text is, if it is nothing else.
fn lines_in(text: &[u8]) -> Option<u64> {
    let mut rest = text;
    for count in 0..u64::MAX {
        if rest.is_empty() {
            return Some(count);
        }
        rest = behind_line(rest)?;
    }
    None
}

const ASKED: [&str; 4] = ["check", "A", "B", "--progress"];

/// Runs a check whose first task takes more than a second, and which has memory.
fn ran_slowly<R: Threads + Wait + Clock + Sync + Abort + AllocGlobal>(
    rt: &R,
    words: &[&str],
    fails: &[u64],
) -> Ran {
    let slow = Slow {
        rt,
        is_passed: AtomicBool::new(false),
    };
    run_by(rt, &XORS, words, fails, &slow).expect(rt, "memory")
}

/// A line is warned, and no more than two a second. What is said, and the status, are as without.
#[test]
fn of_two_xors(rt: HostRuntime) {
    let ran = ran_slowly(&rt, &ASKED, &[]);
    let lines = lines_in(ran.desk.warned());
    expect(&rt, "lines", lines.is_some_and(|count| count >= 1));
    expect(&rt, "status", ran.status == Status::Done);
    expect(&rt, "said", ran.desk.said() == b"EQUIVALENT\n".as_slice());
}

/// What was done stands behind it.
#[test]
fn before_statistics(rt: HostRuntime) {
    let ran = ran_slowly(&rt, &["check", "A", "B", "--stats", "--progress"], &[]);
    let warned = ran.desk.warned();
    expect(&rt, "progress", warned.starts_with(b"cec: progress "));
    expect(&rt, "a line", behind_line(warned).is_some());
    expect(&rt, "statistics", lines_in(warned).is_none());
    expect(&rt, "said", ran.desk.said() == b"EQUIVALENT\n".as_slice());
}

/// Nothing is warned of a check that is done before the first line is due, nor without being asked for.
#[test]
fn of_a_short_check(rt: HostRuntime) {
    let ran = run_words(&rt, &SWAPPED, &ASKED, &[]).expect(&rt, "memory");
    expect(&rt, "lines", lines_in(ran.desk.warned()).is_some());
    expect(&rt, "said", ran.desk.said() == b"EQUIVALENT\n".as_slice());
    let ran = ran_slowly(&rt, &["check", "A", "B"], &[]);
    expect(&rt, "silence", ran.desk.warned().is_empty());
}

/// A warning that fails, the third call of the desk behind two reads, leaves the verdict and the status.
#[test]
fn warning_fails(rt: HostRuntime) {
    let ran = ran_slowly(&rt, &ASKED, &[2]);
    expect(&rt, "status", ran.status == Status::Done);
    expect(&rt, "said", ran.desk.said() == b"EQUIVALENT\n".as_slice());
}
