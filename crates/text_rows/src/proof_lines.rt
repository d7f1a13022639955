use crate::checks::{check, check_bytes, is_bytes, is_told};
use crate::tables::{Table, check_rows};
use lits::{Dim, Listed};
use lrat_text::{Line, Lines, LratErr, LratStep, push_line, read};
use std::alloc::{AllocError, Global};
use std::process::Abort;
use std::test::*;

fn addition(alloc: Global, id: u64, clause: &[Dim], hints: &[u64]) -> Result<LratStep, AllocError> {
    Ok(LratStep::Add {
        id,
        clause: Listed::of(Vec::from_slice(alloc, clause)?),
        hints: Listed::of(Vec::from_slice(alloc, hints)?),
    })
}

/// The steps written again, each with the last addition's id before it.
fn written(alloc: Global, lines: &[Line]) -> Result<Vec<u8>, AllocError> {
    let mut text = Vec::new(alloc);
    let mut last = 0;
    for line in lines {
        push_line(&mut text, last, &line.step)?;
        if let LratStep::Add { id, .. } = &line.step {
            last = *id;
        }
    }
    Ok(text)
}

/// Whether the lines have these numbers.
fn have_numbers(lines: &[Line], at: &[u64]) -> bool {
    if lines.len() != at.len() {
        return false;
    }
    for i in 0..at.len() {
        if lines[i].at != at[i] {
            return false;
        }
    }
    true
}

/// Whether the steps are written as this text.
fn are_written(alloc: Global, lines: &[Line], text: &[u8]) -> bool {
    is_bytes(written(alloc, lines), text)
}

/// Reads a text for a formula of so many clauses, and compares its steps with the text that they are written
/// by, and the numbers of its lines.
fn check_read(rt: &impl Abort, alloc: Global, clauses: u64, text: &[u8], again: &[u8], at: &[u64]) {
    let is_read = match read(alloc, text, clauses) {
        Ok(lines) => {
            have_numbers(lines.as_slice(), at) && are_written(alloc, lines.as_slice(), again)
        }
        Err(_) => false,
    };
    check_bytes(rt, text, is_read);
}

/// Appends the line of a step, if memory was there for it.
fn push_step(
    text: &mut Vec<u8>,
    last: u64,
    step: Result<LratStep, AllocError>,
) -> Result<(), AllocError> {
    push_line(text, last, &step?)
}

/// The line of a step that follows from the formula's second clause.
fn one_line(alloc: Global) -> Result<Vec<u8>, AllocError> {
    let mut text = Vec::new(alloc);
    push_step(&mut text, 0, addition(alloc, 3, &[], &[2]))?;
    Ok(text)
}

#[test]
fn lrat_line(rt: HostRuntime) {
    let line = b"3 0 2 0\n";
    check(&rt, "written", is_bytes(one_line(rt.alloc()), line));
    check_read(&rt, rt.alloc(), 2, line, line, &[1]);
    let fault = read(rt.alloc(), line, 3).err();
    check(&rt, "of three clauses", fault == Some(LratErr::Order(1)));
}

/// An addition with numbers as large as they may be.
fn large_addition(alloc: Global) -> Result<LratStep, AllocError> {
    let clause = [Dim::new(2_147_483_647, true), Dim::new(1, false)];
    addition(alloc, 999_999_999_999_999_999, &clause, &[7, 12])
}

fn deletion(alloc: Global) -> Result<LratStep, AllocError> {
    let ids = Listed::of(Vec::from_slice(alloc, &[3, 99])?);
    Ok(LratStep::Del { ids })
}

/// Both behind a word.
fn both_lines(alloc: Global) -> Result<Vec<u8>, AllocError> {
    let mut text = Vec::from_slice(alloc, b"kept ")?;
    push_step(&mut text, 5, large_addition(alloc))?;
    push_step(&mut text, 13, deletion(alloc))?;
    Ok(text)
}

#[test]
fn written_steps(rt: HostRuntime) {
    let want = b"kept 999999999999999999 -2147483647 1 0 7 12 0\n13 d 3 99 0\n";
    check(&rt, "both", is_bytes(both_lines(rt.alloc()), want));
}

/// A text, the text that its steps are written by, and the numbers of its lines.
static READ_TEXTS: [(&[u8], &[u8], &[u64]); 4] = [
    (
        b"13 -4 5 0 2 3 7 0\n13 d 99 0\n14 4 -5 0 5 6 4 0\n17 0 16 12 0\n",
        b"13 -4 5 0 2 3 7 0\n13 d 99 0\n14 4 -5 0 5 6 4 0\n17 0 16 12 0\n",
        &[1, 2, 3, 4],
    ),
    (b"", b"", &[]),
    // Lines without words count, spaces may be many, and the last LF may be missing.
    (
        b"\n  \n 013  -4 5 00 2  0 \n\n14 d 0",
        b"13 -4 5 0 2 0\n13 d 0\n",
        &[3, 5],
    ),
    // A deletion's first number isn't judged, and a literal is bound by its size alone.
    (
        b"-1000000000000000000000 d 999999999999999999 0\n13 -2147483647 0 0\n",
        b"0 d 999999999999999999 0\n13 -2147483647 0 0\n",
        &[1, 2],
    ),
];

/// A text, and its first fault.
const FAULTS: &str = concat!(
    // words that are no numbers
    "13 -0 0 1 0\n => line 1: bad number;",
    "13 1 0 1 0\n\nx 0 1 0\n => line 3: bad number;",
    "13 1 0 1 0\r\n => line 1: bad number;",
    "13\t0 1 0\n => line 1: bad number;",
    "13 + 0 1 0\n => line 1: bad number;",
    "13 1 0 - 0\n => line 1: bad number;",
    "13 1d 0 1 0\n => line 1: bad number;",
    "d 13 0\n => line 1: bad number;",
    "13 1 d 0\n => line 1: bad number;",
    "x d 1 0\n => line 1: bad number;",
    "-00 d 1 0\n => line 1: bad number;",
    // numbers out of place
    "0 1 0 1 0\n => line 1: bad number;",
    "-13 1 0 1 0\n => line 1: bad number;",
    "1000000000000000000 1 0 1 0\n => line 1: bad number;",
    "13 2147483648 0 1 0\n => line 1: bad number;",
    "13 -2147483648 0 1 0\n => line 1: bad number;",
    "13 1 0 1000000000000000000 0\n => line 1: bad number;",
    "13 1 0 -1000000000000000000 0\n => line 1: bad number;",
    "13 1 0 1 0 0\n => line 1: bad number;",
    "13 d -1 0\n => line 1: bad number;",
    "13 d 1000000000000000000 0\n => line 1: bad number;",
    "13 d 1 0 2\n => line 1: bad number;",
    // whole lines
    // A missing 0 is judged before the id and the hints.
    "13\n => line 1: ends too early;",
    "12 1\n => line 1: ends too early;",
    "12 1 0 -1 => line 1: ends too early;",
    "13 d 1\n => line 1: ends too early;",
    "13 d => line 1: ends too early;",
    "12 1 0 -1 0\n => line 1: id out of order;",
    "13 1 0 1 0\n13 2 0 1 0\n => line 2: id out of order;",
    "14 1 0 1 0\n14 d 14 0\n13 2 0 1 0\n => line 3: id out of order;",
    "13 -4 5 0 -2 3 7 0\n => line 1: negative hint;",
    "13 1 0 1 0\n14 2 0 1 -1 0\n => line 2: negative hint",
);

/// The fault of such a text, for a formula of 12 clauses.
struct Faults;

impl Table for Faults {
    fn is_met(alloc: Global, file: &str, words: &str) -> bool {
        is_told(alloc, read(alloc, file.as_bytes(), 12).err(), words)
    }
}

/// Each for a formula of 12 clauses.
#[test]
fn read_texts(rt: HostRuntime) {
    for (text, again, at) in &READ_TEXTS {
        check_read(&rt, rt.alloc(), 12, text, again, at);
    }
    check_rows::<Faults>(&rt, rt.alloc(), FAULTS);
}

/// Whether the next line has this number.
fn is_next(lines: &mut Lines<'_>, alloc: Global, at: u64) -> bool {
    match lines.next(alloc) {
        Ok(Some(line)) => line.at == at,
        _ => false,
    }
}

#[test]
fn lines_come_one_by_one(rt: HostRuntime) {
    let alloc = rt.alloc();
    let mut lines = Lines::new(b"5 1 0 1 0\n\n5 d 1 0", 4);
    check(&rt, "the first line", is_next(&mut lines, alloc, 1));
    check(
        &rt,
        "the line behind an empty one",
        is_next(&mut lines, alloc, 3),
    );
    let is_end = matches!(lines.next(alloc), Ok(None));
    check(&rt, "no line is left", is_end);
}

#[test]
fn lines_that_are_skipped(rt: HostRuntime) {
    let alloc = rt.alloc();
    let mut lines = Lines::new(b"5 1 0 1 0\n5 d 1 0\n", 4);
    check(&rt, "the first line", is_next(&mut lines, alloc, 1));
    check(&rt, "the rest has a form", lines.skip_rest(alloc) == Ok(()));
    let mut faulty = Lines::new(b"5 1 0 1 0\n5 2 0 1 0\n", 4);
    check(&rt, "the first of two", is_next(&mut faulty, alloc, 1));
    let is_fault = faulty.skip_rest(alloc) == Err(LratErr::Order(2));
    check(&rt, "the rest has a fault", is_fault);
}
