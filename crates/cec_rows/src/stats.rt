//! The statistics that are warned behind a verdict where they are asked for.
use crate::desk::{Ran, expect, run_words};
use crate::files::{AGAINST_FALSE, SWAPPED, SWAPPED_A, SWAPPED_B, TIGHT, XORS};
use cec_top::Status;
use std::process::Abort;
use std::rt::Clock;
use std::sync::Wait;
use std::test::*;
use std::thread::Threads;

/// The names of the lines, in order.
const NAMES: [&str; 22] = [
    "gates_a",
    "gates_b",
    "levels_a",
    "levels_b",
    "clauses",
    "patterns",
    "rounds",
    "kept",
    "merges_by_structure",
    "merges_by_search",
    "merges_by_cone",
    "pairs_apart",
    "pairs_open",
    "outputs_open",
    "conflicts",
    "steps",
    "seconds_reading",
    "seconds_check",
    "seconds_structure",
    "seconds_sweep",
    "seconds_outputs",
    "seconds_files",
];

/// Those of a later check: no file was read for it.
const LATER: usize = 16;

/// The name that stands before the times where a proof was written.
const PROOF: &str = "proof_lines";

/// Runs the program, which has memory.
fn ran(
    rt: &(impl Threads + Wait + Clock + Sync + Abort + AllocGlobal),
    files: &[(&str, &[u8])],
    words: &[&str],
    fails: &[u64],
) -> Ran {
    run_words(rt, files, words, fails).expect(rt, "memory")
}

/// What stands behind a first line of this name with a number.
fn behind_line<'a>(text: &'a [u8], name: &str) -> Option<&'a [u8]> {
    let text = text.strip_prefix(b"cec: ")?;
    let text = text.strip_prefix(name.as_bytes())?;
    let text = text.strip_prefix(b" ")?;
    let end = text.iter().position(|byte| *byte == b'\n')?;
    let (number, rest) = text.split_at(end);
    if number.is_empty() || !number.iter().all(|byte| is_of_number(*byte)) {
        return None;
    }
    rest.strip_prefix(b"\n")
}

fn is_of_number(byte: u8) -> bool {
    byte.is_ascii_digit() || byte == b'.'
}

/// What stands behind lines of these names, in turn.
fn behind_lines<'a>(text: &'a [u8], names: &[&str]) -> Option<&'a [u8]> {
    let mut rest = text;
    for name in names {
        rest = behind_line(rest, name)?;
    }
    Some(rest)
}

/// Whether a text is the lines of one check, but for those of the times, which a clock may not tell.
fn is_of_one(text: &[u8]) -> bool {
    behind_lines(text, &NAMES).is_some_and(|rest| rest.is_empty())
}

/// How many lines of a proof the lines of a check tell of, where they do.
fn proof_lines_in(text: &[u8]) -> Option<usize> {
    number_in(behind_lines(text, &NAMES[..LATER])?, PROOF)
}

/// The number of a first line of this name.
fn number_in(text: &[u8], name: &str) -> Option<usize> {
    let text = text.strip_prefix(b"cec: ")?;
    let text = text.strip_prefix(name.as_bytes())?;
    let text = text.strip_prefix(b" ")?;
    let end = text.iter().position(|byte| *byte == b'\n')?;
    let mut number = 0_usize;
    for digit in &text[..end] {
        number = number
            .saturating_mul(10)
            .saturating_add(usize::from(digit.saturating_sub(b'0')));
    }
    Some(number)
}

/// How many line feeds stand in the proof of check 0.
fn lines_left(ran: &Ran) -> usize {
    let proof = ran.desk.file("p.0.lrat").unwrap_or(b"");
    proof.iter().filter(|byte| **byte == b'\n').count()
}

const ASKED: [&str; 4] = ["check", "A", "B", "--stats"];

/// What is known of the circuits is what it says, and the names stand in their order, each with a number.
#[test]
fn of_swapped_and(rt: HostRuntime) {
    let ran = ran(&rt, &SWAPPED, &ASKED, &[]);
    let warned = ran.desk.warned();
    let sizes =
        b"cec: gates_a 1\ncec: gates_b 1\ncec: levels_a 1\ncec: levels_b 1\ncec: clauses 12\n\
        cec: patterns 256\ncec: rounds 0\ncec: kept 0\ncec: merges_by_structure 1\n";
    expect(&rt, "sizes", warned.starts_with(sizes));
    expect(&rt, "names", is_of_one(warned));
    expect(&rt, "status", ran.status == Status::Done);
    expect(&rt, "said", ran.desk.said() == b"EQUIVALENT\n".as_slice());
}

/// Each XOR has two levels. One worker settles its pairs by a search or a query.
#[test]
fn of_two_xors(rt: HostRuntime) {
    let ran = ran(&rt, &XORS, &ASKED, &[]);
    let warned = ran.desk.warned();
    let sizes = b"cec: gates_a 3\ncec: gates_b 3\ncec: levels_a 2\ncec: levels_b 2\n";
    expect(&rt, "sizes", warned.starts_with(sizes));
    expect(&rt, "names", is_of_one(warned));
}

/// The lines of a proof that are told are those of its file, whatever the verdict.
#[test]
fn of_proofs(rt: HostRuntime) {
    let words = ["check", "A", "B", "--out", "p", "--stats"];
    let refuted = ran(&rt, &XORS, &words, &[]);
    let many = lines_left(&refuted);
    let told = proof_lines_in(refuted.desk.warned());
    expect(&rt, "refutation", many > 1 && told == Some(many));
    let apart = ran(&rt, &AGAINST_FALSE, &words, &[]);
    expect(&rt, "none", proof_lines_in(apart.desk.warned()) == Some(0));
    let mut words = Vec::from_slice(rt.alloc(), &TIGHT).expect(&rt, "memory");
    words.push("--stats").expect(&rt, "memory");
    let open = ran(&rt, &XORS, words.as_slice(), &[]);
    let many = lines_left(&open);
    let told = proof_lines_in(open.desk.warned());
    expect(&rt, "logs", many > 0 && told == Some(many));
}

/// The conflicts that the lines of a check tell of.
fn conflicts_in(text: &[u8]) -> Option<usize> {
    number_in(behind_lines(text, &NAMES[..LATER - 2])?, "conflicts")
}

/// A check whose structure shows all meets no conflict, and one whose queries spent their budgets met some.
#[test]
fn of_conflicts(rt: HostRuntime) {
    let alike = ran(&rt, &SWAPPED, &ASKED, &[]);
    expect(&rt, "none", conflicts_in(alike.desk.warned()) == Some(0));
    let mut words = Vec::from_slice(rt.alloc(), &TIGHT).expect(&rt, "memory");
    words.push("--stats").expect(&rt, "memory");
    let open = ran(&rt, &XORS, words.as_slice(), &[]);
    expect(&rt, "some", conflicts_in(open.desk.warned()) > Some(0));
}

/// A second check has its own lines behind those of the first, without the time of reading.
#[test]
fn of_two_checks(rt: HostRuntime) {
    let files: [(&str, &[u8]); 3] = [("A", SWAPPED_A), ("B", SWAPPED_B), ("F", b"check\n")];
    let words = ["check", "A", "B", "--edits", "F", "--stats"];
    let ran = ran(&rt, &files, &words, &[]);
    let Some(rest) = behind_lines(ran.desk.warned(), &NAMES) else {
        return expect(&rt, "first", false);
    };
    let Some(rest) = behind_lines(rest, &NAMES[..LATER]) else {
        return expect(&rt, "second", false);
    };
    let last = behind_lines(rest, &NAMES[LATER + 1..]);
    expect(&rt, "last", last.is_some_and(|rest| rest.is_empty()));
    expect(
        &rt,
        "said",
        ran.desk.said() == b"EQUIVALENT\nEQUIVALENT\n".as_slice(),
    );
}

/// Nothing is warned without being asked for.
#[test]
fn unasked(rt: HostRuntime) {
    let ran = ran(&rt, &SWAPPED, &["check", "A", "B"], &[]);
    expect(&rt, "silence", ran.desk.warned().is_empty());
}

/// A warning that fails, the fourth call of the desk behind two reads and the verdict, leaves the status.
#[test]
fn warning_fails(rt: HostRuntime) {
    let ran = ran(&rt, &SWAPPED, &ASKED, &[3]);
    expect(&rt, "status", ran.status == Status::Done);
    expect(&rt, "said", ran.desk.said() == b"EQUIVALENT\n".as_slice());
    expect(&rt, "names", !is_of_one(ran.desk.warned()));
}
