//! Checks in which one call of the desk fails, each in turn: the status, what is said and warned, and which
//! files stand.
use crate::desk::{Ran, expect, has_asked, run_words};
use crate::files::{AGAINST_FALSE, SWAPPED, TIGHT, WORDS, XORS};
use cec_top::Status;
use std::alloc::AllocError;
use std::process::Abort;
use std::rt::Clock;
use std::sync::Wait;
use std::test::*;
use std::thread::Threads;

/// A check that leaves its files: what it is run on, its verdict, and what comes of each call that fails.
struct Check<'a> {
    files: &'a [(&'a str, &'a [u8])],
    words: &'a [&'a str],
    status: Status,
    verdict: &'a str,
    calls: &'a str,
}

/// A call by its number from 0, the status where it fails, and then what stands of the CNF and of the proof.
///
/// The calls are two reads; start, write and close of the CNF; the same of the proof; and the verdict. A
/// start that fails leaves the file as it was, which is not there, or empty, and a write leaves a first part.
const OF_A_PROOF: &str = "\
0 5 none none
1 5 none none
2 6 empty none
3 6 part none
4 6 whole none
5 6 whole empty
6 6 whole part
7 6 whole whole
8 6 whole whole
";

/// The same where the proof is empty, so that it isn't written.
const OF_AN_EMPTY_PROOF: &str = "\
0 5 none none
1 5 none none
2 6 empty none
3 6 part none
4 6 whole none
5 6 whole empty
6 6 whole whole
7 6 whole whole
";

/// Whether that stands of a file which is whole where no call fails.
fn stands(file: Option<&[u8]>, whole: Option<&[u8]>, what: &str) -> bool {
    match (what, file) {
        ("none" | "empty", None) => true,
        ("empty", Some(bytes)) => bytes.is_empty(),
        ("part", Some(bytes)) => whole.unwrap_or(b"").starts_with(bytes),
        ("whole", Some(_)) => file == whole,
        _ => false,
    }
}

/// Whether that stands of both files.
fn stand(ran: &Ran, whole: &Ran, what: &str) -> bool {
    let (cnf, proof) = ("p.0.cnf", "p.0.lrat");
    match what.split_once(' ') {
        Some((of_cnf, of_proof)) => {
            stands(ran.desk.file(cnf), whole.desk.file(cnf), of_cnf)
                && stands(ran.desk.file(proof), whole.desk.file(proof), of_proof)
        }
        None => false,
    }
}

/// The line that is warned, the files that are read, and how many books are handed back, where the call
/// fails.
fn fault_of(call: &str) -> (&'static str, &'static [&'static str], usize) {
    match call {
        "0" => ("cec: A: cannot read\n", &["A"], 0),
        "1" => ("cec: B: cannot read\n", &["A", "B"], 0),
        _ => ("cec: cannot write\n", &["A", "B"], 1),
    }
}

/// Whether a run in which the call failed warns of it, has read the files up to it, and hands back the book
/// of the check, if it was made.
fn warns_of(ran: &Ran, call: &str) -> bool {
    let (line, files, books) = fault_of(call);
    ran.desk.warned() == line.as_bytes() && has_asked(&ran.desk, files) && ran.kept.len() == books
}

/// Whether nothing is said, or where the verdict is what fails, a first part of it.
fn says_no_more(ran: &Ran, check: &Check<'_>, line: &str) -> bool {
    let said = ran.desk.said();
    if check.calls.ends_with(line) {
        check.verdict.as_bytes().starts_with(said)
    } else {
        said.is_empty()
    }
}

/// Whether a run ends as the line of the call says that failed.
fn ends_so(ran: &Ran, whole: &Ran, call: &str, end: &str) -> bool {
    match end.split_once(' ') {
        Some((status, files)) => {
            status.parse() == Ok(ran.status.code())
                && warns_of(ran, call)
                && stand(ran, whole, files)
        }
        None => false,
    }
}

/// Runs the check with the call failing, and asks how it ends.
fn is_so(
    rt: &(impl Threads + Wait + Clock + Sync + AllocGlobal),
    check: &Check<'_>,
    whole: &Ran,
    line: &str,
) -> Option<bool> {
    let (call, end) = line.trim_end().split_once(' ')?;
    let ran = run_words(rt, check.files, check.words, &[call.parse().ok()?]).ok()?;
    Some(ends_so(&ran, whole, call, end) && says_no_more(&ran, check, line))
}

/// Asks it of each call, beside the run in which none fails.
fn check_calls(
    rt: &(impl Threads + Wait + Clock + Sync + Abort + AllocGlobal),
    check: &Check<'_>,
    whole: &Ran,
) {
    let is_said = whole.desk.said() == check.verdict.as_bytes();
    expect(rt, check.verdict, is_said && whole.status == check.status);
    for line in check.calls.split_inclusive('\n') {
        expect(rt, line, is_so(rt, check, whole, line) == Some(true));
    }
}

fn check_all(rt: &(impl Threads + Wait + Clock + Sync + Abort + AllocGlobal), check: &Check<'_>) {
    match run_words(rt, check.files, check.words, &[]) {
        Ok(whole) => check_calls(rt, check, &whole),
        Err(AllocError) => expect(rt, "memory", false),
    }
}

static CHECKS: [Check<'_>; 3] = [
    Check {
        files: &SWAPPED,
        words: &WORDS,
        status: Status::Done,
        verdict: "EQUIVALENT\n",
        calls: OF_A_PROOF,
    },
    Check {
        files: &AGAINST_FALSE,
        words: &WORDS,
        status: Status::No,
        verdict: "DIFFERENT\noutput 0\ninput 11\n",
        calls: OF_AN_EMPTY_PROOF,
    },
    Check {
        files: &XORS,
        words: &TIGHT,
        status: Status::Undecided,
        verdict: "UNDECIDED\noutput 0 lines 25-25\n",
        calls: OF_A_PROOF,
    },
];

#[test]
fn each_call_failing(rt: HostRuntime) {
    for check in &CHECKS {
        check_all(&rt, check);
    }
}
