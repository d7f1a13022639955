//! Runs the program over a desk in memory, and asks how it ends and what it leaves.
use crate::files::WORDS;
use cec_top::{Kept, Status, run};
use desk_port::{Gate, MemDesk, OpenGate};
use std::alloc::{AllocError, Global};
use std::collections::BTreeMap;
use std::process::Abort;
use std::rt::Clock;
use std::sync::Wait;
use std::thread::Threads;

/// What a run left: its status, its desk and the books that it handed back.
#[derive(Drop)]
pub(crate) struct Ran {
    pub(crate) status: Status,
    pub(crate) desk: MemDesk,
    pub(crate) kept: Vec<Kept>,
}

/// What a file has to hold after a run.
#[derive(Clone, Copy)]
pub(crate) enum Holds {
    Bytes(&'static [u8]),
    Begins(&'static [u8]),
    Ends(&'static [u8]),
    /// So many line feeds.
    Lines(usize),
    /// There is no such file.
    Missing,
}

/// A run: its files, its words behind the program's name and the calls of the desk that fail; the status that
/// it ends with, what it says and warns, the files that it reads, how many books it hands back, and what
/// files hold then.
#[derive(Clone, Copy)]
pub(crate) struct Case<'a> {
    pub(crate) files: &'a [(&'a str, &'a [u8])],
    pub(crate) words: &'a [&'a str],
    pub(crate) fails: &'a [u64],
    pub(crate) status: Status,
    pub(crate) said: &'a str,
    pub(crate) warned: &'a str,
    pub(crate) asked: &'a [&'a str],
    pub(crate) books: usize,
    pub(crate) left: &'a [(&'a str, Holds)],
}

/// A check of equivalent circuits.
pub(crate) const EQUIVALENT: Case<'_> = Case {
    files: &[],
    words: &WORDS,
    fails: &[],
    status: Status::Done,
    said: "EQUIVALENT\n",
    warned: "",
    asked: &["A", "B"],
    books: 1,
    left: &[],
};

/// A check of circuits that differ.
pub(crate) const DIFFERENT: Case<'_> = Case {
    status: Status::No,
    ..EQUIVALENT
};

/// A check that a file ends.
pub(crate) const BAD_INPUT: Case<'_> = Case {
    status: Status::BadInput,
    said: "",
    books: 0,
    ..EQUIVALENT
};

fn files_named(
    alloc: Global,
    files: &[(&str, &[u8])],
) -> Result<BTreeMap<String, Vec<u8>>, AllocError> {
    let mut named = BTreeMap::new(alloc);
    for (name, bytes) in files {
        named.insert(
            String::from_str(alloc, name)?,
            Vec::from_slice(alloc, bytes)?,
        )?;
    }
    Ok(named)
}

fn words_with_program(alloc: Global, words: &[&str]) -> Result<Vec<String>, AllocError> {
    let mut all = vec![in alloc; String::from_str(alloc, "cec")?]?;
    for word in words {
        all.push(String::from_str(alloc, word)?)?;
    }
    Ok(all)
}

/// Runs the program on these words behind its name, over a desk with these files that fails at these calls.
pub(crate) fn run_words(
    rt: &(impl Threads + Wait + Clock + Sync + AllocGlobal),
    files: &[(&str, &[u8])],
    words: &[&str],
    fails: &[u64],
) -> Result<Ran, AllocError> {
    run_by(rt, files, words, fails, &OpenGate)
}

/// The same where the workers pass this gate.
pub(crate) fn run_by<G: Gate + Sync>(
    rt: &(impl Threads + Wait + Clock + Sync + AllocGlobal),
    files: &[(&str, &[u8])],
    words: &[&str],
    fails: &[u64],
    gate: &G,
) -> Result<Ran, AllocError> {
    let alloc = rt.alloc();
    let words = words_with_program(alloc, words)?;
    let fails = Vec::from_slice(alloc, fails)?;
    let mut desk = MemDesk::new(alloc, files_named(alloc, files)?, fails)?;
    let (status, kept) = run(rt, alloc, words.as_slice(), &mut desk, gate);
    Ok(Ran { status, desk, kept })
}

fn is_met(file: Option<&[u8]>, wanted: Holds) -> bool {
    let Some(bytes) = file else {
        return matches!(wanted, Holds::Missing);
    };
    match wanted {
        Holds::Bytes(all) => bytes == all,
        Holds::Begins(first) => bytes.starts_with(first),
        Holds::Ends(last) => bytes.ends_with(last),
        Holds::Lines(count) => bytes.iter().filter(|byte| **byte == b'\n').count() == count,
        Holds::Missing => false,
    }
}

/// Whether the files that were read have these names, in turn.
pub(crate) fn has_asked(desk: &MemDesk, names: &[&str]) -> bool {
    let asked = desk.asked();
    if asked.len() != names.len() {
        return false;
    }
    for i in 0..names.len() {
        if asked[i].as_str() != names[i] {
            return false;
        }
    }
    true
}

/// Asks that what is named holds, in a case that says or warns of this.
pub(crate) fn check(rt: &impl Abort, case: &Case<'_>, what: &str, holds: bool) {
    assert!(rt; holds, "{what} of {}{}", case.said, case.warned);
}

/// Asks that a run ended as its case says.
fn check_end(rt: &impl Abort, ran: &Ran, case: &Case<'_>) {
    let desk = &ran.desk;
    check(rt, case, "said", desk.said() == case.said.as_bytes());
    check(rt, case, "warned", desk.warned() == case.warned.as_bytes());
    check(rt, case, "status", ran.status == case.status);
    check(rt, case, "asked", has_asked(desk, case.asked));
    check(rt, case, "books", ran.kept.len() == case.books);
    for (name, wanted) in case.left {
        check(rt, case, name, is_met(desk.file(name), *wanted));
    }
}

/// Fails the test, with these words, unless it is so.
pub(crate) fn expect(rt: &impl Abort, what: &str, is_so: bool) {
    assert!(rt; is_so, "{what}");
}

/// The words of a case with so many workers, if they ask for a check or a reduced circuit; else the words alone.
fn words_by<'a>(
    alloc: Global,
    words: &[&'a str],
    many: &'a str,
) -> Result<Vec<&'a str>, AllocError> {
    let mut all = Vec::from_slice(alloc, words)?;
    if words.first() == Some(&"check") || words.first() == Some(&"fraig") {
        all.push("--workers")?;
        all.push(many)?;
    }
    Ok(all)
}

/// Runs a case over these files by so many workers, and asks how it ends and what it leaves.
fn check_by(
    rt: &(impl Threads + Wait + Clock + Sync + Abort + AllocGlobal),
    files: &[(&str, &[u8])],
    case: &Case<'_>,
    many: &str,
) {
    let words = words_by(rt.alloc(), case.words, many).expect(rt, "memory");
    match run_words(rt, files, words.as_slice(), case.fails) {
        Ok(ran) => check_end(rt, &ran, case),
        Err(AllocError) => check(rt, case, "memory", false),
    }
}

/// The numbers of workers by which each case is run.
const NUMBERS_OF_WORKERS: [&str; 4] = ["1", "2", "4", "64"];

/// Runs a case over these files by each number of workers, and asks how it ends and what it leaves.
pub(crate) fn check_over(
    rt: &(impl Threads + Wait + Clock + Sync + Abort + AllocGlobal),
    files: &[(&str, &[u8])],
    case: &Case<'_>,
) {
    for many in NUMBERS_OF_WORKERS {
        check_by(rt, files, case, many);
    }
}

/// The same over the files of the case.
pub(crate) fn check_case(
    rt: &(impl Threads + Wait + Clock + Sync + Abort + AllocGlobal),
    case: &Case<'_>,
) {
    check_over(rt, case.files, case);
}

pub(crate) fn check_cases(
    rt: &(impl Threads + Wait + Clock + Sync + Abort + AllocGlobal),
    cases: &[Case<'_>],
) {
    for case in cases {
        check_case(rt, case);
    }
}
