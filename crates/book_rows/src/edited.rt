//! Sessions whose pair is edited between checks, by the lines of scripts.
//!
//! A row ends where a semicolon stands, and what is told of its line stands behind an arrow.
ghost use Rattle.std.specs.Prelude.{◌≡◌, None, IfOk};
ghost use Rattle.desk_port.specs.MemDesk.{state_of};

use crate::pairs::{expect, plain};
use check_session::{Options, Session, Verdict};
use desk_port::{MemDesk, OpenGate};
use lemma_book::{Book, Entry};
use netlist_edits::{BadLine, Command, EditErr, read_line};
use std::alloc::{AllocError, Global};
use std::collections::BTreeMap;
use std::process::Abort;
use std::sync::Wait;
use std::thread::Threads;
use worked_circuits::swapped_ands;

/// The numbers that the program goes by where it isn't told others.
const DEFAULTS: Options = Options {
    workers: 4,
    seed: 1,
    words: 4,
    sweep_budget: 100,
    out_budget: 100_000,
    by_name: false,
};

/// A session of two ANDs whose fanins are swapped.
fn two_ands(rt: &impl Abort, alloc: Global) -> Session {
    let (a, b) = swapped_ands(alloc).expect(rt, "memory");
    Session::open(alloc, plain(rt, a), plain(rt, b), DEFAULTS).expect(rt, "a session")
}

/// A verdict as a word or two.
fn words_of(verdict: &Verdict) -> &'static str {
    match verdict {
        Verdict::Equivalent => "equivalent",
        Verdict::Different { output: 0, input } if matches!(input.as_slice(), [false, true]) => {
            "different at 0 on 01"
        }
        _ => "another verdict",
    }
}

/// What comes of an edit.
fn words_of_edit(made: Result<(), EditErr>) -> &'static str {
    match made {
        Ok(()) => "made",
        Err(EditErr::InUse(6)) => "gate 6 is in use",
        Err(EditErr::NotEarlier(6)) => "literal 6 is not earlier",
        Err(_) => "another fault",
    }
}

/// What comes of a line.
fn told(
    rt: &(impl Abort + Threads + Wait + Sync),
    alloc: Global,
    session: &mut Session,
    line: &str,
) -> &'static str {
    match read_line(line.as_bytes()) {
        Ok(Some(Command::Edit(edit))) => words_of_edit(session.edit(alloc, edit)),
        Ok(Some(Command::Check)) => {
            words_of(&session.check(rt, alloc, &OpenGate).expect(rt, "memory"))
        }
        Ok(None) | Err(BadLine) => "no line",
    }
}

/// Goes through a script, and compares what comes of each line.
fn check_script(
    rt: &(impl Abort + Threads + Wait + Sync),
    alloc: Global,
    session: &mut Session,
    rows: &str,
) {
    for row in rows.split(';') {
        let (line, words) = row.split_once(" => ").unwrap_or((row, ""));
        expect(rt, row, told(rt, alloc, session, line) == words);
    }
}

/// The one gate of B reads y alone, and then both inputs again: the pattern 01 tells the output apart.
const EDIT_SCRIPT: &str = concat!(
    "check => equivalent;set b 6 4 4 => made;check => different at 0 on 01;",
    "set b 6 4 2 => made;check => equivalent;check => equivalent",
);

/// An edit that is refused changes nothing, so a check finds what it would have found without it.
const EDIT_REFUSALS: &str = concat!(
    "check => equivalent;drop b 6 => gate 6 is in use;set b 6 6 2 => literal 6 is not earlier;",
    "check => equivalent;new b 8 6 2 end => made;out b 0 8 => made;check => equivalent;",
    "drop b 6 => gate 6 is in use;check => equivalent",
);

#[test]
fn edit_script_and_edit_refusals(rt: HostRuntime) {
    let alloc = rt.alloc();
    check_script(&rt, alloc, &mut two_ands(&rt, alloc), EDIT_SCRIPT);
    check_script(&rt, alloc, &mut two_ands(&rt, alloc), EDIT_REFUSALS);
}

/// The kinds of a book's entries, in order.
fn kinds_of(rt: &impl Abort, alloc: Global, book: &Book) -> String {
    let mut kinds = String::new(alloc);
    for place in 0..book.len() {
        let kind = match book.entry(place) {
            Some(Entry::Merge { .. }) => "merge ",
            Some(Entry::Out { .. }) => "out ",
            Some(Entry::OutApart { .. }) => "apart ",
            _ => "another ",
        };
        kinds.push_str(kind).expect(rt, "memory");
    }
    kinds
}

/// What a check finds of a gate that no edit touches stays for the next check, in front of what is found
/// anew; what was found of a touched one goes.
#[test]
fn lemmas_that_stay(rt: HostRuntime) {
    let alloc = rt.alloc();
    let mut session = two_ands(&rt, alloc);
    let script =
        "check => equivalent;new b 8 6 2 end => made;out b 0 8 => made;check => equivalent";
    check_script(&rt, alloc, &mut session, script);
    let kinds = kinds_of(&rt, alloc, session.book());
    expect(&rt, "the merge stays", kinds.as_str() == "merge merge out ");
    let script = "out b 0 6 => made;set b 6 4 4 => made;check => different at 0 on 01";
    check_script(&rt, alloc, &mut session, script);
    let kinds = kinds_of(&rt, alloc, session.book());
    expect(&rt, "no merge stays", kinds.as_str() == "apart ");
}

const EDITED_CNF: &[u8] =
    b"p cnf 6 12\n1 0\n-4 2 0\n-4 3 0\n4 -2 -3 0\n-5 3 0\n-5 3 0\n5 -3 0\n-6 4 5 0\n-6 -4 -5 0\n\
    6 -4 5 0\n6 4 -5 0\n6 0\n";

/// A desk without a file.
fn empty_desk(alloc: Global) -> Result<MemDesk, AllocError>
    ensures { IfOk result (λ desk. (state_of desk).started ≡ None) }
{
    MemDesk::new(alloc, BTreeMap::new(alloc), Vec::new(alloc))
}

/// The files of a check are those of the edited pair.
#[test]
fn files_after_an_edit(rt: HostRuntime) {
    let alloc = rt.alloc();
    let mut session = two_ands(&rt, alloc);
    let script = "check => equivalent;set b 6 4 4 => made";
    check_script(&rt, alloc, &mut session, script);
    session.check(&rt, alloc, &OpenGate).expect(&rt, "memory");
    let mut desk = empty_desk(alloc).expect(&rt, "memory");
    let written = session.write(alloc, &mut desk, "p", 1);
    expect(&rt, "both files", written.is_ok());
    expect(&rt, "the CNF", desk.file("p.1.cnf") == Some(EDITED_CNF));
    expect(&rt, "no proof", desk.file("p.1.lrat") == Some(&[]));
}
