//! Checks with an edit script: what is said of each, which files stand, and which line is refused.
use crate::desk::Holds::{Bytes, Ends, Missing};
use crate::desk::{BAD_INPUT, Case, EQUIVALENT, Ran, check_cases, expect, run_words};
use crate::files::{SWAPPED, SWAPPED_A, SWAPPED_B, SWAPPED_CNF};
use cec_top::Status;
use std::alloc::AllocError;
use std::process::Abort;
use std::rt::Clock;
use std::sync::Wait;
use std::test::*;
use std::thread::Threads;

/// A check of A and B with the script F, and the same that leaves its files.
const PLAIN: [&str; 5] = ["check", "A", "B", "--edits", "F"];

pub(crate) const LEFT: [&str; 7] = ["check", "A", "B", "--edits", "F", "--out", "p"];

/// The second AND becomes its first fanin, and an AND again.
pub(crate) const THERE_AND_BACK: [(&str, &[u8]); 3] = [
    ("A", SWAPPED_A),
    ("B", SWAPPED_B),
    ("F", b"set b 6 4 4\ncheck\nset b 6 4 2\ncheck\n"),
];

/// What is said of its three checks.
pub(crate) const SAID: [&str; 3] = [
    "EQUIVALENT\n",
    "DIFFERENT\noutput 0\ninput 01\n",
    "EQUIVALENT\n",
];

const ALL_SAID: &str = "EQUIVALENT\nDIFFERENT\noutput 0\ninput 01\nEQUIVALENT\n";

/// The CNF of the second check: a repeated literal is written once, and equal clauses are both kept.
const AGAINST_FANIN_CNF: &[u8] =
    b"p cnf 6 12\n1 0\n-4 2 0\n-4 3 0\n4 -2 -3 0\n-5 3 0\n-5 3 0\n5 -3 0\n-6 4 5 0\n\
    -6 -4 -5 0\n6 -4 5 0\n6 4 -5 0\n6 0\n";

const SCRIPT: Case<'_> = Case {
    words: &PLAIN,
    asked: &["A", "B", "F"],
    ..EQUIVALENT
};

const EDIT_SCRIPT: Case<'_> = Case {
    files: &THERE_AND_BACK,
    said: ALL_SAID,
    left: &[("p.0.cnf", Missing)],
    ..SCRIPT
};

static EDIT_SCRIPTS: [Case<'_>; 4] = [
    EDIT_SCRIPT,
    Case {
        words: &LEFT,
        left: &[
            ("p.0.cnf", Bytes(SWAPPED_CNF)),
            ("p.0.lrat", Ends(b" 0\n")),
            ("p.1.cnf", Bytes(AGAINST_FANIN_CNF)),
            ("p.1.lrat", Bytes(b"")),
            ("p.2.cnf", Bytes(SWAPPED_CNF)),
            ("p.2.lrat", Ends(b" 0\n")),
            ("p.3.cnf", Missing),
            ("F", Bytes(b"set b 6 4 4\ncheck\nset b 6 4 2\ncheck\n")),
        ],
        ..EDIT_SCRIPT
    },
    // The last line may lack its line feed, and an empty line asks for nothing.
    Case {
        files: &[
            ("A", SWAPPED_A),
            ("B", SWAPPED_B),
            ("F", b"\nset b 6 4 4\n\ncheck\nset b 6 4 2\ncheck"),
        ],
        ..EDIT_SCRIPT
    },
    // A gate is put in, and the output reads it.
    Case {
        files: &[
            ("A", SWAPPED_A),
            ("B", SWAPPED_B),
            ("F", b"new b 8 6 2 end\nout b 0 8\ncheck\n"),
        ],
        said: "EQUIVALENT\nEQUIVALENT\n",
        ..EDIT_SCRIPT
    },
];

/// Each check is of the circuits as the lines before it leave them, and has files of its own.
#[test]
fn edit_script(rt: HostRuntime) {
    check_cases(&rt, &EDIT_SCRIPTS);
}

const EMPTY_SCRIPT: Case<'_> = Case {
    files: &[("A", SWAPPED_A), ("B", SWAPPED_B), ("F", b"")],
    words: &LEFT,
    left: &[("p.0.cnf", Bytes(SWAPPED_CNF)), ("p.1.cnf", Missing)],
    ..SCRIPT
};

static SCRIPTS_WITHOUT_A_CHECK: [Case<'_>; 3] = [
    EMPTY_SCRIPT,
    Case {
        files: &[("A", SWAPPED_A), ("B", SWAPPED_B), ("F", b"\n\n")],
        ..EMPTY_SCRIPT
    },
    // What is edited behind the last check is not checked.
    Case {
        files: &[("A", SWAPPED_A), ("B", SWAPPED_B), ("F", b"set b 6 4 4\n")],
        ..EMPTY_SCRIPT
    },
];

/// Check 0 alone is made.
#[test]
fn scripts_without_a_check(rt: HostRuntime) {
    check_cases(&rt, &SCRIPTS_WITHOUT_A_CHECK);
}

const MISSING_SCRIPT: Case<'_> = Case {
    files: &SWAPPED,
    words: &LEFT,
    status: Status::CannotRead,
    said: "",
    warned: "cec: F: cannot read\n",
    books: 0,
    left: &[("p.0.cnf", Missing)],
    ..SCRIPT
};

/// The script is read behind the pair and before check 0, so a pair that doesn't fit is told first.
static READ_IN_TURN: [Case<'_>; 2] = [
    MISSING_SCRIPT,
    Case {
        files: &[("A", SWAPPED_A), ("B", b"aag 3 3 0 1 0\n2\n4\n6\n6\n")],
        words: &LEFT,
        warned: "cec: inputs 2 and 3 differ\n",
        left: &[("p.0.cnf", Missing)],
        ..BAD_INPUT
    },
];

#[test]
fn missing_script(rt: HostRuntime) {
    check_cases(&rt, &READ_IN_TURN);
}

const REFUSED: Case<'_> = Case {
    words: &LEFT,
    status: Status::BadInput,
    left: &[
        ("p.0.cnf", Bytes(SWAPPED_CNF)),
        ("p.0.lrat", Ends(b" 0\n")),
        ("p.1.cnf", Missing),
    ],
    ..SCRIPT
};

static EDIT_REFUSALS: [Case<'_>; 4] = [
    Case {
        files: &[("A", SWAPPED_A), ("B", SWAPPED_B), ("F", b"drop b 6\n")],
        warned: "cec: F: line 1: gate 6 is in use\n",
        ..REFUSED
    },
    Case {
        files: &[("A", SWAPPED_A), ("B", SWAPPED_B), ("F", b"set b 6 6 2\n")],
        warned: "cec: F: line 1: literal 6 is not earlier\n",
        ..REFUSED
    },
    // Behind two checks, whose verdicts and files stand; empty lines are counted, and what stands behind the
    // refused one isn't looked at.
    Case {
        files: &[
            ("A", SWAPPED_A),
            ("B", SWAPPED_B),
            ("F", b"set b 6 4 4\n\ncheck\nset b 6 4 9\ncheck\nnonsense\n"),
        ],
        said: "EQUIVALENT\nDIFFERENT\noutput 0\ninput 01\n",
        warned: "cec: F: line 4: no literal 9\n",
        left: &[
            ("p.0.cnf", Bytes(SWAPPED_CNF)),
            ("p.0.lrat", Ends(b" 0\n")),
            ("p.1.cnf", Bytes(AGAINST_FANIN_CNF)),
            ("p.1.lrat", Bytes(b"")),
            ("p.2.cnf", Missing),
        ],
        ..REFUSED
    },
    // An edit behind the last check is held against the circuits as they are then.
    Case {
        files: &[
            ("A", SWAPPED_A),
            ("B", SWAPPED_B),
            ("F", b"out b 0 2\ndrop b 6\nset b 6 4 2"),
        ],
        warned: "cec: F: line 3: no gate 6\n",
        ..REFUSED
    },
];

#[test]
fn edit_refusals(rt: HostRuntime) {
    check_cases(&rt, &EDIT_REFUSALS);
}

/// A script of one line, and the text of its fault: each fault alone, and then edits with two, of which the
/// one is told that is judged first.
static FAULTS: [(&str, &str); 31] = [
    ("set c 6 4 4", "bad line"),
    ("set b 7 4 2", "bad line"),
    ("set b 6 4", "bad line"),
    ("set b 6  4 2", "bad line"),
    ("set b 6 4 2 ", "bad line"),
    ("set b 6 4 x", "bad line"),
    ("set b 6 33554434 2", "bad line"),
    ("new b 8 4 2", "bad line"),
    ("new b 8 4 2 before 7", "bad line"),
    ("drop b 6 6", "bad line"),
    ("out b 0", "bad line"),
    ("check b", "bad line"),
    ("Check", "bad line"),
    ("set b 8 4 2", "no gate 8"),
    ("set b 6 8 2", "no literal 8"),
    ("set b 6 4 9", "no literal 9"),
    ("set b 6 7 2", "literal 7 is not earlier"),
    ("set b 6 4 6", "literal 6 is not earlier"),
    ("new b 6 4 2 end", "literal 6 is taken"),
    ("new b 2 4 2 end", "literal 2 is taken"),
    ("new b 0 4 2 end", "literal 0 is taken"),
    ("new b 8 4 2 before 10", "no gate 10"),
    ("new b 8 10 2 end", "no literal 10"),
    ("new b 8 6 2 before 6", "literal 6 is not earlier"),
    ("drop a 8", "no gate 8"),
    ("drop a 6", "gate 6 is in use"),
    ("out a 1 2", "no output 1"),
    ("out a 0 8", "no literal 8"),
    ("set b 6 6 8", "no literal 8"),
    ("new b 6 8 10 before 12", "literal 6 is taken"),
    ("out a 1 8", "no output 1"),
];

/// Whether check 0 is told, and the line of the script is warned of by this text.
fn is_refused(
    rt: &(impl Threads + Wait + Clock + Sync + AllocGlobal),
    line: &str,
    fault: &str,
) -> Result<bool, AllocError> {
    let files: [(&str, &[u8]); 3] = [("A", SWAPPED_A), ("B", SWAPPED_B), ("F", line.as_bytes())];
    let warned = format!(in rt.alloc(); "cec: F: line 1: {fault}\n")?;
    let ran = run_words(rt, &files, &PLAIN, &[])?;
    Ok(
        ran.status == Status::BadInput
            && ran.desk.said() == b"EQUIVALENT\n".as_slice()
            && ran.desk.warned() == warned.as_bytes()
            && ran.kept.len() == 1,
    )
}

#[test]
fn each_fault_of_an_edit(rt: HostRuntime) {
    for (line, fault) in &FAULTS {
        expect(&rt, line, is_refused(&rt, line, fault) == Ok(true));
    }
}

/// The outputs are false, then the XORs of the inputs by two ways, then false again.
const OPEN_BETWEEN: [(&str, &[u8]); 3] = [
    ("A", b"aag 5 2 0 1 3\n2\n4\n0\n6 2 5\n8 3 4\n10 7 9\n"),
    ("B", b"aag 5 2 0 1 3\n2\n4\n0\n6 2 4\n8 3 5\n10 7 9\n"),
    (
        "F",
        b"out a 0 11\nout b 0 10\ncheck\nout a 0 0\nout b 0 0\ncheck\n",
    ),
];

const TIGHT_SCRIPT: [&str; 11] = [
    "check",
    "A",
    "B",
    "--edits",
    "F",
    "--sweep-budget",
    "1",
    "--budget",
    "1",
    "--out",
    "p",
];

/// Whether the books are those of the second check, which left an output open, and of the third.
fn hands_both_back(ran: Result<Ran, AllocError>) -> bool {
    let Ok(ran) = ran else {
        return false;
    };
    let said = b"EQUIVALENT\nUNDECIDED\noutput 0 lines 25-25\nEQUIVALENT\n".as_slice();
    let are_those = match ran.kept.as_slice() {
        [open, last] => open.check == 1 && last.check == 2 && open.book.len() > 0,
        _ => false,
    };
    ran.status == Status::Done && ran.desk.said() == said && are_those
}

/// The book of a check that left outputs open is handed back beside the last one.
#[test]
fn open_between(rt: HostRuntime) {
    let ran = run_words(&rt, &OPEN_BETWEEN, &TIGHT_SCRIPT, &[]);
    expect(&rt, "both books", hands_both_back(ran));
}
