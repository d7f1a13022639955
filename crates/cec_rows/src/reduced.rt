//! Circuits that are reduced: what is written of them, what is said, which arguments are refused, and what stands
//! where a call fails.
use crate::desk::Holds::{Begins, Bytes, Missing};
use crate::desk::{BAD_INPUT, Case, EQUIVALENT, Ran, check_case, check_cases, expect, run_words};
use crate::files::{SWAPPED_A, SWAPPED_BINARY, XOR_X};
use cec_top::{Kept, Status};
use lemma_book::{Book, Entry};
use std::alloc::AllocError;
use std::process::Abort;
use std::rt::Clock;
use std::sync::Wait;
use std::test::*;
use std::thread::Threads;

/// The AND of two inputs, and the AND of that with the second input again, which is the output.
const TWICE: &[u8] = b"aag 4 2 0 1 2\n2\n4\n8\n6 2 4\n8 6 2\n";

const TWICE_ALONE: [(&str, &[u8]); 1] = [("A", TWICE)];

/// A circuit that is reduced, with a proof.
const REDUCED: Case<'_> = Case {
    files: &TWICE_ALONE,
    words: &["fraig", "A", "r", "--sweep-budget", "100000", "--out", "p"],
    said: "gates 2 1\nEQUIVALENT\n",
    asked: &["A"],
    left: &[
        ("r", Bytes(SWAPPED_BINARY)),
        ("p.0.cnf", Begins(b"p cnf 7 15\n")),
    ],
    ..EQUIVALENT
};

static REDUCED_TO_ONE_GATE: Case<'_> = REDUCED;

/// The second AND is the first.
#[test]
fn two_gates_that_are_one(rt: HostRuntime) {
    check_case(&rt, &REDUCED_TO_ONE_GATE);
}

static REDUCED_TO_ITSELF: Case<'_> = Case {
    files: &[("A", XOR_X)],
    said: "gates 3 3\nEQUIVALENT\n",
    left: &[
        ("r", Bytes(b"aig 5 2 0 1 3\n11\n\x01\x03\x04\x01\x01\x02")),
        ("p.0.cnf", Begins(b"p cnf 10 24\n")),
    ],
    ..REDUCED
};

/// No two of the gates of an XOR are equal, and the greater fanin of each goes first.
#[test]
fn gates_that_stay(rt: HostRuntime) {
    check_case(&rt, &REDUCED_TO_ITSELF);
}

/// Without an option.
const PLAINLY: Case<'_> = Case {
    words: &["fraig", "A", "r"],
    left: &[("r", Bytes(SWAPPED_BINARY)), ("p.0.cnf", Missing)],
    ..REDUCED
};

static OTHER_CIRCUITS: [Case<'_>; 8] = [
    PLAINLY,
    // No output rests on the second gate.
    Case {
        files: &[("A", b"aag 4 2 0 1 2\n2\n4\n6\n6 2 4\n8 2 5\n")],
        ..PLAINLY
    },
    // A gate that is false, and one that is an input.
    Case {
        files: &[("A", b"aag 3 1 0 2 2\n2\n4\n6\n4 2 2\n6 2 3\n")],
        said: "gates 2 0\nEQUIVALENT\n",
        left: &[("r", Bytes(b"aig 1 1 0 2 0\n2\n0\n"))],
        ..PLAINLY
    },
    // A gate that is the complement of an earlier one.
    Case {
        files: &[("A", b"aag 4 2 0 2 2\n2\n4\n6\n8\n6 2 5\n8 7 7\n")],
        left: &[("r", Bytes(b"aig 3 2 0 2 1\n6\n7\n\x01\x03"))],
        ..PLAINLY
    },
    // Constraints and names go along. The constraint keeps a gate on which no output rests.
    Case {
        files: &[(
            "A",
            b"aag 4 2 0 1 2 0 1\n2\n4\n2\n8\n6 2 4\n8 6 2\ni0 x\ni1 the other\no0 z\nc\ngone\n",
        )],
        left: &[(
            "r",
            Bytes(b"aig 3 2 0 1 1 0 1\n2\n6\n\x02\x02i0 x\ni1 the other\no0 z\n"),
        )],
        ..PLAINLY
    },
    Case {
        files: &[("A", b"aag 0 0 0 0 0\n")],
        said: "gates 0 0\nEQUIVALENT\n",
        left: &[("r", Bytes(b"aig 0 0 0 0 0\n"))],
        ..PLAINLY
    },
    // The binary form is read as well as written.
    Case {
        files: &[("A", SWAPPED_BINARY)],
        said: "gates 1 1\nEQUIVALENT\n",
        ..PLAINLY
    },
    // OUT may be the file that was read.
    Case {
        words: &["fraig", "A", "A"],
        left: &[("A", Bytes(SWAPPED_BINARY))],
        ..PLAINLY
    },
];

/// What is left of other circuits.
#[test]
fn other_circuits(rt: HostRuntime) {
    check_cases(&rt, &OTHER_CIRCUITS);
}

const NOT_REDUCED: Case<'_> = Case {
    files: &TWICE_ALONE,
    words: &["fraig", "A", "r", "--out", "p"],
    asked: &["A"],
    left: &[("r", Missing), ("p.0.cnf", Missing)],
    ..BAD_INPUT
};

static FILES_AT_FAULT: [Case<'_>; 4] = [
    Case {
        files: &[("A", b"aag 1 0 1 0 0\n2 3\n")],
        warned: "cec: A: 1 latches\n",
        ..NOT_REDUCED
    },
    Case {
        files: &[("A", b"aag 3 2 0 1 0\n2\n4\n6\n")],
        warned: "cec: A: literal 6 is undefined\n",
        ..NOT_REDUCED
    },
    Case {
        files: &[("A", b"aig 3 2 0 1 1\n6\n\x00\x02")],
        warned: "cec: A: bad delta at gate 0\n",
        ..NOT_REDUCED
    },
    Case {
        files: &[("B", SWAPPED_A)],
        status: Status::CannotRead,
        warned: "cec: A: cannot read\n",
        ..NOT_REDUCED
    },
];

/// Nothing is written.
#[test]
fn files_at_fault(rt: HostRuntime) {
    check_cases(&rt, &FILES_AT_FAULT);
}

const OVER_A_PROOF: Case<'_> = Case {
    words: &["fraig", "A", "p.0.cnf", "--out", "p"],
    status: Status::BadUsage,
    warned: "cec: OUT is a file of --out\n",
    asked: &[],
    ..NOT_REDUCED
};

static NAMES_OF_OUT: [Case<'_>; 4] = [
    OVER_A_PROOF,
    Case {
        words: &["fraig", "--out", "p", "A", "p.0.lrat"],
        ..OVER_A_PROOF
    },
    // No file of another check is left.
    Case {
        words: &["fraig", "A", "p.1.cnf", "--out", "p"],
        left: &[("p.1.cnf", Bytes(SWAPPED_BINARY))],
        ..REDUCED
    },
    Case {
        words: &["fraig", "A", "p.00.lrat", "--out", "p"],
        left: &[("p.00.lrat", Bytes(SWAPPED_BINARY))],
        ..REDUCED
    },
];

/// No file is read where the circuit would be written over by its proof.
#[test]
fn names_of_out(rt: HostRuntime) {
    check_cases(&rt, &NAMES_OF_OUT);
}

/// Whether the book has the merge of one gate, and says nothing of an output.
fn is_of_sweep(book: &Book) -> bool {
    book.len() == 1 && matches!(book.entry(0), Some(Entry::Merge { .. }))
}

/// Whether the one book is that of the sweep, as check 0.
fn are_of_sweep(kept: &[Kept]) -> bool {
    match kept {
        [only] => only.check == 0 && is_of_sweep(&only.book),
        _ => false,
    }
}

/// Whether a run hands back the book of the sweep, and not the one by which both circuits are shown equal; and what
/// it wrote is equivalent to what it read, by a proof that is verified.
fn is_read_back(
    rt: &(impl Threads + Wait + Clock + Sync + AllocGlobal),
) -> Result<bool, AllocError> {
    let Ran { desk, kept, .. } = run_words(rt, &TWICE_ALONE, REDUCED.words, &[])?;
    let files = [
        ("A", TWICE),
        ("r", desk.file("r").unwrap_or(b"")),
        ("C", desk.file("p.0.cnf").unwrap_or(b"")),
        ("P", desk.file("p.0.lrat").unwrap_or(b"")),
    ];
    let check = run_words(rt, &files, &["check", "A", "r", "--out", "p"], &[])?;
    let proof = run_words(rt, &files, &["lrat", "C", "P"], &[])?;
    let is_same = check.desk.file("p.0.cnf") == desk.file("p.0.cnf");
    let is_shown = check.desk.said() == b"EQUIVALENT\n".as_slice()
        && proof.desk.said() == b"VERIFIED\n".as_slice();
    Ok(are_of_sweep(kept.as_slice()) && is_same && is_shown)
}

#[test]
fn read_back(rt: HostRuntime) {
    expect(&rt, "the file is A", is_read_back(&rt) == Ok(true));
}

/// A call by its number from 0, the status where it fails, and what then stands of the circuit's file, of the CNF
/// and of the proof.
///
/// The calls are a read; start, write and close of the circuit's file, of the CNF and of the proof; and what is said.
const CALLS: [(u64, u8, [&str; 3]); 11] = [
    (0, 5, ["none", "none", "none"]),
    (1, 6, ["empty", "none", "none"]),
    (2, 6, ["part", "none", "none"]),
    (3, 6, ["whole", "none", "none"]),
    (4, 6, ["whole", "empty", "none"]),
    (5, 6, ["whole", "part", "none"]),
    (6, 6, ["whole", "whole", "none"]),
    (7, 6, ["whole", "whole", "empty"]),
    (8, 6, ["whole", "whole", "part"]),
    (9, 6, ["whole", "whole", "whole"]),
    (10, 6, ["whole", "whole", "whole"]),
];

/// Whether that stands of a file which is whole where no call fails.
fn stands(file: Option<&[u8]>, whole: Option<&[u8]>, what: &str) -> bool {
    match (what, file) {
        ("none" | "empty", None) => true,
        ("empty", Some(bytes)) => bytes.is_empty(),
        ("part", Some(bytes)) => whole.unwrap_or(b"").starts_with(bytes),
        ("whole", Some(_)) => file == whole,
        _ => false,
    }
}

fn stand(ran: &Ran, whole: &Ran, what: [&str; 3]) -> bool {
    let names = ["r", "p.0.cnf", "p.0.lrat"];
    for i in 0..3 {
        if !stands(ran.desk.file(names[i]), whole.desk.file(names[i]), what[i]) {
            return false;
        }
    }
    true
}

/// Whether a run in which the call fails ends so: nothing is said but by the last call, whose text is said in part,
/// and the book is handed back once the circuit was reduced.
fn ends_so(
    rt: &(impl Threads + Wait + Clock + Sync + AllocGlobal),
    whole: &Ran,
    call: u64,
    status: u8,
    what: [&str; 3],
) -> Result<bool, AllocError> {
    let ran = run_words(rt, &TWICE_ALONE, REDUCED.words, &[call])?;
    let said = ran.desk.said();
    let is_said = match call {
        10 => REDUCED.said.as_bytes().starts_with(said),
        _ => said.is_empty(),
    };
    let books = if call == 0 { 0 } else { 1 };
    let is_end = ran.status.code() == status && ran.kept.len() == books;
    Ok(is_end && is_said && stand(&ran, whole, what))
}

#[test]
fn each_call_failing(rt: HostRuntime) {
    let Ok(whole) = run_words(&rt, &TWICE_ALONE, REDUCED.words, &[]) else {
        return expect(&rt, "memory", false);
    };
    for (call, status, what) in CALLS {
        let is_so = ends_so(&rt, &whole, call, status, what);
        expect(&rt, "a call that fails", is_so == Ok(true));
    }
}
