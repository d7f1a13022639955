//! Lemmas that are loaded and saved: how many of a file are taken, which faults of one are told, and what stands
//! where a call fails.
use crate::desk::Holds::{Begins, Bytes, Missing};
use crate::desk::{BAD_INPUT, Case, EQUIVALENT, Ran, check_cases, expect, run_words};
use crate::files::{SWAPPED, SWAPPED_A, SWAPPED_B, SWAPPED_CNF};
use cec_top::Status;
use std::alloc::AllocError;
use std::process::Abort;
use std::rt::Clock;
use std::sync::Wait;
use std::test::*;
use std::thread::Threads;

/// That the two ANDs are equal, by hints in another order than those that the program finds.
const LEMMA: &[u8] =
    b"lemmas 1\nm b3 a3\ns -b3 a3 ; b3/0 b3/1 a3/2\ns b3 -a3 ; a3/0 a3/1 b3/2\n.\n";

const ONE_LEMMA: [(&str, &[u8]); 3] = [("A", SWAPPED_A), ("B", SWAPPED_B), ("L", LEMMA)];

const LOADED: Case<'_> = Case {
    files: &ONE_LEMMA,
    words: &["check", "A", "B", "--load", "L"],
    said: "lemmas 1 of 1\nEQUIVALENT\n",
    asked: &["A", "B", "L"],
    ..EQUIVALENT
};

static LOADED_LEMMAS: [Case<'_>; 5] = [
    LOADED,
    // A hint is missing, so the step doesn't follow.
    Case {
        files: &[
            ("A", SWAPPED_A),
            ("B", SWAPPED_B),
            (
                "L",
                b"lemmas 1\nm b3 a3\ns -b3 a3 ; b3/0 a3/2\ns b3 -a3 ; a3/0 a3/1 b3/2\n.\n",
            ),
        ],
        said: "lemmas 0 of 1\nEQUIVALENT\n",
        ..LOADED
    },
    Case {
        files: &[("A", SWAPPED_A), ("B", SWAPPED_B), ("L", b"lemmas 1\n")],
        said: "lemmas 0 of 0\nEQUIVALENT\n",
        ..LOADED
    },
    // The script is read before the lemmas, which are loaded before check 0.
    Case {
        files: &[
            ("A", SWAPPED_A),
            ("B", SWAPPED_B),
            ("F", b"set b 6 4 4\ncheck\nset b 6 4 2\ncheck\n"),
            ("L", LEMMA),
        ],
        words: &["check", "A", "B", "--load", "L", "--edits", "F"],
        said: "lemmas 1 of 1\nEQUIVALENT\nDIFFERENT\noutput 0\ninput 01\nEQUIVALENT\n",
        asked: &["A", "B", "F", "L"],
        ..LOADED
    },
    // With the files of the check, which has the loaded lemma in its proof.
    Case {
        words: &["check", "A", "B", "--load", "L", "--out", "p"],
        left: &[
            ("p.0.cnf", Bytes(SWAPPED_CNF)),
            (
                "p.0.lrat",
                Begins(b"13 -5 4 0 5 6 4 0\n14 5 -4 0 2 3 7 0\n"),
            ),
        ],
        ..LOADED
    },
];

/// Each lemma that is good is taken, and check 0 goes on from those.
#[test]
fn lemmas_that_are_loaded(rt: HostRuntime) {
    check_cases(&rt, &LOADED_LEMMAS);
}

const NO_LEMMAS: Case<'_> = Case {
    words: &["check", "A", "B", "--load", "L", "--out", "p"],
    asked: &["A", "B", "L"],
    left: &[("p.0.cnf", Missing)],
    ..BAD_INPUT
};

static FILES_WITHOUT_LEMMAS: [Case<'_>; 5] = [
    Case {
        files: &[
            ("A", SWAPPED_A),
            ("B", SWAPPED_B),
            (
                "L",
                b"lemmas 1\nm b3 a3\ns -b3 a3 ; b3/0 b3/1 a3/2\ns b3 -a3 ; a3/0 a3/1 b3/2\n",
            ),
        ],
        warned: "cec: L: line 5: ends too early\n",
        ..NO_LEMMAS
    },
    Case {
        files: &[
            ("A", SWAPPED_A),
            ("B", SWAPPED_B),
            (
                "L",
                b"lemmas 2\nm b3 a3\ns -b3 a3 ; b3/0 b3/1 a3/2\ns b3 -a3 ; a3/0 a3/1 b3/2\n.\n",
            ),
        ],
        warned: "cec: L: line 1: bad line\n",
        ..NO_LEMMAS
    },
    // It is named behind the script, which is read before it.
    Case {
        files: &[
            ("A", SWAPPED_A),
            ("B", SWAPPED_B),
            ("F", b"no line of a script\n"),
            ("L", b""),
        ],
        words: &["check", "A", "B", "--load", "L", "--edits", "F"],
        warned: "cec: L: line 1: ends too early\n",
        asked: &["A", "B", "F", "L"],
        ..NO_LEMMAS
    },
    Case {
        files: &SWAPPED,
        status: Status::CannotRead,
        warned: "cec: L: cannot read\n",
        ..NO_LEMMAS
    },
    // A pair that doesn't fit is told first.
    Case {
        files: &[
            ("A", SWAPPED_A),
            ("B", b"aag 3 3 0 1 0\n2\n4\n6\n6\n"),
            ("L", b""),
        ],
        warned: "cec: inputs 2 and 3 differ\n",
        asked: &["A", "B"],
        ..NO_LEMMAS
    },
];

/// No check is made.
#[test]
fn lemma_files_at_fault(rt: HostRuntime) {
    check_cases(&rt, &FILES_WITHOUT_LEMMAS);
}

/// How the lemmas of the two ANDs begin.
const SAVED_LEMMAS: &[u8] =
    b"lemmas 1\nm b3 a3\ns -b3 a3 ; b3/0 a3/2 b3/1\ns b3 -a3 ; a3/0 a3/1 b3/2\n.\no 0\n";

const SAVED: Case<'_> = Case {
    files: &SWAPPED,
    words: &["check", "A", "B", "--save", "l"],
    left: &[("l", Begins(SAVED_LEMMAS))],
    ..EQUIVALENT
};

static SAVES: [Case<'_>; 5] = [
    SAVED,
    Case {
        words: &["check", "A", "B", "--out", "p", "--save", "p.cnf"],
        left: &[
            ("p.cnf", Begins(SAVED_LEMMAS)),
            ("p.0.cnf", Bytes(SWAPPED_CNF)),
        ],
        ..SAVED
    },
    // Nothing is saved where a line of the script is refused.
    Case {
        files: &[("A", SWAPPED_A), ("B", SWAPPED_B), ("F", b"drop b 6\n")],
        words: &["check", "A", "B", "--edits", "F", "--save", "l"],
        status: Status::BadInput,
        warned: "cec: F: line 1: gate 6 is in use\n",
        asked: &["A", "B", "F"],
        left: &[("l", Missing)],
        ..SAVED
    },
    // The lemmas of the last check are saved, not those that are kept over the edits behind it.
    Case {
        files: &[("A", SWAPPED_A), ("B", SWAPPED_B), ("F", b"set b 6 4 4\n")],
        words: &["check", "A", "B", "--edits", "F", "--save", "l"],
        asked: &["A", "B", "F"],
        ..SAVED
    },
    // It may be the file that is loaded.
    Case {
        files: &ONE_LEMMA,
        words: &["check", "A", "B", "--load", "L", "--save", "L"],
        said: "lemmas 1 of 1\nEQUIVALENT\n",
        asked: &["A", "B", "L"],
        left: &[(
            "L",
            Begins(
                b"lemmas 1\nm b3 a3\ns -b3 a3 ; b3/0 b3/1 a3/2\ns b3 -a3 ; a3/0 a3/1 b3/2\n.\no 0\n",
            ),
        )],
        ..SAVED
    },
];

/// The merges and equal outputs of the last check are left behind its verdict.
#[test]
fn lemmas_that_are_saved(rt: HostRuntime) {
    check_cases(&rt, &SAVES);
}

const SAVED_OVER: Case<'_> = Case {
    files: &SWAPPED,
    words: &["check", "A", "B", "--out", "p", "--save", "p.0.cnf"],
    status: Status::BadUsage,
    warned: "cec: --save names a file of --out\n",
    asked: &[],
    ..BAD_INPUT
};

static NAMES_OF_OUT: [Case<'_>; 2] = [
    SAVED_OVER,
    Case {
        words: &["check", "A", "B", "--save", "p.007.lrat", "--out", "p"],
        ..SAVED_OVER
    },
];

/// No file is read where the lemmas would be saved over a check's files, whatever its number.
#[test]
fn names_of_out(rt: HostRuntime) {
    check_cases(&rt, &NAMES_OF_OUT);
}

/// What one run saves the next one takes, all of it.
fn taken_again(
    rt: &(impl Threads + Wait + Clock + Sync + AllocGlobal),
    words: &[&str],
    said: &str,
) -> Result<bool, AllocError> {
    let first = run_words(rt, &SWAPPED, words, &[])?;
    let Some(saved) = first.desk.file("l") else {
        return Ok(false);
    };
    let files = [("A", SWAPPED_A), ("B", SWAPPED_B), ("l", saved)];
    let next = run_words(rt, &files, &["check", "A", "B", "--load", "l"], &[])?;
    Ok(next.desk.said() == said.as_bytes())
}

#[test]
fn lemmas_that_are_taken_again(rt: HostRuntime) {
    expect(
        &rt,
        "a merge and an output",
        taken_again(
            &rt,
            &["check", "A", "B", "--save", "l"],
            "lemmas 2 of 2\nEQUIVALENT\n",
        ) == Ok(true),
    );
}

/// A check that reads three files, says how many lemmas it takes, leaves its files, says its verdict and saves.
const BOTH: [&str; 9] = [
    "check", "A", "B", "--load", "L", "--save", "l", "--out", "p",
];

/// What is said where the call with this number fails, from its end on a first part of the next line.
fn said_before(call: u64) -> &'static [u8] {
    match call {
        0..=2 => b"",
        3..=10 => b"lemmas 1 of 1\n",
        _ => b"lemmas 1 of 1\nEQUIVALENT\n",
    }
}

/// Whether a run in which the call fails ends so: nothing but whole lines before the call is said, but for a
/// first part of the line that the call says.
fn ends_so(
    rt: &(impl Threads + Wait + Clock + Sync + AllocGlobal),
    call: u64,
    status: u8,
) -> Result<bool, AllocError> {
    let Ran {
        status: answered,
        desk,
        kept,
    } = run_words(rt, &ONE_LEMMA, &BOTH, &[call])?;
    let said = desk.said();
    let is_said = match call {
        3 => b"lemmas 1 of 1\n".as_slice().starts_with(said),
        10 => b"lemmas 1 of 1\nEQUIVALENT\n".as_slice().starts_with(said),
        _ => said == said_before(call),
    };
    let books = if call < 4 { 0 } else { 1 };
    let saved = call > 10 || desk.file("l").is_none();
    Ok(answered.code() == status && is_said && kept.len() == books && saved)
}

/// Reads are calls 0 to 2, the line of the lemmas is call 3, the files of the check are 4 to 9, its verdict is 10,
/// and 11 to 13 save.
#[test]
fn each_call_of_both_options_failing(rt: HostRuntime) {
    for call in 0..=13 {
        let status = if call < 3 { 5 } else { 6 };
        expect(
            &rt,
            "a call that fails",
            ends_so(&rt, call, status) == Ok(true),
        );
    }
    expect(&rt, "no other call", ends_so(&rt, 14, 0) == Ok(true));
}
