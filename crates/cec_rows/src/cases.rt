//! Whole checks: what is said, warned and left, and with which status.
use crate::desk::Holds::{Begins, Bytes, Ends, Lines, Missing};
use crate::desk::{
    BAD_INPUT, Case, DIFFERENT, EQUIVALENT, Ran, check_case, check_cases, run_words,
};
use crate::files::{
    AGAINST_FALSE, EMPTY_CNF, FOLDS, SWAPPED, SWAPPED_A, SWAPPED_B, SWAPPED_BINARY, SWAPPED_CNF,
    TIGHT, WORDS, XORS,
};
use crate::proofs::check_swapped;
use cec_top::Status;
use std::alloc::AllocError;
use std::process::Abort;
use std::rt::Clock;
use std::sync::Wait;
use std::test::*;
use std::thread::Threads;

const EMPTY: &[u8] = b"aag 0 0 0 0 0\n";

const AGAINST_FALSE_CNF: &[u8] =
    b"p cnf 5 9\n1 0\n-4 2 0\n-4 3 0\n4 -2 -3 0\n-5 4 -1 0\n-5 -4 1 0\n5 -4 -1 0\n5 4 1 0\n5 0\n";

const CONSTANTS_CNF: &[u8] = b"p cnf 2 4\n1 0\n2 1 0\n2 -1 0\n2 0\n";

/// The merge of B's gate, what shows the output equal, and the empty clause. Each step is deleted behind the
/// last one that cites it, but for the output's unit, which the empty clause cites.
const SWAPPED_PROOF: &[u8] = b"13 -5 4 0 5 4 6 0\n14 5 -4 0 2 3 7 0\n15 -6 4 0 13 8 0\n15 d 13 0\n\
    16 -6 0 15 14 9 0\n16 d 14 15 0\n17 0 16 12 0\n";

static SWAPPED_AND: Case<'_> = Case {
    files: &[("A", SWAPPED_A), ("B", SWAPPED_B), ("other", b"stays")],
    fails: &[9],
    left: &[
        ("p.0.cnf", Bytes(SWAPPED_CNF)),
        ("p.0.lrat", Bytes(SWAPPED_PROOF)),
        ("other", Bytes(b"stays")),
    ],
    ..EQUIVALENT
};

/// A tenth call would fail, and there are nine: two reads, three for each file, and the verdict is said
/// at once.
#[test]
fn swapped_and(rt: HostRuntime) {
    check_case(&rt, &SWAPPED_AND);
}

const BINARY_FORMS: [&[u8]; 2] = [
    SWAPPED_BINARY,
    // A delta that isn't as short as can be.
    b"aig 3 2 0 1 1\n6\n\x82\x00\x02",
];

/// The second circuit in the binary form.
#[test]
fn binary_and(rt: HostRuntime) {
    for file in &BINARY_FORMS {
        check_swapped(&rt, &[("A", SWAPPED_A), ("B", file)]);
    }
}

static CYCLE_AND_ORDER: Case<'_> = Case {
    files: &[
        ("A", b"aag 4 2 0 1 2\n2\n4\n8\n8 6 4\n6 2 4\n"),
        ("B", SWAPPED_B),
    ],
    left: &[("p.0.cnf", Begins(b"p cnf 7 15\n"))],
    ..EQUIVALENT
};

/// Gates that stand before their fanins go by level.
#[test]
fn cycle_and_order(rt: HostRuntime) {
    check_case(&rt, &CYCLE_AND_ORDER);
}

static EMPTY_CIRCUITS: Case<'_> = Case {
    files: &[("A", EMPTY), ("B", EMPTY)],
    left: &[
        ("p.0.cnf", Bytes(EMPTY_CNF)),
        ("p.0.lrat", Bytes(b"3 0 2 0\n")),
    ],
    ..EQUIVALENT
};

#[test]
fn empty_circuits(rt: HostRuntime) {
    check_case(&rt, &EMPTY_CIRCUITS);
}

static GREATEST_HEADER: Case<'_> = Case {
    files: &[("A", b"aag 16777216 0 0 0 0\n"), ("B", EMPTY)],
    left: &[("p.0.cnf", Bytes(EMPTY_CNF))],
    ..EQUIVALENT
};

/// As many variables as may be, of which none is used.
#[test]
fn greatest_header(rt: HostRuntime) {
    check_case(&rt, &GREATEST_HEADER);
}

static AND_AGAINST_FALSE: Case<'_> = Case {
    files: &AGAINST_FALSE,
    said: "DIFFERENT\noutput 0\ninput 11\n",
    left: &[
        ("p.0.cnf", Bytes(AGAINST_FALSE_CNF)),
        ("p.0.lrat", Bytes(b"")),
    ],
    ..DIFFERENT
};

/// The AND of both inputs against the constant false.
#[test]
fn and_against_false(rt: HostRuntime) {
    check_case(&rt, &AND_AGAINST_FALSE);
}

/// The first of eight inputs.
const FIRST_OF_EIGHT: &[u8] = b"aag 8 8 0 1 0\n2\n4\n6\n8\n10\n12\n14\n16\n2\n";

/// False, of eight inputs.
const FALSE_OF_EIGHT: &[u8] = b"aag 8 8 0 1 0\n2\n4\n6\n8\n10\n12\n14\n16\n0\n";

const EIGHT_INPUTS: Case<'_> = Case {
    files: &[("A", FIRST_OF_EIGHT), ("B", FALSE_OF_EIGHT)],
    words: &["check", "A", "B"],
    said: "DIFFERENT\noutput 0\ninput 10100110\n",
    ..DIFFERENT
};

static SEEDS_AND_WORDS: [Case<'_>; 3] = [
    EIGHT_INPUTS,
    Case {
        words: &["check", "A", "B", "--seed", "2"],
        said: "DIFFERENT\noutput 0\ninput 10000101\n",
        ..EIGHT_INPUTS
    },
    Case {
        words: &["check", "A", "B", "--words", "1"],
        said: "DIFFERENT\noutput 0\ninput 11010011\n",
        ..EIGHT_INPUTS
    },
];

/// The first pattern in which the first input is true is told, as the seed and the words draw it: the inputs
/// are computed from what `tools/draws.py` prints.
#[test]
fn seeds_and_words(rt: HostRuntime) {
    check_cases(&rt, &SEEDS_AND_WORDS);
}

static TWO_XORS: [Case<'_>; 2] = [
    Case {
        files: &XORS,
        left: &[("p.0.cnf", Begins(b"p cnf 10 24\n"))],
        ..EQUIVALENT
    },
    Case {
        files: &XORS,
        words: &["check", "A", "B", "--sweep-budget", "1"],
        ..EQUIVALENT
    },
];

/// No gate of one side is an AND of the same literals as one of the other. Where the sweep spends its
/// budget on the pair, the output's own query settles it.
#[test]
fn two_xors(rt: HostRuntime) {
    check_cases(&rt, &TWO_XORS);
}

static MERGED_TO_INPUT_AND_FALSE: Case<'_> = Case {
    files: &FOLDS,
    left: &[
        (
            "p.0.cnf",
            Begins(b"p cnf 6 15\n1 0\n-3 2 0\n-3 2 0\n3 -2 0\n-4 2 0\n-4 -2 0\n"),
        ),
        ("p.0.cnf", Ends(b"\n5 6 0\n")),
    ],
    ..EQUIVALENT
};

/// One gate is the AND of the input and itself, another that of the input and its negation.
#[test]
fn merged_to_input_and_false(rt: HostRuntime) {
    check_case(&rt, &MERGED_TO_INPUT_AND_FALSE);
}

/// Whether a run said that output 0 differs where one of the inputs is 1.
fn is_apart(ran: Result<Ran, AllocError>) -> bool {
    let Ok(ran) = ran else {
        return false;
    };
    ran.desk.said() == b"DIFFERENT\noutput 0\ninput 01\n".as_slice()
        || ran.desk.said() == b"DIFFERENT\noutput 0\ninput 10\n".as_slice()
}

const AND_AND_OR: [(&str, &[u8]); 2] = [
    ("A", SWAPPED_A),
    ("B", b"aag 3 2 0 1 1\n2\n4\n7\n6 3 5\n"),
];

/// The AND of both inputs against their OR: some pattern tells them apart before any query.
#[test]
fn outputs_apart_by_a_pattern(rt: HostRuntime) {
    assert!(rt; is_apart(run_words(&rt, &AND_AND_OR, &WORDS, &[])));
}

static TIGHT_BUDGETS: Case<'_> = Case {
    files: &XORS,
    words: &TIGHT,
    status: Status::Undecided,
    said: "UNDECIDED\noutput 0 lines 25-25\n",
    left: &[("p.0.lrat", Lines(1)), ("p.0.lrat", Begins(b"25 "))],
    ..EQUIVALENT
};

#[test]
fn tight_budgets(rt: HostRuntime) {
    check_case(&rt, &TIGHT_BUDGETS);
}

static ONE_OUTPUT_EQUAL_AND_ONE_OPEN: Case<'_> = Case {
    files: &[
        ("A", b"aag 5 2 0 2 3\n2\n4\n2\n11\n6 2 5\n8 3 4\n10 7 9\n"),
        ("B", b"aag 5 2 0 2 3\n2\n4\n2\n10\n6 2 4\n8 3 5\n10 7 9\n"),
    ],
    words: &TIGHT,
    status: Status::Undecided,
    said: "UNDECIDED\noutput 1 lines 28-28\n",
    left: &[("p.0.lrat", Lines(2)), ("p.0.lrat", Begins(b"27 "))],
    ..EQUIVALENT
};

/// The CNF has 26 clauses. Line 27 shows output 0 equal, and the log of output 1 has one line.
#[test]
fn one_output_equal_and_one_open(rt: HostRuntime) {
    check_case(&rt, &ONE_OUTPUT_EQUAL_AND_ONE_OPEN);
}

static TIGHT_BUDGET_WITHOUT_FILES: [Case<'_>; 2] = [
    Case {
        files: &XORS,
        words: &["check", "A", "B", "--sweep-budget", "1", "--budget", "1"],
        status: Status::Undecided,
        said: "UNDECIDED\noutput 0\n",
        left: &[("p.0.cnf", Missing)],
        ..EQUIVALENT
    },
    Case {
        files: &XORS,
        words: &["check", "A", "B"],
        ..EQUIVALENT
    },
];

#[test]
fn tight_budget_without_files(rt: HostRuntime) {
    check_cases(&rt, &TIGHT_BUDGET_WITHOUT_FILES);
}

static CONSTANTS_DIFFER: Case<'_> = Case {
    files: &[("A", b"aag 0 0 0 1 0\n0\n"), ("B", b"aag 0 0 0 1 0\n1\n")],
    fails: &[8],
    said: "DIFFERENT\noutput 0\ninput none\n",
    left: &[("p.0.cnf", Bytes(CONSTANTS_CNF)), ("p.0.lrat", Bytes(b""))],
    ..DIFFERENT
};

/// A ninth call would fail, and there are eight: an empty file is started and closed, and no byte written.
#[test]
fn constants_differ(rt: HostRuntime) {
    check_case(&rt, &CONSTANTS_DIFFER);
}

static LEAST_OUTPUT_THAT_DIFFERS: Case<'_> = Case {
    files: &[
        ("A", b"aag 1 1 0 4 0\n2\n2\n2\n0\n1\n"),
        ("B", b"aag 1 1 0 4 0\n2\n2\n0\n0\n0\n"),
    ],
    said: "DIFFERENT\noutput 1\ninput 1\n",
    ..DIFFERENT
};

/// Two outputs are equal and two differ, the second and the fourth.
#[test]
fn least_output_that_differs(rt: HostRuntime) {
    check_case(&rt, &LEAST_OUTPUT_THAT_DIFFERS);
}

static INPUT_COUNTS_DIFFER: Case<'_> = Case {
    files: &[("A", SWAPPED_A), ("B", b"aag 3 3 0 1 0\n2\n4\n6\n6\n")],
    warned: "cec: inputs 2 and 3 differ\n",
    left: &[("p.0.cnf", Missing)],
    ..BAD_INPUT
};

#[test]
fn input_counts_differ(rt: HostRuntime) {
    check_case(&rt, &INPUT_COUNTS_DIFFER);
}

static FAILING_PROOF_WRITE: Case<'_> = Case {
    files: &SWAPPED,
    fails: &[6],
    status: Status::CannotWrite,
    said: "",
    warned: "cec: cannot write\n",
    left: &[("p.0.lrat", Bytes(b"")), ("p.0.cnf", Bytes(SWAPPED_CNF))],
    ..EQUIVALENT
};

/// The calls are two reads, three for the CNF, and the start, the write and the close of the proof.
#[test]
fn failing_proof_write(rt: HostRuntime) {
    check_case(&rt, &FAILING_PROOF_WRITE);
}

const MISSING: Case<'_> = Case {
    files: &[("A", SWAPPED_A)],
    status: Status::CannotRead,
    warned: "cec: B: cannot read\n",
    ..BAD_INPUT
};

static MISSING_FILE: [Case<'_>; 2] = [
    MISSING,
    // The warning fails too, and the status stays.
    Case {
        fails: &[2],
        warned: "",
        ..MISSING
    },
];

#[test]
fn missing_file(rt: HostRuntime) {
    check_cases(&rt, &MISSING_FILE);
}

/// Whether a run on words that are no request ends so: it reads nothing, and says help or warns of how it is
/// used.
fn is_told(ran: Result<Ran, AllocError>, status: Status) -> bool {
    let Ok(ran) = ran else {
        return false;
    };
    ran.status == status
        && ran.desk.said().is_empty() == (status == Status::BadUsage)
        && ran.desk.warned().is_empty() == (status == Status::Done)
        && ran.desk.asked().is_empty()
}

/// Runs the program on each of these words.
fn check_words(
    rt: &(impl Threads + Wait + Clock + Sync + Abort + AllocGlobal),
    rows: &[&[&str]],
    status: Status,
) {
    for words in rows {
        let is_told = is_told(run_words(rt, &SWAPPED, words, &[]), status);
        assert!(rt; is_told, "{words:?}");
    }
}

const REFUSED: [&[&str]; 14] = [
    &[],
    &["help"],
    &["check", "A"],
    &["check", "A", "B", "--out"],
    &["check", "A", "B", "--in", "p"],
    &["check", "A", "B", "--budget", "0"],
    &["check", "A", "B", "--budget", "1000000001"],
    &["check", "A", "B", "--sweep-budget", "0"],
    &["check", "A", "B", "--sweep-budget", "1000000001"],
    &["check", "A", "B", "--words", "65"],
    &["check", "A", "B", "--workers", "65"],
    &["check", "A", "B", "--match", "name"],
    &["check", "A", "B", "C"],
    &["lrat", "A"],
];

#[test]
fn words_that_are_refused(rt: HostRuntime) {
    check_words(&rt, &REFUSED, Status::BadUsage);
}

static NO_SUCH_COMMAND: Case<'_> = Case {
    words: &["help"],
    status: Status::BadUsage,
    warned: "cec: no command help\n",
    asked: &[],
    ..BAD_INPUT
};

#[test]
fn no_such_command(rt: HostRuntime) {
    check_case(&rt, &NO_SUCH_COMMAND);
}

const HELP: [&[&str]; 4] = [&["--help"], &["check", "--help"], &["lrat", "-h"], &["-V"]];

#[test]
fn words_that_want_help(rt: HostRuntime) {
    check_words(&rt, &HELP, Status::Done);
}

static VERSION: Case<'_> = Case {
    words: &["--version"],
    status: Status::Done,
    said: "cec 0.2.0\n",
    warned: "",
    asked: &[],
    ..BAD_INPUT
};

#[test]
fn words_that_want_the_version(rt: HostRuntime) {
    check_case(&rt, &VERSION);
}

static HELP_THAT_CANNOT_BE_SAID: Case<'_> = Case {
    words: &["--help"],
    fails: &[0],
    status: Status::CannotWrite,
    warned: "cec: cannot write\n",
    asked: &[],
    ..BAD_INPUT
};

#[test]
fn help_that_cannot_be_said(rt: HostRuntime) {
    check_case(&rt, &HELP_THAT_CANNOT_BE_SAID);
}
