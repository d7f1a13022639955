//! Checks of circuits with constraints, which count on the inputs alone on which each constraint is true.
use crate::desk::Holds::{Begins, Bytes, Lines, Missing};
use crate::desk::{BAD_INPUT, Case, DIFFERENT, EQUIVALENT, check_case, check_cases};
use crate::files::{TIGHT, WORDS};
use crate::proofs::check_refuted;
use cec_top::Status;
use std::process::Abort;
use std::sync::Wait;
use std::test::*;
use std::thread::Threads;

/// One input, which is asked to be true, and no output.
const ASKED: &[u8] = b"aag 1 1 0 0 0 0 1\n2\n2\n";

static ONE_CONSTRAINT: Case<'_> = Case {
    files: &[("A", ASKED), ("B", ASKED)],
    left: &[
        ("p.0.cnf", Bytes(b"p cnf 2 4\n1 0\n2 0\n2 0\n0\n")),
        ("p.0.lrat", Bytes(b"5 0 4 0\n")),
    ],
    ..EQUIVALENT
};

/// The units of A and of B, and behind them the clause of no XOR.
#[test]
fn one_constraint(rt: HostRuntime) {
    check_case(&rt, &ONE_CONSTRAINT);
}

/// The AND of two inputs, the first of which is asked to be true.
const AND_ASKED: &[u8] = b"aag 3 2 0 1 1 0 1\n2\n4\n6\n2\n6 2 4\n";

/// The same in the binary form, which has the greater fanin first.
const AND_ASKED_BINARY: &[u8] = b"aig 3 2 0 1 1 0 1\n6\n2\n\x02\x02";

/// The second of two inputs.
const SECOND: &[u8] = b"aag 2 2 0 1 0\n2\n4\n4\n";

const AND_IS_SECOND: Case<'_> = Case {
    files: &[("A", AND_ASKED), ("B", SECOND)],
    left: &[(
        "p.0.cnf",
        Bytes(
            b"p cnf 5 10\n1 0\n-4 2 0\n-4 3 0\n4 -2 -3 0\n-5 4 3 0\n-5 -4 -3 0\n5 -4 3 0\n5 4 -3 0\n2 0\n5 0\n",
        ),
    )],
    ..EQUIVALENT
};

static AND_UNDER_A_CONSTRAINT: [Case<'_>; 4] = [
    AND_IS_SECOND,
    Case {
        files: &[("A", AND_ASKED_BINARY), ("B", SECOND)],
        left: &[(
            "p.0.cnf",
            Bytes(
                b"p cnf 5 10\n1 0\n-4 3 0\n-4 2 0\n4 -3 -2 0\n-5 4 3 0\n-5 -4 -3 0\n5 -4 3 0\n5 4 -3 0\n2 0\n5 0\n",
            ),
        )],
        ..EQUIVALENT
    },
    // The other one may have it, and both may.
    Case {
        files: &[
            ("A", b"aag 3 2 0 1 1\n2\n4\n6\n6 2 4\n"),
            ("B", b"aag 2 2 0 1 0 0 1\n2\n4\n4\n2\n"),
        ],
        ..AND_IS_SECOND
    },
    Case {
        files: &[("A", AND_ASKED), ("B", b"aag 2 2 0 1 0 0 1\n2\n4\n4\n2\n")],
        left: &[("p.0.cnf", Begins(b"p cnf 5 11\n"))],
        ..EQUIVALENT
    },
];

/// The AND is its second fanin wherever the first is true.
#[test]
fn and_under_a_constraint(rt: HostRuntime) {
    check_cases(&rt, &AND_UNDER_A_CONSTRAINT);
    check_refuted(&rt, &[("A", AND_ASKED), ("B", SECOND)]);
}

static AND_WITHOUT_IT: [Case<'_>; 2] = [
    Case {
        files: &[("A", b"aag 3 2 0 1 1\n2\n4\n6\n6 2 4\n"), ("B", SECOND)],
        said: "DIFFERENT\noutput 0\ninput 01\n",
        left: &[
            (
                "p.0.cnf",
                Bytes(
                    b"p cnf 5 9\n1 0\n-4 2 0\n-4 3 0\n4 -2 -3 0\n-5 4 3 0\n-5 -4 -3 0\n5 -4 3 0\n5 4 -3 0\n5 0\n",
                ),
            ),
            ("p.0.lrat", Bytes(b"")),
        ],
        ..DIFFERENT
    },
    // The first input is asked to be false.
    Case {
        files: &[
            ("A", b"aag 3 2 0 1 1 0 1\n2\n4\n6\n3\n6 2 4\n"),
            ("B", SECOND),
        ],
        said: "DIFFERENT\noutput 0\ninput 01\n",
        left: &[
            (
                "p.0.cnf",
                Bytes(
                    b"p cnf 5 10\n1 0\n-4 2 0\n-4 3 0\n4 -2 -3 0\n-5 4 3 0\n-5 -4 -3 0\n5 -4 3 0\n5 4 -3 0\n-2 0\n5 0\n",
                ),
            ),
            ("p.0.lrat", Bytes(b"")),
        ],
        ..DIFFERENT
    },
];

/// Without the constraint, and under its negation, they differ.
#[test]
fn and_without_the_constraint(rt: HostRuntime) {
    check_cases(&rt, &AND_WITHOUT_IT);
}

/// True, where nothing is admitted.
const NOTHING_ADMITTED: [(&str, &[u8]); 2] = [
    ("A", b"aag 0 0 0 1 0 0 1\n1\n0\n"),
    ("B", b"aag 0 0 0 1 0\n0\n"),
];

const NOTHING_IS_ADMITTED: Case<'_> = Case {
    files: &NOTHING_ADMITTED,
    left: &[(
        "p.0.cnf",
        Bytes(b"p cnf 2 5\n1 0\n2 -1 0\n2 1 0\n-1 0\n2 0\n"),
    )],
    ..EQUIVALENT
};

static NONE_ADMITTED: [Case<'_>; 2] = [
    NOTHING_IS_ADMITTED,
    // Each circuit admits an input, and both none.
    Case {
        files: &[
            ("A", b"aag 1 1 0 1 0 0 1\n2\n1\n2\n"),
            ("B", b"aag 1 1 0 1 0 0 1\n2\n0\n3\n"),
        ],
        left: &[("p.0.cnf", Begins(b"p cnf 3 6\n"))],
        ..EQUIVALENT
    },
];

/// Where no input is admitted there is none on which the outputs differ.
#[test]
fn nothing_is_admitted(rt: HostRuntime) {
    check_cases(&rt, &NONE_ADMITTED);
    check_refuted(&rt, &NOTHING_ADMITTED);
}

/// The first of eight inputs, the second of which is asked to be true.
const FIRST_OF_EIGHT: &[u8] = b"aag 8 8 0 1 0 0 1\n2\n4\n6\n8\n10\n12\n14\n16\n2\n4\n";

/// False, of eight inputs.
const FALSE_OF_EIGHT: &[u8] = b"aag 8 8 0 1 0\n2\n4\n6\n8\n10\n12\n14\n16\n0\n";

static FIRST_ADMITTED_PATTERN: Case<'_> = Case {
    files: &[("A", FIRST_OF_EIGHT), ("B", FALSE_OF_EIGHT)],
    words: &["check", "A", "B"],
    said: "DIFFERENT\noutput 0\ninput 11100110\n",
    ..DIFFERENT
};

/// The first pattern in which the first input is true, 10100110, isn't admitted. The first that is, as the
/// seed draws it, is told: it is computed from what `tools/draws.py` prints.
#[test]
fn first_admitted_pattern(rt: HostRuntime) {
    check_case(&rt, &FIRST_ADMITTED_PATTERN);
}

/// The first of 24 inputs, each of which is asked to be true.
const ALL_ASKED: &[u8] =
    b"aag 24 24 0 1 0 0 24\n2\n4\n6\n8\n10\n12\n14\n16\n18\n20\n22\n24\n26\n28\n30\n32\n34\n36\n\
    38\n40\n42\n44\n46\n48\n2\n2\n4\n6\n8\n10\n12\n14\n16\n18\n20\n22\n24\n26\n28\n30\n32\n34\n36\n38\n40\n42\n44\n46\n48\n";

/// False, of 24 inputs.
const FALSE_OF_24: &[u8] =
    b"aag 24 24 0 1 0\n2\n4\n6\n8\n10\n12\n14\n16\n18\n20\n22\n24\n26\n28\n30\n32\n34\n36\n\
    38\n40\n42\n44\n46\n48\n0\n";

static ONE_ADMITTED_INPUT: Case<'_> = Case {
    files: &[("A", ALL_ASKED), ("B", FALSE_OF_24)],
    words: &["check", "A", "B"],
    said: "DIFFERENT\noutput 0\ninput 111111111111111111111111\n",
    ..DIFFERENT
};

/// One input is admitted, which no pattern is: the output's query finds it.
#[test]
fn one_admitted_input(rt: HostRuntime) {
    check_case(&rt, &ONE_ADMITTED_INPUT);
}

/// z is x and not y.
const X_Y: &[u8] = b"aag 3 2 0 1 1\n2\n4\n6\n6 2 5\ni0 x\ni1 y\no0 z\n";

/// z is x, where y, the first input, is asked to be false.
const Y_ASKED: &[u8] = b"aag 2 2 0 1 0 0 1\n2\n4\n4\n3\ni0 y\ni1 x\no0 z\n";

const BY_NAME: Case<'_> = Case {
    files: &[("A", X_Y), ("B", Y_ASKED)],
    words: &["check", "A", "B", "--match", "names", "--out", "p"],
    left: &[(
        "p.0.cnf",
        Bytes(
            b"p cnf 5 10\n1 0\n-4 2 0\n-4 -3 0\n4 -2 3 0\n-5 4 2 0\n-5 -4 -2 0\n5 -4 2 0\n5 4 -2 0\n-3 0\n5 0\n",
        ),
    )],
    ..EQUIVALENT
};

static CONSTRAINTS_AND_NAMES: [Case<'_>; 2] = [
    BY_NAME,
    Case {
        words: &WORDS,
        said: "DIFFERENT\noutput 0\ninput 01\n",
        left: &[("p.0.lrat", Bytes(b""))],
        status: Status::No,
        ..BY_NAME
    },
];

/// The constraint is about the input that its circuit's file names, wherever that stands.
#[test]
fn constraints_and_names(rt: HostRuntime) {
    check_cases(&rt, &CONSTRAINTS_AND_NAMES);
}

static OPEN_UNDER_CONSTRAINTS: Case<'_> = Case {
    files: &[
        (
            "A",
            b"aag 5 2 0 1 3 0 1\n2\n4\n11\n1\n6 2 5\n8 3 4\n10 7 9\n",
        ),
        (
            "B",
            b"aag 5 2 0 1 3 0 1\n2\n4\n10\n1\n6 2 4\n8 3 5\n10 7 9\n",
        ),
    ],
    words: &TIGHT,
    status: Status::Undecided,
    said: "UNDECIDED\noutput 0 lines 27-27\n",
    left: &[("p.0.lrat", Lines(1)), ("p.0.lrat", Begins(b"27 "))],
    ..EQUIVALENT
};

/// The CNF of the two XORs has 24 clauses, and 26 with two units; the log of the output begins behind them.
#[test]
fn open_under_constraints(rt: HostRuntime) {
    check_case(&rt, &OPEN_UNDER_CONSTRAINTS);
}

/// A check with the script F.
const EDITED: Case<'_> = Case {
    files: &[
        ("A", b"aag 3 2 0 1 1 0 1\n2\n4\n4\n6\n6 2 4\n"),
        ("B", b"aag 2 2 0 1 0\n2\n4\n2\n"),
        ("F", b"set a 6 2 2\ncheck\nset a 6 2 4\ncheck\n"),
    ],
    words: &["check", "A", "B", "--edits", "F"],
    asked: &["A", "B", "F"],
    said: "EQUIVALENT\nDIFFERENT\noutput 0\ninput 10\nEQUIVALENT\n",
    ..EQUIVALENT
};

static EDITS_UNDER_CONSTRAINTS: [Case<'_>; 2] = [
    EDITED,
    Case {
        files: &[
            ("A", b"aag 3 2 0 1 1 0 1\n2\n4\n4\n6\n6 2 4\n"),
            ("B", b"aag 2 2 0 1 0\n2\n4\n2\n"),
            ("F", b"drop a 6\n"),
        ],
        status: Status::BadInput,
        said: "EQUIVALENT\n",
        warned: "cec: F: line 1: gate 6 is in use\n",
        ..EDITED
    },
];

/// The second input against the first one, where their AND is asked to be true. An edit of the gate changes
/// what is admitted: where the gate is the first input they differ once that is true and the second false.
/// A gate that a constraint reads can't be dropped.
#[test]
fn edits_under_constraints(rt: HostRuntime) {
    check_cases(&rt, &EDITS_UNDER_CONSTRAINTS);
}

static STILL_REFUSED: Case<'_> = Case {
    files: &[("A", b"aag 0 0 0 0 0 1\n0\n"), ("B", ASKED)],
    asked: &["A"],
    warned: "cec: A: section B is not supported\n",
    left: &[("p.0.cnf", Missing)],
    ..BAD_INPUT
};

/// Bad state properties stay refused, and so do justice and fairness.
#[test]
fn other_sections_are_refused(rt: HostRuntime) {
    check_case(&rt, &STILL_REFUSED);
}
