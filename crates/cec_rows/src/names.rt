//! Checks whose circuits are matched by the names of their inputs and outputs.
use crate::desk::Holds::{Bytes, Missing};
use crate::desk::{BAD_INPUT, Case, DIFFERENT, EQUIVALENT, check_case, check_cases};
use crate::files::{SWAPPED, SWAPPED_A};
use std::process::Abort;
use std::sync::Wait;
use std::test::*;
use std::thread::Threads;

const BY_NAME: [&str; 7] = ["check", "A", "B", "--match", "names", "--out", "p"];

/// z is x and not y.
const X_Y: &[u8] = b"aag 3 2 0 1 1\n2\n4\n6\n6 2 5\ni0 x\ni1 y\no0 z\n";

/// The same of inputs that stand the other way round.
const Y_X: &[u8] = b"aag 3 2 0 1 1\n2\n4\n6\n6 4 3\ni0 y\ni1 x\no0 z\n";

const TURNED: [(&str, &[u8]); 2] = [("A", X_Y), ("B", Y_X)];

/// Inputs and gates of either side have the variables of A's order.
const BY_NAME_CNF: &[u8] =
    b"p cnf 6 12\n1 0\n-4 2 0\n-4 -3 0\n4 -2 3 0\n-5 2 0\n-5 -3 0\n5 -2 3 0\n-6 4 5 0\n\
    -6 -4 -5 0\n6 -4 5 0\n6 4 -5 0\n6 0\n";

const BY_POSITION_CNF: &[u8] =
    b"p cnf 6 12\n1 0\n-4 2 0\n-4 -3 0\n4 -2 3 0\n-5 3 0\n-5 -2 0\n5 -3 2 0\n-6 4 5 0\n\
    -6 -4 -5 0\n6 -4 5 0\n6 4 -5 0\n6 0\n";

const EQUIVALENT_BY_NAME: Case<'_> = Case {
    files: &TURNED,
    words: &BY_NAME,
    left: &[("p.0.cnf", Bytes(BY_NAME_CNF))],
    ..EQUIVALENT
};

const DIFFERENT_BY_POSITION: Case<'_> = Case {
    files: &TURNED,
    words: &["check", "A", "B", "--match", "position", "--out", "p"],
    said: "DIFFERENT\noutput 0\ninput 10\n",
    left: &[
        ("p.0.cnf", Bytes(BY_POSITION_CNF)),
        ("p.0.lrat", Bytes(b"")),
    ],
    ..DIFFERENT
};

static ONE_PAIR_BOTH_WAYS: [Case<'_>; 3] = [
    EQUIVALENT_BY_NAME,
    DIFFERENT_BY_POSITION,
    Case {
        words: &["check", "A", "B", "--out", "p"],
        ..DIFFERENT_BY_POSITION
    },
];

/// Position is the default. The input that is told is the first pattern in which both inputs differ, as
/// `tools/draws.py` prints the words.
#[test]
fn one_pair_both_ways(rt: HostRuntime) {
    check_cases(&rt, &ONE_PAIR_BOTH_WAYS);
}

static DIFFERS_IN_THE_ORDER_OF_A: Case<'_> = Case {
    files: &[
        (
            "A",
            b"aag 3 2 0 2 1\n2\n4\n0\n6\n6 2 5\ni0 x\ni1 y\no0 w\no1 z\n",
        ),
        ("B", b"aag 2 2 0 2 0\n2\n4\n0\n0\ni0 y\ni1 x\no0 z\no1 w\n"),
    ],
    words: &BY_NAME,
    said: "DIFFERENT\noutput 1\ninput 10\n",
    ..DIFFERENT
};

/// Only where x is 1 and y is 0 does z differ: x is A's first input and B's second, and z is A's second
/// output and B's first.
#[test]
fn differs_in_the_order_of_a(rt: HostRuntime) {
    check_case(&rt, &DIFFERS_IN_THE_ORDER_OF_A);
}

const NO_NAME: Case<'_> = Case {
    files: &SWAPPED,
    words: &BY_NAME,
    warned: "cec: input 0 of a has no name\n",
    left: &[("p.0.cnf", Missing)],
    ..BAD_INPUT
};

static NAMES_THAT_DO_NOT_FIT: [Case<'_>; 6] = [
    NO_NAME,
    Case {
        files: &[("A", X_Y), ("B", SWAPPED_A)],
        warned: "cec: input 0 of b has no name\n",
        ..NO_NAME
    },
    Case {
        files: &[
            ("A", X_Y),
            ("B", b"aag 3 2 0 1 1\n2\n4\n6\n6 4 3\ni0 y\ni1 y\no0 z\n"),
        ],
        warned: "cec: input 1 of b has the name of an earlier one\n",
        ..NO_NAME
    },
    Case {
        files: &[
            ("A", X_Y),
            ("B", b"aag 3 2 0 1 1\n2\n4\n6\n6 4 3\ni0 y\ni1 u\no0 z\n"),
        ],
        warned: "cec: input 0 of a is missing in b\n",
        ..NO_NAME
    },
    Case {
        files: &[
            ("A", X_Y),
            ("B", b"aag 3 2 0 1 1\n2\n4\n6\n6 4 3\ni0 y\ni1 x\no0 u\n"),
        ],
        warned: "cec: output 0 of a is missing in b\n",
        ..NO_NAME
    },
    // Numbers come before names.
    Case {
        files: &[("A", X_Y), ("B", b"aag 3 3 0 1 0\n2\n4\n6\n6\n")],
        warned: "cec: inputs 2 and 3 differ\n",
        ..NO_NAME
    },
];

#[test]
fn names_that_do_not_fit(rt: HostRuntime) {
    check_cases(&rt, &NAMES_THAT_DO_NOT_FIT);
}

static WITHOUT_NAMES: Case<'_> = Case {
    files: &[("A", b"aag 0 0 0 0 0\n"), ("B", b"aag 0 0 0 0 0\n")],
    words: &BY_NAME,
    ..EQUIVALENT
};

/// Circuits without inputs and outputs want no names.
#[test]
fn no_places_want_no_names(rt: HostRuntime) {
    check_case(&rt, &WITHOUT_NAMES);
}
