//! An input on which circuits differ, as the file of `--witness` has it.
use crate::desk::Holds::{Bytes, Missing};
use crate::desk::{BAD_INPUT, Case, DIFFERENT, EQUIVALENT, check_cases};
use crate::files::{AGAINST_FALSE, FALSE, SWAPPED, SWAPPED_A, SWAPPED_B, XOR_X, XOR_Y};
use cec_top::Status;
use std::rt::Clock;
use std::test::*;

const SHOWN: Case<'_> = Case {
    files: &AGAINST_FALSE,
    words: &["check", "A", "B", "--witness", "w"],
    said: "DIFFERENT\noutput 0\ninput 11\n",
    left: &[("w", Bytes(b"1\nb0\n\n11\n.\n"))],
    ..DIFFERENT
};

/// An input and no other, of three inputs, two of which have a name.
const FIRST_ALONE: &[u8] =
    b"aag 5 3 0 1 2\n2\n4\n6\n10\n8 2 5\n10 8 7\ni0 first of three\ni2 third\n";

/// False, of three inputs.
const FALSE_OF_THREE: &[u8] = b"aag 3 3 0 1 0\n2\n4\n6\n0\n";

/// The first input without the second one, both with names.
const WITHOUT: &[u8] = b"aag 3 2 0 1 1\n2\n4\n6\n6 2 5\ni0 x\ni1 y\no0 f\n";

/// False, whose inputs have the same names the other way round.
const TURNED: &[u8] = b"aag 2 2 0 1 0\n2\n4\n0\ni0 y\ni1 x\no0 f\n";

static WITNESSES: [Case<'_>; 6] = [
    SHOWN,
    // A line for each input that has a name, which may have any bytes but a line feed.
    Case {
        files: &[("A", FIRST_ALONE), ("B", FALSE_OF_THREE)],
        said: "DIFFERENT\noutput 0\ninput 100\n",
        left: &[(
            "w",
            Bytes(b"1\nb0\n\n100\n.\nc first of three 1\nc third 0\n"),
        )],
        ..SHOWN
    },
    // The names of B alone aren't told.
    Case {
        files: &[("A", FALSE_OF_THREE), ("B", FIRST_ALONE)],
        said: "DIFFERENT\noutput 0\ninput 100\n",
        left: &[("w", Bytes(b"1\nb0\n\n100\n.\n"))],
        ..SHOWN
    },
    // The digits go in A's order.
    Case {
        files: &[("A", WITHOUT), ("B", TURNED)],
        words: &["check", "A", "B", "--match", "names", "--witness", "w"],
        said: "DIFFERENT\noutput 0\ninput 10\n",
        left: &[("w", Bytes(b"1\nb0\n\n10\n.\nc x 1\nc y 0\n"))],
        ..SHOWN
    },
    // Without inputs the line of the input is empty.
    Case {
        files: &[("A", b"aag 0 0 0 1 0\n1\n"), ("B", b"aag 0 0 0 1 0\n0\n")],
        said: "DIFFERENT\noutput 0\ninput none\n",
        left: &[("w", Bytes(b"1\nb0\n\n\n.\n"))],
        ..SHOWN
    },
    // An earlier file is written over, and what `--out` leaves stands beside it.
    Case {
        files: &[("A", SWAPPED_A), ("B", FALSE), ("p.cnf", b"goes")],
        words: &["check", "A", "B", "--out", "p", "--witness", "p.cnf"],
        left: &[
            ("p.cnf", Bytes(b"1\nb0\n\n11\n.\n")),
            ("p.0.lrat", Bytes(b"")),
        ],
        ..SHOWN
    },
];

/// A DIFFERENT leaves its input.
#[test]
fn witnesses(rt: HostRuntime) {
    check_cases(&rt, &WITNESSES);
}

static WITHOUT_A_WITNESS: [Case<'_>; 4] = [
    Case {
        files: &[("A", SWAPPED_A), ("B", SWAPPED_B), ("w", b"stays")],
        words: &["check", "A", "B", "--witness", "w"],
        left: &[("w", Bytes(b"stays"))],
        ..EQUIVALENT
    },
    Case {
        files: &SWAPPED,
        words: &["check", "A", "B", "--witness", "w"],
        left: &[("w", Missing)],
        ..EQUIVALENT
    },
    Case {
        files: &[("A", XOR_X), ("B", XOR_Y), ("w", b"stays")],
        words: &[
            "check",
            "A",
            "B",
            "--sweep-budget",
            "1",
            "--budget",
            "1",
            "--witness",
            "w",
        ],
        status: Status::Undecided,
        said: "UNDECIDED\noutput 0\n",
        left: &[("w", Bytes(b"stays"))],
        ..EQUIVALENT
    },
    // The circuits are not alike.
    Case {
        files: &[("A", SWAPPED_A), ("B", FALSE_OF_THREE), ("w", b"stays")],
        words: &["check", "A", "B", "--witness", "w"],
        warned: "cec: inputs 2 and 3 differ\n",
        left: &[("w", Bytes(b"stays"))],
        ..BAD_INPUT
    },
];

/// Nothing else does, and an earlier file stays.
#[test]
fn verdicts_without_a_witness(rt: HostRuntime) {
    check_cases(&rt, &WITHOUT_A_WITNESS);
}

const EDITED: Case<'_> = Case {
    files: &[
        ("A", SWAPPED_A),
        ("B", SWAPPED_B),
        ("F", b"set b 6 4 4\ncheck\nset b 6 4 2\ncheck\n"),
    ],
    words: &["check", "A", "B", "--edits", "F", "--witness", "w"],
    said: "EQUIVALENT\nDIFFERENT\noutput 0\ninput 01\nEQUIVALENT\n",
    asked: &["A", "B", "F"],
    left: &[("w", Bytes(b"1\nb0\n\n01\n.\n"))],
    ..EQUIVALENT
};

static EDITED_WITNESSES: [Case<'_>; 3] = [
    EDITED,
    Case {
        files: &[
            ("A", SWAPPED_A),
            ("B", SWAPPED_B),
            ("F", b"set b 6 4 4\ncheck\nset b 6 2 2\ncheck\n"),
        ],
        status: Status::No,
        said: "EQUIVALENT\nDIFFERENT\noutput 0\ninput 01\nDIFFERENT\noutput 0\ninput 10\n",
        left: &[("w", Bytes(b"1\nb0\n\n10\n.\n"))],
        ..EDITED
    },
    // It stands where a later line is refused.
    Case {
        files: &[
            ("A", SWAPPED_A),
            ("B", SWAPPED_B),
            ("F", b"set b 6 4 4\ncheck\ndrop b 6\n"),
        ],
        status: Status::BadInput,
        said: "EQUIVALENT\nDIFFERENT\noutput 0\ninput 01\n",
        warned: "cec: F: line 3: gate 6 is in use\n",
        ..EDITED
    },
];

/// Of the checks of a script the last one that differs leaves its input.
#[test]
fn witnesses_of_scripts(rt: HostRuntime) {
    check_cases(&rt, &EDITED_WITNESSES);
}

const FAILS: Case<'_> = Case {
    files: &[("A", SWAPPED_A), ("B", FALSE), ("w", b"stays")],
    words: &["check", "A", "B", "--witness", "w"],
    fails: &[2],
    status: Status::CannotWrite,
    said: "",
    warned: "cec: cannot write\n",
    left: &[("w", Bytes(b"stays"))],
    ..EQUIVALENT
};

static FAILING_WRITES: [Case<'_>; 4] = [
    FAILS,
    Case {
        fails: &[3],
        left: &[],
        ..FAILS
    },
    Case {
        fails: &[4],
        left: &[("w", Bytes(b"1\nb0\n\n11\n.\n"))],
        ..FAILS
    },
    // It stands before the verdict is said.
    Case {
        fails: &[5],
        left: &[("w", Bytes(b"1\nb0\n\n11\n.\n"))],
        ..FAILS
    },
];

/// No verdict is said without its witness: behind two reads it is started, written and closed, and then the
/// verdict is said.
#[test]
fn witnesses_that_are_not_written(rt: HostRuntime) {
    check_cases(&rt, &FAILING_WRITES);
}

const IN_THE_WAY: Case<'_> = Case {
    files: &AGAINST_FALSE,
    words: &["check", "A", "B", "--out", "p", "--witness", "p.0.cnf"],
    status: Status::BadUsage,
    warned: "cec: --witness names a file of --out\n",
    asked: &[],
    left: &[("p.0.cnf", Missing)],
    ..BAD_INPUT
};

static NAMES_IN_THE_WAY: [Case<'_>; 3] = [
    IN_THE_WAY,
    Case {
        words: &["check", "A", "B", "--witness", "p.12.lrat", "--out", "p"],
        left: &[("p.12.lrat", Missing)],
        ..IN_THE_WAY
    },
    Case {
        words: &["check", "A", "B", "--witness", "f", "--save", "f"],
        warned: "cec: --witness and --save name one file\n",
        left: &[("f", Missing)],
        ..IN_THE_WAY
    },
];

/// No file is read where the witness would stand in the place of another file that is left.
#[test]
fn names_in_the_way(rt: HostRuntime) {
    check_cases(&rt, &NAMES_IN_THE_WAY);
}
