//! Files that are refused, each with the one line that says why, and one circuit in other forms.
ghost use Rattle.std.specs.Prelude.{◌≤◌, length};

use crate::desk::{
    BAD_INPUT, Case, EQUIVALENT, Ran, check_cases, check_over, has_asked, run_words,
};
use crate::files::{SWAPPED_A, SWAPPED_B, SWAPPED_BINARY, WORDS};
use crate::proofs::check_swapped;
use cec_top::Status;
use std::alloc::{AllocError, Global};
use std::rt::Clock;
use std::sync::Wait;
use std::test::*;
use std::thread::Threads;

/// A file that is whole, beside the one that is tried.
const WHOLE_B: (&str, &[u8]) = ("B", SWAPPED_A);

/// A check that the first file ends.
const BAD_A: Case<'_> = Case {
    asked: &["A"],
    ..BAD_INPUT
};

static ASCII_FAULTS: [Case<'_>; 12] = [
    Case {
        files: &[("A", b""), WHOLE_B],
        warned: "cec: A: bad header\n",
        ..BAD_A
    },
    Case {
        files: &[("A", b"aag 1 0 1 0 0\n2 3\n"), WHOLE_B],
        warned: "cec: A: 1 latches\n",
        ..BAD_A
    },
    Case {
        files: &[("A", b"aag 1 1 0 0 0 1 1\n2\n2\n2\n"), WHOLE_B],
        warned: "cec: A: section B is not supported\n",
        ..BAD_A
    },
    Case {
        files: &[("A", b"aag 3 2 0 1 0\n2\n4\n6\n"), WHOLE_B],
        warned: "cec: A: literal 6 is undefined\n",
        ..BAD_A
    },
    Case {
        files: &[("A", b"aag 4 2 0 1 2\n2\n4\n8\n6 8 2\n8 6 4\n"), WHOLE_B],
        warned: "cec: A: literal 6 is on or above a cycle\n",
        ..BAD_A
    },
    Case {
        files: &[("A", b"aag 3 2 0 0 0\n2\n2\n"), WHOLE_B],
        warned: "cec: A: literal 2 is defined twice\n",
        ..BAD_A
    },
    Case {
        files: &[("A", b"aag 1 1 0 0 0\n3\n"), WHOLE_B],
        warned: "cec: A: bad literal 3\n",
        ..BAD_A
    },
    Case {
        files: &[("A", b"aag 1 1 0 0 0\nx\n"), WHOLE_B],
        warned: "cec: A: bad number at byte 14\n",
        ..BAD_A
    },
    Case {
        files: &[("A", b"aag 1 1 0 0 0\n2\ni1 x\n"), WHOLE_B],
        warned: "cec: A: bad symbol line at byte 16\n",
        ..BAD_A
    },
    Case {
        files: &[("A", b"aag 16777217 0 0 0 0\n"), WHOLE_B],
        warned: "cec: A: 16777217 is above 16777216\n",
        ..BAD_A
    },
    Case {
        files: &[("A", b"aag 1000000000000000000000 0 0 0 0\n"), WHOLE_B],
        warned: "cec: A: 1000000000000000000 is above 16777216\n",
        ..BAD_A
    },
    Case {
        files: &[("A", b"aag 3 2 0 1 1\n2\n4\n6\n6 2"), WHOLE_B],
        warned: "cec: A: ends too early at byte 23\n",
        ..BAD_A
    },
];

#[test]
fn ascii_faults(rt: HostRuntime) {
    check_cases(&rt, &ASCII_FAULTS);
}

/// How many bytes the header has of either file that is cut.
const HEADER: usize = 13;

/// The line of a file of which so many bytes are left, where something is missing.
fn line_after(alloc: Global, bytes: usize) -> Result<String, AllocError> {
    if bytes < HEADER {
        return String::from_str(alloc, "cec: A: bad header\n");
    }
    format!(in alloc; "cec: A: ends too early at byte {bytes}\n")
}

/// Whether a run was refused with this line, and has read one file and left none.
fn is_refused(ran: &Ran, line: &str) -> bool {
    ran.status == Status::BadInput
        && ran.desk.warned() == line.as_bytes()
        && ran.desk.said().is_empty()
        && has_asked(&ran.desk, &["A"])
        && ran.desk.file("p.0.cnf").is_none()
        && ran.kept.is_empty()
}

/// Whether the file with so many bytes left is refused for what is missing.
fn is_cut(
    rt: &(impl Threads + Wait + Clock + Sync + AllocGlobal),
    file: &[u8],
    bytes: usize,
) -> Result<bool, AllocError>
    requires { bytes ≤ length file.now }
{
    let line = line_after(rt.alloc(), bytes)?;
    let ran = run_words(rt, &[("A", &file[..bytes]), ("B", SWAPPED_B)], &WORDS, &[])?;
    Ok(is_refused(&ran, line.as_str()))
}

/// The last line feed may be missing, and nothing else.
#[test]
fn cut_at_each_byte(rt: HostRuntime) {
    for n in 0..25usize {
        assert!(rt; is_cut(&rt, SWAPPED_A, n) == Ok(true), "text, {n} bytes");
    }
    check_swapped(&rt, &[("A", &SWAPPED_A[..25]), ("B", SWAPPED_B)]);
    for n in 0..18usize {
        assert!(rt;
            is_cut(&rt, SWAPPED_BINARY, n) == Ok(true),
            "binary, {n} bytes"
        );
    }
}

/// The AND with a comment behind its gate, which has no line feed.
const COMMENTED: &[u8] = b"aag 3 2 0 1 1\n2\n4\n6\n6 2 4\ncABC";

/// The AND without its last line feed.
const WITHOUT_LAST: &[u8] = b"aag 3 2 0 1 1\n2\n4\n6\n6 2 4";

#[test]
fn comment_and_last_newline(rt: HostRuntime) {
    check_swapped(&rt, &[("A", COMMENTED), ("B", SWAPPED_B)]);
    check_swapped(&rt, &[("A", WITHOUT_LAST), ("B", SWAPPED_B)]);
}

static BINARY_FAULTS: [Case<'_>; 3] = [
    Case {
        files: &[("A", SWAPPED_A), ("B", b"aig 3 2 0 1 1\n6\n\x02")],
        warned: "cec: B: ends too early at byte 17\n",
        ..BAD_INPUT
    },
    Case {
        files: &[("A", SWAPPED_A), ("B", b"aig 3 2 0 1 1\n6\n\x00\x02")],
        warned: "cec: B: bad delta at gate 0\n",
        ..BAD_INPUT
    },
    Case {
        files: &[("A", SWAPPED_A), ("B", b"abg 3 2 0 1 1\n6\n\x02\x02")],
        warned: "cec: B: bad header\n",
        ..BAD_INPUT
    },
];

#[test]
fn binary_faults(rt: HostRuntime) {
    check_cases(&rt, &BINARY_FAULTS);
}

const FORMS: [&[u8]; 4] = [
    SWAPPED_BINARY,
    // A delta that isn't as short as can be.
    b"aig 3 2 0 1 1\n6\n\x82\x00\x02",
    b"aig 3 2 0 1 1\n6\n\x02\x02i0 x\no0 y\nc\n",
    b"aag 4 2 0 1 2\n2\n4\n8\n8 6 4\n6 2 4\n",
];

static ALIKE: Case<'_> = EQUIVALENT;

/// One circuit in other forms: each agrees with its plain text.
#[test]
fn one_circuit_in_many_forms(rt: HostRuntime) {
    for file in &FORMS {
        check_over(&rt, &[("A", file), WHOLE_B], &ALIKE);
    }
}
