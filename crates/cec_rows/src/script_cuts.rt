//! A script that is cut at each byte: which line is refused, and what was told before it.
use crate::desk::{Ran, expect, run_words};
use crate::files::{SWAPPED_A, SWAPPED_B};
use crate::scripts::{LEFT, SAID};
use std::alloc::AllocError;
use std::rt::Clock;
use std::sync::Wait;
use std::test::*;
use std::thread::Threads;

/// Two edits and two checks, the second one without its line feed.
const SCRIPT: &[u8] = b"set b 6 4 4\ncheck\nset b 6 4 2\ncheck";

/// So many bytes of the script, from the first number to the last: how many checks are told, the status, and
/// what is warned.
#[derive(Clone, Copy)]
struct Cut {
    first: usize,
    last: usize,
    told: usize,
    status: u8,
    warned: &'static str,
}

const WHOLE: Cut = Cut {
    first: 0,
    last: 0,
    told: 1,
    status: 0,
    warned: "",
};

/// A line that is cut is none of a script, unless nothing of it is left, or all but its line feed. The status
/// is that of the last check, the second of which finds the circuits to differ.
static CUTS: [Cut; 9] = [
    WHOLE,
    Cut {
        first: 1,
        last: 10,
        status: 4,
        warned: "cec: F: line 1: bad line\n",
        ..WHOLE
    },
    Cut {
        first: 11,
        last: 12,
        ..WHOLE
    },
    Cut {
        first: 13,
        last: 16,
        status: 4,
        warned: "cec: F: line 2: bad line\n",
        ..WHOLE
    },
    Cut {
        first: 17,
        last: 18,
        told: 2,
        status: 1,
        ..WHOLE
    },
    Cut {
        first: 19,
        last: 28,
        told: 2,
        status: 4,
        warned: "cec: F: line 3: bad line\n",
    },
    Cut {
        first: 29,
        last: 30,
        told: 2,
        status: 1,
        ..WHOLE
    },
    Cut {
        first: 31,
        last: 34,
        told: 2,
        status: 4,
        warned: "cec: F: line 4: bad line\n",
    },
    Cut {
        first: 35,
        last: 35,
        told: 3,
        ..WHOLE
    },
];

/// The names of the CNFs of the checks, and one that isn't written.
const CNFS: [&str; 4] = ["p.0.cnf", "p.1.cnf", "p.2.cnf", "p.3.cnf"];

/// Whether the verdicts of so many checks are said and nothing else, and these checks have files.
fn has_told(ran: &Ran, told: usize) -> bool {
    let mut rest = ran.desk.said();
    for text in SAID.iter().take(told) {
        match rest.strip_prefix(text.as_bytes()) {
            Some(more) => rest = more,
            None => return false,
        }
    }
    let mut files = 0_usize;
    for name in CNFS {
        if ran.desk.file(name).is_some() {
            files = files.saturating_add(1);
        }
    }
    rest.is_empty() && files == told
}

/// Whether a run on this script ends so.
fn ends_so(
    rt: &(impl Threads + Wait + Clock + Sync + AllocGlobal),
    cut: Cut,
    script: &[u8],
) -> Result<bool, AllocError> {
    let files: [(&str, &[u8]); 3] = [("A", SWAPPED_A), ("B", SWAPPED_B), ("F", script)];
    let ran = run_words(rt, &files, &LEFT, &[])?;
    Ok(
        ran.status.code() == cut.status
            && ran.desk.warned() == cut.warned.as_bytes()
            && has_told(&ran, cut.told),
    )
}

#[test]
fn script_cut_at_each_byte(rt: HostRuntime) {
    for cut in &CUTS {
        for bytes in cut.first..=cut.last {
            let script = SCRIPT.split_at(bytes.min(SCRIPT.len())).0;
            expect(&rt, cut.warned, ends_so(&rt, *cut, script) == Ok(true));
        }
    }
}
