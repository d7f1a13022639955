//! What the command says and warns of files in memory. The CNF's file is `C`, the proof's `P`.
use crate::checks::check;
use crate::desks::{desk_with, has_asked};
use crate::tables::{Table, check_rows};
use desk_port::MemDesk;
use endings::Status;
use lrat_run::run;
use std::alloc::Global;
use std::test::*;

/// The CNF of a miter of two equal AND gates.
const CNF: &str =
    "p cnf 6 12\n1 0\n-4 2 0\n-4 3 0\n4 -2 -3 0\n-5 3 0\n-5 2 0\n5 -3 -2 0\n-6 4 5 0\n\
    -6 -4 -5 0\n6 -4 5 0\n6 4 -5 0\n6 0\n";

/// The proof that its outputs are equal, and its first line.
const PROOF: &str = "13 -4 5 0 2 3 7 0\n\
        14 4 -5 0 5 6 4 0\n15 -6 4 0 8 14 0\n16 -6 0 15 13 9 0\n17 0 16 12 0\n";

const FIRST: &str = "13 -4 5 0 2 3 7 0\n";

/// Whether the desk shows these lines.
fn shows(desk: &MemDesk, said: &str, warned: &str) -> bool {
    desk.said() == said.as_bytes() && desk.warned() == warned.as_bytes()
}

/// Whether the desk shows the one line of a command that ends with this status: it is said where it is a
/// verdict, and else a warning.
fn shows_line(desk: &MemDesk, code: u8, line: &str) -> bool {
    if code <= Status::No.code() {
        shows(desk, line, "")
    } else {
        shows(desk, "", line)
    }
}

/// Whether the command reads the CNF, or the proof too, and comes to this status and this line.
fn comes_to(alloc: Global, desk: &mut MemDesk, reads_both: bool, status: &str, line: &str) -> bool {
    let code = run(alloc, desk, "C", "P").code();
    let asked: &[&str] = if reads_both { &["C", "P"] } else { &["C"] };
    status.parse() == Ok(code) && shows_line(desk, code, line) && has_asked(desk, asked)
}

/// Whether the command comes to the status and the line that are wanted, over a desk with these files whose
/// calls of these numbers fail.
fn is_met(
    alloc: Global,
    files: &[(&str, &str)],
    fails: &[u64],
    reads_both: bool,
    wanted: &str,
) -> bool {
    let Ok(mut desk) = desk_with(alloc, files, fails) else {
        return false;
    };
    match wanted.split_once(' ') {
        Some((status, line)) => comes_to(alloc, &mut desk, reads_both, status, line),
        None => false,
    }
}

/// A proof for the CNF, and the status and the line that the command comes to.
const PROOFS: &str = concat!(
    // the worked proofs
    "13 -4 5 0 2 3 7 0\n\
        14 4 -5 0 5 6 4 0\n15 -6 4 0 8 14 0\n16 -6 0 15 13 9 0\n17 0 16 12 0\n => 0 VERIFIED\n;",
    "13 -4 5 0 2 2 3 7 0\n\
        14 4 -5 0 5 6 4 0\n15 -6 4 0 8 14 0\n16 -6 0 15 13 9 0\n17 0 16 12 0\n => 1 REFUSED line 1\n;",
    "13 -4 5 0 -2 3 7 0\n\
        14 4 -5 0 5 6 4 0\n15 -6 4 0 8 14 0\n16 -6 0 15 13 9 0\n17 0 16 12 0\n => \
        4 cec: P: line 1: negative hint\n;",
    "13 -4 5 0 2 3 7 0\n => 1 REFUSED no empty clause\n;",
    "13 -4 5 0 2 3 7 0\n13 d 99 0\n\
        14 4 -5 0 5 6 4 0\n15 -6 4 0 8 14 0\n16 -6 0 15 13 9 0\n17 0 16 12 0\n => 0 VERIFIED\n;",
    // a line without words has a number too
    "13 -4 5 0 2 3 7 0\n\n14 4 -5 0 5 6 0\n => 1 REFUSED line 3\n;",
    "13 1 0 14 0\n => 1 REFUSED line 1\n;",
    " => 1 REFUSED no empty clause\n;",
    // faults of the proof
    "13 x 0 0\n => 4 cec: P: line 1: bad number\n;",
    "\n13 -4 5 0 2 3 7\n => 4 cec: P: line 2: ends too early\n;",
    "12 -4 5 0 2 3 7 0\n => 4 cec: P: line 1: id out of order\n;",
    "13 -4 5 0 2 3 -7 0\n => 4 cec: P: line 1: negative hint\n",
);

/// What the command comes to over such a proof.
struct Proofs;

impl Table for Proofs {
    fn is_met(alloc: Global, proof: &str, wanted: &str) -> bool {
        is_met(alloc, &[("C", CNF), ("P", proof)], &[], true, wanted)
    }
}

/// The worked proofs, and faults that a proof may have.
#[test]
fn hand_written_proofs(rt: HostRuntime) {
    check_rows::<Proofs>(&rt, rt.alloc(), PROOFS);
}

/// A formula with a fault, and the status and the line that the command comes to.
const FORMULAS: &str = concat!(
    " => 4 cec: C: bad header\n;",
    "p dnf 1 1\n1 0\n => 4 cec: C: bad header\n;",
    "p cnf 1 1\nx 0\n => 4 cec: C: bad number at byte 10\n;",
    "p cnf 1 1\n2 0\n => 4 cec: C: variable of 2 is too large\n;",
    "p cnf 1 2\n1 0\n => 4 cec: C: 2 clauses announced, 1 found\n;",
    "p cnf 1 1\n1 => 4 cec: C: ends too early at byte 11\n",
);

/// What the command comes to over such a formula. The proof isn't read, so that it may be missing.
struct Formulas;

impl Table for Formulas {
    fn is_met(alloc: Global, formula: &str, wanted: &str) -> bool {
        is_met(alloc, &[("C", formula)], &[], false, wanted)
    }
}

#[test]
fn faulty_formulas(rt: HostRuntime) {
    check_rows::<Formulas>(&rt, rt.alloc(), FORMULAS);
}

/// The files, the calls that fail, of two reads and what is said or warned, whether the proof is read too,
/// and the status and the line that the command comes to.
type Row = (
    &'static [(&'static str, &'static str)],
    &'static [u64],
    bool,
    &'static str,
);

/// The CNF and its proof.
const BOTH: &[(&str, &str)] = &[("C", CNF), ("P", PROOF)];

static FAULTS: [Row; 8] = [
    // files that are missing
    (&[], &[], false, "5 cec: C: cannot read\n"),
    (&[("P", FIRST)], &[], false, "5 cec: C: cannot read\n"),
    (&[("C", CNF)], &[], true, "5 cec: P: cannot read\n"),
    // calls that fail
    (BOTH, &[0], false, "5 cec: C: cannot read\n"),
    (BOTH, &[1], true, "5 cec: P: cannot read\n"),
    (BOTH, &[2], true, "6 cec: cannot write\n"),
    (BOTH, &[2, 3], true, "6 "),
    (&[("C", "p"), ("P", PROOF)], &[1], false, "4 "),
];

#[test]
fn missing_files_and_failing_calls(rt: HostRuntime) {
    for (files, fails, reads_both, wanted) in &FAULTS {
        let is_met = is_met(rt.alloc(), files, fails, *reads_both, wanted);
        check(&rt, wanted, is_met);
    }
}
