//! Proofs that are checked against formulas, those of the program among them.
use crate::desk::Holds::Bytes;
use crate::desk::{
    BAD_INPUT, Case, EQUIVALENT, Ran, check, check_over, expect, has_asked, run_words,
};
use crate::files::{EMPTY_CNF, SWAPPED, SWAPPED_CNF, TIGHT, WORDS, XORS};
use cec_top::Status;
use std::alloc::AllocError;
use std::process::Abort;
use std::rt::Clock;
use std::sync::Wait;
use std::test::Fail;
use std::thread::Threads;

/// The lines behind the first one of a proof by hand.
const REST: &str = "14 4 -5 0 5 6 4 0\n15 -6 4 0 8 14 0\n16 -6 0 15 13 9 0\n17 0 16 12 0\n";

const BAD_PROOF: Case<'_> = Case {
    words: &["lrat", "C", "P"],
    asked: &["C", "P"],
    ..BAD_INPUT
};

const VERIFIED: Case<'_> = Case {
    status: Status::Done,
    said: "VERIFIED\n",
    ..BAD_PROOF
};

const REFUSED: Case<'_> = Case {
    status: Status::No,
    said: "REFUSED line 1\n",
    ..BAD_PROOF
};

const NO_EMPTY: Case<'_> = Case {
    status: Status::No,
    said: "REFUSED no empty clause\n",
    ..BAD_PROOF
};

const NEGATIVE_HINT: Case<'_> = Case {
    warned: "cec: P: line 1: negative hint\n",
    ..BAD_PROOF
};

/// The first line of a proof of the swapped ANDs, the others, and how its check ends.
static HAND_WRITTEN: [(&str, &str, Case<'_>); 5] = [
    ("13 -4 5 0 2 3 7 0\n", REST, VERIFIED),
    ("13 -4 5 0 2 3 7 0\n13 d 99 0\n", REST, VERIFIED),
    ("13 -4 5 0 2 2 3 7 0\n", REST, REFUSED),
    ("13 -4 5 0 2 3 7 0\n", "", NO_EMPTY),
    ("13 -4 5 0 -2 3 7 0\n", REST, NEGATIVE_HINT),
];

#[test]
fn hand_written_proofs(rt: HostRuntime) -> Result<(), Fail> {
    for (first, rest, end) in &HAND_WRITTEN {
        let proof = format!(in rt.alloc(); "{first}{rest}")?;
        check_over(&rt, &[("C", SWAPPED_CNF), ("P", proof.as_bytes())], end);
    }
    Ok(())
}

/// Checks the proof that a check left, and asks how that ends.
fn check_left(
    rt: &(impl Threads + Wait + Clock + Sync + Abort + AllocGlobal),
    ran: Result<Ran, AllocError>,
    end: &Case<'_>,
) {
    let Ok(ran) = ran else {
        return check(rt, end, "memory", false);
    };
    let cnf = ran.desk.file("p.0.cnf").unwrap_or(b"");
    let proof = ran.desk.file("p.0.lrat").unwrap_or(b"");
    check_over(rt, &[("C", cnf), ("P", proof)], end);
}

static REFUTATION: Case<'_> = VERIFIED;

static AS_SWAPPED: Case<'_> = Case {
    left: &[("p.0.cnf", Bytes(SWAPPED_CNF))],
    ..EQUIVALENT
};

/// Checks files whose circuits are the two ANDs, in whatever form: they are equivalent, their CNF is the
/// worked one, and their proof is verified.
pub(crate) fn check_swapped(
    rt: &(impl Threads + Wait + Clock + Sync + Abort + AllocGlobal),
    files: &[(&str, &[u8])],
) {
    check_over(rt, files, &AS_SWAPPED);
    check_refuted(rt, files);
}

/// Checks files whose circuits are equivalent: their proof is verified.
pub(crate) fn check_refuted(
    rt: &(impl Threads + Wait + Clock + Sync + Abort + AllocGlobal),
    files: &[(&str, &[u8])],
) {
    check_left(rt, run_words(rt, files, &WORDS, &[]), &REFUTATION);
}

#[test]
fn own_refutation(rt: HostRuntime) {
    check_swapped(&rt, &SWAPPED);
}

static LOG: Case<'_> = NO_EMPTY;

#[test]
fn own_log(rt: HostRuntime) {
    check_left(&rt, run_words(&rt, &XORS, &TIGHT, &[]), &LOG);
}

/// Whether the one line is said where it is a verdict, and else warned, with nothing else.
fn shows(ran: &Ran, line: &str) -> bool {
    let (said, warned) = (ran.desk.said(), ran.desk.warned());
    if ran.status.code() <= Status::No.code() {
        said == line.as_bytes() && warned.is_empty()
    } else {
        said.is_empty() && warned == line.as_bytes()
    }
}

/// Whether a run on a formula and a proof comes to the status and the line. The proof is read unless the line
/// is about the formula.
fn is_told(ran: Result<Ran, AllocError>, told: &str) -> bool {
    let Ok(ran) = ran else {
        return false;
    };
    let Some((status, line)) = told.split_once(' ') else {
        return false;
    };
    let files: &[&str] = if line.starts_with("cec: C: ") {
        &["C"]
    } else {
        &["C", "P"]
    };
    status.parse() == Ok(ran.status.code()) && shows(&ran, line) && has_asked(&ran.desk, files)
}

/// Checks the proof against the formula, and asks what is told of it.
fn check_told(
    rt: &(impl Threads + Wait + Clock + Sync + Abort + AllocGlobal),
    cnf: &[u8],
    proof: &[u8],
    told: &str,
) {
    let ran = run_words(rt, &[("C", cnf), ("P", proof)], &["lrat", "C", "P"], &[]);
    expect(rt, told, is_told(ran, told));
}

/// Asks it of each row of a table: a proof, an arrow, and what is told of it. Rows end in semicolons.
fn check_rows(
    rt: &(impl Threads + Wait + Clock + Sync + Abort + AllocGlobal),
    cnf: &[u8],
    rows: &str,
) {
    for row in rows.split_terminator(';') {
        let (proof, told) = row.split_once(" => ").unwrap_or((row, ""));
        check_told(rt, cnf, proof.as_bytes(), told);
    }
}

/// Proofs of the swapped ANDs: plain, with deletions of what isn't used again, and with one that comes too
/// early.
const WITH_DELETIONS: &str = "\
13 -5 4 0 5 4 6 0
14 5 -4 0 2 3 7 0
15 -6 4 0 8 13 0
16 -6 0 15 14 9 0
17 0 16 12 0
 => 0 VERIFIED
;13 -5 4 0 5 4 6 0
14 5 -4 0 2 3 7 0
15 -6 4 0 8 13 0
15 d 13 0
16 -6 0 15 14 9 0
16 d 14 15 0
17 0 16 12 0
 => 0 VERIFIED
;13 -5 4 0 5 4 6 0
13 d 13 0
14 5 -4 0 2 3 7 0
15 -6 4 0 8 13 0
15 d 13 0
16 -6 0 15 14 9 0
16 d 14 15 0
17 0 16 12 0
 => 1 REFUSED line 4
;";

/// Proofs that are forged, for a formula of a unit and the empty clause.
///
/// In turn: a hint that is satisfied, one with a free literal, none, one that names no clause, and a clause
/// with a literal and its negation; an id that is taken, and a word behind the last 0; a clause of the
/// formula that is deleted, and a second line without a hint; no empty clause.
const FORGED: &str = "\
3 0 2 2 0
 => 1 REFUSED line 1
;3 0 1 0
 => 1 REFUSED line 1
;3 0 0
 => 1 REFUSED line 1
;3 0 9 0
 => 1 REFUSED line 1
;3 1 -1 0 2 0
 => 1 REFUSED line 1
;2 0 2 0
 => 4 cec: P: line 1: id out of order
;3 0 2 0 5
 => 4 cec: P: line 1: bad number
;3 d 2 0
4 0 2 0
 => 1 REFUSED line 2
;3 0 2 0
4 1 0 0
 => 1 REFUSED line 2
;3 7 0 2 0
 => 1 REFUSED no empty clause
;";

#[test]
fn forged_proofs(rt: HostRuntime) {
    check_rows(&rt, SWAPPED_CNF, WITH_DELETIONS);
    check_rows(&rt, EMPTY_CNF, FORGED);
    // A count past its limit.
    let told = "4 cec: C: bad header\n";
    check_told(&rt, b"p cnf 2147483648 0\n", b"", told);
}

/// The proof of a formula of a unit and the empty clause.
const EMPTY_PROOF: &[u8] = b"3 0 2 0\n";

/// What is told of the formula with so many bytes left, beside its proof.
fn of_cut_formula(bytes: usize) -> &'static str {
    match bytes {
        0..=8 => "4 cec: C: bad header\n",
        9 | 10 => "4 cec: C: 2 clauses announced, 0 found\n",
        11 => "4 cec: C: ends too early at byte 11\n",
        12 => "4 cec: C: ends too early at byte 12\n",
        13 | 14 => "4 cec: C: 2 clauses announced, 1 found\n",
        _ => "0 VERIFIED\n",
    }
}

/// The same of the proof, beside the whole formula.
fn of_cut_proof(bytes: usize) -> &'static str {
    match bytes {
        0 => "1 REFUSED no empty clause\n",
        1..=6 => "4 cec: P: line 1: ends too early\n",
        _ => "0 VERIFIED\n",
    }
}

#[test]
fn formula_and_proof_cut_at_each_byte(rt: HostRuntime) {
    for n in 0..17usize {
        check_told(&rt, &EMPTY_CNF[..n], EMPTY_PROOF, of_cut_formula(n));
    }
    for n in 0..9usize {
        check_told(&rt, EMPTY_CNF, &EMPTY_PROOF[..n], of_cut_proof(n));
    }
}
