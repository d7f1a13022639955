use crate::checks::check as expect;
use Want::{Bad, NoEmpty, Refuted};
use dimacs_text::Cnf;
use lits::{Dim, Listed};
use lrat_checker::{Verdict, check, check_text};
use lrat_text::{Line, LratErr, LratStep};
use std::alloc::{AllocError, Global};
use std::slice;
use std::test::*;
use unit_prop::{BadStep, Why};

/// The formula of two swapped ANDs with their outputs compared, `4` being one AND and `5` the other.
const SWAPPED_AND: &[u8] =
    b"p cnf 6 12\n1 0\n-4 2 0\n-4 3 0\n4 -2 -3 0\n-5 3 0\n-5 2 0\n5 -3 -2 0\n-6 4 5 0\n\
    -6 -4 -5 0\n6 -4 5 0\n6 4 -5 0\n6 0\n";

/// Each clause over two variables.
const ALL_PAIRS: &[u8] = b"p cnf 6 4\n1 2 0\n-1 2 0\n1 -2 0\n-1 -2 0\n";

/// The same over two variables of which one is as great as can be, so that no table has a place for each.
const FAR_PAIRS: &[u8] =
    b"p cnf 2147483647 4\n2147483647 5 0\n-2147483647 5 0\n2147483647 -5 0\n-2147483647 -5 0\n";

/// Two clauses of one literal, whose variables are neighbours and far from 1.
const FAR_NEIGHBOURS: &[u8] = b"p cnf 2147483647 2\n2147483646 0\n-2147483647 0\n";

/// A clause of one literal, and the empty one.
const WITH_EMPTY: &[u8] = b"p cnf 6 2\n1 0\n0\n";

/// What the checker should say: a verdict without a place, or the line, the hint and why it is bad.
enum Want {
    Refuted,
    NoEmpty,
    Bad(u64, u64, Why),
}

fn verdict_of(want: &Want) -> Verdict {
    match want {
        Refuted => Verdict::Refuted,
        NoEmpty => Verdict::NoEmpty,
        Bad(line, hint, why) => Verdict::Bad {
            line: *line,
            fault: BadStep {
                hint: *hint,
                why: *why,
            },
        },
    }
}

/// What the checker says of a formula and a proof text, where both can be read.
fn verdict(alloc: Global, formula: &[u8], proof: &str) -> Option<Verdict> {
    let cnf = dimacs_text::read(alloc, formula).ok()?;
    let lines = lrat_text::read(alloc, proof.as_bytes(), cnf.clauses.len() as u64).ok()?;
    check(alloc, &cnf, lines.as_slice()).ok()
}

/// A formula, a proof text, and what the checker should say.
type Row = (&'static [u8], &'static str, Want);

static CHECKS: [Row; 37] = [
    (b"p cnf 1 2\n1 0\n0\n", "3 0 2 0\n", Refuted),
    (WITH_EMPTY, "3 0 2 0\n", Refuted),
    // Proofs that were written by hand: whole, with a hint that is doubled, cut, and with a deletion.
    (
        SWAPPED_AND,
        "13 -4 5 0 2 3 7 0\n\
        14 4 -5 0 5 6 4 0\n15 -6 4 0 8 14 0\n16 -6 0 15 13 9 0\n17 0 16 12 0\n",
        Refuted,
    ),
    (
        SWAPPED_AND,
        "13 -4 5 0 2 2 3 7 0\n\
        14 4 -5 0 5 6 4 0\n15 -6 4 0 8 14 0\n16 -6 0 15 13 9 0\n17 0 16 12 0\n",
        Bad(1, 2, Why::Satisfied),
    ),
    (SWAPPED_AND, "13 -4 5 0 2 3 7 0\n", NoEmpty),
    (
        SWAPPED_AND,
        "13 -4 5 0 2 3 7 0\n13 d 99 0\n\
        14 4 -5 0 5 6 4 0\n15 -6 4 0 8 14 0\n16 -6 0 15 13 9 0\n17 0 16 12 0\n",
        Refuted,
    ),
    // Clauses that are deleted: once they have served, a lemma before that, and a clause of the formula.
    (
        SWAPPED_AND,
        "13 -5 4 0 5 4 6 0\n\
        14 5 -4 0 2 3 7 0\n15 -6 4 0 8 13 0\n15 d 13 0\n16 -6 0 15 14 9 0\n16 d 14 15 0\n17 0 16 12 0\n",
        Refuted,
    ),
    (
        SWAPPED_AND,
        "13 -5 4 0 5 4 6 0\n13 d 13 0\n\
        14 5 -4 0 2 3 7 0\n15 -6 4 0 8 13 0\n15 d 13 0\n16 -6 0 15 14 9 0\n16 d 14 15 0\n17 0 16 12 0\n",
        Bad(4, 2, Why::NoClause),
    ),
    (
        SWAPPED_AND,
        "13 -5 4 0 5 4 6 0\n13 d 11 7 0\n\
        14 5 -4 0 2 3 7 0\n15 -6 4 0 8 13 0\n15 d 13 0\n16 -6 0 15 14 9 0\n16 d 14 15 0\n17 0 16 12 0\n",
        Bad(3, 3, Why::NoClause),
    ),
    // The empty clause of the formula isn't one that a line adds.
    (WITH_EMPTY, "", NoEmpty),
    (WITH_EMPTY, "3 1 0 1 0\n", NoEmpty),
    // Lines after the empty clause.
    (WITH_EMPTY, "3 0 2 0\n4 1 0 1 0\n", Refuted),
    (WITH_EMPTY, "3 0 2 0\n3 d 3 2 0\n4 1 0 1 0\n", Refuted),
    (WITH_EMPTY, "3 0 2 0\n4 1 0 9 0\n", Bad(2, 1, Why::NoClause)),
    (WITH_EMPTY, "3 0 2 0\n4 2 0 1 0\n", Bad(2, 0, Why::NotFalse)),
    (ALL_PAIRS, "5 2 0 1 2 0\n6 0 5 3 4 0\n", Refuted),
    // Ids may have gaps, and a repeated literal counts once.
    (
        ALL_PAIRS,
        "1000 2 2 0 1 2 0\n999999999999999999 0 1000 3 4 0\n",
        Refuted,
    ),
    // First bad lines.
    (
        ALL_PAIRS,
        "1000 2 0 1 2 0\n1000 d 1000 0\n1001 0 1000 3 4 0\n",
        Bad(3, 1, Why::NoClause),
    ),
    (ALL_PAIRS, "5 2 -2 0 1 2 0\n", Bad(1, 0, Why::Tautology)),
    (ALL_PAIRS, "5 2 0 0\n", Bad(1, 0, Why::NotFalse)),
    (
        ALL_PAIRS,
        "\n5 2 0 1 2 0\n \n6 0 5 3 0\n",
        Bad(4, 0, Why::NotFalse),
    ),
    (ALL_PAIRS, "5 0 1 0\n", Bad(1, 1, Why::TwoFree)),
    (ALL_PAIRS, "5 2 0 1 1 0\n", Bad(1, 2, Why::Satisfied)),
    (ALL_PAIRS, "5 2 0 1 2 3 0\n", Bad(1, 3, Why::AfterFalse)),
    (ALL_PAIRS, "5 2 0 1 2 9 0\n", Bad(1, 3, Why::NoClause)),
    (ALL_PAIRS, "5 2 0 5 0\n", Bad(1, 1, Why::NoClause)),
    // The first of two bad lines is told.
    (
        ALL_PAIRS,
        "5 2 0 1 2 0\n6 0 9 0\n7 0 1 0\n",
        Bad(2, 1, Why::NoClause),
    ),
    // The same verdicts where variables are few and great.
    (FAR_PAIRS, "5 5 0 1 2 0\n6 0 5 3 4 0\n", Refuted),
    (FAR_PAIRS, "5 5 0 1 2 0\n", NoEmpty),
    (FAR_PAIRS, "5 5 -5 0 1 2 0\n", Bad(1, 0, Why::Tautology)),
    (FAR_PAIRS, "5 0 1 0\n", Bad(1, 1, Why::TwoFree)),
    (FAR_PAIRS, "5 5 0 1 1 0\n", Bad(1, 2, Why::Satisfied)),
    (
        FAR_PAIRS,
        "5 5 0 1 2 0\n5 d 5 0\n6 0 5 3 4 0\n",
        Bad(3, 1, Why::NoClause),
    ),
    // A variable that the formula hasn't, and neighbours, which aren't one.
    (
        FAR_PAIRS,
        "5 5 2000000000 0 1 2 0\n6 5 0 1 2 0\n7 0 6 3 4 0\n",
        Refuted,
    ),
    (FAR_NEIGHBOURS, "3 0 1 2 0\n", Bad(1, 0, Why::NotFalse)),
    // The first great variable behind some lines.
    (
        ALL_PAIRS,
        "5 2 0 1 2 0\n6 2000000000 2 0 5 0\n7 0 5 3 4 0\n",
        Refuted,
    ),
    (
        ALL_PAIRS,
        "5 2 0 1 2 0\n5 d 5 0\n6 2000000000 2 0 5 0\n",
        Bad(3, 1, Why::NoClause),
    ),
];

#[test]
fn lrat_check(rt: HostRuntime) {
    for (formula, proof, want) in &CHECKS {
        let found = verdict(rt.alloc(), formula, proof);
        expect(&rt, proof, found == Some(verdict_of(want)));
    }
}

/// What the checker says of a formula and a proof text as it reads that, where the formula can be read.
fn verdict_of_text(alloc: Global, formula: &[u8], proof: &str) -> Option<Result<Verdict, LratErr>> {
    let cnf = dimacs_text::read(alloc, formula).ok()?;
    Some(check_text(alloc, &cnf, proof.as_bytes()))
}

#[test]
fn lrat_check_as_it_is_read(rt: HostRuntime) {
    for (formula, proof, want) in &CHECKS {
        let found = verdict_of_text(rt.alloc(), formula, proof);
        expect(&rt, proof, found == Some(Ok(verdict_of(want))));
    }
}

/// A formula, a text with a fault of form, and that fault.
type FaultRow = (&'static [u8], &'static str, LratErr);

static FAULTS: [FaultRow; 9] = [
    // Behind a line that is no step, at once and further on.
    (ALL_PAIRS, "5 2 0 9 0\n6 x 0\n", LratErr::BadNumber(2)),
    (ALL_PAIRS, "5 2 0 9 0\n6 0 -5 0\n", LratErr::Rat(2)),
    (
        ALL_PAIRS,
        "5 2 0 9 0\n\n6 2 0 1 2 0\n7 2 0 1\n",
        LratErr::Truncated(4),
    ),
    (
        ALL_PAIRS,
        "5 2 0 1 2 0\n6 0 9 0\n6 0 5 3 4 0\n",
        LratErr::Order(3),
    ),
    // Behind lines that refute the formula, and before a line that is no step.
    (WITH_EMPTY, "3 0 2 0\n3 1 0 1 0\n", LratErr::Order(2)),
    (ALL_PAIRS, "4 2 0 1 2 0\n5 0 9 0\n", LratErr::Order(1)),
    // The first of two.
    (ALL_PAIRS, "4 2 0 1 2 0\n5 x\n", LratErr::Order(1)),
    // Where variables are few and great.
    (FAR_PAIRS, "5 5 0 9 0\n6 0\n", LratErr::Truncated(2)),
    (
        ALL_PAIRS,
        "5 2 2147483647 0 9 0\n6 0\n",
        LratErr::Truncated(2),
    ),
];

#[test]
fn faults_of_form_come_first(rt: HostRuntime) {
    for (formula, proof, want) in &FAULTS {
        let found = verdict_of_text(rt.alloc(), formula, proof);
        expect(&rt, proof, found == Some(Err(*want)));
    }
}

/// The clause of the literals from 1 to 1000000.
fn wide(alloc: Global) -> Result<Listed<Dim>, AllocError> {
    let mut dims = Vec::new(alloc);
    for number in 1..=1_000_000u32 {
        dims.push(Dim::new(number, false))?;
    }
    Ok(Listed::of(dims))
}

/// A formula of that clause alone.
fn wide_formula(alloc: Global) -> Result<Cnf, AllocError> {
    Ok(Cnf {
        variables: 1_000_000,
        clauses: Listed::of(vec![in alloc; wide(alloc)?]?),
    })
}

/// A line that adds it again.
fn wide_line(alloc: Global) -> Result<Line, AllocError> {
    let step = LratStep::Add {
        id: 9,
        clause: wide(alloc)?,
        hints: Listed::of(Vec::from_slice(alloc, &[1])?),
    };
    Ok(Line { at: 1, step })
}

/// What the checker says of the line, for this formula.
fn verdict_of_wide_line(alloc: Global, formula: &Cnf) -> Result<Verdict, AllocError> {
    let line = wide_line(alloc)?;
    check(alloc, formula, slice::from_ref(&line))
}

fn wide_verdict(alloc: Global) -> Result<Verdict, AllocError> {
    verdict_of_wide_line(alloc, &wide_formula(alloc)?)
}

// Each of them is looked up at once: the clause that is added is the formula's own.
#[test]
fn a_clause_of_a_million_literals(rt: HostRuntime) {
    let is_so = wide_verdict(rt.alloc()) == Ok(Verdict::NoEmpty);
    expect(&rt, "no line adds the empty clause", is_so);
}
