//! The texts of the faults of files, which no clause says.
use crate::checks::{check, is_text};
use byte_scan::AigerErr;
use dimacs_text::CnfErr;
use lrat_text::LratErr;
use std::alloc::Global;
use std::fmt::Display;
use std::process::Abort;
use std::test::*;

/// Compares the texts of faults.
fn check_texts<E: Display>(rt: &impl Abort, alloc: Global, rows: &[(E, &str)]) {
    for (fault, text) in rows {
        check(rt, text, is_text(fault.to_string(alloc), text));
    }
}

static CIRCUITS: [(AigerErr, &str); 13] = [
    (AigerErr::BadHeader, "bad header"),
    (AigerErr::TooLarge(16777217), "16777217 is above 16777216"),
    (AigerErr::HasLatches(1), "1 latches"),
    (AigerErr::HasProperty(b'B'), "section B is not supported"),
    (AigerErr::BadNumber(14), "bad number at byte 14"),
    (AigerErr::BadLiteral(3), "bad literal 3"),
    (AigerErr::DefinedTwice(2), "literal 2 is defined twice"),
    (AigerErr::Undefined(6), "literal 6 is undefined"),
    (AigerErr::Cycle(6), "literal 6 is on or above a cycle"),
    (AigerErr::BadDelta(0), "bad delta at gate 0"),
    (AigerErr::Truncated(17), "ends too early at byte 17"),
    (AigerErr::BadSymbol(16), "bad symbol line at byte 16"),
    (AigerErr::NoMemory, "out of memory"),
];

static FORMULAS: [(CnfErr, &str); 6] = [
    (CnfErr::BadHeader, "bad header"),
    (CnfErr::BadNumber(10), "bad number at byte 10"),
    (CnfErr::Var(7), "variable of 7 is too large"),
    (CnfErr::Count(2, 1), "2 clauses announced, 1 found"),
    (CnfErr::Truncated(11), "ends too early at byte 11"),
    (CnfErr::NoMemory, "out of memory"),
];

static PROOFS: [(LratErr, &str); 5] = [
    (LratErr::BadNumber(1), "line 1: bad number"),
    (LratErr::Truncated(20), "line 20: ends too early"),
    (LratErr::Order(3), "line 3: id out of order"),
    (LratErr::Rat(4), "line 4: negative hint"),
    (LratErr::NoMemory, "out of memory"),
];

#[test]
fn of_faults(rt: HostRuntime) {
    check_texts(&rt, rt.alloc(), &CIRCUITS);
    check_texts(&rt, rt.alloc(), &FORMULAS);
    check_texts(&rt, rt.alloc(), &PROOFS);
}
