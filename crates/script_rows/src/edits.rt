use crate::told::{applied, expect, made, parts};
use lits::Side;
use netlist::{Circuit, Net};
use netlist_edits::Edit;
use std::alloc::{AllocError, Global};
use std::process::Abort;
use std::test::*;
use worked_circuits::{and, one_gate, swapped_ands, two_input_circuit};

pub(crate) fn net_of(rt: &impl Abort, alloc: Global, a: Circuit, b: Circuit) -> Net {
    Net::of(alloc, a, b).expect(rt, "a net")
}

/// One AND, and a circuit of three gates: gate 4 reads gate 3, the output gate 4, and nothing gate 5.
fn circuits(alloc: Global) -> Result<(Circuit, Circuit), AllocError> {
    let a = one_gate(alloc, 2, 4)?;
    let gates = [and(3, 4, 2), and(4, 6, 3), and(5, 2, 2)];
    let b = two_input_circuit(alloc, &gates, 8)?;
    Ok((a, b))
}

fn three_gates(rt: &impl Abort, alloc: Global) -> Net {
    let (a, b) = circuits(alloc).expect(rt, "memory");
    net_of(rt, alloc, a, b)
}

fn two_ands(rt: &impl Abort, alloc: Global) -> Net {
    let (a, b) = swapped_ands(alloc).expect(rt, "memory");
    net_of(rt, alloc, a, b)
}

/// Makes the edits of a script one after the other, and compares what comes of each.
fn check_script<A: Abort>(rt: &A, alloc: Global, mut net: Net, rows: &str) {
    for row in rows.split(';') {
        let (line, words) = parts(row);
        let told = made(alloc, &mut net, line).expect(rt, "memory");
        expect(rt, row, told.as_str() == words);
    }
}

/// Each fault alone, and before a later one; between them edits that are made.
const OF_THREE_GATES: &str = concat!(
    "set b 12 2 4 => no gate 12;set b 4 2 4 => no gate 4;set b 0 2 4 => no gate 0;",
    "set b 6 14 2 => no literal 14;set b 6 2 15 => no literal 15;",
    "set b 6 6 2 => literal 6 is not earlier;set b 6 2 9 => literal 9 is not earlier;",
    "set b 12 14 6 => no gate 12;set b 6 8 14 => no literal 14;set b 6 14 15 => no literal 14;",
    "set b 6 10 8 => literal 10 is not earlier;set a 8 2 4 => no gate 8;set a 6 8 4 => no literal 8;",
    "new b 4 2 2 end => literal 4 is taken;new b 0 2 2 end => literal 0 is taken;new b 8 2 2 end => literal 8 is taken;",
    "new b 12 2 2 before 14 => no gate 14;new b 12 2 2 before 4 => no gate 4;new b 12 2 2 before 12 => no gate 12;",
    "new b 12 14 2 end => no literal 14;new b 12 2 12 end => no literal 12;",
    "new b 12 8 2 before 8 => literal 8 is not earlier;new b 12 2 11 before 8 => literal 11 is not earlier;",
    "new b 8 14 2 before 16 => literal 8 is taken;new b 12 14 2 before 16 => no gate 16;",
    "new b 12 8 14 before 6 => no literal 14;",
    "drop b 12 => no gate 12;drop b 2 => no gate 2;drop b 6 => gate 6 is in use;drop b 8 => gate 8 is in use;",
    "out b 1 8 => no output 1;out b 0 12 => no literal 12;out b 1 12 => no output 1;",
    "out b 0 8 => 6 4 2, 8 6 3, 10 2 2, out 8;set b 8 7 7 => 6 4 2, 8 7 7, 10 2 2, out 8;",
    "set b 6 1 5 => 6 1 5, 8 7 7, 10 2 2, out 8;set b 6 4 0 => 6 4 0, 8 7 7, 10 2 2, out 8;",
    "new b 12 10 9 end => 6 4 0, 8 7 7, 10 2 2, 12 10 9, out 8;drop b 10 => gate 10 is in use;",
    "new b 14 6 2 before 8 => 6 4 0, 14 6 2, 8 7 7, 10 2 2, 12 10 9, out 8;set b 8 15 14 => 6 4 0, 14 6 2, 8 15 14, 10 2 2, 12 10 9, out 8;",
    "set b 14 8 2 => literal 8 is not earlier;new b 16 1 0 before 6 => 16 1 0, 6 4 0, 14 6 2, 8 15 14, 10 2 2, 12 10 9, out 8;",
    "drop b 12 => 16 1 0, 6 4 0, 14 6 2, 8 15 14, 10 2 2, out 8;drop b 10 => 16 1 0, 6 4 0, 14 6 2, 8 15 14, out 8;",
    "out b 0 17 => 16 1 0, 6 4 0, 14 6 2, 8 15 14, out 17;drop b 16 => gate 16 is in use;drop b 8 => 16 1 0, 6 4 0, 14 6 2, out 17;",
    "set a 6 4 2 => 6 4 2, out 6;check => no edit; => no edit;set c 6 4 4 => bad line",
);

/// Edits with two faults that follow each other in the order in which they are judged, and some that don't. All are of
/// the three gates, since a refused edit leaves the circuits as they were.
const FAULTS_IN_PAIRS: &str = concat!(
    // No line; no gate; no literal, the first fanin before the second; not earlier, likewise.
    "set b 13 2 4 => bad line;set b 7 14 2 => bad line;set b 12 33554434 2 => bad line;",
    "set b 12 14 2 => no gate 12;set b 12 2 16 => no gate 12;set b 12 10 8 => no gate 12;",
    "set b 6 14 16 => no literal 14;set b 6 16 14 => no literal 16;set b 6 14 8 => no literal 14;set b 6 8 14 => no literal 14;",
    "set b 8 10 9 => literal 10 is not earlier;set b 8 8 10 => literal 8 is not earlier;",
    // No line; taken; no gate to stand before; then the fanins.
    "new b 7 2 4 end => bad line;new b 8 2 4 before 17 => bad line;new b 8 33554434 4 end => bad line;",
    "new b 8 2 4 before 16 => literal 8 is taken;new b 0 14 2 end => literal 0 is taken;new b 2 8 2 before 6 => literal 2 is taken;",
    "new b 12 14 2 before 16 => no gate 16;new b 12 2 14 before 4 => no gate 4;new b 12 10 8 before 16 => no gate 16;",
    "new b 12 14 16 end => no literal 14;new b 12 12 8 before 6 => no literal 12;new b 12 8 13 before 6 => no literal 13;",
    "new b 12 10 8 before 8 => literal 10 is not earlier;new b 12 8 11 before 8 => literal 8 is not earlier;",
    // A gate that isn't there isn't read, and an output that isn't there has no literal.
    "drop b 7 => bad line;drop b 13 => bad line;drop b 12 => no gate 12;",
    "out b 33554434 12 => bad line;out b 1 33554434 => bad line;out b 1 12 => no output 1;out b 1 13 => no output 1",
);

/// The scripts of the worked pairs of two ANDs.
const OF_TWO_ANDS: &str = concat!(
    "set b 6 4 4 => 6 4 4, out 6;set b 6 4 2 => 6 4 2, out 6;drop b 6 => gate 6 is in use;",
    "set b 6 6 2 => literal 6 is not earlier;new b 8 6 2 end => 6 4 2, 8 6 2, out 6;",
    "drop b 8 => 6 4 2, out 6;new b 8 6 2 end => 6 4 2, 8 6 2, out 6;out b 0 8 => 6 4 2, 8 6 2, out 8",
);

#[test]
fn scripts(rt: HostRuntime) {
    check_script(
        &rt,
        rt.alloc(),
        three_gates(&rt, rt.alloc()),
        OF_THREE_GATES,
    );
    check_script(&rt, rt.alloc(), two_ands(&rt, rt.alloc()), OF_TWO_ANDS);
}

#[test]
fn faults_in_pairs(rt: HostRuntime) {
    check_script(
        &rt,
        rt.alloc(),
        three_gates(&rt, rt.alloc()),
        FAULTS_IN_PAIRS,
    );
}

/// Edits that no line spells; each but the first has a later fault too.
static NO_LINES: [Edit; 7] = [
    Edit::Set {
        side: Side::B,
        lhs: 7,
        r0: 2,
        r1: 4,
    },
    Edit::Set {
        side: Side::B,
        lhs: 6,
        r0: 33_554_434,
        r1: 4,
    },
    Edit::New {
        side: Side::B,
        lhs: 9,
        r0: 2,
        r1: 4,
        before: None,
    },
    Edit::New {
        side: Side::B,
        lhs: 8,
        r0: 2,
        r1: 4,
        before: Some(7),
    },
    Edit::Remove {
        side: Side::B,
        lhs: 33_554_434,
    },
    Edit::Out {
        side: Side::B,
        j: 33_554_434,
        lit: 2,
    },
    Edit::Out {
        side: Side::B,
        j: 0,
        lit: 33_554_434,
    },
];

fn check_no_lines<A: Abort>(rt: &A, alloc: Global, mut net: Net) {
    for edit in &NO_LINES {
        let told = applied(alloc, &mut net, edit).expect(rt, "memory");
        expect(rt, "an edit of no line", told.as_str() == "bad line");
    }
}

#[test]
fn edits_of_no_line(rt: HostRuntime) {
    check_no_lines(&rt, rt.alloc(), two_ands(&rt, rt.alloc()));
}
