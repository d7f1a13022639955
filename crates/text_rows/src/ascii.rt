use crate::checks::{check, is_told};
use crate::circuits::{check_fault, has_constraints, input_name, is_and, is_named, output_name};
use crate::tables::{Table, check_rows};
use aiger_ascii::read;
use byte_scan::AigerErr;
use netlist::Circuit;
use std::alloc::Global;
use std::test::*;

const AND: &[u8] = b"aag 3 2 0 1 1\n2\n4\n6\n6 2 4\n";

#[test]
fn one_gate(rt: HostRuntime) {
    check(&rt, "an AND", is_and(read(rt.alloc(), AND), 2, 4));
    let cut = &AND[..25];
    check(&rt, "no last LF", is_and(read(rt.alloc(), cut), 2, 4));
}

#[test]
fn names_of_any_bytes(rt: HostRuntime) {
    let circuit = read(rt.alloc(), b"aag 1 1 0 1 0\n2\n2\no0 \xff\r\nc");
    check(&rt, "a name and no UTF-8", circuit.is_ok());
}

/// Two constraints, and names: of two for one place the later, of none the empty one, and none in a comment.
const NAMED: &[u8] =
    b"aag 3 2 0 1 1 0 2\n2\n4\n6\n2\n7\n6 2 4\ni0 x\ni1 a\ni1 b c\ni0 \no0 z\nc\ni0 q\n";

#[test]
fn constraints_and_names(rt: HostRuntime) {
    let found = read(rt.alloc(), NAMED);
    check(&rt, "constraints", has_constraints(&found, &[2, 7]));
    check(&rt, "an empty name", is_named(input_name(&found, 0), b""));
    check(&rt, "a later name", is_named(input_name(&found, 1), b"b c"));
    check(&rt, "an output", is_named(output_name(&found, 0), b"z"));
}

#[test]
fn cut_at_each_byte(rt: HostRuntime) {
    for n in 0..26 {
        let want = match n {
            0..=12 => Some(AigerErr::BadHeader),
            13..=24 => Some(AigerErr::Truncated(n)),
            _ => None,
        };
        let bytes = &AND[..n as usize];
        check_fault(&rt, bytes, read(rt.alloc(), bytes).err(), want);
    }
}

/// A text, and its fault, or that it is read.
const TEXTS: &str = concat!(
    "aag 0 0 0 0 0\nc => read;",
    "aag 1 1 0 0 0\n2\nc\nx\ni9 9\n => read;",
    // a comment without a line feed
    "aag 3 2 0 1 1\n2\n4\n6\n6 2 4\ncABC => read;",
    // symbols, also twice, and a comment behind one
    "aag 3 2 0 1 1\n2\n4\n6\n6 2 4\ni0 x\ni1 y\no0 z\n => read;",
    "aag 1 1 0 0 0\n2\ni0 x\ni0 y z\ni00  => read;",
    // constant outputs
    "aag 0 0 0 1 0\n0\n => read;",
    "aag 0 0 0 1 0\n1 => read;",
    // the empty circuit, and the greatest count
    "aag 0 0 0 0 0\n => read;",
    "aag 16777216 0 0 0 0\n => read;",
    // leading zeros, and all nine numbers
    "aag 03 2 0 1 1\n02\n4\n06\n6 2 0004\n => read;",
    "aag 1 1 0 1 0 0 0 0 0\n2\n3\n => read;",
    // a constraint
    "aag 1 1 0 0 0 0 1\n2\n2\n => read;",
    "aag 0 0 0 0 0 0 2\n0\n1 => read;",
    // the header, and numbers of lines
    "aig 3 2 0 1 1\n6\n\x02\x02 => bad header;",
    "aag 1 0 1 0 0\n2 3\n => 1 latches;",
    "aag 0 0 0 0 0 1\n0\n => section B is not supported;",
    "aag 0 0 0 0 0 0 0 1\n0\n => section J is not supported;",
    "aag 0 0 0 0 0 0 0 0 1\n0\n => section F is not supported;",
    "aag 16777217 0 0 0 0\n => 16777217 is above 16777216;",
    "aag 1000000000000000000000 0 0 0 0\n => 1000000000000000000 is above 16777216;",
    "aag 16777216 16777216 0 0 0\n => ends too early at byte 28;",
    "aag 1 1 0 0 0\nx\n => bad number at byte 14;",
    "aag 1 1 0 0 0\n\n => bad number at byte 14;",
    "aag 1 1 0 0 0\n2 \n => bad number at byte 15;",
    "aag 1 1 0 0 0\n2\r\n => bad number at byte 15;",
    "aag 1 1 0 0 0\n-2\n => bad number at byte 14;",
    "aag 2 1 0 0 1\n2\n4  2 2\n => bad number at byte 18;",
    "aag 2 1 0 0 1\n2\n4 2\n => bad number at byte 19;",
    "aag 2 1 0 0 1\n2\n4 2 2 2\n => bad number at byte 21;",
    "aag 2 1 0 0 1\n2\n4 2  => ends too early at byte 20;",
    "aag 2 1 0 0 1\n2\n4 2 => ends too early at byte 19;",
    "aag 1 1 0 0 0 0 1\n2\n => ends too early at byte 20;",
    // literals, line by line, from the left
    "aag 1 1 0 0 0\n3\n => bad literal 3;",
    "aag 1 1 0 0 0\n0\n => bad literal 0;",
    "aag 1 1 0 0 0\n4\n => bad literal 4;",
    "aag 1 1 0 1 0\n2\n4\n => bad literal 4;",
    "aag 1 1 0 0 0 0 1\n2\n4\n => bad literal 4;",
    "aag 1 1 0 0 0\n18446744073709551618\n => bad literal 1000000000000000000;",
    "aag 3 2 0 0 0\n2\n2\n => literal 2 is defined twice;",
    "aag 2 1 0 0 1\n2\n2 9 9\n => literal 2 is defined twice;",
    "aag 2 1 0 0 1\n2\n4 6 7\n => bad literal 6;",
    "aag 3 2 0 0 0\n3\nx\n => bad literal 3;",
    // after the last gate
    "aag 3 2 0 1 0\n2\n4\n6\n => literal 6 is undefined;",
    "aag 3 2 0 1 0\n2\n4\n7\nx => literal 7 is undefined;",
    "aag 4 2 0 1 1\n2\n4\n9\n6 8 2\n => literal 9 is undefined;",
    "aag 4 2 0 0 1\n2\n4\n6 8 9\n => literal 8 is undefined;",
    // a constraint behind the outputs, and before the fanins
    "aag 4 1 0 1 1 0 1\n2\n6\n8\n4 2 2\n => literal 6 is undefined;",
    "aag 4 1 0 0 1 0 1\n2\n8\n4 6 2\n => literal 8 is undefined;",
    "aag 4 2 0 1 2\n2\n4\n8\n6 8 2\n8 6 4\n => literal 6 is on or above a cycle;",
    "aag 2 1 0 0 1\n2\n4 5 2\nx => literal 4 is on or above a cycle;",
    // above a cycle, and before it in the file
    "aag 4 1 0 0 3\n2\n4 2 2\n6 8 2\n8 9 2\n => literal 6 is on or above a cycle;",
    // lines behind the gates
    "aag 1 1 0 0 0\n2\ni1 x\n => bad symbol line at byte 16;",
    "aag 1 1 0 0 0\n2\no0 x\n => bad symbol line at byte 16;",
    "aag 1 1 0 1 0\n2\n2\ni0 x\no1 x\n => bad symbol line at byte 23;",
    "aag 1 1 0 0 0\n2\ni0\n => bad symbol line at byte 16;",
    "aag 1 1 0 0 0\n2\ni x\n => bad symbol line at byte 16;",
    "aag 1 1 0 0 0\n2\nl0 x\n => bad symbol line at byte 16;",
    "aag 1 1 0 0 0\n2\ni99999999999999999999 x\n => bad symbol line at byte 16;",
    "aag 1 1 0 0 0\n2\n\n => bad symbol line at byte 16;",
    "aag 1 1 0 0 0\n2\ni0 x\n i0 y\n => bad symbol line at byte 21",
);

/// What comes of such a text.
struct Texts;

impl Table for Texts {
    fn is_met(alloc: Global, file: &str, words: &str) -> bool {
        is_told(alloc, read(alloc, file.as_bytes()).err(), words)
    }
}

#[test]
fn accepted_and_faulty_texts(rt: HostRuntime) {
    check_rows::<Texts>(&rt, rt.alloc(), TEXTS);
}

/// Whether a circuit was read whose gates have these variables, in this order.
fn has_order(found: &Result<Circuit, AigerErr>, order: &[u32]) -> bool {
    let Ok(circuit) = found else {
        return false;
    };
    let gates = circuit.gates();
    if gates.len() != order.len() {
        return false;
    }
    for i in 0..order.len() {
        if gates[i].var != order[i] {
            return false;
        }
    }
    true
}

static ORDERS: [(&str, &[u8], &[u32]); 4] = [
    (
        "later fanin",
        b"aag 4 2 0 1 2\n2\n4\n8\n8 6 4\n6 2 4\n",
        &[3, 4],
    ),
    (
        "file's order serves",
        b"aag 5 1 0 0 4\n2\n4 2 2\n6 4 4\n8 2 2\n10 8 3\n",
        &[2, 3, 4, 5],
    ),
    (
        "by level, then by place",
        b"aag 5 1 0 0 4\n2\n10 8 3\n6 4 4\n8 2 2\n4 0 1\n",
        &[4, 2, 5, 3],
    ),
    (
        "a chain from its end",
        b"aag 4 1 0 0 3\n2\n8 6 6\n6 4 4\n4 2 2\n",
        &[2, 3, 4],
    ),
];

#[test]
fn gates_by_level(rt: HostRuntime) {
    for (name, bytes, order) in &ORDERS {
        check(&rt, name, has_order(&read(rt.alloc(), bytes), order));
    }
}
