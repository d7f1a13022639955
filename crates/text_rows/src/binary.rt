use crate::checks::check;
use crate::circuits::{
    check_fault, has_constraints, has_gate, input_name, is_and, is_named, output_name,
};
use aiger_binary::read;
use byte_scan::AigerErr;
use netlist::And;
use std::test::*;

/// Two inputs, and a gate that is their AND.
const AND: &[u8] = b"aig 3 2 0 1 1\n6\n\x02\x02";

/// The gate of a file with a delta of two bytes: 300 is ac 02, variable 151 is the gate, 302 - 300 = 2.
const OF_LONG_DELTA: And = And {
    var: 151,
    left: 2,
    right: 2,
};

#[test]
fn one_gate(rt: HostRuntime) {
    check(&rt, "an AND", is_and(read(rt.alloc(), AND), 4, 2));
    // a delta needn't be shortest: 82 00 is 2
    let bytes = b"aig 3 2 0 1 1\n6\n\x82\x00\x02";
    check(&rt, "a long delta", is_and(read(rt.alloc(), bytes), 4, 2));
    let found = read(rt.alloc(), b"aig 151 150 0 0 1\n\xac\x02\x00");
    check(&rt, "300", has_gate(&found, OF_LONG_DELTA));
}

#[test]
fn constraints_and_names(rt: HostRuntime) {
    let bytes = b"aig 3 2 0 1 1 0 1\n6\n3\n\x02\x02i1 x\ni1 y\no0 z";
    let found = read(rt.alloc(), bytes);
    check(&rt, "a constraint", has_constraints(&found, &[3]));
    check(&rt, "no name", is_named(input_name(&found, 0), b""));
    check(&rt, "a later name", is_named(input_name(&found, 1), b"y"));
    check(&rt, "an output", is_named(output_name(&found, 0), b"z"));
}

#[test]
fn cut_at_each_byte(rt: HostRuntime) {
    for n in 0..19 {
        let want = match n {
            0..=12 => Some(AigerErr::BadHeader),
            13..=17 => Some(AigerErr::Truncated(n)),
            _ => None,
        };
        let bytes = &AND[..n as usize];
        check_fault(&rt, bytes, read(rt.alloc(), bytes).err(), want);
    }
}

/// A file, and its fault unless it is read.
static FILES: [(&[u8], Option<AigerErr>); 25] = [
    // the empty circuit, also with a header without line feed
    (b"aig 0 0 0 0 0\n", None),
    (b"aig 0 0 0 0 0", None),
    // constant outputs, and constant fanins
    (b"aig 0 0 0 2 0\n0\n1", None),
    (b"aig 1 0 0 0 1\n\x01\x01", None),
    // a constraint, which stands behind the outputs
    (b"aig 3 2 0 1 1 0 1\n6\n3\n\x02\x02", None),
    (
        b"aig 3 2 0 1 1 0 1\n6\n8\n\x02\x02",
        Some(AigerErr::BadLiteral(8)),
    ),
    (b"aig 3 2 0 1 1 0 1\n6\n", Some(AigerErr::Truncated(20))),
    // symbols and a comment, and a comment alone
    (b"aig 3 2 0 1 1\n6\n\x02\x02i0 x\no0 y\nc", None),
    (b"aig 3 2 0 1 1\n6\n\x02\x02cABC", None),
    // the second delta may be 0: rhs0 is rhs1
    (b"aig 3 2 0 1 1\n6\n\x02\x00", None),
    // five bytes, all but the last with the top bit set
    (b"aig 3 2 0 1 1\n6\n\x82\x80\x80\x80\x00\x02", None),
    (
        b"aag 3 2 0 1 1\n2\n4\n6\n6 2 4\n",
        Some(AigerErr::BadHeader),
    ),
    // M is exactly the number of inputs and gates
    (b"aig 4 2 0 1 1\n6\n\x02\x02", Some(AigerErr::BadHeader)),
    (b"aig 1 0 1 0 0\n3\n", Some(AigerErr::HasLatches(1))),
    (b"aig 3 2 0 1 1\n8\n\x02\x02", Some(AigerErr::BadLiteral(8))),
    (
        b"aig 3 2 0 1 1\n6 \n\x02\x02",
        Some(AigerErr::BadNumber(15)),
    ),
    (b"aig 3 2 0 1 1\n6\n\x02", Some(AigerErr::Truncated(17))),
    (b"aig 3 2 0 1 1\n6\n\x00\x02", Some(AigerErr::BadDelta(0))),
    // the first delta is judged before the second is read
    (b"aig 3 2 0 1 1\n6\n\x00", Some(AigerErr::BadDelta(0))),
    (b"aig 3 2 0 1 1\n6\n\x07\x00", Some(AigerErr::BadDelta(0))),
    (b"aig 3 2 0 1 1\n6\n\x02\x05", Some(AigerErr::BadDelta(0))),
    // the fifth byte has its top bit set
    (
        b"aig 3 2 0 1 1\n6\n\x82\x80\x80\x80\x80\x00\x02",
        Some(AigerErr::BadDelta(0)),
    ),
    (b"aig 3 2 0 1 1\n6\n\x82\x80", Some(AigerErr::Truncated(18))),
    (
        b"aig 4 2 0 0 2\n\x02\x02\x09\x00",
        Some(AigerErr::BadDelta(1)),
    ),
    (
        b"aig 3 2 0 1 1\n6\n\x02\x02i2 x\n",
        Some(AigerErr::BadSymbol(18)),
    ),
];

#[test]
fn accepted_and_faulty_files(rt: HostRuntime) {
    for (bytes, want) in &FILES {
        check_fault(&rt, bytes, read(rt.alloc(), bytes).err(), *want);
    }
}
