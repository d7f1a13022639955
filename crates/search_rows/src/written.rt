//! Nets from lines of text, steps as lines of text, and how a test says what isn't so.
//!
//! Nodes are `t`, the constant true, `i0`, an input, `a3` or `b3`, a gate, and `d0`, whether the outputs differ; a
//! literal has a `-` where it is negated. A step is its clause, in the order of the net's positions, the word
//! `by`, and the names of its hints: `a3.2` is an axiom, `e0.1` a clause of an entry, `s0` an own step.

use lits::{Lit, Node, Ref, Side, Step};
use merged_net::{lit_at, lit_code};
use netlist::{Circuit, Net};
use std::alloc::{AllocError, Global};
use std::process::Abort;

/// Fails the test, with these words, unless it is so.
pub(crate) fn expect(rt: &impl Abort, what: &str, is_so: bool) {
    assert!(rt; is_so, "{what}");
}

/// Fails the test unless the texts are the same.
pub(crate) fn expect_text(rt: &impl Abort, what: &str, found: &str, expected: &str) {
    assert!(rt; found == expected, "{what}: {found}");
}

/// The circuit of an ASCII text, in which a `;` stands for the end of a line.
fn circuit(rt: &impl Abort, alloc: Global, text: &str) -> Circuit {
    let mut bytes = Vec::new(alloc);
    for byte in text.as_bytes() {
        let byte = if *byte == b';' { b'\n' } else { *byte };
        bytes.push(byte).expect(rt, "memory");
    }
    match aiger_file::read(alloc, bytes.as_slice()) {
        Ok(circuit) => circuit,
        Err(_fault) => rt.panic(text),
    }
}

/// The net of two such texts.
pub(crate) fn net_of(rt: &impl Abort, alloc: Global, a: &str, b: &str) -> Net {
    let (a, b) = (circuit(rt, alloc, a), circuit(rt, alloc, b));
    Net::of(alloc, a, b).expect(rt, "a net")
}

/// The net of a pair of worked circuits.
pub(crate) fn worked(
    rt: &impl Abort,
    alloc: Global,
    pair: Result<(Circuit, Circuit), AllocError>,
) -> Net {
    let (a, b) = pair.expect(rt, "memory");
    Net::of(alloc, a, b).expect(rt, "a net")
}

/// Puts a text last.
fn put(rt: &impl Abort, text: &mut String, more: &str) {
    text.push_str(more).expect(rt, "memory");
}

/// Puts a letter and a number last.
fn put_number(rt: &impl Abort, alloc: Global, text: &mut String, letter: &str, number: u64) {
    let word = format!(in alloc; "{letter}{number}").expect(rt, "memory");
    put(rt, text, word.as_str());
}

fn put_node(rt: &impl Abort, alloc: Global, text: &mut String, node: Node) {
    match node {
        Node::Const => put(rt, text, "t"),
        Node::Input(k) => put_number(rt, alloc, text, "i", u64::from(k)),
        Node::Gate(Side::A, var) => put_number(rt, alloc, text, "a", u64::from(var)),
        Node::Gate(Side::B, var) => put_number(rt, alloc, text, "b", u64::from(var)),
        Node::Xor(k) => put_number(rt, alloc, text, "d", u64::from(k)),
    }
}

/// Puts a literal and a blank last.
fn put_lit(rt: &impl Abort, alloc: Global, text: &mut String, lit: Lit) {
    put(rt, text, if lit.neg { "-" } else { "" });
    put_node(rt, alloc, text, lit.node);
    put(rt, text, " ");
}

/// Puts a hint last.
fn put_name(rt: &impl Abort, alloc: Global, text: &mut String, name: Ref) {
    match name {
        Ref::Axiom(node, k) => {
            put_node(rt, alloc, text, node);
            put_number(rt, alloc, text, ".", u64::from(k));
        }
        Ref::Entry(place, k) => {
            put_number(rt, alloc, text, "e", place);
            put_number(rt, alloc, text, ".", u64::from(k));
        }
        Ref::Own(place) => put_number(rt, alloc, text, "s", place),
        Ref::Bound(Side::A, k) => put_number(rt, alloc, text, "!a", u64::from(k)),
        Ref::Bound(Side::B, k) => put_number(rt, alloc, text, "!b", u64::from(k)),
    }
}

/// Puts the literals last: those with a position, in their order, and then the others.
fn put_clause(rt: &impl Abort, alloc: Global, net: &Net, text: &mut String, lits: &[Lit]) {
    let mut codes = Vec::new(alloc);
    for lit in lits {
        if let Some(code) = lit_code(net, *lit) {
            codes.push(code).expect(rt, "memory");
        }
    }
    codes.as_mut_slice().sort_unstable();
    for code in codes.as_slice() {
        put_lit(rt, alloc, text, lit_at(net, *code));
    }
    for lit in lits {
        if lit_code(net, *lit).is_none() {
            put_lit(rt, alloc, text, *lit);
        }
    }
}

fn put_step(rt: &impl Abort, alloc: Global, net: &Net, text: &mut String, step: &Step) {
    put_clause(rt, alloc, net, text, step.clause.lits());
    put(rt, text, "by");
    for place in 0..step.hints.len() {
        put(rt, text, " ");
        put_name(rt, alloc, text, step.hints.at(place));
    }
}

/// The steps as a line of text.
pub(crate) fn written(rt: &impl Abort, alloc: Global, net: &Net, steps: &[Step]) -> String {
    let mut text = String::new(alloc);
    let mut is_first = true;
    for step in steps {
        put(rt, &mut text, if is_first { "" } else { "; " });
        put_step(rt, alloc, net, &mut text, step);
        is_first = false;
    }
    text
}

/// Fails the test unless the steps are those of the line.
pub(crate) fn expect_steps(rt: &impl Abort, alloc: Global, net: &Net, steps: &[Step], line: &str) {
    let text = written(rt, alloc, net, steps);
    expect_text(rt, "steps", text.as_str(), line);
}

/// Fails the test unless the input is that of the digits.
pub(crate) fn expect_input(rt: &impl Abort, found: &[bool], digits: &str) {
    expect(rt, digits, found.len() == digits.len());
    for (found, digit) in found.iter().zip(digits.as_bytes()) {
        expect(rt, digits, *found == (*digit == b'1'));
    }
}
