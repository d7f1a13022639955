//! Circuits that a book reduces, and the books that show these equal to what they were made from.
ghost use Rattle.std.specs.Prelude.{◌≡◌, ◌<◌, [], length, slice_get, IfSome};
ghost use Rattle.std.specs.Bool.{OnTrue};
ghost use Rattle.lemma_book.specs.Book.{IsLegal};
ghost use Rattle.fraig_write.specs.Mirror.{AreOfA, IsOfA};

use crate::files::file_of;
use crate::prints::written;
use crate::tables::expect;
use book_file::{load, read};
use fraig_write::{mirror, reduce};
use lemma_book::{Book, Entry};
use lits::{Node, Side};
use netlist::{And, Circuit, Net};
use std::alloc::{AllocError, Global};
use std::process::Abort;
use std::test::*;
use worked_circuits::{and, circuit, constrained_circuit, two_input_circuit};

/// The net of a circuit and of one without gates, which a test makes in the call.
fn net_of(
    rt: &impl Abort,
    alloc: Global,
    a: Result<Circuit, AllocError>,
    b: Result<Circuit, AllocError>,
) -> Net
    ensures { result.b.gates ≡ [] }
{
    let (a, b) = (a.expect(rt, "memory"), b.expect(rt, "memory"));
    let net = Net::of(alloc, a, b).expect(rt, "a net");
    assert!(rt; has_no_gates(&net));
    net
}

fn has_no_gates(net: &Net) -> bool
    ensures { OnTrue result (net.now.b.gates ≡ []) }
{
    net.circuit(Side::B).gates().is_empty()
}

/// What is made of circuit A.
#[derive(Clone, Copy)]
struct Row<'a> {
    /// The entries of a book about A, as a file.
    lemmas: &'a str,
    /// The reduced circuit.
    gates: &'a [And],
    outputs: &'a [u32],
    constraints: &'a [u32],
    /// How the file of the book begins that shows both equal, up to the first output.
    mirror: &'a str,
    /// How many entries that book has.
    entries: u64,
}

/// The book of the entries of a file, all of which the net takes.
fn book_of(rt: &impl Abort, alloc: Global, net: &Net, lemmas: &str) -> Book
    ensures { IsLegal net.now result }
{
    let file = file_of(alloc, lemmas).expect(rt, "memory");
    let entries = read(alloc, file.as_slice()).expect(rt, "a lemma file");
    let all = entries.len() as u64;
    let (book, taken) = load(alloc, net, entries, 100, 100).expect(rt, "memory");
    expect(rt, "each entry is taken", taken == all);
    book
}

/// Whether the circuit has two inputs, numbered from 1, and these gates, outputs and constraints.
fn is_reduced(circuit: &Circuit, row: &Row) -> bool {
    circuit.inputs() == [1, 2].as_slice()
        && circuit.gates() == row.gates
        && circuit.outputs() == row.outputs
        && circuit.constraints() == row.constraints
}

/// Whether each entry merges a gate of A.
fn are_of_a(book: &Book) -> bool
    ensures { OnTrue result (AreOfA book.now.entries) }
{
    for place in 0..book.len() {
        if !is_of_a(book, place) {
            return false;
        }
    }
    true
}

/// Whether the entry at a place merges a gate of A.
fn is_of_a(book: &Book, place: u64) -> bool
    requires { place < length book.now.entries }
    ensures { OnTrue result (IfSome (slice_get book.now.entries place) IsOfA) }
{
    match book.entry(place) {
        Some(Entry::Merge { node, .. }) => matches!(node, Node::Gate(Side::A, _)),
        _ => false,
    }
}

/// The net of the circuit and its reduced one.
fn beside(rt: &impl Abort, alloc: Global, a: &Circuit, reduced: &Circuit) -> Net
    ensures { result ≡ record { a = a.now; b = reduced.now } }
{
    let a = a.copy(alloc).expect(rt, "memory");
    let reduced = reduced.copy(alloc).expect(rt, "memory");
    Net::of(alloc, a, reduced).expect(rt, "a net")
}

/// Compares the reduced circuit of A, beside which stands a circuit without gates, and the book that shows both equal.
fn check_row(rt: &impl Abort, alloc: Global, alone: &Net, row: &Row)
    requires { alone.now.b.gates ≡ [] }
{
    let book = book_of(rt, alloc, alone, row.lemmas);
    let circuit = reduce(alloc, alone, &book).expect(rt, "memory");
    expect(rt, "the reduced circuit", is_reduced(&circuit, row));
    assert!(rt; are_of_a(&book));
    let net = beside(rt, alloc, alone.circuit(Side::A), &circuit);
    let mirrored = mirror(alloc, &net, &book).expect(rt, "memory");
    check_mirror(rt, alloc, &net, &mirrored, row);
}

/// Compares what is written of the book.
fn check_mirror(rt: &impl Abort, alloc: Global, net: &Net, book: &Book, row: &Row)
    requires { IsLegal net.now book.now }
{
    let begins = file_of(alloc, row.mirror).expect(rt, "memory");
    let file = written(alloc, net, book).expect(rt, "a file");
    expect(rt, "the file", file.starts_with(begins.as_slice()));
    expect(rt, "the entries", book.len() == row.entries);
}

/// The second AND is the first, by absorption. Its gate is the greater variable's, and so the first fanin.
#[test]
fn two_gates_that_are_one(rt: HostRuntime) {
    let alloc = rt.alloc();
    let a = two_input_circuit(alloc, &[and(3, 2, 4), and(4, 6, 2)], 8);
    let net = net_of(&rt, alloc, a, circuit(alloc, &[1, 2], &[], &[0]));
    let row = Row {
        lemmas: "lemmas 1,m a4 a3,s -a4 a3 ; a4/0,s a4 -a3 ; a3/0 a4/2,.,",
        gates: &[and(3, 4, 2)],
        outputs: &[6],
        constraints: &[],
        mirror: "lemmas 1,m a4 a3,s -a4 a3 ; a4/0,s a4 -a3 ; a3/0 a4/2,.,\
            m b3 a3,s -b3 a3 ; b3/0 a3/2 b3/1,s b3 -a3 ; a3/0 a3/1 b3/2,.,o 0,",
        entries: 3,
    };
    check_row(&rt, alloc, &net, &row);
}

/// The second gate is the complement of the first, and so is the second output.
#[test]
fn a_gate_that_is_a_complement(rt: HostRuntime) {
    let alloc = rt.alloc();
    let gates = [and(3, 2, 5), and(4, 7, 7)];
    let a = circuit(alloc, &[1, 2], &gates, &[6, 8]);
    let net = net_of(&rt, alloc, a, circuit(alloc, &[1, 2], &[], &[0, 0]));
    let row = Row {
        lemmas: "lemmas 1,m a4 -a3,s -a4 -a3 ; a4/0,s a4 a3 ; a4/2,.,",
        gates: &[and(3, 5, 2)],
        outputs: &[6, 7],
        constraints: &[],
        mirror: "lemmas 1,m a4 -a3,s -a4 -a3 ; a4/0,s a4 a3 ; a4/2,.,\
            m b3 a3,s -b3 a3 ; b3/0 a3/2 b3/1,s b3 -a3 ; a3/0 a3/1 b3/2,.,o 0,",
        entries: 4,
    };
    check_row(&rt, alloc, &net, &row);
}

/// Without entries each gate stays, and the greater fanin of each goes first.
#[test]
fn nothing_is_merged(rt: HostRuntime) {
    let alloc = rt.alloc();
    let gates = [and(3, 2, 5), and(4, 3, 4), and(5, 7, 9)];
    let a = two_input_circuit(alloc, &gates, 11);
    let net = net_of(&rt, alloc, a, circuit(alloc, &[1, 2], &[], &[0]));
    let row = Row {
        lemmas: "lemmas 1,",
        gates: &[and(3, 5, 2), and(4, 4, 3), and(5, 9, 7)],
        outputs: &[11],
        constraints: &[],
        mirror: "lemmas 1,m b3 a3,s -b3 a3 ; b3/0 a3/2 b3/1,s b3 -a3 ; a3/0 a3/1 b3/2,.,\
            m b4 a4,s -b4 a4 ; b4/0 a4/2 b4/1,s b4 -a4 ; a4/0 a4/1 b4/2,.,\
            m b5 a5,s -b5 a5 ; b5/0 #1/1 a5/2 #0/1 b5/1,s b5 -a5 ; a5/0 a5/1 #0/0 #1/0 b5/2,.,o 0,",
        entries: 4,
    };
    check_row(&rt, alloc, &net, &row);
}

/// Variables in no order. A gate is an earlier one by absorption; a constraint keeps a gate; no end rests on the last
/// gate; and an output is true.
#[test]
fn other_numbers(rt: HostRuntime) {
    let alloc = rt.alloc();
    let gates = [and(9, 8, 4), and(3, 18, 4), and(6, 7, 9), and(7, 5, 9)];
    let a = constrained_circuit(alloc, &[4, 2], &gates, &[12, 1, 7], &[6]);
    let net = net_of(&rt, alloc, a, circuit(alloc, &[4, 2], &[], &[0, 0, 0]));
    let row = Row {
        lemmas: "lemmas 1,m a3 a9,s -a3 a9 ; a3/0,s a3 -a9 ; a9/1 a3/2,.,",
        gates: &[and(3, 4, 2), and(4, 7, 3)],
        outputs: &[8, 1, 7],
        constraints: &[6],
        mirror: "lemmas 1,m a3 a9,s -a3 a9 ; a3/0,s a3 -a9 ; a9/1 a3/2,.,\
            m b3 a9,s -b3 a9 ; b3/0 a9/2 b3/1,s b3 -a9 ; a9/0 a9/1 b3/2,.,\
            m b4 a6,s -b4 a6 ; b4/0 #1/1 #0/0 a6/2 b4/1,s b4 -a6 ; a6/0 #0/1 a6/1 #1/0 b4/2,.,o 0,",
        entries: 6,
    };
    check_row(&rt, alloc, &net, &row);
}
