//! A net as a book's merges leave it.
ghost use Rattle.lemma_book.specs.Book.{IsLegal};

use crate::written::{expect, net_of, worked};
use lemma_book::{Book, Entry};
use lits::{Clause, Hints, Listed, Lit, Node, Ref, Side, Step};
use merged_net::{Merges, Roots, Source, first_gate, lit_at, lit_code, root_of};
use netlist::Net;
use std::alloc::Global;
use std::process::Abort;
use worked_circuits::{swapped_ands, two_xors};

const A3: Node = Node::Gate(Side::A, 3);

const A4: Node = Node::Gate(Side::A, 4);

const A5: Node = Node::Gate(Side::A, 5);

const B3: Node = Node::Gate(Side::B, 3);

const B4: Node = Node::Gate(Side::B, 4);

const B5: Node = Node::Gate(Side::B, 5);

fn lit(node: Node, neg: bool) -> Lit {
    Lit { node, neg }
}

fn step(rt: &impl Abort, alloc: Global, lits: &[Lit], hints: &[Ref]) -> Step {
    let clause = Clause::of(alloc, lits).ok().expect(rt, "a clause");
    let hints = Hints::of(Vec::from_slice(alloc, hints).expect(rt, "memory"));
    Step { clause, hints }
}

/// Two steps.
fn steps(rt: &impl Abort, alloc: Global, first: Step, second: Step) -> Listed<Step> {
    let mut steps = Vec::new(alloc);
    steps.push(first).ok().expect(rt, "memory");
    steps.push(second).ok().expect(rt, "memory");
    Listed::of(steps)
}

/// Merges a gate to an earlier one over the same fanins.
pub(crate) fn twins(rt: &impl Abort, alloc: Global, node: Node, target: Node) -> Entry {
    let (own, other) = (lit(node, false), lit(target, false));
    let below = [
        Ref::Axiom(node, 0),
        Ref::Axiom(node, 1),
        Ref::Axiom(target, 2),
    ];
    let above = [
        Ref::Axiom(target, 0),
        Ref::Axiom(target, 1),
        Ref::Axiom(node, 2),
    ];
    let first = step(rt, alloc, &[lit(node, true), other], &below);
    let second = step(rt, alloc, &[own, lit(target, true)], &above);
    let steps = steps(rt, alloc, first, second);
    Entry::Merge {
        node,
        lit: other,
        steps,
    }
}

/// Merges a gate of which both fanins are the negation of an earlier node to that.
fn inverse(rt: &impl Abort, alloc: Global, node: Node, target: Node) -> Entry {
    let (own, other) = (lit(node, false), lit(target, true));
    let first = step(rt, alloc, &[lit(node, true), other], &[Ref::Axiom(node, 0)]);
    let second = step(
        rt,
        alloc,
        &[own, lit(target, false)],
        &[Ref::Axiom(node, 2)],
    );
    let steps = steps(rt, alloc, first, second);
    Entry::Merge {
        node,
        lit: other,
        steps,
    }
}

/// Puts a good entry last.
pub(crate) fn offer(rt: &impl Abort, alloc: Global, net: &Net, book: &mut Book, entry: Entry)
    requires { IsLegal net.now book.old }
    ensures { IsLegal net.now book.new }
{
    expect(rt, "a good entry", book.offer(alloc, net, entry).is_ok());
}

/// Positions are: the constant 0, the inputs 1 and 2, a3 to a5 are 3 to 5, and b3 to b5 are 6 to 8.
#[test]
fn literals_have_codes(rt: HostRuntime) {
    let alloc = rt.alloc();
    let net = worked(&rt, alloc, two_xors(alloc));
    expect(&rt, "the first gate", first_gate(&net) == 3);
    expect(&rt, "not a5", lit_code(&net, lit(A5, true)) == Some(11));
    expect(&rt, "b5", lit_code(&net, lit(B5, false)) == Some(16));
    expect(&rt, "not b4", lit_at(&net, 15) == lit(B4, true));
    expect(
        &rt,
        "no XOR",
        lit_code(&net, lit(Node::Xor(0), false)).is_none(),
    );
    expect(&rt, "outside", lit_at(&net, 18).node == Node::Const);
}

/// What defines the node at a position.
fn source_is(net: &Net, merges: &Merges, position: u32, merged: bool, codes: (u32, u32)) -> bool {
    match merges.source(net, position) {
        Source::Free => false,
        Source::Merged(entry, target) => merged && (entry, target) == codes,
        Source::Gate(left, right) => !merged && (left, right) == codes,
    }
}

/// b3 is the AND of i1 and i0, which have codes 4 and 2, until the first entry merges it to a3, which is at 3. An
/// empty book is another one.
#[test]
fn a_merge_takes_the_place_of_a_gate(rt: HostRuntime) {
    let alloc = rt.alloc();
    let net = worked(&rt, alloc, swapped_ands(alloc));
    let mut book = Book::new(alloc, 9, 9);
    offer(&rt, alloc, &net, &mut book, twins(&rt, alloc, B3, A3));
    let mut merges = Merges::of(alloc, &net).expect(&rt, "memory");
    expect(&rt, "a gate", source_is(&net, &merges, 4, false, (4, 2)));
    expect(&rt, "the same book", !merges.catch_up(&net, &book));
    expect(&rt, "merged", source_is(&net, &merges, 4, true, (0, 6)));
    expect(
        &rt,
        "another book",
        merges.catch_up(&net, &Book::new(alloc, 9, 9)),
    );
    expect(
        &rt,
        "a gate again",
        source_is(&net, &merges, 4, false, (4, 2)),
    );
}

/// A gate lies one deeper than the deeper of its fanins: a4 is over a3 and an input, a5 over a3 and a4.
#[test]
fn gates_lie_above_their_fanins(rt: HostRuntime) {
    let alloc = rt.alloc();
    let a = "aag 5 2 0 1 3;2;4;10;6 2 4;8 6 5;10 7 9;";
    let net = net_of(&rt, alloc, a, a);
    let merges = Merges::of(alloc, &net).expect(&rt, "memory");
    for (position, depth) in [(0, 0), (2, 0), (3, 1), (4, 2), (5, 3), (6, 1), (8, 3)] {
        expect(&rt, "a depth", merges.depth(position) == depth);
    }
}

/// Three merges in a row: b4 is not b3, b3 is a4, and a4 is a3. So a3, at position 3, is the root of all, and that
/// of b4, at 6, is negated. The last merge of the three comes to roots that were read already.
#[test]
fn roots_go_through_rows_of_merges(rt: HostRuntime) {
    let alloc = rt.alloc();
    let a = "aag 4 2 0 1 2;2;4;8;6 2 4;8 4 2;";
    let net = net_of(&rt, alloc, a, "aag 4 2 0 1 2;2;4;9;6 4 2;8 7 7;");
    let mut book = Book::new(alloc, 9, 9);
    let mut roots = Roots::new(alloc);
    offer(&rt, alloc, &net, &mut book, inverse(&rt, alloc, B4, B3));
    offer(&rt, alloc, &net, &mut book, twins(&rt, alloc, B3, A4));
    roots.catch_up(&net, &book).expect(&rt, "memory");
    expect(
        &rt,
        "two merges",
        roots.codes() == [0, 2, 4, 6, 8, 8, 9].as_slice(),
    );
    offer(&rt, alloc, &net, &mut book, twins(&rt, alloc, A4, A3));
    roots.catch_up(&net, &book).expect(&rt, "memory");
    expect(
        &rt,
        "three merges",
        roots.codes() == [0, 2, 4, 6, 6, 6, 7].as_slice(),
    );
    expect(&rt, "not b4 is a3", root_of(roots.codes(), 13) == 6);
    let none = Book::new(alloc, 9, 9);
    roots.catch_up(&net, &none).expect(&rt, "memory");
    expect(
        &rt,
        "another book",
        roots.codes() == [0, 2, 4, 6, 8, 10, 12].as_slice(),
    );
}
