//! Cones that one `Cones` makes one after another, beside the lists that the book makes.
ghost use Rattle.std.specs.Prelude.{◌∷◌, []};
ghost use Rattle.std.specs.Bool.{OnTrue};
ghost use Rattle.lemma_book.specs.Book.{IsLegal};
ghost use Rattle.lemma_book.specs.Cone.{AreThere};

use flat_cones::Cones;
use lemma_book::{Book, Entry};
use lits::{Clause, Hints, Listed, Lit, Named, Node, Ref, Side, Step};
use netlist::Net;
use std::alloc::Global;
use std::process::Abort;
use std::test::*;

const A: Node = Node::Gate(Side::A, 3);

const B: Node = Node::Gate(Side::B, 3);

const TARGET: Lit = Lit {
    node: A,
    neg: false,
};

const NOT_TARGET: Lit = Lit { node: A, neg: true };

const MERGED: Lit = Lit {
    node: B,
    neg: false,
};

const NOT_MERGED: Lit = Lit { node: B, neg: true };

/// Two ANDs of two inputs, whose fanins stand in the other order.
fn swapped_ands(rt: &impl Abort, alloc: Global) -> Net {
    let (a, b) = worked_circuits::swapped_ands(alloc).expect(rt, "memory");
    match Net::of(alloc, a, b) {
        Ok(net) => net,
        Err(_unlike) => panic!(rt; "unlike circuits"),
    }
}

fn step(rt: &impl Abort, alloc: Global, lits: &[Lit], hints: &[Ref]) -> Step {
    let clause = Clause::of(alloc, lits).ok().expect(rt, "a clause");
    let hints = Hints::of(Vec::from_slice(alloc, hints).expect(rt, "memory"));
    Step { clause, hints }
}

/// The entry that merges B's gate to A's.
fn merge(rt: &impl Abort, alloc: Global) -> Entry {
    let mut steps = Vec::new(alloc);
    let below = [Ref::Axiom(B, 0), Ref::Axiom(B, 1), Ref::Axiom(A, 2)];
    let above = [Ref::Axiom(A, 0), Ref::Axiom(A, 1), Ref::Axiom(B, 2)];
    let first = step(rt, alloc, &[NOT_MERGED, TARGET], &below);
    let second = step(rt, alloc, &[MERGED, NOT_TARGET], &above);
    steps.push(first).ok().expect(rt, "memory");
    steps.push(second).ok().expect(rt, "memory");
    Entry::Merge {
        node: B,
        lit: TARGET,
        steps: Listed::of(steps),
    }
}

fn are_same(found: &[Named], expected: &[Named]) -> bool {
    if found.len() != expected.len() {
        return false;
    }
    for i in 0..expected.len() {
        if found[i].by != expected[i].by || found[i].clause.lits() != expected[i].clause.lits() {
            return false;
        }
    }
    true
}

/// Whether the miter has a variable for the literal's node.
fn is_there(net: &Net, lit: Lit) -> bool
    ensures { OnTrue result (AreThere net.now (lit ∷ [])) }
{
    net.cnf_number(lit).is_some()
}

/// Whether the cone of B's gate is the book's, clause for clause, with this number of them.
fn is_cone(
    rt: &impl Abort,
    alloc: Global,
    net: &Net,
    book: &Book,
    cones: &mut Cones,
    count: usize,
) -> bool
    requires { IsLegal net.now book.now }
{
    assert!(rt; is_there(net, MERGED));
    cones.cone(net, book, &[MERGED]).expect(rt, "memory");
    let found = cones.base().listed(alloc).expect(rt, "memory");
    let cone = book
        .cone(alloc, net, book.len(), &[MERGED])
        .expect(rt, "memory");
    found.len() == count && are_same(found.as_slice(), cone.as_slice())
}

/// Whether output 0's cone is the book's, clause for clause.
fn is_output_cone(rt: &impl Abort, alloc: Global, net: &Net, book: &Book, cones: &mut Cones) -> bool
    requires { IsLegal net.now book.now }
{
    assert!(rt; net.outputs() > 0);
    cones.output_cone(net, book, 0).expect(rt, "memory");
    let found = cones.base().listed(alloc).expect(rt, "memory");
    let cone = book
        .output_cone(alloc, net, book.len(), 0)
        .expect(rt, "memory");
    are_same(found.as_slice(), cone.as_slice())
}

/// B's gate has its own three clauses in the first cone. After its merge it has two, and those of A's gate stand
/// before them.
#[test]
fn cones_while_a_book_grows(rt: HostRuntime) {
    let alloc = rt.alloc();
    let net = swapped_ands(&rt, alloc);
    let mut book = Book::new(alloc, 1, 1);
    let mut cones = Cones::new(alloc);
    assert!(&rt; is_cone(&rt, alloc, &net, &book, &mut cones, 3));
    assert!(&rt; book.offer(alloc, &net, merge(&rt, alloc)).is_ok());
    assert!(&rt; is_cone(&rt, alloc, &net, &book, &mut cones, 5));
    assert!(&rt; is_output_cone(&rt, alloc, &net, &book, &mut cones));
    assert!(&rt; is_cone(&rt, alloc, &net, &book, &mut cones, 5));
}
