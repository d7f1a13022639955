//! Equalities that searches exchange, and the steps of them that a proof takes.
use crate::written::{expect, expect_steps, worked};
use lits::{Clause, Hints, Lit, Node, Ref, Side, Step};
use netlist::Net;
use shared_equalities::{Equalities, Equality, Finder};
use std::alloc::Global;
use std::process::Abort;
use worked_circuits::two_xors;

/// The steps of an equality, of which none is looked at: an axiom's clause, and then one by what stands at that
/// place.
fn two_steps(rt: &impl Abort, alloc: Global, gate: u32, place: u64) -> Vec<Step> {
    let node = Node::Gate(Side::A, gate);
    let mut steps = Vec::new(alloc);
    push(rt, alloc, &mut steps, node, &[Ref::Axiom(node, 0)]);
    push(
        rt,
        alloc,
        &mut steps,
        node,
        &[Ref::Own(place), Ref::Axiom(node, 1)],
    );
    steps
}

/// Puts a step last that says a node by these names.
fn push(rt: &impl Abort, alloc: Global, steps: &mut Vec<Step>, node: Node, hints: &[Ref]) {
    let lit = Lit { node, neg: false };
    let clause = Clause::of(alloc, &[lit]).ok().expect(rt, "a clause");
    let hints = Hints::of(Vec::from_slice(alloc, hints).expect(rt, "memory"));
    steps.push(Step { clause, hints }).ok().expect(rt, "memory");
}

/// Finds that the node at a position is equal to a code, by two steps at the end.
fn find(rt: &impl Abort, alloc: Global, own: &mut Equalities, position: u32, target: u32) {
    let (there, back) = (own.len(), own.len().saturating_add(1));
    let equality = Equality {
        target,
        there,
        back,
    };
    let steps = two_steps(rt, alloc, target / 2, u64::from(there));
    own.push(Finder::Lazy, position, equality, steps)
        .expect(rt, "memory");
}

/// Whether a node is equal to a code by the two steps from a place on.
fn has(own: &Equalities, position: u32, target: u32, place: u32) -> bool {
    match own.target(Finder::Lazy, position) {
        Some(found) => (found.target, found.there) == (target, place)
            && found.back == place.saturating_add(1),
        None => false,
    }
}

fn exchange(rt: &impl Abort, alloc: Global, own: &mut Equalities, all: &mut Equalities) {
    own.exchange(alloc, all).expect(rt, "memory");
}

/// The first hands out what it found of 6, steps 0 and 1; the second what it found of 7, which go after these as 2
/// and 3. Both then find 8, and the first hands it out earlier: its steps 4 and 5 count, though those of the
/// second, 6 and 7, are kept.
fn exchange_all(rt: &impl Abort, alloc: Global, all: &mut Equalities) -> Equalities {
    let mut first = Equalities::new(alloc);
    let mut second = Equalities::new(alloc);
    find(rt, alloc, &mut first, 6, 6);
    find(rt, alloc, &mut second, 7, 8);
    second.note_tried(5, 40).expect(rt, "memory");
    exchange(rt, alloc, &mut first, all);
    exchange(rt, alloc, &mut second, all);
    expect(rt, "moved", has(&second, 7, 8, 2) && has(&second, 6, 6, 0));
    exchange(rt, alloc, &mut first, all);
    expect(rt, "tried", first.tried(5) == 40 && first.tried(6) == 0);
    find(rt, alloc, &mut first, 8, 10);
    find(rt, alloc, &mut second, 8, 10);
    exchange(rt, alloc, &mut first, all);
    exchange(rt, alloc, &mut second, all);
    second
}

#[test]
fn an_equality_is_handed_over(rt: HostRuntime) {
    let alloc = rt.alloc();
    let mut all = Equalities::new(alloc);
    let second = exchange_all(&rt, alloc, &mut all);
    for own in [&all, &second] {
        expect(&rt, "the first's", has(own, 6, 6, 0) && has(own, 8, 10, 4));
        expect(&rt, "the second's", has(own, 7, 8, 2) && own.len() == 8);
        expect(&rt, "no other", own.target(Finder::Whole, 6).is_none());
    }
}

/// The proof's steps are 8 and 9, of which the first names 3, and that names 2. So it takes these two as its own
/// first steps, and its own ones come to be 2 and 3.
fn check_proof(rt: &impl Abort, alloc: Global, net: &Net) {
    let all = &mut Equalities::new(alloc);
    let second = exchange_all(rt, alloc, all);
    let mut steps = Vec::new(alloc);
    push(
        rt,
        alloc,
        &mut steps,
        Node::Gate(Side::B, 3),
        &[Ref::Own(3)],
    );
    push(
        rt,
        alloc,
        &mut steps,
        Node::Gate(Side::B, 4),
        &[Ref::Own(8), Ref::Own(2)],
    );
    let proof = second.proof(alloc, steps.as_slice()).expect(rt, "memory");
    let line = "a4 by a4.0; a4 by s0 a4.1; b3 by s1; b4 by s2 s0";
    expect_steps(rt, alloc, net, proof.as_slice(), line);
}

#[test]
fn a_proof_takes_the_steps_that_it_names(rt: HostRuntime) {
    let alloc = rt.alloc();
    check_proof(&rt, alloc, &worked(&rt, alloc, two_xors(alloc)));
}
