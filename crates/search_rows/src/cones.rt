//! The proofs that the search of whole cones proposes for outputs.
use crate::merged::{offer, twins};
use crate::written::{expect, expect_steps, net_of, worked};
use cone_search::ConeSolver;
use lemma_book::{Book, Entry};
use lits::{Node, Ref, Side, Step};
use merged_net::Merges;
use netlist::Net;
use search_parts::{Caps, mark};
use shared_equalities::Equalities;
use std::alloc::Global;
use std::process::Abort;
use worked_circuits::two_xors;
use workload_gen::{Kind, make};

/// What is proposed for an output as a book's merges leave the net, with a thousand conflicts.
fn found_of(
    rt: &impl Abort,
    alloc: Global,
    net: &Net,
    book: &Book,
    solver: &mut ConeSolver,
    output: u32,
) -> Option<Entry> {
    let mut merges = Merges::of(alloc, net).expect(rt, "memory");
    expect(rt, "one book", !merges.catch_up(net, book));
    let equalities = &mut Equalities::new(alloc);
    let caps = Caps {
        conflicts: 1000,
        decisions: 0,
    };
    let found = solver.output(alloc, net, &merges, equalities, output, caps);
    found.expect(rt, "memory")
}

/// Fails the test unless output 0 is shown by these steps, after so many conflicts.
fn check(rt: &impl Abort, alloc: Global, net: &Net, book: &Book, line: &str, conflicts: u64) {
    let mut solver = ConeSolver::new(alloc);
    let found = found_of(rt, alloc, net, book, &mut solver, 0);
    match &found {
        Some(Entry::Out { steps, .. }) => expect_steps(rt, alloc, net, steps.as_slice(), line),
        _ => expect(rt, "equal outputs", false),
    }
    expect(rt, "conflicts", solver.learned() == conflicts);
}

/// Two XORs, of which A's output is not a5 and B's is b5. By hand:
///
/// - Neither a5 nor b5 is assumed. The variable that comes first is a3, which is chosen to be false. So a4 is
///   true, i0 false and i1 true, b3 and b4 false, and b5's last clause is false. All comes from a4: so not a4 or
///   b5.
/// - Then a3 is true, i0 true and i1 false, so b4 and b3 are false, and b5's last clause is false.
/// - Both are assumed, so all four gates are false. Of both inputs, which were met alike, i0 comes first, and gets
///   the value that it had last: true. So a3 has i1 true, and b3's last clause is false: not i0 or a3 or b3.
/// - Then i0 is false, a4 has i1 false, and b4's last clause is false.
const XORS: &str = "-a4 b5 by a4.0 a4.1 b3.0 b4.1 b5.2; \
a5 b5 by s0 a5.2 a3.0 a3.1 b4.0 b3.1 b5.2; \
-i0 a3 b3 by a3.2 b3.2; \
-a5 -b5 by a5.0 a5.1 b5.0 b5.1 s2 a4.2 b4.2; \
-a5 -d0 by d0.0 s3; -d0 by s4 s1 d0.1";

#[test]
fn a_whole_cone_is_searched(rt: HostRuntime) {
    let alloc = rt.alloc();
    let net = worked(&rt, alloc, two_xors(alloc));
    check(&rt, alloc, &net, &Book::new(alloc, 9, 9), XORS, 2);
}

/// Gate 11 says that i0 is true, since a9 and a10 together say that it isn't, for both values of i1. Of i0 and i2,
/// a4 is the AND.
const HIDDEN_INPUT: &str =
    "aag 11 3 0 1 8;2;4;6;22;8 2 6;10 9 4;12 3 4;14 9 5;16 3 5;18 10 12;20 14 16;22 19 21;";

/// Gate 11 and not i0 are assumed, so a9 and a10 are false, and a4. The variable that comes first is a5, which is
/// chosen to be false: so i1 is false, a8 and a7 are true, and a10's last clause is false. All comes from not i1:
/// so i1, or what was false before, a10 and a4 and i0. Of these a4 is left out: it is false as soon as i0 is, by
/// its first clause, which is a hint.
const MINIMISED: &str = "i0 i1 a10 by a4.0 a8.2 a7.2 a10.2; \
i0 -a11 by a11.0 a11.1 a4.0 s0 a6.2 a5.2 a9.2; \
-i0 a11 by a8.0 a6.0 a10.1 a9.1 a11.2; \
a11 -d0 by d0.0 s2; -d0 by s3 s1 d0.1";

#[test]
fn a_learned_clause_is_minimised(rt: HostRuntime) {
    let alloc = rt.alloc();
    let net = net_of(&rt, alloc, HIDDEN_INPUT, "aag 3 3 0 1 0;2;4;6;2;");
    check(&rt, alloc, &net, &Book::new(alloc, 9, 9), MINIMISED, 1);
}

/// The second gate of both circuits is over the first and i2. Where b3 is merged to a3, nothing is looked at under
/// it: what stands for its clauses are those of the entry.
const UNDER_A_MERGE: &str = "-a5 b5 by a5.0 a5.1 b5.2 e0.1; \
a5 -b5 by b5.0 b5.1 e0.0 a5.2; \
a5 -d0 by d0.0 s1; -d0 by s2 s0 d0.1";

#[test]
fn a_cone_ends_at_a_merge(rt: HostRuntime) {
    let alloc = rt.alloc();
    let a = "aag 5 3 0 1 2;2;4;6;10;8 2 4;10 8 6;";
    let net = net_of(&rt, alloc, a, "aag 5 3 0 1 2;2;4;6;10;8 4 2;10 8 6;");
    let mut book = Book::new(alloc, 9, 9);
    let (node, target) = (Node::Gate(Side::B, 4), Node::Gate(Side::A, 4));
    offer(&rt, alloc, &net, &mut book, twins(&rt, alloc, node, target));
    check(&rt, alloc, &net, &book, UNDER_A_MERGE, 0);
}

/// Two forms of a sum of numbers of 24 bits.
fn adders(alloc: Global) -> Option<Net> {
    let (a, b) = make(alloc, Kind::Adder, 24).ok()?;
    let a = aiger_file::read(alloc, a.as_slice()).ok()?;
    let b = aiger_file::read(alloc, b.as_slice()).ok()?;
    Net::of(alloc, a, b).ok()
}

/// Marks the steps that a step names.
fn mark_named(named: &mut [bool], step: &Step) {
    for place in 0..step.hints.len() {
        if let Ref::Own(own) = step.hints.at(place) {
            let own = u32::try_from(own).unwrap_or(u32::MAX);
            let _was = mark(named, own, true);
        }
    }
}

/// Whether each step but the last is named by another one.
fn is_trimmed(rt: &impl Abort, alloc: Global, steps: &[Step]) -> bool {
    let mut named = vec![in alloc; false; steps.len()].expect(rt, "memory");
    for step in steps {
        mark_named(&mut named, step);
    }
    let mut unnamed: u32 = 0;
    for is_named in named.as_slice() {
        if !*is_named {
            unnamed = unnamed.saturating_add(1);
        }
    }
    unnamed == 1
}

/// Fails the test unless an output of the adders is shown by steps of which each is needed. Tells whether some
/// clause that was learned isn't: all of them, what both cases end with and the last two would be four steps more
/// than these, at least.
fn check_trimmed(rt: &impl Abort, alloc: Global, net: &Net, output: u32) -> bool {
    let mut solver = ConeSolver::new(alloc);
    let book = Book::new(alloc, 9, 9);
    let found = found_of(rt, alloc, net, &book, &mut solver, output);
    match &found {
        Some(Entry::Out { steps, .. }) => {
            expect(
                rt,
                "each is needed",
                is_trimmed(rt, alloc, steps.as_slice()),
            );
            (steps.len() as u64) < solver.learned().saturating_add(4)
        }
        _ => rt.panic("equal outputs"),
    }
}

/// On 24 bits a high sum takes clauses that its proof doesn't need.
#[test]
fn a_proof_has_only_steps_that_it_needs(rt: HostRuntime) {
    let alloc = rt.alloc();
    let net = adders(alloc).expect(&rt, "a net");
    let mut is_shorter = false;
    for output in 0..net.outputs() {
        is_shorter = check_trimmed(&rt, alloc, &net, output) || is_shorter;
    }
    expect(&rt, "one is shorter", is_shorter);
}
