//! What the lazy search learns, and how it goes back.
use crate::written::{expect, expect_input, expect_steps, net_of, worked};
use lazy_search::{Effort, Given, LazySolver};
use lemma_book::{Entry, Task};
use lits::{Lit, Node, Side};
use merged_net::Merges;
use netlist::Net;
use search_parts::Caps;
use shared_equalities::Equalities;
use std::alloc::Global;
use std::process::Abort;
use worked_circuits::two_xors;
use xor_sums::Sums;

/// What is proposed for a pair, with ten conflicts and ten decisions at most and no sums.
fn found_of(
    rt: &impl Abort,
    alloc: Global,
    net: &Net,
    solver: &mut LazySolver,
    task: &Task,
) -> Option<Entry> {
    let merges = Merges::of(alloc, net).expect(rt, "memory");
    let equalities = Equalities::new(alloc);
    let given = Given {
        net,
        merges: &merges,
        equalities: &equalities,
    };
    let caps = Caps {
        conflicts: 10,
        decisions: 10,
    };
    let effort = Effort { caps, steps: 0 };
    let sums = &mut Sums::new(alloc);
    let found = solver.pair(alloc, &given, sums, task, effort);
    found.expect(rt, "memory")
}

/// Whether the query took so many conflicts and decisions.
fn took(solver: &LazySolver, conflicts: u64, decisions: u64) -> bool {
    let left = solver.left();
    left.conflicts.saturating_add(conflicts) == 10 && left.decisions.saturating_add(decisions) == 10
}

/// The merge of b5 to not a5. By hand:
///
/// - b5 and a5 are assumed, so b3, b4, a3 and a4 are false, each of them without a false fanin. The first of these
///   is b3, whose first fanin is i0: it is chosen to be false. Then a4 has i1 false, and b4's last clause is
///   false. Both i1 and the clause come from not i0: so i0 or b4 or a4.
/// - Then i0 is true, a3 has i1 true, and b3's last clause is false.
/// - Not b5 and not a5 are assumed. The first open gate is b5, and its first fanin is not b3: b3 is chosen. It
///   makes i0 and i1 true, these a4 and a3 false, and a5's last clause is false. All comes from b3: so not b3 or
///   a5.
/// - Then b4 is true and both inputs are false, so a3 and a4 are, and a5's last clause is false.
const XORS: &str = "i0 a4 b4 by a4.2 b4.2; \
a5 -b3 by b3.0 b3.1 a4.0 a3.1 a5.2; \
-a5 -b5 by b5.0 b5.1 a5.0 a5.1 s0 a3.2 b3.2; \
a5 b5 by s1 b5.2 b4.0 b4.1 a3.0 a4.1 a5.2";

fn check_xors(rt: &impl Abort, alloc: Global, net: &Net) {
    let lit = Lit {
        node: Node::Gate(Side::A, 5),
        neg: true,
    };
    let node = Node::Gate(Side::B, 5);
    let mut solver = LazySolver::of(alloc, net).expect(rt, "memory");
    let found = found_of(rt, alloc, net, &mut solver, &Task { node, lit });
    match &found {
        Some(Entry::Merge { steps, .. }) => expect_steps(rt, alloc, net, steps.as_slice(), XORS),
        _ => expect(rt, "a merge", false),
    }
    expect(rt, "two of each", took(&solver, 2, 2));
}

#[test]
fn a_conflict_is_learned_from(rt: HostRuntime) {
    let alloc = rt.alloc();
    check_xors(&rt, alloc, &worked(&rt, alloc, two_xors(alloc)));
}

/// Gate 12 says that none of four gates is true: a6 is neither i3 nor i4, a7 is i0 and i1, a8 is i2 without i0,
/// and a9 is neither i0 nor i2.
const NONE_OF_FOUR: &str =
    "aag 12 5 0 1 7;2;4;6;8;10;24;12 9 11;14 2 4;16 3 6;18 3 7;20 13 15;22 17 19;24 20 22;";

/// Whether gate 12 is false. By hand: it is assumed, so all four are false. For a6 i3 is chosen, for a7 not i0.
/// Then a9 has i2 true, and a8's last clause is false: so i0 or a8 or a9, which goes back over both choices. So i0
/// is true and i1 false, and a6 is open again: i3 is chosen once more. That are one conflict and three decisions,
/// and i2 and i4 stay free.
fn check_none_of_four(rt: &impl Abort, alloc: Global, net: &Net) {
    let lit = Lit {
        node: Node::Const,
        neg: true,
    };
    let node = Node::Gate(Side::A, 12);
    let mut solver = LazySolver::of(alloc, net).expect(rt, "memory");
    let found = found_of(rt, alloc, net, &mut solver, &Task { node, lit });
    match &found {
        Some(Entry::Apart { input, .. }) => expect_input(rt, input.as_slice(), "10010"),
        _ => expect(rt, "an input", false),
    }
    expect(rt, "one and three", took(&solver, 1, 3));
}

#[test]
fn a_gate_is_justified_again_after_a_cut(rt: HostRuntime) {
    let alloc = rt.alloc();
    let b = "aag 5 5 0 1 0;2;4;6;8;10;0;";
    check_none_of_four(&rt, alloc, &net_of(&rt, alloc, NONE_OF_FOUR, b));
}
