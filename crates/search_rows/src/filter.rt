//! Patterns that tell pairs of a round apart.
use crate::written::{expect, expect_input, net_of};
use lemma_book::{Book, Task};
use lits::{Lit, Node, Side};
use netlist::Net;
use pattern_filter::PatternFilter;
use std::alloc::Global;
use std::process::Abort;

/// Whether that gate of B is equal to a3.
fn of_a3(var: u32) -> Task {
    let lit = Lit {
        node: Node::Gate(Side::A, 3),
        neg: false,
    };
    let node = Node::Gate(Side::B, var);
    Task { node, lit }
}

/// The AND of two inputs, and three gates: the first and the second are i0 without i1, and the third is the AND.
fn three_gates(rt: &impl Abort, alloc: Global) -> Net {
    let a = "aag 3 2 0 1 1;2;4;6;6 2 4;";
    net_of(rt, alloc, a, "aag 5 2 0 1 3;2;4;10;6 5 2;8 2 5;10 4 2;")
}

fn sift(
    rt: &impl Abort,
    alloc: Global,
    net: &Net,
    filter: &mut PatternFilter,
    tasks: &[Task],
) -> Vec<bool> {
    let book = Book::new(alloc, 9, 9);
    filter.sift(alloc, net, &book, tasks).expect(rt, "memory")
}

/// Whether the first input is true.
fn at_first(input: &[bool]) -> bool {
    match input {
        [first, ..] => *first,
        [] => false,
    }
}

/// The AND and i0 without i1 differ exactly where i0 is true. So does the second pair, and one pattern is settled
/// once in a round; the third pair is equal, and waits while patterns tell pairs apart.
fn check_three(rt: &impl Abort, alloc: Global, net: &Net) {
    let mut filter = PatternFilter::new(alloc, 1, 1);
    let tasks = [of_a3(3), of_a3(4), of_a3(5)];
    let due = sift(rt, alloc, net, &mut filter, &tasks);
    expect(
        rt,
        "the first",
        due.as_slice() == [true, false, false].as_slice(),
    );
    for (task, is_told) in tasks.iter().zip([true, true, false]) {
        let input = filter.telling(alloc, net, task).expect(rt, "memory");
        expect(rt, "told", input.is_some() == is_told);
        if let Some(input) = input {
            expect(rt, "i0", at_first(input.as_slice()));
        }
    }
    let due = sift(rt, alloc, net, &mut filter, &tasks[2..]);
    expect(rt, "the third", due.as_slice() == [true].as_slice());
}

#[test]
fn a_pattern_tells_a_pair_apart(rt: HostRuntime) {
    let alloc = rt.alloc();
    check_three(&rt, alloc, &three_gates(&rt, alloc));
}

/// The one input on which the AND below is true: of 16 million, where some 7,000 are drawn.
const RARE: &str = "110100110001011101000110";

/// The AND of 24 inputs, each negated or not as that asks for. A script wrote it, and saw its value there.
const AND_OF_24: &str = "\
aag 47 24 0 1 23;2;4;6;8;10;12;14;16;18;20;22;24;26;28;30;32;34;36;38;40;42;44;46;48;94;50 2 4;\
52 50 7;54 52 8;56 54 11;58 56 13;60 58 14;62 60 16;64 62 19;66 64 21;68 66 23;70 68 24;72 70 27;\
74 72 28;76 74 30;78 76 32;80 78 35;82 80 36;84 82 39;86 84 41;88 86 43;90 88 44;92 90 46;94 92 49;";

/// The constant false over as many inputs.
const FALSE_OF_24: &str = "\
aag 24 24 0 1 0;2;4;6;8;10;12;14;16;18;20;22;24;26;28;30;32;34;36;38;40;42;44;46;48;0;";

/// The input of the digits.
fn input_of(rt: &impl Abort, alloc: Global, digits: &str) -> Vec<bool> {
    let mut input = Vec::new(alloc);
    for digit in digits.as_bytes() {
        input.push(*digit == b'1').expect(rt, "memory");
    }
    input
}

/// Whether a counterexample of this round tells the AND and the constant apart: the second one does, and its input
/// is the only one that does.
fn check_rare(rt: &impl Abort, alloc: Global, net: &Net) {
    let lit = Lit {
        node: Node::Const,
        neg: true,
    };
    let node = Node::Gate(Side::A, 47);
    let task = Task { node, lit };
    let mut filter = PatternFilter::new(alloc, 1, 1);
    let due = sift(rt, alloc, net, &mut filter, &[task]);
    expect(rt, "not told", due.as_slice() == [true].as_slice());
    for (digits, is_told) in [("110100110001011101000111", false), (RARE, true)] {
        let input = input_of(rt, alloc, digits);
        filter.note(input.as_slice()).expect(rt, "memory");
        let found = filter.telling(alloc, net, &task).expect(rt, "memory");
        expect(rt, digits, found.is_some() == is_told);
        if let Some(found) = found {
            expect_input(rt, found.as_slice(), RARE);
        }
    }
}

#[test]
fn a_counterexample_of_the_round_tells_a_pair_apart(rt: HostRuntime) {
    let alloc = rt.alloc();
    check_rare(&rt, alloc, &net_of(&rt, alloc, AND_OF_24, FALSE_OF_24));
}
