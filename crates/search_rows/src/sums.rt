//! Sums of exclusive ORs: in which order gates are added up, and what clauses say the sums between.
use crate::written::expect;
use search_parts::{at, count, mark};
use std::alloc::Global;
use std::process::Abort;
use xor_sums::{Exclusive, Move, Sums};

/// A gate: its variable, and the codes of which it is the exclusive OR. A variable's code is twice its number, and
/// 1 where it is negated.
type Gate = (u32, u32, u32);

/// The gates' sums, where that of these two variables is asked for.
fn sums_of(rt: &impl Abort, alloc: Global, ends: (u32, u32), gates: &[Gate]) -> Sums {
    let mut sums = Sums::new(alloc);
    sums.begin(ends.0, ends.1);
    for (var, left, right) in gates {
        let gate = Exclusive {
            left: *left,
            right: *right,
        };
        sums.add_gate(*var, gate).expect(rt, "memory");
    }
    sums
}

/// Variables 3 and 4 are the sums of 1 and 2.
static TWINS: [Gate; 2] = [(3, 2, 4), (4, 2, 4)];

/// Variable 3 is the sum of 1 and 2, and 4 its complement.
static OPPOSITES: [Gate; 2] = [(3, 2, 4), (4, 3, 4)];

/// A chain over 1 to 4 ends with 7, and a tree with 10.
static CHAIN_AND_TREE: [Gate; 6] = [
    (5, 2, 4),
    (6, 10, 6),
    (7, 12, 8),
    (8, 2, 4),
    (9, 6, 8),
    (10, 16, 18),
];

/// A term that is there twice goes away: of 5, 7, 5 and 9 the last and 7 stay.
#[test]
fn terms_go_in_pairs(rt: HostRuntime) {
    let mut sums = Sums::new(rt.alloc());
    sums.begin(1, 2);
    for position in [5, 7, 5, 9] {
        sums.add_pending(position).expect(&rt, "memory");
    }
    for (position, is_twice) in [(9, false), (7, false), (5, true)] {
        expect(&rt, "the highest", sums.next_pending() == Some(position));
        expect(&rt, "twice", sums.cancels(position) == is_twice);
    }
    expect(&rt, "no more", sums.next_pending().is_none());
}

/// Whether there is an order of so many steps at most.
fn has_plan(rt: &impl Abort, alloc: Global, ends: (u32, u32), gates: &[Gate], most: u64) -> bool {
    let mut sums = sums_of(rt, alloc, ends, gates);
    sums.make_plan(most).expect(rt, "memory")
}

/// Variables 6 and 8 are both the sum of 1, 2 and 3.
static THREE_TERMS: [Gate; 4] = [(5, 2, 4), (6, 10, 6), (7, 4, 6), (8, 2, 14)];

/// Whether there is an order of so many steps, and none of fewer.
fn takes(rt: &impl Abort, alloc: Global, ends: (u32, u32), gates: &[Gate], steps: u64) -> bool {
    has_plan(rt, alloc, ends, gates, steps)
        && !has_plan(rt, alloc, ends, gates, steps.saturating_sub(1))
}

/// Of the first, by hand: 3 and 4 are equal as soon as 1 and 2 are put in for both. That has two clauses, and each is
/// shown by both cases of variable 1: four steps.
///
/// Of the second: the first join, of two gates, has four terms and isn't said. With a third gate it has three, which is
/// less for what these have than any other: its four clauses take two cases each, and with the last gate the two
/// clauses of 6 and 8 take two: twelve steps.
///
/// Of the third a script that goes through all orders printed 16 as the fewest. Three gates over other variables never
/// come to the sum that is asked for.
#[test]
fn a_plan_takes_as_many_steps_as_it_says(rt: HostRuntime) {
    let alloc = rt.alloc();
    expect(&rt, "four", takes(&rt, alloc, (3, 4), &TWINS, 4));
    expect(&rt, "twelve", takes(&rt, alloc, (6, 8), &THREE_TERMS, 12));
    let is_short = has_plan(&rt, alloc, (7, 10), &CHAIN_AND_TREE, 15);
    expect(&rt, "not under the fewest", !is_short);
    let gates = [(5, 2, 4), (6, 2, 6), (7, 2, 8)];
    expect(&rt, "no order", !has_plan(&rt, alloc, (5, 7), &gates, 1000));
}

/// Adds up what a move joins, of sums that are bits of variables. A sum is joined once.
fn follow(rt: &impl Abort, bits: &mut Vec<u32>, joined: &mut [bool], order: Move) {
    match order {
        Move::Join(one, two) => {
            let (first, second) = (mark(joined, one, true), mark(joined, two, true));
            expect(rt, "live", one != two && !first && !second);
            let sum = at(bits, one) ^ at(bits, two);
            bits.push(sum).expect(rt, "memory");
        }
        Move::Say(sum) => expect(rt, "a sum", sum < count(bits.len())),
    }
}

/// The bit of a variable.
fn bit(var: u32) -> u32 {
    1_u32.wrapping_shl(var)
}

/// The sums of the chain and the tree, as bits of variables: whether all moves of a plan come to that of 7 and 10, by
/// one join less than there are gates.
fn comes_to_ends(rt: &impl Abort, alloc: Global, sums: &Sums) -> bool {
    let mut bits = Vec::new(alloc);
    for (var, left, right) in CHAIN_AND_TREE {
        let sum = bit(var) | bit(left / 2) | bit(right / 2);
        bits.push(sum).expect(rt, "memory");
    }
    let mut joined = [false; 11];
    for place in 0..sums.moves() {
        let order = sums.order(place).expect(rt, "a move");
        follow(rt, &mut bits, &mut joined, order);
    }
    bits.len() == 11 && at(&bits, 10) == bit(7) | bit(10)
}

#[test]
fn a_plan_adds_all_gates_up(rt: HostRuntime) {
    let alloc = rt.alloc();
    let mut sums = sums_of(&rt, alloc, (7, 10), &CHAIN_AND_TREE);
    expect(&rt, "a plan", sums.make_plan(1000).expect(&rt, "memory"));
    expect(&rt, "to its ends", comes_to_ends(&rt, alloc, &sums));
}

/// Whether the join of two sums is said by these clauses, one for each assignment of its terms that it forbids. An
/// empty list is none.
fn says(rt: &impl Abort, sums: &mut Sums, clauses: &[[u32; 2]; 4]) {
    sums.unite(0, 1).expect(rt, "memory");
    expect(rt, "four", sums.begin_saying(2).expect(rt, "memory") == 4);
    expect(rt, "what goes", sums.inner() == [1, 2].as_slice());
    for (values, clause) in (0..4_u32).zip(clauses) {
        let is_said = sums.begin_goal(2, values).expect(rt, "memory");
        expect(rt, "forbidden", is_said == (*clause != [0, 0]));
        expect(
            rt,
            "the clause",
            !is_said || sums.goal() == clause.as_slice(),
        );
    }
}

/// Variables 3 and 4 are equal: not 3 alone, as 7 8 says, nor 4 alone. Else they are opposite: not neither, nor
/// both.
#[test]
fn a_join_forbids_half_of_the_values(rt: HostRuntime) {
    let alloc = rt.alloc();
    let equal = [[0, 0], [7, 8], [6, 9], [0, 0]];
    says(&rt, &mut sums_of(&rt, alloc, (3, 4), &TWINS), &equal);
    let opposite = [[6, 8], [0, 0], [0, 0], [7, 9]];
    says(&rt, &mut sums_of(&rt, alloc, (3, 4), &OPPOSITES), &opposite);
}

/// Whether these cases of a goal are shown: a code and a clause each.
fn has_cases(sums: &Sums, wanted: &[(u32, u32)]) -> bool {
    let mut is_so = sums.cases().len() == wanted.len();
    for (case, wanted) in sums.cases().iter().zip(wanted) {
        is_so = is_so && (case.code, case.clause) == *wanted;
    }
    is_so
}

/// What is shown with two codes more holds beside one of them, until the clause with that one alone is shown.
#[test]
fn a_case_counts_where_its_goal_does(rt: HostRuntime) {
    let mut sums = sums_of(&rt, rt.alloc(), (3, 4), &TWINS);
    sums.unite(0, 1).expect(&rt, "memory");
    expect(&rt, "a goal", sums.begin_goal(2, 1).expect(&rt, "memory"));
    sums.begin_case(2).expect(&rt, "memory");
    sums.begin_case(4).expect(&rt, "memory");
    sums.end_case(10).expect(&rt, "memory");
    expect(
        &rt,
        "beside one",
        has_cases(&sums, &[(4, 10)]) && sums.goal() == [7, 8, 2].as_slice(),
    );
    sums.end_case(11).expect(&rt, "memory");
    expect(
        &rt,
        "alone",
        has_cases(&sums, &[(2, 11)]) && sums.goal() == [7, 8].as_slice(),
    );
}

/// Sum 6 is of two gates, and 7 of 6 and a third one. The clauses of 6 are needed until 7 is said.
#[test]
fn clauses_of_a_part_go_when_its_sum_is_said(rt: HostRuntime) {
    let mut sums = sums_of(&rt, rt.alloc(), (7, 10), &CHAIN_AND_TREE);
    sums.unite(0, 1).expect(&rt, "memory");
    sums.unite(6, 2).expect(&rt, "memory");
    for (sum, clause) in [(6, 70), (6, 71), (7, 72)] {
        sums.push_said(sum, clause).expect(&rt, "memory");
    }
    sums.note_said(6);
    sums.keep_needed();
    expect(&rt, "all three", sums.said() == 3);
    sums.note_said(7);
    sums.keep_needed();
    expect(&rt, "one", sums.said() == 1 && sums.said_at(0) == 72);
}
