use crate::entries::{are_same, entry, lit};
use crate::pairs::{Case, check, expect, net_of, swapped_ands, two_xors};
use lemma_book::{Book, Entry};
use netlist::Net;
use std::alloc::Global;
use std::process::Abort;
use strash_pass::run;
use worked_circuits::{and, circuit, two_input_circuit};

/// A literal and its root, as `entries` reads them.
type Row<'a> = (&'a str, &'a str);

/// The book after the pass, which merges so many gates.
fn passed(rt: &impl Abort, alloc: Global, net: &Net, merges: u64) -> Book {
    let mut book = Book::new(alloc, 100, 100_000);
    let count = run(alloc, net, &mut book).expect(rt, "memory");
    expect(rt, "the count", count == merges);
    expect(rt, "the merges", book.len() == merges);
    book
}

/// Whether the book's entry at the place is this merge, step by step and hint by hint.
fn has_merge(book: &Book, place: u64, merge: &Entry) -> bool {
    match (book.entry(place), merge) {
        (
            Some(Entry::Merge { node, lit, steps }),
            Entry::Merge {
                node: same_node,
                lit: same_lit,
                steps: same_steps,
            },
        ) => {
            *node == *same_node
                && *lit == *same_lit
                && are_same(steps.as_slice(), same_steps.as_slice())
        }
        _ => false,
    }
}

/// So many gates are merged, by the entries of these lines in order, and literals have these roots.
struct Added(u64, &'static str, &'static [Row<'static>]);

impl Case for Added {
    fn check<A: Abort>(&self, rt: &A, alloc: Global, net: &Net) {
        let book = passed(rt, alloc, net, self.0);
        for (place, line) in self.1.split_terminator('\n').enumerate() {
            expect(
                rt,
                line,
                has_merge(&book, place as u64, &entry(rt, alloc, line)),
            );
        }
        for row in self.2 {
            expect(rt, row.0, book.root(lit(rt, row.0)) == lit(rt, row.1));
        }
    }
}

/// The clauses of a3 come first, so its last one shows a fanin of b3 false before the second one of b3 is
/// asked.
static OF_ANDS: Added = Added(
    1,
    "merge b3 a3: -b3 a3 by b3.0 a3.2 b3.1; b3 -a3 by a3.0 a3.1 b3.2\n",
    &[("b3", "a3")],
);

/// Two XORs by other gates: no gate has a twin.
static OF_XORS: Added = Added(0, "", &[("b5", "b5")]);

#[test]
fn strash(rt: HostRuntime) {
    let alloc = rt.alloc();
    check(&rt, alloc, swapped_ands(&rt, alloc), &OF_ANDS);
    check(&rt, alloc, two_xors(&rt, alloc), &OF_XORS);
}

/// In A an AND of one literal twice, of a literal and its negation, of an input and true; in B one of true
/// and an input, of false and an input, of an input and false.
pub(crate) fn folds(rt: &impl Abort, alloc: Global) -> Net {
    let gates = [and(2, 2, 2), and(3, 2, 3), and(4, 1, 2)];
    let a = circuit(alloc, &[1], &gates, &[4, 6]);
    let gates = [and(2, 3, 1), and(3, 0, 2), and(4, 2, 0)];
    net_of(rt, alloc, a, circuit(alloc, &[1], &gates, &[5, 6]))
}

/// Gates that merge are merged to what they fold to. The constant's clause is the first of a list that has
/// it, so it is asked first unless what is given makes it true.
static OF_FOLDS: Added = Added(
    6,
    "\
merge a2 i0: -a2 i0 by a2.0; a2 -i0 by a2.2
merge a3 -t: -a3 -t by a3.0 a3.1; a3 t by t.0
merge a4 i0: -a4 i0 by t.0 a4.1; a4 -i0 by t.0 a4.2
merge b2 -i0: -b2 -i0 by t.0 b2.0; b2 i0 by t.0 b2.2
merge b3 -t: -b3 -t by b3.0; b3 t by t.0
merge b4 -t: -b4 -t by b4.0 b4.1; b4 t by t.0
",
    &[],
);

/// Gates 4 are twins, over gates 3 that are twins too.
fn two_levels(rt: &impl Abort, alloc: Global) -> Net {
    let a = two_input_circuit(alloc, &[and(3, 2, 4), and(4, 7, 2)], 8);
    let b = two_input_circuit(alloc, &[and(3, 4, 2), and(4, 2, 7)], 8);
    net_of(rt, alloc, a, b)
}

/// A gate whose fanins are merged is seen by their roots: B's second gate is a twin of A's by way of
/// its first, and the clauses of that merge stand between those of the two gates.
static OF_LEVELS: Added = Added(
    2,
    "\
merge b3 a3: -b3 a3 by b3.0 a3.2 b3.1; b3 -a3 by a3.0 a3.1 b3.2
merge b4 a4: -b4 a4 by b4.0 a4.2 e0.1 b4.1; b4 -a4 by a4.0 a4.1 e0.0 b4.2
",
    &[("-b4", "-a4")],
);

/// A gate of A, and its twin twice in B.
fn two_twins(rt: &impl Abort, alloc: Global) -> Net {
    let a = two_input_circuit(alloc, &[and(3, 2, 4)], 6);
    let b = two_input_circuit(alloc, &[and(3, 2, 4), and(4, 4, 2)], 8);
    net_of(rt, alloc, a, b)
}

/// Both are merged to the earliest.
static OF_TWO_TWINS: Added = Added(
    2,
    "\
merge b3 a3: -b3 a3 by b3.0 a3.2 b3.1; b3 -a3 by a3.0 a3.1 b3.2
merge b4 a3: -b4 a3 by b4.0 a3.2 b4.1; b4 -a3 by a3.0 a3.1 b4.2
",
    &[],
);

#[test]
fn folds_and_twins_by_their_roots(rt: HostRuntime) {
    let alloc = rt.alloc();
    check(&rt, alloc, folds(&rt, alloc), &OF_FOLDS);
    check(&rt, alloc, two_levels(&rt, alloc), &OF_LEVELS);
    check(&rt, alloc, two_twins(&rt, alloc), &OF_TWO_TWINS);
}
