ghost use Rattle.std.specs.Prelude.{◌≤◌};
ghost use Rattle.std.specs.Bool.{OnTrue};
ghost use Rattle.lemma_book.specs.Book.{IsLegal};
ghost use Rattle.lemma_book.specs.Good.{IsEarlier};
ghost use Rattle.cone_query.specs.Query.{IsGate};

use crate::bounds::{and_that_is_asked, and_that_is_false, and_that_one_admits};
use crate::entries::{are_same, steps};
use crate::lemmas::{MERGED, book_of};
use crate::pairs::{Case, check, expect, swapped_ands, two_xors};
use cone_query::{output, pair};
use equal_outputs::equal_output;
use lemma_book::{Book, Entry, Task};
use lits::{Lit, Node, Side, Step};
use netlist::Net;
use solver_plain::PlainSolver;
use std::alloc::Global;
use std::process::Abort;

/// Whether the literal's node is earlier than the task's.
fn is_earlier(net: &Net, task: &Task) -> bool
    ensures { OnTrue result (IsEarlier net.now task.now.node task.now.lit) }
{
    match (net.position(task.lit.node), net.position(task.node)) {
        (Some(first), Some(second)) => first < second,
        _ => false,
    }
}

/// The answer about a pair over an empty book.
fn answer_of_pair(rt: &impl Abort, alloc: Global, net: &Net, task: &Task, budget: u64) -> Entry
    requires gate { IsGate task.now.node }
    requires budget { (1 ≤ budget) × (budget ≤ 1000000000) }
{
    assert!(rt; is_earlier(net, task));
    let seen = Book::new(alloc, budget, 1);
    pair(alloc, net, &seen, task, &mut PlainSolver::new(alloc)).expect(rt, "memory")
}

/// The answer about output 0.
fn answer_of_output(rt: &impl Abort, alloc: Global, net: &Net, seen: &Book) -> Entry
    requires { IsLegal net.now seen.now }
{
    assert!(rt; net.outputs() > 0 && seen.about(0).is_none());
    output(alloc, net, seen, 0, &mut PlainSolver::new(alloc)).expect(rt, "memory")
}

const LAST_GATES: Task = Task {
    node: Node::Gate(Side::B, 5),
    lit: Lit {
        node: Node::Gate(Side::A, 5),
        neg: true,
    },
};

const AND_AND_INPUT: Task = Task {
    node: Node::Gate(Side::A, 3),
    lit: Lit {
        node: Node::Input(0),
        neg: false,
    },
};

/// The answer about output 0 over an empty book, with so many clauses for an output.
fn answer_within(rt: &impl Abort, alloc: Global, net: &Net, budget: u64) -> Entry
    requires { (1 ≤ budget) × (budget ≤ 1000000000) }
{
    answer_of_output(rt, alloc, net, &Book::new(alloc, 1, budget))
}

/// What the merge of the swapped ANDs alone shows of their output.
fn answer_of_merged(rt: &impl Abort, alloc: Global, net: &Net) -> Entry {
    let book = book_of(rt, alloc, net, 1, MERGED);
    assert!(rt; net.outputs() > 0 && book.about(0).is_none());
    let entry = equal_output(alloc, net, &book, 0).expect(rt, "memory");
    entry.expect(rt, "equal roots")
}

/// The two steps over the merge and the XOR: by the merge's first clause a false output of A makes that of B
/// false, and by its second a true one makes it true, so where the XOR is true neither can be.
const TWO_STEPS: &str = "-d0 a3 by e0.0 d0.0; -d0 by s0 e0.1 d0.1";

/// What is asked.
enum Asked {
    /// About the last gates of two XORs.
    LastGates,
    /// About the AND of the inputs and the first input.
    AndAndInput,
    /// About output 0 over an empty book, with clauses enough.
    Output,
    /// The same with one clause.
    OutputWithinOne,
    /// About output 0 of the swapped ANDs over the book of their merge.
    Merged,
}

fn answer(rt: &impl Abort, alloc: Global, net: &Net, asked: &Asked) -> Entry {
    match asked {
        Asked::LastGates => answer_of_pair(rt, alloc, net, &LAST_GATES, 100_000),
        Asked::AndAndInput => answer_of_pair(rt, alloc, net, &AND_AND_INPUT, 1000),
        Asked::Output => answer_within(rt, alloc, net, 100_000),
        Asked::OutputWithinOne => answer_within(rt, alloc, net, 1),
        Asked::Merged => answer_of_merged(rt, alloc, net),
    }
}

/// The answer in words.
fn words_of(rt: &impl Abort, alloc: Global, entry: &Entry) -> &'static str {
    match entry {
        Entry::Merge { node, lit, .. } => words_of_merge(*node, *lit),
        Entry::Apart { node, lit, input } if matches!(input.as_slice(), [true, false]) => {
            words_of_apart(*node, *lit)
        }
        Entry::Out { output: 0, steps } => words_of_steps(rt, alloc, steps.as_slice()),
        Entry::OutApart { output: 0, input } if matches!(input.as_slice(), [false, true]) =>
            "differs on 01",
        Entry::OutSpent { seen: 0, log, .. } if log.len() == 1 => "a log of one clause",
        _ => "another answer",
    }
}

fn words_of_merge(node: Node, lit: Lit) -> &'static str {
    if node == LAST_GATES.node && lit == LAST_GATES.lit {
        "the last gates are merged"
    } else {
        "another merge"
    }
}

fn words_of_apart(node: Node, lit: Lit) -> &'static str {
    if node == AND_AND_INPUT.node && lit == AND_AND_INPUT.lit {
        "apart by 10"
    } else {
        "another pair apart"
    }
}

fn words_of_steps(rt: &impl Abort, alloc: Global, found: &[Step]) -> &'static str {
    if are_same(found, steps(rt, alloc, TWO_STEPS).as_slice()) {
        "equal by two steps"
    } else {
        "equal"
    }
}

/// What is asked, and the answer in words.
type Question = (Asked, &'static str);

/// What is asked over a net.
struct Questions(&'static [Question]);

impl Case for Questions {
    fn check<A: Abort>(&self, rt: &A, alloc: Global, net: &Net) {
        for (asked, expected) in self.0 {
            let entry = answer(rt, alloc, net, asked);
            expect(rt, expected, words_of(rt, alloc, &entry) == *expected);
        }
    }
}

static OF_PAIR: Questions = Questions(&[(Asked::LastGates, "the last gates are merged")]);

#[test]
fn pair_merge(rt: HostRuntime) {
    let alloc = rt.alloc();
    check(&rt, alloc, two_xors(&rt, alloc), &OF_PAIR);
}

static OF_OUTPUT: Questions = Questions(&[
    (Asked::Output, "equal"),
    // For want of units there is a log of one clause over the empty book.
    (Asked::OutputWithinOne, "a log of one clause"),
]);

#[test]
fn output_query(rt: HostRuntime) {
    let alloc = rt.alloc();
    check(&rt, alloc, two_xors(&rt, alloc), &OF_OUTPUT);
}

static OF_ANDS: Questions = Questions(&[
    // pair_apart: the AND of both inputs is the first one but where the second is false.
    (Asked::AndAndInput, "apart by 10"),
    // An output whose roots are equal.
    (Asked::Merged, "equal by two steps"),
]);

#[test]
fn pair_apart(rt: HostRuntime) {
    let alloc = rt.alloc();
    check(&rt, alloc, swapped_ands(&rt, alloc), &OF_ANDS);
}

static AGREEING: Questions = Questions(&[(Asked::Output, "equal")]);

static DIFFERING: Questions = Questions(&[(Asked::Output, "differs on 01")]);

/// The outputs differ on `01` alone, so the constraints of both circuits decide.
#[test]
fn output_under_constraints(rt: HostRuntime) {
    let alloc = rt.alloc();
    check(&rt, alloc, and_that_is_asked(&rt, alloc), &AGREEING);
    check(&rt, alloc, and_that_is_false(&rt, alloc), &DIFFERING);
    check(&rt, alloc, and_that_one_admits(&rt, alloc), &AGREEING);
}
