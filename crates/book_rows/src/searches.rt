ghost use Rattle.std.specs.Prelude.{[], ◌∷◌};
ghost use Rattle.netlist.specs.Circuit.{IsCircuit, plain};
ghost use Rattle.lemma_book.specs.Book.{IsLegal};

use crate::bounds::circuit;
use crate::lemmas::{SPENT, book_of};
use crate::pairs::{Case, check, expect, net_of, two_xors};
use circuit_search::{Caps, Search, Shared};
use lemma_book::{Book, Entry, Task};
use lits::{Lit, Node, Side};
use netlist::{And, Net};
use pattern_filter::PatternFilter;
use std::alloc::Global;
use std::process::Abort;
use worked_circuits::{and, one_gate, two_input_circuit};
use workload_gen::{Kind, make};

/// Whether the inputs are equal, on both sides: in A neither is true without the other, in B it isn't so
/// that one alone is true (gate 5 has one of them, and not both).
pub(crate) fn equal(rt: &impl Abort, alloc: Global) -> Net {
    let a = two_input_circuit(alloc, &[and(3, 2, 5), and(4, 3, 4), and(5, 7, 9)], 10);
    let b = two_input_circuit(alloc, &[and(3, 3, 5), and(4, 2, 4), and(5, 7, 9)], 11);
    net_of(rt, alloc, a, b)
}

/// The AND of the inputs, and the first input without the second.
pub(crate) fn different(rt: &impl Abort, alloc: Global) -> Net {
    net_of(rt, alloc, one_gate(alloc, 2, 4), one_gate(alloc, 5, 2))
}

/// What was found, and how much was dropped.
fn words_of(found: &Option<Entry>, dropped: u64) -> &'static str {
    match found {
        _ if dropped > 0 => "dropped",
        Some(Entry::Merge { .. }) => "merge",
        Some(Entry::Apart { .. }) => "apart",
        Some(Entry::Out { .. }) => "out",
        Some(Entry::OutApart { .. }) => "out apart",
        Some(_) => "another",
        None => "none",
    }
}

/// What a search is asked.
enum Asked {
    /// For the pair of B's gate of that variable and A's, negated or not, by so many decisions.
    Pair(u32, bool, u64),
    /// For output 0.
    Output,
    /// For a pattern on which the outputs differ.
    Difference,
}

/// What the search finds of a pair over an empty book.
fn found_of_pair(
    rt: &impl Abort,
    alloc: Global,
    net: &Net,
    search: &mut Search,
    task: &Task,
    decisions: u64,
) -> &'static str {
    let caps = Caps {
        conflicts: 10,
        decisions,
    };
    let found = search.pair(alloc, net, &Book::new(alloc, 10, 10), task, caps);
    words_of(&found.expect(rt, "memory"), search.dropped())
}

const CAPS: Caps = Caps {
    conflicts: 10,
    decisions: 10,
};

/// What the search finds of output 0 over an empty book.
fn found_of_output(rt: &impl Abort, alloc: Global, net: &Net, search: &mut Search) -> &'static str {
    let found = search.output(alloc, net, &Book::new(alloc, 10, 10), 0, CAPS);
    words_of(&found.expect(rt, "memory"), search.dropped())
}

/// Whether a pattern shows the outputs to differ, and on what.
fn found_of_patterns(rt: &impl Abort, alloc: Global, net: &Net) -> &'static str {
    let mut sieve = PatternFilter::new(alloc, 1, 1);
    let book = Book::new(alloc, 1, 1);
    match sieve.difference(alloc, net, &book).expect(rt, "memory") {
        Some(input) => which_is_true(input.as_slice()),
        None => "none",
    }
}

fn which_is_true(input: &[bool]) -> &'static str {
    match input {
        [true, _] => "first of two is true",
        [false, true] => "second of two is true",
        _ => "another",
    }
}

fn found(
    rt: &impl Abort,
    alloc: Global,
    net: &Net,
    search: &mut Search,
    asked: &Asked,
) -> &'static str {
    match asked {
        Asked::Pair(var, neg, decisions) => {
            let node = Node::Gate(Side::A, *var);
            let task = Task {
                node: Node::Gate(Side::B, *var),
                lit: Lit { node, neg: *neg },
            };
            found_of_pair(rt, alloc, net, search, &task, *decisions)
        }
        Asked::Output => found_of_output(rt, alloc, net, search),
        Asked::Difference => found_of_patterns(rt, alloc, net),
    }
}

/// What a new search finds.
fn found_by_new(rt: &impl Abort, alloc: Global, net: &Net, asked: &Asked) -> &'static str {
    let mut search = Search::new(alloc, net).expect(rt, "memory");
    found(rt, alloc, net, &mut search, asked)
}

/// What a search is asked, and what it finds.
type Row = (Asked, &'static str);

/// What new searches of a net are asked.
struct Searches(&'static [Row]);

impl Case for Searches {
    fn check<A: Abort>(&self, rt: &A, alloc: Global, net: &Net) {
        for (asked, expected) in self.0 {
            let is_found = found_by_new(rt, alloc, net, asked) == *expected;
            expect(rt, expected, is_found);
        }
    }
}

static EQUAL: Searches = Searches(&[
    // Two forms of an XOR.
    (Asked::Pair(5, true, 10), "merge"),
    (Asked::Output, "out"),
    // A search without choices gives up.
    (Asked::Pair(5, true, 0), "none"),
    (Asked::Difference, "none"),
]);

/// The AND and the first input without the second differ exactly where the first input is true.
static DIFFERENT: Searches = Searches(&[
    (Asked::Pair(3, false, 10), "apart"),
    (Asked::Difference, "first of two is true"),
]);

#[test]
fn what_searches_find(rt: HostRuntime) {
    let alloc = rt.alloc();
    check(&rt, alloc, equal(&rt, alloc), &EQUAL);
    check(&rt, alloc, different(&rt, alloc), &DIFFERENT);
}

/// The first input, and the second, where A has these gates and constraints.
fn inputs_under(rt: &impl Abort, alloc: Global, gates: &[And], constraints: &[u32]) -> Net
    requires { IsCircuit
        (record (plain (1 ∷ 2 ∷ []) gates.now (2 ∷ [])) { constraints = constraints.now }) }
{
    let a = circuit(rt, alloc, gates, 2, constraints);
    net_of(rt, alloc, Ok(a), two_input_circuit(alloc, &[], 4))
}

/// Where the inputs are equal, or where none is admitted.
static AGREE: Searches = Searches(&[(Asked::Output, "out"), (Asked::Difference, "none")]);

/// Where the second input alone is true. Without the constraint the search would find the first alone.
static SECOND_ALONE: Searches = Searches(&[
    (Asked::Output, "out apart"),
    (Asked::Difference, "second of two is true"),
]);

#[test]
fn what_searches_find_under_constraints(rt: HostRuntime) {
    let alloc = rt.alloc();
    // Neither input is true without the other.
    let gates = [and(3, 2, 5), and(4, 3, 4)];
    check(
        &rt,
        alloc,
        inputs_under(&rt, alloc, &gates, &[7, 9]),
        &AGREE,
    );
    let gates = [and(3, 3, 4)];
    check(
        &rt,
        alloc,
        inputs_under(&rt, alloc, &gates, &[6]),
        &SECOND_ALONE,
    );
}

/// No input is admitted: by the constant, by two constraints, and by a gate and a constraint.
#[test]
fn what_searches_find_where_no_input_is_admitted(rt: HostRuntime) {
    let alloc = rt.alloc();
    check(&rt, alloc, inputs_under(&rt, alloc, &[], &[0]), &AGREE);
    check(&rt, alloc, inputs_under(&rt, alloc, &[], &[2, 3]), &AGREE);
    let gates = [and(3, 2, 4)];
    check(
        &rt,
        alloc,
        inputs_under(&rt, alloc, &gates, &[6, 3]),
        &AGREE,
    );
}

/// A chain and a tree of exclusive ORs of 16 inputs.
fn parities(alloc: Global) -> Option<Net> {
    let (a, b) = make(alloc, Kind::Parity, 16).ok()?;
    let a = aiger_file::read(alloc, a.as_slice()).ok()?;
    let b = aiger_file::read(alloc, b.as_slice()).ok()?;
    Net::of(alloc, a, b).ok()
}

/// That the first output has one value in both circuits.
fn outputs_pair(net: &Net) -> Option<Task> {
    let a = net.output(Side::A, 0)?;
    let b = net.output(Side::B, 0)?;
    let lit = Lit {
        node: a.node,
        neg: a.neg != b.neg,
    };
    Some(Task { node: b.node, lit })
}

const NONE: Caps = Caps {
    conflicts: 0,
    decisions: 0,
};

/// What a search that may make no choice and learn from no conflict finds of that over a book.
fn found_of_parities(rt: &impl Abort, alloc: Global, net: &Net, book: &Book) -> &'static str
    requires { IsLegal net.now book.now }
{
    let task = outputs_pair(net).expect(rt, "an output");
    let mut search = Search::new(alloc, net).expect(rt, "memory");
    let found = search.pair(alloc, net, book, &task, NONE);
    words_of(&found.expect(rt, "memory"), search.dropped())
}

/// Sums are added up without a choice, as far as a merge may have so many steps.
#[test]
fn sums_of_inputs_are_merged(rt: HostRuntime) {
    let alloc = rt.alloc();
    let net = parities(alloc).expect(&rt, "a net");
    let long = found_of_parities(&rt, alloc, &net, &Book::new(alloc, 1000, 10));
    expect(&rt, "a merge", long == "merge");
    let short = found_of_parities(&rt, alloc, &net, &Book::new(alloc, 20, 10));
    expect(&rt, "no merge of 22 steps", short == "none");
}

/// What a search finds of output 0 over a book, shortly or else behind an exchange, and whether it learned from
/// conflicts.
fn found_by_exchange(
    rt: &impl Abort,
    alloc: Global,
    net: &Net,
    book: &Book,
    shared: &mut Shared,
) -> (&'static str, bool)
    requires { IsLegal net.now book.now }
{
    let mut search = Search::new(alloc, net).expect(rt, "memory");
    let shortly = search
        .output_shortly(alloc, net, book, 0, NONE)
        .expect(rt, "memory");
    expect(rt, "nothing shortly", shortly.is_none());
    search
        .exchange(alloc, net, shared, CAPS)
        .expect(rt, "memory");
    let found = search.output(alloc, net, book, 0, CAPS);
    let words = words_of(&found.expect(rt, "memory"), search.dropped());
    (words, search.conflicts() > 0)
}

/// Two gates are equal, and a query about them spent its budget: what one search learns of them the next one takes.
struct SharedEquality;

impl Case for SharedEquality {
    fn check<A: Abort>(&self, rt: &A, alloc: Global, net: &Net) {
        let book = book_of(rt, alloc, net, 100, SPENT);
        let mut shared = Shared::new(alloc);
        let first = found_by_exchange(rt, alloc, net, &book, &mut shared);
        expect(rt, "the first search learns", first == ("out", true));
        let second = found_by_exchange(rt, alloc, net, &book, &mut shared);
        expect(rt, "the second one doesn't", second == ("out", false));
    }
}

#[test]
fn searches_share_equalities(rt: HostRuntime) {
    let alloc = rt.alloc();
    check(&rt, alloc, two_xors(&rt, alloc), &SharedEquality);
}
