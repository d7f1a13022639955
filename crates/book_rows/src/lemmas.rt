ghost use Rattle.std.specs.Prelude.{◌<◌, ◌≤◌, [], ◌∷◌, length, slice_get, IfSome};
ghost use Rattle.lemma_book.specs.Book.{IsLegal};
ghost use Rattle.lemma_book.specs.Cone.{AreThere};
ghost use Rattle.lemma_book.specs.Good.{IsGood};
ghost use Rattle.std.specs.Bool.{OnTrue};

use crate::entries;
use crate::pairs::{Case, check, expect, expect_text, swapped_ands, two_xors};
use crate::structure::folds;
use lemma_book::{Book, Judgement, Offered, Refused, Subject};
use lits::{Lit, Named, Node, Side, Step};
use netlist::Net;
use std::alloc::Global;
use std::process::Abort;

/// Merges b3 to a3, two ANDs of the same inputs.
pub(crate) const MERGE: &str = "merge b3 a3: -b3 a3 by b3.0 b3.1 a3.2; b3 -a3 by a3.0 a3.1 b3.2";

/// The same, as the first entry of a book.
pub(crate) const MERGED: &str =
    "merge b3 a3: -b3 a3 by b3.0 b3.1 a3.2; b3 -a3 by a3.0 a3.1 b3.2 => Ok(At(0))";

/// What the book answers to the entry.
fn answer(
    rt: &impl Abort,
    alloc: Global,
    net: &Net,
    book: &mut Book,
    text: &str,
) -> Result<Offered, Refused>
    requires { IsLegal net.now book.old }
    ensures { IsLegal net.now book.new }
{
    match book.offer(alloc, net, entries::entry(rt, alloc, text)) {
        Ok(offered) => Ok(offered),
        Err((_entry, refused)) => Err(refused),
    }
}

/// Offers the entry, and compares the answer.
fn check_answer(rt: &impl Abort, alloc: Global, net: &Net, book: &mut Book, row: (&str, &str))
    requires { IsLegal net.now book.old }
    ensures { IsLegal net.now book.new }
{
    let answer = answer(rt, alloc, net, book, row.0);
    let answer = format!(in alloc; "{answer:?}").expect(rt, "memory");
    expect_text(rt, row.0, answer.as_str(), row.1);
}

fn is_note(line: &str) -> bool {
    line.is_empty() || line.starts_with('#')
}

/// Offers the entries to one book, in order: each line has one and behind an arrow the answer to it, but for
/// notes behind `#`.
fn offer_lines(rt: &impl Abort, alloc: Global, net: &Net, book: &mut Book, text: &str)
    requires { IsLegal net.now book.old }
    ensures { IsLegal net.now book.new }
{
    for line in text.split('\n') {
        match line.split_once(" => ") {
            Some(row) => check_answer(rt, alloc, net, book, row),
            None => expect(rt, line, is_note(line)),
        }
    }
}

/// The book to which the entries of these lines were offered, with so many clauses for each query of an
/// output, and one for each of a pair.
pub(crate) fn book_of(rt: &impl Abort, alloc: Global, net: &Net, budget: u64, text: &str) -> Book
    requires some { 1 ≤ budget }
    requires range { budget ≤ 1000000000 }
    ensures { IsLegal net.now result }
{
    let mut book = Book::new(alloc, 1, budget);
    offer_lines(rt, alloc, net, &mut book, text);
    book
}

/// Entries by lines that are offered to an empty book over a net, with one clause for each query or, where
/// logs are long, two. Text, since each row of a table of so many costs the prover half a second.
type Offering = (bool, &'static str);

/// Offerings over a net, each to a book of its own.
struct Offerings(&'static [Offering]);

impl Case for Offerings {
    fn check<A: Abort>(&self, rt: &A, alloc: Global, net: &Net) {
        for (are_long, text) in self.0 {
            let budget = if *are_long { 2 } else { 1 };
            offer_lines(rt, alloc, net, &mut Book::new(alloc, budget, budget), text);
        }
    }
}

/// A merge without a hint, with node and target exchanged, whole, and once more.
const OFFERS: &str = "\
merge b3 a3: -b3 a3 by b3.1 a3.2; b3 -a3 by a3.0 a3.1 b3.2 \
    => Err(Bad(Step(0, BadStep { hint: 0, why: NotFalse })))
merge a3 b3: -b3 a3 by b3.0 b3.1 a3.2; b3 -a3 by a3.0 a3.1 b3.2 => Err(Bad(NotEarlier))
merge b3 a3: -b3 a3 by b3.0 b3.1 a3.2; b3 -a3 by a3.0 a3.1 b3.2 => Ok(At(0))
merge b3 a3: -b3 a3 by b3.0 b3.1 a3.2; b3 -a3 by a3.0 a3.1 b3.2 => Ok(Already(0))
";

/// Each cause that is found without looking at steps.
const NAMES_AND_SIZES: &str = "\
# A gate that isn't there; an input; an XOR, which has no position.
merge b9 a3: -b3 a3 by b3.0 b3.1 a3.2; b3 -a3 by a3.0 a3.1 b3.2 => Err(Bad(NoNode))
merge b3 i2: -b3 a3 by b3.0 b3.1 a3.2; b3 -a3 by a3.0 a3.1 b3.2 => Err(Bad(NoNode))
merge d0 a3: -b3 a3 by b3.0 b3.1 a3.2; b3 -a3 by a3.0 a3.1 b3.2 => Err(Bad(NoNode))
apart a3 d0: 10 => Err(Bad(NoNode))
spent b9 a3 0: -b3 a3 by b3.1 => Err(Bad(NoNode))
# An output that isn't there.
out 1: -d0 by d0.0 => Err(Bad(NoNode))
outapart 1: 10 => Err(Bad(NoNode))
outspent 1 0: -d0 by d0.0 => Err(Bad(NoNode))
# A literal of a step.
merge b3 a3: -b3 i1 i7 by b3.0; -b3 a3 by b3.0 b3.1 a3.2; b3 -a3 by a3.0 a3.1 b3.2 => Err(Bad(NoNode))
spent b3 a3 0: -b3 i7 by b3.0 => Err(Bad(NoNode))
out 0: -d1 by d0.0; -d0 by d0.0 => Err(Bad(NoNode))
# Target that isn't earlier, by all else good.
merge a3 b3: -a3 b3 by a3.0 a3.1 b3.2; a3 -b3 by b3.0 b3.1 a3.2 => Err(Bad(NotEarlier))
apart i0 a3: 10 => Err(Bad(NotEarlier))
# Equal values; an input of another length.
apart a3 i0: 11 => Err(NotApart)
apart a3 -i0: 10 => Err(NotApart)
apart a3 i0: 1 => Err(NotApart)
apart a3 i0: 100 => Err(NotApart)
outapart 0: 10 => Err(NotApart)
outapart 0:  => Err(NotApart)
# Last clauses.
merge b3 a3: -b3 a3 by b3.0 b3.1 a3.2 => Err(Bad(Shape))
merge b3 a3: b3 -a3 by a3.0 a3.1 b3.2; -b3 a3 by b3.0 b3.1 a3.2 => Err(Bad(Shape))
merge b3 -a3: -b3 a3 by b3.0 b3.1 a3.2; b3 -a3 by a3.0 a3.1 b3.2 => Err(Bad(Shape))
merge b3 a3: -b3 a3 by b3.0 b3.1 a3.2; b3 -a3 by a3.0 a3.1 b3.2; -b3 a3 by b3.0 b3.1 a3.2 => Err(Bad(Shape))
out 0: -d0 a3 by d0.0 => Err(Bad(Shape))
# Counts.
merge b3 a3: -b3 i1 by b3.0; -b3 i0 by b3.1; -b3 a3 by b3.0 b3.1 a3.2; \
    b3 -a3 by a3.0 a3.1 b3.2 => Err(Bad(Count))
spent b3 a3 0:  => Err(Bad(Count))
outspent 0 0:  => Err(Bad(Count))
";

/// Each cause that is found in steps.
const STEPS: &str = "\
# Hints that are no clauses: an axiom, one of an XOR, an entry's, the step's own, a later step's.
merge b3 a3: -b3 a3 by b3.3; b3 -a3 by a3.0 a3.1 b3.2 => Err(Bad(Step(0, BadStep { hint: 1, why: NoClause })))
merge b3 a3: -b3 a3 by b3.0 d0.0; b3 -a3 by a3.0 a3.1 b3.2 \
    => Err(Bad(Step(0, BadStep { hint: 2, why: NoClause })))
merge b3 a3: -b3 a3 by e0.0; b3 -a3 by a3.0 a3.1 b3.2 => Err(Bad(Step(0, BadStep { hint: 1, why: NoClause })))
merge b3 a3: -b3 a3 by s0; b3 -a3 by a3.0 a3.1 b3.2 => Err(Bad(Step(0, BadStep { hint: 1, why: NoClause })))
merge b3 a3: -b3 a3 by s1; b3 -a3 by a3.0 a3.1 b3.2 => Err(Bad(Step(0, BadStep { hint: 1, why: NoClause })))
# The other causes.
merge b3 a3: -b3 a3 by b3.0 b3.1 a3.2 a3.0; b3 -a3 by a3.0 a3.1 b3.2 \
    => Err(Bad(Step(0, BadStep { hint: 4, why: AfterFalse })))
merge b3 a3: -b3 a3 by b3.0 b3.1 a3.2; b3 -a3 by b3.0 \
    => Err(Bad(Step(1, BadStep { hint: 1, why: Satisfied })))
merge b3 a3: -b3 a3 by b3.0 b3.1 a3.2; b3 -a3 by a3.0 a3.0 b3.2 \
    => Err(Bad(Step(1, BadStep { hint: 2, why: Satisfied })))
merge b3 a3: -b3 a3 by a3.2 b3.0 b3.1; b3 -a3 by a3.0 a3.1 b3.2 \
    => Err(Bad(Step(0, BadStep { hint: 1, why: TwoFree })))
merge b3 a3: -b3 a3 by; b3 -a3 by a3.0 a3.1 b3.2 => Err(Bad(Step(0, BadStep { hint: 0, why: NotFalse })))
merge b3 a3: -b3 a3 by b3.0 b3.1 a3.2; b3 -a3 by a3.0 a3.1 \
    => Err(Bad(Step(1, BadStep { hint: 0, why: NotFalse })))
out 0: -d0 by d0.0 => Err(Bad(Step(0, BadStep { hint: 1, why: TwoFree })))
out 0: -d0 a3 by d0.0; -d0 by s0 => Err(Bad(Step(0, BadStep { hint: 0, why: NotFalse })))
# An axiom is nothing new.
spent b3 a3 0: -b3 i1 by b3.0 => Err(Bad(NotNew(0)))
outspent 0 0: -b3 i1 by b3.0 => Err(Bad(NotNew(0)))
";

/// Two causes stand, and the earlier is told.
const PAIRS: &str = "\
# Name and place in order; name and last clauses.
merge a3 b9: -b3 a3 by b3.0 b3.1 a3.2; b3 -a3 by a3.0 a3.1 b3.2 => Err(Bad(NoNode))
merge b9 a3:  => Err(Bad(NoNode))
outapart 1: 11 => Err(Bad(NoNode))
# Place in order, then values, last clauses, count, or entries that were seen.
apart a3 a3: 10 => Err(Bad(NotEarlier))
apart a3 b3: 1 => Err(Bad(NotEarlier))
merge a3 b3:  => Err(Bad(NotEarlier))
spent a3 b3 0:  => Err(Bad(NotEarlier))
spent a3 b3 7: -b3 i1 by b3.0 => Err(Bad(NotEarlier))
# Last clauses, then count or a step.
merge b3 a3: -b3 i1 by b3.0; -b3 i0 by b3.1; -b3 i1 by b3.0; -b3 i1 by b3.0 => Err(Bad(Shape))
merge b3 a3: -b3 a3 by a3.2 => Err(Bad(Shape))
# Count, then entries that were seen or a step.
spent b3 a3 7:  => Err(Bad(Count))
merge b3 a3: -b3 i1 by; -b3 i0 by b3.1; -b3 a3 by b3.0 b3.1 a3.2; b3 -a3 by a3.0 a3.1 b3.2 => Err(Bad(Count))
# Entries that were seen, then a step or a clause that isn't new.
spent b3 a3 7: -b3 i1 by => Err(Bad(Seen))
outspent 0 7: -b3 i1 by b3.0 => Err(Bad(Seen))
# A step, then a clause that isn't new; an earlier step, then a later.
spent b3 a3 0: -b3 i1 by => Err(Bad(Step(0, BadStep { hint: 0, why: NotFalse })))
merge b3 a3: -b3 a3 by; b3 -a3 by => Err(Bad(Step(0, BadStep { hint: 0, why: NotFalse })))
";

/// A merge, its output, and what comes after them.
const SETTLED: &str = "\
merge b3 a3: -b3 a3 by b3.0 b3.1 a3.2; b3 -a3 by a3.0 a3.1 b3.2 => Ok(At(0))
out 0: -d0 a3 by d0.0 e0.0; -d0 by s0 d0.1 e0.1 => Ok(At(1))
# What is settled, whatever else is wrong.
merge b3 i0:  => Ok(Already(0))
merge b3 b3:  => Ok(Already(0))
out 0:  => Ok(Already(1))
outapart 0: 11 => Ok(Already(1))
outspent 0 9:  => Ok(Already(1))
# But not what isn't there.
merge b3 i9:  => Err(Bad(NoNode))
# No Apart is settled.
apart a3 i0: 10 => Ok(At(2))
apart a3 i0: 10 => Ok(At(3))
apart b3 i0: 10 => Ok(At(4))
# An Out's unit, which no step may cite, and clauses that an Apart and a Merge don't have.
merge a3 i0: -a3 i0 by e1.0; a3 -i0 by a3.2 => Err(Bad(Step(0, BadStep { hint: 1, why: NoClause })))
merge a3 i0: -a3 i0 by e2.0; a3 -i0 by a3.2 => Err(Bad(Step(0, BadStep { hint: 1, why: NoClause })))
merge a3 i0: -a3 i0 by e0.2; a3 -i0 by a3.2 => Err(Bad(Step(0, BadStep { hint: 1, why: NoClause })))
";

static OF_ANDS: Offerings = Offerings(&[
    (false, OFFERS),
    (false, NAMES_AND_SIZES),
    (false, STEPS),
    (false, PAIRS),
    (false, SETTLED),
]);

#[test]
fn offers(rt: HostRuntime) {
    let alloc = rt.alloc();
    check(&rt, alloc, swapped_ands(&rt, alloc), &OF_ANDS);
}

/// Logs of one clause.
const LOGS: &str = "\
# Counts, entries that were seen, and what is to be earlier, by all else good.
spent a5 -b5 0: -b5 -a5 i0 by b5.1 b4.2 a5.1 a4.2 => Err(Bad(NotEarlier))
spent b5 -a5 0: -b5 -a5 i0 by b5.1 b4.2 a5.1 a4.2; -b5 -a5 by s0 b5.0 b3.2 a5.0 a3.2 => Err(Bad(Count))
spent b5 -a5 1: -b5 -a5 i0 by b5.1 b4.2 a5.1 a4.2 => Err(Bad(Seen))
outspent 0 1: -d0 a5 i0 by d0.1 b3.0 b5.2 b4.1 a4.1 a5.2 a3.0 => Err(Bad(Seen))
# A hint too few, and clauses that aren't new.
spent b5 -a5 0: -b5 -a5 i0 by b5.1 b4.2 a5.1 => Err(Bad(Step(0, BadStep { hint: 0, why: NotFalse })))
spent b5 -a5 0: -b5 -b3 by b5.0 => Err(Bad(NotNew(0)))
outspent 0 0: -b5 -b3 by b5.0 => Err(Bad(NotNew(0)))
# Good logs.
spent b5 -a5 0: -b5 -a5 i0 by b5.1 b4.2 a5.1 a4.2 => Ok(At(0))
outspent 0 1: -d0 a5 i0 by d0.1 b3.0 b5.2 b4.1 a4.1 a5.2 a3.0 => Ok(At(1))
outspent 0 1: -d0 a5 i0 by d0.1 b3.0 b5.2 b4.1 a4.1 a5.2 a3.0 => Ok(Already(1))
";

/// Logs of two clauses, and a merge by two learned clauses.
const LONGER_LOGS: &str = "\
# The log's second clause is the first once more.
spent b5 -a5 0: -b5 -a5 i0 by b5.1 b4.2 a5.1 a4.2; -b5 -a5 i0 by b5.1 b4.2 a5.1 a4.2 => Err(Bad(NotNew(1)))
spent b5 -a5 0: -b5 -a5 i0 by b5.1 b4.2 a5.1 a4.2; -b5 -a5 by s0 b5.0 b3.2 a5.0 a3.2 => Ok(At(0))
# A step cites those before it.
merge b5 -a5: b5 a5 -i0 by b4.0 b5.2 b3.1 a3.1 a5.2 a4.0; -b5 -a5 i0 by b5.1 b4.2 a5.1 a4.2; \
    -b5 -a5 by s0 b5.0 b3.2 a5.0 a3.2; b5 a5 by s1 b3.0 b5.2 b4.1 a4.1 a5.2 a3.0 \
    => Err(Bad(Step(2, BadStep { hint: 1, why: Satisfied })))
merge b5 -a5: -b5 -a5 i0 by b5.1 b4.2 a5.1 a4.2; b5 a5 -i0 by b4.0 b5.2 b3.1 a3.1 a5.2 a4.0; \
    -b5 -a5 by s0 b5.0 b3.2 a5.0 a3.2; b5 a5 by s1 b3.0 b5.2 b4.1 a4.1 a5.2 a3.0 => Ok(At(1))
";

static OF_XORS: Offerings = Offerings(&[(false, LOGS), (true, LONGER_LOGS)]);

#[test]
fn logs_of_queries(rt: HostRuntime) {
    let alloc = rt.alloc();
    check(&rt, alloc, two_xors(&rt, alloc), &OF_XORS);
}

const A3: Node = Node::Gate(Side::A, 3);

/// A's gate, which B's is merged to.
const TARGET: Lit = Lit {
    node: A3,
    neg: false,
};

const B3: Lit = Lit {
    node: Node::Gate(Side::B, 3),
    neg: false,
};

/// Whether the miter has a variable for the literal's node.
fn is_there(net: &Net, lit: Lit) -> bool
    ensures { OnTrue result (AreThere net.now (lit ∷ [])) }
{
    net.cnf_number(lit).is_some()
}

/// The cone of b3 in the book of its merge, in order of position: each clause with its name behind it.
const CONE: &str = "\
    -a3 i0 by a3.0; -a3 i1 by a3.1; a3 -i0 -i1 by a3.2; -b3 a3 by e0.0; b3 -a3 by e0.1";

/// The clauses of b3 alone, where its merge is seen, and where it isn't.
const OF_MERGED: &str = "-b3 a3 by e0.0; b3 -a3 by e0.1";

const OF_GATE: &str = "-b3 i1 by b3.0; -b3 i0 by b3.1; b3 -i1 -i0 by b3.2";

/// Whether the clause of the name is that of the step, which has the name as its one hint.
fn is_named(named: &Named, step: &Step) -> bool {
    named.clause.lits() == step.clause.lits()
        && step.hints.len() == 1
        && step.hints.at(0) == named.by
}

/// Whether they are the clauses of the steps, in order.
fn are_named(found: &[Named], steps: &[Step]) -> bool {
    if found.len() != steps.len() {
        return false;
    }
    for i in 0..found.len() {
        if !is_named(&found[i], &steps[i]) {
            return false;
        }
    }
    true
}

/// Whether they are the clauses of the text.
pub(crate) fn are_of(rt: &impl Abort, alloc: Global, found: &[Named], text: &str) -> bool {
    are_named(found, entries::steps(rt, alloc, text).as_slice())
}

fn has_cone(rt: &impl Abort, alloc: Global, net: &Net, book: &Book) -> bool
    requires { IsLegal net.now book.now }
{
    assert!(rt; is_there(net, B3));
    let cone = book.cone(alloc, net, 1, &[B3]).expect(rt, "memory");
    are_of(rt, alloc, cone.as_slice(), CONE)
}

/// Whether b3 has the clauses of the text where so many entries are seen.
fn has_clauses(
    rt: &impl Abort,
    alloc: Global,
    net: &Net,
    book: &Book,
    seen: u64,
    text: &str,
) -> bool
    requires { IsLegal net.now book.now }
{
    assert!(rt; is_there(net, B3));
    let clauses = book.clauses_on(alloc, net, seen, &[B3]);
    are_of(rt, alloc, clauses.expect(rt, "memory").as_slice(), text)
}

const PATH: [u64; 1] = [0];

const PASSED: [Lit; 1] = [B3];

fn has_root(rt: &impl Abort, alloc: Global, book: &Book) -> bool {
    let path = book.path(alloc, B3).expect(rt, "memory");
    book.root(B3) == TARGET && path.as_slice() == PATH.as_slice()
}

/// Whether the way to the root is put into a list.
fn has_root_by(rt: &impl Abort, alloc: Global, book: &Book) -> bool {
    let mut passed = Vec::new(alloc);
    let root = book.root_by(B3, &mut passed).expect(rt, "memory");
    root == TARGET && passed.as_slice() == PASSED.as_slice()
}

/// Whether the one entry is found by its node, and nothing by another subject.
fn has_place(book: &Book) -> bool {
    book.place_on(Subject::Merged(B3.node)) == Some(0)
        && book.place_on(Subject::Merged(A3)).is_none()
        && book.place_on(Subject::Output(0)).is_none()
        && book.is_merged(B3.node)
        && !book.is_merged(A3)
        && !book.is_spent(B3.node, TARGET)
}

/// Whether the book has the one entry, its root, and the numbers of clauses.
fn has_merge(rt: &impl Abort, alloc: Global, book: &Book) -> bool {
    let entry = book.entry(0).expect(rt, "an entry");
    book.len() == 1
        && book.sweep_budget() == 1
        && book.out_budget() == 2
        && book.root(B3) == TARGET
        && entries::is_merge(rt, alloc, entry, MERGE)
}

fn is_copied(rt: &impl Abort, alloc: Global, book: &Book) -> bool {
    has_merge(rt, alloc, &book.copy(alloc).expect(rt, "memory"))
}

/// An empty book that caught up with this one.
fn caught_up(rt: &impl Abort, alloc: Global, book: &Book) -> Book {
    let mut other = Book::new(alloc, book.sweep_budget(), book.out_budget());
    other.catch_up(alloc, book).expect(rt, "memory");
    other
}

fn is_caught_up(rt: &impl Abort, alloc: Global, book: &Book) -> bool {
    has_merge(rt, alloc, &caught_up(rt, alloc, book))
}

/// Whether the first entry of a book is there, and good over another one.
fn is_first_good(alloc: Global, net: &Net, book: &Book, from: &Book) -> bool
    requires { IsLegal net.now book.now }
    ensures { OnTrue result
        (IfSome (slice_get from.now.entries 0) (λ e. IsGood net.now book.now e)
        × (0 < length from.now.entries)) }
{
    match from.entry(0) {
        Some(entry) => matches!(book.judge(alloc, net, entry), Ok(Judgement::Good)),
        None => false,
    }
}

/// Whether an empty book that takes over its entry, which both share then, is the same.
fn is_shared(rt: &impl Abort, alloc: Global, net: &Net, book: &Book) -> bool {
    let mut other = Book::new(alloc, 1, 2);
    assert!(rt; is_first_good(alloc, net, &other, book));
    let offered = other.append_shared(net, 0, book, 0).expect(rt, "memory");
    offered == Offered::At(0) && has_merge(rt, alloc, &other)
}

/// What is read of a book with the one entry that merges the swapped ANDs, and two clauses for outputs: the
/// cone of the merged gate, which has its merge's clauses and those of the gate that it stands for, and none
/// of its own; the gate's root, and the entries and the literals that lead to it; where its entry stands; a
/// copy, a book that catches up, and one that takes over the entry.
struct Readers;

impl Case for Readers {
    fn check<A: Abort>(&self, rt: &A, alloc: Global, net: &Net) {
        let book = book_of(rt, alloc, net, 2, MERGED);
        expect(rt, "the cone", has_cone(rt, alloc, net, &book));
        expect(rt, "root and path", has_root(rt, alloc, &book));
        expect(rt, "a copy", is_copied(rt, alloc, &book));
        check_more(rt, alloc, net, &book);
    }
}

fn check_more(rt: &impl Abort, alloc: Global, net: &Net, book: &Book)
    requires { IsLegal net.now book.now }
{
    let is_so = has_clauses(rt, alloc, net, book, 1, OF_MERGED);
    expect(rt, "the clauses of a merged gate", is_so);
    let is_so = has_clauses(rt, alloc, net, book, 0, OF_GATE);
    expect(rt, "the clauses of a gate", is_so);
    expect(rt, "root by a list", has_root_by(rt, alloc, book));
    expect(rt, "the place", has_place(book));
    expect(rt, "caught up", is_caught_up(rt, alloc, book));
    expect(rt, "shared", is_shared(rt, alloc, net, book));
}

#[test]
fn book_readers(rt: HostRuntime) {
    let alloc = rt.alloc();
    check(&rt, alloc, swapped_ands(&rt, alloc), &Readers);
}

const A5: Node = Node::Gate(Side::A, 5);

const B5: Node = Node::Gate(Side::B, 5);

/// A pair of two XORs whose budget of one clause was spent.
pub(crate) const SPENT: &str = "spent b5 -a5 0: -b5 -a5 i0 by b5.1 b4.2 a5.1 a4.2 => Ok(At(0))";

/// Whether the pair is known to be spent, and no other.
fn has_spent(book: &Book) -> bool {
    let (lit, other) = (
        Lit {
            node: A5,
            neg: true,
        },
        Lit {
            node: A5,
            neg: false,
        },
    );
    book.is_spent(B5, lit) && !book.is_spent(B5, other) && !book.is_merged(B5)
}

/// What is read of a book with one pair that is spent.
struct SpentPair;

impl Case for SpentPair {
    fn check<A: Abort>(&self, rt: &A, alloc: Global, net: &Net) {
        let book = book_of(rt, alloc, net, 1, SPENT);
        expect(rt, "the spent pair", has_spent(&book));
        let copy = book.copy(alloc).expect(rt, "memory");
        expect(rt, "the spent pair in a copy", has_spent(&copy));
    }
}

#[test]
fn spent_pair(rt: HostRuntime) {
    let alloc = rt.alloc();
    check(&rt, alloc, two_xors(&rt, alloc), &SpentPair);
}

/// Merges of gates of both circuits, some of them with one variable, and the entry of an output.
const OF_BOTH_SIDES: &str = "\
merge b3 -t: -b3 -t by b3.0; b3 t by t.0 => Ok(At(0))
merge a2 i0: -a2 i0 by a2.0; a2 -i0 by a2.2 => Ok(At(1))
merge a3 -t: -a3 -t by a3.0 a3.1; a3 t by t.0 => Ok(At(2))
out 1: -d1 by t.0 e2.0 e0.0 d1.0 => Ok(At(3))
merge b4 -t: -b4 -t by b4.0 b4.1; b4 t by t.0 => Ok(At(4))
";

/// The places of the gates' merges; of the last two gates there are none.
static PLACES: [(&str, Option<u64>); 6] = [
    ("b3", Some(0)),
    ("a2", Some(1)),
    ("a3", Some(2)),
    ("b4", Some(4)),
    ("b2", None),
    ("a4", None),
];

/// Whether each entry is found at its place, and nothing by other subjects.
fn has_places(rt: &impl Abort, book: &Book) -> bool {
    for (gate, place) in PLACES.as_slice() {
        let subject = Subject::Merged(entries::lit(rt, gate).node);
        if book.place_on(subject) != *place {
            return false;
        }
    }
    book.place_on(Subject::Output(1)) == Some(3) && book.place_on(Subject::Output(0)).is_none()
}

/// What is found in a book with merges on both sides is found in a copy, and in a book that catches up with it.
struct BothSides;

impl Case for BothSides {
    fn check<A: Abort>(&self, rt: &A, alloc: Global, net: &Net) {
        let book = book_of(rt, alloc, net, 1, OF_BOTH_SIDES);
        expect(rt, "the places", has_places(rt, &book));
        let copy = book.copy(alloc).expect(rt, "memory");
        expect(rt, "the places in a copy", has_places(rt, &copy));
        let other = caught_up(rt, alloc, &book);
        expect(rt, "the places that were caught up", has_places(rt, &other));
    }
}

#[test]
fn places_on_both_sides(rt: HostRuntime) {
    let alloc = rt.alloc();
    check(&rt, alloc, folds(&rt, alloc), &BothSides);
}
