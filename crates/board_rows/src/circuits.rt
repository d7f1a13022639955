//! A net of two AND gates whose fanins stand in the other order, and the entry that merges them.
ghost use Rattle.std.specs.Prelude.{IfSome};
ghost use Rattle.lemma_book.specs.Book.{IsLegal};
ghost use Rattle.lemma_book.specs.Good.{IsGood};

use lemma_book::{Book, Entry, Judgement};
use lits::{Clause, Hints, Listed, Lit, Node, Ref, Side, Step};
use netlist::Net;
use std::alloc::Global;

const A: Node = Node::Gate(Side::A, 3);

const B: Node = Node::Gate(Side::B, 3);

/// The entry that merges the gates, or one that nothing settles.
#[derive(Clone, Copy)]
pub(crate) enum Kind {
    Merge,
    Apart,
}

/// Two ANDs of two inputs, whose fanins stand in the other order; none where memory is refused.
pub(crate) fn swapped_ands(alloc: Global) -> Option<Net> {
    let (a, b) = worked_circuits::swapped_ands(alloc).ok()?;
    Net::of(alloc, a, b).ok()
}

fn step(alloc: Global, lits: &[Lit], hints: &[Ref]) -> Option<Step> {
    let clause = Clause::of(alloc, lits).ok()?;
    let hints = Hints::of(Vec::from_slice(alloc, hints).ok()?);
    Some(Step { clause, hints })
}

const TARGET: Lit = Lit {
    node: A,
    neg: false,
};

const NOT_TARGET: Lit = Lit { node: A, neg: true };

const MERGED: Lit = Lit {
    node: B,
    neg: false,
};

const NOT_MERGED: Lit = Lit { node: B, neg: true };

/// The clauses that say that both gates have one value, each with its hints.
const STEPS: [([Lit; 2], [Ref; 3]); 2] = [
    (
        [NOT_MERGED, TARGET],
        [Ref::Axiom(B, 0), Ref::Axiom(B, 1), Ref::Axiom(A, 2)],
    ),
    (
        [MERGED, NOT_TARGET],
        [Ref::Axiom(A, 0), Ref::Axiom(A, 1), Ref::Axiom(B, 2)],
    ),
];

/// The entry that merges one gate to the other; none where memory is refused.
fn merge(alloc: Global) -> Option<Entry> {
    let mut steps = Vec::new(alloc);
    for (lits, hints) in &STEPS {
        steps.push(step(alloc, lits, hints)?).ok()?;
    }
    Some(Entry::Merge {
        node: B,
        lit: TARGET,
        steps: Listed::of(steps),
    })
}

/// Whether the hints are these names, in order.
fn are_names(hints: &Hints, names: &[Ref]) -> bool {
    if hints.len() != names.len() {
        return false;
    }
    for place in 0..hints.len() {
        if hints.at(place) != names[place] {
            return false;
        }
    }
    true
}

fn is_step(step: &Step, (lits, hints): &([Lit; 2], [Ref; 3])) -> bool {
    step.clause.lits() == lits.as_slice() && are_names(&step.hints, hints)
}

fn are_steps(steps: &[Step]) -> bool {
    match steps {
        [below, above] => is_step(below, &STEPS[0]) && is_step(above, &STEPS[1]),
        _ => false,
    }
}

/// Whether the book's first entry is the one that merges the gates, with its steps.
pub(crate) fn begins_with_merge(book: &Book) -> bool {
    match book.entry(0) {
        Some(Entry::Merge { node, lit, steps }) => {
            *node == B && *lit == TARGET && are_steps(steps.as_slice())
        }
        _ => false,
    }
}

/// The entry where one gate and the first input differ; none where memory is refused.
fn apart(alloc: Global) -> Option<Entry> {
    let lit = Lit {
        node: Node::Input(0),
        neg: false,
    };
    let input = Vec::from_slice(alloc, &[true, false]).ok()?;
    Some(Entry::Apart {
        node: B,
        lit,
        input: Listed::of(input),
    })
}

fn made(alloc: Global, kind: Kind) -> Option<Entry> {
    match kind {
        Kind::Merge => merge(alloc),
        Kind::Apart => apart(alloc),
    }
}

/// An entry of the kind, if it is good over the book; none where memory is refused.
pub(crate) fn good(alloc: Global, net: &Net, book: &Book, kind: Kind) -> Option<Entry>
    requires { IsLegal net.now book.now }
    ensures { IfSome result (IsGood net.now book.now) }
{
    let entry = made(alloc, kind)?;
    match book.judge(alloc, net, &entry) {
        Ok(Judgement::Good) => Some(entry),
        _ => None,
    }
}
