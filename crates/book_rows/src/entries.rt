//! Entries as a line of text: what they say of what, a colon, and the steps, or the input's digits.
//!
//! Nodes are `t`, the constant true, `i0`, an input, `a3` or `b3`, a gate, and `d0`, whether the outputs
//! differ; a literal has a `-` where it is negated. A step is its clause, the word `by`, and the names of its
//! hints: `a3.2` is an axiom, `e0.1` a clause of an entry, `s0` an own step, `!a0` the unit of a constraint
//! of A. Numbers have one digit.

use lemma_book::Entry;
use lits::{Clause, Hints, Listed, Lit, Node, Ref, Side, Step};
use std::alloc::Global;
use std::process::Abort;

/// The text before and behind the first blank, of which the second is empty where there is none.
fn halves(text: &str) -> (&str, &str) {
    text.split_once(' ').unwrap_or((text, ""))
}

/// The entry of a line.
pub(crate) fn entry(rt: &impl Abort, alloc: Global, line: &str) -> Entry {
    let (head, body) = line.split_once(':').expect(rt, line);
    let (kind, about) = halves(head);
    match kind {
        "merge" | "apart" | "spent" => of_pair(rt, alloc, kind, halves(about), body),
        _ => of_output(rt, alloc, kind, halves(about), body),
    }
}

/// An entry about a node and, in what follows it, a literal.
fn of_pair(rt: &impl Abort, alloc: Global, kind: &str, about: (&str, &str), body: &str) -> Entry {
    let node = lit(rt, about.0).node;
    let (target, seen) = halves(about.1);
    let lit = lit(rt, target);
    match (kind, seen) {
        ("merge", "") => Entry::Merge {
            node,
            lit,
            steps: steps(rt, alloc, body),
        },
        ("apart", "") => Entry::Apart {
            node,
            lit,
            input: input(rt, alloc, body),
        },
        ("spent", _) => Entry::Spent {
            node,
            lit,
            seen: u64::from(number(seen)),
            log: steps(rt, alloc, body),
        },
        _ => refuse(rt, "no entry about a pair"),
    }
}

/// An entry about an output, by its number, and how many entries were seen.
fn of_output(rt: &impl Abort, alloc: Global, kind: &str, about: (&str, &str), body: &str) -> Entry {
    let output = u32::from(number(about.0));
    match (kind, about.1) {
        ("out", "") => Entry::Out {
            output,
            steps: steps(rt, alloc, body),
        },
        ("outapart", "") => Entry::OutApart {
            output,
            input: input(rt, alloc, body),
        },
        ("outspent", seen) => Entry::OutSpent {
            output,
            seen: u64::from(number(seen)),
            log: steps(rt, alloc, body),
        },
        _ => refuse(rt, "no kind of entry"),
    }
}

fn input(rt: &impl Abort, alloc: Global, text: &str) -> Listed<bool> {
    let mut values = Vec::new(alloc);
    for byte in text.as_bytes() {
        match byte {
            b' ' => {}
            _ => values.push(*byte == b'1').expect(rt, "memory"),
        }
    }
    Listed::of(values)
}

/// The steps of a text, which semicolons part.
pub(crate) fn steps(rt: &impl Abort, alloc: Global, text: &str) -> Listed<Step> {
    let mut steps = Vec::new(alloc);
    for part in text.split(';') {
        if let Some((clause, hints)) = part.split_once(" by") {
            steps
                .push(step(rt, alloc, clause, hints))
                .expect(rt, "memory");
        }
    }
    Listed::of(steps)
}

fn step(rt: &impl Abort, alloc: Global, clause: &str, hints: &str) -> Step {
    Step {
        clause: of_clause(rt, alloc, clause),
        hints: of_hints(rt, alloc, hints),
    }
}

/// Whether the hints are the same names, each in the same order.
fn are_same_names(hints: &Hints, others: &Hints) -> bool {
    if hints.len() != others.len() {
        return false;
    }
    for place in 0..hints.len() {
        if hints.at(place) != others.at(place) {
            return false;
        }
    }
    true
}

/// Whether both steps add one clause by the same hints.
fn is_same(step: &Step, other: &Step) -> bool {
    step.clause.lits() == other.clause.lits() && are_same_names(&step.hints, &other.hints)
}

/// Whether the steps have the same clauses by the same hints, each in the same order.
pub(crate) fn are_same(steps: &[Step], others: &[Step]) -> bool {
    if steps.len() != others.len() {
        return false;
    }
    for i in 0..steps.len() {
        if !is_same(&steps[i], &others[i]) {
            return false;
        }
    }
    true
}

/// Whether the entry is the merge of that line.
pub(crate) fn is_merge(rt: &impl Abort, alloc: Global, entry: &Entry, line: &str) -> bool {
    let (head, body) = line.split_once(':').expect(rt, line);
    let (_, about) = halves(head);
    let (merged, target) = halves(about);
    match entry {
        Entry::Merge {
            node,
            lit: found,
            steps: of_entry,
        } => {
            *node == lit(rt, merged).node
                && *found == lit(rt, target)
                && are_same(of_entry.as_slice(), steps(rt, alloc, body).as_slice())
        }
        _ => false,
    }
}

fn of_clause(rt: &impl Abort, alloc: Global, text: &str) -> Clause<Lit> {
    let mut lits = Vec::new(alloc);
    for word in text.split_whitespace() {
        lits.push(lit(rt, word)).expect(rt, "memory");
    }
    Clause::of(alloc, lits.as_slice()).expect(rt, "memory")
}

fn of_hints(rt: &impl Abort, alloc: Global, text: &str) -> Hints {
    let mut names = Vec::new(alloc);
    for word in text.split_whitespace() {
        names.push(name(rt, word.as_bytes())).expect(rt, "memory");
    }
    Hints::of(names)
}

/// The literal of a word.
pub(crate) fn lit(rt: &impl Abort, word: &str) -> Lit {
    match word.as_bytes() {
        [b'-', of_node @ ..] => Lit {
            node: node(rt, of_node),
            neg: true,
        },
        of_node => Lit {
            node: node(rt, of_node),
            neg: false,
        },
    }
}

/// Fails the test for a word that can't be read.
fn refuse(rt: &impl Abort, why: &str) -> ! {
    rt.panic(why)
}

fn node(rt: &impl Abort, word: &[u8]) -> Node {
    match word {
        [b't'] => Node::Const,
        [b'i', k] => Node::Input(u32::from(digit(*k))),
        [b'a', k] => Node::Gate(Side::A, u32::from(digit(*k))),
        [b'b', k] => Node::Gate(Side::B, u32::from(digit(*k))),
        [b'd', k] => Node::Xor(u32::from(digit(*k))),
        _ => refuse(rt, "no node"),
    }
}

fn name(rt: &impl Abort, word: &[u8]) -> Ref {
    match word {
        [b's', k] => Ref::Own(u64::from(digit(*k))),
        [b'!', b'a', k] => Ref::Bound(Side::A, u32::from(digit(*k))),
        [b'!', b'b', k] => Ref::Bound(Side::B, u32::from(digit(*k))),
        [b'e', i, b'.', k] => Ref::Entry(u64::from(digit(*i)), digit(*k)),
        [of_node @ .., b'.', k] => Ref::Axiom(node(rt, of_node), digit(*k)),
        _ => refuse(rt, "no hint"),
    }
}

/// The value of a digit.
fn number(word: &str) -> u8 {
    match word.as_bytes() {
        [k] => digit(*k),
        _ => 99,
    }
}

fn digit(byte: u8) -> u8 {
    byte.saturating_sub(b'0')
}
