//! Literals and clauses of the cases, read from text, and how a test says what isn't so.
//!
//! Where memory runs out, or a word is no literal, the test fails. Nothing is handed on as `None`: a panic drops
//! nothing, so that a function needs no way out at which all that it holds is dropped.
ghost use Rattle.std.specs.Prelude.{◌≡◌, true};

use lits::{Clause, Dim, Lit, Literal, Node, Side};
use std::alloc::Global;
use std::process::Abort;

/// Fails the test, with these words, unless it is so. A call costs the prover a third of an `assert!`.
pub(crate) fn expect(rt: &impl Abort, what: &str, is_so: bool)
    ensures { is_so ≡ true }
{
    assert!(rt; is_so, "{what}");
}

/// The two parts of a text, which stand before and after these words.
pub(crate) fn parts<'a>(rt: &impl Abort, text: &'a str, between: &str) -> (&'a str, &'a str) {
    text.split_once(between).expect(rt, "two parts")
}

/// A literal that a word of a text writes.
pub(crate) trait Word: Literal {
    fn read(word: &str) -> Option<Self>;
}

impl Word for Dim {
    /// As in a DIMACS file.
    fn read(word: &str) -> Option<Dim> {
        Dim::of(word.parse().ok()?)
    }
}

impl Word for Lit {
    /// A node's name, with a `-` before it where it is negated.
    fn read(word: &str) -> Option<Lit> {
        match word.strip_prefix('-') {
            Some(name) => Some(plus(node(name)?).not()),
            None => Some(plus(node(word)?)),
        }
    }
}

/// The node of a name: the digit of an input, `a3` or `b3` for a gate, `d0` for whether the outputs differ.
pub(crate) fn node(name: &str) -> Option<Node> {
    match name.as_bytes() {
        [b'a', k] => Some(Node::Gate(Side::A, digit(*k))),
        [b'b', k] => Some(Node::Gate(Side::B, digit(*k))),
        [b'd', k] => Some(Node::Xor(digit(*k))),
        [k] => Some(Node::Input(digit(*k))),
        _ => None,
    }
}

/// The value of a digit.
fn digit(byte: u8) -> u32 {
    u32::from(byte.saturating_sub(b'0'))
}

/// The node as a literal.
fn plus(node: Node) -> Lit {
    Lit { node, neg: false }
}

/// The literals of the text's words.
pub(crate) fn literals<L: Word>(rt: &impl Abort, alloc: Global, text: &str) -> Vec<L> {
    let mut lits = Vec::new(alloc);
    for word in text.split_whitespace() {
        let lit = L::read(word).expect(rt, "a literal");
        lits.push(lit).expect(rt, "memory");
    }
    lits
}

/// Whether the literals are those of the text, in order.
pub(crate) fn are<L: Word>(rt: &impl Abort, alloc: Global, lits: &[L], text: &str) -> bool {
    lits == literals(rt, alloc, text).as_slice()
}

/// The clause of the text's literals.
pub(crate) fn clause<L: Word>(rt: &impl Abort, alloc: Global, text: &str) -> Clause<L> {
    let lits = literals(rt, alloc, text);
    Clause::of(alloc, lits.as_slice()).expect(rt, "a clause")
}

/// The clauses of the text, each of which ends in a semicolon.
pub(crate) fn clauses<L: Word>(rt: &impl Abort, alloc: Global, text: &str) -> Vec<Clause<L>> {
    let mut clauses = Vec::new(alloc);
    for part in text.split_terminator(';') {
        let clause = clause(rt, alloc, part);
        clauses.push(clause).expect(rt, "memory");
    }
    clauses
}
