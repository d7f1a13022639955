ghost use Rattle.std.specs.Prelude.{◌≡◌, ◌≤◌, ◌<◌, [], ◌∷◌, length, IfSome};
ghost use Rattle.std.specs.List.{position};
ghost use Rattle.lits.specs.Same.{same_node, opposite};
ghost use Rattle.strash_pass.specs.Coded.{bit_of, AreBits, AreMarks};

use crate::marks::{Marks, set};
use lits::{Lit, Literal, Node, Ref};

/// A clause as a word of its literals' bits, with its name.
#[derive(Clone, Copy)]
pub struct Coded {
    pub word: u64,
    pub by: Ref,
}

/// The marks where two literals are false; none where one of them has no bit.
pub fn marks_of(nodes: &[Node], one: Lit, other: Lit) -> Option<Marks>
    requires { length nodes.now ≤ 32 }
    ensures { IfSome result (AreMarks (bit_of nodes.now) (opposite one ∷ opposite other ∷ [])) }
{
    let none = Marks { yes: 0, no: 0 };
    let first = bit(nodes, one.not())?;
    let second = bit(nodes, other.not())?;
    Some(none.with(first).with(second))
}

/// The word of the literals' bits; none where one of them has none.
pub fn word_of(nodes: &[Node], lits: &[Lit]) -> Option<u64>
    requires { length nodes.now ≤ 32 }
    ensures { IfSome result (AreBits (bit_of nodes.now) lits.now) }
{
    let mut word = 0;
    for lit in lits {
        match bit(nodes, *lit) {
            Some(bit) => word = set(word, bit),
            None => return None,
        }
    }
    Some(word)
}

/// The bit of a literal.
pub fn bit(nodes: &[Node], lit: Lit) -> Option<u32>
    requires { length nodes.now ≤ 32 }
    ensures value { result ≡ bit_of nodes.now lit }
    ensures small { IfSome result (λ b. b < 64) }
{
    match place(nodes, lit.node) {
        Some(place) => Some(2 * place as u32 + if lit.neg { 1 } else { 0 }),
        None => None,
    }
}

/// The node's place among the nodes.
fn place(nodes: &[Node], node: Node) -> Option<usize>
    ensures { result ≡ position (λ n. same_node n node) nodes.now }
{
    nodes.iter().position(|other| *other == node)
}
