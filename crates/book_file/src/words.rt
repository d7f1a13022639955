//! What the words of a line say: numbers, nodes, literals, and the names of clauses.
ghost use Rattle.std.specs.Prelude.{◌≡◌, ◌<◌, ◌^◌, IfSome};
ghost use Rattle.std.specs.Option.{option_map};
ghost use Rattle.book_file.specs.Words.{number_below, index_in, place_in, node_in, literal_in, axiom_in, shown_in, halves_of, bound_in, name_in};

use crate::parts::cut;
use byte_scan::NUMBER_LIMIT;
use lits::{Lit, Node, Ref, Side};
use tokens::size_in;

/// The number below the limit that the word writes: digits alone, without a leading zero.
fn number_below(limit: u64, word: &[u8]) -> Option<u64>
    ensures number { result ≡ number_below limit word.now }
    ensures range { IfSome result (λ n. n < limit) }
{
    if let [b'0', _, ..] = word {
        return None;
    }
    let size = size_in(word)?;
    if size < limit { Some(size) } else { None }
}

/// The number of an input, of a variable, of an output or of a constraint.
pub(crate) fn index_in(word: &[u8]) -> Option<u32>
    ensures { result ≡ index_in word.now }
{
    let number = number_below(1 << 32, word)?;
    Some(number as u32)
}

/// The number of an entry or of a step.
fn place_in(word: &[u8]) -> Option<u64>
    ensures { result ≡ place_in word.now }
{
    number_below(NUMBER_LIMIT, word)
}

/// The node of the word.
pub(crate) fn node_in(word: &[u8]) -> Option<Node>
    ensures { result ≡ node_in word.now }
{
    match word {
        [b'c'] => Some(Node::Const),
        [b'i', number @ ..] => Some(Node::Input(index_in(number)?)),
        [b'a', number @ ..] => Some(Node::Gate(Side::A, index_in(number)?)),
        [b'b', number @ ..] => Some(Node::Gate(Side::B, index_in(number)?)),
        [b'x', number @ ..] => Some(Node::Xor(index_in(number)?)),
        _ => None,
    }
}

/// The literal of the word.
pub(crate) fn literal_in(word: &[u8]) -> Option<Lit>
    ensures { result ≡ literal_in word.now }
{
    let (neg, of_node) = match word {
        [b'-', of_node @ ..] => (true, of_node),
        _ => (false, word),
    };
    let node = node_in(of_node)?;
    Some(Lit { node, neg })
}

/// The name of a clause that the word is.
pub(crate) fn name_in(word: &[u8]) -> Option<Ref>
    ensures { result ≡ name_in word.now }
{
    match word {
        [b'#', shown @ ..] => shown_in(shown),
        [b'@', place @ ..] => Some(Ref::Own(place_in(place)?)),
        [b'!', bound @ ..] => bound_in(bound),
        _ => axiom_in(word),
    }
}

/// The name of a clause that an entry of the file shows.
fn shown_in(word: &[u8]) -> Option<Ref>
    ensures { result ≡ shown_in word.now }
{
    let (entry, clause) = halves(word)?;
    Some(Ref::Entry(place_in(entry)?, number_below(2, clause)? as u8))
}

/// The name of the unit of a constraint.
fn bound_in(word: &[u8]) -> Option<Ref>
    ensures { result ≡ bound_in word.now }
{
    match word {
        [b'a', number @ ..] => Some(Ref::Bound(Side::A, index_in(number)?)),
        [b'b', number @ ..] => Some(Ref::Bound(Side::B, index_in(number)?)),
        _ => None,
    }
}

/// The name of a clause that defines a node.
fn axiom_in(word: &[u8]) -> Option<Ref>
    ensures { result ≡ axiom_in word.now }
{
    let (node, clause) = halves(word)?;
    Some(Ref::Axiom(node_in(node)?, number_below(256, clause)? as u8))
}

/// The two parts of a word with one slash between.
#[tactic(auto, using(crate::proofs::CutLemmas::three_no_pair))]
fn halves(word: &[u8]) -> Option<(&[u8], &[u8])>
    ensures { option_map (λ h. (h.0.now, h.1.now)) result ≡ halves_of word.now }
{
    let (before, behind) = cut(b'/', word)?;
    match cut(b'/', behind) {
        Some(_) => None,
        None => Some((before, behind)),
    }
}
