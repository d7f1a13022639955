ghost use Rattle.std.specs.Prelude.{◌≡◌};
ghost use Rattle.std.specs.Option.{option_map};
ghost use Rattle.lemma_book.specs.Root.{merge_of};

use lemma_book::{Book, Entry, Subject};
use lits::{Lit, Node};

/// The place of the entry that merges the node, and the literal that has the node's value.
pub(crate) fn merge_of(book: &Book, node: Node) -> Option<(u64, Lit)>
    ensures { option_map (λ m. record { entry = m.0; lit = m.1 }) result ≡ merge_of book.now.entries node }
{
    let place = book.place_on(Subject::Merged(node))?;
    match book.entry(place) {
        Some(Entry::Merge { lit, .. }) => Some((place, *lit)),
        _ => None,
    }
}
