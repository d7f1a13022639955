ghost use Rattle.std.specs.Prelude.{◌≡◌, ◌++◌, IfOk, OnOk};
ghost use Rattle.lemma_book.specs.Entry.{answer_of};
ghost use Rattle.keep_lemmas.specs.Kept.{input_in, handed_out};

use crate::kept_book::entry_at;
use lemma_book::{Book, Entry};
use lits::Listed;
use std::alloc::{AllocError, Global};

/// The inputs of the book's `Apart` and `OutApart` entries, in order.
pub(crate) fn handed_out(alloc: Global, book: &Book) -> Result<Vec<Listed<bool>>, AllocError>
    ensures { IfOk result (λ v. v.items ≡ handed_out book.now.entries) }
{
    let mut inputs = Vec::new(alloc);
    for place in 0..book.len() {
        hand_out(alloc, &mut inputs, entry_at(book, place))?;
    }
    Ok(inputs)
}

/// Puts the input of an entry last, if it has one.
fn hand_out(alloc: Global, inputs: &mut Vec<Listed<bool>>, entry: &Entry) -> Result<(), AllocError>
    ensures { OnOk result (inputs.new.items ≡ inputs.old.items ++ input_in (answer_of entry.now)) }
{
    match entry {
        Entry::Apart { input, .. } | Entry::OutApart { input, .. } => {
            inputs.push(Listed::of(Vec::from_slice(alloc, input.as_slice())?))?;
        }
        Entry::Merge { .. } | Entry::Spent { .. } | Entry::Out { .. } | Entry::OutSpent { .. } => {}
    }
    Ok(())
}
