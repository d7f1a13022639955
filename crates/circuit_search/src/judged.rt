ghost use Rattle.std.specs.Prelude.{◌≡◌, IfOk, IfSome};
ghost use Rattle.lemma_book.specs.Book.{IsLegal};
ghost use Rattle.lemma_book.specs.Good.{IsGood};
ghost use Rattle.circuit_search.specs.Answer.{Finds, SettlesPair};

use lemma_book::{Book, Entry, Judge, Judgement, Task};
use lits::Listed;
use netlist::Net;
use std::alloc::{AllocError, Global};

/// The entry, if it is good over the book.
pub(crate) fn judged(
    alloc: Global,
    net: &Net,
    book: &Book,
    judge: &mut Judge,
    entry: Entry,
) -> Result<Option<Entry>, AllocError>
    requires legal { IsLegal net.now book.now }
    ensures { IfOk result (λ o. IfSome o (λ e. (e ≡ entry) × IsGood net.now book.now e)) }
{
    match judge.judge(alloc, net, book, &entry)? {
        Judgement::Good => Ok(Some(entry)),
        _ => Ok(None),
    }
}

/// The entry of a pair that differs on an input, which may be one of a sieve's; none where it doesn't, or
/// where the book doesn't take the entry. The judge is lent for its memory.
pub fn apart(
    alloc: Global,
    net: &Net,
    book: &Book,
    judge: &mut Judge,
    task: &Task,
    input: Vec<bool>,
) -> Result<Option<Entry>, AllocError>
    requires legal { IsLegal net.now book.now }
    ensures { IfOk result (Finds (SettlesPair task.now) net.now book.now) }
{
    let Task { node, lit } = *task;
    let input = Listed::of(input);
    judged(alloc, net, book, judge, Entry::Apart { node, lit, input })
}
