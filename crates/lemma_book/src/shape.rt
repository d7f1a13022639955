ghost use Rattle.std.specs.Prelude.{◌≡◌, [], ◌∷◌};
ghost use Rattle.lemma_book.specs.Entry.{equal_clause, merge_clauses};
ghost use Rattle.lemma_book.specs.Good.{EndsIn, HasShape, HasCount, HasSeen};
ghost use Rattle.lemma_book.specs.Judging.{Tells};

use crate::book::Book;
use crate::entry::Entry;
use crate::sources::{negative, positive};
use lits::{Lit, Literal, Node, Step};

/// Whether the entry's steps end in the clauses that it shows.
pub(crate) fn has_shape(entry: &Entry) -> bool
    ensures { Tells (HasShape entry.now) result }
{
    match entry {
        Entry::Merge { node, lit, steps } => ends_in_merge(*node, *lit, steps.as_slice()),
        Entry::Out { output, steps } => ends_in_equal(*output, steps.as_slice()),
        Entry::Apart { .. }
        | Entry::Spent { .. }
        | Entry::OutApart { .. }
        | Entry::OutSpent { .. } => true,
    }
}

/// Whether the last two steps are the two halves of node and literal being equal, in the order in which a
/// later entry cites them.
fn ends_in_merge(node: Node, lit: Lit, steps: &[Step]) -> bool
    ensures { Tells (EndsIn (merge_clauses node lit) steps.now) result }
{
    if steps.len() < 2 {
        return false;
    }
    match &steps[steps.len() - 2..] {
        [first, second] => {
            adds(first, &[negative(node), lit]) && adds(second, &[positive(node), lit.not()])
        }
        _ => false,
    }
}

/// Whether the last step says that the output's XOR is false.
fn ends_in_equal(output: u32, steps: &[Step]) -> bool
    ensures { Tells (EndsIn (equal_clause output ∷ []) steps.now) result }
{
    if steps.is_empty() {
        return false;
    }
    match &steps[steps.len() - 1..] {
        [last] => adds(last, &[negative(Node::Xor(output))]),
        _ => false,
    }
}

/// Whether the step adds this clause.
fn adds(step: &Step, clause: &[Lit]) -> bool
    ensures { Tells (step.now.clause ≡ clause.now) result }
{
    step.clause.lits() == clause
}

/// Whether the entry's steps are within the budget, or its log is that of the whole budget.
pub(crate) fn has_count(book: &Book, entry: &Entry) -> bool
    ensures { Tells (HasCount book.now entry.now) result }
{
    match entry {
        Entry::Merge { steps, .. } => steps.len() as u64 <= book.sweep_budget() + 2,
        Entry::Spent { log, .. } => log.len() as u64 == book.sweep_budget(),
        Entry::Out { steps, .. } => steps.len() as u64 <= book.out_budget() + 2,
        Entry::OutSpent { log, .. } => log.len() as u64 == book.out_budget(),
        Entry::Apart { .. } | Entry::OutApart { .. } => true,
    }
}

/// Whether the entries are there that the entry's log is over.
pub(crate) fn has_seen(book: &Book, entry: &Entry) -> bool
    ensures { Tells (HasSeen book.now entry.now) result }
{
    match entry {
        Entry::Spent { seen, .. } | Entry::OutSpent { seen, .. } => *seen <= book.len(),
        Entry::Merge { .. } | Entry::Apart { .. } | Entry::Out { .. } | Entry::OutApart { .. } =>
            true,
    }
}
