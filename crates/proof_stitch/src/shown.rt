ghost use Rattle.std.specs.Prelude.{◌≡◌, ◌<◌, ◌^◌, IfOk, length};
ghost use Rattle.lemma_book.specs.Book.{IsLegal};
ghost use Rattle.proof_stitch.specs.Written.{written_steps, shown_clauses, shown_ids, book_additions};

use lemma_book::{Book, Entry};
use lits::Step;
use netlist::Net;
use std::alloc::{AllocError, Global};

/// By entry of the book, the id of the first of the clauses that the entry shows.
///
/// A step may cite any earlier entry, so the ids are kept for the whole book: eight bytes an entry.
pub fn shown_ids(alloc: Global, net: &Net, book: &Book) -> Result<Vec<u64>, AllocError>
    requires { IsLegal net.now book.now }
    ensures { IfOk result (λ v. v.items ≡ shown_ids net.now book.now.entries) }
{
    book.sweep_budget();
    book.out_budget();
    let mut shown = Vec::new(alloc);
    let mut next = u64::from(net.clauses()) + 1;
    for place in 0..book.len() {
        let entry = book.entry(place).unwrap();
        next += written_steps(entry).len() as u64;
        shown.push(next - shown_count(entry))?;
    }
    Ok(shown)
}

/// How many steps the Merge and Out entries have.
pub fn written_count(net: &Net, book: &Book) -> u64
    requires { IsLegal net.now book.now }
    ensures count { result ≡ length (book_additions net.now book.now.entries) }
    ensures few { result < 2 ^ 60 }
{
    net.clauses();
    book.sweep_budget();
    book.out_budget();
    let mut count = 0;
    for place in 0..book.len() {
        let entry = book.entry(place).unwrap();
        count += written_steps(entry).len() as u64;
    }
    count
}

/// The steps of an entry that are written.
pub fn written_steps(entry: &Entry) -> &[Step]
    ensures { result.now ≡ written_steps entry.now }
{
    match entry {
        Entry::Merge { steps, .. } | Entry::Out { steps, .. } => steps.as_slice(),
        _ => &[],
    }
}

/// How many clauses an entry shows.
fn shown_count(entry: &Entry) -> u64
    ensures { result ≡ length (shown_clauses entry.now) }
{
    match entry {
        Entry::Merge { .. } => 2,
        Entry::Out { .. } => 1,
        _ => 0,
    }
}
