ghost use Rattle.std.specs.Prelude.{◌≡◌, ◌<◌, length, slice_get, Some, IfOk, OnOk, IfSome};
ghost use Rattle.std.specs.Option.{option_map};
ghost use Rattle.netlist_edits.specs.Edited.{edited_all, touched_by};
ghost use Rattle.lemma_book.specs.Entry.{with_last};
ghost use Rattle.lemma_book.specs.Book.{IsLegal};
ghost use Rattle.lemma_book.specs.Good.{IsGood};
ghost use Rattle.keep_lemmas.specs.Kept.{kept, handed_out, renewed};
ghost use Rattle.keep_lemmas.specs.Keeping.{kept_at, number_in, with_some};

use crate::inputs::handed_out;
use crate::renewed::{is_current, renewed};
use crate::staying::entry_stays;
use crate::touched::Touched;
use lemma_book::{Book, Entry};
use lits::Listed;
use netlist::Net;
use netlist_edits::Edit;
use std::alloc::{AllocError, Global};

/// The book of what stays of a book over the old net when that is edited to the new one, and the inputs of
/// its entries that tell something apart. Where memory is refused the book is given up.
///
/// The edits need not be free of faults one by one: what no edit touches is as it was.
pub fn keep(
    alloc: Global,
    book: Book,
    old: &Net,
    edits: &[Edit],
    new: &Net,
) -> Result<(Book, Vec<Listed<bool>>), AllocError>
    requires edited { new.now ≡ edited_all old.now edits.now }
    requires legal { IsLegal old.now book }
    ensures kept { IfOk result (λ r. r.0 ≡ kept old.now edits.now book) }
    ensures inputs { IfOk result (λ r. r.1.items ≡ handed_out book.entries) }
    ensures legal { IfOk result (λ r. IsLegal new.now r.0) }
{
    let touched = Touched::by(alloc, edits)?;
    let inputs = handed_out(alloc, &book)?;
    let kept = kept_book(alloc, &book, old, &touched, new)?;
    Ok((kept, inputs))
}

/// The book of the entries that stay.
fn kept_book(
    alloc: Global,
    book: &Book,
    old: &Net,
    touched: &Touched,
    new: &Net,
) -> Result<Book, AllocError>
    requires edited { new.now ≡ edited_all old.now touched.now }
    requires legal { IsLegal old.now book.now }
    ensures kept { IfOk result (λ b. b ≡ kept old.now touched.now book.now) }
    ensures legal { IfOk result (λ b. IsLegal new.now b) }
{
    netlist::laws::is_net(new);
    let mut numbers = Vec::new(alloc);
    let mut kept = Book::new(alloc, book.sweep_budget(), book.out_budget());
    for place in 0..book.len() {
        let known = numbers.as_slice();
        let number = keep_entry(alloc, old, touched, new, known, book, place, &mut kept)?;
        numbers.push(number)?;
    }
    Ok(kept)
}

/// The entry at a place that the book has.
pub(crate) fn entry_at(book: &Book, place: u64) -> &Entry
    requires { place < length book.now.entries }
    ensures { slice_get book.now.entries place ≡ Some result.now }
{
    match book.entry(place) {
        Some(entry) => entry,
        None => unreachable!(),
    }
}

/// Puts the entry at a place last, where it stays, and gives its new number.
fn keep_entry(
    alloc: Global,
    old: &Net,
    touched: &Touched,
    new: &Net,
    numbers: &[Option<u64>],
    book: &Book,
    place: u64,
    kept: &mut Book,
) -> Result<Option<u64>, AllocError>
    requires there { place < length book.now.entries }
    requires legal { IsLegal new.now kept.old }
    requires good { IfSome (kept_at old.now (touched_by touched.now) numbers.now book.now.entries place)
        (λ e. IsGood new.now kept.old e) }
    ensures number { IfOk result (λ o. o ≡ option_map (λ e. length kept.old.entries)
        (kept_at old.now (touched_by touched.now) numbers.now book.now.entries place)) }
    ensures kept { OnOk result (kept.new ≡ with_some kept.old
        (kept_at old.now (touched_by touched.now) numbers.now book.now.entries place)) }
    ensures legal { IsLegal new.now kept.new }
{
    let entry = entry_at(book, place);
    if entry_stays(old, touched, numbers, entry) {
        let number = kept.len();
        put(alloc, new, numbers, book, place, entry, kept)?;
        Ok(Some(number))
    } else {
        Ok(None)
    }
}

/// Puts the entry at a place last, with new numbers. Where its hints have them already, it is shared with the
/// old book, so that its steps aren't copied.
fn put(
    alloc: Global,
    net: &Net,
    numbers: &[Option<u64>],
    book: &Book,
    place: u64,
    entry: &Entry,
    kept: &mut Book,
) -> Result<(), AllocError>
    requires at { slice_get book.now.entries place ≡ Some entry.now }
    requires legal { IsLegal net.now kept.old }
    requires good { IsGood net.now kept.old (renewed (number_in numbers.now) entry.now) }
    ensures ok { OnOk result (kept.new ≡ with_last kept.old (renewed (number_in numbers.now) entry.now)) }
    ensures legal { IsLegal net.now kept.new }
{
    if is_current(numbers, entry) {
        share_last(net, book, place, entry, kept)
    } else {
        let entry = renewed(alloc, numbers, entry)?;
        put_last(alloc, net, kept, entry)
    }
}

/// Puts an entry of the old book last, shared with it.
fn share_last(
    net: &Net,
    book: &Book,
    place: u64,
    entry: &Entry,
    kept: &mut Book,
) -> Result<(), AllocError>
    requires at { slice_get book.now.entries place ≡ Some entry.now }
    requires legal { IsLegal net.now kept.old }
    requires good { IsGood net.now kept.old entry.now }
    ensures ok { OnOk result (kept.new ≡ with_last kept.old entry.now) }
    ensures legal { IsLegal net.now kept.new }
{
    let _shared = entry;
    let known = kept.len();
    match kept.append_shared(net, known, book, place) {
        Ok(_) => Ok(()),
        Err(error) => Err(error),
    }
}

/// Puts a good entry last.
fn put_last(alloc: Global, net: &Net, kept: &mut Book, entry: Entry) -> Result<(), AllocError>
    requires legal { IsLegal net.now kept.old }
    requires good { IsGood net.now kept.old entry }
    ensures ok { OnOk result (kept.new ≡ with_last kept.old entry) }
    ensures legal { IsLegal net.now kept.new }
{
    let known = kept.len();
    match kept.append(alloc, net, known, entry) {
        Ok(_) => Ok(()),
        Err((_entry, error)) => Err(error),
    }
}
