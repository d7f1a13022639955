ghost use Rattle.std.specs.Prelude.{◌≡◌, ◌<◌, ◌≤◌, ◌++◌, Some, None, length, map, slice_get, IsSome, IfOk, OnOk, if◌then◌else◌};
ghost use Rattle.std.specs.List.{flat_map, AllByRecursion};
ghost use Rattle.desk_port.specs.Desk.{NoCountFalls};
ghost use Rattle.desk_port.specs.Pieces.{WritesInPieces};
ghost use Rattle.tokens.specs.Text.{ended, joined, spaced};
ghost use Rattle.keep_lemmas.specs.Kept.{renewed_hint, renewed_step};
ghost use Rattle.byte_scan.specs.declared.scan.TheConstants.{NUMBER_LIMIT};
ghost use Rattle.book_file.specs.Loaded.{number_in};
ghost use Rattle.book_file.specs.Reading.{SpellsBook};
ghost use Rattle.book_file.specs.Writing.{book_text, is_lemma, lemmas_of, numbers_from, IsSomeLegal};
ghost use Rattle.book_file.specs.Writing.{node_text, literal_text, name_text, merge_words, out_words, step_words, step_lines, lines_of};
ghost use Rattle.book_file.specs.Writing.{FitsNode, FitsName, FitsStep, FitsEntry};

use crate::loading::number_in;
use byte_scan::NUMBER_LIMIT;
use desk_port::{Desk, PutErr, put_in_pieces};
use lemma_book::{Book, Entry};
use lits::{Hints, Lit, Node, Ref, Side, Step};
use std::alloc::{AllocError, Global};
use tokens::push_number;

/// Writes the merges and equal outputs of a book to the started file, in order and numbered anew.
pub fn print<D: Desk>(alloc: Global, desk: &mut D, book: &Book) -> Result<(), PutErr>
    requires { IsSome (D.state desk.old).started }
    ensures answer { WritesInPieces (book_text book.now.entries) (D.state desk.old) (D.state desk.new)
        (D.sizes desk.old) (D.sizes desk.new) result }
    ensures counts { NoCountFalls (D.state desk.old) (D.state desk.new) }

    // What is written of a legal book is read back.
    ensures spells { OnOk result (IsSomeLegal book.now
        → SpellsBook (book_text book.now.entries) (lemmas_of book.now.entries)) }
{
    let text = text(alloc, book)?;
    put_in_pieces(alloc, desk, text.as_slice())
}

/// The text of a book.
fn text(alloc: Global, book: &Book) -> Result<Vec<u8>, AllocError>
    ensures text { IfOk result (λ v. v.items ≡ book_text book.now.entries) }
    ensures spells { OnOk result (IsSomeLegal book.now
        → SpellsBook (book_text book.now.entries) (lemmas_of book.now.entries)) }
{
    budgets_are_low(book);
    let numbers = numbers_in(alloc, book)?;
    let mut text = Vec::new(alloc);
    text.extend_from_slice(b"lemmas 1\n")?;
    push_entries(&mut text, numbers.as_slice(), book)?;
    Ok(text)
}

/// Appends the lines of the book's lemmas, whose hints name entries by these numbers.
fn push_entries(text: &mut Vec<u8>, numbers: &[Option<u64>], book: &Book) -> Result<(), AllocError>
    ensures text { OnOk result (text.new.items ≡ text.old.items
        ++ flat_map (lines_of numbers.now) book.now.entries) }
    ensures fit { OnOk result (AllByRecursion FitsEntry book.now.entries) }
{
    for place in 0..book.len() {
        push_entry(text, numbers, entry_at(book, place))?;
    }
    Ok(())
}

/// The numbers of the book's entries in the file: each lemma has the next one.
///
/// A file numbers entries below 10^18. There is no room in memory for so many numbers.
fn numbers_in(alloc: Global, book: &Book) -> Result<Vec<Option<u64>>, AllocError>
    ensures numbers { IfOk result (λ v. v.items ≡ numbers_from 0 book.now.entries) }
    ensures few { OnOk result (length book.now.entries < NUMBER_LIMIT) }
{
    if book.len() >= NUMBER_LIMIT {
        return Err(AllocError);
    }
    let mut numbers = Vec::new(alloc);
    let mut next = 0;
    for place in 0..book.len() {
        let entry = entry_at(book, place);
        numbers.push(number_of(entry, next))?;
        next += count_of(entry);
    }
    Ok(numbers)
}

/// The number of an entry, where the next one is this.
fn number_of(entry: &Entry, next: u64) -> Option<u64>
    ensures { result ≡ (if is_lemma entry.now then Some next else None) }
{
    if is_lemma(entry) { Some(next) } else { None }
}

/// How many numbers an entry has.
fn count_of(entry: &Entry) -> u64
    ensures count { result ≡ (if is_lemma entry.now then 1 else 0) }
    ensures one { result ≤ 1 }
{
    if is_lemma(entry) { 1 } else { 0 }
}

/// A law of every book, by which the steps of its entries are few. It does nothing when it runs.
fn budgets_are_low(book: &Book)
    ensures sweep { book.now.sweep_budget ≤ 1000000000 }
    ensures out { book.now.out_budget ≤ 1000000000 }
{
    let _sweep = book.sweep_budget();
    let _out = book.out_budget();
}

/// Whether the entry says that values are equal.
fn is_lemma(entry: &Entry) -> bool
    ensures { result ≡ is_lemma entry.now }
{
    matches!(entry, Entry::Merge { .. } | Entry::Out { .. })
}

/// The entry at a place that the book has.
fn entry_at(book: &Book, place: u64) -> &Entry
    requires { place < length book.now.entries }
    ensures { slice_get book.now.entries place ≡ Some result.now }
{
    match book.entry(place) {
        Some(entry) => entry,
        None => unreachable!(),
    }
}

/// Appends the lines of a lemma, whose hints name entries by these numbers; of another entry nothing.
fn push_entry(text: &mut Vec<u8>, numbers: &[Option<u64>], entry: &Entry) -> Result<(), AllocError>
    ensures text { OnOk result (text.new.items ≡ text.old.items
        ++ lines_of numbers.now entry.now) }
    ensures fits { OnOk result (FitsEntry entry.now) }
{
    match entry {
        Entry::Merge { node, lit, steps } => {
            push_merge(text, *node, *lit)?;
            push_steps(text, numbers, steps.as_slice())
        }
        Entry::Out { output, steps } => {
            push_out(text, *output)?;
            push_steps(text, numbers, steps.as_slice())
        }
        Entry::Apart { .. }
        | Entry::Spent { .. }
        | Entry::OutApart { .. }
        | Entry::OutSpent { .. } => Ok(()),
    }
}

/// Appends the first line of a merge.
fn push_merge(text: &mut Vec<u8>, node: Node, lit: Lit) -> Result<(), AllocError>
    ensures text { OnOk result (text.new.items ≡ text.old.items ++ ended (joined (merge_words node lit))) }
    ensures fits { OnOk result (FitsNode node × FitsNode lit.node) }
{
    text.extend_from_slice(b"m ")?;
    push_node(text, node)?;
    text.extend_from_slice(b" ")?;
    push_literal(text, lit)?;
    text.extend_from_slice(b"\n")
}

/// Appends the first line of an equal output.
fn push_out(text: &mut Vec<u8>, output: u32) -> Result<(), AllocError>
    ensures { OnOk result (text.new.items ≡ text.old.items ++ ended (joined (out_words output))) }
{
    text.extend_from_slice(b"o ")?;
    push_number(text, u64::from(output))?;
    text.extend_from_slice(b"\n")
}

/// Appends the lines of steps, and the line that ends their entry.
fn push_steps(text: &mut Vec<u8>, numbers: &[Option<u64>], steps: &[Step]) -> Result<(), AllocError>
    ensures text { OnOk result (text.new.items ≡ text.old.items
        ++ flat_map ended (step_lines (map (renewed_step (number_in numbers.now)) steps.now))) }
    ensures fit { OnOk result (AllByRecursion FitsStep steps.now) }
{
    for step in steps {
        push_step(text, numbers, step)?;
    }
    text.extend_from_slice(b".\n")?;
    Ok(())
}

/// Appends the line of a step.
fn push_step(text: &mut Vec<u8>, numbers: &[Option<u64>], step: &Step) -> Result<(), AllocError>
    ensures text { OnOk result (text.new.items ≡ text.old.items
        ++ ended (joined (step_words (renewed_step (number_in numbers.now) step.now)))) }
    ensures fits { OnOk result (FitsStep step.now) }
{
    text.extend_from_slice(b"s")?;
    push_literals(text, step.clause.lits())?;
    text.extend_from_slice(b" ;")?;
    push_names(text, numbers, &step.hints)?;
    text.extend_from_slice(b"\n")
}

/// Appends the literals, each with a space in front.
fn push_literals(text: &mut Vec<u8>, lits: &[Lit]) -> Result<(), AllocError>
    ensures text { OnOk result (text.new.items ≡ text.old.items ++ spaced (map literal_text lits.now)) }
    ensures fit { OnOk result (AllByRecursion (λ l. FitsNode l.node) lits.now) }
{
    for lit in lits {
        text.push(b' ')?;
        push_literal(text, *lit)?;
    }
    Ok(())
}

/// Appends the names of clauses, each with a space in front, those of entries' clauses by these numbers.
fn push_names(text: &mut Vec<u8>, numbers: &[Option<u64>], hints: &Hints) -> Result<(), AllocError>
    ensures text { OnOk result (text.new.items ≡ text.old.items
        ++ spaced (map name_text (map (renewed_hint (number_in numbers.now)) hints.now))) }
    ensures fit { OnOk result (AllByRecursion FitsName hints.now) }
{
    for place in 0..hints.len() {
        text.push(b' ')?;
        push_name(text, numbers, hints.at(place))?;
    }
    Ok(())
}

/// Appends the name of a clause.
#[tactic(auto, unfolding(crate::specs::Writing::name_text))]
fn push_name(text: &mut Vec<u8>, numbers: &[Option<u64>], hint: Ref) -> Result<(), AllocError>
    ensures text { OnOk result
        (text.new.items ≡ text.old.items ++ name_text (renewed_hint (number_in numbers.now) hint)) }
    ensures fits { OnOk result (FitsName hint) }
{
    match hint {
        Ref::Axiom(node, k) => {
            push_node(text, node)?;
            text.push(b'/')?;
            push_number(text, u64::from(k))
        }
        Ref::Entry(place, k) => {
            text.push(b'#')?;
            push_number(text, number_in(numbers, place))?;
            text.push(b'/')?;
            push_number(text, u64::from(k))
        }
        Ref::Own(k) => {
            text.push(b'@')?;
            push_number(text, k)
        }
        Ref::Bound(Side::A, k) => {
            text.extend_from_slice(b"!a")?;
            push_number(text, u64::from(k))
        }
        Ref::Bound(Side::B, k) => {
            text.extend_from_slice(b"!b")?;
            push_number(text, u64::from(k))
        }
    }
}

/// Appends the literal.
#[tactic(auto, unfolding(crate::specs::Writing::literal_text))]
fn push_literal(text: &mut Vec<u8>, lit: Lit) -> Result<(), AllocError>
    ensures text { OnOk result (text.new.items ≡ text.old.items ++ literal_text lit) }
    ensures fits { OnOk result (FitsNode lit.node) }
{
    if lit.neg {
        text.push(b'-')?;
    }
    push_node(text, lit.node)
}

/// Appends the node.
#[tactic(auto, unfolding(crate::specs::Writing::node_text))]
fn push_node(text: &mut Vec<u8>, node: Node) -> Result<(), AllocError>
    ensures text { OnOk result (text.new.items ≡ text.old.items ++ node_text node) }
    ensures fits { OnOk result (FitsNode node) }
{
    let (kind, number) = match node {
        Node::Const => return text.extend_from_slice(b"c"),
        Node::Input(index) => (b'i', index),
        Node::Gate(Side::A, variable) => (b'a', variable),
        Node::Gate(Side::B, variable) => (b'b', variable),
        Node::Xor(index) => (b'x', index),
    };
    text.push(kind)?;
    push_number(text, u64::from(number))
}
