ghost use Rattle.std.specs.Prelude.{◌≡◌, ◌+◌, ◌<◌, ◌^◌, [], ◌++◌, All, IfOk, IsSome, OnOk, length};
ghost use Rattle.netlist.specs.Miter.{miter_of};
ghost use Rattle.lemma_book.specs.Book.{IsLegal};
ghost use Rattle.lemma_book.specs.Entry.{outputs_of};
ghost use Rattle.proof_stitch.specs.Derivation.{all_lines, is_for_logs, log_lines, span_of, spans_from, spent_log, written_lines};
ghost use Rattle.proof_stitch.specs.Ids.{HasIds};
ghost use Rattle.proof_stitch.specs.Progress.{Goes, IsAtLine};
ghost use Rattle.proof_stitch.specs.Steps.{additions_from};
ghost use Rattle.proof_stitch.specs.Table.{AreMarked, HasMarks, KeepsShape, always, named_ids};
ghost use Rattle.proof_stitch.specs.Written.{shown_ids, book_additions};

use crate::by_step::ByStep;
use crate::entries::push_steps;
use crate::proof_text::ProofText;
use crate::reach::{ALWAYS, mark, mark_hints};
use desk_port::{Desk, PutErr};
use lemma_book::{Book, Entry};
use lits::Step;
use netlist::Net;
use std::alloc::{AllocError, Global};

/// The lines of a derivation that are an output's log: the ids of its first and last clause.
#[derive(Clone, Copy, PartialEq, Eq)]
pub struct Span {
    pub output: u32,
    pub first: u64,
    pub last: u64,
}

/// The log of an output's query, if it spent its budget.
fn spent_log(book: &Book, output: u32) -> &[Step]
    ensures { result.now ≡ spent_log book.now.entries output }
{
    match book.about(output) {
        Some(Entry::OutSpent { log, .. }) => log.as_slice(),
        _ => &[],
    }
}

/// How many steps all logs have.
pub fn log_count(net: &Net, book: &Book) -> u64
    requires { IsLegal net.now book.now }
    ensures count { result ≡ length (log_lines net.now book.now.entries) }
    ensures few { result < 2 ^ 60 }
{
    net.clauses();
    book.sweep_budget();
    book.out_budget();
    let mut count = 0;
    for output in 0..net.outputs() {
        count += spent_log(book, output).len() as u64;
    }
    count
}

/// Marks the steps of all logs, and what they cite, as asked for. `first` is the id of the first of them.
pub fn ask_logs(marks: &mut ByStep, net: &Net, book: &Book, shown: &[u64], first: u64)
    requires legal { IsLegal net.now book.now }
    requires shown { shown.now ≡ shown_ids net.now book.now.entries }
    requires first { first
        ≡ length (miter_of net.now) + length (book_additions net.now book.now.entries) + 1 }
    ensures shape { KeepsShape marks.old marks.new }
    ensures marked { AreMarked (named_ids (log_lines net.now book.now.entries)) always marks.old marks.new }
{
    net.clauses();
    book.sweep_budget();
    book.out_budget();
    let mut next = first;
    for output in 0..net.outputs() {
        let log = spent_log(book, output);
        ask_steps(marks, net, shown, next, log);
        next += log.len() as u64;
    }
}

/// Marks the steps of a list, the first of which has that id, and what they cite, as asked for.
fn ask_steps(marks: &mut ByStep, net: &Net, shown: &[u64], first: u64, steps: &[Step])
    requires ids { All (HasIds net.now shown.now first) steps.now }
    requires small { first + length steps.now < 2 ^ 63 }
    ensures shape { KeepsShape marks.old marks.new }
    ensures marked { AreMarked (named_ids (additions_from net.now shown.now first first steps.now)) always
        marks.old marks.new }
{
    let mut id = first;
    for step in steps {
        mark(marks, id, ALWAYS);
        mark_hints(marks, net, shown, first, ALWAYS, &step.hints);
        id += 1;
    }
}

/// Adds the logs of a book's OutSpent entries, in order of outputs, and gives their ids. `first` is the id of
/// the first of their steps in the whole proof.
pub fn push_logs<D: Desk>(
    alloc: Global,
    net: &Net,
    book: &Book,
    shown: &[u64],
    marks: &ByStep,
    names: &mut ByStep,
    first: u64,
    desk: &mut D,
    proof: &mut ProofText,
) -> Result<Vec<Span>, PutErr>
    requires started { IsSome (D.state desk.old).started }
    requires legal { IsLegal net.now book.now }
    requires shown { shown.now ≡ shown_ids net.now book.now.entries }
    requires first { first
        ≡ length (miter_of net.now) + length (book_additions net.now book.now.entries) + 1 }
    requires alike { KeepsShape marks.now names.old }
    requires clauses { marks.now.clauses ≡ length (miter_of net.now) }
    requires room { length marks.now.numbers.items
        ≡ length (book_additions net.now book.now.entries) + length (log_lines net.now book.now.entries) }
    requires marks { HasMarks (is_for_logs net.now book.now.entries)
        (written_lines net.now book.now.entries) marks.now }
    requires at { IsAtLine (length (miter_of net.now)) (is_for_logs net.now book.now.entries)
        (all_lines net.now book.now.entries) (log_lines net.now book.now.entries) first names.old proof.old }
    requires behind { proof.old.last < first }
    ensures text { Goes (length (miter_of net.now)) (is_for_logs net.now book.now.entries)
        (all_lines net.now book.now.entries) (log_lines net.now book.now.entries) [] first
        (first + length (log_lines net.now book.now.entries)) names.old names.new proof.old proof.new
        (D.state desk.old) (D.state desk.new) (D.sizes desk.old) (D.sizes desk.new) result }
    ensures started { (D.state desk.new).started ≡ (D.state desk.old).started }
    ensures spans { IfOk result (λ spans. spans.items
        ≡ spans_from book.now.entries (proof.old.last + 1) (outputs_of net.now)) }
{
    net.clauses();
    book.sweep_budget();
    book.out_budget();
    let mut spans = Vec::new(alloc);
    let mut next = first;
    for output in 0..net.outputs() {
        let log = spent_log(book, output);
        let begin = proof.last + 1;
        push_steps(alloc, net, shown, marks, names, next, log, desk, proof)?;
        next += log.len() as u64;
        push_span(book, output, begin, proof.last, &mut spans)?;
    }
    Ok(spans)
}

/// Adds the span of an output's log from the one id to the other, if its query spent its budget.
fn push_span(
    book: &Book,
    output: u32,
    first: u64,
    last: u64,
    spans: &mut Vec<Span>,
) -> Result<(), AllocError>
    requires { last + 1 ≡ first + length (spent_log book.now.entries output) }
    ensures { OnOk result (spans.new.items
        ≡ spans.old.items ++ span_of book.now.entries first output) }
{
    if let Some(Entry::OutSpent { .. }) = book.about(output) {
        spans.push(Span {
            output,
            first,
            last,
        })?;
    }
    Ok(())
}
