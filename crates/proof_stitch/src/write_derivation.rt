ghost use Rattle.std.specs.Prelude.{◌≡◌, ◌+◌, IfOk, IsSome, OnOk, length};
ghost use Rattle.netlist.specs.Miter.{miter_of};
ghost use Rattle.desk_port.specs.Pieces.{Takes};
ghost use Rattle.lemma_book.specs.Book.{IsLegal};
ghost use Rattle.proof_stitch.specs.Text.{proof_text, Stitches};
ghost use Rattle.proof_stitch.specs.Derivation.{AreSpans, AreWhole, IsDerivation, derivation_of, is_for_logs, log_lines, spans_of, written_lines};
ghost use Rattle.proof_stitch.specs.Table.{HasMarks};
ghost use Rattle.proof_stitch.specs.Written.{book_additions, shown_ids};

use crate::by_step::ByStep;
use crate::entries::{push_entries, shown_units};
use crate::laws;
use crate::logs::{Span, ask_logs, log_count, push_logs};
use crate::proof_text::ProofText;
use crate::reach::{ask, reach};
use crate::shown::{shown_ids, written_count};
use crate::stitch_err::StitchErr;
use desk_port::{Desk, PutErr};
use lemma_book::Book;
use netlist::Net;
use std::alloc::{AllocError, Global};

/// Writes to the started file what the book derives from the miter: the logs of its OutSpent entries in order
/// of outputs, and before them what they, and the units of its Out entries, rest on of the steps of its Merge
/// and Out entries, in order. A step is deleted behind the last of these that cites it, unless a log does or it
/// is an Out's unit. It gives the ids of the logs, output by output.
pub fn derivation<D: Desk>(
    alloc: Global,
    net: &Net,
    book: &Book,
    desk: &mut D,
) -> Result<Vec<Span>, StitchErr>
    requires started { IsSome (D.state desk.old).started }
    requires legal { IsLegal net.now book.now }
    ensures writes { Stitches (proof_text net.now (derivation_of net.now book.now.entries))
        (D.state desk.old) (D.state desk.new) (D.sizes desk.old) (D.sizes desk.new) result }
    ensures derives { IsDerivation net.now (derivation_of net.now book.now.entries) }
    ensures spans { IfOk result (λ spans. AreSpans net.now book.now.entries spans.items) }
    ensures numbers { IfOk result (λ spans. spans.items ≡ spans_of net.now book.now.entries) }

    // Each log is as long as the budget.
    ensures whole { IfOk result (λ spans. AreWhole book.now.out_budget spans.items) }
{
    let mut lines = 0;
    derivation_counted(alloc, net, book, desk, &mut lines)
}

/// The same, which besides tells how many lines it wrote, additions and deletions.
pub fn derivation_counted<D: Desk>(
    alloc: Global,
    net: &Net,
    book: &Book,
    desk: &mut D,
    lines: &mut u64,
) -> Result<Vec<Span>, StitchErr>
    requires started { IsSome (D.state desk.old).started }
    requires legal { IsLegal net.now book.now }
    ensures writes { Stitches (proof_text net.now (derivation_of net.now book.now.entries))
        (D.state desk.old) (D.state desk.new) (D.sizes desk.old) (D.sizes desk.new) result }
    ensures derives { IsDerivation net.now (derivation_of net.now book.now.entries) }
    ensures spans { IfOk result (λ spans. AreSpans net.now book.now.entries spans.items) }
    ensures numbers { IfOk result (λ spans. spans.items ≡ spans_of net.now book.now.entries) }
    ensures whole { IfOk result (λ spans. AreWhole book.now.out_budget spans.items) }
    ensures lines { OnOk result (lines.new ≡ length (derivation_of net.now book.now.entries)) }
{
    laws::derives(net, book);
    let mut proof = ProofText::new(alloc, u64::from(net.clauses()))?;
    let spans = push_derivation(alloc, net, book, desk, &mut proof)?;
    *lines = proof.lines;
    proof.finish(desk)?;
    Ok(spans)
}

/// Puts the lines of the whole derivation, and gives the ids of the logs.
fn push_derivation<D: Desk>(
    alloc: Global,
    net: &Net,
    book: &Book,
    desk: &mut D,
    proof: &mut ProofText,
) -> Result<Vec<Span>, PutErr>
    requires started { IsSome (D.state desk.old).started }
    requires legal { IsLegal net.now book.now }
    requires last { proof.old.last ≡ length (miter_of net.now) }
    requires lines { proof.old.lines ≡ 0 }
    ensures takes { Takes (proof_text net.now (derivation_of net.now book.now.entries)) proof.old.pieces
        proof.new.pieces (D.state desk.old) (D.state desk.new) (D.sizes desk.old) (D.sizes desk.new) result }
    ensures started { (D.state desk.new).started ≡ (D.state desk.old).started }
    ensures spans { IfOk result (λ spans. spans.items ≡ spans_of net.now book.now.entries) }
    ensures whole { IfOk result (λ spans. AreWhole book.now.out_budget spans.items) }
    ensures lines { OnOk result (proof.new.lines ≡ length (derivation_of net.now book.now.entries)) }
{
    net.clauses();
    book.sweep_budget();
    book.out_budget();
    let shown = shown_ids(alloc, net, book)?;
    let marks = marks_of(alloc, net, book, shown.as_slice())?;
    let mut names = ByStep::new(alloc, marks.clauses, marks.numbers.len() as u64)?;
    push_entries(
        alloc,
        net,
        book,
        shown.as_slice(),
        &marks,
        &mut names,
        desk,
        proof,
    )?;
    let first = marks.clauses + written_count(net, book) + 1;
    push_logs(
        alloc,
        net,
        book,
        shown.as_slice(),
        &marks,
        &mut names,
        first,
        desk,
        proof,
    )
}

/// The marks of all steps, those of the logs too.
fn marks_of(alloc: Global, net: &Net, book: &Book, shown: &[u64]) -> Result<ByStep, AllocError>
    requires legal { IsLegal net.now book.now }
    requires shown { shown.now ≡ shown_ids net.now book.now.entries }
    ensures clauses { IfOk result (λ t. t.clauses ≡ length (miter_of net.now)) }
    ensures count { IfOk result (λ t. length t.numbers.items
        ≡ length (book_additions net.now book.now.entries) + length (log_lines net.now book.now.entries)) }
    ensures marks { IfOk result (HasMarks (is_for_logs net.now book.now.entries)
        (written_lines net.now book.now.entries)) }
{
    let clauses = u64::from(net.clauses());
    let steps = written_count(net, book);
    let logs = log_count(net, book);
    let mut marks = ByStep::new(alloc, clauses, steps + logs)?;
    let units = shown_units(alloc, net, book, shown)?;
    ask(&mut marks, units.as_slice());
    ask_logs(&mut marks, net, book, shown, clauses + steps + 1);
    reach(&mut marks, net, book, shown, clauses + steps);
    Ok(marks)
}
