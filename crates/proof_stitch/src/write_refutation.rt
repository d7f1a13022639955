ghost use Rattle.std.specs.Prelude.{◌≡◌, ◌+◌, ◌<◌, ℕ, IfOk, IsSome, OnOk, filter, length, true};
ghost use Rattle.netlist.specs.Miter.{miter_of};
ghost use Rattle.desk_port.specs.Pieces.{Takes};
ghost use Rattle.lemma_book.specs.Book.{IsLegal};
ghost use Rattle.proof_stitch.specs.Text.{proof_text, Stitches};
ghost use Rattle.lemma_book.specs.Entry.{has_out};
ghost use Rattle.proof_stitch.specs.Stitch.{refutation_of, IsRefutation};
ghost use Rattle.proof_stitch.specs.Trimmed.{is_addition};

use crate::by_step::ByStep;
use crate::entries::{push_entries, units};
use crate::laws;
use crate::proof_text::ProofText;
use crate::reach::{ask, reach};
use crate::shown::{shown_ids, written_count};
use crate::stitch_err::StitchErr;
use crate::written_step::new_ids;
use desk_port::{Desk, PutErr};
use lemma_book::Book;
use lits::Listed;
use lrat_text::LratStep;
use netlist::Net;
use std::alloc::Global;

/// Writes to the started file that the miter has no solution: the empty clause, shown by the outputs' units, and
/// before it what it rests on of the steps of the book's Merge and Out entries, in order. A step is deleted
/// behind the last one that cites it, unless the empty clause does. It gives the number of added clauses.
pub fn refutation<D: Desk>(
    alloc: Global,
    net: &Net,
    book: &Book,
    desk: &mut D,
) -> Result<u64, StitchErr>
    requires started { IsSome (D.state desk.old).started }
    requires legal { IsLegal net.now book.now }
    requires outs { (j : ℕ) → j < length net.now.a.outputs → has_out book.now.entries j ≡ true }
    ensures writes { Stitches (proof_text net.now (refutation_of net.now book.now.entries))
        (D.state desk.old) (D.state desk.new) (D.sizes desk.old) (D.sizes desk.new) result }
    ensures refutes { IsRefutation net.now (refutation_of net.now book.now.entries) }
    ensures count { IfOk result (λ n. n
        ≡ length (filter is_addition (refutation_of net.now book.now.entries))) }
{
    let mut lines = 0;
    refutation_counted(alloc, net, book, desk, &mut lines)
}

/// The same, which besides tells how many lines it wrote, additions and deletions.
pub fn refutation_counted<D: Desk>(
    alloc: Global,
    net: &Net,
    book: &Book,
    desk: &mut D,
    lines: &mut u64,
) -> Result<u64, StitchErr>
    requires started { IsSome (D.state desk.old).started }
    requires legal { IsLegal net.now book.now }
    requires outs { (j : ℕ) → j < length net.now.a.outputs → has_out book.now.entries j ≡ true }
    ensures writes { Stitches (proof_text net.now (refutation_of net.now book.now.entries))
        (D.state desk.old) (D.state desk.new) (D.sizes desk.old) (D.sizes desk.new) result }
    ensures refutes { IsRefutation net.now (refutation_of net.now book.now.entries) }
    ensures count { IfOk result (λ n. n
        ≡ length (filter is_addition (refutation_of net.now book.now.entries))) }
    ensures lines { OnOk result (lines.new ≡ length (refutation_of net.now book.now.entries)) }
{
    laws::refutes(net, book);
    let clauses = u64::from(net.clauses());
    let mut proof = ProofText::new(alloc, clauses)?;
    push_refutation(alloc, net, book, desk, &mut proof)?;
    *lines = proof.lines;
    let added = proof.last - clauses;
    proof.finish(desk)?;
    Ok(added)
}

/// Puts the lines of the whole proof.
fn push_refutation<D: Desk>(
    alloc: Global,
    net: &Net,
    book: &Book,
    desk: &mut D,
    proof: &mut ProofText,
) -> Result<(), PutErr>
    requires started { IsSome (D.state desk.old).started }
    requires legal { IsLegal net.now book.now }
    requires outs { (j : ℕ) → j < length net.now.a.outputs → has_out book.now.entries j ≡ true }
    requires last { proof.old.last ≡ length (miter_of net.now) }
    requires lines { proof.old.lines ≡ 0 }
    ensures takes { Takes (proof_text net.now (refutation_of net.now book.now.entries)) proof.old.pieces
        proof.new.pieces (D.state desk.old) (D.state desk.new) (D.sizes desk.old) (D.sizes desk.new) result }
    ensures started { (D.state desk.new).started ≡ (D.state desk.old).started }
    ensures last { OnOk result (proof.new.last
        ≡ length (miter_of net.now) + length (filter is_addition (refutation_of net.now book.now.entries))) }
    ensures lines { OnOk result (proof.new.lines ≡ length (refutation_of net.now book.now.entries)) }
{
    book.sweep_budget();
    book.out_budget();
    let clauses = u64::from(net.clauses());
    let shown = shown_ids(alloc, net, book)?;
    let mut hints = units(alloc, net, book, shown.as_slice())?;
    hints.push(clauses)?;
    let steps = written_count(net, book);
    let mut marks = ByStep::new(alloc, clauses, steps)?;
    ask(&mut marks, hints.as_slice());
    reach(&mut marks, net, book, shown.as_slice(), clauses + steps);
    let mut names = ByStep::new(alloc, clauses, steps)?;
    push_entries(
        alloc,
        net,
        book,
        shown.as_slice(),
        &marks,
        &mut names,
        desk,
        proof,
    )?;
    let hints = new_ids(alloc, &names, hints.as_slice())?;
    let empty = LratStep::Add {
        id: proof.last + 1,
        clause: Listed::of(Vec::new(alloc)),
        hints: Listed::of(hints),
    };
    proof.push(desk, &empty)
}
