ghost use Rattle.std.specs.Prelude.{◌≡◌, ℕ, ◌+◌, ◌<◌, ◌≤◌, ◌^◌, [], ◌∷◌, ◌++◌, Bool, List, All, IfOk, IsSome, OnOk, length, if◌then◌else◌};
ghost use Rattle.netlist.specs.Miter.{miter_of};
ghost use Rattle.lemma_book.specs.Book.{IsLegal};
ghost use Rattle.lemma_book.specs.Entry.{has_out};
ghost use Rattle.lrat_text.specs.declared.step.LratStep.{LratStep};
ghost use Rattle.proof_stitch.specs.Ids.{HasIds};
ghost use Rattle.proof_stitch.specs.Derivation.{shown_units};
ghost use Rattle.proof_stitch.specs.Progress.{Goes};
ghost use Rattle.proof_stitch.specs.Steps.{addition, additions_from};
ghost use Rattle.proof_stitch.specs.Stitch.{unit_ids, unit_in};
ghost use Rattle.proof_stitch.specs.Table.{HasMarks, IsStepId, KeepsShape};
ghost use Rattle.proof_stitch.specs.Trimmed.{reached};
ghost use Rattle.proof_stitch.specs.Written.{shown_ids, book_additions};

use crate::addition::first_shown;
use crate::by_step::ByStep;
use crate::proof_text::ProofText;
use crate::reach::UNUSED;
use crate::shown::written_steps;
use crate::written_step::write_step;
use desk_port::{Desk, PutErr};
use lemma_book::{Book, Entry, Subject};
use lits::Step;
use netlist::Net;
use std::alloc::{AllocError, Global};

/// Adds what is reached of the steps of a book's Merge and Out entries, in order, and the deletions.
pub fn push_entries<D: Desk>(
    alloc: Global,
    net: &Net,
    book: &Book,
    shown: &[u64],
    marks: &ByStep,
    names: &mut ByStep,
    desk: &mut D,
    proof: &mut ProofText,
) -> Result<(), PutErr>
    requires started { IsSome (D.state desk.old).started }
    requires legal { IsLegal net.now book.now }
    requires shown { shown.now ≡ shown_ids net.now book.now.entries }
    requires start { proof.old.last ≡ length (miter_of net.now) }
    requires marks { marks.now.clauses ≡ length (miter_of net.now) }
    requires all_marks { length (book_additions net.now book.now.entries) ≤ length marks.now.numbers.items }
    requires alike { KeepsShape marks.now names.old }
    ensures shape { KeepsShape names.old names.new }
    ensures text { (asked : ℕ → Bool) (all left : List LratStep) → HasMarks asked (reached asked all) marks.now →
        Goes (length (miter_of net.now)) asked all (book_additions net.now book.now.entries ++ left) left
        (length (miter_of net.now) + 1)
        (length (miter_of net.now) + length (book_additions net.now book.now.entries) + 1) names.old names.new
        proof.old proof.new (D.state desk.old) (D.state desk.new) (D.sizes desk.old) (D.sizes desk.new) result }
    ensures started { (D.state desk.new).started ≡ (D.state desk.old).started }
    ensures room { OnOk result (proof.new.last + 1 < 2 ^ 60) }
    ensures behind { OnOk result (proof.new.last
        ≤ length (miter_of net.now) + length (book_additions net.now book.now.entries)) }
{
    net.clauses();
    book.sweep_budget();
    book.out_budget();
    let mut first = proof.last + 1;
    for place in 0..book.len() {
        let entry = book.entry(place).unwrap();
        let steps = written_steps(entry);
        push_steps(alloc, net, shown, marks, names, first, steps, desk, proof)?;
        first += steps.len() as u64;
    }
    Ok(())
}

/// Adds what is reached of a list of steps, the first of which has that id in the whole proof.
pub fn push_steps<D: Desk>(
    alloc: Global,
    net: &Net,
    shown: &[u64],
    marks: &ByStep,
    names: &mut ByStep,
    first: u64,
    steps: &[Step],
    desk: &mut D,
    proof: &mut ProofText,
) -> Result<(), PutErr>
    requires started { IsSome (D.state desk.old).started }
    requires ids { All (HasIds net.now shown.now first) steps.now }
    requires above { marks.now.clauses < first }
    requires within { first + length steps.now ≤ marks.now.clauses + length marks.now.numbers.items + 1 }
    requires alike { KeepsShape marks.now names.old }
    requires small { first + length steps.now < 2 ^ 63 }
    requires behind { proof.old.last < first }
    ensures shape { KeepsShape names.old names.new }
    ensures text { (asked : ℕ → Bool) (all left : List LratStep) → HasMarks asked (reached asked all) marks.now →
        Goes marks.now.clauses asked all (additions_from net.now shown.now first first steps.now ++ left) left
        first (first + length steps.now) names.old names.new proof.old proof.new (D.state desk.old) (D.state desk.new)
        (D.sizes desk.old) (D.sizes desk.new) result }
    ensures started { (D.state desk.new).started ≡ (D.state desk.old).started }
    ensures behind { OnOk result (proof.new.last < first + length steps.now) }
{
    let mut id = first;
    for step in steps {
        push_step(
            alloc, net, shown, marks, names, first, id, step, desk, proof,
        )?;
        id += 1;
    }
    Ok(())
}

/// Adds a step with its deletion, if it is reached.
fn push_step<D: Desk>(
    alloc: Global,
    net: &Net,
    shown: &[u64],
    marks: &ByStep,
    names: &mut ByStep,
    first: u64,
    id: u64,
    step: &Step,
    desk: &mut D,
    proof: &mut ProofText,
) -> Result<(), PutErr>
    requires started { IsSome (D.state desk.old).started }
    requires ids { HasIds net.now shown.now first step.now }
    requires is_step { IsStepId marks.now id }
    requires alike { KeepsShape marks.now names.old }
    requires small { id < 2 ^ 63 }
    requires behind { proof.old.last < id }
    ensures shape { KeepsShape names.old names.new }
    ensures text { (asked : ℕ → Bool) (all left : List LratStep) → HasMarks asked (reached asked all) marks.now →
        Goes marks.now.clauses asked all (addition net.now shown.now first id step.now ∷ left) left id (id + 1)
        names.old names.new proof.old proof.new (D.state desk.old) (D.state desk.new) (D.sizes desk.old)
        (D.sizes desk.new) result }
    ensures started { (D.state desk.new).started ≡ (D.state desk.old).started }
    ensures behind { OnOk result (proof.new.last ≤ proof.old.last + 1) }
{
    if marks.get(id) == UNUSED {
        return Ok(());
    }
    write_step(
        alloc, net, shown, marks, names, first, id, step, desk, proof,
    )
}

/// The ids of the outputs' units in the whole proof, in order of outputs.
pub fn units(alloc: Global, net: &Net, book: &Book, shown: &[u64]) -> Result<Vec<u64>, AllocError>
    requires { shown.now ≡ shown_ids net.now book.now.entries }
    ensures { IfOk result (λ v. v.items ≡ unit_ids net.now book.now.entries) }
{
    let mut units = Vec::new(alloc);
    for output in 0..net.outputs() {
        units.push(unit(book, shown, output))?;
    }
    Ok(units)
}

/// Those of the outputs that Out entries show to be equal.
pub fn shown_units(
    alloc: Global,
    net: &Net,
    book: &Book,
    shown: &[u64],
) -> Result<Vec<u64>, AllocError>
    requires { shown.now ≡ shown_ids net.now book.now.entries }
    ensures { IfOk result (λ v. v.items ≡ shown_units net.now book.now.entries) }
{
    let mut units = Vec::new(alloc);
    for output in 0..net.outputs() {
        push_shown(book, shown, output, &mut units)?;
    }
    Ok(units)
}

/// Adds the id of an output's unit, if an Out entry shows the output to be equal.
fn push_shown(
    book: &Book,
    shown: &[u64],
    output: u32,
    units: &mut Vec<u64>,
) -> Result<(), AllocError>
    ensures { OnOk result (units.new.items ≡ units.old.items
        ++ (if has_out book.now.entries output then unit_in shown.now book.now.entries output ∷ [] else [])) }
{
    if let Some(Entry::Out { .. }) = book.about(output) {
        units.push(unit(book, shown, output))?;
    }
    Ok(())
}

/// The id of an output's unit.
fn unit(book: &Book, shown: &[u64], output: u32) -> u64
    ensures { result ≡ unit_in shown.now book.now.entries output }
{
    match book.place_on(Subject::Output(output)) {
        Some(place) => first_shown(shown, place),
        None => 0,
    }
}
