//! A step that is reached, as it is written: its line, by new ids, and the deletion of what it is the last to cite.
ghost use Rattle.std.specs.Prelude.{◌≡◌, ℕ, ◌+◌, ◌<◌, ◌^◌, ◌==◌, ◌&&◌, List, IfOk, IsSome, OnOk, filter, length, map};
ghost use Rattle.std.specs.List.Sorted.{IsStrictlyIncreasing};
ghost use Rattle.netlist.specs.Miter.{numbered};
ghost use Rattle.desk_port.specs.Pieces.{Takes};
ghost use Rattle.proof_stitch.specs.Ids.{AreNumbered, HasIds};
ghost use Rattle.proof_stitch.specs.Progress.{AreLastCited, counted, step_lines};
ghost use Rattle.proof_stitch.specs.Table.{KeepsShape, IsPut, named_in, number_at};
ghost use Rattle.lrat_text.specs.Writing.{text_from};
ghost use Rattle.lrat_text.specs.declared.step.LratStep.TheVariants.{Add};
ghost use Rattle.proof_stitch.specs.Trimmed.{deletion, has_id};

use crate::addition::{ids, numbers};
use crate::by_step::ByStep;
use crate::proof_text::ProofText;
use desk_port::{Desk, PutErr};
use lits::{Listed, Lit, Step};
use lrat_text::LratStep;
use netlist::Net;
use std::alloc::{AllocError, Global};

/// Writes a step under the next new id. `id` is its id in the whole proof, and `first` that of the first step
/// of its list.
pub fn write_step<D: Desk>(
    alloc: Global,
    net: &Net,
    shown: &[u64],
    marks: &ByStep,
    names: &mut ByStep,
    first: u64,
    id: u64,
    step: &Step,
    desk: &mut D,
    proof: &mut ProofText,
) -> Result<(), PutErr>
    requires started { IsSome (D.state desk.old).started }
    requires ids { HasIds net.now shown.now first step.now }
    requires room { proof.old.last + 1 < 2 ^ 64 }
    ensures shape { KeepsShape names.old names.new }
    ensures named { IsPut id (proof.old.last + 1) names.old names.new }
    ensures takes { (gone : List ℕ) → AreLastCited net.now shown.now marks.now first id step.now gone →
        Takes (text_from proof.old.last (step_lines net.now shown.now first step.now names.new proof.old.last gone))
        proof.old.pieces proof.new.pieces (D.state desk.old) (D.state desk.new) (D.sizes desk.old) (D.sizes desk.new) result }
    ensures started { (D.state desk.new).started ≡ (D.state desk.old).started }
    ensures last { OnOk result (proof.new.last ≡ proof.old.last + 1) }
    ensures lines { OnOk result ((gone : List ℕ) → AreLastCited net.now shown.now marks.now first id step.now gone →
        counted proof.new.lines ≡ counted (proof.old.lines + 1 + length (deletion gone))) }
{
    let next = proof.last + 1;
    names.set(id, next);
    let cited = ids(alloc, net, shown, first, &step.hints)?;
    let gone = last_cited(alloc, marks, cited.as_slice(), id)?;
    let addition = renamed_addition(
        alloc,
        net,
        names,
        next,
        step.clause.lits(),
        cited.as_slice(),
    )?;
    proof.push(desk, &addition)?;
    delete(alloc, names, gone.as_slice(), desk, proof)
}

/// The addition of a clause under that new id, with the new ids of what it cites.
fn renamed_addition(
    alloc: Global,
    net: &Net,
    names: &ByStep,
    id: u64,
    clause: &[Lit],
    cited: &[u64],
) -> Result<LratStep, AllocError>
    requires { AreNumbered net.now clause.now }
    ensures { IfOk result (λ s. s
        ≡ Add id (map (numbered net.now) clause.now) (map (named_in names.now) cited.now)) }
{
    let clause = numbers(alloc, net, clause)?;
    let hints = new_ids(alloc, names, cited)?;
    Ok(LratStep::Add {
        id,
        clause: Listed::of(clause),
        hints: Listed::of(hints),
    })
}

/// Writes the deletion of some clauses, if there are any.
fn delete<D: Desk>(
    alloc: Global,
    names: &ByStep,
    gone: &[u64],
    desk: &mut D,
    proof: &mut ProofText,
) -> Result<(), PutErr>
    requires { IsSome (D.state desk.old).started }
    ensures takes { Takes (text_from proof.old.last (deletion (map (named_in names.now) gone.now)))
        proof.old.pieces proof.new.pieces (D.state desk.old) (D.state desk.new) (D.sizes desk.old) (D.sizes desk.new) result }
    ensures started { (D.state desk.new).started ≡ (D.state desk.old).started }
    ensures last { OnOk result (proof.new.last ≡ proof.old.last) }
    ensures lines { OnOk result (counted proof.new.lines
        ≡ counted (proof.old.lines + length (deletion gone.now))) }
{
    if gone.is_empty() {
        return Ok(());
    }
    let ids = new_ids(alloc, names, gone)?;
    let deletion = LratStep::Del {
        ids: Listed::of(ids),
    };
    proof.push(desk, &deletion)
}

/// The new ids of some ids.
pub fn new_ids(alloc: Global, names: &ByStep, ids: &[u64]) -> Result<Vec<u64>, AllocError>
    ensures { IfOk result (λ v. v.items ≡ map (named_in names.now) ids.now) }
{
    let mut new_ids = Vec::with_capacity(alloc, ids.len())?;
    for id in ids {
        new_ids.push(new_id(names, *id))?;
    }
    Ok(new_ids)
}

fn new_id(names: &ByStep, id: u64) -> u64
    ensures { result ≡ named_in names.now id }
{
    if id <= names.clauses {
        id
    } else {
        names.get(id)
    }
}

/// Of the steps with these ids those that the step with the id `by` is the last to cite, each once and in order.
fn last_cited(alloc: Global, marks: &ByStep, cited: &[u64], by: u64) -> Result<Vec<u64>, AllocError>
    ensures rises { IfOk result (λ v. IsStrictlyIncreasing v.items) }
    ensures members { IfOk result (λ v. (n : ℕ) →
        has_id v.items n ≡ (has_id cited.now n && (number_at marks.now n == by))) }
{
    let mut gone = used_last(alloc, marks, cited, by)?;
    gone.sort_unstable();
    gone.dedup();
    Ok(gone)
}

/// Those that bear that mark, as they come.
fn used_last(alloc: Global, marks: &ByStep, cited: &[u64], by: u64) -> Result<Vec<u64>, AllocError>
    ensures { IfOk result (λ v. v.items ≡ filter (λ n. number_at marks.now n == by) cited.now) }
{
    let mut found = Vec::new(alloc);
    for id in cited {
        if marks.get(*id) == by {
            found.push(*id)?;
        }
    }
    Ok(found)
}
