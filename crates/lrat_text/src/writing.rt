ghost use Rattle.std.specs.Prelude.{◌≡◌, ◌++◌, ◌∷◌, OnOk, OnErr, decimal, map};
ghost use Rattle.std.specs.List.{AllByRecursion};
ghost use Rattle.tokens.specs.Text.{literal_text, spaced, Begins, IsInRange};
ghost use Rattle.lrat_text.specs.Writing.{ended_ids, line_text, LiteralsFit};

use crate::step::LratStep;
use lits::Dim;
use std::alloc::AllocError;
use tokens::push_number;

/// Appends the line of a step, with its LF. An addition begins with its id, and a deletion with `last`, by
/// convention the id of the last addition.
pub fn push_line(buf: &mut Vec<u8>, last: u64, step: &LratStep) -> Result<(), AllocError>
    ensures ok { OnOk result (buf.new.items ≡ buf.old.items ++ line_text last step.now) }
    ensures err { OnErr result (buf.new.items ≡ buf.old.items) }

    // As every `Dim` is; a writer needs it for what the line spells.
    ensures literals { OnOk result (LiteralsFit step.now) }
{
    let length = buf.len();
    let written = append_line(buf, last, step);
    if written.is_err() {
        buf.truncate(length);
    }
    written
}

/// Appends the line. Where memory is refused a first part of it may stand, which the caller takes back.
fn append_line(buf: &mut Vec<u8>, last: u64, step: &LratStep) -> Result<(), AllocError>
    ensures ok { OnOk result (buf.new.items ≡ buf.old.items ++ line_text last step.now) }
    ensures err { OnErr result (Begins buf.old.items buf.new.items) }
    ensures literals { OnOk result (LiteralsFit step.now) }
{
    match step {
        LratStep::Add { id, clause, hints } => {
            append_addition(buf, *id, clause.as_slice(), hints.as_slice())
        }
        LratStep::Del { ids } => append_deletion(buf, last, ids.as_slice()),
    }
}

/// Appends the line of an addition: its id, the clause and a 0, then the hints.
fn append_addition(
    buf: &mut Vec<u8>,
    id: u64,
    clause: &[Dim],
    hints: &[u64],
) -> Result<(), AllocError>
    ensures ok { OnOk result (buf.new.items ≡ buf.old.items ++ (decimal id
        ++ (spaced (map literal_text clause.now) ++ 32 ∷ 48 ∷ ended_ids hints.now))) }
    ensures err { OnErr result (Begins buf.old.items buf.new.items) }
    ensures literals { OnOk result (AllByRecursion IsInRange clause.now) }
{
    push_number(buf, id)?;
    push_literals(buf, clause)?;
    buf.extend_from_slice(b" 0")?;
    end_ids(buf, hints)
}

/// Appends the line of a deletion: the last addition's id, a `d`, then the ids.
fn append_deletion(buf: &mut Vec<u8>, last: u64, ids: &[u64]) -> Result<(), AllocError>
    ensures ok { OnOk result
        (buf.new.items ≡ buf.old.items ++ (decimal last ++ 32 ∷ 100 ∷ ended_ids ids.now)) }
    ensures err { OnErr result (Begins buf.old.items buf.new.items) }
{
    push_number(buf, last)?;
    buf.extend_from_slice(b" d")?;
    end_ids(buf, ids)
}

/// Appends the ids that end a line, and its end.
fn end_ids(buf: &mut Vec<u8>, ids: &[u64]) -> Result<(), AllocError>
    ensures ok { OnOk result (buf.new.items ≡ buf.old.items ++ ended_ids ids.now) }
    ensures err { OnErr result (Begins buf.old.items buf.new.items) }
{
    push_ids(buf, ids)?;
    buf.extend_from_slice(b" 0\n")
}

/// Appends the numbers, each behind a space.
fn push_ids(buf: &mut Vec<u8>, ids: &[u64]) -> Result<(), AllocError>
    ensures ok { OnOk result (buf.new.items ≡ buf.old.items ++ spaced (map decimal ids.now)) }
    ensures err { OnErr result (Begins buf.old.items buf.new.items) }
{
    for id in ids {
        push_id(buf, *id)?;
    }
    Ok(())
}

fn push_id(buf: &mut Vec<u8>, id: u64) -> Result<(), AllocError>
    ensures ok { OnOk result (buf.new.items ≡ buf.old.items ++ 32 ∷ decimal id) }
    ensures err { OnErr result (Begins buf.old.items buf.new.items) }
{
    buf.push(b' ')?;
    push_number(buf, id)
}

/// Appends the literals, each behind a space.
fn push_literals(buf: &mut Vec<u8>, literals: &[Dim]) -> Result<(), AllocError>
    ensures ok { OnOk result
        (buf.new.items ≡ buf.old.items ++ spaced (map literal_text literals.now)) }
    ensures err { OnErr result (Begins buf.old.items buf.new.items) }
    ensures range { OnOk result (AllByRecursion IsInRange literals.now) }
{
    for literal in literals {
        push_literal(buf, *literal)?;
    }
    Ok(())
}

fn push_literal(buf: &mut Vec<u8>, literal: Dim) -> Result<(), AllocError>
    ensures ok { OnOk result (buf.new.items ≡ buf.old.items ++ 32 ∷ literal_text literal) }
    ensures err { OnErr result (Begins buf.old.items buf.new.items) }
    ensures range { OnOk result (IsInRange literal) }
{
    buf.push(b' ')?;
    tokens::push_literal(buf, literal)
}
