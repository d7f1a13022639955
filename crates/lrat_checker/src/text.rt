ghost use Rattle.std.specs.Prelude.{◌≡◌, IfOk};
ghost use Rattle.lits.specs.Assignment.{IsSatisfiable};
ghost use Rattle.lits.specs.Same.{opposite_dim};
ghost use Rattle.lrat_checker.specs.Text.{JudgesText, JudgesTextIfAny};

use crate::checking::{adds_empty, check};
use crate::extent::Extent;
use crate::judging::fault_over;
use crate::live::LiveClauses;
use crate::verdict::Verdict;
use dimacs_text::Cnf;
use lits::{Dim, Listed};
use lrat_text::{Lines, LratErr, derived_lines, read};
use std::alloc::Global;
use unit_prop::StepCheck;

/// Judges the text of a proof line by line as it is read, and says what `lrat_text::read` and then `check`
/// say. It keeps the clauses that are live, and no line, so that a proof may be far longer than what is live
/// at one time. Behind a line that is no step it goes on to read, since a fault of form comes first wherever
/// it stands.
pub fn check_text(alloc: Global, cnf: &Cnf, text: &[u8]) -> Result<Verdict, LratErr>
    ensures verdict { JudgesText cnf.now.clauses text.now result }
    ensures unsatisfiable { IfOk result (λ v. v ≡ Verdict.Refuted →
        ¬ IsSatisfiable opposite_dim cnf.now.clauses) }
{
    derived_lines();
    judge_by_reach(alloc, cnf, text)
}

/// Judges the text, where the table that finds literals takes memory by the size of formula and text.
fn judge_by_reach(alloc: Global, cnf: &Cnf, text: &[u8]) -> Result<Verdict, LratErr>
    ensures { JudgesText cnf.now.clauses text.now result }
{
    let extent = Extent::of_text(cnf, text);
    match judge_while_reading(alloc, cnf.clauses.as_slice(), text, &extent)? {
        Some(verdict) => Ok(verdict),
        None => judge_all_read(alloc, cnf, text),
    }
}

/// Reads all lines, then judges them.
fn judge_all_read(alloc: Global, cnf: &Cnf, text: &[u8]) -> Result<Verdict, LratErr>
    ensures { JudgesText cnf.now.clauses text.now result }
{
    let lines = read(alloc, text, cnf.clauses.len() as u64)?;
    let verdict = check(alloc, cnf, lines.as_slice())?;
    Ok(verdict)
}

/// Judges each line when it is read. It says nothing where a variable is too great for a table.
fn judge_while_reading(
    alloc: Global,
    formula: &[Listed<Dim>],
    text: &[u8],
    extent: &Extent,
) -> Result<Option<Verdict>, LratErr>
    ensures { JudgesTextIfAny formula.now text.now result }
{
    if !extent.is_dense() {
        return Ok(None);
    }
    let mut live = LiveClauses::of(alloc, formula)?;
    let mut steps = StepCheck::marked(alloc);
    let mut lines = Lines::new(text, formula.len() as u64);
    let mut has_empty = false;
    while let Some(line) = lines.next(alloc)? {
        if !extent.has_room(&line.step) {
            return Ok(None);
        }
        if let Some(fault) = fault_over(&mut steps, &live, &line.step)? {
            lines.skip_rest(alloc)?;
            return Ok(Some(Verdict::Bad {
                line: line.at,
                fault,
            }));
        }
        has_empty |= adds_empty(&line.step);
        live.take(line.step)?;
    }
    Ok(Some(if has_empty {
        Verdict::Refuted
    } else {
        Verdict::NoEmpty
    }))
}
