ghost use Rattle.std.specs.Prelude.{◌≡◌, ℕ, List, IfOk};
ghost use Rattle.lits.specs.Assignment.{IsSatisfiable};
ghost use Rattle.lits.specs.Dimacs.{DimacsLiteral};
ghost use Rattle.lits.specs.Same.{opposite_dim};
ghost use Rattle.lrat_text.specs.Derivation.{adds_empty, formula_live};
ghost use Rattle.lrat_checker.specs.Live.{clauses_of};
ghost use Rattle.lrat_checker.specs.Verdict.{IsVerdict};

use crate::extent::Extent;
use crate::judging::fault_over;
use crate::live::LiveClauses;
use crate::renumber::renumbered;
use crate::verdict::Verdict;
use dimacs_text::Cnf;
use lits::{Dim, Listed};
use lrat_text::{Line, LratStep, derived_lines};
use std::alloc::{AllocError, Global};
use unit_prop::StepCheck;

/// Judges each line of a proof over the clauses that are live then, at first those of the formula, whose ids
/// are their places from 1. Lines behind the empty clause are judged too. Clauses stay where they stand, and
/// are only looked up; each line takes time by the literals of its hints' clauses.
pub fn check(alloc: Global, cnf: &Cnf, lines: &[Line]) -> Result<Verdict, AllocError>
    ensures verdict { IfOk result (IsVerdict cnf.now.clauses lines.now) }
    ensures unsatisfiable { IfOk result (λ v. v ≡ Verdict.Refuted →
        ¬ IsSatisfiable opposite_dim cnf.now.clauses) }
{
    derived_lines();
    judge_by_size(alloc, cnf, lines)
}

/// Judges the lines, where the table that finds literals takes memory by the size of formula and lines.
fn judge_by_size(alloc: Global, cnf: &Cnf, lines: &[Line]) -> Result<Verdict, AllocError>
    ensures { IfOk result (IsVerdict cnf.now.clauses lines.now) }
{
    let formula = cnf.clauses.as_slice();
    if Extent::of_lines(cnf, lines).is_dense() {
        judge(alloc, formula, lines)
    } else {
        judge_renumbered(alloc, formula, lines)
    }
}

/// The same where variables may be few and great: first they get small numbers.
fn judge_renumbered(
    alloc: Global,
    formula: &[Listed<Dim>],
    lines: &[Line],
) -> Result<Verdict, AllocError>
    ensures { IfOk result (IsVerdict formula.now lines.now) }
{
    let (formula, lines) = renumbered(alloc, formula, lines)?;
    judge(alloc, formula.as_slice(), lines.as_slice())
}

/// Judges the lines of a proof. It finds a literal in one look, by a table that is as long as the greatest
/// variable. (A table of hashes took 250 times as long where literals were chosen to share a slot.)
fn judge(alloc: Global, formula: &[Listed<Dim>], lines: &[Line]) -> Result<Verdict, AllocError>
    ensures { IfOk result (IsVerdict formula.now lines.now) }
{
    let mut live = LiveClauses::of(alloc, formula)?;
    let mut steps = StepCheck::marked(alloc);
    judge_all(&mut steps, &mut live, lines)
}

/// Judges the lines of a proof of a formula whose clauses are live.
fn judge_all<'a>(
    steps: &mut StepCheck<Dim>,
    live: &mut LiveClauses<'a>,
    lines: &'a [Line],
) -> Result<Verdict, AllocError>
    ensures { IfOk result (λ v. (formula : List (List DimacsLiteral)) →
        ((id : ℕ) → clauses_of live.old id ≡ formula_live formula id) →
        IsVerdict formula lines.now v) }
{
    derived_lines();
    let mut has_empty = false;
    for line in lines {
        if let Some(fault) = fault_over(steps, live, &line.step)? {
            return Ok(Verdict::Bad {
                line: line.at,
                fault,
            });
        }
        has_empty |= adds_empty(&line.step);
        live.apply(&line.step)?;
    }
    Ok(if has_empty {
        Verdict::Refuted
    } else {
        Verdict::NoEmpty
    })
}

/// Whether the step adds the empty clause, with which a refutation ends.
pub(crate) fn adds_empty(step: &LratStep) -> bool
    ensures { result ≡ adds_empty step.now }
{
    match step {
        LratStep::Add {
            id: _,
            clause,
            hints: _,
        } => clause.is_empty(),
        LratStep::Del { ids: _ } => false,
    }
}
