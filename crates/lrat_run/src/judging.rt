ghost use Rattle.endings.specs.Writing.{Says};
ghost use Rattle.lrat_run.specs.Answers.{Judges};
ghost use Rattle.lrat_run.specs.Texts.{verdict_line};

use crate::reading::{judge_proof, read_formula};
use crate::texts::line_of_verdict;
use desk_port::Desk;
use endings::{Stop, say};
use lrat_checker::Verdict;
use std::alloc::Global;

/// Says the verdict.
fn say_verdict<D: Desk>(alloc: Global, desk: &mut D, verdict: Verdict) -> Result<(), Stop>
    ensures { Says (verdict_line verdict) (D.state desk.old) (D.state desk.new) result }
{
    let line = line_of_verdict(alloc, verdict)?;
    say(desk, line.as_bytes())
}

/// Reads the formula, then the proof, which is judged while it is read, and says the verdict.
pub(crate) fn judge<D: Desk>(
    alloc: Global,
    desk: &mut D,
    cnf: &str,
    proof: &str,
) -> Result<Verdict, Stop>
    ensures { Judges cnf.now proof.now (D.state desk.old) (D.state desk.new) result }
{
    let formula = read_formula(alloc, desk, cnf)?;
    let verdict = judge_proof(alloc, desk, proof, &formula)?;
    say_verdict(alloc, desk, verdict)?;
    Ok(verdict)
}
