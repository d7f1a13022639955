ghost use Rattle.std.specs.Prelude.{◌≡◌, ℕ, List, [], length, IfOk};
ghost use Rattle.lits.specs.Assignment.{IsSatisfiable};
ghost use Rattle.lits.specs.Same.{opposite_dim};
ghost use Rattle.dimacs_text.specs.Reading.{SpellsCnf};
ghost use Rattle.lrat_checker.specs.Text.{IsVerdictOfText};
ghost use Rattle.endings.specs.Reading.{ReadsAs};
ghost use Rattle.lrat_run.specs.Files.{clauses_in, cnf_input, proof_input};

use crate::texts::{cnf_fault, proof_fault};
use desk_port::Desk;
use dimacs_text::{Cnf, CnfErr};
use endings::{Stop, read_file};
use lrat_checker::{Verdict, check_text};
use lrat_text::LratErr;
use std::alloc::Global;

/// The formula that the CNF's file spells.
pub(crate) fn read_formula<D: Desk>(alloc: Global, desk: &mut D, name: &str) -> Result<Cnf, Stop>
    ensures { ReadsAs SpellsCnf 0 (cnf_input name.now) [] (D.state desk.old) (D.state desk.new) result }
{
    let bytes = read_file(alloc, desk, name, 0)?;
    match dimacs_text::read(alloc, bytes.as_slice()) {
        Ok(formula) => Ok(formula),
        Err(CnfErr::NoMemory) => Err(Stop::OutOfMemory),
        Err(fault) => Err(Stop::BadFile(0, cnf_fault(alloc, fault)?)),
    }
}

/// The verdict on the proof that the file holds, for this formula. No list of its lines is made.
pub(crate) fn judge_proof<D: Desk>(
    alloc: Global,
    desk: &mut D,
    name: &str,
    formula: &Cnf,
) -> Result<Verdict, Stop>
    ensures verdict { (earlier : List (List ℕ)) → clauses_in earlier ≡ length formula.now.clauses →
        ReadsAs (IsVerdictOfText formula.now.clauses) 1 (proof_input name.now) earlier
        (D.state desk.old) (D.state desk.new) result }
    ensures unsatisfiable { IfOk result (λ v. v ≡ Verdict.Refuted →
        ¬ IsSatisfiable opposite_dim formula.now.clauses) }
{
    let bytes = read_file(alloc, desk, name, 1)?;
    match check_text(alloc, formula, bytes.as_slice()) {
        Ok(verdict) => Ok(verdict),
        Err(LratErr::NoMemory) => Err(Stop::OutOfMemory),
        Err(fault) => Err(Stop::BadFile(1, proof_fault(alloc, fault)?)),
    }
}
