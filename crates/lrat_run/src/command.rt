ghost use Rattle.desk_port.specs.Desk.{NoCountFalls};
ghost use Rattle.lrat_run.specs.Answers.{AnswersLrat};

use crate::judging::judge;
use desk_port::Desk;
use endings::{Status, end};
use lrat_checker::Verdict;
use std::alloc::Global;

/// Checks the proof in the file `proof` against the CNF in the file `cnf`, and says whether it refutes it.
///
/// A fault is warned as one line before the status is answered; where the warning fails the status stays.
pub fn run<D: Desk>(alloc: Global, desk: &mut D, cnf: &str, proof: &str) -> Status
    ensures answers { AnswersLrat cnf.now proof.now (D.state desk.old) (D.state desk.new) result }
    ensures counts { NoCountFalls (D.state desk.old) (D.state desk.new) }
{
    match judge(alloc, desk, cnf, proof) {
        Ok(Verdict::Refuted) => Status::Done,
        Ok(Verdict::NoEmpty | Verdict::Bad { .. }) => Status::No,
        Err(stop) => end(alloc, desk, &[cnf, proof], &stop),
    }
}
