ghost use Rattle.std.specs.Prelude.{◌≡◌, ◌++◌, IfOk, string_bytes, codes, decimal};
ghost use Rattle.lrat_run.specs.Texts.{verdict_line, cnf_fault_text, proof_fault_text};

use dimacs_text::CnfErr;
use itoa::Buffer;
use lrat_checker::Verdict;
use lrat_text::LratErr;
use std::alloc::{AllocError, Global};

/// The line of a verdict.
#[tactic(auto, unfolding(crate::specs::Texts::verdict_line))]
pub(crate) fn line_of_verdict(alloc: Global, verdict: Verdict) -> Result<String, AllocError>
    ensures { IfOk result (λ s. string_bytes s ≡ verdict_line verdict) }
{
    match verdict {
        Verdict::Refuted => String::from_str(alloc, "VERIFIED\n"),
        Verdict::NoEmpty => String::from_str(alloc, "REFUSED no empty clause\n"),
        Verdict::Bad { line, .. } => format!(in alloc; "REFUSED line {line}\n"),
    }
}

/// The text of a fault of a CNF.
#[tactic(auto, unfolding(crate::specs::Texts::cnf_fault_text))]
pub(crate) fn cnf_fault(alloc: Global, fault: CnfErr) -> Result<String, AllocError>
    ensures { IfOk result (λ s. string_bytes s ≡ cnf_fault_text fault) }
{
    match fault {
        CnfErr::BadHeader => format!(in alloc; "bad header"),
        CnfErr::BadNumber(at) => format!(in alloc; "bad number at byte {at}"),
        CnfErr::Var(n) => format!(in alloc; "variable of {n} is too large"),
        CnfErr::Count(said, found) => miscounted(alloc, said, found),
        CnfErr::Truncated(at) => format!(in alloc; "ends too early at byte {at}"),
        CnfErr::NoMemory => format!(in alloc; "out of memory"),
    }
}

/// The text of a number of clauses that isn't the announced one.
fn miscounted(alloc: Global, said: u64, found: u64) -> Result<String, AllocError>
    ensures { IfOk result (λ s. string_bytes s
        ≡ decimal said ++ codes " clauses announced, " ++ decimal found ++ codes " found") }
{
    let mut text = String::from_str(alloc, Buffer::new().format(said))?;
    text.push_str(" clauses announced, ")?;
    text.push_str(Buffer::new().format(found))?;
    text.push_str(" found")?;
    Ok(text)
}

/// The text of a fault of a proof.
#[tactic(auto, unfolding(crate::specs::Texts::proof_fault_text))]
pub(crate) fn proof_fault(alloc: Global, fault: LratErr) -> Result<String, AllocError>
    ensures { IfOk result (λ s. string_bytes s ≡ proof_fault_text fault) }
{
    match fault {
        LratErr::BadNumber(line) => format!(in alloc; "line {line}: bad number"),
        LratErr::Truncated(line) => format!(in alloc; "line {line}: ends too early"),
        LratErr::Order(line) => format!(in alloc; "line {line}: id out of order"),
        LratErr::Rat(line) => format!(in alloc; "line {line}: negative hint"),
        LratErr::NoMemory => format!(in alloc; "out of memory"),
    }
}
