ghost use Rattle.std.specs.Prelude.{◌≡◌, Some, None, IfOk, if◌then◌else◌};
ghost use Rattle.book_file.specs.Lines.{is_clause};

use lits::{Clause, ClauseErr, Lit, Literal};
use std::alloc::{AllocError, Global};
use std::collections::BTreeSet;

/// So many literals make a clause in no time, however they were chosen.
const FEW: usize = 16;

/// The clause of the literals, if they are one: none stands twice or beside its negation.
///
/// Whoever writes a lemma file chooses them, so among more than a few one is found by an ordered set, which no
/// choice makes slow. (With the set by hashing of `Clause::of` a line of 100,000 literals that share slots took
/// minutes.)
pub(crate) fn clause_of(alloc: Global, lits: &[Lit]) -> Result<Option<Clause<Lit>>, AllocError>
    ensures { IfOk result
        (λ clause. clause ≡ (if is_clause lits.now then Some lits.now else None)) }
{
    if lits.len() <= FEW {
        clause_of_few(alloc, lits)
    } else if is_clause(alloc, lits)? {
        Ok(Some(Clause::from_slice(alloc, lits)?))
    } else {
        Ok(None)
    }
}

/// The same of a few literals.
fn clause_of_few(alloc: Global, lits: &[Lit]) -> Result<Option<Clause<Lit>>, AllocError>
    ensures { IfOk result
        (λ clause. clause ≡ (if is_clause lits.now then Some lits.now else None)) }
{
    let clause = match Clause::of(alloc, lits) {
        Ok(clause) => clause,
        Err(ClauseErr::Tautology) => return Ok(None),
        Err(ClauseErr::NoMemory) => return Err(AllocError),
    };
    if clause.lits().len() < lits.len() {
        return Ok(None);
    }
    Ok(Some(clause))
}

/// Whether no literal stands twice or beside its negation, by an ordered set of the codes of those before it.
fn is_clause(alloc: Global, lits: &[Lit]) -> Result<bool, AllocError>
    ensures { IfOk result (λ b. b ≡ is_clause lits.now) }
{
    let mut codes = BTreeSet::new(alloc);
    let mut is_one = true;
    for lit in lits {
        let opposite = lit.not().code();
        is_one &= !codes.contains(&opposite);
        is_one &= codes.insert(lit.code())?;
    }
    Ok(is_one)
}
