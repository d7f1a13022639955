ghost use Rattle.std.specs.Prelude.{◌≡◌, [], ◌∷◌, ◌++◌, ◌||◌, IfOk, IfSome, OnOk};
ghost use Rattle.std.specs.List.{list_all};
ghost use Rattle.lits.specs.Same.{same_lit, opposite};
ghost use Rattle.unit_prop.specs.Closure.{IsOpen};
ghost use Rattle.unit_prop.specs.New.{occurs, others_negated, Lacks, IsNew};
ghost use Rattle.unit_prop.specs.Log.{base_clauses};
ghost use Rattle.lemma_book.specs.Judging.{Tells, IsFirstPlace, IsFresh};

use lits::{Clause, Lit, Literal, Named, Step};
use std::alloc::{AllocError, Global};
use unit_prop::{Closure, close_under};

/// The first of the log's clauses that isn't new over the cone and the clauses before it, or before which
/// unit propagation refutes the literal, if one is given.
///
/// A log without this could be padded with clauses that unit propagation has already, and its length would
/// say nothing of the work that was done.
pub(crate) fn first_stale(
    alloc: Global,
    cone: &[Named],
    lit: Option<Lit>,
    log: &[Step],
) -> Result<Option<u64>, AllocError>
    ensures { IfOk result (IsFirstPlace (IsFresh cone.now lit log.now)) }
{
    let mut clauses = clauses_of(alloc, cone)?;
    for (k, step) in log.iter().enumerate() {
        if !is_fresh(alloc, clauses.as_slice(), step.clause.lits(), lit)? {
            return Ok(Some(k as u64));
        }
        add_copy(&mut clauses, &step.clause)?;
    }
    Ok(None)
}

/// The clauses of a cone, without their names.
fn clauses_of(alloc: Global, cone: &[Named]) -> Result<Vec<Clause<Lit>>, AllocError>
    ensures { IfOk result (λ v. v.items ≡ base_clauses cone.now) }
{
    let mut clauses = Vec::with_capacity(alloc, cone.len())?;
    for named in cone {
        add_copy(&mut clauses, &named.clause)?;
    }
    Ok(clauses)
}

/// Puts a copy of the clause last.
fn add_copy(clauses: &mut Vec<Clause<Lit>>, clause: &Clause<Lit>) -> Result<(), AllocError>
    ensures { OnOk result (clauses.new.items ≡ clauses.old.items ++ clause.now ∷ []) }
{
    clauses.push(clause.copy()?)?;
    Ok(())
}

/// Whether the clause is new over the others, and these don't refute the literal, if one is given.
fn is_fresh(
    alloc: Global,
    clauses: &[Clause<Lit>],
    clause: &[Lit],
    lit: Option<Lit>,
) -> Result<bool, AllocError>
    ensures { IfOk result
        (Tells (IsNew same_lit opposite clauses.now clause.now
        × IfSome lit (λ l. IsOpen same_lit opposite clauses.now (l ∷ [])))) }
{
    if !is_new(alloc, clauses, clause)? {
        return Ok(false);
    }
    match lit {
        Some(lit) => is_open(alloc, clauses, lit),
        None => Ok(true),
    }
}

/// Whether unit propagation from the literal over the clauses doesn't clash.
fn is_open(alloc: Global, clauses: &[Clause<Lit>], lit: Lit) -> Result<bool, AllocError>
    ensures { IfOk result (Tells (IsOpen same_lit opposite clauses.now (lit ∷ []))) }
{
    match close_under(alloc, clauses, &[lit])? {
        Closure::Clash => Ok(false),
        Closure::Free(_) => Ok(true),
    }
}

/// Whether the clause is new over the others.
fn is_new(alloc: Global, clauses: &[Clause<Lit>], clause: &[Lit]) -> Result<bool, AllocError>
    ensures { IfOk result (Tells (IsNew same_lit opposite clauses.now clause.now)) }
{
    if !all_occur(clauses, clause) {
        return Ok(false);
    }
    for lit in clause {
        if lacks(alloc, clauses, clause, *lit)? {
            return Ok(true);
        }
    }
    Ok(false)
}

/// Whether the variable of each literal is in some of the clauses.
///
/// Else a log could say one clause again and again, each time with another variable that no clause has.
fn all_occur(clauses: &[Clause<Lit>], lits: &[Lit]) -> bool
    ensures { result ≡ list_all (occurs same_lit opposite clauses.now) lits.now }
{
    lits.iter().all(|lit| occurs_in(clauses, *lit))
}

/// Whether the literal's variable is in some of the clauses.
fn occurs_in(clauses: &[Clause<Lit>], lit: Lit) -> bool
    ensures { result ≡ occurs same_lit opposite clauses.now lit }
{
    clauses
        .iter()
        .any(|clause| clause.has(lit) || clause.has(lit.not()))
}

/// Whether unit propagation from the negations of a clause's other literals doesn't clash and doesn't
/// find this one.
fn lacks(
    alloc: Global,
    clauses: &[Clause<Lit>],
    clause: &[Lit],
    lit: Lit,
) -> Result<bool, AllocError>
    ensures { IfOk result
        (Tells (Lacks same_lit opposite clauses.now (others_negated same_lit opposite clause.now lit) lit)) }
{
    let others = others_negated(alloc, clause, lit)?;
    match close_under(alloc, clauses, others.as_slice())? {
        Closure::Clash => Ok(false),
        Closure::Free(found) => Ok(!found.as_slice().contains(&lit)),
    }
}

/// The negations of a clause's literals but for one.
fn others_negated(alloc: Global, clause: &[Lit], lit: Lit) -> Result<Vec<Lit>, AllocError>
    ensures { IfOk result (λ v. v.items ≡ others_negated same_lit opposite clause.now lit) }
{
    let mut others = Vec::new(alloc);
    for other in clause {
        if *other != lit {
            others.push(other.not())?;
        }
    }
    Ok(others)
}
