ghost use Rattle.std.specs.Prelude.{◌≡◌, [], ◌∷◌, ◌++◌, map, IfOk};
ghost use Rattle.std.specs.Bool.{OnTrue, OnFalse};
ghost use Rattle.lits.specs.Clause.{IsClause};
ghost use Rattle.unit_prop.specs.Step.{IsStep};
ghost use Rattle.lits.specs.Same.{same_lit, opposite};
ghost use Rattle.unit_prop.specs.Refuter.{IsOver};
ghost use Rattle.solver_plain.specs.Formula.{clause_named};
ghost use Rattle.solver_plain.specs.Scan.{IsSound, IsFreeVariable, IsOpenClosure, ClashesFrom};
ghost use Rattle.solver_plain.specs.Search.{IsFound};

use crate::formula::Formula;
use crate::literals::negations;
use crate::scan::scan;
use lits::{Clause, Hints, Listed, Lit, Literal, LiteralSet, Step};
use std::alloc::{AllocError, Global};

/// What a search ends with.
#[derive(Drop)]
pub(crate) enum Found {
    /// The hints that make the target a step.
    Yes(Hints),
    /// A model of the base in which the target is false.
    No(Listed<Lit>),
    /// A clause that is new over the formula.
    Learned(Step),
}

/// Assumes the target false and decides variables false, one after another, until a clause is wholly
/// false or every variable has a value.
pub(crate) fn search(
    alloc: Global,
    formula: &Formula,
    target: &Clause<Lit>,
) -> Result<Found, AllocError>
    requires { IsOver formula.now.base target.now }
    ensures { IfOk result (IsFound formula.now target.now) }
{
    let mut set = negations(alloc, target.lits())?;
    match scan(alloc, formula, &mut set)? {
        Some(hints) => Ok(Found::Yes(hints)),
        None => decide_in_order(alloc, formula, target, set),
    }
}

/// Decides variables, in the order of the base, where the target's negations alone don't clash.
fn decide_in_order(
    alloc: Global,
    formula: &Formula,
    target: &Clause<Lit>,
    mut set: LiteralSet<Lit>,
) -> Result<Found, AllocError>
    requires over { IsOver formula.now.base target.now }
    requires undecided { IsOpenClosure formula.now (map opposite target.now) set }
    ensures { IfOk result (IsFound formula.now target.now) }
{
    let mut clause = Vec::from_slice(alloc, target.lits())?;
    while let Some(variable) = formula.first_free(&set) {
        clause.push(variable)?;
        if decide(alloc, formula, &mut set, variable)? {
            return Ok(Found::Learned(learned(alloc, formula, clause.as_slice())?));
        }
    }
    Ok(Found::No(formula.model(alloc, &set)?))
}

/// Decides the variable false. Whether some clause is wholly false then.
fn decide(
    alloc: Global,
    formula: &Formula,
    set: &mut LiteralSet<Lit>,
    variable: Lit,
) -> Result<bool, AllocError>
    requires sound { IsSound formula.now set.old }
    requires free { IsFreeVariable formula.now set.old variable }
    ensures clash { IfOk result (λ clashes. OnTrue clashes
        (ClashesFrom formula.now (set.old ++ opposite variable ∷ []))) }
    ensures closure { IfOk result (λ clashes. OnFalse clashes
        (IsOpenClosure formula.now (set.old ++ opposite variable ∷ []) set.new)) }
{
    set.push(variable.not())?;
    let hints = scan(alloc, formula, set)?;
    Ok(hints.is_some())
}

/// The step whose clause has these literals, the negations of all decisions.
fn learned(alloc: Global, formula: &Formula, lits: &[Lit]) -> Result<Step, AllocError>
    requires clause { IsClause same_lit opposite lits.now }
    requires over { IsOver formula.now.base lits.now }
    requires clashes { ClashesFrom formula.now (map opposite lits.now) }
    ensures clause { IfOk result (λ step. step.clause ≡ lits.now) }
    ensures step { IfOk result (λ step.
        IsStep same_lit opposite (clause_named formula.now) step.clause step.hints) }
{
    let mut set = negations(alloc, lits)?;
    let Some(hints) = scan(alloc, formula, &mut set)? else {
        unreachable!();
    };
    let clause = Clause::from_slice(alloc, lits)?;
    Ok(Step { clause, hints })
}
