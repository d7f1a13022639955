ghost use Rattle.std.specs.Prelude.{◌≡◌, true, false, [], ◌∷◌, map, IfOk, IfSome, IfNone};
ghost use Rattle.std.specs.List.{find};
ghost use Rattle.std.specs.Option.{option_copied};
ghost use Rattle.lits.specs.Clause.{has, IsClause};
ghost use Rattle.lits.specs.Same.{same_lit, opposite};
ghost use Rattle.unit_prop.specs.Closure.{ClosureClashes, IsOpen};
ghost use Rattle.unit_prop.specs.HintScan.{IsNamed, ScansTo, asks};
ghost use Rattle.unit_prop.specs.Log.{base_clause, base_clauses};
ghost use Rattle.unit_prop.specs.Step.{IsStep, open_in};

use crate::step_check::{OpenPart, open_part};
use lits::{Clause, Hints, Lit, Literal, LiteralSet, Named, Ref, Step};
use std::alloc::{AllocError, Global};

/// The hints of a step that adds the clause over the base, or none exactly where unit propagation from the
/// negations of the clause's literals doesn't clash. Each next hint is the first clause of the base that is
/// wholly negated, or has one literal that isn't negated, and this one free; the last is the one that is
/// wholly negated.
///
/// It scans the base once for each hint, which is as fast as watching literals where a base has some ten
/// clauses.
pub fn scan(
    alloc: Global,
    base: &[Named],
    clause: &Clause<Lit>,
) -> Result<Option<Vec<Ref>>, AllocError>
    requires { IsNamed base.now }
    ensures clash { IfOk result (λ r. IfSome r (λ _.
        ClosureClashes same_lit opposite (base_clauses base.now) (map opposite clause.now))) }
    ensures open_ { IfOk result (λ r. IfNone r
        (IsOpen same_lit opposite (base_clauses base.now) (map opposite clause.now))) }
    ensures step { IfOk result (λ r. IfSome r (λ hints.
        IsStep same_lit opposite (base_clause base.now) clause.now hints.items)) }
    ensures first { IfOk result (λ r. IfSome r (λ hints.
        ScansTo base.now (map opposite clause.now) hints.items)) }
{
    let mut set = negations(alloc, clause.lits())?;
    let mut hints = Vec::new(alloc);
    loop {
        match first_asking(base, &set) {
            None => return Ok(None),
            Some(named) => {
                hints.push(named.by)?;
                match left_by(&set, &named.clause) {
                    Some(lit) => set.push(lit)?,
                    None => return Ok(Some(hints)),
                }
            }
        }
    }
}

/// The step that adds the clause of these literals over the base, which unit propagation shows; its hints are
/// those of `scan`.
pub fn scanned_step(alloc: Global, base: &[Named], lits: &[Lit]) -> Result<Step, AllocError>
    requires named { IsNamed base.now }
    requires clause { IsClause same_lit opposite lits.now }
    requires shown { ¬ IsOpen same_lit opposite (base_clauses base.now) (map opposite lits.now) }
    ensures step { IfOk result
        (λ s. (s.clause ≡ lits.now) × IsStep same_lit opposite (base_clause base.now) s.clause s.hints) }
    ensures first { IfOk result (λ s. ScansTo base.now (map opposite lits.now) s.hints) }
{
    let clause = Clause::from_slice(alloc, lits)?;
    match scan(alloc, base, &clause)? {
        Some(mut hints) => {
            // A book keeps the hints of each merge, so the room that they don't need is given back.
            hints.shrink_to_fit();
            let hints = Hints::of(hints);
            Ok(Step { clause, hints })
        }
        None => unreachable!(),
    }
}

/// The negations of the literals of a clause, in order.
fn negations(alloc: Global, clause: &[Lit]) -> Result<LiteralSet<Lit>, AllocError>
    requires { IsClause same_lit opposite clause.now }
    ensures { IfOk result (λ set. set ≡ map opposite clause.now) }
{
    let mut set = LiteralSet::new(alloc);
    for lit in clause {
        set.push(lit.not())?;
    }
    Ok(set)
}

/// The literal that a clause leaves where it asks for a hint, or none where it is wholly negated.
fn left_by(set: &LiteralSet<Lit>, clause: &Clause<Lit>) -> Option<Lit>
    requires { asks set.now clause.now ≡ true }
    ensures one { IfSome result (λ lit. open_in same_lit opposite set.now clause.now ≡ lit ∷ []) }
    ensures fresh { IfSome result (λ lit. has same_lit set.now lit ≡ false) }
    ensures none { IfNone result (open_in same_lit opposite set.now clause.now ≡ []) }
{
    match open_part(set, clause.lits()) {
        OpenPart::One(lit) => Some(lit),
        OpenPart::Nothing | OpenPart::More => None,
    }
}

/// The first clause of the base that asks for a hint where the literals of a set are true.
fn first_asking<'a>(base: &'a [Named], set: &LiteralSet<Lit>) -> Option<&'a Named>
    ensures { option_copied result ≡ find (λ n. asks set.now n.clause) base.now }
{
    base.iter().find(|named| asks(set, &named.clause))
}

/// Whether the clause asks for a hint where the literals of a set are true.
fn asks(set: &LiteralSet<Lit>, clause: &Clause<Lit>) -> bool
    ensures { result ≡ asks set.now clause.now }
{
    match open_part(set, clause.lits()) {
        OpenPart::Nothing => true,
        OpenPart::One(lit) => !set.has(lit),
        OpenPart::More => false,
    }
}
