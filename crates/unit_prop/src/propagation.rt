ghost use Rattle.std.specs.Prelude.{◌≡◌, ◌++◌, [], ◌∷◌, if◌then◌else◌, OnOk, IfOk};
ghost use Rattle.lits.specs.Clause.{has};
ghost use Rattle.unit_prop.specs.Closure.{ClosesTo};
ghost use Rattle.unit_prop.specs.Propagation.{IsConsistent, AsksFor, IsFound};

use crate::step_check::{OpenPart, open_part};
use lits::{Clause, Listed, Literal, LiteralSet};
use std::alloc::{AllocError, Global};

/// What unit propagation makes of clauses and the literals that it starts from.
#[derive(Drop)]
pub enum Closure<L> {
    /// It finds a literal beside its negation, or a clause that is wholly false.
    Clash,
    /// All literals that it finds, in order.
    Free(Listed<L>),
}

/// The closure of the clauses and the literals, by one scan of the clauses for each literal found.
pub fn close_under<L: Literal>(
    alloc: Global,
    clauses: &[Clause<L>],
    lits: &[L],
) -> Result<Closure<L>, AllocError>
    ensures { IfOk result (ClosesTo L.PartialEq.eq L.Literal.opposite clauses.now lits.now) }
{
    let mut set = LiteralSet::new(alloc);
    for lit in lits {
        if set.has(lit.not()) {
            return Ok(Closure::Clash);
        }
        put(&mut set, *lit)?;
    }
    close(clauses, set)
}

/// Puts a literal last, unless it is there already.
fn put<L: Literal>(set: &mut LiteralSet<L>, lit: L) -> Result<(), AllocError>
    ensures { OnOk result
        (set.new ≡ (if has L.PartialEq.eq set.old lit then set.old else set.old ++ lit ∷ [])) }
{
    if !set.has(lit) {
        set.push(lit)?;
    }
    Ok(())
}

/// The closure of the clauses and the set.
fn close<L: Literal>(
    clauses: &[Clause<L>],
    mut set: LiteralSet<L>,
) -> Result<Closure<L>, AllocError>
    requires { IsConsistent L.PartialEq.eq L.Literal.opposite set }
    ensures { IfOk result (ClosesTo L.PartialEq.eq L.Literal.opposite clauses.now set) }
{
    loop {
        match scan(clauses, &set) {
            Found::Clash => return Ok(Closure::Clash),
            Found::Unit(lit) => set.push(lit)?,
            Found::Nothing => return Ok(Closure::Free(Listed::of(set.into_vec()))),
        }
    }
}

/// What the clauses ask for where the literals of a set are true.
enum Found<L> {
    /// One of them is wholly false.
    Clash,
    /// One of them has only this literal left, which isn't true yet.
    Unit(L),
    Nothing,
}

/// The first that a clause asks for, in the order of the clauses.
fn scan<L: Literal>(clauses: &[Clause<L>], set: &LiteralSet<L>) -> Found<L>
    ensures { IsFound L.PartialEq.eq L.Literal.opposite set.now clauses.now result }
{
    for clause in clauses {
        match ask(clause.lits(), set) {
            Found::Nothing => {}
            found => return found,
        }
    }
    Found::Nothing
}

/// What the clause asks for. A literal that is true already is nothing new, or the closure would not end.
fn ask<L: Literal>(clause: &[L], set: &LiteralSet<L>) -> Found<L>
    ensures { AsksFor L.PartialEq.eq L.Literal.opposite set.now clause.now result }
{
    match open_part(set, clause) {
        OpenPart::Nothing => Found::Clash,
        OpenPart::One(lit) => {
            if set.has(lit) {
                Found::Nothing
            } else {
                Found::Unit(lit)
            }
        }
        OpenPart::More => Found::Nothing,
    }
}
