ghost use Rattle.std.specs.Prelude.{◌≡◌, not};
ghost use Rattle.std.specs.List.{find};
ghost use Rattle.lits.specs.Clause.{has};
ghost use Rattle.lits.specs.Same.{same_lit, opposite};
ghost use Rattle.unit_prop.specs.Closure.{forces};
ghost use Rattle.solver_plain.specs.Effect.{HasEffects};

use lits::{Clause, Lit, Literal, LiteralSet};

/// What a clause does by unit propagation.
#[derive(Clone, Copy)]
pub(crate) enum Effect {
    /// Each of its literals is false.
    Clashes,
    /// Each of its literals but this one is false, and this one is free.
    Forces(Lit),
}

/// What the clause does where the set's literals are true; none where it does nothing.
pub(crate) fn effect_of(set: &LiteralSet<Lit>, clause: &Clause<Lit>) -> Option<Effect>
    ensures { HasEffects set.now clause.now result }
{
    let Some(lit) = first_open(set, clause) else {
        return Some(Effect::Clashes);
    };
    if !set.has(lit) && is_forced(set, clause, lit) {
        return Some(Effect::Forces(lit));
    }
    None
}

/// The first literal of the clause that isn't false.
fn first_open(set: &LiteralSet<Lit>, clause: &Clause<Lit>) -> Option<Lit>
    ensures { result ≡ find (λ l. not (has same_lit set.now (opposite l))) clause.now }
{
    clause
        .lits()
        .iter()
        .copied()
        .find(|lit| !set.has(lit.not()))
}

/// Whether each other literal of the clause is false.
fn is_forced(set: &LiteralSet<Lit>, clause: &Clause<Lit>, lit: Lit) -> bool
    ensures { result ≡ forces same_lit opposite (has same_lit set.now) clause.now lit }
{
    clause
        .lits()
        .iter()
        .all(|other| *other == lit || set.has(other.not()))
}
