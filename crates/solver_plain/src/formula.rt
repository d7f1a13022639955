ghost use Rattle.std.specs.Prelude.{◌≡◌, [], ◌∷◌, ◌++◌, map, None, IfOk, IfNone, IfSome, OnOk, OnErr};
ghost use Rattle.std.specs.List.{AllByRecursion, find};
ghost use Rattle.lits.specs.Clause.{has};
ghost use Rattle.lits.specs.declared.literal.Lit.{Lit};
ghost use Rattle.unit_prop.specs.Log.{IsBase, base_clause, base_clauses, clauses_of, with_own};
ghost use Rattle.unit_prop.specs.Refuter.{IsOver};
ghost use Rattle.solver_plain.specs.Formula.{clause_named, clauses_in, variables_of};
ghost use Rattle.solver_plain.specs.Literals.{is_free, value_in};
ghost use Rattle.solver_plain.specs.Effect.{IsHint, AreQuiet};

use crate::effect::{Effect, effect_of};
use crate::literals::put_variables;
use lits::{Listed, Lit, Literal, LiteralSet, Named, Ref, Step};
use std::alloc::{AllocError, Global};
use std::marker::Model;

/// The clauses of a base and of the steps learned over it.
pub(crate) struct Formula {
    base: Vec<Named>,
    log: Vec<Step>,
    variables: LiteralSet<Lit>,
}

// Written out, so that a drop is one call and not one for each field at each exit of a function.
impl Drop for Formula {
    fn drop(self) {
        let Formula {
            base: _,
            log: _,
            variables: _,
        } = self;
    }
}

impl Model for Formula {
    ghost use Rattle.solver_plain.specs.Formula.{Clauses, IsFormula};

    ghost Value = { Clauses };

    ghost view = { λ f. record { base = f.base.items; log = f.log.items } };

    ghost invariant = { λ f. IsFormula f.base.items f.log.items f.variables };
}

/// A clause of a formula that unit propagation uses, by its name.
#[derive(Clone, Copy)]
pub(crate) struct Hint {
    pub(crate) by: Ref,
    pub(crate) effect: Effect,
}

impl Formula {
    /// The formula without clauses.
    pub(crate) fn new(alloc: Global) -> Formula
        ensures { result ≡ record { base = []; log = [] } }
    {
        Formula {
            base: Vec::new(alloc),
            log: Vec::new(alloc),
            variables: LiteralSet::new(alloc),
        }
    }

    /// The formula of a base, with nothing learned yet.
    pub(crate) fn of(alloc: Global, base: &[Named]) -> Result<Formula, AllocError>
        requires { IsBase base.now }
        ensures { IfOk result (λ f. f ≡ record { base = base.now; log = [] }) }
    {
        let mut variables = LiteralSet::new(alloc);
        let mut copies = Vec::with_capacity(alloc, base.len())?;
        for named in base {
            put_variables(&mut variables, named.clause.lits())?;
            let clause = named.clause.copy()?;
            copies.push(Named {
                clause,
                by: named.by,
            })?;
        }
        Ok(Formula {
            base: copies,
            log: Vec::new(alloc),
            variables,
        })
    }

    /// The steps learned so far.
    pub(crate) fn log(&self) -> &[Step]
        ensures { result.now ≡ self.now.log }
    {
        self.log.as_slice()
    }

    /// Puts a learned step last.
    pub(crate) fn learn(&mut self, step: Step) -> Result<(), AllocError>
        requires { IsOver self.old.base step.clause }
        ensures ok { OnOk result
            (self.new ≡ record { base = self.old.base; log = self.old.log ++ step ∷ [] }) }
        ensures err { OnErr result (self.new ≡ self.old) }
    {
        self.log.push(step)?;
        Ok(())
    }

    /// The first clause, of the base and then of the log, that does something under the set.
    pub(crate) fn next_hint(&self, set: &LiteralSet<Lit>) -> Option<Hint>
        ensures hint { IfSome result (IsHint (clause_named self.now) set.now) }
        ensures quiet { IfNone result (AreQuiet set.now (clauses_in self.now)) }
        ensures over { AllByRecursion (IsOver self.now.base) (clauses_in self.now) }
    {
        next_hint(self.base.as_slice(), self.log.as_slice(), set)
    }

    /// The first variable of the base that the set leaves open.
    pub(crate) fn first_free(&self, set: &LiteralSet<Lit>) -> Option<Lit>
        ensures { result ≡ find (is_free set.now) (variables_of self.now.base) }
    {
        self.variables
            .lits()
            .iter()
            .copied()
            .find(|variable| !set.has(*variable) && !set.has(variable.not()))
    }

    /// The value of each variable of the base in the set.
    pub(crate) fn model(
        &self,
        alloc: Global,
        set: &LiteralSet<Lit>,
    ) -> Result<Listed<Lit>, AllocError>
        ensures { IfOk result
            (λ model. model ≡ map (value_in set.now) (variables_of self.now.base)) }
    {
        let values = values_in(alloc, set, self.variables.lits())?;
        Ok(Listed::of(values))
    }
}

fn values_in(alloc: Global, set: &LiteralSet<Lit>, lits: &[Lit]) -> Result<Vec<Lit>, AllocError>
    ensures { IfOk result (λ values. values.items ≡ map (value_in set.now) lits.now) }
{
    lits.iter().map(|lit| value_in(set, *lit)).collect(alloc)
}

/// The literal where the set has it, else its negation.
fn value_in(set: &LiteralSet<Lit>, lit: Lit) -> Lit
    ensures { result ≡ value_in set.now lit }
{
    if set.has(lit) { lit } else { lit.not() }
}

/// The first clause that does something. The base goes before the log, so that hints don't lean on learned
/// clauses where the base alone would do.
fn next_hint(base: &[Named], log: &[Step], set: &LiteralSet<Lit>) -> Option<Hint>
    requires { IsBase base.now }
    ensures hint { IfSome result (IsHint (with_own (base_clause base.now) log.now) set.now) }
    ensures quiet { IfNone result (AreQuiet set.now (clauses_of base.now log.now)) }
{
    match hint_in_base(base, set) {
        Some(hint) => Some(hint),
        None => hint_in_log(log, set),
    }
}

fn hint_in_base(base: &[Named], set: &LiteralSet<Lit>) -> Option<Hint>
    requires { IsBase base.now }
    ensures hint { IfSome result (IsHint (base_clause base.now) set.now) }
    ensures quiet { IfNone result (AreQuiet set.now (base_clauses base.now)) }
{
    for named in base {
        if let Some(effect) = effect_of(set, &named.clause) {
            return Some(Hint {
                by: named.by,
                effect,
            });
        }
    }
    None
}

fn hint_in_log(log: &[Step], set: &LiteralSet<Lit>) -> Option<Hint>
    ensures hint { IfSome result (IsHint (with_own (λ _. None) log.now) set.now) }
    ensures quiet { IfNone result (AreQuiet set.now (map (λ s. s.clause) log.now)) }
{
    for (place, step) in log.iter().enumerate() {
        if let Some(effect) = effect_of(set, &step.clause) {
            return Some(Hint {
                by: Ref::Own(place as u64),
                effect,
            });
        }
    }
    None
}
