ghost use Rattle.std.specs.Prelude.{◌≡◌, List, ◌++◌, map, IfOk, OnOk};
ghost use Rattle.lits.specs.Clause.{firsts};
ghost use Rattle.lits.specs.declared.literal.Lit.{Lit};
ghost use Rattle.lits.specs.Same.{same_lit, opposite};
ghost use Rattle.solver_plain.specs.Literals.{variable_of, with_lit};

use lits::{Lit, Literal, LiteralSet};
use std::alloc::{AllocError, Global};

/// The negations of the literals, each once.
pub(crate) fn negations(alloc: Global, lits: &[Lit]) -> Result<LiteralSet<Lit>, AllocError>
    ensures { IfOk result (λ set. set ≡ map opposite (firsts same_lit lits.now)) }
{
    let mut set = LiteralSet::new(alloc);
    for lit in lits {
        put(&mut set, lit.not())?;
    }
    Ok(set)
}

/// Puts the variables of the literals last that aren't there yet.
pub(crate) fn put_variables(variables: &mut LiteralSet<Lit>, lits: &[Lit]) -> Result<(), AllocError>
    ensures { (seen : List Lit) → variables.old ≡ firsts same_lit seen
        → OnOk result (variables.new ≡ firsts same_lit (seen ++ map variable_of lits.now)) }
{
    for lit in lits {
        put(variables, variable_of(*lit))?;
    }
    Ok(())
}

/// The literal without a minus sign, which stands for its variable.
fn variable_of(lit: Lit) -> Lit
    ensures { result ≡ variable_of lit }
{
    Lit {
        node: lit.node,
        neg: false,
    }
}

/// Puts a literal last, unless it is there.
fn put(set: &mut LiteralSet<Lit>, lit: Lit) -> Result<(), AllocError>
    ensures { OnOk result (set.new ≡ with_lit set.old lit) }
{
    if !set.has(lit) {
        set.push(lit)?;
    }
    Ok(())
}
