ghost use Rattle.std.specs.Prelude.{◌≡◌, IfOk};
ghost use Rattle.lits.specs.Clause.{firsts};
ghost use Rattle.lits.specs.Same.{same_dim};

use lits::{Dim, Literal};
use std::alloc::{AllocError, Global};
use std::collections::BTreeSet;

/// Among so many literals one is found by looking through them, which is as fast and needs no memory.
const FEW: usize = 16;

/// The literals of a list, each at its first place.
///
/// Whoever writes a formula chooses them, so among more than a few one is found by an ordered set, which no
/// choice makes slow. (With a table of hashes a clause of 100,000 literals that share slots took 11 seconds.)
pub(crate) fn distinct(alloc: Global, literals: &[Dim]) -> Result<Vec<Dim>, AllocError>
    ensures { IfOk result (λ kept. kept.items ≡ firsts same_dim literals.now) }
{
    if literals.len() <= FEW {
        distinct_of_few(alloc, literals)
    } else {
        distinct_of_many(alloc, literals)
    }
}

/// The same by looking through those that are kept.
fn distinct_of_few(alloc: Global, literals: &[Dim]) -> Result<Vec<Dim>, AllocError>
    ensures { IfOk result (λ kept. kept.items ≡ firsts same_dim literals.now) }
{
    let mut kept = Vec::with_capacity(alloc, literals.len())?;
    for literal in literals {
        if !kept.contains(literal) {
            kept.push(*literal)?;
        }
    }
    Ok(kept)
}

/// The same by an ordered set of the codes of those that are kept.
fn distinct_of_many(alloc: Global, literals: &[Dim]) -> Result<Vec<Dim>, AllocError>
    ensures { IfOk result (λ kept. kept.items ≡ firsts same_dim literals.now) }
{
    let mut kept = Vec::with_capacity(alloc, literals.len())?;
    let mut codes = BTreeSet::new(alloc);
    for literal in literals {
        if codes.insert(literal.code())? {
            kept.push(*literal)?;
        }
    }
    Ok(kept)
}
