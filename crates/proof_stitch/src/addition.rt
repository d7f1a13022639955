ghost use Rattle.std.specs.Prelude.{◌≡◌, IfOk, IsSome, map};
ghost use Rattle.std.specs.List.{All, slice_index_or};
ghost use Rattle.netlist.specs.Miter.{numbered, cnf_number_of};
ghost use Rattle.proof_stitch.specs.Steps.{id_of};
ghost use Rattle.proof_stitch.specs.Ids.{AreNumbered, HasId};

use lits::{Dim, Hints, Lit, Ref};
use netlist::Net;
use std::alloc::{AllocError, Global};

/// The literals as numbers of the miter.
pub fn numbers(alloc: Global, net: &Net, lits: &[Lit]) -> Result<Vec<Dim>, AllocError>
    requires { AreNumbered net.now lits.now }
    ensures { IfOk result (λ v. v.items ≡ map (numbered net.now) lits.now) }
{
    let mut numbers = Vec::with_capacity(alloc, lits.len())?;
    for lit in lits {
        numbers.push(number(net, *lit))?;
    }
    Ok(numbers)
}

fn number(net: &Net, lit: Lit) -> Dim
    requires { IsSome (cnf_number_of net.now lit) }
    ensures { result ≡ numbered net.now lit }
{
    net.cnf_number(lit).unwrap()
}

/// The hints as ids in the whole proof. Each was checked when its entry came into the book, so none is without
/// an id.
pub fn ids(
    alloc: Global,
    net: &Net,
    shown: &[u64],
    first: u64,
    hints: &Hints,
) -> Result<Vec<u64>, AllocError>
    requires { All (HasId net.now shown.now first) hints.now }
    ensures { IfOk result (λ v. v.items ≡ map (id_of net.now shown.now first) hints.now) }
{
    let mut ids = Vec::with_capacity(alloc, hints.len())?;
    for place in 0..hints.len() {
        ids.push(id_of(net, shown, first, hints.at(place)))?;
    }
    Ok(ids)
}

/// The id of a name's clause in the whole proof.
pub fn id_of(net: &Net, shown: &[u64], first: u64, name: Ref) -> u64
    requires { HasId net.now shown.now first name }
    ensures { result ≡ id_of net.now shown.now first name }
{
    match name {
        Ref::Axiom(node, k) => u64::from(net.clause_number(node, k).unwrap()),
        Ref::Entry(entry, k) => first_shown(shown, entry) + u64::from(k),
        Ref::Own(k) => first + k,
        Ref::Bound(side, k) => u64::from(net.constraint_number(side, k).unwrap()),
    }
}

/// The id of the first of the clauses that an entry shows.
pub fn first_shown(shown: &[u64], entry: u64) -> u64
    ensures { result ≡ slice_index_or shown.now entry 0 }
{
    shown.get(entry as usize).copied().unwrap_or(0)
}
