ghost use Rattle.std.specs.Prelude.{◌≡◌, ◌++◌, ◌<◌, ◌≤◌, IfOk, OnOk, length, map};
ghost use Rattle.lits.specs.Clause.{IsClause};
ghost use Rattle.netlist.specs.Miter.{axioms_of, miter_of, numbered, positive, unit};
ghost use Rattle.lits.specs.Same.{same_lit, opposite};
ghost use Rattle.netlist.specs.Miter.{xors_of};
ghost use Rattle.netlist.specs.Net.{IsNet, bounds_on};
ghost use Rattle.netlist.specs.Numbered.{AreThere};

use crate::pair::CircuitPair;
use lits::{Clause, Dim, Lit, Literal, Node, Side};
use std::alloc::{AllocError, Global};

/// The clauses of the miter: those that define each node, in the order of the variables, then those that the
/// constraints are true, and last the clause that some pair of outputs differs.
///
/// Room for `count` clauses is taken at once: of a net with millions of gates it is most of what a check
/// needs.
pub fn miter(alloc: Global, pair: &CircuitPair, count: u32) -> Result<Vec<Clause<Dim>>, AllocError>
    ensures { IfOk result (λ v. v.items ≡ miter_of pair.now) }
{
    let mut clauses = Vec::with_capacity(alloc, count as usize)?;
    for place in 0..pair.variables() {
        push_axioms(alloc, &mut clauses, pair, pair.node(place))?;
    }
    push_units(alloc, &mut clauses, pair, Side::A)?;
    push_units(alloc, &mut clauses, pair, Side::B)?;
    let last = some_xor(alloc, pair)?;
    clauses.push(last)?;
    Ok(clauses)
}

/// Puts the clauses last that define a node.
fn push_axioms(
    alloc: Global,
    clauses: &mut Vec<Clause<Dim>>,
    pair: &CircuitPair,
    node: Node,
) -> Result<(), AllocError>
    requires { IsNet pair.now }
    ensures { OnOk result (clauses.new.items
        ≡ clauses.old.items ++ map (λ c. map (numbered pair.now) c) (axioms_of pair.now node)) }
{
    let axioms = pair.axioms(node);
    for axiom in axioms.as_slice() {
        let clause = numbered(alloc, pair, axiom.lits())?;
        clauses.push(clause)?;
    }
    Ok(())
}

/// Puts the clauses last that the constraints of one side are true.
fn push_units(
    alloc: Global,
    clauses: &mut Vec<Clause<Dim>>,
    pair: &CircuitPair,
    side: Side,
) -> Result<(), AllocError>
    requires { IsNet pair.now }
    ensures { OnOk result (clauses.new.items
        ≡ clauses.old.items ++ map (λ c. map (numbered pair.now) c) (map unit (bounds_on pair.now side))) }
{
    for k in 0..pair.constraints(side) {
        let lit = pair.constraint(side, k).unwrap();
        let clause = numbered(alloc, pair, &[lit])?;
        clauses.push(clause)?;
    }
    Ok(())
}

/// A clause of at most three literals by their numbers.
fn numbered(alloc: Global, pair: &CircuitPair, lits: &[Lit]) -> Result<Clause<Dim>, AllocError>
    requires few { length lits.now ≤ 3 }
    requires clause { IsClause same_lit opposite lits.now }
    requires there { AreThere pair.now lits.now }
    ensures { IfOk result (λ c. c ≡ map (numbered pair.now) lits.now) }
{
    let mut numbers = [Dim::default(); 3];
    for (i, lit) in lits.iter().enumerate() {
        numbers[i] = pair.number(*lit);
    }
    Clause::from_slice(alloc, &numbers[..lits.len()])
}

/// The clause of all XORs, in order.
///
/// It asks for an output that differs (Brand 1993).
fn some_xor(alloc: Global, pair: &CircuitPair) -> Result<Clause<Dim>, AllocError>
    ensures { IfOk result (λ c. c ≡ map (numbered pair.now) (map positive (xors_of pair.now))) }
{
    let mut numbers = Vec::new(alloc);
    for j in 0..pair.sizes().outputs {
        let xor = Lit {
            node: Node::Xor(j),
            neg: false,
        };
        numbers.push(pair.number(xor))?;
    }
    Clause::from_slice(alloc, numbers.as_slice())
}
