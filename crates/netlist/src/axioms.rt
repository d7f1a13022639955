ghost use Rattle.std.specs.Prelude.{◌≡◌, ◌+◌, ◌<◌, ◌≤◌, [], ◌∷◌, ◌++◌, length, slice_get};
ghost use Rattle.std.specs.Option.{option_to_list};
ghost use Rattle.lits.specs.declared.node.Node.TheVariants.{Const};
ghost use Rattle.netlist.specs.Miter.{positive, negative, kept, gate_clauses, xor_clauses};
ghost use Rattle.netlist.specs.Short.{IsApart};

use crate::gate::Definition;
use crate::short::Short;
use lits::{Lit, Literal, Node};
use std::marker::Model;

/// The clauses that define a node, at most four, held by value.
#[derive(Drop)]
pub struct Axioms {
    clauses: [Short; 4],
    len: usize,
}

impl Model for Axioms {
    ghost use Rattle.std.specs.Prelude.{◌≤◌, List, take};
    ghost use Rattle.lits.specs.declared.literal.Lit.{Lit};

    ghost Value = { List (List Lit) };

    ghost view = { λ a. take a.len a.clauses };

    ghost invariant = { λ a. a.len ≤ 4 };
}

impl Axioms {
    /// The clauses, in order.
    pub fn as_slice(&self) -> &[Short]
        ensures clauses { result.now ≡ self.now }
        ensures few { length self.now ≤ 4 }
    {
        &self.clauses[..self.len]
    }

    /// Clause k, from 0; none exactly where there are no more.
    pub(crate) fn one(&self, k: u8) -> Option<Short>
        ensures { result ≡ slice_get self.now k }
    {
        match self.as_slice().get(usize::from(k)) {
            Some(clause) => Some(clause.copy()),
            None => None,
        }
    }

    /// No clause: the node is free, or isn't there.
    pub(crate) fn none() -> Axioms
        ensures { result ≡ [] }
    {
        Axioms {
            clauses: [
                Short::empty(),
                Short::empty(),
                Short::empty(),
                Short::empty(),
            ],
            len: 0,
        }
    }

    /// The constant is true.
    pub(crate) fn of_constant() -> Axioms
        ensures { result ≡ (positive Const ∷ []) ∷ [] }
    {
        let mut axioms = Axioms::none();
        axioms.push(Short::of_one(positive(Node::Const)));
        axioms
    }

    /// The gate is the AND of its fanins (Tseitin 1968).
    pub(crate) fn of_gate(gate: Definition) -> Axioms
        requires { IsApart gate }
        ensures { result ≡ kept (gate_clauses gate) }
    {
        let Definition { node, left, right } = gate;
        let mut axioms = Axioms::none();
        axioms.push(Short::of_two(negative(node), left));
        axioms.push(Short::of_two(negative(node), right));
        axioms.add(Short::of_three(positive(node), left.not(), right.not()));
        axioms
    }

    /// The XOR is true where its two literals differ (Tseitin 1968).
    pub(crate) fn of_xor(xor: Definition) -> Axioms
        requires { IsApart xor }
        ensures { result ≡ kept (xor_clauses xor.node xor.left xor.right) }
    {
        let Definition { node, left, right } = xor;
        let mut axioms = Axioms::none();
        axioms.add(Short::of_three(negative(node), left, right));
        axioms.add(Short::of_three(negative(node), left.not(), right.not()));
        axioms.add(Short::of_three(positive(node), left.not(), right));
        axioms.add(Short::of_three(positive(node), left, right.not()));
        axioms
    }

    /// Puts a clause last, where there is one.
    fn add(&mut self, short: Option<Short>)
        requires { length self.old < 4 }
        ensures clauses { self.new ≡ self.old ++ option_to_list short }
        ensures few { length self.new ≤ length self.old + 1 }
    {
        if let Some(short) = short {
            self.push(short);
        }
    }

    /// Puts a clause last.
    fn push(&mut self, short: Short)
        requires { length self.old < 4 }
        ensures clauses { self.new ≡ self.old ++ short ∷ [] }
        ensures few { length self.new ≤ length self.old + 1 }
    {
        self.clauses[self.len] = short;
        self.len += 1;
    }
}

/// Clause k, from 0, of those that say that a gate is the AND of its fanins. It makes no other one.
///
/// A hint of a step asks for one clause, so to make them all would be three times the work.
pub(crate) fn gate_axiom(gate: Definition, k: u8) -> Option<Short>
    requires { IsApart gate }
    ensures { result ≡ slice_get (kept (gate_clauses gate)) k }
{
    let Definition { node, left, right } = gate;
    match k {
        0 => Some(Short::of_two(negative(node), left)),
        1 => Some(Short::of_two(negative(node), right)),
        2 => Short::of_three(positive(node), left.not(), right.not()),
        _ => None,
    }
}

/// How many clauses say that a gate is the AND of its fanins.
pub(crate) fn gate_count(gate: Definition) -> u32
    requires { IsApart gate }
    ensures count { result ≡ length (kept (gate_clauses gate)) }
    ensures few { result ≤ 4 }
{
    if gate.right == gate.left.not() { 2 } else { 3 }
}

/// How many clauses say that an XOR is true where its two literals differ.
pub(crate) fn xor_count(xor: Definition) -> u32
    requires { IsApart xor }
    ensures count { result ≡ length (kept (xor_clauses xor.node xor.left xor.right)) }
    ensures few { result ≤ 4 }
{
    if xor.left.node == xor.right.node {
        2
    } else {
        4
    }
}

fn positive(node: Node) -> Lit
    ensures { result ≡ positive node }
{
    Lit { node, neg: false }
}

fn negative(node: Node) -> Lit
    ensures { result ≡ negative node }
{
    Lit { node, neg: true }
}
