ghost use Rattle.std.specs.Prelude.{◌≡◌, ◌==◌, ◌+◌, ◌*◌, ◌/◌, ◌<◌, ◌≤◌, ◌&&◌, not, true, Some, IfOk, IfSome, OnOk, OnErr, length, slice_get};
ghost use Rattle.std.specs.Vec.{vec_capacity};
ghost use Rattle.std.specs.Option.{option_map};
ghost use Rattle.lits.specs.Clause.{has};
ghost use Rattle.netlist.specs.Circuit.{most, is_over, variables_in};
ghost use Rattle.netlist.specs.Edit.{CanSet, CanPut, CanDrop, with_gate, with_new, without_gate, with_output, with_side};
ghost use Rattle.netlist.specs.Net.{IsNet, all_fanins, bound_of, circuit_of, defined_by, definition_of, definitions, difference, fanins_at, fanins_of, placed, lit_named, lit_of, nodes_of, output_of, position_of};
ghost use Rattle.lits.specs.Same.{same_node};
ghost use Rattle.netlist.specs.Miter.{axiom_of, axioms_of, first_unit, numbered, variable_of, variables_of};
ghost use Rattle.netlist.specs.Short.{IsApart};
ghost use Rattle.netlist.specs.Starts.{first_clause};
ghost use Rattle.netlist.specs.Pair.{AreSizes, gate_node, first_gate, lit_from};

use crate::axioms::{Axioms, gate_axiom, gate_count, xor_count};
use crate::circuit::Circuit;
use crate::gate::{And, Definition, Fanins, Placed, Source};
use crate::short::Short;
use lits::{Dim, Lit, Node, Side};
use std::alloc::{AllocError, Global};
use std::marker::Model;

/// How many inputs, gates and outputs a pair of circuits has.
#[derive(Clone, Copy)]
pub struct Sizes {
    pub inputs: u32,
    pub gates_a: u32,
    pub gates_b: u32,
    pub outputs: u32,
}

/// The two circuits of a net, and the nodes that they make.
///
/// It stands by itself since the numbers of the clauses are counted from it, before there is a net.
#[derive(Drop)]
pub struct CircuitPair {
    a: Circuit,
    b: Circuit,
}

impl Model for CircuitPair {
    ghost use Rattle.netlist.specs.Net.{AigPair, IsNet};

    ghost Value = { AigPair };

    ghost view = { λ p. record { a = p.a; b = p.b } };

    ghost invariant = { λ p. IsNet (record { a = p.a; b = p.b }) };
}

impl CircuitPair {
    /// The pair of two circuits with equal numbers of inputs and of outputs.
    pub fn of(a: Circuit, b: Circuit) -> CircuitPair
        requires { IsNet (record { a = a; b = b }) }
        ensures { result ≡ record { a = a; b = b } }
    {
        CircuitPair { a, b }
    }

    /// The same pair once more.
    pub fn copy(&self, alloc: Global) -> Result<CircuitPair, AllocError>
        ensures { IfOk result (λ p. p ≡ self.now) }
    {
        Ok(CircuitPair {
            a: self.a.copy(alloc)?,
            b: self.b.copy(alloc)?,
        })
    }

    /// The circuit of one side.
    pub fn circuit(&self, side: Side) -> &Circuit
        ensures circuit { result.now ≡ circuit_of self.now side }
        ensures net { IsNet self.now }
    {
        match side {
            Side::A => &self.a,
            Side::B => &self.b,
        }
    }

    /// Gives a gate of one side these fanins.
    pub fn set_gate(&mut self, side: Side, gate: And)
        requires { CanSet (circuit_of self.old side) gate }
        ensures gate { self.new ≡ with_side self.old side (with_gate (circuit_of self.old side) gate) }
        ensures net { IsNet self.old }
    {
        match side {
            Side::A => self.a.set_gate(gate),
            Side::B => self.b.set_gate(gate),
        }
    }

    /// Puts a new gate into one side, right before the gate of a variable, or last.
    pub fn put_gate(&mut self, side: Side, gate: And, before: Option<u32>) -> Result<(), AllocError>
        requires { CanPut (circuit_of self.old side) gate before }
        ensures ok { OnOk result
            (self.new ≡ with_side self.old side (with_new (circuit_of self.old side) gate before)) }
        ensures err { OnErr result (self.new ≡ self.old) }
    {
        match side {
            Side::A => self.a.put_gate(gate, before),
            Side::B => self.b.put_gate(gate, before),
        }
    }

    /// Takes the gate of a variable away from one side.
    pub fn drop_gate(&mut self, side: Side, var: u32)
        requires { CanDrop (circuit_of self.old side) var }
        ensures { self.new ≡ with_side self.old side (without_gate (circuit_of self.old side) var) }
    {
        match side {
            Side::A => self.a.drop_gate(var),
            Side::B => self.b.drop_gate(var),
        }
    }

    /// Gives output j of one side another literal.
    pub fn set_output(&mut self, side: Side, j: u32, lit: u32)
        requires output { j < length (circuit_of self.old side).outputs }
        requires lit { is_over (variables_in (circuit_of self.old side)) lit ≡ true }
        ensures output { self.new ≡ with_side self.old side (with_output (circuit_of self.old side) j lit) }
        ensures net { IsNet self.old }
    {
        match side {
            Side::A => self.a.set_output(j, lit),
            Side::B => self.b.set_output(j, lit),
        }
    }

    /// How many inputs, gates of each side and outputs there are.
    pub fn sizes(&self) -> Sizes
        ensures { AreSizes self.now result }
    {
        let a = self.circuit(Side::A);
        let b = self.circuit(Side::B);
        Sizes {
            inputs: a.inputs().len() as u32,
            gates_a: a.gates().len() as u32,
            gates_b: b.gates().len() as u32,
            outputs: a.outputs().len() as u32,
        }
    }

    /// The literal that an AIGER literal of one side means; none where the variable is undefined.
    pub fn lit(&self, side: Side, aiger: u32) -> Option<Lit>
        ensures { result ≡ lit_of self.now side aiger }
    {
        let var = aiger / 2;
        lit_from(side, var, aiger % 2 == 1, self.circuit(side).source(var))
    }

    /// The literal of output j of one side.
    pub fn output(&self, side: Side, j: u32) -> Option<Lit>
        ensures { result ≡ output_of self.now side j }
    {
        let lit = self.circuit(side).outputs().get(j as usize)?;
        self.lit(side, *lit)
    }

    /// How many constraints one side has.
    pub fn constraints(&self, side: Side) -> u32
        ensures count { result ≡ length (circuit_of self.now side).constraints }
        ensures few { result ≤ most }
    {
        self.circuit(side).constraints().len() as u32
    }

    /// How many constraints of the pair come before those of one side.
    pub fn constraints_before(&self, side: Side) -> u32
        ensures count { result ≡ first_unit self.now side }
        ensures few { result ≤ most }
    {
        match side {
            Side::A => 0,
            Side::B => self.constraints(Side::A),
        }
    }

    /// The literal of constraint k of one side.
    pub fn constraint(&self, side: Side, k: u32) -> Option<Lit>
        ensures { result ≡ bound_of self.now side k }
    {
        let lit = self.circuit(side).constraints().get(k as usize)?;
        self.lit(side, *lit)
    }

    /// What defines a node; none for the constant, an input and a node that isn't there.
    pub fn definition(&self, node: Node) -> Option<Definition>
        ensures definition { result ≡ defined_by self.now node }
        ensures apart { IfSome result IsApart }
    {
        match node {
            Node::Gate(side, var) => self.gate_definition(side, var),
            Node::Xor(j) => difference(j, self.output(Side::A, j), self.output(Side::B, j)),
            Node::Const | Node::Input(_) => None,
        }
    }

    fn gate_definition(&self, side: Side, var: u32) -> Option<Definition>
        ensures definition { result ≡ defined_by self.now (Node.Gate side var) }
        ensures apart { IfSome result IsApart }
    {
        match self.circuit(side).gate(var) {
            Some(index) => Some(self.defined(side, self.gate(side, index))),
            None => None,
        }
    }

    /// The gate with an index.
    fn gate(&self, side: Side, index: u32) -> And
        requires { index < length (circuit_of self.now side).gates }
        ensures gate { slice_get (circuit_of self.now side).gates index ≡ Some result }
        ensures left { is_over (variables_in (circuit_of self.now side)) result.left ≡ true }
        ensures right { is_over (variables_in (circuit_of self.now side)) result.right ≡ true }
        ensures net { IsNet self.now }
    {
        self.circuit(side).gates()[index as usize]
    }

    /// A gate of one side with its fanins as literals.
    fn defined(&self, side: Side, gate: And) -> Definition
        requires left { is_over (variables_in (circuit_of self.now side)) gate.left ≡ true }
        requires right { is_over (variables_in (circuit_of self.now side)) gate.right ≡ true }
        ensures { result ≡ definition_of side (circuit_of self.now side) gate }
    {
        Definition {
            node: Node::Gate(side, gate.var),
            left: self.named(side, gate.left),
            right: self.named(side, gate.right),
        }
    }

    /// The fanins of gate k, the gates of A and then of B counted from 0, by their positions.
    pub fn fanins(&self, k: u32) -> Option<Fanins>
        ensures { result ≡ fanins_at self.now k }
    {
        let sizes = self.sizes();
        if k < sizes.gates_a {
            Some(self.gate_fanins(Side::A, k))
        } else if k - sizes.gates_a < sizes.gates_b {
            Some(self.gate_fanins(Side::B, k - sizes.gates_a))
        } else {
            None
        }
    }

    /// How many gates both sides have.
    pub fn gates(&self) -> u32
        ensures { result ≡ length (definitions self.now) }
    {
        let sizes = self.sizes();
        sizes.gates_a + sizes.gates_b
    }

    /// Fills a vector with the fanins of all gates, in the order of positions, in the room that it has.
    pub fn fill_fanins(&self, all: &mut Vec<Fanins>)
        requires { length (definitions self.now) ≤ vec_capacity all.old }
        ensures fanins { all.new.items ≡ all_fanins self.now }
        ensures room { vec_capacity all.new ≡ vec_capacity all.old }
    {
        all.clear();
        for k in 0..self.gates() {
            all.push_reserved(self.fanins(k).unwrap());
        }
    }

    /// The fanins of the gate with an index.
    fn gate_fanins(&self, side: Side, index: u32) -> Fanins
        requires { index < length (circuit_of self.now side).gates }
        ensures { option_map (λ g. fanins_of self.now (definition_of side (circuit_of self.now side) g))
            (slice_get (circuit_of self.now side).gates index) ≡ Some result }
    {
        let gate = self.gate(side, index);
        Fanins {
            left: self.placed(side, gate.left),
            right: self.placed(side, gate.right),
        }
    }

    /// A defined AIGER literal of one side, by the position of its node, which the variable's place gives at
    /// once.
    fn placed(&self, side: Side, aiger: u32) -> Placed
        requires { is_over (variables_in (circuit_of self.now side)) aiger ≡ true }
        ensures { result ≡ placed self.now (lit_named side (circuit_of self.now side) aiger) }
    {
        let neg = aiger % 2 == 1;
        match self.circuit(side).source(aiger / 2).unwrap() {
            Source::Constant => Placed {
                position: 0,
                neg: !neg,
            },
            Source::Input(k) => Placed {
                position: k + 1,
                neg,
            },
            Source::Gate(g) => Placed {
                position: self.first_gate(side) + g,
                neg,
            },
        }
    }

    /// The literal that a defined AIGER literal of one side means.
    fn named(&self, side: Side, aiger: u32) -> Lit
        requires { is_over (variables_in (circuit_of self.now side)) aiger ≡ true }
        ensures { result ≡ lit_named side (circuit_of self.now side) aiger }
    {
        self.lit(side, aiger).unwrap()
    }

    /// The node's place in the order of positions.
    pub fn position(&self, node: Node) -> Option<u32>
        ensures { result ≡ position_of self.now node }
    {
        let sizes = self.sizes();
        match node {
            Node::Const => Some(0),
            Node::Input(k) => if k < sizes.inputs { Some(k + 1) } else { None },
            Node::Gate(side, var) => self.gate_position(side, var),
            Node::Xor(_) => None,
        }
    }

    fn gate_position(&self, side: Side, var: u32) -> Option<u32>
        ensures { result ≡ position_of self.now (Node.Gate side var) }
    {
        let first = self.first_gate(side);
        match self.circuit(side).gate(var) {
            Some(index) => Some(first + index),
            None => None,
        }
    }

    /// The position of a side's first gate.
    pub fn first_gate(&self, side: Side) -> u32
        ensures first { result ≡ first_gate self.now side }
        ensures few { result + length (circuit_of self.now side).gates ≤ 2 * most + 1 }
    {
        let sizes = self.sizes();
        match side {
            Side::A => 1 + sizes.inputs,
            Side::B => 1 + sizes.inputs + sizes.gates_a,
        }
    }

    /// The node's variable in the CNF, from 1.
    pub fn variable(&self, node: Node) -> Option<u32>
        ensures variable { result ≡ variable_of self.now node }
        ensures range { IfSome result (λ v. (1 ≤ v) × (v ≤ 3 * most + 1)) }
    {
        let sizes = self.sizes();
        let positions = 1 + sizes.inputs + sizes.gates_a + sizes.gates_b;
        match node {
            Node::Xor(j) => if j < sizes.outputs {
                Some(positions + j + 1)
            } else {
                None
            },
            _ => match self.position(node) {
                Some(position) => Some(position + 1),
                None => None,
            },
        }
    }

    /// The number of a literal whose node has a CNF variable.
    pub fn number(&self, lit: Lit) -> Dim
        requires { has same_node (variables_of self.now) lit.node ≡ true }
        ensures { result ≡ numbered self.now lit }
    {
        Dim::new(self.variable(lit.node).unwrap(), lit.neg)
    }

    /// How many nodes have a position.
    pub fn positions(&self) -> u32
        ensures { result ≡ length (nodes_of self.now) }
    {
        let sizes = self.sizes();
        1 + sizes.inputs + sizes.gates_a + sizes.gates_b
    }

    /// How many CNF variables there are.
    pub fn variables(&self) -> u32
        ensures count { result ≡ length (variables_of self.now) }
        ensures few { result ≤ 3 * most + 1 }
        ensures net { IsNet self.now }
    {
        let sizes = self.sizes();
        1 + sizes.inputs + sizes.gates_a + sizes.gates_b + sizes.outputs
    }

    /// The clauses that define a node.
    pub fn axioms(&self, node: Node) -> Axioms
        ensures { result ≡ axioms_of self.now node }
    {
        match (node, self.definition(node)) {
            (Node::Const, _) => Axioms::of_constant(),
            (Node::Gate(..), Some(gate)) => Axioms::of_gate(gate),
            (Node::Xor(_), Some(xor)) => Axioms::of_xor(xor),
            _ => Axioms::none(),
        }
    }

    /// Clause k, from 0, of those that define a node; none exactly where there is no such clause.
    pub fn axiom(&self, node: Node, k: u8) -> Option<Short>
        ensures { result ≡ axiom_of self.now node k }
    {
        match (node, self.definition(node)) {
            (Node::Gate(..), Some(gate)) => gate_axiom(gate, k),
            _ => self.axioms(node).one(k),
        }
    }

    /// How many clauses define a node. It makes none.
    pub fn clauses(&self, node: Node) -> u32
        ensures count { result ≡ length (axioms_of self.now node) }
        ensures few { result ≤ 4 }
    {
        match (node, self.definition(node)) {
            (Node::Const, _) => 1,
            (Node::Gate(..), Some(gate)) => gate_count(gate),
            (Node::Xor(_), Some(xor)) => xor_count(xor),
            _ => 0,
        }
    }

    /// How many clauses define the node with a CNF variable, here counted from 0. A gate is found by its
    /// index.
    pub fn clauses_at(&self, place: u32) -> u32
        requires { place < length (variables_of self.now) }
        ensures next { first_clause self.now (place + 1) ≡ first_clause self.now place + result }
        ensures few { result ≤ 4 }
    {
        let sizes = self.sizes();
        let first_a = 1 + sizes.inputs;
        let first_b = first_a + sizes.gates_a;
        let first_xor = first_b + sizes.gates_b;
        if place < first_a {
            self.clauses(self.node(place))
        } else if place < first_b {
            self.gate_clauses(Side::A, place - first_a)
        } else if place < first_xor {
            self.gate_clauses(Side::B, place - first_b)
        } else {
            self.clauses(self.node(place))
        }
    }

    /// How many clauses define the gate with an index: two where its fanins are complementary.
    fn gate_clauses(&self, side: Side, index: u32) -> u32
        requires { index < length (circuit_of self.now side).gates }
        ensures count { result ≡ length (axioms_of self.now (gate_node self.now side index)) }
        ensures few { result ≤ 4 }
    {
        let gate = self.gate(side, index);
        if are_complementary(gate.left, gate.right) {
            2
        } else {
            3
        }
    }

    /// The node with a CNF variable, here counted from 0.
    pub fn node(&self, place: u32) -> Node
        requires { place < length (variables_of self.now) }
        ensures { slice_get (variables_of self.now) place ≡ Some result }
    {
        let sizes = self.sizes();
        let first_a = 1 + sizes.inputs;
        let first_b = first_a + sizes.gates_a;
        let first_xor = first_b + sizes.gates_b;
        if place == 0 {
            Node::Const
        } else if place < first_a {
            Node::Input(place - 1)
        } else if place < first_b {
            self.gate_node(Side::A, place - first_a)
        } else if place < first_xor {
            self.gate_node(Side::B, place - first_b)
        } else {
            Node::Xor(place - first_xor)
        }
    }

    /// The node of the gate with an index.
    fn gate_node(&self, side: Side, index: u32) -> Node
        requires { index < length (circuit_of self.now side).gates }
        ensures { result ≡ gate_node self.now side index }
    {
        Node::Gate(side, self.circuit(side).gates()[index as usize].var)
    }
}

/// Whether two AIGER literals are each other's negation.
fn are_complementary(left: u32, right: u32) -> bool
    ensures { result ≡ ((left / 2 == right / 2) && not (left == right)) }
{
    left / 2 == right / 2 && left != right
}

/// The XOR of an output's two literals, where there are both.
fn difference(j: u32, a: Option<Lit>, b: Option<Lit>) -> Option<Definition>
    ensures { result ≡ difference j a b }
{
    match (a, b) {
        (Some(left), Some(right)) => Some(Definition {
            node: Node::Xor(j),
            left,
            right,
        }),
        _ => None,
    }
}

/// The literal of a variable with this source.
fn lit_from(side: Side, var: u32, neg: bool, source: Option<Source>) -> Option<Lit>
    ensures { result ≡ lit_from side var neg source }
{
    match source {
        Some(Source::Constant) => Some(Lit {
            node: Node::Const,
            neg: !neg,
        }),
        Some(Source::Input(k)) => Some(Lit {
            node: Node::Input(k),
            neg,
        }),
        Some(Source::Gate(_)) => Some(Lit {
            node: Node::Gate(side, var),
            neg,
        }),
        None => None,
    }
}
