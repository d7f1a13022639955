ghost use Rattle.std.specs.Prelude.{◌≡◌, ◌⊎◌, ◌+◌, ◌*◌, ◌<◌, ◌≤◌, true, IfOk, IfSome, IfNone, IsOk, OnOk, OnErr, MatchResult, length};
ghost use Rattle.netlist.specs.Circuit.{is_over, most, variables_in};
ghost use Rattle.netlist.specs.Edit.{CanSet, CanPut, CanDrop, with_gate, with_new, without_gate, with_output, with_side};
ghost use Rattle.netlist.specs.Net.{IsNet, all_fanins, bound_of, circuit_of, defined_by, fanins_at, lit_of, node_at, nodes_of, output_of, position_of};
ghost use Rattle.netlist.specs.Miter.{axiom_of, axioms_of, bound_number_of, clause_number_of, cnf_number_of, defining_clauses, miter_of, variables_of};
ghost use Rattle.netlist.specs.Unlike.{unlike_of};
ghost use Rattle.netlist.specs.ByName.{arranged, unlike_by_name};

use crate::axioms::Axioms;
use crate::by_name;
use crate::circuit::Circuit;
use crate::gate::{And, Definition, Fanins};
use crate::miter::miter;
use crate::pair::CircuitPair;
use crate::short::Short;
use crate::tables::Tables;
use crate::unlike::Unlike;
use lits::{Clause, Dim, Lit, Node, Side};
use std::alloc::{AllocError, Global};
use std::marker::Model;

/// Two circuits with equal numbers of inputs and of outputs. Input k of both is one node.
///
/// The nodes are numbered twice. Positions count from 0: the constant, the inputs, the gates of A in order,
/// the gates of B in order. CNF variables count from 1 in the same order, and behind them come the XORs, one
/// per output.
pub struct Net {
    pair: CircuitPair,
    tables: Tables,
}

// Written out, so that a drop is one call and not one for each field at each exit of a function.
impl Drop for Net {
    fn drop(self) {
        let Net { pair: _, tables: _ } = self;
    }
}

impl Model for Net {
    ghost use Rattle.netlist.specs.Net.{AigPair};
    ghost use Rattle.netlist.specs.Tables.{AreTables};

    ghost Value = { AigPair };

    ghost view = { λ n. n.pair };

    ghost invariant = { λ n. AreTables n.pair n.tables };
}

impl Net {
    /// The net of two circuits. The circuits are given up where there is none.
    pub fn of(alloc: Global, a: Circuit, b: Circuit) -> Result<Net, Unlike>
        ensures unlike { IfSome (unlike_of a b) (λ u. result ≡ Err u) }
        ensures like { IfNone (unlike_of a b)
            (MatchResult result (λ n. n ≡ record { a = a; b = b }) (λ e. e ≡ Unlike.NoMemory)) }
    {
        if let Some(unlike) = unlike_of(&a, &b) {
            return Err(unlike);
        }
        Net::of_pair(alloc, CircuitPair::of(a, b))
    }

    /// The net of A and of B by their names: B has its inputs and outputs in A's order. The circuits are given
    /// up where there is no net.
    pub fn of_named(alloc: Global, a: Circuit, b: Circuit) -> Result<Net, Unlike>
        ensures counts { IfSome (unlike_of a b) (λ u. result ≡ Err u) }
        ensures unlike { IfSome (unlike_by_name a b)
            (λ u. (result ≡ Err u) ⊎ (result ≡ Err Unlike.NoMemory)) }
        ensures like { IfNone (unlike_by_name a b)
            (MatchResult result (λ n. n ≡ record { a = a; b = arranged a b }) (λ e. e ≡ Unlike.NoMemory)) }
    {
        if let Some(unlike) = unlike_of(&a, &b) {
            return Err(unlike);
        }
        let b = by_name::arranged(alloc, &a, b)?;
        Net::of_pair(alloc, CircuitPair::of(a, b))
    }

    /// The net of a pair.
    fn of_pair(alloc: Global, pair: CircuitPair) -> Result<Net, Unlike>
        ensures { MatchResult result (λ n. n ≡ pair) (λ e. e ≡ Unlike.NoMemory) }
    {
        let tables = Tables::of(alloc, &pair)?;
        Ok(Net { pair, tables })
    }

    /// The same net once more, for who works on it while another keeps its own.
    pub fn copy(&self, alloc: Global) -> Result<Net, AllocError>
        ensures { IfOk result (λ n. n ≡ self.now) }
    {
        let tables = self.tables.copy(alloc)?;
        let pair = self.pair.copy(alloc)?;
        Ok(Net { pair, tables })
    }

    /// The circuit of one side.
    pub fn circuit(&self, side: Side) -> &Circuit
        ensures circuit { result.now ≡ circuit_of self.now side }
        ensures net { IsNet self.now }
    {
        self.pair.circuit(side)
    }

    /// The literal that an AIGER literal of one side means; none exactly where its variable is undefined.
    pub fn lit(&self, side: Side, aiger: u32) -> Option<Lit>
        ensures { result ≡ lit_of self.now side aiger }
    {
        self.pair.lit(side, aiger)
    }

    /// How many nodes have a position.
    pub fn positions(&self) -> u32
        ensures { result ≡ length (nodes_of self.now) }
    {
        self.pair.positions()
    }

    /// The node's position; none exactly for an XOR and for a node that isn't there.
    pub fn position(&self, node: Node) -> Option<u32>
        ensures { result ≡ position_of self.now node }
    {
        self.pair.position(node)
    }

    /// The node at a position.
    pub fn node(&self, position: u32) -> Node
        requires { position < length (nodes_of self.now) }
        ensures { result ≡ node_at self.now position }
    {
        self.pair.node(position)
    }

    /// What defines a node: a gate with its fanins, an XOR with its two outputs; none exactly for the
    /// constant, an input and a node that isn't there.
    pub fn definition(&self, node: Node) -> Option<Definition>
        ensures { result ≡ defined_by self.now node }
    {
        self.pair.definition(node)
    }

    /// The fanins of gate k, the gates of A and then of B counted from 0, by their positions; none exactly
    /// where there are no more gates.
    pub fn fanins(&self, k: u32) -> Option<Fanins>
        ensures { result ≡ fanins_at self.now k }
    {
        self.tables.fanins.get(k as usize).copied()
    }

    /// The fanins of all gates, in the order of positions: what goes over every gate finds no variable by its
    /// name.
    pub fn all_fanins(&self) -> &[Fanins]
        ensures { result.now ≡ all_fanins self.now }
    {
        self.tables.fanins.as_slice()
    }

    /// The clauses that define the node.
    pub fn axioms(&self, node: Node) -> Axioms
        ensures { result ≡ axioms_of self.now node }
    {
        self.pair.axioms(node)
    }

    /// Clause k, from 0, of those that define the node; none exactly where there is no such clause.
    pub fn axiom(&self, node: Node, k: u8) -> Option<Short>
        ensures { result ≡ axiom_of self.now node k }
    {
        self.pair.axiom(node, k)
    }

    /// The number in the miter, from 1, of clause k of those that define the node; none exactly where there
    /// is no such clause.
    pub fn clause_number(&self, node: Node, k: u8) -> Option<u32>
        ensures { result ≡ clause_number_of self.now node k }
    {
        match self.pair.variable(node) {
            Some(variable) => {
                let number = self.tables.first(variable - 1) + u32::from(k);
                if number < self.tables.first(variable) {
                    Some(number)
                } else {
                    None
                }
            }
            None => None,
        }
    }

    /// The literal's number in the miter; none exactly where its node isn't there.
    pub fn cnf_number(&self, lit: Lit) -> Option<Dim>
        ensures { result ≡ cnf_number_of self.now lit }
    {
        match self.pair.variable(lit.node) {
            Some(variable) => Some(Dim::new(variable, lit.neg)),
            None => None,
        }
    }

    /// How many variables the miter has.
    pub fn variables(&self) -> u32
        ensures count { result ≡ length (variables_of self.now) }
        ensures net { IsNet self.now }
    {
        self.pair.variables()
    }

    /// How many clauses the miter has.
    pub fn clauses(&self) -> u32
        ensures count { result ≡ length (miter_of self.now) }
        ensures net { IsNet self.now }
    {
        let units = self.pair.constraints(Side::A) + self.pair.constraints(Side::B);
        self.behind_nodes() + units
    }

    /// The number in the miter of the first clause behind those that define the nodes.
    fn behind_nodes(&self) -> u32
        ensures number { result ≡ length (defining_clauses self.now) + 1 }
        ensures few { result ≤ 4 * (3 * most + 1) + 1 }
        ensures net { IsNet self.now }
    {
        self.tables.first(self.pair.variables())
    }

    /// How many outputs each circuit has.
    pub fn outputs(&self) -> u32
        ensures count { result ≡ length self.now.a.outputs }
        ensures net { IsNet self.now }
    {
        self.pair.sizes().outputs
    }

    /// The literal of output j of one side; none exactly where there is no such output.
    pub fn output(&self, side: Side, j: u32) -> Option<Lit>
        ensures { result ≡ output_of self.now side j }
    {
        self.pair.output(side, j)
    }

    /// The literal of constraint k of one side, from 0; none exactly where there is no such constraint. An
    /// input is admitted where the literals of all constraints of both sides are true.
    pub fn constraint(&self, side: Side, k: u32) -> Option<Lit>
        ensures { result ≡ bound_of self.now side k }
    {
        self.pair.constraint(side, k)
    }

    /// The number in the miter, from 1, of the clause that constraint k of one side is true; none exactly
    /// where there is no such constraint.
    pub fn constraint_number(&self, side: Side, k: u32) -> Option<u32>
        ensures { result ≡ bound_number_of self.now side k }
    {
        if k < self.pair.constraints(side) {
            Some(self.behind_nodes() + self.pair.constraints_before(side) + k)
        } else {
            None
        }
    }

    /// Gives a gate of one side these fanins. Its place stays. No memory is taken, and the answer is Ok.
    pub fn set_gate(&mut self, side: Side, gate: And) -> Result<(), AllocError>
        requires { CanSet (circuit_of self.old side) gate }
        ensures ok { IsOk result }
        ensures net { self.new ≡ with_side self.old side (with_gate (circuit_of self.old side) gate) }
    {
        self.pair.set_gate(side, gate);
        let position = self.pair.position(Node::Gate(side, gate.var)).unwrap();
        self.tables.change_gate(&self.pair, position);
        Ok(())
    }

    /// Puts a new gate into one side, right before the gate of a variable, or last where none is named.
    pub fn put_gate(&mut self, side: Side, gate: And, before: Option<u32>) -> Result<(), AllocError>
        requires { CanPut (circuit_of self.old side) gate before }
        ensures ok { OnOk result
            (self.new ≡ with_side self.old side (with_new (circuit_of self.old side) gate before)) }
        ensures err { OnErr result (self.new ≡ self.old) }
    {
        self.tables.reserve()?;
        self.pair.put_gate(side, gate, before)?;
        self.tables.fill(&self.pair);
        Ok(())
    }

    /// Takes a gate that nothing reads away from one side. No memory is taken, and the answer is Ok.
    pub fn drop_gate(&mut self, side: Side, var: u32) -> Result<(), AllocError>
        requires { CanDrop (circuit_of self.old side) var }
        ensures ok { IsOk result }
        ensures net { self.new ≡ with_side self.old side (without_gate (circuit_of self.old side) var) }
    {
        self.pair.drop_gate(side, var);
        self.tables.fill(&self.pair);
        Ok(())
    }

    /// Gives output j of one side another literal. No memory is taken, and the answer is Ok.
    pub fn set_output(&mut self, side: Side, j: u32, lit: u32) -> Result<(), AllocError>
        requires output { j < length (circuit_of self.old side).outputs }
        requires lit { is_over (variables_in (circuit_of self.old side)) lit ≡ true }
        ensures ok { IsOk result }
        ensures net { self.new ≡ with_side self.old side (with_output (circuit_of self.old side) j lit) }
    {
        self.pair.set_output(side, j, lit);
        let variable = self.pair.variable(Node::Xor(j)).unwrap();
        self.tables.change_xor(&self.pair, variable - 1);
        Ok(())
    }

    /// The clauses of the miter, in order, by their numbers.
    pub fn miter(&self, alloc: Global) -> Result<Vec<Clause<Dim>>, AllocError>
        ensures { IfOk result (λ v. v.items ≡ miter_of self.now) }
    {
        miter(alloc, &self.pair, self.clauses())
    }
}

/// Why two circuits are no net, if they aren't one.
fn unlike_of(a: &Circuit, b: &Circuit) -> Option<Unlike>
    ensures unlike { result ≡ unlike_of a.now b.now }
    ensures net { IfNone result (IsNet (record { a = a.now; b = b.now })) }
{
    let inputs = (a.inputs().len() as u32, b.inputs().len() as u32);
    let outputs = (a.outputs().len() as u32, b.outputs().len() as u32);
    if inputs.0 != inputs.1 {
        return Some(Unlike::Inputs(inputs.0, inputs.1));
    }
    if outputs.0 != outputs.1 {
        return Some(Unlike::Outputs(outputs.0, outputs.1));
    }
    None
}
