ghost use Rattle.std.specs.Prelude.{◌≡◌, ◌≤◌, ◌*◌, ◌+◌, length, map, true, IfOk};
ghost use Rattle.std.specs.List.{list_all, range_with_len, AllByRecursion};
ghost use Rattle.lits.specs.declared.node.Side.TheVariants.{A};
ghost use Rattle.netlist.specs.Circuit.{is_over, most, variables_in};
ghost use Rattle.netlist.specs.Net.{IsNet};
ghost use Rattle.lemma_book.specs.Book.{IsLegal};
ghost use Rattle.lemma_book.specs.Root.{root_of};
ghost use Rattle.fraig_write.specs.Reduced.{new_variable, reduced_gate, renumbered, root_renumbered, AreStaying};
ghost use Rattle.fraig_write.specs.Renumbering.{GateHasNumbers, HasNumber, RootHasNumber};

use crate::staying::staying_gates;
use lemma_book::Book;
use lits::{Lit, Node, Side};
use netlist::{And, Net, VariableTable};
use std::alloc::{AllocError, Global};
use std::marker::Model;

/// The gates of A that stay, and the new numbers of nodes.
pub(crate) struct Renumbering {
    inputs: u32,
    staying: Vec<And>,
    /// A gate's place among those that stay, from 1.
    table: VariableTable,
}

// Written out, so that a drop is one call and not one for each field at each exit of a function.
impl Drop for Renumbering {
    fn drop(self) {
        let Renumbering {
            inputs: _,
            staying: _,
            table: _,
        } = self;
    }
}

impl Model for Renumbering {
    ghost use Rattle.fraig_write.specs.Renumbering.{IsNumbering, Numbering};

    ghost Value = { Numbering };

    ghost view = { λ r. record { inputs = r.inputs; staying = r.staying.items } };

    ghost invariant = { λ r. IsNumbering (record { inputs = r.inputs; staying = r.staying.items }) r.table };
}

impl Renumbering {
    /// Finds the gates that stay, and numbers them behind the inputs.
    pub(crate) fn of(alloc: Global, net: &Net, book: &Book) -> Result<Renumbering, AllocError>
        requires net { IsNet net.now }
        requires legal { IsLegal net.now book.now }
        ensures inputs { IfOk result (λ r. r.inputs ≡ length net.now.a.inputs) }
        ensures staying { IfOk result (λ r. AreStaying net.now.a book.now.entries r.staying) }
    {
        let staying = staying_gates(alloc, net, book)?;
        let table = VariableTable::of(alloc, &[], staying.as_slice())?;
        Ok(Renumbering {
            inputs: net.circuit(Side::A).inputs().len() as u32,
            staying,
            table,
        })
    }

    /// The inputs by their new variables.
    pub(crate) fn inputs(&self, alloc: Global) -> Result<Vec<u32>, AllocError>
        ensures { IfOk result (λ v. v.items ≡ range_with_len 1 self.now.inputs) }
    {
        let mut inputs = Vec::new(alloc);
        for k in 0..self.inputs {
            inputs.push(k + 1)?;
        }
        Ok(inputs)
    }

    /// What the gates that stay become.
    pub(crate) fn gates(
        &self,
        alloc: Global,
        net: &Net,
        book: &Book,
    ) -> Result<Vec<And>, AllocError>
        requires net { IsNet net.now }
        requires inputs { self.now.inputs ≡ length net.now.a.inputs }
        requires numbers { AllByRecursion (GateHasNumbers net.now.a book.now.entries self.now) self.now.staying }
        ensures { IfOk result (λ v. v.items
            ≡ map (reduced_gate net.now.a book.now.entries self.now.staying) self.now.staying) }
    {
        let mut gates = Vec::new(alloc);
        for gate in self.staying.as_slice() {
            gates.push(self.gate(net, book, *gate))?;
        }
        Ok(gates)
    }

    /// What a gate becomes: each fanin becomes its root, the greater first.
    fn gate(&self, net: &Net, book: &Book, gate: And) -> And
        requires net { IsNet net.now }
        requires inputs { self.now.inputs ≡ length net.now.a.inputs }
        requires numbers { GateHasNumbers net.now.a book.now.entries self.now gate }
        ensures { result ≡ reduced_gate net.now.a book.now.entries self.now.staying gate }
    {
        let node = Node::Gate(Side::A, gate.var);
        let definition = net.definition(node).unwrap();
        let left = self.root(book, definition.left);
        let right = self.root(book, definition.right);
        And {
            var: self.variable(node),
            left: left.max(right),
            right: left.min(right),
        }
    }

    /// What literals of A become.
    pub(crate) fn literals(
        &self,
        alloc: Global,
        net: &Net,
        book: &Book,
        literals: &[u32],
    ) -> Result<Vec<u32>, AllocError>
        requires inputs { self.now.inputs ≡ length net.now.a.inputs }
        requires over { list_all (is_over (variables_in net.now.a)) literals.now ≡ true }
        requires numbers { AllByRecursion (RootHasNumber net.now.a book.now.entries self.now) literals.now }
        ensures { IfOk result (λ v. v.items
            ≡ map (root_renumbered net.now.a book.now.entries self.now.staying) literals.now) }
    {
        let mut renumbered = Vec::new(alloc);
        for literal in literals {
            let lit = net.lit(Side::A, *literal).unwrap();
            renumbered.push(self.root(book, lit))?;
        }
        Ok(renumbered)
    }

    /// The root of a literal, renumbered.
    fn root(&self, book: &Book, lit: Lit) -> u32
        requires { HasNumber self.now (root_of book.now.entries lit).node }
        ensures { result ≡ renumbered self.now.inputs self.now.staying (root_of book.now.entries lit) }
    {
        let root = book.root(lit);
        let negated = if root.node == Node::Const {
            !root.neg
        } else {
            root.neg
        };
        2 * self.variable(root.node) + u32::from(negated)
    }

    /// The node's new variable.
    fn variable(&self, node: Node) -> u32
        requires { HasNumber self.now node }
        ensures variable { result ≡ new_variable self.now.inputs self.now.staying node }
        ensures few { result ≤ most }
    {
        match node {
            Node::Input(k) => k + 1,
            Node::Gate(_, var) => self.inputs + self.table.place(var).unwrap(),
            Node::Const | Node::Xor(_) => 0,
        }
    }
}
