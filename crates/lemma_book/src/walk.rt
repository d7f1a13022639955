ghost use Rattle.std.specs.Prelude.{◌∷◌, [], IfOk, OnOk, take};
ghost use Rattle.std.specs.Option.{IsSome};
ghost use Rattle.netlist.specs.Net.{IsNet};
ghost use Rattle.netlist.specs.Miter.{variable_of};
ghost use Rattle.lemma_book.specs.Book.{IsLegal};
ghost use Rattle.lemma_book.specs.Cone.{AreThere, fanins_of, next_of, nodes_in, IsReach};
ghost use Rattle.lemma_book.specs.Walk.{is_found, BeginsAt, IsWalk, Finds};

use crate::book::Book;
use lits::{Lit, Node};
use netlist::Net;
use std::alloc::{AllocError, Global};
use std::collections::BTreeMap;

/// The nodes of a cone that are found so far, by their CNF variables, and those of them that are still
/// to be visited.
///
/// The map keeps them in the order of the miter, so the work is that of the cone, whatever the size of
/// the net.
#[derive(Drop)]
pub struct Walk {
    pub found: BTreeMap<u32, Node>,
    pending: Vec<Node>,
}

impl Walk {
    /// Walks from the literals' nodes through all that they reach, by the first `seen` entries of the book.
    pub fn of(
        alloc: Global,
        net: &Net,
        book: &Book,
        seen: u64,
        lits: &[Lit],
    ) -> Result<Walk, AllocError>
        requires net { IsNet net.now }
        requires legal { IsLegal net.now book.now }
        requires there { AreThere net.now lits.now }
        ensures walk { IfOk result (IsWalk net.now) }
        ensures reach { IfOk result
            (λ w. IsReach (next_of net.now (take seen book.now.entries)) (nodes_in lits.now) (is_found w)) }
    {
        let mut walk = Walk::at(alloc, net, lits)?;
        while let Some(node) = walk.pending.pop() {
            walk.visit(net, book, seen, node)?;
        }
        Ok(walk)
    }

    /// Begins at the literals' nodes, and goes nowhere from there.
    pub fn at(alloc: Global, net: &Net, lits: &[Lit]) -> Result<Walk, AllocError>
        requires { AreThere net.now lits.now }
        ensures { IfOk result (λ w. BeginsAt net.now (nodes_in lits.now) w) }
    {
        let mut walk = Walk {
            found: BTreeMap::new(alloc),
            pending: Vec::new(alloc),
        };
        walk.find_all(net, lits)?;
        Ok(walk)
    }

    /// Finds one more node.
    fn find(&mut self, net: &Net, node: Node) -> Result<(), AllocError>
        requires walk { IsWalk net.now self.old }
        requires there { IsSome (variable_of net.now node) }
        ensures { OnOk result (Finds net.now self.old (node ∷ []) self.new) }
    {
        if let Some(number) = net.cnf_number(Lit { node, neg: false }) {
            if self.found.insert(number.var(), node)?.is_none() {
                self.pending.push(node)?;
            }
        }
        Ok(())
    }

    /// Finds the nodes of the literals.
    fn find_all(&mut self, net: &Net, lits: &[Lit]) -> Result<(), AllocError>
        requires walk { IsWalk net.now self.old }
        requires there { AreThere net.now lits.now }
        ensures { OnOk result (Finds net.now self.old (nodes_in lits.now) self.new) }
    {
        for lit in lits {
            self.find(net, lit.node)?;
        }
        Ok(())
    }

    /// Finds the fanins of a node.
    fn find_fanins(&mut self, net: &Net, node: Node) -> Result<(), AllocError>
        requires net { IsNet net.now }
        requires walk { IsWalk net.now self.old }
        requires there { IsSome (variable_of net.now node) }
        ensures { OnOk result (Finds net.now self.old (fanins_of net.now node) self.new) }
    {
        match net.definition(node) {
            Some(defined) => self.find_all(net, &[defined.left, defined.right]),
            None => Ok(()),
        }
    }

    /// Finds where a node leads: its target, or its fanins.
    fn visit(&mut self, net: &Net, book: &Book, seen: u64, node: Node) -> Result<(), AllocError>
        requires net { IsNet net.now }
        requires legal { IsLegal net.now book.now }
        requires walk { IsWalk net.now self.old }
        requires there { IsSome (variable_of net.now node) }
        ensures { OnOk result
            (Finds net.now self.old (next_of net.now (take seen book.now.entries) node) self.new) }
    {
        match book.merge_among(seen, node) {
            Some((_, target)) => self.find(net, target.node),
            None => self.find_fanins(net, node),
        }
    }
}
