ghost use Rattle.std.specs.Prelude.{◌≡◌, ◌<◌, ◌==◌, [], ℕ, true, None, List, length, map, OnOk};
ghost use Rattle.std.specs.List.{flat_map, list_any};
ghost use Rattle.std.specs.Option.{IsSome};
ghost use Rattle.lits.specs.declared.node.Node.{Node};
ghost use Rattle.netlist.specs.Net.{AigPair, IsNet};
ghost use Rattle.netlist.specs.Miter.{variable_of};
ghost use Rattle.flat_base.specs.Flat.{named_of};
ghost use Rattle.lemma_book.specs.Book.{IsLegal};
ghost use Rattle.lemma_book.specs.Cone.{AreThere, named_clauses, nodes_in, IsCone, IsOutputCone};
ghost use Rattle.flat_cones.specs.Numbered.{IsNumbered, is_named};
ghost use Rattle.flat_cones.specs.Spots.{number_at};
ghost use Rattle.flat_cones.specs.Walk.{node_by, BeginsAt, IsVariable, IsWalk};

use crate::clauses::Clauses;
use crate::nodes::variable;
use crate::walk::Walk;
use flat_base::FlatBase;
use lemma_book::Book;
use lits::{Lit, Node, Side};
use netlist::{Net, laws};
use std::alloc::{AllocError, Global};
use std::marker::Model;

/// Makes one cone after another, in the same memory.
#[derive(Drop)]
pub struct Cones {
    walk: Walk,
    clauses: Clauses,
}

impl Model for Cones {
    ghost use Rattle.flat_cones.specs.Numbered.{Cone};

    ghost Value = { Cone };

    ghost view = { λ c. record { base = c.clauses.base; spots = c.walk.spots } };
}

impl Cones {
    /// No cone yet.
    pub fn new(alloc: Global) -> Cones
        ensures base { result.base ≡ record { nodes = []; clauses = [] } }
        ensures numbered { (net : AigPair) → IsNumbered net result.spots result.base }
    {
        Cones {
            walk: Walk::new(alloc),
            clauses: Clauses::new(alloc),
        }
    }

    /// Makes the cone of the literals' nodes over a whole book. The work is that of the cone.
    pub fn cone(&mut self, net: &Net, book: &Book, lits: &[Lit]) -> Result<(), AllocError>
        requires legal { IsLegal net.now book.now }
        requires there { AreThere net.now lits.now }
        ensures cone { OnOk result
            (IsCone net.now book.now.entries (nodes_in lits.now) (named_of self.new.base)) }
        ensures numbered { OnOk result (IsNumbered net.now self.new.spots self.new.base) }
    {
        laws::is_net(net);
        self.walk.begin();
        self.walk.find_all(net, lits)?;
        gather(net, book, &mut self.walk, &mut self.clauses)?;
        Ok(())
    }

    /// Makes the cone of an output over a whole book: that of its XOR and of the constraints' nodes, and behind
    /// it the units of all constraints.
    pub fn output_cone(&mut self, net: &Net, book: &Book, output: u32) -> Result<(), AllocError>
        requires legal { IsLegal net.now book.now }
        requires there { output < length net.now.a.outputs }
        ensures cone { OnOk result (IsOutputCone net.now book.now.entries output (named_of self.new.base)) }
        ensures numbered { OnOk result (IsNumbered net.now self.new.spots self.new.base) }
    {
        laws::is_net(net);
        self.walk.begin();
        self.walk.find(net, Node::Xor(output))?;
        self.walk.find_bounds(net, Side::A)?;
        self.walk.find_bounds(net, Side::B)?;
        gather(net, book, &mut self.walk, &mut self.clauses)?;
        self.clauses.add_units(net, &mut self.walk.spots, Side::A)?;
        self.clauses.add_units(net, &mut self.walk.spots, Side::B)?;
        Ok(())
    }

    /// The cone that was made last.
    pub fn base(&self) -> &FlatBase
        ensures { result.now ≡ self.now.base }
    {
        &self.clauses.base
    }

    /// Whether a clause of the cone that was made last names the node: whether it has got a number there.
    pub fn names(&self, net: &Net, node: Node) -> bool
        requires numbered { IsNumbered net.now self.now.spots self.now.base }
        requires there { IsSome (variable_of net.now node) }
        ensures { result ≡ is_named (named_of self.now.base) node }
    {
        self.walk.spots.number(variable(net, node)).is_some()
    }
}

/// Goes on from what is found, and puts the clauses of all that it reaches into the base.
fn gather(net: &Net, book: &Book, walk: &mut Walk, clauses: &mut Clauses) -> Result<(), AllocError>
    requires net { IsNet net.now }
    requires legal { IsLegal net.now book.now }
    requires walk { IsWalk net.now walk.old }
    ensures numbered { OnOk result (IsNumbered net.now walk.new.spots clauses.new.base) }
    ensures cone { OnOk result ((seeds : List Node) → BeginsAt net.now seeds walk.old
        → IsCone net.now book.now.entries seeds (named_of clauses.new.base)) }
{
    walk.go_on(net, book)?;
    walk.arrange()?;
    fill(net, book, walk, clauses)?;
    Ok(())
}

/// Puts the clauses of what is found into the base.
fn fill(net: &Net, book: &Book, walk: &mut Walk, clauses: &mut Clauses) -> Result<(), AllocError>
    requires net { IsNet net.now }
    requires legal { IsLegal net.now book.now }
    requires there { (v : ℕ) → list_any (λ y. v == y) walk.old.found.items ≡ true → IsVariable net.now v }
    requires unnumbered { (v : ℕ) → number_at walk.old.spots v ≡ None }
    ensures numbered { OnOk result (IsNumbered net.now walk.new.spots clauses.new.base) }
    ensures clauses { OnOk result (named_of clauses.new.base
        ≡ flat_map (named_clauses net.now book.now.entries) (map (node_by net.now) walk.old.found.items)) }
{
    clauses.base.clear();
    for place in 0..walk.found.len() {
        let variable = walk.found[place];
        clauses.add_node(net, book, &mut walk.spots, variable)?;
    }
    Ok(())
}
