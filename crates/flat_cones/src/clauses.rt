ghost use Rattle.std.specs.Prelude.{◌≡◌, ◌≢◌, ◌<◌, ◌^◌, ◌∷◌, [], false, Some, slice_get, OnOk, IfOk};
ghost use Rattle.std.specs.Option.{IsSome};
ghost use Rattle.lits.specs.Clause.{IsClause};
ghost use Rattle.lits.specs.Same.{same_lit, same_node, opposite};
ghost use Rattle.lits.specs.declared.step.Ref.TheVariants.{Entry as Shown};
ghost use Rattle.netlist.specs.Net.{IsNet};
ghost use Rattle.netlist.specs.Miter.{variable_of};
ghost use Rattle.lemma_book.specs.Book.{IsLegal};
ghost use Rattle.lemma_book.specs.Cone.{AreThere, named_axioms, named_bounds, named_clauses, named_from, nodes_in};
ghost use Rattle.lemma_book.specs.Entry.{merge_clauses};
ghost use Rattle.flat_cones.specs.Numbered.{Adds, ArePlaces, AreCodes, IsNumbered, PutsCode, Takes};
ghost use Rattle.flat_cones.specs.Walk.{lit_by, node_by, IsGateOf, IsVariable};

use crate::merges::merge_of;
use crate::nodes::{dim, dim_of, gate_of, node_of};
use crate::spots::Spots;
use flat_base::FlatBase;
use lemma_book::Book;
use lits::{Dim, Lit, Literal, Node, Ref, Side};
use netlist::Net;
use std::alloc::{AllocError, Global};

/// The clauses of a cone, which are put into a flat base one after another.
#[derive(Drop)]
pub(crate) struct Clauses {
    pub base: FlatBase,
    codes: Vec<u32>,
}

impl Clauses {
    /// No clause.
    pub(crate) fn new(alloc: Global) -> Clauses
        ensures { result.base ≡ record { nodes = []; clauses = [] } }
    {
        Clauses {
            base: FlatBase::new(alloc),
            codes: Vec::new(alloc),
        }
    }

    /// The number of a variable's node, which is the next one where it has none yet.
    fn number(&mut self, net: &Net, spots: &mut Spots, variable: u32) -> Result<u32, AllocError>
        requires net { IsNet net.now }
        requires there { IsVariable net.now variable }
        requires places { ArePlaces net.now spots.old self.old.base }
        ensures takes { OnOk result
            (Takes net.now self.old.base (node_by net.now variable ∷ []) spots.new self.new.base) }
        ensures number { IfOk result (λ k. slice_get self.new.base.nodes k ≡ Some (node_by net.now variable)) }
        ensures small { IfOk result (λ k. k < 2 ^ 31) }
        ensures codes { self.new.codes ≡ self.old.codes }
    {
        if let Some(number) = spots.number(variable) {
            return Ok(number);
        }
        let number = self.base.number(node_of(net, variable))?;
        spots.set_number(variable, number)?;
        Ok(number)
    }

    /// Puts the code of a variable's literal last.
    fn put_code(&mut self, net: &Net, spots: &mut Spots, dim: Dim) -> Result<(), AllocError>
        requires net { IsNet net.now }
        requires there { IsVariable net.now dim.var }
        requires places { ArePlaces net.now spots.old self.old.base }
        ensures takes { OnOk result
            (Takes net.now self.old.base (node_by net.now dim.var ∷ []) spots.new self.new.base) }
        ensures code { OnOk result
            (PutsCode self.old.codes.items (lit_by net.now dim) self.new.base.nodes self.new.codes.items) }
    {
        let number = self.number(net, spots, dim.var())?;
        self.codes.push(2 * number + u32::from(dim.is_negated()))?;
        Ok(())
    }

    /// Makes the codes of these literals.
    fn code(&mut self, net: &Net, spots: &mut Spots, lits: &[Lit]) -> Result<(), AllocError>
        requires net { IsNet net.now }
        requires there { AreThere net.now lits.now }
        requires places { ArePlaces net.now spots.old self.old.base }
        ensures takes { OnOk result (Takes net.now self.old.base (nodes_in lits.now) spots.new self.new.base) }
        ensures codes { OnOk result (AreCodes self.new.base.nodes lits.now self.new.codes.items) }
    {
        self.codes.clear();
        for place in 0..lits.len() {
            let lit = lits[place];
            self.put_code(net, spots, dim_of(net, lit))?;
        }
        Ok(())
    }

    /// Puts a clause last.
    fn add(&mut self, net: &Net, spots: &mut Spots, by: Ref, lits: &[Lit]) -> Result<(), AllocError>
        requires net { IsNet net.now }
        requires there { AreThere net.now lits.now }
        requires clause { IsClause same_lit opposite lits.now }
        requires numbered { IsNumbered net.now spots.old self.old.base }
        ensures { OnOk result (Adds net.now self.old.base
            (record { clause = lits.now; by = by } ∷ []) spots.new self.new.base) }
    {
        self.code(net, spots, lits)?;
        self.base.push(by, self.codes.as_slice())?;
        Ok(())
    }

    /// Makes the codes of two literals.
    fn code_two(
        &mut self,
        net: &Net,
        spots: &mut Spots,
        first: Dim,
        second: Dim,
    ) -> Result<(), AllocError>
        requires net { IsNet net.now }
        requires first { IsVariable net.now first.var }
        requires second { IsVariable net.now second.var }
        requires places { ArePlaces net.now spots.old self.old.base }
        ensures takes { OnOk result (Takes net.now self.old.base
            (node_by net.now first.var ∷ node_by net.now second.var ∷ []) spots.new self.new.base) }
        ensures codes { OnOk result (AreCodes self.new.base.nodes
            (lit_by net.now first ∷ lit_by net.now second ∷ []) self.new.codes.items) }
    {
        self.codes.clear();
        self.put_code(net, spots, first)?;
        self.put_code(net, spots, second)?;
        Ok(())
    }

    /// Puts a clause of two literals last.
    fn add_two(
        &mut self,
        net: &Net,
        spots: &mut Spots,
        by: Ref,
        first: Dim,
        second: Dim,
    ) -> Result<(), AllocError>
        requires net { IsNet net.now }
        requires first { IsVariable net.now first.var }
        requires second { IsVariable net.now second.var }
        requires clause { IsClause same_lit opposite (lit_by net.now first ∷ lit_by net.now second ∷ []) }
        requires numbered { IsNumbered net.now spots.old self.old.base }
        ensures { OnOk result (Adds net.now self.old.base
            (record { clause = lit_by net.now first ∷ lit_by net.now second ∷ []; by = by } ∷ [])
            spots.new self.new.base) }
    {
        self.code_two(net, spots, first, second)?;
        self.base.push(by, self.codes.as_slice())?;
        Ok(())
    }

    /// Puts a clause of three literals last.
    fn add_three(
        &mut self,
        net: &Net,
        spots: &mut Spots,
        by: Ref,
        first: Dim,
        second: Dim,
        third: Dim,
    ) -> Result<(), AllocError>
        requires net { IsNet net.now }
        requires first { IsVariable net.now first.var }
        requires second { IsVariable net.now second.var }
        requires third { IsVariable net.now third.var }
        requires clause { IsClause same_lit opposite
            (lit_by net.now first ∷ lit_by net.now second ∷ lit_by net.now third ∷ []) }
        requires numbered { IsNumbered net.now spots.old self.old.base }
        ensures { OnOk result (Adds net.now self.old.base
            (record { clause = lit_by net.now first ∷ lit_by net.now second ∷ lit_by net.now third ∷ []; by = by } ∷ [])
            spots.new self.new.base) }
    {
        self.code_two(net, spots, first, second)?;
        self.put_code(net, spots, third)?;
        self.base.push(by, self.codes.as_slice())?;
        Ok(())
    }

    /// Puts the clauses of a variable's node last: those of its merge, where it is merged.
    pub(crate) fn add_node(
        &mut self,
        net: &Net,
        book: &Book,
        spots: &mut Spots,
        variable: u32,
    ) -> Result<(), AllocError>
        requires net { IsNet net.now }
        requires legal { IsLegal net.now book.now }
        requires there { IsVariable net.now variable }
        requires numbered { IsNumbered net.now spots.old self.old.base }
        ensures { OnOk result (Adds net.now self.old.base
            (named_clauses net.now book.now.entries (node_by net.now variable)) spots.new self.new.base) }
    {
        let node = node_of(net, variable);
        match merge_of(book, node) {
            Some((place, target)) => self.add_merge(net, spots, place, variable, target),
            None => self.add_defining(net, spots, variable, node),
        }
    }

    /// Puts the two clauses of a merge last.
    fn add_merge(
        &mut self,
        net: &Net,
        spots: &mut Spots,
        place: u64,
        variable: u32,
        target: Lit,
    ) -> Result<(), AllocError>
        requires net { IsNet net.now }
        requires apart { same_node (node_by net.now variable) target.node ≡ false }
        requires there { IsVariable net.now variable }
        requires target { IsSome (variable_of net.now target.node) }
        requires numbered { IsNumbered net.now spots.old self.old.base }
        ensures { OnOk result (Adds net.now self.old.base
            (named_from (Shown place) 0 (merge_clauses (node_by net.now variable) target)) spots.new self.new.base) }
    {
        let merged = dim(net, variable);
        let target = dim_of(net, target);
        self.add_two(net, spots, Ref::Entry(place, 0), merged.not(), target)?;
        self.add_two(net, spots, Ref::Entry(place, 1), merged, target.not())?;
        Ok(())
    }

    /// Puts the clauses that define a variable's node last.
    fn add_defining(
        &mut self,
        net: &Net,
        spots: &mut Spots,
        variable: u32,
        node: Node,
    ) -> Result<(), AllocError>
        requires net { IsNet net.now }
        requires there { IsVariable net.now variable }
        requires node { node ≡ node_by net.now variable }
        requires numbered { IsNumbered net.now spots.old self.old.base }
        ensures { OnOk result (Adds net.now self.old.base (named_axioms net.now node) spots.new self.new.base) }
    {
        if let Some((left, right)) = gate_of(net, variable) {
            if left.var() != right.var() {
                return self.add_gate(net, spots, variable, node, left, right);
            }
        }
        self.add_axioms(net, spots, node)
    }

    /// Puts the three clauses of a gate with fanins over two nodes last (Tseitin 1968).
    fn add_gate(
        &mut self,
        net: &Net,
        spots: &mut Spots,
        variable: u32,
        node: Node,
        left: Dim,
        right: Dim,
    ) -> Result<(), AllocError>
        requires net { IsNet net.now }
        requires there { IsVariable net.now variable }
        requires node { node ≡ node_by net.now variable }
        requires gate { IsGateOf net.now variable left right }
        requires apart { left.var ≢ right.var }
        requires numbered { IsNumbered net.now spots.old self.old.base }
        ensures { OnOk result (Adds net.now self.old.base (named_axioms net.now node) spots.new self.new.base) }
    {
        let gate = dim(net, variable);
        self.add_two(net, spots, Ref::Axiom(node, 0), gate.not(), left)?;
        self.add_two(net, spots, Ref::Axiom(node, 1), gate.not(), right)?;
        self.add_three(
            net,
            spots,
            Ref::Axiom(node, 2),
            gate,
            left.not(),
            right.not(),
        )?;
        Ok(())
    }

    /// Puts the clauses that define a node last.
    fn add_axioms(&mut self, net: &Net, spots: &mut Spots, node: Node) -> Result<(), AllocError>
        requires net { IsNet net.now }
        requires there { IsSome (variable_of net.now node) }
        requires numbered { IsNumbered net.now spots.old self.old.base }
        ensures { OnOk result (Adds net.now self.old.base
            (named_axioms net.now node) spots.new self.new.base) }
    {
        let axioms = net.axioms(node);
        for (k, axiom) in axioms.as_slice().iter().enumerate() {
            self.add(net, spots, Ref::Axiom(node, k as u8), axiom.lits())?;
        }
        Ok(())
    }

    /// Puts the units of one side's constraints last.
    pub(crate) fn add_units(
        &mut self,
        net: &Net,
        spots: &mut Spots,
        side: Side,
    ) -> Result<(), AllocError>
        requires net { IsNet net.now }
        requires numbered { IsNumbered net.now spots.old self.old.base }
        ensures { OnOk result (Adds net.now self.old.base
            (named_bounds net.now side) spots.new self.new.base) }
    {
        let mut k = 0;
        while let Some(lit) = net.constraint(side, k) {
            self.add(net, spots, Ref::Bound(side, k), &[lit])?;
            k += 1;
        }
        Ok(())
    }
}
