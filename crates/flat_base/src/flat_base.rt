ghost use Rattle.std.specs.Prelude.{◌≡◌, ◌<◌, ◌≤◌, ◌^◌, ◌++◌, ◌∷◌, [], false, length, slice_index_or, OnOk, OnErr, IfOk};
ghost use Rattle.lits.specs.Clause.{has};
ghost use Rattle.lits.specs.Same.{same_node};
ghost use Rattle.flat_base.specs.Codes.{lit_at, IsCode};
ghost use Rattle.flat_base.specs.Flat.{Coded, IsCoded, IsFlat, clause_at, named_of};

use lits::{Clause, Lit, Named, Node, Ref};
use std::alloc::{AllocError, Global};
use std::marker::Model;

/// Where the codes of a clause stand.
#[derive(Clone, Copy)]
struct Place {
    by: Ref,
    start: usize,
    end: usize,
}

/// Named clauses over numbered variables.
///
/// Variable `v` has the literals `2 v`, the variable itself, and `2 v + 1`, its negation.
#[derive(Drop)]
pub struct FlatBase {
    nodes: Vec<Node>,
    codes: Vec<u32>,
    places: Vec<Place>,
}

impl Model for FlatBase {
    ghost use Rattle.std.specs.Prelude.{map};
    ghost use Rattle.flat_base.specs.Flat.{Flat, IsFlat, ArePlaces, coded_at};

    ghost Value = { Flat };

    ghost view = { λ b. record { nodes = b.nodes.items; clauses = map (coded_at b.codes.items) b.places.items } };

    ghost invariant = { λ b. IsFlat (record { nodes = b.nodes.items; clauses = map (coded_at b.codes.items) b.places.items })
        × ArePlaces b.places.items b.codes.items };
}

impl FlatBase {
    /// The base without variables and clauses.
    pub fn new(alloc: Global) -> FlatBase
        ensures { result ≡ record { nodes = []; clauses = [] } }
    {
        FlatBase {
            nodes: Vec::new(alloc),
            codes: Vec::new(alloc),
            places: Vec::new(alloc),
        }
    }

    /// Takes every clause and every number away, and keeps the memory.
    pub fn clear(&mut self)
        ensures { self.new ≡ record { nodes = []; clauses = [] } }
    {
        self.nodes.clear();
        self.codes.clear();
        self.places.clear();
    }

    /// The nodes of the variables, in the order of their numbers.
    pub fn nodes(&self) -> &[Node]
        ensures nodes { result.now ≡ self.now.nodes }
        ensures flat { IsFlat self.now }
    {
        self.nodes.as_slice()
    }

    /// How many clauses there are.
    pub fn len(&self) -> usize
        ensures { result ≡ length self.now.clauses }
    {
        self.places.len()
    }

    /// The name of a clause.
    pub fn name(&self, number: usize) -> Ref
        requires { number < length self.now.clauses }
        ensures { (d : Coded) → result ≡ (slice_index_or self.now.clauses number d).by }
    {
        self.places[number].by
    }

    /// The codes of a clause's literals, in order.
    pub fn codes(&self, number: usize) -> &[u32]
        requires { number < length self.now.clauses }
        ensures codes { (d : Coded) → result.now ≡ (slice_index_or self.now.clauses number d).codes }
        ensures coded { IsCoded self.now.nodes result.now }
    {
        let place = self.places[number];
        &self.codes.as_slice()[place.start..place.end]
    }

    /// Gives a node that has no number the next one. There are numbers for 2^31 nodes.
    pub fn number(&mut self, node: Node) -> Result<u32, AllocError>
        requires { has same_node self.old.nodes node ≡ false }
        ensures number { IfOk result (λ n. n ≡ length self.old.nodes) }
        ensures small { IfOk result (λ n. n < 2 ^ 31) }
        ensures nodes { OnOk result (self.new.nodes ≡ self.old.nodes ++ node ∷ []) }
        ensures clauses { self.new.clauses ≡ self.old.clauses }
        ensures named { named_of self.new ≡ named_of self.old }
        ensures err { OnErr result (self.new ≡ self.old) }
    {
        let number = self.nodes.len();
        if number >= MOST {
            return Err(AllocError);
        }
        self.nodes.push(node)?;
        Ok(number as u32)
    }

    /// Puts a clause last.
    pub fn push(&mut self, by: Ref, codes: &[u32]) -> Result<(), AllocError>
        requires { IsCoded self.old.nodes codes.now }
        ensures nodes { self.new.nodes ≡ self.old.nodes }
        ensures clauses { OnOk result (self.new.clauses ≡ self.old.clauses ++ record { codes = codes.now; by = by } ∷ []) }
        ensures named { OnOk result (named_of self.new
            ≡ named_of self.old ++ record { clause = clause_at self.old.nodes codes.now; by = by } ∷ []) }
        ensures err { OnErr result (self.new ≡ self.old) }
    {
        self.places.reserve(1)?;
        let start = self.codes.len();
        self.codes.extend_from_slice(codes)?;
        let end = self.codes.len();
        self.places.push_reserved(Place { by, start, end });
        Ok(())
    }

    /// The list of clauses that it stands for.
    pub fn listed(&self, alloc: Global) -> Result<Vec<Named>, AllocError>
        ensures { IfOk result (λ v. v.items ≡ named_of self.now) }
    {
        let mut listed = Vec::with_capacity(alloc, self.len())?;
        for number in 0..self.len() {
            let clause = clause_of(alloc, self.nodes(), self.codes(number))?;
            let by = self.name(number);
            listed.push(Named { clause, by })?;
        }
        Ok(listed)
    }
}

/// So many nodes can have numbers, since codes have 32 bits.
const MOST: usize = 2_147_483_648;

/// The clause of these codes.
fn clause_of(alloc: Global, nodes: &[Node], codes: &[u32]) -> Result<Clause<Lit>, AllocError>
    requires { IsCoded nodes.now codes.now }
    ensures { IfOk result (λ c. c ≡ clause_at nodes.now codes.now) }
{
    let mut lits = Vec::with_capacity(alloc, codes.len())?;
    for code in codes {
        lits.push(lit_of(nodes, *code))?;
    }
    Clause::from_slice(alloc, lits.as_slice())
}

/// The literal of a code.
fn lit_of(nodes: &[Node], code: u32) -> Lit
    requires { IsCode nodes.now code }
    ensures { result ≡ lit_at nodes.now code }
{
    Lit {
        node: nodes[code as usize / 2],
        neg: code % 2 == 1,
    }
}
