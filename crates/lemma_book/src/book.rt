ghost use Rattle.std.specs.Prelude.{◌≡◌, ◌<◌, ◌≤◌, None, [], ◌++◌, length, slice_get, take, is_some, IfOk, IfErr, IfSome, OnOk, OnErr};
ghost use Rattle.std.specs.Option.{option_copied, option_map};
ghost use Rattle.lemma_book.specs.Entry.{place_on, has_spent_on, about, with_last};
ghost use Rattle.lemma_book.specs.Root.{merge_of, carried, passed_by, path_of, PutsSome, root_of};
ghost use Rattle.lemma_book.specs.Cone.{AreThere, clauses_on, nodes_in, IsCone, IsOutputCone};
ghost use Rattle.lemma_book.specs.Book.{IsLegal, StartsWith};

use crate::cones::{clauses_on, cone_over};
use crate::entry::{Entry, Subject, Task};
use crate::index::Key;
use crate::output_cone::output_cone_over;
use crate::shelf::Shelf;
use lits::{Lit, Literal, Named, Node};
use netlist::Net;
use std::alloc::{AllocError, Global};
use std::marker::Model;

/// Entries in the order in which they came, and the budgets of a query about two nodes and of one about
/// an output, in learned clauses.
pub struct Book {
    sweep_budget: u64,
    out_budget: u64,
    shelf: Shelf,
}

// Written out, so that a drop is one call and not one for each field at each exit of a function.
impl Drop for Book {
    fn drop(self) {
        let Book {
            sweep_budget: _,
            out_budget: _,
            shelf: _,
        } = self;
    }
}

impl Model for Book {
    ghost use Rattle.std.specs.Prelude.{◌≤◌};
    ghost use Rattle.lemma_book.specs.Entry.{Entries};

    ghost Value = { Entries };

    ghost view = { λ b. record {
      sweep_budget = b.sweep_budget;
      out_budget = b.out_budget;
      entries = b.shelf;
    } };

    ghost invariant = { λ b. ((1 ≤ b.sweep_budget) × (b.sweep_budget ≤ 1000000000))
        × ((1 ≤ b.out_budget) × (b.out_budget ≤ 1000000000)) };
}

impl Book {
    /// An empty book. Each budget is from 1 to 1,000,000,000.
    pub fn new(alloc: Global, sweep_budget: u64, out_budget: u64) -> Book
        requires sweep { (1 ≤ sweep_budget) × (sweep_budget ≤ 1000000000) }
        requires out { (1 ≤ out_budget) × (out_budget ≤ 1000000000) }
        ensures { result ≡ record { sweep_budget = sweep_budget; out_budget = out_budget; entries = [] } }
    {
        Book {
            sweep_budget,
            out_budget,
            shelf: Shelf::new(alloc),
        }
    }

    /// How many learned clauses a query about two nodes may spend.
    pub fn sweep_budget(&self) -> u64
        ensures budget { result ≡ self.now.sweep_budget }
        ensures range { (1 ≤ result) × (result ≤ 1000000000) }
    {
        self.sweep_budget
    }

    /// How many learned clauses an output's query may spend.
    pub fn out_budget(&self) -> u64
        ensures budget { result ≡ self.now.out_budget }
        ensures range { (1 ≤ result) × (result ≤ 1000000000) }
    {
        self.out_budget
    }

    /// How many entries there are.
    pub fn len(&self) -> u64
        ensures { result ≡ length self.now.entries }
    {
        self.shelf.len()
    }

    /// The entry at a place, from 0.
    pub fn entry(&self, place: u64) -> Option<&Entry>
        ensures { option_copied result ≡ slice_get self.now.entries place }
    {
        self.shelf.entry(place)
    }

    /// The place of the entry on a subject; none exactly where there is no such entry.
    pub fn place_on(&self, subject: Subject) -> Option<u64>
        ensures { result ≡ place_on self.now.entries subject }
    {
        self.shelf.number(Key::On(subject))
    }

    /// The entry about an output; none exactly where there is none yet.
    pub fn about(&self, output: u32) -> Option<&Entry>
        ensures { option_copied result ≡ about self.now.entries output }
    {
        match self.place_on(Subject::Output(output)) {
            Some(place) => self.entry(place),
            None => None,
        }
    }

    /// Whether the node is merged.
    ///
    /// It looks at no entry, which would be a miss of the cache for each gate where most gates are merged.
    pub fn is_merged(&self, node: Node) -> bool
        ensures { result ≡ is_some (merge_of self.now.entries node) }
    {
        self.place_on(Subject::Merged(node)).is_some()
    }

    /// Whether a query of the node and the literal spent its budget.
    pub fn is_spent(&self, node: Node, lit: Lit) -> bool
        ensures { result ≡ has_spent_on self.now.entries node lit }
    {
        self.shelf
            .number(Key::SpentOn(Task { node, lit }))
            .is_some()
    }

    /// The entry that merges the node, and the literal that has the node's value.
    fn merge_of(&self, node: Node) -> Option<(u64, Lit)>
        ensures { option_map (λ m. record { entry = m.0; lit = m.1 }) result
            ≡ merge_of self.now.entries node }
    {
        let place = self.place_on(Subject::Merged(node))?;
        match self.entry(place) {
            Some(Entry::Merge { lit, .. }) => Some((place, *lit)),
            _ => None,
        }
    }

    /// The merge of the node among the first `seen` entries.
    pub(crate) fn merge_among(&self, seen: u64, node: Node) -> Option<(u64, Lit)>
        ensures { option_map (λ m. record { entry = m.0; lit = m.1 }) result
            ≡ merge_of (take seen self.now.entries) node }
    {
        match self.merge_of(node) {
            Some((place, lit)) => {
                if place < seen {
                    Some((place, lit))
                } else {
                    None
                }
            }
            None => None,
        }
    }

    /// The root of a literal: its node's target, the target's target, and so on, with the sign carried
    /// along, in constant time for each of them.
    pub fn root(&self, lit: Lit) -> Lit
        ensures { result ≡ root_of self.now.entries lit }
    {
        let mut lit = lit;
        for _step in 0..self.len() {
            match self.merge_of(lit.node) {
                Some((_, target)) => lit = carried(lit.neg, target),
                None => return lit,
            }
        }
        lit
    }

    /// The places of the entries on the way from a literal to its root, in order.
    pub fn path(&self, alloc: Global, lit: Lit) -> Result<Vec<u64>, AllocError>
        ensures { IfOk result (λ v. v.items ≡ path_of self.now.entries lit) }
    {
        let mut path = Vec::new(alloc);
        let mut lit = lit;
        for _step in 0..self.len() {
            match self.merge_of(lit.node) {
                Some((place, target)) => {
                    path.push(place)?;
                    lit = carried(lit.neg, target);
                }
                None => break,
            }
        }
        Ok(path)
    }

    /// The root of a literal; the literals on the way whose nodes are merged are put last in the list. Where
    /// memory is refused, it has some first ones of them.
    pub fn root_by(&self, lit: Lit, passed: &mut Vec<Lit>) -> Result<Lit, AllocError>
        ensures root { IfOk result (λ r. r ≡ root_of self.now.entries lit) }
        ensures passed { OnOk result (passed.new.items ≡ passed.old.items ++ passed_by self.now.entries lit) }
        ensures refused { OnErr result
            (PutsSome (passed_by self.now.entries lit) passed.old.items passed.new.items) }
    {
        let mut lit = lit;
        for _step in 0..self.len() {
            match self.merge_of(lit.node) {
                Some((_, target)) => {
                    passed.push(lit)?;
                    lit = carried(lit.neg, target);
                }
                None => break,
            }
        }
        Ok(lit)
    }

    /// The cone of the literals' nodes over the first `seen` entries: the clauses that define these
    /// nodes, those that define what the clauses speak of, and so on, in the order of the miter; a
    /// merged node has its merge's clauses. No constraint is in it.
    ///
    /// The work is that of the cone, whatever the length of the book and the size of the net.
    pub fn cone(
        &self,
        alloc: Global,
        net: &Net,
        seen: u64,
        lits: &[Lit],
    ) -> Result<Vec<Named>, AllocError>
        requires legal { IsLegal net.now self.now }
        requires there { AreThere net.now lits.now }
        ensures { IfOk result (λ v. IsCone net.now (take seen self.now.entries) (nodes_in lits.now) v.items) }
    {
        cone_over(alloc, net, self, seen, lits)
    }

    /// The cone of an output over the first `seen` entries: that of its XOR and of the constraints' nodes,
    /// and behind it the units of all constraints, those of A in order, then those of B.
    ///
    /// The work is that of this cone.
    pub fn output_cone(
        &self,
        alloc: Global,
        net: &Net,
        seen: u64,
        output: u32,
    ) -> Result<Vec<Named>, AllocError>
        requires legal { IsLegal net.now self.now }
        requires there { output < length net.now.a.outputs }
        ensures { IfOk result
            (λ v. IsOutputCone net.now (take seen self.now.entries) output v.items) }
    {
        output_cone_over(alloc, net, self, seen, output)
    }

    /// The clauses that a cone over the first `seen` entries has of the literals' nodes alone, in its order.
    pub fn clauses_on(
        &self,
        alloc: Global,
        net: &Net,
        seen: u64,
        lits: &[Lit],
    ) -> Result<Vec<Named>, AllocError>
        requires legal { IsLegal net.now self.now }
        requires there { AreThere net.now lits.now }
        ensures { IfOk result
            (λ v. v.items ≡ clauses_on net.now (take seen self.now.entries) (nodes_in lits.now)) }
    {
        clauses_on(alloc, net, self, seen, lits)
    }

    /// The same book, which shares its entries.
    pub fn copy(&self, alloc: Global) -> Result<Book, AllocError>
        ensures { IfOk result (λ b. b ≡ self.now) }
    {
        let mut shelf = Shelf::new(alloc);
        shelf.catch_up(alloc, &self.shelf)?;
        Ok(Book {
            sweep_budget: self.sweep_budget,
            out_budget: self.out_budget,
            shelf,
        })
    }

    /// The first so many entries as a book of its own, which shares them.
    pub fn first(&self, alloc: Global, count: u64) -> Result<Book, AllocError>
        requires { count ≤ length self.now.entries }
        ensures { IfOk result (λ b. b ≡ record {
          sweep_budget = self.now.sweep_budget;
          out_budget = self.now.out_budget;
          entries = take count self.now.entries;
        }) }
    {
        let mut book = Book::new(alloc, self.sweep_budget, self.out_budget);
        for i in 0..count {
            book.push_shared(self, i)?;
        }
        Ok(book)
    }

    /// Takes over, and shares, what a longer book has behind this one. Where memory is refused nothing
    /// is taken.
    pub fn catch_up(&mut self, alloc: Global, longer: &Book) -> Result<(), AllocError>
        requires { StartsWith longer.now self.old }
        ensures ok { OnOk result (self.new ≡ longer.now) }
        ensures err { OnErr result (self.new ≡ self.old) }
    {
        self.shelf.catch_up(alloc, &longer.shelf)
    }

    /// Puts an entry last. Where memory is refused, the book is as it was, and the entry comes back.
    pub(crate) fn push(&mut self, alloc: Global, entry: Entry) -> Result<(), (Entry, AllocError)>
        ensures ok { OnOk result (self.new ≡ with_last self.old entry) }
        ensures err { IfErr result (λ e. (e.0 ≡ entry) × (self.new ≡ self.old)) }
    {
        self.shelf.push(alloc, entry)
    }

    /// Puts entry `i` of another book last, shared with it. Where memory is refused, the book is as it was.
    pub(crate) fn push_shared(&mut self, from: &Book, i: u64) -> Result<(), AllocError>
        requires { i < length from.now.entries }
        ensures ok { OnOk result
            (IfSome (slice_get from.now.entries i) (λ e. self.new ≡ with_last self.old e)) }
        ensures err { OnErr result (self.new ≡ self.old) }
    {
        self.shelf.push_shared(&from.shelf, i)
    }
}

/// The literal, or its negation.
fn carried(neg: bool, lit: Lit) -> Lit
    ensures { result ≡ carried neg lit }
{
    if neg { lit.not() } else { lit }
}
