ghost use Rattle.std.specs.Prelude.{◌≡◌, ◌++◌, [], Some, is_some, slice_set, OnOk, IfOk};
ghost use Rattle.netlist.specs.Net.{IsNet, position_of};
ghost use Rattle.lemma_book.specs.Book.{IsLegal};
ghost use Rattle.lemma_book.specs.Root.{carried, merge_of, passed_by, root_of};
ghost use Rattle.strash_pass.specs.Merged.{merge_to, AreMergesOf, IsMergeOf, IsRootAt};

use crate::codes::position_of;
use lemma_book::{Book, Entry, Subject};
use lits::{Lit, Literal, Node};
use netlist::Net;
use std::alloc::{AllocError, Global};
use std::marker::Model;

/// The merge of a node: the place of its entry, and its target with the position of the target's node.
#[derive(Clone, Copy)]
pub struct Known {
    pub place: u64,
    pub target: Lit,
    pub at: u32,
}

/// A literal and the position of its node.
#[derive(Clone, Copy)]
pub struct Spot {
    pub lit: Lit,
    pub at: u32,
}

/// What a book merges the nodes at the first so many positions to.
///
/// A merge asks a dozen times whether a node is merged and to what. To ask the book, which finds a node by
/// its hash, took a fifth of the pass. Nodes behind the last position are asked for there, so a list of none
/// serves who takes one merge alone.
#[derive(Drop)]
pub struct Merged {
    known: Vec<Option<Known>>,
}

impl Model for Merged {
    ghost use Rattle.std.specs.Prelude.{List, Option};
    ghost use Rattle.strash_pass.specs.declared.merged.Known.{Known};

    ghost Value = { List (Option Known) };

    ghost view = { λ m. m.known.items };
}

impl Merged {
    /// Of no nodes.
    pub fn none(alloc: Global) -> Merged
        ensures { result ≡ [] }
    {
        Merged {
            known: Vec::new(alloc),
        }
    }

    /// Of all nodes.
    pub fn of(alloc: Global, net: &Net, book: &Book) -> Result<Merged, AllocError>
        requires net { IsNet net.now }
        requires legal { IsLegal net.now book.now }
        ensures { IfOk result (λ m. AreMergesOf net.now book.now.entries m) }
    {
        let positions = net.positions();
        let mut known = Vec::with_capacity(alloc, positions as usize)?;
        for position in 0..positions {
            known.push(merge_in(net, book, net.node(position)))?;
        }
        Ok(Merged { known })
    }

    /// The merge of the node at a position, if it is merged.
    pub fn find(&self, net: &Net, book: &Book, node: Node, at: u32) -> Option<Known>
        requires legal { IsLegal net.now book.now }
        requires merged { AreMergesOf net.now book.now.entries self.now }
        requires at { position_of net.now node ≡ Some at }
        ensures { IsMergeOf net.now book.now.entries node result }
    {
        match self.known.get(at as usize).copied() {
            Some(known) => known,
            None => merge_in(net, book, node),
        }
    }

    /// Whether the node at a position is merged.
    pub fn is_merged(&self, net: &Net, book: &Book, node: Node, at: u32) -> bool
        requires legal { IsLegal net.now book.now }
        requires merged { AreMergesOf net.now book.now.entries self.now }
        requires at { position_of net.now node ≡ Some at }
        ensures { result ≡ is_some (merge_of book.now.entries node) }
    {
        self.find(net, book, node, at).is_some()
    }

    /// Notes the merge of the node at a position.
    #[tactic(auto, using(crate::proofs::MergedLemmas::set_behind))]
    pub fn note(&mut self, at: u32, merge: Option<Known>)
        ensures { self.new ≡ slice_set self.old at merge }
    {
        if at as usize >= self.known.len() {
            return;
        }
        self.known[at as usize] = merge;
    }

    /// The root of a literal whose node has this position; the literals on the way whose nodes are merged are
    /// put last in the list.
    ///
    /// In a pass each target was a root when its merge was taken, and stays one. Longer ways come from a book
    /// that had entries before, and are left to it.
    pub fn root_by(
        &self,
        net: &Net,
        book: &Book,
        lit: Lit,
        at: u32,
        passed: &mut Vec<Lit>,
    ) -> Result<Spot, AllocError>
        requires legal { IsLegal net.now book.now }
        requires merged { AreMergesOf net.now book.now.entries self.now }
        requires at { position_of net.now lit.node ≡ Some at }
        ensures root { IfOk result (IsRootAt net.now book.now.entries lit) }
        ensures passed { OnOk result
            (passed.new.items ≡ passed.old.items ++ passed_by book.now.entries lit) }
    {
        let Some(merge) = self.find(net, book, lit.node, at) else {
            return Ok(Spot { lit, at });
        };
        let next = carried(lit.neg, merge.target);
        if self.is_merged(net, book, next.node, merge.at) {
            let root = book.root_by(lit, passed)?;
            let at = position_of(net, root.node);
            return Ok(Spot { lit: root, at });
        }
        passed.push(lit)?;
        Ok(Spot {
            lit: next,
            at: merge.at,
        })
    }
}

/// The merge of a node in the book, if it is merged. A pass over a new book asks this once for each node, so one
/// of no entries is asked for none.
#[tactic(auto, using(crate::proofs::MergedLemmas::none_merged))]
fn merge_in(net: &Net, book: &Book, node: Node) -> Option<Known>
    requires legal { IsLegal net.now book.now }
    ensures { IsMergeOf net.now book.now.entries node result }
{
    if book.len() == 0 {
        return None;
    }
    let place = book.place_on(Subject::Merged(node))?;
    match book.entry(place) {
        Some(Entry::Merge { lit, .. }) => Some(known_at(net, book, node, place, *lit)),
        _ => None,
    }
}

/// The merge of a node to this target, with the target's position.
fn known_at(net: &Net, book: &Book, node: Node, place: u64, target: Lit) -> Known
    requires legal { IsLegal net.now book.now }
    requires merge { merge_of book.now.entries node ≡ Some (merge_to place target) }
    ensures { IsMergeOf net.now book.now.entries node (Some result) }
{
    let at = position_of(net, target.node);
    Known { place, target, at }
}

/// The literal, or its negation.
fn carried(neg: bool, lit: Lit) -> Lit
    ensures { result ≡ carried neg lit }
{
    if neg { lit.not() } else { lit }
}
