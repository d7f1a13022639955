ghost use Rattle.std.specs.Prelude.{◌≡◌, ◌+◌, ◌∷◌, ◌++◌, None, Some, slice_get, OnOk, OnErr, IfOk};
ghost use Rattle.netlist.specs.Net.{IsNet, definitions, position_of};
ghost use Rattle.netlist.specs.Miter.{positive};
ghost use Rattle.lemma_book.specs.Book.{IsLegal};
ghost use Rattle.lemma_book.specs.Root.{passed_by};
ghost use Rattle.strash_pass.specs.Merged.{AreMergesOf, IsRootAt};
ghost use Rattle.strash_pass.specs.Strash.{AddsStructural};

use crate::codes::{code_of, fanins_at, gate_position};
use crate::fold::folded;
use crate::merged::Merged;
use crate::pair::Pair;
use crate::twins::Twins;
use crate::ways::{merge_folded, merge_twin};
use crate::words::Words;
use lemma_book::Book;
use lits::Lit;
use netlist::{Definition, Fanins, Net};
use std::alloc::{AllocError, Global};

/// The gates that were visited and stay unmerged, by their fanins' roots, the book's merges by positions, how
/// many gates were visited, and room for a gate's way and for the clauses that a merge stands on.
#[derive(Drop)]
pub struct Pass {
    pub twins: Twins,
    pub merged: Merged,
    pub visited: u64,
    pub way: Vec<Lit>,
    pub words: Words,
}

impl Pass {
    ghost use Rattle.std.specs.Prelude.{IfNone, IfSome};
    ghost use Rattle.lemma_book.specs.Root.{IsRoot};
    ghost use Rattle.strash_pass.specs.Strash.{folded};
    ghost use Rattle.strash_pass.specs.Pass.{IsPass, IsTwin};

    /// Visits the next gate: it is merged where its fanins' roots decide it or an earlier gate has the
    /// same, and is noted where not.
    pub fn visit(
        &mut self,
        alloc: Global,
        net: &Net,
        book: &mut Book,
        gate: Definition,
    ) -> Result<(), AllocError>
        requires net { IsNet net.now }
        requires legal { IsLegal net.now book.old }
        requires pass { IsPass net.now book.old.entries self.old.twins self.old.visited }
        requires merged { AreMergesOf net.now book.old.entries self.old.merged }
        requires gate { slice_get (definitions net.now) self.old.visited ≡ Some gate }
        ensures legal { IsLegal net.now book.new }
        ensures grows { AddsStructural net.now self.old.visited (self.old.visited + 1) book.old book.new }
        ensures pass { OnOk result (IsPass net.now book.new.entries self.new.twins self.new.visited) }
        ensures merged { OnOk result (AreMergesOf net.now book.new.entries self.new.merged) }
        ensures visited { OnOk result (self.new.visited ≡ self.old.visited + 1) }
        ensures err { OnErr result (book.new ≡ book.old) }
    {
        self.settle(alloc, net, book, gate)?;
        self.visited += 1;
        Ok(())
    }

    /// Merges or notes the next gate, unless it is merged already.
    fn settle(
        &mut self,
        alloc: Global,
        net: &Net,
        book: &mut Book,
        gate: Definition,
    ) -> Result<(), AllocError>
        requires net { IsNet net.now }
        requires legal { IsLegal net.now book.old }
        requires pass { IsPass net.now book.old.entries self.old.twins self.old.visited }
        requires merged { AreMergesOf net.now book.old.entries self.old.merged }
        requires gate { slice_get (definitions net.now) self.old.visited ≡ Some gate }
        ensures legal { IsLegal net.now book.new }
        ensures grows { AddsStructural net.now self.old.visited (self.old.visited + 1) book.old book.new }
        ensures pass { OnOk result (IsPass net.now book.new.entries self.new.twins (self.old.visited + 1)) }
        ensures merged { OnOk result (AreMergesOf net.now book.new.entries self.new.merged) }
        ensures visited { self.new.visited ≡ self.old.visited }
        ensures err { OnErr result (book.new ≡ book.old) }
    {
        let at = gate_position(net, self.visited as u32);
        if self.merged.is_merged(net, book, gate.node, at) {
            return Ok(());
        }
        let fanins = fanins_at(net, self.visited as u32);
        let roots = roots_of(net, book, &self.merged, gate, fanins, &mut self.way)?;
        match folded(roots.left.lit, roots.right.lit) {
            Some(target) => {
                merge_folded(
                    alloc,
                    net,
                    book,
                    &mut self.merged,
                    &mut self.words,
                    gate,
                    at,
                    roots,
                    target,
                    &mut self.way,
                )
            },
            None => match self.twin(net, book, gate, at, roots)? {
                Some(twin) => {
                    merge_twin(
                        alloc,
                        net,
                        book,
                        &mut self.merged,
                        &mut self.words,
                        gate,
                        at,
                        twin,
                        roots,
                        &mut self.way,
                    )
                }
                None => Ok(()),
            },
        }
    }

    /// The gate that was noted with these roots, in either order; where there is none, this gate is noted.
    fn twin(
        &mut self,
        net: &Net,
        book: &Book,
        gate: Definition,
        at: u32,
        roots: Pair,
    ) -> Result<Option<Definition>, AllocError>
        requires net { IsNet net.now }
        requires legal { IsLegal net.now book.now }
        requires pass { IsPass net.now book.now.entries self.old.twins self.old.visited }
        requires gate { slice_get (definitions net.now) self.old.visited ≡ Some gate }
        requires unmerged { IsRoot book.now.entries gate.node }
        requires at { position_of net.now gate.node ≡ Some at }
        requires left { IsRootAt net.now book.now.entries gate.left roots.left }
        requires right { IsRootAt net.now book.now.entries gate.right roots.right }
        requires unfolded { folded roots.left.lit roots.right.lit ≡ None }
        ensures twin { IfOk result (λ r. IfSome r (λ c. IsTwin net.now book.now.entries c gate
            × IsPass net.now book.now.entries self.new.twins self.old.visited)) }
        ensures noted { IfOk result (λ r. IfNone r
            (IsPass net.now book.now.entries self.new.twins (self.old.visited + 1))) }
        ensures visited { self.new.visited ≡ self.old.visited }
        ensures way { self.new.way.items ≡ self.old.way.items }
        ensures merged { self.new.merged ≡ self.old.merged }
    {
        let left = code_of(roots.left);
        let right = code_of(roots.right);
        match self.twins.twin_or_note(left, right, at)? {
            Some(twin) => Ok(net.definition(net.node(twin))),
            None => Ok(None),
        }
    }
}

/// The roots of a gate's fanins. The list gets its way: the gate, and the merged nodes that its fanins pass.
pub fn roots_of(
    net: &Net,
    book: &Book,
    merged: &Merged,
    gate: Definition,
    fanins: Fanins,
    way: &mut Vec<Lit>,
) -> Result<Pair, AllocError>
    requires legal { IsLegal net.now book.now }
    requires merged { AreMergesOf net.now book.now.entries merged.now }
    requires left_at { position_of net.now gate.left.node ≡ Some fanins.left.position }
    requires right_at { position_of net.now gate.right.node ≡ Some fanins.right.position }
    ensures left { IfOk result (λ r. IsRootAt net.now book.now.entries gate.left r.left) }
    ensures right { IfOk result (λ r. IsRootAt net.now book.now.entries gate.right r.right) }
    ensures way { OnOk result (way.new.items ≡ (positive gate.node ∷ passed_by book.now.entries gate.left)
        ++ passed_by book.now.entries gate.right) }
{
    way.clear();
    way.push(Lit {
        node: gate.node,
        neg: false,
    })?;
    let left = merged.root_by(net, book, gate.left, fanins.left.position, way)?;
    let right = merged.root_by(net, book, gate.right, fanins.right.position, way)?;
    Ok(Pair { left, right })
}
