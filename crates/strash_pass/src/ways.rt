ghost use Rattle.std.specs.Prelude.{◌≡◌, ◌++◌, Some, OnOk, OnErr};
ghost use Rattle.netlist.specs.Net.{IsNet, position_of};
ghost use Rattle.netlist.specs.Miter.{positive};
ghost use Rattle.lemma_book.specs.Book.{IsLegal};
ghost use Rattle.strash_pass.specs.Merged.{AreMergesOf, IsRootAt};
ghost use Rattle.strash_pass.specs.Strash.{constant_among, folded, way_of};
ghost use Rattle.strash_pass.specs.Pass.{HasGate, IsTwin, IsWay, Merges};

use crate::codes::position_of;
use crate::merge::merge;
use crate::merged::Merged;
use crate::pair::Pair;
use crate::words::Words;
use lemma_book::Book;
use lits::{Lit, Node};
use netlist::{Definition, Net};
use std::alloc::{AllocError, Global};

/// Merges a gate to what its fanins' roots come to. The way has the gate and the merged nodes that its
/// fanins passed.
pub fn merge_folded(
    alloc: Global,
    net: &Net,
    book: &mut Book,
    merged: &mut Merged,
    words: &mut Words,
    gate: Definition,
    own: u32,
    roots: Pair,
    target: Lit,
    way: &mut Vec<Lit>,
) -> Result<(), AllocError>
    requires net { IsNet net.now }
    requires legal { IsLegal net.now book.old }
    requires merged { AreMergesOf net.now book.old.entries merged.old }
    requires gate { HasGate net.now gate }
    requires own { position_of net.now gate.node ≡ Some own }
    requires way { IsWay net.now book.old.entries way.old.items gate }
    requires left { IsRootAt net.now book.old.entries gate.left roots.left }
    requires right { IsRootAt net.now book.old.entries gate.right roots.right }
    requires folds { folded roots.left.lit roots.right.lit ≡ Some target }
    ensures legal { IsLegal net.now book.new }
    ensures ok { OnOk result (Merges net.now book.old book.new
        (way.old.items ++ constant_among roots.left.lit roots.right.lit target) gate.node target) }
    ensures merged { OnOk result (AreMergesOf net.now book.new.entries merged.new) }
    ensures err { OnErr result (book.new ≡ book.old) }
{
    with_constant(way, roots.left.lit, roots.right.lit, target)?;
    let others = [roots.left.lit, roots.right.lit];
    merge(
        alloc, net, book, merged, words, gate.node, own, target, way, &others,
    )
}

/// Puts the constant last on the way, where one of the literals is it.
fn with_constant(way: &mut Vec<Lit>, left: Lit, right: Lit, target: Lit) -> Result<(), AllocError>
    ensures { OnOk result (way.new.items ≡ way.old.items ++ constant_among left right target) }
{
    if left.node == Node::Const || right.node == Node::Const || target.node == Node::Const {
        way.push(Lit {
            node: Node::Const,
            neg: false,
        })?;
    }
    Ok(())
}

/// Merges a gate to an earlier one over the same roots. The way has the gate and the merged nodes that
/// its fanins passed.
pub fn merge_twin(
    alloc: Global,
    net: &Net,
    book: &mut Book,
    merged: &mut Merged,
    words: &mut Words,
    gate: Definition,
    own: u32,
    twin: Definition,
    roots: Pair,
    way: &mut Vec<Lit>,
) -> Result<(), AllocError>
    requires net { IsNet net.now }
    requires legal { IsLegal net.now book.old }
    requires merged { AreMergesOf net.now book.old.entries merged.old }
    requires way { IsWay net.now book.old.entries way.old.items gate }
    requires twin { IsTwin net.now book.old.entries twin gate }
    requires own { position_of net.now gate.node ≡ Some own }
    ensures legal { IsLegal net.now book.new }
    ensures ok { OnOk result (Merges net.now book.old book.new
        (way.old.items ++ way_of book.old.entries twin) gate.node (positive twin.node)) }
    ensures merged { OnOk result (AreMergesOf net.now book.new.entries merged.new) }
    ensures err { OnErr result (book.new ≡ book.old) }
{
    let target = Lit {
        node: twin.node,
        neg: false,
    };
    way.push(target)?;
    let _left = merged.root_by(net, book, twin.left, position_of(net, twin.left.node), way)?;
    let _right = merged.root_by(
        net,
        book,
        twin.right,
        position_of(net, twin.right.node),
        way,
    )?;
    let others = [roots.left.lit, roots.right.lit];
    merge(
        alloc, net, book, merged, words, gate.node, own, target, way, &others,
    )
}
