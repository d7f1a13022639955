ghost use Rattle.std.specs.Prelude.{◌≡◌, ◌≤◌, Some, List, false, length, IfOk, IfSome, OnOk, OnErr};
ghost use Rattle.lits.specs.Same.{same_node, opposite};
ghost use Rattle.lits.specs.declared.step.Named.{Named};
ghost use Rattle.netlist.specs.Net.{IsNet, position_of};
ghost use Rattle.netlist.specs.Miter.{positive, negative};
ghost use Rattle.unit_prop.specs.HintScan.{IsNamed};
ghost use Rattle.unit_prop.specs.Log.{base_clauses};
ghost use Rattle.lemma_book.specs.Entry.{with_last};
ghost use Rattle.lemma_book.specs.Root.{IsRoot};
ghost use Rattle.lemma_book.specs.Cone.{AreThere, clauses_on, nodes_in};
ghost use Rattle.lemma_book.specs.Good.{ArePlaced, IsEarlier, IsGood};
ghost use Rattle.lemma_book.specs.Book.{IsLegal};
ghost use Rattle.strash_pass.specs.Merged.{AreMergesOf};
ghost use Rattle.strash_pass.specs.Strash.{AreScanned};
ghost use Rattle.strash_pass.specs.Words.{AreCodedOn};
ghost use Rattle.strash_pass.specs.Pass.{ShowsMerge, ShowsOver, Merges, AreNotXors};

use crate::coded::{Coded, marks_of};
use crate::codes::position_of;
use crate::hints::step_at;
use crate::merged::{Known, Merged};
use crate::shapes::Shapes;
use crate::words::Words;
use lemma_book::{Book, Entry};
use lits::{Listed, Lit, Literal, Named, Node, Step};
use netlist::Net;
use std::alloc::{AllocError, Global};
use unit_prop::scanned_step;

/// Merges a node, which stands at a position, to a literal of an earlier one, by two steps over the clauses of the nodes on the way alone.
/// Their literals are over these nodes and those of the others.
///
/// Over the whole cone of the node, hints would run down to the inputs, and the proof of a circuit
/// against itself would grow with the square of its depth.
pub fn merge(
    alloc: Global,
    net: &Net,
    book: &mut Book,
    merged: &mut Merged,
    words: &mut Words,
    node: Node,
    own: u32,
    target: Lit,
    way: &[Lit],
    others: &[Lit],
) -> Result<(), AllocError>
    requires net { IsNet net.now }
    requires own { position_of net.now node ≡ Some own }
    requires legal { IsLegal net.now book.old }
    requires merged { AreMergesOf net.now book.old.entries merged.old }
    requires there { AreThere net.now way.now }
    requires no_xors { AreNotXors way.now }
    requires placed { ArePlaced net.now node target }
    requires earlier { IsEarlier net.now node target }
    requires unmerged { IsRoot book.old.entries node }
    requires shows { ShowsMerge net.now book.old.entries way.now node target }
    ensures legal { IsLegal net.now book.new }
    ensures ok { OnOk result (Merges net.now book.old book.new way.now node target) }
    ensures merged { OnOk result (AreMergesOf net.now book.new.entries merged.new) }
    ensures err { OnErr result (book.new ≡ book.old) }
{
    let steps = steps_of(alloc, net, book, merged, words, node, target, way, others)?;
    put(alloc, net, book, merged, node, own, target, steps)
}

/// The steps that show the two clauses of the merge.
fn steps_of(
    alloc: Global,
    net: &Net,
    book: &Book,
    merged: &Merged,
    words: &mut Words,
    node: Node,
    target: Lit,
    way: &[Lit],
    others: &[Lit],
) -> Result<Vec<Step>, AllocError>
    requires net { IsNet net.now }
    requires legal { IsLegal net.now book.now }
    requires merged { AreMergesOf net.now book.now.entries merged.now }
    requires there { AreThere net.now way.now }
    requires no_xors { AreNotXors way.now }
    requires apart { same_node target.node node ≡ false }
    requires shows { ShowsMerge net.now book.now.entries way.now node target }
    ensures { IfOk result
        (λ v. AreScanned (clauses_on net.now book.now.entries (nodes_in way.now)) node target v.items) }
{
    match steps_by_words(alloc, net, book, merged, words, node, target, way, others)? {
        Some(steps) => Ok(steps),
        None => steps_by_clauses(alloc, net, book, node, target, way),
    }
}

/// The steps that show the two clauses of the merge, by the words of the clauses on the way; none where these
/// can't be had.
fn steps_by_words(
    alloc: Global,
    net: &Net,
    book: &Book,
    merged: &Merged,
    words: &mut Words,
    node: Node,
    target: Lit,
    way: &[Lit],
    others: &[Lit],
) -> Result<Option<Vec<Step>>, AllocError>
    requires net { IsNet net.now }
    requires legal { IsLegal net.now book.now }
    requires merged { AreMergesOf net.now book.now.entries merged.now }
    requires no_xors { AreNotXors way.now }
    requires apart { same_node target.node node ≡ false }
    ensures { IfOk result (λ r. IfSome r
        (λ v. AreScanned (clauses_on net.now book.now.entries (nodes_in way.now)) node target v.items)) }
{
    if words.gather(net, book, merged, way, others)? {
        both_by_words(
            alloc,
            &words.nodes,
            &words.coded,
            &mut words.shapes,
            node,
            target,
        )
    } else {
        Ok(None)
    }
}

/// The steps that show the two clauses of the merge from the clauses that the words stand for, by the hints of
/// `unit_prop::scan`; none where scanning comes to no end.
fn both_by_words(
    alloc: Global,
    nodes: &[Node],
    coded: &[Coded],
    shapes: &mut Shapes,
    node: Node,
    target: Lit,
) -> Result<Option<Vec<Step>>, AllocError>
    requires few { length nodes.now ≤ 32 }
    requires apart { same_node target.node node ≡ false }
    ensures { IfOk result (λ r. IfSome r (λ v. (base : List Named) → AreCodedOn nodes.now base coded.now
        → AreScanned base node target v.items)) }
{
    let lit = Lit { node, neg: false };
    let Some(below) = marks_of(nodes, lit.not(), target) else {
        return Ok(None);
    };
    let Some(above) = marks_of(nodes, lit, target.not()) else {
        return Ok(None);
    };
    let Some(shape) = shapes.shape_of(alloc, coded, below, above)? else {
        return Ok(None);
    };
    let mut steps = Vec::with_capacity(alloc, 2)?;
    steps.push(step_at(alloc, coded, lit.not(), target, shape.first())?)?;
    steps.push(step_at(alloc, coded, lit, target.not(), shape.second())?)?;
    Ok(Some(steps))
}

/// The steps that show the two clauses of the merge, by the list of the clauses on the way.
fn steps_by_clauses(
    alloc: Global,
    net: &Net,
    book: &Book,
    node: Node,
    target: Lit,
    way: &[Lit],
) -> Result<Vec<Step>, AllocError>
    requires legal { IsLegal net.now book.now }
    requires there { AreThere net.now way.now }
    requires no_xors { AreNotXors way.now }
    requires apart { same_node target.node node ≡ false }
    requires shows { ShowsMerge net.now book.now.entries way.now node target }
    ensures { IfOk result
        (λ v. AreScanned (clauses_on net.now book.now.entries (nodes_in way.now)) node target v.items) }
{
    let base = book.clauses_on(alloc, net, book.len(), way)?;
    both_steps(alloc, &base, node, target)
}

/// The steps that show the two clauses of the merge from the base.
fn both_steps(
    alloc: Global,
    base: &[Named],
    node: Node,
    target: Lit,
) -> Result<Vec<Step>, AllocError>
    requires named { IsNamed base.now }
    requires apart { same_node target.node node ≡ false }
    requires below { ShowsOver (base_clauses base.now) (negative node) target }
    requires above { ShowsOver (base_clauses base.now) (positive node) (opposite target) }
    ensures { IfOk result (λ v. AreScanned base.now node target v.items) }
{
    let lit = Lit { node, neg: false };
    let mut steps = Vec::with_capacity(alloc, 2)?;
    steps.push(scanned_step(alloc, base, &[lit.not(), target])?)?;
    steps.push(scanned_step(alloc, base, &[lit, target.not()])?)?;
    Ok(steps)
}

/// Puts the merge by these steps last, and notes it.
fn put(
    alloc: Global,
    net: &Net,
    book: &mut Book,
    merged: &mut Merged,
    node: Node,
    own: u32,
    target: Lit,
    steps: Vec<Step>,
) -> Result<(), AllocError>
    requires own { position_of net.now node ≡ Some own }
    requires legal { IsLegal net.now book.old }
    requires merged { AreMergesOf net.now book.old.entries merged.old }
    requires placed { ArePlaced net.now node target }
    requires unmerged { IsRoot book.old.entries node }
    requires good { IsGood net.now book.old (Entry.Merge node target steps.items) }
    ensures legal { IsLegal net.now book.new }
    ensures ok { OnOk result (book.new ≡ with_last book.old (Entry.Merge node target steps.items)) }
    ensures merged { OnOk result (AreMergesOf net.now book.new.entries merged.new) }
    ensures err { OnErr result (book.new ≡ book.old) }
{
    let at = position_of(net, target.node);
    let entry = Entry::Merge {
        node,
        lit: target,
        steps: Listed::of(steps),
    };
    let place = book.len();
    match book.append(alloc, net, place, entry) {
        Ok(_) => {
            merged.note(own, Some(Known { place, target, at }));
            Ok(())
        }
        Err((_entry, error)) => Err(error),
    }
}
