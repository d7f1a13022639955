ghost use Rattle.std.specs.Prelude.{◌≡◌, ◌++◌, false, filter, take, IfOk, OnOk};
ghost use Rattle.std.specs.List.{flat_map};
ghost use Rattle.netlist.specs.Net.{IsNet};
ghost use Rattle.netlist.specs.Miter.{variables_of};
ghost use Rattle.lemma_book.specs.Walk.{is_found, IsWalk};
ghost use Rattle.lits.specs.Same.{same_node};
ghost use Rattle.lits.specs.declared.step.Ref.TheVariants.{Entry as Shown};
ghost use Rattle.lemma_book.specs.Entry.{merge_clauses};
ghost use Rattle.lemma_book.specs.Book.{IsLegal};
ghost use Rattle.lemma_book.specs.Cone.{AreThere, nodes_in, clauses_on, named_axioms, named_clauses, named_from, IsCone};

use crate::book::Book;
use crate::walk::Walk;
use lits::{Clause, Lit, Literal, Named, Node, Ref};
use netlist::{Net, laws};
use std::alloc::{AllocError, Global};

/// The cone of the literals' nodes over the first `seen` entries of a book.
///
/// A merged node stands for its target there, so cones shrink while a sweep goes on.
pub fn cone_over(
    alloc: Global,
    net: &Net,
    book: &Book,
    seen: u64,
    lits: &[Lit],
) -> Result<Vec<Named>, AllocError>
    requires legal { IsLegal net.now book.now }
    requires there { AreThere net.now lits.now }
    ensures { IfOk result (λ v. IsCone net.now (take seen book.now.entries) (nodes_in lits.now) v.items) }
{
    laws::is_net(net);
    let walk = Walk::of(alloc, net, book, seen, lits)?;
    let cone = clauses_found(alloc, net, book, seen, &walk)?;
    Ok(cone)
}

/// The clauses that a cone over the first `seen` entries has of the literals' nodes alone.
pub fn clauses_on(
    alloc: Global,
    net: &Net,
    book: &Book,
    seen: u64,
    lits: &[Lit],
) -> Result<Vec<Named>, AllocError>
    requires legal { IsLegal net.now book.now }
    requires there { AreThere net.now lits.now }
    ensures { IfOk result
        (λ v. v.items ≡ clauses_on net.now (take seen book.now.entries) (nodes_in lits.now)) }
{
    laws::is_net(net);
    let walk = Walk::at(alloc, net, lits)?;
    let clauses = clauses_found(alloc, net, book, seen, &walk)?;
    Ok(clauses)
}

/// The clauses of the nodes that a walk has found, in the order of the miter.
fn clauses_found(
    alloc: Global,
    net: &Net,
    book: &Book,
    seen: u64,
    walk: &Walk,
) -> Result<Vec<Named>, AllocError>
    requires net { IsNet net.now }
    requires legal { IsLegal net.now book.now }
    requires walk { IsWalk net.now walk.now }
    ensures { IfOk result (λ v. v.items
        ≡ flat_map (named_clauses net.now (take seen book.now.entries))
        (filter (is_found walk.now) (variables_of net.now))) }
{
    let mut clauses = Vec::new(alloc);
    for node in walk.found.values() {
        add_clauses(alloc, net, book, seen, *node, &mut clauses)?;
    }
    Ok(clauses)
}

/// Puts the clauses of a node last: those of its merge, where one of the first `seen` entries merges it.
fn add_clauses(
    alloc: Global,
    net: &Net,
    book: &Book,
    seen: u64,
    node: Node,
    cone: &mut Vec<Named>,
) -> Result<(), AllocError>
    requires { IsLegal net.now book.now }
    ensures { OnOk result
        (cone.new.items ≡ cone.old.items ++ named_clauses net.now (take seen book.now.entries) node) }
{
    match book.merge_among(seen, node) {
        Some((place, target)) => add_merge(alloc, place, node, target, cone),
        None => add_axioms(alloc, net, node, cone),
    }
}

/// Puts the two clauses of a merge last.
fn add_merge(
    alloc: Global,
    place: u64,
    node: Node,
    target: Lit,
    cone: &mut Vec<Named>,
) -> Result<(), AllocError>
    requires { same_node node target.node ≡ false }
    ensures { OnOk result
        (cone.new.items ≡ cone.old.items ++ named_from (Shown place) 0 (merge_clauses node target)) }
{
    let lit = Lit { node, neg: false };
    let clause = Clause::from_slice(alloc, &[lit.not(), target])?;
    let by = Ref::Entry(place, 0);
    cone.push(Named { clause, by })?;
    let clause = Clause::from_slice(alloc, &[lit, target.not()])?;
    let by = Ref::Entry(place, 1);
    cone.push(Named { clause, by })?;
    Ok(())
}

/// Puts the clauses that define a node last.
fn add_axioms(alloc: Global, net: &Net, node: Node, cone: &mut Vec<Named>) -> Result<(), AllocError>
    ensures { OnOk result (cone.new.items ≡ cone.old.items ++ named_axioms net.now node) }
{
    let axioms = net.axioms(node);
    for (k, axiom) in axioms.as_slice().iter().enumerate() {
        let clause = Clause::from_slice(alloc, axiom.lits())?;
        let by = Ref::Axiom(node, k as u8);
        cone.push(Named { clause, by })?;
    }
    Ok(())
}
