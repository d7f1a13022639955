ghost use Rattle.std.specs.Prelude.{◌≡◌, ◌∷◌, ◌++◌, [], filter, length, IfOk, OnOk, if◌then◌else◌};
ghost use Rattle.lits.specs.declared.node.Side.TheVariants.{A};
ghost use Rattle.lits.specs.declared.node.Node.TheVariants.{Gate};
ghost use Rattle.netlist.specs.Net.{IsNet, nodes_of};
ghost use Rattle.lemma_book.specs.Book.{IsLegal};
ghost use Rattle.fraig_write.specs.Marks.{is_marked};
ghost use Rattle.fraig_write.specs.Reduced.{AreStaying};

use crate::marks::Marks;
use lemma_book::Book;
use lits::{Node, Side};
use netlist::{And, Net};
use std::alloc::{AllocError, Global};

/// The gates of A that are their own roots and that outputs and constraints reach, in A's order.
pub(crate) fn staying_gates(alloc: Global, net: &Net, book: &Book) -> Result<Vec<And>, AllocError>
    requires net { IsNet net.now }
    requires legal { IsLegal net.now book.now }
    ensures { IfOk result (λ v. AreStaying net.now.a book.now.entries v.items) }
{
    let marks = Marks::of_reached(alloc, net, book)?;
    let staying = marked_gates(alloc, net, &marks, net.circuit(Side::A).gates())?;
    Ok(staying)
}

/// Those of some gates of A that are marked, in order.
fn marked_gates(
    alloc: Global,
    net: &Net,
    marks: &Marks,
    gates: &[And],
) -> Result<Vec<And>, AllocError>
    requires { length marks.now ≡ length (nodes_of net.now) }
    ensures { IfOk result
        (λ v. v.items ≡ filter (λ g. is_marked net.now marks.now (Gate A g.var)) gates.now) }
{
    let mut marked = Vec::new(alloc);
    for gate in gates {
        put_marked(net, marks, *gate, &mut marked)?;
    }
    Ok(marked)
}

/// Puts a gate of A last, where it is marked.
fn put_marked(net: &Net, marks: &Marks, gate: And, marked: &mut Vec<And>) -> Result<(), AllocError>
    requires { length marks.now ≡ length (nodes_of net.now) }
    ensures { OnOk result (marked.new.items
        ≡ marked.old.items ++ (if is_marked net.now marks.now (Gate A gate.var) then gate ∷ [] else [])) }
{
    if marks.has(net, Node::Gate(Side::A, gate.var)) {
        marked.push(gate)?;
    }
    Ok(())
}
