//! The book that shows a circuit and its reduced circuit equal.
ghost use Rattle.std.specs.Prelude.{◌≡◌, ◌<◌, ℕ, true, None, length, IfOk, IfSome, OnOk, Some};
ghost use Rattle.lits.specs.declared.node.Node.TheVariants.{Gate};
ghost use Rattle.netlist.specs.Net.{circuit_of, defined_by, definition_of};
ghost use Rattle.lemma_book.specs.Book.{IsLegal};
ghost use Rattle.lemma_book.specs.Entry.{about, has_out, with_last};
ghost use Rattle.lemma_book.specs.Good.{IsGood};
ghost use Rattle.equal_outputs.specs.EqualRoots.{HasFewSteps, HaveOtherRoots, IsOutOf};
ghost use Rattle.fraig_write.specs.Reduced.{IsReducedCircuit};
ghost use Rattle.fraig_write.specs.Mirror.{AreOfA, IsMirror};
ghost use Rattle.fraig_write.specs.Mirroring.{IsAsked, IsMerged, IsUpToGate, IsUpToOutput};

use crate::staying::staying_gates;
use equal_outputs::equal_output;
use lemma_book::{Book, Entry};
use lits::{Node, Side};
use netlist::{And, Definition, Net};
use std::alloc::{AllocError, Global};
use strash_pass::{Words, merge_to_twin};

/// The book that shows circuit A of the net and its reduced circuit B equal: that of the given entries, which are
/// about A, with a merge of each gate of B to the gate that it was made from, and then an entry for each output.
///
/// No query is made. A gate of B has the roots of its original's fanins, behind the merges of the gates before
/// it, so each merge is that of two structural twins, and then each output's literals have one root. The work is
/// that of the ways of the fanins and of the outputs to their roots.
pub fn mirror(alloc: Global, net: &Net, book: &Book) -> Result<Book, AllocError>
    requires legal { IsLegal net.now book.now }
    requires of_a { AreOfA book.now.entries }
    requires reduced { IsReducedCircuit net.now.a book.now.entries net.now.b }
    ensures mirror { IfOk result (IsMirror net.now book.now) }
    ensures legal { IfOk result (IsLegal net.now) }
    ensures equal { IfOk result (λ b. (j : ℕ) → j < length net.now.a.outputs → has_out b.entries j ≡ true) }
{
    netlist::laws::is_net(net);
    let staying = staying_gates(alloc, net, book)?;
    let mut mirrored = book.copy(alloc)?;
    merge_gates(alloc, net, staying.as_slice(), &mut mirrored)?;
    show_outputs(alloc, net, &mut mirrored)?;
    Ok(mirrored)
}

/// Merges each gate of B to the gate of A that it was made from.
fn merge_gates(alloc: Global, net: &Net, staying: &[And], book: &mut Book) -> Result<(), AllocError>
    requires { IsAsked net.now book.old staying.now }
    ensures { OnOk result (IsUpToGate net.now book.old staying.now (length net.now.b.gates) book.new) }
{
    let mut words = Words::new(alloc);
    let gates = net.circuit(Side::B).gates();
    for k in 0..gates.len() {
        let gate = definition(net, Side::B, gates[k]);
        let original = definition(net, Side::A, staying[k]);
        merge_to_twin(alloc, net, book, &mut words, gate, original)?;
    }
    Ok(())
}

/// What defines the node of a gate that the side has.
fn definition(net: &Net, side: Side, gate: And) -> Definition
    requires { defined_by net.now (Gate side gate.var)
        ≡ Some (definition_of side (circuit_of net.now side) gate) }
    ensures { result ≡ definition_of side (circuit_of net.now side) gate }
{
    match net.definition(Node::Gate(side, gate.var)) {
        Some(definition) => definition,
        None => unreachable!(),
    }
}

/// Puts an entry for each output, both of whose literals have one root.
fn show_outputs(alloc: Global, net: &Net, book: &mut Book) -> Result<(), AllocError>
    requires { IsMerged net.now book.old }
    ensures { OnOk result (IsUpToOutput net.now book.old (length net.now.a.outputs) book.new) }
{
    for j in 0..net.outputs() {
        let entry = output_entry(alloc, net, book, j)?;
        put(alloc, net, book, entry)?;
    }
    Ok(())
}

/// The entry of an output whose literals have one root.
fn output_entry(alloc: Global, net: &Net, book: &Book, j: u32) -> Result<Entry, AllocError>
    requires legal { IsLegal net.now book.now }
    requires output { j < length net.now.a.outputs }
    requires unsettled { about book.now.entries j ≡ None }
    requires roots { HaveOtherRoots net.now book.now.entries j → ⊥ }
    ensures equal { IfOk result (IsOutOf j) }
    ensures good { IfOk result (IsGood net.now book.now) }
    ensures few { IfOk result HasFewSteps }
{
    match equal_output(alloc, net, book, j)? {
        Some(entry) => Ok(entry),
        None => unreachable!(),
    }
}

/// Puts a good entry last.
fn put(alloc: Global, net: &Net, book: &mut Book, entry: Entry) -> Result<(), AllocError>
    requires legal { IsLegal net.now book.old }
    requires good { IsGood net.now book.old entry }
    ensures ok { OnOk result (book.new ≡ with_last book.old entry) }
    ensures legal { IsLegal net.now book.new }
{
    let known = book.len();
    match book.append(alloc, net, known, entry) {
        Ok(_) => Ok(()),
        Err((_entry, error)) => Err(error),
    }
}
