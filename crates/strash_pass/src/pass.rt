ghost use Rattle.std.specs.Prelude.{◌≡◌, ◌+◌, length, OnOk, OnErr, IfOk};
ghost use Rattle.netlist.specs.Net.{IsNet, circuit_of, definitions};
ghost use Rattle.lemma_book.specs.Book.{IsLegal};
ghost use Rattle.strash_pass.specs.Merged.{AreMergesOf};
ghost use Rattle.strash_pass.specs.Strash.{AddsFirstPart, AddsMerges, AddsStructural, ArePlain};
ghost use Rattle.strash_pass.specs.Pass.{gates_before, IsPass};

use crate::circuit_seed::CircuitSeed;
use crate::merged::Merged;
use crate::twins::Twins;
use crate::visit::Pass;
use crate::words::Words;
use lemma_book::Book;
use lits::{Node, Side};
use netlist::{Net, laws};
use std::alloc::{AllocError, Global};

/// Merges each gate that the structure alone shows to be equal to an earlier node, and tells how many
/// it merged.
///
/// Gate by gate in the order of positions, each is merged to what its fanins' roots fold to, else to the
/// earliest unmerged gate over the same two roots, by the hints that scanning the clauses of both gates'
/// ways gives. Afterwards no unmerged gate folds or has an earlier unmerged twin. Where memory is refused
/// the merges of the first so many gates stand.
pub fn run(alloc: Global, net: &Net, book: &mut Book) -> Result<u64, AllocError>
    requires { IsLegal net.now book.old }
    ensures legal { IsLegal net.now book.new }
    ensures grows { AddsMerges book.old book.new }
    ensures structural { AddsStructural net.now 0 (length (definitions net.now)) book.old book.new }
    ensures count { IfOk result (λ n. length book.new.entries ≡ length book.old.entries + n) }
    ensures plain { OnOk result (ArePlain net.now book.new.entries) }
    ensures stopped { OnErr result (AddsFirstPart net.now 0 book.old book.new) }
{
    laws::is_net(net);
    let before = book.len();
    let mut pass = Pass {
        twins: Twins::new(alloc, net.all_fanins().len(), CircuitSeed::of(net))?,
        merged: Merged::of(alloc, net, book)?,
        visited: 0,
        way: Vec::new(alloc),
        words: Words::new(alloc),
    };
    visit_both(&mut pass, alloc, net, book)?;
    Ok(book.len() - before)
}

/// Visits the gates of both sides.
fn visit_both(pass: &mut Pass, alloc: Global, net: &Net, book: &mut Book) -> Result<(), AllocError>
    requires net { IsNet net.now }
    requires legal { IsLegal net.now book.old }
    requires pass { IsPass net.now book.old.entries pass.old.twins pass.old.visited }
    requires merged { AreMergesOf net.now book.old.entries pass.old.merged }
    requires visited { pass.old.visited ≡ 0 }
    ensures legal { IsLegal net.now book.new }
    ensures grows { AddsStructural net.now 0 (length (definitions net.now)) book.old book.new }
    ensures plain { OnOk result (ArePlain net.now book.new.entries) }
    ensures stopped { OnErr result (AddsFirstPart net.now 0 book.old book.new) }
{
    visit_side(pass, alloc, net, book, Side::A)?;
    visit_side(pass, alloc, net, book, Side::B)
}

/// Visits the gates of one side.
fn visit_side(
    pass: &mut Pass,
    alloc: Global,
    net: &Net,
    book: &mut Book,
    side: Side,
) -> Result<(), AllocError>
    requires net { IsNet net.now }
    requires legal { IsLegal net.now book.old }
    requires pass { IsPass net.now book.old.entries pass.old.twins pass.old.visited }
    requires merged { AreMergesOf net.now book.old.entries pass.old.merged }
    requires visited { pass.old.visited ≡ gates_before net.now side }
    ensures legal { IsLegal net.now book.new }
    ensures grows { AddsStructural net.now (gates_before net.now side)
        (gates_before net.now side + length (circuit_of net.now side).gates) book.old book.new }
    ensures pass { OnOk result (IsPass net.now book.new.entries pass.new.twins pass.new.visited) }
    ensures merged { OnOk result (AreMergesOf net.now book.new.entries pass.new.merged) }
    ensures visited { OnOk result
        (pass.new.visited ≡ gates_before net.now side + length (circuit_of net.now side).gates) }
    ensures stopped { OnErr result
        (AddsFirstPart net.now (gates_before net.now side) book.old book.new) }
{
    for gate in net.circuit(side).gates() {
        match net.definition(Node::Gate(side, gate.var)) {
            Some(definition) => pass.visit(alloc, net, book, definition)?,
            None => unreachable!(),
        }
    }
    Ok(())
}
