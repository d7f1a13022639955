ghost use Rattle.std.specs.Prelude.{◌≡◌, ◌<◌, length, IfOk, IfSome};
ghost use Rattle.std.specs.List.{list_all};
ghost use Rattle.std.specs.Option.{IsSome};
ghost use Rattle.netlist.specs.Circuit.{output_value};
ghost use Rattle.netlist.specs.Net.{DiffersOn, IsAdmitted, bound_of, bounds_on, circuit_of, lit_holds, position_of, value_of};
ghost use Rattle.lemma_book.specs.Good.{IsThere, ArePlaced, IsApart, HasApart};
ghost use Rattle.lemma_book.specs.Judging.{Tells};
ghost use Rattle.lemma_book.specs.ConeValue.{AreValues};

use crate::cone_value::value_at;
use crate::entry::Entry;
use crate::values::Values;
use lits::{Lit, Node, Side};
use netlist::{Net, laws};
use std::alloc::{AllocError, Global};

/// Whether values differ where the entry says so: two nodes are evaluated by their cones, and for an output
/// both circuits, where the input is admitted. `known` is kept from entry to entry for its memory alone.
pub(crate) fn has_apart(
    alloc: Global,
    net: &Net,
    known: &mut Values,
    entry: &Entry,
) -> Result<bool, AllocError>
    requires there { IsThere net.now entry.now }
    ensures { IfOk result (Tells (HasApart net.now entry.now)) }
{
    match entry {
        Entry::Apart { node, lit, input } => {
            are_apart(alloc, net, known, *node, *lit, input.as_slice())
        }
        Entry::OutApart { output, input } => {
            outputs_are_apart(alloc, net, known, *output, input.as_slice())
        }
        Entry::Merge { .. } | Entry::Spent { .. } | Entry::Out { .. } | Entry::OutSpent { .. } => {
            Ok(true)
        }
    }
}

/// Whether node and literal differ on the input.
fn are_apart(
    alloc: Global,
    net: &Net,
    known: &mut Values,
    node: Node,
    lit: Lit,
    input: &[bool],
) -> Result<bool, AllocError>
    requires placed { ArePlaced net.now node lit }
    ensures { IfOk result (Tells (IsApart net.now node lit input.now)) }
{
    if input.len() != net.circuit(Side::A).inputs().len() {
        return Ok(false);
    }
    known.forget();
    let value = node_value(alloc, net, input, known, node)?;
    let target = node_value(alloc, net, input, known, lit.node)?;
    Ok(value != (target != lit.neg))
}

/// The value of a node on the input, by its cone.
fn node_value(
    alloc: Global,
    net: &Net,
    input: &[bool],
    known: &mut Values,
    node: Node,
) -> Result<bool, AllocError>
    requires placed { IsSome (position_of net.now node) }
    requires whole { length input.now ≡ length net.now.a.inputs }
    requires known { AreValues known.old net.now input.now }
    ensures value { IfOk result (λ b. b ≡ value_of net.now input.now node) }
    ensures known { AreValues known.new net.now input.now }
{
    laws::is_net(net);
    match net.position(node) {
        Some(position) => value_at(alloc, net, input, known, position),
        None => unreachable!(),
    }
}

/// Whether the output differs on the input, and the input is admitted.
fn outputs_are_apart(
    alloc: Global,
    net: &Net,
    known: &mut Values,
    output: u32,
    input: &[bool],
) -> Result<bool, AllocError>
    requires there { output < length net.now.a.outputs }
    ensures { IfOk result (Tells (DiffersOn net.now output input.now)) }
{
    if input.len() != net.circuit(Side::A).inputs().len() {
        return Ok(false);
    }
    if !is_admitted(alloc, net, known, input)? {
        return Ok(false);
    }
    let first = output_of(alloc, net, input, Side::A, output)?;
    let second = output_of(alloc, net, input, Side::B, output)?;
    Ok(first != second)
}

/// Whether each constraint of both circuits is true on the input. They are evaluated by their cones, which
/// often have nodes in common, so each node that is reached gets its value once.
fn is_admitted(
    alloc: Global,
    net: &Net,
    known: &mut Values,
    input: &[bool],
) -> Result<bool, AllocError>
    requires whole { length input.now ≡ length net.now.a.inputs }
    ensures { IfOk result (Tells (IsAdmitted net.now input.now)) }
{
    laws::is_net(net);
    known.forget();
    if !are_met(alloc, net, input, known, Side::A)? {
        return Ok(false);
    }
    are_met(alloc, net, input, known, Side::B)
}

/// Whether each constraint of one side is true on the input.
fn are_met(
    alloc: Global,
    net: &Net,
    input: &[bool],
    known: &mut Values,
    side: Side,
) -> Result<bool, AllocError>
    requires whole { length input.now ≡ length net.now.a.inputs }
    requires known { AreValues known.old net.now input.now }
    ensures value { IfOk result (λ b.
        b ≡ list_all (lit_holds (value_of net.now input.now)) (bounds_on net.now side)) }
    ensures known { AreValues known.new net.now input.now }
{
    for k in 0..net.circuit(side).constraints().len() as u32 {
        if !is_met(alloc, net, input, known, side, k)? {
            return Ok(false);
        }
    }
    Ok(true)
}

/// Whether constraint k of one side is true on the input.
fn is_met(
    alloc: Global,
    net: &Net,
    input: &[bool],
    known: &mut Values,
    side: Side,
    k: u32,
) -> Result<bool, AllocError>
    requires there { k < length (circuit_of net.now side).constraints }
    requires whole { length input.now ≡ length net.now.a.inputs }
    requires known { AreValues known.old net.now input.now }
    ensures value { IfOk result (λ b.
        IfSome (bound_of net.now side k) (λ l. b ≡ lit_holds (value_of net.now input.now) l)) }
    ensures known { AreValues known.new net.now input.now }
{
    laws::is_net(net);
    match net.constraint(side, k) {
        Some(lit) => Ok(node_value(alloc, net, input, known, lit.node)? != lit.neg),
        None => unreachable!(),
    }
}

/// The value of one side's output on the input.
fn output_of(
    alloc: Global,
    net: &Net,
    input: &[bool],
    side: Side,
    output: u32,
) -> Result<bool, AllocError>
    requires there { output < length net.now.a.outputs }
    requires whole { length input.now ≡ length net.now.a.inputs }
    ensures { IfOk result (λ b. b ≡ output_value (circuit_of net.now side) input.now output) }
{
    laws::is_net(net);
    let circuit = net.circuit(side);
    let mut values = vec![in alloc; false; circuit.gates().len()]?;
    Ok(circuit.value(input, circuit.outputs()[output as usize], &mut values))
}
