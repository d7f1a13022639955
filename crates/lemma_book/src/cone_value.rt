ghost use Rattle.std.specs.Prelude.{◌≡◌, ◌<◌, ◌≤◌, length, All, IfOk, IfSome, IfNone};
ghost use Rattle.netlist.specs.Net.{IsNet, nodes_of};
ghost use Rattle.lemma_book.specs.ConeValue.{value_at, placed_value, IsAndAt, AreValues, IsUnknown, IsValueOrNeeds, IsNext};

use crate::values::Values;
use netlist::{Fanins, Net, Placed};
use std::alloc::{AllocError, Global};

/// The value of the node at a position on the input, by that part of its cone on which it rests: where
/// one fanin of a gate is false the other one isn't asked for. What is found is kept in `known`, for
/// the next node on the same input.
///
/// Gates that wait for a fanin stand in a list, since a cone may be as deep as the net.
pub(crate) fn value_at(
    alloc: Global,
    net: &Net,
    input: &[bool],
    known: &mut Values,
    position: u32,
) -> Result<bool, AllocError>
    requires net { IsNet net.now }
    requires whole { length input.now ≡ length net.now.a.inputs }
    requires there { position < length (nodes_of net.now) }
    requires known { AreValues known.old net.now input.now }
    ensures value { IfOk result (λ b. b ≡ value_at net.now input.now position) }
    ensures known { AreValues known.new net.now input.now }
{
    let mut waiting = Vec::new(alloc);
    let mut next = next_unknown(known, &mut waiting, position);
    while let Some(at) = next {
        next = match value_or_needed(net, input, known, at) {
            Ok(value) => {
                known.note(at, value)?;
                next_unknown(known, &mut waiting, position)
            }
            Err(fanin) => {
                waiting.push(at)?;
                Some(fanin)
            }
        };
    }
    match known.at(position) {
        Some(value) => Ok(value),
        None => unreachable!(),
    }
}

/// The last of the waiting positions whose value isn't known yet, or else the sought one.
fn next_unknown(known: &Values, waiting: &mut Vec<u32>, sought: u32) -> Option<u32>
    requires waiting { All (λ p. p ≤ sought) waiting.old.items }
    ensures waiting { All (λ p. p ≤ sought) waiting.new.items }
    ensures next { IsNext known.now sought result }
{
    while let Some(at) = waiting.pop() {
        if known.at(at).is_none() {
            return Some(at);
        }
    }
    if known.at(sought).is_some() {
        None
    } else {
        Some(sought)
    }
}

/// The value of the node at a position, or the position of a fanin that has to be known first.
fn value_or_needed(net: &Net, input: &[bool], known: &Values, position: u32) -> Result<bool, u32>
    requires net { IsNet net.now }
    requires whole { length input.now ≡ length net.now.a.inputs }
    requires there { position < length (nodes_of net.now) }
    requires known { AreValues known.now net.now input.now }
    ensures { IsValueOrNeeds known.now net.now input.now position result }
{
    if position as usize <= input.len() {
        return Ok(first_value(net, input, position));
    }
    match net.fanins(position - 1 - input.len() as u32) {
        Some(fanins) => both(net, input, known, position, fanins),
        None => unreachable!(),
    }
}

/// The value of the constant or of an input.
fn first_value(net: &Net, input: &[bool], position: u32) -> bool
    requires whole { length input.now ≡ length net.now.a.inputs }
    requires first { position ≤ length input.now }
    ensures { result ≡ value_at net.now input.now position }
{
    if position == 0 {
        true
    } else {
        input[position as usize - 1]
    }
}

/// Whether both fanins are true, unless a fanin has to be known first.
fn both(
    net: &Net,
    input: &[bool],
    known: &Values,
    position: u32,
    fanins: Fanins,
) -> Result<bool, u32>
    requires whole { length input.now ≡ length net.now.a.inputs }
    requires known { AreValues known.now net.now input.now }
    requires gate { IsAndAt net.now input.now position fanins }
    ensures { IsValueOrNeeds known.now net.now input.now position result }
{
    let left = literal_value(net, input, known, fanins.left);
    if left == Some(false) {
        return Ok(false);
    }
    match (left, literal_value(net, input, known, fanins.right)) {
        (_, Some(false)) => Ok(false),
        (None, _) => Err(fanins.left.position),
        (_, None) => Err(fanins.right.position),
        (Some(_), Some(_)) => Ok(true),
    }
}

/// The value of a literal, if that of its node is known.
fn literal_value(net: &Net, input: &[bool], known: &Values, lit: Placed) -> Option<bool>
    requires whole { length input.now ≡ length net.now.a.inputs }
    requires known { AreValues known.now net.now input.now }
    ensures some { IfSome result (λ b. b ≡ placed_value (value_at net.now input.now) lit) }
    ensures none { IfNone result (IsUnknown known.now lit.position) }
{
    let value = if lit.position as usize <= input.len() {
        first_value(net, input, lit.position)
    } else {
        known.at(lit.position)?
    };
    Some(value != lit.neg)
}
