ghost use Rattle.std.specs.Prelude.{◌≡◌, ◌<◌, ◌^◌, Some, length, slice_get};
ghost use Rattle.std.specs.Option.{IsSome};
ghost use Rattle.netlist.specs.declared.gate.Definition.{Definition};
ghost use Rattle.netlist.specs.Net.{IsNet, definitions, fanins_at, position_of};
ghost use Rattle.strash_pass.specs.Codes.{code_at};

use crate::merged::Spot;
use lits::{Lit, Node, Side};
use netlist::{Fanins, Net, Placed};

/// The code of a literal: twice its node's position, and one more for a negation.
pub fn code_of(spot: Spot) -> u32
    requires { spot.at < 2 ^ 31 }
    ensures { result ≡ code_at spot }
{
    2 * spot.at + if spot.lit.neg { 1 } else { 0 }
}

/// A literal by the position of its node, which has one.
pub fn placed(net: &Net, lit: Lit) -> Placed
    requires { IsSome (position_of net.now lit.node) }
    ensures { position_of net.now lit.node ≡ Some result.position }
{
    Placed {
        position: position_of(net, lit.node),
        neg: lit.neg,
    }
}

/// The position of a node that has one.
pub fn position_of(net: &Net, node: Node) -> u32
    requires { IsSome (position_of net.now node) }
    ensures { position_of net.now node ≡ Some result }
{
    match net.position(node) {
        Some(position) => position,
        None => unreachable!(),
    }
}

/// The positions of the fanins of gate k, which is there.
pub fn fanins_at(net: &Net, k: u32) -> Fanins
    requires { IsSome (fanins_at net.now k) }
    ensures { fanins_at net.now k ≡ Some result }
{
    match net.fanins(k) {
        Some(fanins) => fanins,
        None => unreachable!(),
    }
}

/// The position of gate k, the gates of A and then of B counted from 0: gates stand behind the constant and the
/// inputs in this order, so none is looked for by its name.
pub fn gate_position(net: &Net, k: u32) -> u32
    requires net { IsNet net.now }
    requires gate { k < length (definitions net.now) }
    ensures { (gate : Definition) → slice_get (definitions net.now) k ≡ Some gate
        → position_of net.now gate.node ≡ Some result }
{
    1 + net.circuit(Side::A).inputs().len() as u32 + k
}
