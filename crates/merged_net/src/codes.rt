ghost use Rattle.std.specs.Prelude.{◌≡◌, is_some};
ghost use Rattle.netlist.specs.Net.{position_of};

use lits::{Lit, Node, Side};
use netlist::{Net, Placed};
use search_parts::count;

/// The code of a literal, if its node is in the net: twice the node's position, and 1 where it is negated.
pub fn lit_code(net: &Net, lit: Lit) -> Option<u32>
    ensures { is_some result ≡ is_some (position_of net.now lit.node) }
{
    match net.position(lit.node) {
        Some(position) => Some(code_of(Placed {
            position,
            neg: lit.neg,
        })),
        None => None,
    }
}

/// The code of a literal by its position.
pub fn code_of(placed: Placed) -> u32 {
    placed.position.wrapping_mul(2) | u32::from(placed.neg)
}

/// The node at a position.
pub fn node_at(net: &Net, position: u32) -> Node {
    if position < net.positions() {
        net.node(position)
    } else {
        Node::Const
    }
}

/// The literal of a code.
pub fn lit_at(net: &Net, code: u32) -> Lit {
    Lit {
        node: node_at(net, code / 2),
        neg: code & 1 == 1,
    }
}

/// The position of the first gate.
pub fn first_gate(net: &Net) -> u32 {
    net.positions()
        .saturating_sub(count(net.all_fanins().len()))
}

/// Whether some circuit has a constraint.
pub fn has_constraints(net: &Net) -> bool {
    !net.circuit(Side::A).constraints().is_empty() || !net.circuit(Side::B).constraints().is_empty()
}
