ghost use Rattle.std.specs.Prelude.{◌≡◌, ◌-◌, ◌+◌, ◌<◌, ◌^◌, false, Some, slice_get, IfSome};
ghost use Rattle.std.specs.Option.{IsSome};
ghost use Rattle.netlist.specs.Net.{IsNet};
ghost use Rattle.netlist.specs.Miter.{variable_of, variables_of};
ghost use Rattle.flat_cones.specs.Walk.{lit_by, node_by, IsVariable, IsGateOf};

use lits::{Dim, Lit, Node, Side};
use netlist::{Net, Placed};

/// The CNF variable of a node that has one.
pub(crate) fn variable(net: &Net, node: Node) -> u32
    requires { IsSome (variable_of net.now node) }
    ensures variable { variable_of net.now node ≡ Some result }
    ensures range { result < 2 ^ 31 }
{
    let number = net.cnf_number(Lit { node, neg: false }).unwrap();
    number.var()
}

/// The literal by the CNF variable of its node, which has one.
pub(crate) fn dim_of(net: &Net, lit: Lit) -> Dim
    requires { IsSome (variable_of net.now lit.node) }
    ensures lit { lit_by net.now result ≡ lit }
    ensures variable { IsVariable net.now result.var }
{
    net.cnf_number(lit).unwrap()
}

/// The literal of a CNF variable.
pub(crate) fn dim(net: &Net, variable: u32) -> Dim
    requires net { IsNet net.now }
    requires variable { IsVariable net.now variable }
    ensures { result ≡ record { var = variable; neg = false } }
{
    Dim::new(variable, false)
}

/// The node of a CNF variable.
pub(crate) fn node_of(net: &Net, variable: u32) -> Node
    requires { IsVariable net.now variable }
    ensures at { slice_get (variables_of net.now) (variable - 1) ≡ Some result }
    ensures node { result ≡ node_by net.now variable }
{
    let place = variable - 1;
    let positions = net.positions();
    if place < positions {
        net.node(place)
    } else {
        Node::Xor(place - positions)
    }
}

/// The fanins of the gate with a CNF variable, by theirs; none where the variable is another node's.
///
/// The net has them in the order of positions, so nothing is looked up by its node: looking up cost 143 of the
/// 2,489 million instructions that a check of two 128-bit prefix adders took.
pub(crate) fn gate_of(net: &Net, variable: u32) -> Option<(Dim, Dim)>
    requires net { IsNet net.now }
    requires variable { IsVariable net.now variable }
    ensures { IfSome result (λ g. IsGateOf net.now variable g.0 g.1) }
{
    let first = 1 + net.circuit(Side::A).inputs().len();
    let place = variable as usize - 1;
    if place < first {
        return None;
    }
    match net.fanins((place - first) as u32) {
        Some(fanins) => Some((numbered(fanins.left), numbered(fanins.right))),
        None => None,
    }
}

/// The literal of a node with a position, by its CNF variable.
fn numbered(placed: Placed) -> Dim
    requires { placed.position + 1 < 2 ^ 31 }
    ensures { result ≡ record { var = placed.position + 1; neg = placed.neg } }
{
    Dim::new(placed.position + 1, placed.neg)
}
