ghost use Rattle.std.specs.Prelude.{◌≡◌, ◌==◌, ◌||◌, true, false, length, nat_lt};
ghost use Rattle.std.specs.Option.{option_map_or};
ghost use Rattle.std.specs.List.{list_any};
ghost use Rattle.netlist.specs.Circuit.{gate_vars, var_of, most};
ghost use Rattle.lits.specs.Clause.{has};
ghost use Rattle.netlist.specs.Edit.{has_gate, gates_before, is_earlier, reads};
ghost use Rattle.netlist.specs.Net.{circuit_of};
ghost use Rattle.netlist_edits.specs.Fault.{is_there};

use byte_scan::VARIABLE_LIMIT;
use lits::{Node, Side};
use netlist::{And, Net};

/// Whether one circuit has a gate of the literal's variable.
pub(crate) fn has_gate(net: &Net, side: Side, lit: u32) -> bool
    ensures { result ≡ has_gate (circuit_of net.now side) (var_of lit) }
{
    net.position(Node::Gate(side, lit / 2)).is_some()
}

/// Whether one circuit has the literal's variable: the constant, an input or a gate.
pub(crate) fn is_there(net: &Net, side: Side, lit: u32) -> bool
    ensures { result ≡ is_there (circuit_of net.now side) lit }
{
    net.lit(side, lit).is_some()
}

/// Whether one circuit has as many gates as a circuit may have.
pub(crate) fn is_full(net: &Net, side: Side) -> bool
    ensures { result ≡ (length (circuit_of net.now side).gates == most) }
{
    net.circuit(side).gates().len() as u64 == VARIABLE_LIMIT
}

/// Whether the literal is a constant, an input or a gate that stands before that of a variable; any gate does
/// where no variable is named.
pub(crate) fn is_earlier(net: &Net, side: Side, before: Option<u32>, lit: u32) -> bool
    ensures { result ≡ is_earlier (circuit_of net.now side) before lit }
{
    let Some(found) = net.lit(side, lit) else {
        return false;
    };
    match found.node {
        Node::Gate(_, var) => stands_before(net, side, var, before),
        _ => true,
    }
}

/// Whether one circuit has the gate of a variable before that of another one, or at all where none is named.
/// Positions tell it without a walk over the gates.
fn stands_before(net: &Net, side: Side, var: u32, before: Option<u32>) -> bool
    ensures { result ≡ has ◌==◌ (gate_vars (gates_before (circuit_of net.now side) before)) var }
{
    let position = net.position(Node::Gate(side, var));
    match before {
        Some(end) => is_before(position, net.position(Node::Gate(side, end))),
        None => position.is_some(),
    }
}

/// Whether what has a position stands before what may have another.
fn is_before(position: Option<u32>, end: Option<u32>) -> bool
    ensures { result ≡ option_map_or (λ p. option_map_or (λ q. nat_lt p q) end true) position false }
{
    match (position, end) {
        (Some(position), Some(end)) => position < end,
        (Some(_), None) => true,
        (None, _) => false,
    }
}

/// Whether one circuit has a gate, an output or a constraint with a literal of the variable.
pub(crate) fn is_read(net: &Net, side: Side, var: u32) -> bool
    ensures { result ≡ reads (circuit_of net.now side) var }
{
    let circuit = net.circuit(side);
    is_fanin(circuit.gates(), var)
        || is_among(circuit.outputs(), var)
        || is_among(circuit.constraints(), var)
}

fn is_fanin(gates: &[And], var: u32) -> bool
    ensures { result ≡ list_any (λ g. var_of g.left == var || var_of g.right == var) gates.now }
{
    gates
        .iter()
        .any(|gate| gate.left / 2 == var || gate.right / 2 == var)
}

fn is_among(lits: &[u32], var: u32) -> bool
    ensures { result ≡ list_any (λ lit. var_of lit == var) lits.now }
{
    lits.iter().any(|lit| *lit / 2 == var)
}
