//! Edits of nets: each edited net is compared whole with one made anew of the edited circuits.

ghost use Rattle.std.specs.Prelude.{◌≡◌, [], ◌∷◌, None};
ghost use Rattle.netlist.specs.Circuit.{IsCircuit, plain};
ghost use Rattle.netlist.specs.Unlike.{unlike_of};
ghost use Rattle.worked_circuits.specs.Worked.{one_gate};

use crate::pairs::expect;
use lits::{Clause, Dim, Node, Side};
use netlist::{And, Circuit, Net};
use std::alloc::Global;
use std::process::Abort;
use worked_circuits::{and, circuit, one_gate};

/// Whether both nets have the same circuit on a side.
fn has_same_circuit(net: &Net, other: &Net, side: Side) -> bool {
    let (found, expected) = (net.circuit(side), other.circuit(side));
    found.inputs() == expected.inputs()
        && found.gates() == expected.gates()
        && found.outputs() == expected.outputs()
        && found.constraints() == expected.constraints()
}

/// Whether each position of one net has the same node and the same number of a first clause in the other.
fn has_same_places(net: &Net, other: &Net) -> bool {
    let mut are_same = net.positions() == other.positions();
    for position in 0..net.positions().min(other.positions()) {
        let (found, expected) = (net.node(position), other.node(position));
        are_same = are_same
            && found == expected
            && net.position(found) == other.position(expected)
            && net.clause_number(found, 0) == other.clause_number(expected, 0);
    }
    are_same
}

/// Whether the numbers of the clauses of all XORs are the same.
fn has_same_outputs(net: &Net, other: &Net) -> bool {
    let mut are_same = net.outputs() == other.outputs();
    for j in 0..net.outputs() {
        let xor = Node::Xor(j);
        are_same = are_same
            && net.clause_number(xor, 0) == other.clause_number(xor, 0)
            && net.definition(xor) == other.definition(xor);
    }
    are_same
}

/// Whether the clauses of two miters are the same.
fn has_same_clauses(found: &[Clause<Dim>], expected: &[Clause<Dim>]) -> bool {
    let mut are_same = found.len() == expected.len();
    for k in 0..found.len().min(expected.len()) {
        are_same = are_same && found[k].lits() == expected[k].lits();
    }
    are_same
}

/// Compares an edited net with the expected one.
fn compare(rt: &impl Abort, alloc: Global, net: &Net, expected: &Net) {
    expect(rt, "circuit a", has_same_circuit(net, expected, Side::A));
    expect(rt, "circuit b", has_same_circuit(net, expected, Side::B));
    expect(rt, "places", has_same_places(net, expected));
    expect(rt, "outputs", has_same_outputs(net, expected));
    expect(rt, "fanins", net.all_fanins() == expected.all_fanins());
    expect(rt, "clauses", net.clauses() == expected.clauses());
    let found = net.miter(alloc).expect(rt, "memory");
    let clauses = expected.miter(alloc).expect(rt, "memory");
    expect(
        rt,
        "miter",
        has_same_clauses(found.as_slice(), clauses.as_slice()),
    );
}

/// The net of two circuits that are alike.
fn net_of(rt: &impl Abort, alloc: Global, a: Circuit, b: Circuit) -> Net
    requires { unlike_of a b ≡ None }
    ensures { result ≡ record { a = a; b = b } }
{
    Net::of(alloc, a, b).expect(rt, "a net")
}

/// The net of a circuit of one gate with these fanins on each side.
fn one_gate_net(rt: &impl Abort, alloc: Global, a: (u32, u32), b: (u32, u32)) -> Net
    requires a { IsCircuit (one_gate a.0 a.1) }
    requires b { IsCircuit (one_gate b.0 b.1) }
    ensures { result ≡ record { a = one_gate a.0 a.1; b = one_gate b.0 b.1 } }
{
    let a = one_gate(alloc, a.0, a.1).expect(rt, "memory");
    let b = one_gate(alloc, b.0, b.1).expect(rt, "memory");
    net_of(rt, alloc, a, b)
}

/// The worked net: an AND of both inputs on each side, with its fanins in the other order on B.
fn swapped(rt: &impl Abort, alloc: Global) -> Net
    ensures { result ≡ record { a = one_gate 2 4; b = one_gate 4 2 } }
{
    one_gate_net(rt, alloc, (2, 4), (4, 2))
}

/// The worked net whose B has a second gate, and this output.
fn longer(rt: &impl Abort, alloc: Global, output: u32) -> Net
    requires { IsCircuit (plain (1 ∷ 2 ∷ [])
        (record { var = 3; left = 4; right = 2 } ∷ record { var = 4; left = 6; right = 2 } ∷ []) (output ∷ [])) }
{
    let a = one_gate(alloc, 2, 4).expect(rt, "memory");
    let gates = [and(3, 4, 2), and(4, 6, 2)];
    let b = circuit(alloc, &[1, 2], &gates, &[output]).expect(rt, "memory");
    net_of(rt, alloc, a, b)
}

#[test]
fn other_fanins(rt: HostRuntime) {
    let alloc = rt.alloc();
    let mut net = swapped(&rt, alloc);
    net.set_gate(Side::B, and(3, 4, 4)).expect(&rt, "memory");
    let expected = one_gate_net(&rt, alloc, (2, 4), (4, 4));
    compare(&rt, alloc, &net, &expected);
}

#[test]
fn fanins_set_back(rt: HostRuntime) {
    let alloc = rt.alloc();
    let mut net = one_gate_net(&rt, alloc, (2, 4), (4, 4));
    net.set_gate(Side::B, and(3, 4, 2)).expect(&rt, "memory");
    compare(&rt, alloc, &net, &swapped(&rt, alloc));
}

#[test]
fn new_gate_last(rt: HostRuntime) {
    let alloc = rt.alloc();
    let mut net = swapped(&rt, alloc);
    net.put_gate(Side::B, and(4, 6, 2), None)
        .expect(&rt, "memory");
    compare(&rt, alloc, &net, &longer(&rt, alloc, 6));
}

#[test]
fn new_gate_as_output(rt: HostRuntime) {
    let alloc = rt.alloc();
    let mut net = swapped(&rt, alloc);
    net.put_gate(Side::B, and(4, 6, 2), None)
        .expect(&rt, "memory");
    net.set_output(Side::B, 0, 8).expect(&rt, "memory");
    compare(&rt, alloc, &net, &longer(&rt, alloc, 8));
}

#[test]
fn new_gate_gone_again(rt: HostRuntime) {
    let alloc = rt.alloc();
    let mut net = swapped(&rt, alloc);
    net.put_gate(Side::B, and(4, 6, 2), None)
        .expect(&rt, "memory");
    net.drop_gate(Side::B, 4).expect(&rt, "memory");
    compare(&rt, alloc, &net, &swapped(&rt, alloc));
}

/// A net whose A has these gates over two inputs, and one gate on B.
fn against_one(rt: &impl Abort, alloc: Global, gates: &[And]) -> Net
    requires { IsCircuit (plain (1 ∷ 2 ∷ []) gates.now (12 ∷ [])) }
    ensures { result ≡ record { a = plain (1 ∷ 2 ∷ []) gates.now (12 ∷ []); b = one_gate 4 2 } }
{
    let a = circuit(alloc, &[1, 2], gates, &[12]).expect(rt, "memory");
    let b = one_gate(alloc, 4, 2).expect(rt, "memory");
    net_of(rt, alloc, a, b)
}

/// Gate 4 has complementary fanins and so two clauses, gate 5 equal ones, and gate 6 a constant.
const GATES: [And; 4] = [
    And {
        var: 3,
        left: 2,
        right: 4,
    },
    And {
        var: 4,
        left: 6,
        right: 7,
    },
    And {
        var: 5,
        left: 6,
        right: 6,
    },
    And {
        var: 6,
        left: 1,
        right: 10,
    },
];

#[test]
fn more_clauses_move_those_behind(rt: HostRuntime) {
    let alloc = rt.alloc();
    let mut net = against_one(&rt, alloc, &GATES);
    net.set_gate(Side::A, and(4, 6, 3)).expect(&rt, "memory");
    let expected = [GATES[0], and(4, 6, 3), GATES[2], GATES[3]];
    compare(&rt, alloc, &net, &against_one(&rt, alloc, &expected));
}

#[test]
fn new_gate_in_the_middle(rt: HostRuntime) {
    let alloc = rt.alloc();
    let mut net = against_one(&rt, alloc, &GATES);
    net.put_gate(Side::A, and(9, 8, 0), Some(5))
        .expect(&rt, "memory");
    let expected = [GATES[0], GATES[1], and(9, 8, 0), GATES[2], GATES[3]];
    compare(&rt, alloc, &net, &against_one(&rt, alloc, &expected));
}

#[test]
fn gate_gone_from_the_middle(rt: HostRuntime) {
    let alloc = rt.alloc();
    let mut net = against_one(&rt, alloc, &GATES);
    net.drop_gate(Side::A, 4).expect(&rt, "memory");
    let expected = [GATES[0], GATES[2], GATES[3]];
    compare(&rt, alloc, &net, &against_one(&rt, alloc, &expected));
}
