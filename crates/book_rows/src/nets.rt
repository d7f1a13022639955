ghost use Rattle.std.specs.Prelude.{◌≡◌};
ghost use Rattle.worked_circuits.specs.Worked.{one_gate};

use crate::pairs::{self, Case, check, expect, expect_text, swapped_ands};
use lits::{Clause, Dim, Lit, Node, Side};
use netlist::{Circuit, Definition, Fanins, Net, Placed, Unlike, VariableTable, laws};
use std::alloc::{AllocError, Global};
use std::process::Abort;
use worked_circuits::{and, circuit, constrained_circuit, one_gate};

/// Puts the clause last as a line of a DIMACS file.
fn push_line(rt: &impl Abort, text: &mut String, clause: &Clause<Dim>) {
    for dim in clause.lits() {
        let sign = if dim.is_negated() { "-" } else { "" };
        write!(text, "{sign}{} ", dim.var()).expect(rt, "memory");
    }
    text.push_str("0\n").expect(rt, "memory");
}

/// The clauses as lines of a DIMACS file.
fn lines(rt: &impl Abort, alloc: Global, clauses: &[Clause<Dim>]) -> String {
    let mut text = String::new(alloc);
    for clause in clauses {
        push_line(rt, &mut text, clause);
    }
    text
}

/// The miter's clauses as lines of a DIMACS file.
fn miter_of(rt: &impl Abort, alloc: Global, net: &Net) -> String {
    laws::satisfiable_if_different(net);
    laws::unsatisfiable_if_equal(net);
    let clauses = net.miter(alloc).expect(rt, "memory");
    lines(rt, alloc, clauses.as_slice())
}

/// The clauses of a miter, as lines of a DIMACS file.
struct Miter(&'static str);

/// Compares the net's clauses.
fn check_miter(rt: &impl Abort, alloc: Global, net: &Net, expected: &str) {
    let text = miter_of(rt, alloc, net);
    expect_text(rt, "the miter", text.as_str(), expected);
}

impl Case for Miter {
    /// Compares those of a copy too.
    fn check<A: Abort>(&self, rt: &A, alloc: Global, net: &Net) {
        check_miter(rt, alloc, net, self.0);
        let copy = net.copy(alloc).expect(rt, "memory");
        check_miter(rt, alloc, &copy, self.0);
    }
}

static SWAPPED_AND: Miter = Miter(
    "1 0\n-4 2 0\n-4 3 0\n4 -2 -3 0\n-5 3 0\n-5 2 0\n5 -3 -2 0\n-6 4 5 0\n\
        -6 -4 -5 0\n6 -4 5 0\n6 4 -5 0\n6 0\n",
);

#[test]
fn swapped_and(rt: HostRuntime) {
    let alloc = rt.alloc();
    check(&rt, alloc, swapped_ands(&rt, alloc), &SWAPPED_AND);
}

static AND_AGAINST_FALSE: Miter = Miter(
    "1 0\n-4 2 0\n-4 3 0\n4 -2 -3 0\n-5 4 -1 0\n-5 -4 1 0\n5 -4 -1 0\n5 4 1 0\n5 0\n",
);

#[test]
fn and_against_false(rt: HostRuntime) {
    let alloc = rt.alloc();
    let a = one_gate(alloc, 2, 4);
    let net = pairs::net_of(&rt, alloc, a, circuit(alloc, &[1, 2], &[], &[0]));
    check(&rt, alloc, net, &AND_AGAINST_FALSE);
}

static EMPTY_CIRCUITS: Miter = Miter("1 0\n0\n");

#[test]
fn empty_circuits(rt: HostRuntime) {
    let alloc = rt.alloc();
    let a = circuit(alloc, &[], &[], &[]);
    let net = pairs::net_of(&rt, alloc, a, circuit(alloc, &[], &[], &[]));
    check(&rt, alloc, net, &EMPTY_CIRCUITS);
}

static CONSTANTS_DIFFER: Miter = Miter("1 0\n2 1 0\n2 -1 0\n2 0\n");

#[test]
fn constants_differ(rt: HostRuntime) {
    let alloc = rt.alloc();
    let a = circuit(alloc, &[], &[], &[0]);
    let net = pairs::net_of(&rt, alloc, a, circuit(alloc, &[], &[], &[1]));
    check(&rt, alloc, net, &CONSTANTS_DIFFER);
}

static MERGED_TO_INPUT_AND_FALSE: Miter = Miter(
    "1 0\n-3 2 0\n-3 2 0\n3 -2 0\n-4 2 0\n-4 -2 0\n-5 3 2 0\n-5 -3 -2 0\n\
        5 -3 2 0\n5 3 -2 0\n-6 4 -1 0\n-6 -4 1 0\n6 -4 -1 0\n6 4 1 0\n5 6 0\n",
);

#[test]
fn merged_to_input_and_false(rt: HostRuntime) {
    let alloc = rt.alloc();
    let a = circuit(alloc, &[1], &[and(2, 2, 2), and(3, 2, 3)], &[4, 6]);
    let net = pairs::net_of(&rt, alloc, a, circuit(alloc, &[1], &[], &[2, 0]));
    check(&rt, alloc, net, &MERGED_TO_INPUT_AND_FALSE);
}

/// The net of two circuits of an input that both constrain to be true.
fn input_true_on_both(rt: &impl Abort, alloc: Global) -> Net {
    let a = constrained_circuit(alloc, &[1], &[], &[], &[2]);
    pairs::net_of(
        rt,
        alloc,
        a,
        constrained_circuit(alloc, &[1], &[], &[], &[2]),
    )
}

static INPUT_TRUE_ON_BOTH: Miter = Miter("1 0\n2 0\n2 0\n0\n");

#[test]
fn a_constraint_on_each_side(rt: HostRuntime) {
    let alloc = rt.alloc();
    check(
        &rt,
        alloc,
        input_true_on_both(&rt, alloc),
        &INPUT_TRUE_ON_BOTH,
    );
}

/// The net of an AND whose first input is constrained to be true, and of its second input.
fn and_with_first_true(rt: &impl Abort, alloc: Global) -> Net {
    let a = constrained_circuit(alloc, &[1, 2], &[and(3, 2, 4)], &[6], &[2]);
    pairs::net_of(rt, alloc, a, circuit(alloc, &[1, 2], &[], &[4]))
}

/// The ninth clause is the constraint's.
static AND_WITH_FIRST_TRUE: Miter = Miter(
    "1 0\n-4 2 0\n-4 3 0\n4 -2 -3 0\n-5 4 3 0\n-5 -4 -3 0\n5 -4 3 0\n5 4 -3 0\n2 0\n5 0\n",
);

#[test]
fn a_constraint_on_one_side(rt: HostRuntime) {
    let alloc = rt.alloc();
    check(
        &rt,
        alloc,
        and_with_first_true(&rt, alloc),
        &AND_WITH_FIRST_TRUE,
    );
}

/// A constraint that no input meets.
static NONE_ADMITTED: Miter = Miter("1 0\n2 -1 0\n2 1 0\n-1 0\n2 0\n");

#[test]
fn no_input_admitted(rt: HostRuntime) {
    let alloc = rt.alloc();
    let a = constrained_circuit(alloc, &[], &[], &[1], &[0]);
    let net = pairs::net_of(&rt, alloc, a, circuit(alloc, &[], &[], &[0]));
    check(&rt, alloc, net, &NONE_ADMITTED);
}

/// What a call on a net gives.
enum Fact {
    /// Of a node.
    Node(Node, OfNode),
    /// Of a side.
    Side(Side, OfSide),
    /// The DIMACS number of a literal.
    Number(Lit, i32),
    /// How many positions, variables, clauses and outputs there are.
    Sizes(u32, u32, u32, u32),
    Fanins(u32, Option<Fanins>),
    AllFanins(&'static [Fanins]),
}

enum OfNode {
    Position(Option<u32>),
    /// The number of an axiom among the miter's clauses.
    ClauseNumber(u8, Option<u32>),
    /// The first axiom begins with the literal.
    AxiomBegins(Lit),
    Definition(Option<Definition>),
    /// How many axioms there are.
    Axioms(usize),
}

enum OfSide {
    /// Whether there is the AIGER literal.
    Literal(u32, bool),
    /// Whether there is the output.
    Output(u32, bool),
    /// The inputs, the outputs, and how many gates there are.
    Circuit(&'static [u32], &'static [u32], usize),
    /// The literal of a constraint.
    Constraint(u32, Option<Lit>),
    /// The number of a constraint's clause among the miter's clauses.
    ConstraintNumber(u32, Option<u32>),
}

fn axiom_begins(net: &Net, node: Node, lit: Lit) -> bool {
    match net.axiom(node, 0) {
        Some(axiom) => axiom.lits().first().copied() == Some(lit),
        None => false,
    }
}

fn is_circuit(circuit: &Circuit, inputs: &[u32], outputs: &[u32], gates: usize) -> bool {
    circuit.inputs() == inputs && circuit.outputs() == outputs && circuit.gates().len() == gates
}

fn has_sizes(net: &Net, sizes: [u32; 4]) -> bool {
    sizes
        == [
            net.positions(),
            net.variables(),
            net.clauses(),
            net.outputs(),
        ]
}

fn is_so_of_node(net: &Net, node: Node, fact: &OfNode) -> bool {
    match fact {
        OfNode::Position(position) => net.position(node) == *position,
        OfNode::ClauseNumber(k, number) => net.clause_number(node, *k) == *number,
        OfNode::AxiomBegins(lit) => axiom_begins(net, node, *lit),
        OfNode::Definition(definition) => net.definition(node) == *definition,
        OfNode::Axioms(count) => net.axioms(node).as_slice().len() == *count,
    }
}

fn is_so_of_side(net: &Net, side: Side, fact: &OfSide) -> bool {
    match fact {
        OfSide::Literal(aiger, is_there) => net.lit(side, *aiger).is_some() == *is_there,
        OfSide::Output(output, is_there) => net.output(side, *output).is_some() == *is_there,
        OfSide::Circuit(inputs, outputs, gates) => {
            is_circuit(net.circuit(side), inputs, outputs, *gates)
        }
        OfSide::Constraint(k, lit) => net.constraint(side, *k) == *lit,
        OfSide::ConstraintNumber(k, number) => net.constraint_number(side, *k) == *number,
    }
}

fn is_so(net: &Net, fact: &Fact) -> bool {
    match fact {
        Fact::Node(node, fact) => is_so_of_node(net, *node, fact),
        Fact::Side(side, fact) => is_so_of_side(net, *side, fact),
        Fact::Number(lit, number) => net.cnf_number(*lit) == Dim::of(*number),
        Fact::Sizes(positions, variables, clauses, outputs) => {
            has_sizes(net, [*positions, *variables, *clauses, *outputs])
        }
        Fact::Fanins(k, fanins) => net.fanins(*k) == *fanins,
        Fact::AllFanins(fanins) => net.all_fanins() == *fanins,
    }
}

/// What is so of a net, each with a name.
struct Facts(&'static [(&'static str, Fact)]);

fn check_facts(rt: &impl Abort, net: &Net, facts: &[(&'static str, Fact)]) {
    for (name, fact) in facts {
        expect(rt, name, is_so(net, fact));
    }
}

impl Case for Facts {
    /// Checks them of a copy too, which has the same circuits.
    fn check<A: Abort>(&self, rt: &A, alloc: Global, net: &Net) {
        check_facts(rt, net, self.0);
        let copy = net.copy(alloc).expect(rt, "memory");
        check_facts(rt, &copy, self.0);
        let are_same = has_same(&copy, net, Side::A) && has_same(&copy, net, Side::B);
        expect(rt, "a copy", are_same);
    }
}

/// Whether a copy has the circuit of this side.
fn has_same(copy: &Net, net: &Net, side: Side) -> bool {
    let (found, circuit) = (copy.circuit(side), net.circuit(side));
    found.inputs() == circuit.inputs()
        && found.gates() == circuit.gates()
        && found.outputs() == circuit.outputs()
        && found.constraints() == circuit.constraints()
}

const GATE: Node = Node::Gate(Side::B, 3);

const NOT_GATE: Lit = Lit {
    node: GATE,
    neg: true,
};

const DEFINITION: Definition = Definition {
    node: GATE,
    left: Lit {
        node: Node::Input(1),
        neg: false,
    },
    right: Lit {
        node: Node::Input(0),
        neg: false,
    },
};

static OF_ANDS: Facts = Facts(&[
    ("net_of", Fact::Node(GATE, OfNode::Position(Some(4)))),
    (
        "net_of",
        Fact::Node(Node::Gate(Side::B, 2), OfNode::Position(None)),
    ),
    (
        "net_of",
        Fact::Node(Node::Input(1), OfNode::Position(Some(2))),
    ),
    ("net_of", Fact::Node(Node::Xor(0), OfNode::Position(None))),
    (
        "miter_of_n1",
        Fact::Node(GATE, OfNode::ClauseNumber(2, Some(7))),
    ),
    (
        "miter_of_n1",
        Fact::Node(GATE, OfNode::ClauseNumber(3, None)),
    ),
    (
        "miter_of_n1",
        Fact::Node(Node::Xor(0), OfNode::ClauseNumber(0, Some(8))),
    ),
    ("miter_of_n1", Fact::Number(NOT_GATE, -5)),
    (
        "miter_of_n1",
        Fact::Node(GATE, OfNode::AxiomBegins(NOT_GATE)),
    ),
    (
        "a gate",
        Fact::Node(GATE, OfNode::Definition(Some(DEFINITION))),
    ),
    ("no gate", Fact::Node(Node::Const, OfNode::Definition(None))),
    (
        "axioms of the constant",
        Fact::Node(Node::Const, OfNode::Axioms(1)),
    ),
    (
        "axioms of an input",
        Fact::Node(Node::Input(0), OfNode::Axioms(0)),
    ),
    ("axioms of a gate", Fact::Node(GATE, OfNode::Axioms(3))),
    (
        "axioms of an XOR",
        Fact::Node(Node::Xor(0), OfNode::Axioms(4)),
    ),
    ("sizes", Fact::Sizes(5, 6, 12, 1)),
    ("a literal", Fact::Side(Side::B, OfSide::Literal(7, true))),
    ("no literal", Fact::Side(Side::B, OfSide::Literal(8, false))),
    ("an output", Fact::Side(Side::A, OfSide::Output(0, true))),
    ("no output", Fact::Side(Side::A, OfSide::Output(1, false))),
    (
        "a side",
        Fact::Side(Side::B, OfSide::Circuit(&[1, 2], &[6], 1)),
    ),
]);

#[test]
fn net_of(rt: HostRuntime) {
    let alloc = rt.alloc();
    check(&rt, alloc, swapped_ands(&rt, alloc), &OF_ANDS);
}

const FIRST_INPUT: Lit = Lit {
    node: Node::Input(0),
    neg: false,
};

/// `p cnf 2 4`.
static OF_BOTH: Facts = Facts(&[
    ("sizes", Fact::Sizes(2, 2, 4, 0)),
    (
        "a's constraint",
        Fact::Side(Side::A, OfSide::Constraint(0, Some(FIRST_INPUT))),
    ),
    (
        "no second constraint",
        Fact::Side(Side::A, OfSide::Constraint(1, None)),
    ),
    (
        "the number of a's",
        Fact::Side(Side::A, OfSide::ConstraintNumber(0, Some(2))),
    ),
    (
        "the number of b's",
        Fact::Side(Side::B, OfSide::ConstraintNumber(0, Some(3))),
    ),
    (
        "no number",
        Fact::Side(Side::B, OfSide::ConstraintNumber(1, None)),
    ),
]);

#[test]
fn constraints_of_both(rt: HostRuntime) {
    let alloc = rt.alloc();
    check(&rt, alloc, input_true_on_both(&rt, alloc), &OF_BOTH);
}

/// `p cnf 5 10`.
static OF_ONE: Facts = Facts(&[
    ("sizes", Fact::Sizes(4, 5, 10, 1)),
    (
        "the number of a's",
        Fact::Side(Side::A, OfSide::ConstraintNumber(0, Some(9))),
    ),
    (
        "b has none",
        Fact::Side(Side::B, OfSide::Constraint(0, None)),
    ),
    (
        "no number",
        Fact::Side(Side::B, OfSide::ConstraintNumber(0, None)),
    ),
]);

#[test]
fn constraints_of_one(rt: HostRuntime) {
    let alloc = rt.alloc();
    check(&rt, alloc, and_with_first_true(&rt, alloc), &OF_ONE);
}

/// The AND of the inputs, and one over a constant and a complement.
#[test]
fn fanins_by_position(rt: HostRuntime) {
    let alloc = rt.alloc();
    let net = pairs::net_of(&rt, alloc, one_gate(alloc, 2, 4), one_gate(alloc, 1, 5));
    check(&rt, alloc, net, &FANINS);
}

const OF_INPUTS: Fanins = Fanins {
    left: Placed {
        position: 1,
        neg: false,
    },
    right: Placed {
        position: 2,
        neg: false,
    },
};

const OF_TRUE: Fanins = Fanins {
    left: Placed {
        position: 0,
        neg: false,
    },
    right: Placed {
        position: 2,
        neg: true,
    },
};

static FANINS: Facts = Facts(&[
    ("the first gate's", Fact::Fanins(0, Some(OF_INPUTS))),
    ("the second gate's", Fact::Fanins(1, Some(OF_TRUE))),
    ("no third gate's", Fact::Fanins(2, None)),
    ("all gates'", Fact::AllFanins(&[OF_INPUTS, OF_TRUE])),
]);

fn check_places(rt: &impl Abort, table: &VariableTable) {
    expect(rt, "the constant's place", table.place(0) == Some(0));
    expect(rt, "the first variable's place", table.place(5) == Some(1));
    expect(rt, "the second variable's place", table.place(2) == Some(2));
    expect(rt, "no place of 3", table.place(3).is_none());
    expect(rt, "no place of 6", table.place(6).is_none());
}

#[test]
fn table_of_variables(rt: HostRuntime) {
    let mut table = VariableTable::new(rt.alloc());
    table.add(5).expect(&rt, "memory");
    table.add(2).expect(&rt, "memory");
    check_places(&rt, &table);
}

/// Whether the gate, its negation, the second input and true have their values, where the inputs are these.
fn has_values(circuit: &Circuit, x: bool, y: bool, value: bool) -> bool
    requires { circuit.now ≡ one_gate 3 4 }
{
    circuit.value(&[x, y], 6, &mut [false]) == value
        && circuit.value(&[x, y], 7, &mut [true]) != value
        && circuit.value(&[x, y], 4, &mut [true]) == y
        && circuit.value(&[x, y], 1, &mut [false])
}

/// The negation of the first input, and the second.
#[test]
fn values(rt: HostRuntime) {
    let circuit = one_gate(rt.alloc(), 3, 4).expect(&rt, "memory");
    expect(&rt, "00", has_values(&circuit, false, false, false));
    expect(&rt, "01", has_values(&circuit, false, true, true));
    expect(&rt, "10", has_values(&circuit, true, false, false));
    expect(&rt, "11", has_values(&circuit, true, true, false));
}

/// Whether the circuits are no net, for this cause.
fn is_refused(
    rt: &impl Abort,
    alloc: Global,
    a: Result<Circuit, AllocError>,
    b: Result<Circuit, AllocError>,
    unlike: Unlike,
) -> bool {
    let (a, b) = (a.expect(rt, "memory"), b.expect(rt, "memory"));
    match Net::of(alloc, a, b) {
        Ok(_) => false,
        Err(found) => found == unlike,
    }
}

#[test]
fn unlike_circuits(rt: HostRuntime) {
    let alloc = rt.alloc();
    let more_inputs = circuit(alloc, &[1, 2, 3], &[], &[]);
    let one = one_gate(alloc, 2, 4);
    let is_so = is_refused(&rt, alloc, one, more_inputs, Unlike::Inputs(2, 3));
    expect(&rt, "more inputs", is_so);
    let no_outputs = circuit(alloc, &[1, 2], &[], &[]);
    let one = one_gate(alloc, 2, 4);
    let is_so = is_refused(&rt, alloc, one, no_outputs, Unlike::Outputs(1, 0));
    expect(&rt, "no outputs", is_so);
}
