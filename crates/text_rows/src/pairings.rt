//! Pairs of circuits that are matched by their names.
ghost use Rattle.std.specs.Prelude.{◌≡◌, []};

use crate::checks::{check, is_text};
use aiger_ascii::read;
use lits::Side;
use netlist::{Circuit, Net, Port, Unlike};
use std::alloc::Global;
use std::process::Abort;
use std::test::*;

const X_AND_NOT_Y: &str = "aag 3 2 0 1 1\n2\n4\n6\n6 2 5\ni0 x\ni1 y\no0 z\n";

/// The same with its inputs in the other order.
const NOT_Y_AND_X: &str = "aag 3 2 0 1 1\n2\n4\n6\n6 4 3\ni0 y\ni1 x\no0 z\n";

const NO_NAMES: &str = "aag 3 2 0 1 1\n2\n4\n6\n6 2 4\n";

/// The circuit that a text spells. It has no constraints.
fn circuit(rt: &impl Abort, alloc: Global, text: &str) -> Circuit
    ensures { result.constraints ≡ [] }
{
    let circuit = read(alloc, text.as_bytes()).expect(rt, "a circuit");
    assert!(rt; circuit.constraints().is_empty(), "no constraint");
    circuit
}

/// The net of two texts by their names.
fn by_name(rt: &impl Abort, alloc: Global, a: &str, b: &str) -> Result<Net, Unlike> {
    Net::of_named(alloc, circuit(rt, alloc, a), circuit(rt, alloc, b))
}

/// The miter's clauses as lines of a DIMACS file.
fn miter(rt: &impl Abort, alloc: Global, net: &Net) -> String {
    let mut text = String::new(alloc);
    for clause in net.miter(alloc).expect(rt, "memory") {
        for dim in clause.lits() {
            let sign = if dim.is_negated() { "-" } else { "" };
            write!(text, "{sign}{} ", dim.var()).expect(rt, "memory");
        }
        text.push_str("0\n").expect(rt, "memory");
    }
    text
}

#[test]
fn inputs_in_the_order_of_a(rt: HostRuntime) {
    let alloc = rt.alloc();
    let net = by_name(&rt, alloc, X_AND_NOT_Y, NOT_Y_AND_X).expect(&rt, "a net");
    let clauses = "1 0\n-4 2 0\n-4 -3 0\n4 -2 3 0\n-5 2 0\n-5 -3 0\n5 -2 3 0\n-6 4 5 0\n\
        -6 -4 -5 0\n6 -4 5 0\n6 4 -5 0\n6 0\n";
    check(
        &rt,
        "the miter",
        is_text(Ok(miter(&rt, alloc, &net)), clauses),
    );
}

/// Two texts, and why they are no net by their names.
struct Row {
    why: &'static str,
    a: &'static str,
    b: &'static str,
    cause: Unlike,
}

static ROWS: [Row; 10] = [
    Row {
        why: "fewer inputs come before names",
        a: NO_NAMES,
        b: "aag 1 1 0 1 0\n2\n2\n",
        cause: Unlike::Inputs(2, 1),
    },
    Row {
        why: "fewer outputs come before names",
        a: NO_NAMES,
        b: "aag 2 2 0 0 0\n2\n4\n",
        cause: Unlike::Outputs(1, 0),
    },
    Row {
        why: "no names",
        a: NO_NAMES,
        b: NO_NAMES,
        cause: Unlike::NoName(Side::A, Port::Input, 0),
    },
    Row {
        why: "no name in b comes before a double in a",
        a: "aag 2 2 0 1 0\n2\n4\n2\ni0 x\ni1 x\no0 z\n",
        b: "aag 2 2 0 1 0\n2\n4\n2\ni0 x\n",
        cause: Unlike::NoName(Side::B, Port::Input, 1),
    },
    Row {
        why: "a double of a comes before one of b",
        a: "aag 3 3 0 0 0\n2\n4\n6\ni0 x\ni1 y\ni2 x\n",
        b: "aag 3 3 0 0 0\n2\n4\n6\ni0 x\ni1 x\ni2 y\n",
        cause: Unlike::Doubled(Side::A, Port::Input, 2),
    },
    Row {
        why: "a double of b comes before a missing name",
        a: "aag 2 2 0 0 0\n2\n4\ni0 w\ni1 x\n",
        b: "aag 2 2 0 0 0\n2\n4\ni0 x\ni1 x\n",
        cause: Unlike::Doubled(Side::B, Port::Input, 1),
    },
    Row {
        why: "the least name of a that b hasn't",
        a: "aag 3 3 0 0 0\n2\n4\n6\ni0 x\ni1 v\ni2 w\n",
        b: "aag 3 3 0 0 0\n2\n4\n6\ni0 a\ni1 b\ni2 x\n",
        cause: Unlike::Missing(Port::Input, 1),
    },
    Row {
        why: "a missing input comes before an output without a name",
        a: "aag 1 1 0 1 0\n2\n2\ni0 x\n",
        b: "aag 1 1 0 1 0\n2\n2\ni0 y\n",
        cause: Unlike::Missing(Port::Input, 0),
    },
    Row {
        why: "a double among outputs",
        a: "aag 0 0 0 2 0\n0\n1\no0 x\no1 y\n",
        b: "aag 0 0 0 2 0\n0\n1\no0 y\no1 y\n",
        cause: Unlike::Doubled(Side::B, Port::Output, 1),
    },
    Row {
        why: "a missing output",
        a: "aag 1 1 0 1 0\n2\n2\ni0 x\no0 x\n",
        b: "aag 1 1 0 1 0\n2\n2\ni0 x\no0 y\n",
        cause: Unlike::Missing(Port::Output, 0),
    },
];

#[test]
fn unlike_names(rt: HostRuntime) {
    let alloc = rt.alloc();
    for row in &ROWS {
        let cause = by_name(&rt, alloc, row.a, row.b).err();
        check(&rt, row.why, cause == Some(row.cause));
    }
}

#[test]
fn nothing_to_name(rt: HostRuntime) {
    let alloc = rt.alloc();
    let empty = "aag 0 0 0 0 0\n";
    check(&rt, "a net", by_name(&rt, alloc, empty, empty).is_ok());
}
