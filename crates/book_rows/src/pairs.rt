//! The nets that most cases are about, how a case is checked over a net, and how a test says what isn't so.
//!
//! Whatever a test can't go on without fails it at once, memory too (`expect(rt, "memory")`): so no test
//! hands an error up, and the prover goes through no exits on which all values are dropped.

ghost use Rattle.std.specs.Prelude.{◌≡◌, []};

use netlist::{Circuit, Net};
use std::alloc::{AllocError, Global};
use std::process::Abort;

/// Fails the test, with these words, unless it is so. A call costs the prover a third of an `assert!`.
pub(crate) fn expect(rt: &impl Abort, what: &str, is_so: bool) {
    assert!(rt; is_so, "{what}");
}

/// Fails the test unless the texts are the same.
pub(crate) fn expect_text(rt: &impl Abort, what: &str, found: &str, expected: &str) {
    assert!(rt; found == expected, "{what}: {found}");
}

/// The circuit. The test fails where it has a constraint, which none of these cases has.
pub(crate) fn plain(rt: &impl Abort, circuit: Circuit) -> Circuit
    ensures same { result ≡ circuit }
    ensures plain { result.constraints ≡ [] }
{
    assert!(rt; circuit.constraints().is_empty(), "no constraint");
    circuit
}

/// The net of two circuits that are alike, which a case makes in the call.
pub(crate) fn net_of(
    rt: &impl Abort,
    alloc: Global,
    a: Result<Circuit, AllocError>,
    b: Result<Circuit, AllocError>,
) -> Net {
    let (a, b) = (a.expect(rt, "memory"), b.expect(rt, "memory"));
    Net::of(alloc, a, b).expect(rt, "a net")
}

/// What a test checks of a net.
pub(crate) trait Case {
    /// Checks it over the net.
    fn check<A: Abort>(&self, rt: &A, alloc: Global, net: &Net);
}

/// Checks a case over a net that the test makes in the call.
pub(crate) fn check<A: Abort, C: Case>(rt: &A, alloc: Global, net: Net, case: &C) {
    case.check(rt, alloc, &net);
}

/// Two ANDs of two inputs, a3 and b3, whose fanins stand in the other order.
pub(crate) fn swapped_ands(rt: &impl Abort, alloc: Global) -> Net {
    let (a, b) = worked_circuits::swapped_ands(alloc).expect(rt, "memory");
    net_of(rt, alloc, Ok(a), Ok(b))
}

/// Two XORs by other gates, of which a5 is the negation of b5.
pub(crate) fn two_xors(rt: &impl Abort, alloc: Global) -> Net {
    let (a, b) = worked_circuits::two_xors(alloc).expect(rt, "memory");
    net_of(rt, alloc, Ok(a), Ok(b))
}
