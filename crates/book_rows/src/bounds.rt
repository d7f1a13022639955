//! The lemma book where circuits have constraints: what an output's cone has, what may cite a constraint's
//! unit, and which inputs show that an output differs.

ghost use Rattle.std.specs.Prelude.{◌<◌, [], ◌∷◌, length};
ghost use Rattle.std.specs.Bool.{OnTrue};
ghost use Rattle.netlist.specs.Circuit.{IsCircuit, plain};
ghost use Rattle.lemma_book.specs.Book.{IsLegal};

use crate::lemmas::{are_of, book_of};
use crate::pairs::{Case, check, expect};
use lemma_book::Book;
use netlist::{And, Circuit, Names, Net};
use std::alloc::Global;
use std::process::Abort;
use worked_circuits::and;

/// The circuit of two inputs, 1 and 2, with one output and with constraints.
pub(crate) fn circuit(
    rt: &impl Abort,
    alloc: Global,
    gates: &[And],
    output: u32,
    constraints: &[u32],
) -> Circuit
    requires { IsCircuit
        (record (plain (1 ∷ 2 ∷ []) gates.now (output ∷ [])) { constraints = constraints.now }) }
{
    let names = Names::none(alloc, 2, 1);
    Circuit::of(
        alloc,
        Vec::from_slice(alloc, &[1, 2]).expect(rt, "memory"),
        Vec::from_slice(alloc, gates).expect(rt, "memory"),
        Vec::from_slice(alloc, &[output]).expect(rt, "memory"),
        Vec::from_slice(alloc, constraints).expect(rt, "memory"),
        names,
    )
    .expect(rt, "memory")
}

/// A's output is input 1, and B's the AND of both inputs: they differ on `01` alone. A's constraint is its
/// own AND of both, which nothing else reads, and B's is input 0: so `11` alone is admitted.
pub(crate) fn and_that_is_asked(rt: &impl Abort, alloc: Global) -> Net {
    let a = circuit(rt, alloc, &[and(3, 2, 4)], 4, &[6]);
    let b = circuit(rt, alloc, &[and(3, 4, 2)], 6, &[2]);
    Net::of(alloc, a, b).expect(rt, "a net")
}

/// The same outputs, where `01` is admitted: the AND is false, and input 0.
pub(crate) fn and_that_is_false(rt: &impl Abort, alloc: Global) -> Net {
    let a = circuit(rt, alloc, &[and(3, 2, 4)], 4, &[7]);
    let b = circuit(rt, alloc, &[and(3, 4, 2)], 6, &[3]);
    Net::of(alloc, a, b).expect(rt, "a net")
}

/// The same outputs, where A's constraint is true on `01`, and B's, that input 1 is false, isn't.
pub(crate) fn and_that_one_admits(rt: &impl Abort, alloc: Global) -> Net {
    let a = circuit(rt, alloc, &[and(3, 2, 4)], 4, &[7]);
    let b = circuit(rt, alloc, &[and(3, 4, 2)], 6, &[5]);
    Net::of(alloc, a, b).expect(rt, "a net")
}

/// Two XORs by other gates, of which a5 is the negation of b5, and a constraint of A that is true.
fn xors_and_true(rt: &impl Abort, alloc: Global) -> Net {
    let gates = [and(3, 2, 5), and(4, 3, 4), and(5, 7, 9)];
    let a = circuit(rt, alloc, &gates, 11, &[1]);
    let gates = [and(3, 2, 4), and(4, 3, 5), and(5, 7, 9)];
    let b = circuit(rt, alloc, &gates, 10, &[]);
    Net::of(alloc, a, b).expect(rt, "a net")
}

/// Entries by lines, each to one book with one clause for each query.
struct Offers(&'static str);

impl Case for Offers {
    fn check<A: Abort>(&self, rt: &A, alloc: Global, net: &Net) {
        let _book = book_of(rt, alloc, net, 1, self.0);
    }
}

/// What a unit may be cited by, over `and_that_is_asked`.
const OF_UNITS: &str = "\
# Merges hold on all inputs, and so a step of a merge, or of the log of a pair, cites no constraint.
merge b3 a3: -b3 a3 by !a0; b3 -a3 by a3.0 a3.1 b3.2 => Err(Bad(Step(0, BadStep { hint: 1, why: NoClause })))
merge b3 a3: -b3 a3 by b3.0 b3.1 a3.2; b3 -a3 by a3.1 !b0 b3.2 \
    => Err(Bad(Step(1, BadStep { hint: 2, why: NoClause })))
spent b3 a3 0: -b3 a3 by !a0 => Err(Bad(Step(0, BadStep { hint: 1, why: NoClause })))
# Constraints that aren't there.
out 0: -d0 by !a1 => Err(Bad(Step(0, BadStep { hint: 1, why: NoClause })))
out 0: -d0 by !a0 a3.1 !b1 b3.2 d0.1 => Err(Bad(Step(0, BadStep { hint: 3, why: NoClause })))
# The input on which the outputs differ, which isn't admitted, and the one that is.
outapart 0: 01 => Err(NotApart)
outapart 0: 11 => Err(NotApart)
# The log of an output may cite a constraint; but unit propagation shows this output equal.
outspent 0 0: -d0 by !a0 a3.1 !b0 b3.2 d0.1 => Err(Bad(NotNew(0)))
# The steps of an output may.
out 0: -d0 by !a0 a3.1 !b0 b3.2 d0.1 => Ok(At(0))
merge b3 a3: -b3 a3 by b3.0 b3.1 a3.2; b3 -a3 by a3.0 a3.1 b3.2 => Ok(At(1))
";

/// The cone of the output over the empty book: the AND that A's constraint alone reads is in it, and the
/// units are its last clauses.
const OUTPUT_CONE: &str = "\
    -a3 i0 by a3.0; -a3 i1 by a3.1; a3 -i0 -i1 by a3.2; -b3 i1 by b3.0; -b3 i0 by b3.1; b3 -i1 -i0 by b3.2; \
    -d0 i1 b3 by d0.0; -d0 -i1 -b3 by d0.1; d0 -i1 b3 by d0.2; d0 i1 -b3 by d0.3; a3 by !a0; i0 by !b0";

/// Whether the net has the output.
fn is_output(net: &Net, j: u32) -> bool
    ensures { OnTrue result (j < length net.now.a.outputs) }
{
    j < net.outputs()
}

/// The cone of the output over an empty book.
struct OutputCone;

impl Case for OutputCone {
    fn check<A: Abort>(&self, rt: &A, alloc: Global, net: &Net) {
        let book = Book::new(alloc, 1, 1);
        assert!(rt; is_output(net, 0));
        let cone = book.output_cone(alloc, net, 0, 0).expect(rt, "memory");
        let is_so = are_of(rt, alloc, cone.as_slice(), OUTPUT_CONE);
        expect(rt, "the output's cone", is_so);
    }
}

#[test]
fn units_in_books(rt: HostRuntime) {
    let alloc = rt.alloc();
    check(&rt, alloc, and_that_is_asked(&rt, alloc), &Offers(OF_UNITS));
    check(&rt, alloc, and_that_is_asked(&rt, alloc), &OutputCone);
}

/// The input on which the outputs differ, where both constraints are true on it, and where one isn't.
const ADMITTED: &str = "outapart 0: 01 => Ok(At(0))";

const ADMITTED_BY_ONE: &str = "outapart 0: 01 => Err(NotApart)";

#[test]
fn admitted_inputs(rt: HostRuntime) {
    let alloc = rt.alloc();
    check(&rt, alloc, and_that_is_false(&rt, alloc), &Offers(ADMITTED));
    check(
        &rt,
        alloc,
        and_that_one_admits(&rt, alloc),
        &Offers(ADMITTED_BY_ONE),
    );
}

/// The log of a query of an output cites the constraint, and that of a pair may not, over `xors_and_true`.
const LOGS: &str = "\
spent b5 -a5 0: -b5 -a5 i0 by !a0 b5.1 b4.2 a5.1 a4.2 => Err(Bad(Step(0, BadStep { hint: 1, why: NoClause })))
outspent 0 0: -d0 a5 i0 by !a0 d0.1 b3.0 b5.2 b4.1 a4.1 a5.2 a3.0 => Ok(At(0))
";

#[test]
fn units_in_logs(rt: HostRuntime) {
    let alloc = rt.alloc();
    check(&rt, alloc, xors_and_true(&rt, alloc), &Offers(LOGS));
}
