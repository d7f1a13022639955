//! Checks whose answers have shapes that the small cases don't reach: entries of two kinds in one book, an
//! input outside a cone, a chain of a thousand merges.
use crate::desk::Holds::{Begins, Ends, Lines};
use crate::desk::{Case, DIFFERENT, EQUIVALENT, check_case, check_over};
use crate::files::TIGHT;
use cec_top::Status;
use std::alloc::{AllocError, Global};
use std::test::Fail;

static ONE_OUTPUT_OPEN_AND_ONE_SHOWN: Case<'_> = Case {
    files: &[
        ("A", b"aag 5 2 0 2 3\n2\n4\n11\n2\n6 2 5\n8 3 4\n10 7 9\n"),
        ("B", b"aag 5 2 0 2 3\n2\n4\n10\n2\n6 2 4\n8 3 5\n10 7 9\n"),
    ],
    words: &TIGHT,
    status: Status::Undecided,
    said: "UNDECIDED\noutput 0 lines 28-28\n",
    left: &[
        ("p.0.lrat", Begins(b"27 -11 0 24 25 0\n28 ")),
        ("p.0.lrat", Ends(b" 0\n")),
        ("p.0.lrat", Lines(2)),
    ],
    ..EQUIVALENT
};

/// Output 0 is an XOR, in another way on each side, and output 1 is input 0.
///
/// The proof has the step of output 1, whose XOR is variable 11 with the clauses 24 and 25, and then the log
/// of output 0.
#[test]
fn one_output_open_and_one_shown(rt: HostRuntime) {
    check_case(&rt, &ONE_OUTPUT_OPEN_AND_ONE_SHOWN);
}

static INPUT_OUTSIDE_THE_CONE: Case<'_> = Case {
    files: &[
        ("A", b"aag 4 3 0 1 1\n2\n4\n6\n8\n8 2 6\n"),
        ("B", b"aag 3 3 0 1 0\n2\n4\n6\n0\n"),
    ],
    said: "DIFFERENT\noutput 0\ninput 101\n",
    ..DIFFERENT
};

/// The AND of inputs 0 and 2 of three against the constant false: no gate reads input 1.
#[test]
fn input_outside_the_cone(rt: HostRuntime) {
    check_case(&rt, &INPUT_OUTSIDE_THE_CONE);
}

/// A chain of a thousand AND gates over one input, each of the one before and the input, and last the AND of
/// the chain and false.
fn chain(alloc: Global) -> Result<String, AllocError> {
    let mut text = String::from_str(alloc, "aag 1002 1 0 1 1001\n2\n2004\n")?;
    for gate in 2..1002u64 {
        write!(text, "{} {} 2\n", 2 * gate, 2 * gate - 2)?;
    }
    text.push_str("2004 2002 0\n")?;
    Ok(text)
}

static THOUSAND_MERGES: Case<'_> = Case {
    left: &[("p.0.cnf", Begins(b"p cnf 2005 6012\n"))],
    ..EQUIVALENT
};

/// Both sides have 1,001 gates, each of which is merged with the input or with false.
#[test]
fn chain_of_a_thousand_merges(rt: HostRuntime) -> Result<(), Fail> {
    let text = chain(rt.alloc())?;
    let files = [("A", text.as_bytes()), ("B", text.as_bytes())];
    check_over(&rt, &files, &THOUSAND_MERGES);
    Ok(())
}

static OPEN_OUTPUT_OVER_A_MERGE: Case<'_> = Case {
    files: &[
        (
            "A",
            b"aag 6 2 0 3 4\n2\n4\n11\n12\n2\n6 2 5\n8 3 4\n10 7 9\n12 2 4\n",
        ),
        (
            "B",
            b"aag 5 2 0 3 3\n2\n4\n10\n6\n2\n6 2 4\n8 3 5\n10 7 9\n",
        ),
    ],
    words: &TIGHT,
    status: Status::Undecided,
    said: "UNDECIDED\noutput 0 lines 39-39\n",
    left: &[("p.0.lrat", Begins(b"34 -8 7 0 ")), ("p.0.lrat", Lines(7))],
    ..EQUIVALENT
};

/// Output 0 is an XOR, in another way on each side. Output 1 is the AND of both inputs, gate 6 in A and gate
/// 3 in B, over which B's XOR is; they are merged, so the merge's clauses show it, whatever the budget.
/// Output 2 is input 0.
///
/// The miter has 33 clauses. The proof has the two steps of the merge, two of output 1, since from its XOR
/// alone unit propagation goes nowhere, with a deletion behind them, one of output 2, and output 0's log of one
/// clause.
#[test]
fn open_output_over_a_merge(rt: HostRuntime) {
    check_case(&rt, &OPEN_OUTPUT_OVER_A_MERGE);
}
