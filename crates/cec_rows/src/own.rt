//! Checks of circuits that the program makes: the lines that tell of them, the verdict, and no file that
//! is read.
use crate::desk::{Case, EQUIVALENT, check_case, check_cases};
use std::test::*;

const OWN: Case<'_> = Case {
    asked: &[],
    ..EQUIVALENT
};

static SELF_PARITY: Case<'_> = Case {
    words: &["self", "parity", "2"],
    said: "kind parity n 2\ngates 3 3\noutputs 1\nEQUIVALENT\n",
    ..OWN
};

#[test]
fn self_parity(rt: HostRuntime) {
    check_case(&rt, &SELF_PARITY);
}

static SELF_OF_ONE_BIT: [Case<'_>; 2] = [
    Case {
        words: &["self", "comparator", "1"],
        said: "kind comparator n 1\ngates 6 7\noutputs 1\nEQUIVALENT\n",
        ..OWN
    },
    Case {
        words: &["self", "adder", "1"],
        said: "kind adder n 1\ngates 9 24\noutputs 2\nEQUIVALENT\n",
        ..OWN
    },
];

#[test]
fn self_of_one_bit(rt: HostRuntime) {
    check_cases(&rt, &SELF_OF_ONE_BIT);
}

static SELF_ADDER_AND_COMPARATOR: [Case<'_>; 2] = [
    Case {
        words: &["self", "adder", "8"],
        said: "kind adder n 8\ngates 72 174\noutputs 9\nEQUIVALENT\n",
        ..OWN
    },
    Case {
        words: &["self", "comparator", "8"],
        said: "kind comparator n 8\ngates 48 56\noutputs 1\nEQUIVALENT\n",
        ..OWN
    },
];

#[test]
fn self_adder_and_comparator(rt: HostRuntime) {
    check_cases(&rt, &SELF_ADDER_AND_COMPARATOR);
}
