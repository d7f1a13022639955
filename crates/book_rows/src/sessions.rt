ghost use Rattle.std.specs.Prelude.{◌≤◌};
ghost use Rattle.check_session.specs.Check.{AreInRange};

use crate::pairs::{expect, plain};
use check_session::{Options, Session, Verdict};
use desk_port::OpenGate;
use lemma_book::{Book, Entry};
use lits::{Lit, Node, Side};
use netlist::{Circuit, Unlike};
use std::alloc::{AllocError, Global};
use std::process::Abort;
use std::sync::Wait;
use std::thread::Threads;
use worked_circuits::{and, circuit, one_gate, swapped_ands, two_xors};

/// The numbers that the program goes by where it isn't told others.
const DEFAULTS: Options = Options {
    workers: 4,
    seed: 1,
    words: 4,
    sweep_budget: 100,
    out_budget: 100_000,
    by_name: false,
};

/// A verdict as a word or two: outputs, and the input's digits.
fn words_of(verdict: &Verdict) -> &'static str {
    match verdict {
        Verdict::Equivalent => "equivalent",
        Verdict::Different { output: 0, input } if matches!(input.as_slice(), [true, true]) => {
            "different at 0 on 11"
        }
        Verdict::Different { output: 1, input } if matches!(input.as_slice(), [true, true]) => {
            "different at 1 on 11"
        }
        Verdict::Undecided { outputs } if matches!(outputs.as_slice(), [0]) => "undecided at 0",
        _ => "another verdict",
    }
}

/// Two circuits, which a case makes in the call.
type Pair = Result<(Circuit, Circuit), AllocError>;

/// A session of circuits that are alike.
fn session_of(rt: &impl Abort, alloc: Global, pair: Pair, options: Options) -> Session
    requires { AreInRange options }
{
    let (a, b) = pair.expect(rt, "memory");
    Session::open(alloc, plain(rt, a), plain(rt, b), options).expect(rt, "a session")
}

/// The session's verdict.
fn verdict_of(
    rt: &(impl Abort + Threads + Wait + Sync),
    alloc: Global,
    session: &mut Session,
) -> &'static str {
    words_of(&session.check(rt, alloc, &OpenGate).expect(rt, "memory"))
}

const LAST_OF_A: Lit = Lit {
    node: Node::Gate(Side::A, 5),
    neg: true,
};

const LAST_OF_B: Lit = Lit {
    node: Node::Gate(Side::B, 5),
    neg: false,
};

/// What the book says of the last gates of two XORs, or of its one output that differs, or else first and of
/// output 0.
fn words_of_book(book: &Book) -> &'static str {
    if book.root(LAST_OF_B) == LAST_OF_A {
        return "the last gates are merged";
    }
    if book.len() == 1 && matches!(book.about(1), Some(Entry::OutApart { .. })) {
        return "apart";
    }
    match book.about(0) {
        Some(Entry::Out { .. }) => words_of_first(book),
        Some(Entry::OutApart { .. }) if book.len() == 1 => "apart",
        Some(Entry::OutSpent { log, .. }) if log.len() == 1 => "a log of one clause",
        _ => "another book",
    }
}

/// What a book of an output that is equal says first.
fn words_of_first(book: &Book) -> &'static str {
    match book.entry(0) {
        Some(Entry::Merge { .. }) if book.len() == 2 => "merged, equal",
        Some(Entry::Spent { .. }) => "given up, equal",
        _ => "another book",
    }
}

/// Compares what a book of this budget says.
fn check_book(rt: &impl Abort, book: &Book, sweep_budget: u64, expected: &str) {
    expect(rt, "the budget", book.sweep_budget() == sweep_budget);
    expect(rt, expected, words_of_book(book) == expected);
}

/// Compares the session's verdict, and what its book says, before and after it is taken; and the verdict of a
/// second check.
fn check_session(
    rt: &(impl Abort + Threads + Wait + Sync),
    alloc: Global,
    session: &mut Session,
    sweep_budget: u64,
    expected: (&str, &str),
) {
    let verdict = verdict_of(rt, alloc, session);
    expect(rt, expected.0, verdict == expected.0);
    check_book(rt, session.book(), sweep_budget, expected.1);
    check_book(rt, &session.take_book(alloc), sweep_budget, expected.1);
    expect(rt, "no entry is left", session.book().len() == 0);
    let again = verdict_of(rt, alloc, session);
    expect(rt, "the same verdict once more", again == expected.0);
}

/// The same of a session of the circuits.
fn check_pair(
    rt: &(impl Abort + Threads + Wait + Sync),
    alloc: Global,
    pair: Pair,
    options: Options,
    expected: (&str, &str),
)
    requires { AreInRange options }
{
    let mut session = session_of(rt, alloc, pair, options);
    check_session(rt, alloc, &mut session, options.sweep_budget, expected);
}

/// Whether no session is opened for the circuits, for this cause.
fn is_refused(rt: &impl Abort, alloc: Global, pair: Pair, unlike: Unlike) -> bool {
    let (a, b) = pair.expect(rt, "memory");
    match Session::open(alloc, plain(rt, a), plain(rt, b), DEFAULTS) {
        Ok(_) => false,
        Err(found) => found == unlike,
    }
}

/// An AND of two inputs, and a circuit of three.
fn with_more_inputs(alloc: Global) -> Pair {
    Ok((
        one_gate(alloc, 2, 4)?,
        circuit(alloc, &[1, 2, 3], &[], &[6])?,
    ))
}

/// An AND, and false.
fn and_and_false(alloc: Global) -> Pair {
    Ok((one_gate(alloc, 2, 4)?, circuit(alloc, &[1, 2], &[], &[0])?))
}

/// Two XORs by other gates, and as second outputs an AND and false.
fn xors_and_an_and(alloc: Global) -> Pair {
    let gates = [and(3, 2, 5), and(4, 3, 4), and(5, 7, 9), and(6, 2, 4)];
    let a = circuit(alloc, &[1, 2], &gates, &[11, 12])?;
    let gates = [and(3, 2, 4), and(4, 3, 5), and(5, 7, 9)];
    let b = circuit(alloc, &[1, 2], &gates, &[10, 0])?;
    Ok((a, b))
}

/// The first of eight inputs, and false: the first pattern in which that input is true tells them apart.
fn input_and_false(alloc: Global) -> Pair {
    let inputs = [1, 2, 3, 4, 5, 6, 7, 8];
    let a = circuit(alloc, &inputs, &[], &[2])?;
    let b = circuit(alloc, &inputs, &[], &[0])?;
    Ok((a, b))
}

/// A number of bits, of the first the highest.
fn number_of(bits: &[bool]) -> u32 {
    let mut number = 0u32;
    for bit in bits {
        number = number.wrapping_mul(2) | u32::from(*bit);
    }
    number
}

/// The input that is told where the first input is compared with false, with this seed and so many words.
fn told_with(rt: &(impl Abort + Threads + Wait + Sync), alloc: Global, seed: u64, words: u32) -> u32
    requires { (1 ≤ words) × (words ≤ 64) }
{
    let options = Options {
        workers: 4,
        seed,
        words,
        sweep_budget: 100,
        out_budget: 100_000,
        by_name: false,
    };
    let mut session = session_of(rt, alloc, input_and_false(alloc), options);
    match session.check(rt, alloc, &OpenGate).expect(rt, "memory") {
        Verdict::Different { input, .. } => number_of(input.as_slice()),
        _ => 0,
    }
}

const ENOUGH_FOR_OUTPUTS: Options = Options {
    workers: 4,
    seed: 1,
    words: 4,
    sweep_budget: 1,
    out_budget: 100_000,
    by_name: false,
};

const ONE_CLAUSE: Options = Options {
    workers: 4,
    seed: 1,
    words: 4,
    sweep_budget: 1,
    out_budget: 1,
    by_name: false,
};

#[test]
fn unlike_equal_and_different_circuits(rt: HostRuntime) {
    let alloc = rt.alloc();
    let is_so = is_refused(&rt, alloc, with_more_inputs(alloc), Unlike::Inputs(2, 3));
    expect(&rt, "more inputs", is_so);
    // The structural pass merges the one gate, and the output needs no search.
    let expected = ("equivalent", "merged, equal");
    check_pair(&rt, alloc, swapped_ands(alloc), DEFAULTS, expected);
    // A pattern tells the output apart, and only x = y = 1 can.
    let expected = ("different at 0 on 11", "apart");
    check_pair(&rt, alloc, and_and_false(alloc), DEFAULTS, expected);
    // So for another output too, and none of the pairs that would be candidates is asked for.
    let expected = ("different at 1 on 11", "apart");
    check_pair(&rt, alloc, xors_and_an_and(alloc), DEFAULTS, expected);
}

/// The expected inputs are computed from the words that `tools/draws.py` draws.
#[test]
fn seeds_and_words_tell_inputs(rt: HostRuntime) {
    let alloc = rt.alloc();
    let told = told_with(&rt, alloc, 1, 4);
    expect(&rt, "seed 1, four words", told == 0b1010_0110);
    let told = told_with(&rt, alloc, 2, 4);
    expect(&rt, "seed 2, four words", told == 0b1000_0101);
    let told = told_with(&rt, alloc, 1, 1);
    expect(&rt, "seed 1, one word", told == 0b1101_0011);
}

#[test]
fn two_xors_within_budgets(rt: HostRuntime) {
    let alloc = rt.alloc();
    // No gate is a twin of another; a round merges the last one to the complement of A's.
    let expected = ("equivalent", "the last gates are merged");
    check_pair(&rt, alloc, two_xors(alloc), DEFAULTS, expected);
    // A pair whose budget of one clause is spent leaves the output to its own query, which has enough.
    let expected = ("equivalent", "given up, equal");
    check_pair(&rt, alloc, two_xors(alloc), ENOUGH_FOR_OUTPUTS, expected);
    // With a budget of one clause for the output too it stays open.
    let expected = ("undecided at 0", "a log of one clause");
    check_pair(&rt, alloc, two_xors(alloc), ONE_CLAUSE, expected);
}
