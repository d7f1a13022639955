ghost use Rattle.std.specs.Prelude.{◌≡◌, None, length};
ghost use Rattle.desk_port.specs.MemDesk.{state_of};
ghost use Rattle.lemma_book.specs.Book.{IsLegal};
ghost use Rattle.check_session.specs.Check.{IsFound, begun_by};

use crate::lemmas::book_of;
use crate::pairs::{Case, check, expect, net_of, plain, swapped_ands, two_xors};
use check_session::{Options, Session, Verdict};
use desk_port::{Desk, MemDesk, OpenGate};
use lemma_book::Book;
use netlist::{Circuit, Net};
use proof_stitch::{Span, StitchErr, derivation, refutation};
use std::alloc::Global;
use std::collections::BTreeMap;
use std::process::Abort;
use std::sync::Wait;
use std::thread::Threads;
use worked_circuits::circuit;

/// A desk without files.
fn desk(rt: &impl Abort, alloc: Global) -> MemDesk
    ensures { (state_of result).started ≡ None }
{
    MemDesk::new(alloc, BTreeMap::new(alloc), Vec::new(alloc)).expect(rt, "memory")
}

fn has_proof(desk: &MemDesk, text: &[u8]) -> bool {
    match desk.file("p") {
        Some(found) => found == text,
        None => false,
    }
}

/// Starts a file and writes the derivation.
fn derived<D: Desk>(
    alloc: Global,
    net: &Net,
    book: &Book,
    desk: &mut D,
) -> Result<Vec<Span>, StitchErr>
    requires quiet { (D.state desk.old).started ≡ None }
    requires legal { IsLegal net.now book.now }
{
    desk.start("p")?;
    derivation(alloc, net, book, desk)
}

/// Starts a file and writes the refutation of a pair without outputs, from an empty book.
fn refuted<D: Desk>(alloc: Global, net: &Net, desk: &mut D) -> Result<u64, StitchErr>
    requires quiet { (D.state desk.old).started ≡ None }
    requires outputs { length net.now.a.outputs ≡ 0 }
{
    desk.start("p")?;
    refutation(alloc, net, &Book::new(alloc, 1, 1), desk)
}

/// Whether the refutation is one line, and the desk has these bytes.
fn is_refuted(rt: &impl Abort, alloc: Global, net: &Net, text: &[u8]) -> bool
    requires { length net.now.a.outputs ≡ 0 }
{
    let mut desk = desk(rt, alloc);
    let lines = refuted(alloc, net, &mut desk).expect(rt, "a refutation");
    lines == 1 && has_proof(&desk, text)
}

/// The bytes of a refutation of one line.
struct Refutation(&'static [u8]);

impl Case for Refutation {
    fn check<A: Abort>(&self, rt: &A, alloc: Global, net: &Net) {
        assert!(rt; net.outputs() == 0);
        expect(rt, "the proof", is_refuted(rt, alloc, net, self.0));
    }
}

/// Circuits without inputs and outputs.
fn nothing(rt: &impl Abort, alloc: Global) -> Net {
    let a = circuit(alloc, &[], &[], &[]);
    net_of(rt, alloc, a, circuit(alloc, &[], &[], &[]))
}

/// The miter's last clause is empty.
static OF_NOTHING: Refutation = Refutation(b"3 0 2 0\n");

/// Whether the derivation has these spans of open outputs, and the desk these bytes.
fn is_derived(rt: &impl Abort, alloc: Global, net: &Net, book: &Book, case: &Derivation) -> bool
    requires { IsLegal net.now book.now }
{
    let mut desk = desk(rt, alloc);
    let spans = derived(alloc, net, book, &mut desk).expect(rt, "a derivation");
    spans.as_slice() == case.spans && has_proof(&desk, case.text)
}

/// Entries by lines that are offered to an empty book, and the derivation from it.
struct Derivation {
    entries: &'static str,
    spans: &'static [Span],
    text: &'static [u8],
}

impl Case for Derivation {
    fn check<A: Abort>(&self, rt: &A, alloc: Global, net: &Net) {
        let book = book_of(rt, alloc, net, 1, self.entries);
        expect(rt, "the proof", is_derived(rt, alloc, net, &book, self));
    }
}

/// The steps of a merge and of its output, in the numbers of the CNF, 1 to 12 being its clauses: each is deleted
/// behind the last one that cites it, but for the output's unit.
static EQUAL: Derivation = Derivation {
    entries: "merge b3 a3: -b3 a3 by b3.0 b3.1 a3.2; b3 -a3 by a3.0 a3.1 b3.2 => Ok(At(0))\n\
        out 0: -d0 a3 by d0.0 e0.0; -d0 by s0 d0.1 e0.1 => Ok(At(1))",
    spans: &[],
    text: b"13 -5 4 0 5 6 4 0\n14 5 -4 0 2 3 7 0\n15 -6 4 0 8 13 0\n15 d 13 0\n\
        16 -6 0 15 9 14 0\n16 d 14 15 0\n",
};

const SPAN: Span = Span {
    output: 0,
    first: 25,
    last: 25,
};

/// What a query of two XORs learned with a budget of one clause: where the output differs and A's gate is
/// false, x is true. The log of the output that was left open, in the numbers of a CNF of 24 clauses.
static SPENT: Derivation = Derivation {
    entries: "outspent 0 0: -d0 a5 i0 by d0.1 b3.0 b5.2 b4.1 a4.1 a5.2 a3.0 => Ok(At(0))",
    spans: &[SPAN],
    text: b"25 -10 6 2 0 21 11 19 15 6 10 2 0\n",
};

/// A check of two XORs with one clause for each query.
const ONE_CLAUSE: Options = Options {
    workers: 4,
    seed: 1,
    words: 4,
    sweep_budget: 1,
    out_budget: 1,
    by_name: false,
};

/// Checks the session.
fn verdict_of(
    rt: &(impl Abort + Threads + Wait + Sync),
    alloc: Global,
    session: &mut Session,
) -> Verdict
    ensures { IsFound session.new.net session.new.options (begun_by session.old) session.new.pool
        session.new.book result }
{
    session.check(rt, alloc, &OpenGate).expect(rt, "memory")
}

/// Whether output 0 alone was left open.
fn is_open(verdict: &Verdict) -> bool {
    match verdict {
        Verdict::Undecided { outputs } => outputs.as_slice() == [0].as_slice(),
        _ => false,
    }
}

/// The session of two XORs that was checked within that budget, and left output 0 open.
fn left_open(rt: &(impl Abort + Threads + Wait + Sync), alloc: Global) -> Session
    ensures { IsLegal result.net result.book }
{
    let (a, b) = circuits(rt, alloc);
    let opened = Session::open(alloc, plain(rt, a), plain(rt, b), ONE_CLAUSE);
    let mut session = opened.expect(rt, "a session");
    let verdict = verdict_of(rt, alloc, &mut session);
    expect(rt, "open", is_open(&verdict));
    session
}

fn circuits(rt: &impl Abort, alloc: Global) -> (Circuit, Circuit) {
    worked_circuits::two_xors(alloc).expect(rt, "memory")
}

/// Whether the derivation from its book has one span of one line.
fn has_span(rt: &impl Abort, alloc: Global, session: &Session) -> bool
    requires { IsLegal session.now.net session.now.book }
{
    let mut desk = desk(rt, alloc);
    let spans = derived(alloc, session.net(), session.book(), &mut desk);
    spans.expect(rt, "a derivation").as_slice() == [SPAN].as_slice() && has_one_line(&desk)
}

/// Whether the proof is a line with the number of the span.
fn has_one_line(desk: &MemDesk) -> bool {
    match desk.file("p") {
        Some(proof) => {
            proof.starts_with(b"25 ") && proof.iter().filter(|byte| **byte == b'\n').count() == 1
        }
        None => false,
    }
}

#[test]
fn stitched_of_session(rt: HostRuntime) {
    let alloc = rt.alloc();
    expect(
        &rt,
        "the span",
        has_span(&rt, alloc, &left_open(&rt, alloc)),
    );
}

#[test]
fn stitched(rt: HostRuntime) {
    let alloc = rt.alloc();
    check(&rt, alloc, nothing(&rt, alloc), &OF_NOTHING);
    check(&rt, alloc, swapped_ands(&rt, alloc), &EQUAL);
    check(&rt, alloc, two_xors(&rt, alloc), &SPENT);
}
