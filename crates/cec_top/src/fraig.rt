//! The reduced circuit of a file: what is left of it where nodes that are equal are one.
ghost use Rattle.std.specs.Prelude.{◌≡◌, [], Some, None, IfOk, IfErr, option_map};
ghost use Rattle.circuit_text.specs.BinaryText.{IsInSequence};
ghost use Rattle.endings.specs.declared.stop.Stop.TheVariants.{OutOfMemory};
ghost use Rattle.command_line.specs.Answers.{fraig_texts};
ghost use Rattle.check_session.specs.Check.{AreInRange};
ghost use Rattle.check_session.specs.Finding.{Equivalent};
ghost use Rattle.lemma_book.specs.Entry.{Entries};
ghost use Rattle.cec_top.specs.Fraig.{AnswersFraig, EndsFraig, StopsFraig, fraig_how};
ghost use Rattle.cec_top.specs.FraigSteps.{Reduces, TellsStatus, WritesCircuit, WritesProof, reduction_in};

use crate::checking::stop_of;
use crate::kept::Kept;
use crate::laws::proves;
use crate::reading::read_circuit;
use crate::texts::reduced_text;
use check_session::{Options, Session, reduce};
use command_line::FraigWords;
use desk_port::{Desk, Gate, PutErr};
use endings::{Content, Status, Stop, end, say, write_file};
use lemma_book::Book;
use netlist::Circuit;
use netlist::laws::is_net;
use std::alloc::Global;
use std::sync::Wait;
use std::thread::Threads;

/// Reduces the circuit of a file, and warns of what ends that otherwise. The book of the sweep is handed back.
pub(crate) fn reduce_file<D: Desk, G: Gate + Sync>(
    rt: &(impl Threads + Wait + Sync),
    alloc: Global,
    desk: &mut D,
    gate: &G,
    words: FraigWords<'_>,
) -> (Status, Vec<Kept>)
    requires { (D.state desk.old).started ≡ None }
    ensures { AnswersFraig (fraig_texts words.entry) (D.state desk.old)
        (D.state desk.new) result.0 result.1.items }
{
    let mut kept = Vec::new(alloc);
    match read_and_reduce(rt, alloc, desk, gate, words, &mut kept) {
        Ok(status) => (status, kept),
        Err(stop) => (end(alloc, desk, &[words.a], &stop), kept),
    }
}

/// Reads the circuit, reduces it, writes what is left of it and then the proof, and says how many gates either
/// circuit has. Room for the book is made before the sweep, so that no refusal behind it loses the book.
fn read_and_reduce<D: Desk, G: Gate + Sync>(
    rt: &(impl Threads + Wait + Sync),
    alloc: Global,
    desk: &mut D,
    gate: &G,
    words: FraigWords<'_>,
    kept: &mut Vec<Kept>,
) -> Result<Status, Stop>
    requires started { (D.state desk.old).started ≡ None }
    requires empty { kept.old.items ≡ [] }
    ensures ok { IfOk result (λ status.
        EndsFraig (fraig_texts words.entry) (D.state desk.old) (D.state desk.new) status kept.new.items) }
    ensures err { IfErr result
        (StopsFraig (fraig_texts words.entry) (D.state desk.old) kept.new.items (D.state desk.new)) }
{
    let a = read_circuit(alloc, desk, words.a, 0)?;
    kept.reserve(1)?;
    let (circuit, book, session) = reduced(rt, alloc, gate, a, words)?;
    let told = tell(alloc, desk, words, &circuit, &session);
    kept.push_reserved(Kept { check: 0, book });
    told
}

/// Reduces the circuit: gives what is left of it, the book of the sweep, and a session in which both are shown to
/// compute the same.
fn reduced<G: Gate + Sync>(
    rt: &(impl Threads + Wait + Sync),
    alloc: Global,
    gate: &G,
    a: Circuit,
    words: FraigWords<'_>,
) -> Result<(Circuit, Book, Session), Stop>
    ensures ok { IfOk result (λ r. Reduces (fraig_how (fraig_texts words.entry)) a r.0 r.1 r.2) }
    ensures err { IfErr result (λ stop. stop ≡ OutOfMemory) }
{
    let (circuit, book, session) = reduce(rt, alloc, a, options_of(words), gate)?;
    is_net(session.net());
    proves(session.net(), session.book());
    Ok((circuit, book, session))
}

/// The numbers that the arguments give. No output is queried.
fn options_of(words: FraigWords<'_>) -> Options
    ensures options { result ≡ (fraig_how (fraig_texts words.entry)).options }
    ensures range { AreInRange result }
{
    Options {
        workers: words.workers as u32,
        seed: words.seed,
        words: words.words as u32,
        sweep_budget: words.sweep_budget,
        out_budget: 100_000,
        by_name: false,
    }
}

/// Writes the reduced circuit, and behind it the proof, if there is a prefix for it; and then says how many gates
/// either circuit has, and that they are equivalent.
fn tell<D: Desk>(
    alloc: Global,
    desk: &mut D,
    words: FraigWords<'_>,
    circuit: &Circuit,
    session: &Session,
) -> Result<Status, Stop>
    requires started { (D.state desk.old).started ≡ None }
    requires found { session.now.found ≡ Some Equivalent }
    requires reduced { circuit.now ≡ session.now.net.b }
    requires sequence { IsInSequence circuit.now }
    ensures { (book : Entries) → TellsStatus (fraig_texts words.entry) (reduction_in session.now book)
        (D.state desk.old) (D.state desk.new) result }
{
    write_circuit(alloc, desk, words.reduced, circuit)?;
    write_proof(alloc, desk, words.out, session)?;
    let text = reduced_text(alloc, session.net())?;
    say(desk, text.as_slice())?;
    Ok(Status::Done)
}

/// A circuit in AIGER's order, as a file has it.
#[derive(Clone, Copy)]
struct Binary<'a>(&'a Circuit);

impl Content for Binary<'_> {
    ghost use Rattle.circuit_text.specs.BinaryText.{IsInSequence, binary_text};

    type Told = ();

    ghost is_ready = { λ c. IsInSequence c.0.now };

    ghost bytes = { λ c. binary_text c.0.now };

    ghost tells = { λ _ _. Unit {0} };

    fn put<D: Desk>(&self, alloc: Global, desk: &mut D) -> Result<(), PutErr> {
        aiger_binary::print(alloc, desk, self.0)
    }
}

/// Writes the circuit to the named file.
fn write_circuit<D: Desk>(
    alloc: Global,
    desk: &mut D,
    name: &str,
    circuit: &Circuit,
) -> Result<(), Stop>
    requires started { (D.state desk.old).started ≡ None }
    requires sequence { IsInSequence circuit.now }
    ensures { WritesCircuit name.now circuit.now (D.state desk.old) (D.state desk.new) result }
{
    write_file(alloc, desk, name, &Binary(circuit))?;
    Ok(())
}

/// Writes the two files of the session's check, if there is a prefix for them.
fn write_proof<D: Desk>(
    alloc: Global,
    desk: &mut D,
    out: Option<&str>,
    session: &Session,
) -> Result<(), Stop>
    requires started { (D.state desk.old).started ≡ None }
    requires found { session.now.found ≡ Some Equivalent }
    ensures { WritesProof (option_map (λ s. s.now) out.entry) session.now
        (D.state desk.old) (D.state desk.new) result }
{
    match out {
        Some(prefix) => match session.write(alloc, desk, prefix, 0) {
            Ok(_) => Ok(()),
            Err(fault) => Err(stop_of(fault)),
        },
        None => Ok(()),
    }
}
