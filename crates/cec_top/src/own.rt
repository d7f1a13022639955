ghost use Rattle.std.specs.Prelude.{◌≡◌, [], IfOk, IfErr, None, Ok};
ghost use Rattle.netlist.specs.Circuit.{Aig};
ghost use Rattle.aiger_file.specs.File.{SpellsAiger};
ghost use Rattle.check_session.specs.Check.{AreInRange};
ghost use Rattle.command_line.specs.Answers.{self_texts};
ghost use Rattle.endings.specs.Writing.{Says};
ghost use Rattle.cec_top.specs.Texts.{workload_text};
ghost use Rattle.cec_top.specs.SelfCheck.{EndsSelf, StopsSelf, own_how};
ghost use Rattle.cec_top.specs.Steps.{MakesSession, ReadsBack};

use crate::kept::Kept;
use crate::script::run_script;
use crate::texts::workload_text;
use crate::wants::Wants;
use byte_scan::AigerErr;
use check_session::{Options, Session};
use command_line::SelfWords;
use desk_port::{Desk, Gate};
use endings::{Status, Stop, say};
use netlist::{Circuit, Net, Unlike};
use std::alloc::Global;
use std::rt::Clock;
use std::sync::Wait;
use std::thread::Threads;

/// Makes two circuits, says which they are, settles them and says the verdict.
pub(crate) fn check_own<D: Desk, G: Gate + Sync>(
    rt: &(impl Threads + Wait + Clock + Sync),
    alloc: Global,
    desk: &mut D,
    gate: &G,
    words: SelfWords,
    kept: &mut Vec<Kept>,
) -> Result<Status, Stop>
    requires started { (D.state desk.old).started ≡ None }
    requires empty { kept.old.items ≡ [] }
    ensures ok { IfOk result (λ status.
        EndsSelf (self_texts words) (D.state desk.old) (D.state desk.new) status kept.new.items) }
    ensures err { IfErr result
        (StopsSelf (self_texts words) (D.state desk.old) kept.new.items (D.state desk.new)) }
{
    let mut session = own_session(alloc, words)?;
    say_and_settle(rt, alloc, desk, gate, words, &mut session, kept)
}

/// Says which circuits the session has, settles them and says the verdict.
fn say_and_settle<D: Desk, G: Gate + Sync>(
    rt: &(impl Threads + Wait + Clock + Sync),
    alloc: Global,
    desk: &mut D,
    gate: &G,
    words: SelfWords,
    session: &mut Session,
    kept: &mut Vec<Kept>,
) -> Result<Status, Stop>
    requires started { (D.state desk.old).started ≡ None }
    requires empty { kept.old.items ≡ [] }
    requires made { MakesSession (self_texts words) (Ok session.old) }
    ensures ok { IfOk result (λ status.
        EndsSelf (self_texts words) (D.state desk.old) (D.state desk.new) status kept.new.items) }
    ensures err { IfErr result
        (StopsSelf (self_texts words) (D.state desk.old) kept.new.items (D.state desk.new)) }
{
    say_workload(alloc, desk, words, session.net())?;
    let wants = Wants {
        out: None,
        witness: None,
        stats: false,
        progress: false,
        begun: None,
    };
    run_script(rt, alloc, desk, gate, session, wants, b"", kept)
}

/// Says which circuits were made.
fn say_workload<D: Desk>(
    alloc: Global,
    desk: &mut D,
    words: SelfWords,
    net: &Net,
) -> Result<(), Stop>
    requires started { (D.state desk.old).started ≡ None }
    ensures { Says (workload_text (self_texts words) net.now) (D.state desk.old) (D.state desk.new) result }
{
    let text = workload_text(alloc, words, net)?;
    say(desk, text.as_slice())
}

/// The numbers of a check without an option.
fn default_options() -> Options
    ensures options { result ≡ own_how.options }
    ensures range { AreInRange result }
{
    Options {
        workers: 4,
        seed: 1,
        words: 4,
        sweep_budget: 100,
        out_budget: 100_000,
        by_name: false,
    }
}

/// A session for the two circuits, which are made as files and read like those.
fn own_session(alloc: Global, words: SelfWords) -> Result<Session, Stop>
    ensures { MakesSession (self_texts words) result }
{
    workload_gen::circuits_are_alike();
    let (first, second) = workload_gen::make(alloc, words.kind, words.n)?;
    let a = read_back(alloc, first.as_slice())?;
    let b = read_back(alloc, second.as_slice())?;
    match Session::open(alloc, a, b, default_options()) {
        Ok(session) => Ok(session),
        Err(Unlike::NoMemory) => Err(Stop::OutOfMemory),
        Err(_) => unreachable!(),
    }
}

/// The circuit that the bytes spell, which spell one.
fn read_back(alloc: Global, bytes: &[u8]) -> Result<Circuit, Stop>
    requires { (c : Aig) × SpellsAiger bytes.now c }
    ensures { ReadsBack bytes.now result }
{
    match aiger_file::read(alloc, bytes) {
        Ok(circuit) => Ok(circuit),
        Err(AigerErr::NoMemory) => Err(Stop::OutOfMemory),
        Err(_) => unreachable!(),
    }
}
