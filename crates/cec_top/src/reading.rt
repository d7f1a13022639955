ghost use Rattle.std.specs.Prelude.{◌≡◌, ℕ, List, option_map};
ghost use Rattle.endings.specs.Reading.{ReadsAs};
ghost use Rattle.aiger_file.specs.File.{SpellsAiger};
ghost use Rattle.command_line.specs.Answers.{check_texts};
ghost use Rattle.cec_top.specs.Answers.{how_of};
ghost use Rattle.cec_top.specs.Inputs.{circuit_file};
ghost use Rattle.check_session.specs.Check.{AreInRange};
ghost use Rattle.cec_top.specs.Steps.{ReadsScript, ReadsSession, StopsUnlike};

use crate::lines::{aiger_fault, unlike_fault};
use crate::script::SCRIPT_PLACE;
use byte_scan::AigerErr;
use check_session::{Options, Session};
use command_line::CheckWords;
use desk_port::Desk;
use endings::{Stop, read_file};
use netlist::laws::pairs_are_matched;
use netlist::{Circuit, Unlike};
use std::alloc::Global;

/// The circuit of the named file, which is this one of those that are read.
pub(crate) fn read_circuit<D: Desk>(
    alloc: Global,
    desk: &mut D,
    name: &str,
    file: usize,
) -> Result<Circuit, Stop>
    ensures { (earlier : List (List ℕ)) →
        ReadsAs SpellsAiger file (circuit_file name.now) earlier
        (D.state desk.old) (D.state desk.new) result }
{
    let bytes = read_file(alloc, desk, name, file)?;
    match aiger_file::read(alloc, bytes.as_slice()) {
        Ok(circuit) => Ok(circuit),
        Err(AigerErr::NoMemory) => Err(Stop::OutOfMemory),
        Err(fault) => {
            let text = aiger_fault(alloc, fault)?;
            Err(Stop::BadFile(file, text))
        }
    }
}

/// A session for the pair of circuits, A read before B.
pub(crate) fn read_session<D: Desk>(
    alloc: Global,
    desk: &mut D,
    words: CheckWords<'_>,
) -> Result<Session, Stop>
    ensures { ReadsSession (check_texts words.entry) (D.state desk.old) (D.state desk.new) result }
{
    let a = read_circuit(alloc, desk, words.a, 0)?;
    let b = read_circuit(alloc, desk, words.b, 1)?;
    pairs_are_matched(&a, &b);
    match Session::open(alloc, a, b, options_of(words)) {
        Ok(session) => Ok(session),
        Err(unlike) => Err(unlike_stop(alloc, unlike)),
    }
}

/// Why a check ends whose circuits can't be compared, or weren't for want of memory.
fn unlike_stop(alloc: Global, unlike: Unlike) -> Stop
    ensures { StopsUnlike unlike result }
{
    match unlike {
        Unlike::NoMemory => Stop::OutOfMemory,
        fault => match unlike_fault(alloc, fault) {
            Ok(text) => Stop::NotAlike(text),
            Err(_) => Stop::OutOfMemory,
        },
    }
}

/// The numbers that the arguments give.
fn options_of(words: CheckWords<'_>) -> Options
    ensures options { result ≡ (how_of (check_texts words.entry)).options }
    ensures range { AreInRange result }
{
    Options {
        workers: words.workers as u32,
        seed: words.seed,
        words: words.words as u32,
        sweep_budget: words.sweep_budget,
        out_budget: words.budget,
        by_name: words.by_name,
    }
}

/// The bytes of the edit script, if one is named.
pub(crate) fn read_script<D: Desk>(
    alloc: Global,
    desk: &mut D,
    edits: Option<&str>,
) -> Result<Vec<u8>, Stop>
    ensures { ReadsScript (option_map (λ s. s.now) edits.entry) (D.state desk.old) (D.state desk.new) result }
{
    match edits {
        Some(name) => read_file(alloc, desk, name, SCRIPT_PLACE),
        None => Ok(Vec::new(alloc)),
    }
}
