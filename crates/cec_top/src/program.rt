ghost use Rattle.std.specs.Prelude.{◌≡◌, ◌<◌, [], IfOk, IfErr, None, map, string_bytes};
ghost use Rattle.endings.specs.Stops.{Warns, status_of, stop_line};
ghost use Rattle.endings.specs.Status.{code_of};
ghost use Rattle.command_line.specs.Answers.{check_texts, self_texts};
ghost use Rattle.cec_top.specs.Answers.{Answers, AnswersCheck, EndsCheck, SaysHelp, Stops, names_of};
ghost use Rattle.cec_top.specs.SelfCheck.{AnswersSelf};
ghost use Rattle.cec_top.specs.Steps.{AnswersRefusal};

use crate::fraig::reduce_file;
use crate::kept::Kept;
use crate::lemmas::{lemmas_place, load_lemmas, save_lemmas};
use crate::own::check_own;
use crate::reading::{read_script, read_session};
use crate::script::run_script;
use crate::stats::look;
use crate::wants::Wants;
use command_line::{Asked, CheckWords, Refusal, SelfWords};
use desk_port::{Desk, Gate, PutErr};
use endings::{Status, Stop, end, warn};
use std::alloc::Global;
use std::rt::Clock;
use std::sync::Wait;
use std::thread::Threads;

/// Does all that the program does, and answers with the status and the books of the checks that were made:
/// of each that left outputs open, and of the last one.
///
/// The first argument is the program's name. A fault is warned of as one line before the status is
/// answered, and refused arguments with the text of `clap`; where the warning fails the status stays.
pub fn run<D: Desk, G: Gate + Sync>(
    rt: &(impl Threads + Wait + Clock + Sync),
    alloc: Global,
    words: &[String],
    desk: &mut D,
    gate: &G,
) -> (Status, Vec<Kept>)
    requires { (D.state desk.old).started ≡ None }
    ensures answers { Answers (map string_bytes words.now) (D.state desk.old)
        (D.state desk.new) result.0 result.1.items }

    // Only where a write failed or memory ran out may a file be left started.
    ensures closed { code_of result.0 < 6 → (D.state desk.new).started ≡ None }
{
    match command_line::read(alloc, words) {
        Ok(Asked::Check(words)) => check_files(rt, alloc, desk, gate, words),
        Ok(Asked::Fraig(words)) => reduce_file(rt, alloc, desk, gate, words),
        Ok(Asked::Lrat(words)) => {
            let status = lrat_run::run(alloc, desk, words.cnf, words.proof);
            (status, Vec::new(alloc))
        }
        Ok(Asked::SelfCheck(words)) => check_workload(rt, alloc, desk, gate, words),
        Err(refusal) => (answer_refusal(desk, &refusal), Vec::new(alloc)),
    }
}

/// Makes the checks that are asked for of two files' circuits, and warns of what ends them without the last
/// verdict, or with more than it.
fn check_files<D: Desk, G: Gate + Sync>(
    rt: &(impl Threads + Wait + Clock + Sync),
    alloc: Global,
    desk: &mut D,
    gate: &G,
    words: CheckWords<'_>,
) -> (Status, Vec<Kept>)
    requires { (D.state desk.old).started ≡ None }
    ensures { AnswersCheck (check_texts words.entry) (D.state desk.old)
        (D.state desk.new) result.0 result.1.items }
{
    let mut kept = Vec::new(alloc);
    match read_and_check(rt, alloc, desk, gate, words, &mut kept) {
        Ok(status) => (status, kept),
        Err(stop) => (end_check(alloc, desk, words, &stop), kept),
    }
}

/// Reads the pair, the script and the lemmas, and makes the checks: check 0, of the circuits as they were read,
/// and those that the script asks for. Behind them it saves the lemmas of the last one. Nothing is saved behind a
/// line that is refused, nor where a check isn't told whole.
fn read_and_check<D: Desk, G: Gate + Sync>(
    rt: &(impl Threads + Wait + Clock + Sync),
    alloc: Global,
    desk: &mut D,
    gate: &G,
    words: CheckWords<'_>,
    kept: &mut Vec<Kept>,
) -> Result<Status, Stop>
    requires started { (D.state desk.old).started ≡ None }
    requires empty { kept.old.items ≡ [] }
    ensures ok { IfOk result (λ status.
        EndsCheck (check_texts words.entry) (D.state desk.old) (D.state desk.new) status kept.new.items) }
    ensures err { IfErr result
        (Stops (check_texts words.entry) (D.state desk.old) kept.new.items (D.state desk.new)) }
{
    let wants = Wants {
        out: words.out,
        witness: words.witness,
        stats: words.stats,
        progress: words.progress,
        begun: look(rt, words.stats),
    };
    let mut session = read_session(alloc, desk, words)?;
    let script = read_script(alloc, desk, words.edits)?;
    let place = lemmas_place(words.edits);
    load_lemmas(alloc, desk, &mut session, words.load, place)?;
    let status = run_script(
        rt,
        alloc,
        desk,
        gate,
        &mut session,
        wants,
        script.as_slice(),
        kept,
    )?;
    save_lemmas(alloc, desk, words.save, kept.as_slice())?;
    Ok(status)
}

/// Warns of the cause why a check of files ends, and gives its status.
fn end_check<D: Desk>(alloc: Global, desk: &mut D, words: CheckWords<'_>, stop: &Stop) -> Status
    ensures { Warns (stop_line (names_of (check_texts words.entry)) stop.now) (status_of stop.now)
        (D.state desk.old) (D.state desk.new) result }
{
    let (a, b) = (words.a, words.b);
    match words.edits {
        Some(edits) => match words.load {
            Some(load) => end(alloc, desk, &[a, b, edits, load], stop),
            None => end(alloc, desk, &[a, b, edits], stop),
        },
        None => match words.load {
            Some(load) => end(alloc, desk, &[a, b, load], stop),
            None => end(alloc, desk, &[a, b], stop),
        },
    }
}

/// Makes the check of two circuits that the program makes, and warns of what ends it without a verdict.
fn check_workload<D: Desk, G: Gate + Sync>(
    rt: &(impl Threads + Wait + Clock + Sync),
    alloc: Global,
    desk: &mut D,
    gate: &G,
    words: SelfWords,
) -> (Status, Vec<Kept>)
    requires { (D.state desk.old).started ≡ None }
    ensures { AnswersSelf (self_texts words) (D.state desk.old)
        (D.state desk.new) result.0 result.1.items }
{
    let mut kept = Vec::new(alloc);
    match check_own(rt, alloc, desk, gate, words, &mut kept) {
        Ok(status) => (status, kept),
        Err(stop) => (end(alloc, desk, &[], &stop), kept),
    }
}

/// Says the help that was asked for, or warns of arguments that ask for nothing.
fn answer_refusal<D: Desk>(desk: &mut D, refusal: &Refusal) -> Status
    ensures { AnswersRefusal refusal.now (D.state desk.old) (D.state desk.new) result }
{
    match refusal {
        Refusal::Help(text) => say_help(desk, text.as_str()),
        Refusal::Usage(text) => warn(desk, text.as_str(), Status::BadUsage),
        Refusal::NoMemory => warn(desk, "cec: out of memory\n", Status::OutOfMemory),
    }
}

/// Says the text of help. This is an answer like a verdict, so it goes to standard output and its status is
/// 0.
fn say_help<D: Desk>(desk: &mut D, text: &str) -> Status
    ensures { SaysHelp text.now (D.state desk.old) (D.state desk.new) result }
{
    match desk.say(text.as_bytes()) {
        Ok(()) => Status::Done,
        Err(PutErr::Failed) => warn(desk, "cec: cannot write\n", Status::CannotWrite),
        Err(PutErr::NoMemory) => warn(desk, "cec: out of memory\n", Status::OutOfMemory),
    }
}
