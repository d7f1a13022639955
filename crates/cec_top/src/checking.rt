ghost use Rattle.std.specs.Prelude.{◌≡◌, None, Some, IfOk, OnOk, option_map};
ghost use Rattle.check_session.specs.Files.{stop_of_stitch};
ghost use Rattle.check_session.specs.Outputs.{ListsOpen, finding_of};
ghost use Rattle.cec_top.specs.Check.{lines_of, status_of_finding};
ghost use Rattle.cec_top.specs.Script.{Due};
ghost use Rattle.cec_top.specs.Steps.{Checks, LeavesTextOf, SaysStatus, how_in, made_in, wanted_in};

use crate::kept::Kept;
use crate::progress::settle;
use crate::stats::{Marks, look, report};
use crate::texts::{plain_text, text_with_lines};
use crate::wants::Wants;
use crate::watched::Watched;
use crate::witness::leave_witness;
use check_session::{Session, Verdict};
use desk_port::{Desk, Gate};
use endings::{Status, Stop, say};
use proof_stitch::StitchErr;
use std::alloc::Global;
use std::rt::Clock;
use std::sync::Wait;
use std::thread::Threads;

/// Makes the check with this number, of a session's pair as it is: settles it, and warns of its progress if
/// that is wanted, leaves its files if there is a prefix for them, and its witness if one is wanted, says its
/// verdict, and warns of its statistics if these are. The session then has its book, from which the next check
/// goes on; where the check is told in part no other follows it, and its book is kept.
pub(crate) fn check<D: Desk, G: Gate + Sync>(
    rt: &(impl Threads + Wait + Clock + Sync),
    alloc: Global,
    desk: &mut D,
    gate: &G,
    session: &mut Session,
    wants: Wants<'_>,
    number: u64,
    kept: &mut Vec<Kept>,
) -> Result<Status, Stop>
    requires started { (D.state desk.old).started ≡ None }
    ensures { Checks (how_in session.old (wanted_in wants.entry)) number session.old session.new
        (D.state desk.old) (D.state desk.new) kept.old.items kept.new.items result }
{
    kept.reserve(1)?;
    let read = look(rt, wants.stats);
    let watched = Watched::new(rt, gate);
    let verdict = settle(rt, alloc, desk, &watched, session, wants.progress)?;
    let checked = look(rt, wants.stats);
    let parts = watched.parts();
    let mut proof_lines = None;
    match tell(
        alloc,
        desk,
        session,
        &verdict,
        wants,
        number,
        &mut proof_lines,
    ) {
        Ok(status) => {
            let marks = Marks {
                begun: if number == 0 { wants.begun } else { None },
                read,
                checked,
                told: look(rt, wants.stats),
                parts,
                proof_lines,
            };
            report(alloc, desk, session, wants.stats, marks);
            Ok(status)
        }
        Err(stop) => {
            kept.push_reserved(Kept {
                check: number,
                book: session.take_book(alloc),
            });
            Err(stop)
        }
    }
}

/// Leaves the files of the session's last check, which has this number, if there is a prefix for them, and its
/// witness, if one is wanted, and says its verdict. What a verdict speaks of stands before it is said. How many lines
/// the proof has is noted for whoever asks for it.
fn tell<D: Desk>(
    alloc: Global,
    desk: &mut D,
    session: &Session,
    verdict: &Verdict,
    wants: Wants<'_>,
    number: u64,
    proof_lines: &mut Option<u64>,
) -> Result<Status, Stop>
    requires started { (D.state desk.old).started ≡ None }
    requires found { session.now.found ≡ Some (finding_of verdict.now) }
    requires open { ListsOpen session.now.net session.now.book.entries verdict.now }
    ensures says { (due : Due) → SaysStatus (wanted_in wants.entry) number
        (made_in due session.now verdict.now) (D.state desk.old) (D.state desk.new) result }
    ensures lines { OnOk result ((due : Due) → proof_lines.new
        ≡ lines_of (wanted_in wants.entry).out (made_in due session.now verdict.now)) }
{
    let text = leave_files(
        alloc,
        desk,
        session,
        verdict,
        wants.out,
        number,
        proof_lines,
    )?;
    leave_witness(alloc, desk, session.net(), verdict, wants.witness)?;
    say(desk, text.as_slice())?;
    Ok(status_of(verdict))
}

/// Leaves the CNF and the proof of the session's last check, which has this number, if there is a prefix for
/// them, and gives the text of its verdict.
fn leave_files<D: Desk>(
    alloc: Global,
    desk: &mut D,
    session: &Session,
    verdict: &Verdict,
    out: Option<&str>,
    number: u64,
    proof_lines: &mut Option<u64>,
) -> Result<Vec<u8>, Stop>
    requires started { (D.state desk.old).started ≡ None }
    requires found { session.now.found ≡ Some (finding_of verdict.now) }
    requires open { ListsOpen session.now.net session.now.book.entries verdict.now }
    ensures files { (due : Due) → LeavesTextOf (option_map (λ s. s.now) out.entry) number
        (made_in due session.now verdict.now) (D.state desk.old) (D.state desk.new) result }
    ensures started { IfOk result (λ _. (D.state desk.new).started ≡ None) }
    ensures lines { OnOk result ((due : Due) → proof_lines.new
        ≡ lines_of (option_map (λ s. s.now) out.entry) (made_in due session.now verdict.now)) }
{
    match out {
        None => {
            *proof_lines = None;
            Ok(plain_text(alloc, verdict)?)
        }
        Some(prefix) => {
            let mut lines = 0;
            match session.write_counted(alloc, desk, prefix, number, &mut lines) {
                Ok(spans) => {
                    *proof_lines = Some(lines);
                    Ok(text_with_lines(alloc, spans.as_slice(), verdict)?)
                }
                Err(fault) => Err(stop_of(fault)),
            }
        }
    }
}

/// What ends the program where a check's files can't be left.
pub(crate) fn stop_of(fault: StitchErr) -> Stop
    ensures { result ≡ stop_of_stitch fault }
{
    match fault {
        StitchErr::Write => Stop::CannotWrite,
        StitchErr::NoMemory => Stop::OutOfMemory,
    }
}

/// The status with which the program ends where the verdict was said.
fn status_of(verdict: &Verdict) -> Status
    ensures { result ≡ status_of_finding (finding_of verdict.now) }
{
    match verdict {
        Verdict::Equivalent => Status::Done,
        Verdict::Different { .. } => Status::No,
        Verdict::Undecided { .. } => Status::Undecided,
    }
}
