ghost use Rattle.std.specs.Prelude.{◌≡◌, ◌++◌, ◌∷◌, [], None, OnOk, OnErr};
ghost use Rattle.netlist_edits.specs.Script.{script_lines};
ghost use Rattle.cec_top.specs.Script.{plan_of, turn_of};
ghost use Rattle.cec_top.specs.Steps.{DoesTurn, KeepsOpen, RunsPlan, StopsAtLine, how_in, opening_in, wanted_in};

use crate::checking::check;
use crate::kept::Kept;
use crate::lines::refused_fault;
use crate::wants::Wants;
use byte_scan::Scan;
use check_session::Session;
use desk_port::{Desk, Gate};
use endings::{Status, Stop};
use netlist_edits::{Command, EditErr, read_line};
use std::alloc::{AllocError, Global};
use std::rt::Clock;
use std::sync::Wait;
use std::thread::Threads;

/// The place of the script among the files that are read.
pub(crate) const SCRIPT_PLACE: usize = 2;

/// Makes check 0 of a session's pair, which goes on from what was loaded, and each check that the script asks
/// for, and makes the edits of its lines. Each check is told whole before the next line is looked at. A line that is refused ends it.
///
/// The bytes are read line by line, so a line costs no more in a long script than in a short one. Of each
/// check that left outputs open, and of the last one, the book is kept. It is known only behind the later
/// lines which check was the last, so an earlier one's book is copied right before the next check is made,
/// which goes on from it.
pub(crate) fn run_script<D: Desk, G: Gate + Sync>(
    rt: &(impl Threads + Wait + Clock + Sync),
    alloc: Global,
    desk: &mut D,
    gate: &G,
    session: &mut Session,
    wants: Wants<'_>,
    script: &[u8],
    kept: &mut Vec<Kept>,
) -> Result<Status, Stop>
    requires started { (D.state desk.old).started ≡ None }
    requires unedited { session.old.edits ≡ [] }
    requires empty { kept.old.items ≡ [] }
    ensures { RunsPlan (how_in session.old (wanted_in wants.entry)) (opening_in session.old)
        (plan_of session.old.net (script_lines script.now))
        (D.state desk.old) (D.state desk.new) kept.new.items result }
{
    let mut status = check(rt, alloc, desk, gate, session, wants, 0, kept)?;
    let mut number = 0;
    let mut at = 0;
    let mut scan = Scan::new(script);
    while let Some(line) = scan.line() {
        at += 1;
        match do_line(alloc, session, line) {
            Ok(false) => {}
            Ok(true) => {
                keep_open(alloc, session, number, status, kept)?;
                number += 1;
                status = check(rt, alloc, desk, gate, session, wants, number, kept)?;
            }
            Err(fault) => {
                keep(alloc, session, number, kept)?;
                return Err(refused_stop(alloc, at, fault));
            }
        }
    }
    keep(alloc, session, number, kept)?;
    Ok(status)
}

/// Does what a line says but for a check, for which it answers true. Where memory is refused for its edit, or
/// the line is refused, the session is as it was.
fn do_line(alloc: Global, session: &mut Session, line: &[u8]) -> Result<bool, EditErr>
    ensures { DoesTurn (turn_of session.old.net line.now) session.old session.new result }
{
    match read_line(line) {
        Ok(None) => Ok(false),
        Ok(Some(Command::Check)) => Ok(true),
        Ok(Some(Command::Edit(edit))) => match session.edit(alloc, edit) {
            Ok(()) => Ok(false),
            Err(fault) => Err(fault),
        },
        Err(_) => Err(EditErr::BadLine),
    }
}

/// Keeps a copy of the book of a check that ended with this status, if it left outputs open.
fn keep_open(
    alloc: Global,
    session: &Session,
    number: u64,
    status: Status,
    kept: &mut Vec<Kept>,
) -> Result<(), AllocError>
    ensures { KeepsOpen number status session.now.book kept.old.items kept.new.items result }
{
    match status {
        Status::Undecided => keep_copy(alloc, session, number, kept),
        _ => Ok(()),
    }
}

/// Keeps a copy of the book of the check with this number, which the session has.
fn keep_copy(
    alloc: Global,
    session: &Session,
    number: u64,
    kept: &mut Vec<Kept>,
) -> Result<(), AllocError>
    ensures ok { OnOk result (kept.new.items
        ≡ kept.old.items ++ record { check = number; book = session.now.book } ∷ []) }
    ensures err { OnErr result (kept.new.items ≡ kept.old.items) }
{
    kept.reserve(1)?;
    let book = session.book().copy(alloc)?;
    kept.push_reserved(Kept {
        check: number,
        book,
    });
    Ok(())
}

/// Keeps the book of the last check, which has this number.
fn keep(
    alloc: Global,
    session: &mut Session,
    number: u64,
    kept: &mut Vec<Kept>,
) -> Result<(), AllocError>
    ensures ok { OnOk result (kept.new.items
        ≡ kept.old.items ++ record { check = number; book = session.old.book } ∷ []) }
    ensures err { OnErr result (kept.new.items ≡ kept.old.items) }
{
    kept.reserve(1)?;
    kept.push_reserved(Kept {
        check: number,
        book: session.take_book(alloc),
    });
    Ok(())
}

/// Why the program ends at the script's line with this number: it is refused, or memory ran out.
fn refused_stop(alloc: Global, line: u64, fault: EditErr) -> Stop
    ensures { StopsAtLine (record { line = line; fault = fault }) result }
{
    match fault {
        EditErr::NoMemory => Stop::OutOfMemory,
        fault => match refused_fault(alloc, line, fault) {
            Ok(text) => Stop::BadFile(SCRIPT_PLACE, text),
            Err(_) => Stop::OutOfMemory,
        },
    }
}
