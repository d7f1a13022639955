//! The progress of a check, which is warned while it goes on where that is asked for.
ghost use Rattle.std.specs.Prelude.{◌≡◌, ◌⊎◌, ◌++◌, true, IfOk, IfErr, OnOk};
ghost use Rattle.std.specs.Thread.{IsSync};
ghost use Rattle.endings.specs.Stops.{IsWarned};
ghost use Rattle.endings.specs.declared.stop.Stop.TheVariants.{OutOfMemory};
ghost use Rattle.cec_top.specs.Progress.{WarnsProgress, part_text, progress_line};
ghost use Rattle.cec_top.specs.Steps.{Settles};

use crate::laws::proves;
use crate::stats::{push_decimal, warn_text};
use crate::watched::Watched;
use check_session::{Session, Verdict};
use desk_port::{Desk, Gate};
use endings::Stop;
use std::alloc::{AllocError, Global};
use std::rt::Clock;
use std::sync::Wait;
use std::thread::{Threads, join_mut};
use sweep_workers::Part;

/// How far a check is.
#[derive(Clone, Copy)]
pub(crate) struct Progress {
    pub(crate) part: Part,
    /// The round of the part.
    pub(crate) round: u64,
    /// How many tasks of the round are settled, of how many.
    pub(crate) settled: u64,
    pub(crate) tasks: u64,
    /// How many pairs and outputs were left open so far.
    pub(crate) open: u64,
    /// How many seconds the check has gone on.
    pub(crate) seconds: u64,
}

/// Settles a session's pair. Where its progress is asked for, that is warned while the check goes on.
pub(crate) fn settle<R: Threads + Wait + Clock + Sync, D: Desk, G: Gate + Sync>(
    rt: &R,
    alloc: Global,
    desk: &mut D,
    watched: &Watched<'_, R, G>,
    session: &mut Session,
    is_wanted: bool,
) -> Result<Verdict, Stop>
    ensures ok { IfOk result (Settles session.old session.new) }
    ensures err { IfErr result (λ stop. stop ≡ OutOfMemory) }
    ensures warns { WarnsProgress is_wanted (D.state desk.old) (D.state desk.new) }
{
    if is_wanted {
        settle_beside(rt, alloc, desk, watched, session)
    } else {
        settle_watched(rt, alloc, watched, session)
    }
}

/// Settles a session's pair.
fn settle_watched<R: Threads + Wait + Clock + Sync, G: Gate + Sync>(
    rt: &R,
    alloc: Global,
    watched: &Watched<'_, R, G>,
    session: &mut Session,
) -> Result<Verdict, Stop>
    ensures ok { IfOk result (Settles session.old session.new) }
    ensures err { IfErr result (λ stop. stop ≡ OutOfMemory) }
{
    let verdict = session.check_watched(rt, alloc, watched)?;
    proves(session.net(), session.book());
    Ok(verdict)
}

/// Settles a session's pair in a thread of its own, while this one, which has the desk, warns how far that is.
fn settle_beside<R: Threads + Wait + Clock + Sync, D: Desk, G: Gate + Sync>(
    rt: &R,
    alloc: Global,
    desk: &mut D,
    watched: &Watched<'_, R, G>,
    session: &mut Session,
) -> Result<Verdict, Stop>
    ensures ok { IfOk result (Settles session.old session.new) }
    ensures err { IfErr result (λ stop. stop ≡ OutOfMemory) }
    ensures warns { WarnsProgress true (D.state desk.old) (D.state desk.new) }
{
    let (verdict, _) = join_mut(
        rt,
        &mut || -> Result<Verdict, Stop>
            requires { IsSync R.row }
            ensures ok { IfOk result (Settles session.entry.now session.exit.now) }
            ensures err { IfErr result (λ stop. stop ≡ OutOfMemory) }
        { settle_noted(rt, alloc, watched, session) },
        &mut ||
            ensures { WarnsProgress true (D.state desk.entry.now) (D.state desk.exit.now) }
        { warn_until_done(rt, alloc, desk, watched) },
    );
    verdict
}

/// Settles a session's pair, and notes when that begins and when it is done.
fn settle_noted<R: Threads + Wait + Clock + Sync, G: Gate + Sync>(
    rt: &R,
    alloc: Global,
    watched: &Watched<'_, R, G>,
    session: &mut Session,
) -> Result<Verdict, Stop>
    ensures ok { IfOk result (Settles session.old session.new) }
    ensures err { IfErr result (λ stop. stop ≡ OutOfMemory) }
{
    watched.note_begun();
    let verdict = settle_watched(rt, alloc, watched, session);
    watched.note_done();
    verdict
}

/// Warns of a check's progress until the check is done.
fn warn_until_done<R: Wait + Clock, D: Desk, G: Gate>(
    rt: &R,
    alloc: Global,
    desk: &mut D,
    watched: &Watched<'_, R, G>,
)
    ensures { WarnsProgress true (D.state desk.old) (D.state desk.new) }
{
    if !watched.has_begun(rt) {
        return;
    }
    for _ in rt.forever() {
        if !watched.goes_on(rt) {
            return;
        }
        warn_progress(alloc, desk, watched.progress());
    }
}

/// Warns of one line, where there is memory for it. Where the warning fails a first part of it is warned, and
/// the next line is tried all the same.
fn warn_progress<D: Desk>(alloc: Global, desk: &mut D, progress: Progress)
    ensures { (D.state desk.new ≡ D.state desk.old)
        ⊎ IsWarned (D.state desk.old) (D.state desk.new) (progress_line progress) }
{
    match progress_line(alloc, progress) {
        Ok(text) => warn_text(desk, text.as_slice()),
        Err(_) => {}
    }
}

/// The line of a check that is so far.
#[tactic(auto, unfolding(crate::specs::Progress::progress_line))]
fn progress_line(alloc: Global, progress: Progress) -> Result<Vec<u8>, AllocError>
    ensures { IfOk result (λ v. v.items ≡ progress_line progress) }
{
    let mut text = Vec::new(alloc);
    text.extend_from_slice(b"cec: progress ")?;
    push_part(&mut text, progress.part)?;
    text.extend_from_slice(b" round ")?;
    push_decimal(&mut text, progress.round)?;
    text.extend_from_slice(b", ")?;
    push_decimal(&mut text, progress.settled)?;
    text.extend_from_slice(b" of ")?;
    push_decimal(&mut text, progress.tasks)?;
    text.extend_from_slice(b" settled, ")?;
    push_decimal(&mut text, progress.open)?;
    text.extend_from_slice(b" open, ")?;
    push_decimal(&mut text, progress.seconds)?;
    text.extend_from_slice(b" s\n")?;
    Ok(text)
}

fn push_part(text: &mut Vec<u8>, part: Part) -> Result<(), AllocError>
    ensures { OnOk result (text.new.items ≡ text.old.items ++ part_text part) }
{
    match part {
        Part::Structure => text.extend_from_slice(b"structure"),
        Part::Sweep => text.extend_from_slice(b"sweep"),
        Part::Outputs => text.extend_from_slice(b"outputs"),
    }
}
