ghost use Rattle.std.specs.Prelude.{◌≡◌, ◌+◌, ◌≤◌, ◌^◌, length, IfOk};
ghost use Rattle.std.specs.Thread.{IsSync};
ghost use Rattle.board_lock.specs.Pass.{share_of};
ghost use Rattle.sweep_workers.specs.Asked.{questions};
ghost use Rattle.sweep_workers.specs.Working.{HasWorked, IsAtEnd, IsRound, Works};

use crate::watch::Watch;
use crate::work::{Round, work};
use crate::worker::Worker;
use board_lock::Pass;
use netlist::Net;
use std::alloc::{AllocError, Global};
use std::sync::Wait;
use std::thread::{Threads, join};
use unit_prop::Refuter;

/// How many turns of the board each worker gets. It takes three for a task.
const TURNS: u64 = 1 << 40;

/// Lets the workers settle the tasks of a round, each in a thread and with a pass of its own, and gives the
/// pass that took over all of them. The caller is one of the threads.
pub(crate) fn fan_out<T: Threads + Wait + Sync, R: Refuter + Send, G: Watch + Sync>(
    rt: &T,
    alloc: Global,
    net: &Net,
    round: &Round,
    gate: &G,
    pass: Pass,
    workers: &mut [Worker<R>],
) -> Result<Pass, AllocError>
    requires round { IsRound net.now round.now.board round.now.tasks.items }
    requires works { Works round.now.board (questions round.now.tasks.items) pass }
    requires share { share_of pass ≤ 2 ^ 62 }
    requires some { 1 ≤ length workers.old }
    ensures { IfOk result (HasWorked round.now.board (questions round.now.tasks.items) pass) }
{
    if workers.len() < 2 {
        return work(rt, alloc, net, round, gate, pass, &mut workers[0]);
    }
    let half = workers.len() / 2;
    let (front, back) = workers.split_at_mut(half);
    let mut pass = pass;
    let turns = TURNS.saturating_mul(half as u64);
    if pass.left() <= turns {
        return Err(AllocError);
    }
    let other = pass.split(alloc, &round.board, turns)?;
    let (first, second) = join(
        rt,
        || -> Result<Pass, AllocError>
            requires { IsSync T.row × IsRound net.now round.now.board round.now.tasks.items
                × Works round.now.board (questions round.now.tasks.items) pass
                × (share_of pass ≤ 2 ^ 62) × (1 ≤ length back.now) }
            ensures { IfOk result
                (HasWorked round.entry.now.board (questions round.entry.now.tasks.items) pass) }
        { fan_out(rt, alloc, net, round, gate, pass, back) },
        || -> Result<Pass, AllocError>
            requires { IsSync T.row × IsRound net.now round.now.board round.now.tasks.items
                × Works round.now.board (questions round.now.tasks.items) other
                × (share_of other ≤ 2 ^ 62) × (1 ≤ length front.now) }
            ensures { IfOk result
                (HasWorked round.entry.now.board (questions round.entry.now.tasks.items) other) }
        { fan_out(rt, alloc, net, round, gate, other, front) },
    );
    Ok(joined(round, first?, second?))
}

/// The pass that takes over another, where both have come to the end.
fn joined(round: &Round, first: Pass, second: Pass) -> Pass
    requires first { Works round.now.board (questions round.now.tasks.items) first }
    requires second { Works round.now.board (questions round.now.tasks.items) second }
    requires end { IsAtEnd (length (questions round.now.tasks.items)) first }
    requires share { share_of first + share_of second ≤ 2 ^ 62 }
    ensures works { Works round.now.board (questions round.now.tasks.items) result }
    ensures end { IsAtEnd (length (questions round.now.tasks.items)) result }
    ensures share { share_of result ≡ share_of first + share_of second }
{
    let mut first = first;
    first.join(&round.board, second);
    first
}
