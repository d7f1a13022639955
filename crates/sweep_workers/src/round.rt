ghost use Rattle.std.specs.Prelude.{◌≡◌, ◌≤◌, drop, length, IfOk};
ghost use Rattle.std.specs.List.{AllByRecursion};
ghost use Rattle.lemma_book.specs.Book.{IsLegal};
ghost use Rattle.sweep_workers.specs.Asked.{IsAskable, questions};
ghost use Rattle.board_lock.specs.Pass.{IsWholePass};
ghost use Rattle.sweep_workers.specs.Answered.{AreAnswered};
ghost use Rattle.sweep_workers.specs.Working.{IsRound, Works};

use crate::alone::{effort_alone, settle_alone};
use crate::asked::Asked;
use crate::fan::fan_out;
use crate::watch::Watch;
use crate::work::Round;
use crate::worker::Worker;
use board_lock::{Board, Pass};
use lemma_book::Book;
use netlist::Net;
use pattern_filter::PatternFilter;
use std::alloc::{AllocError, Global};
use std::sync::{Mutex, Wait};
use std::thread::Threads;
use unit_prop::Refuter;

/// Lets workers answer what is asked: one of them begins alone where a board would cost more than that, and
/// what it leaves is shared out.
pub(crate) fn round<T: Threads + Wait + Sync, R: Refuter + Send, G: Watch + Sync>(
    rt: &T,
    alloc: Global,
    net: &Net,
    book: Book,
    tasks: Vec<Asked>,
    sieve: Mutex<PatternFilter>,
    gate: &G,
    workers: &mut [Worker<R>],
) -> Result<(Book, Mutex<PatternFilter>), AllocError>
    requires legal { IsLegal net.now book }
    requires askable { AllByRecursion (IsAskable net.now) tasks.items }
    requires some { 1 ≤ length workers.old }
    ensures { IfOk result (λ r. AreAnswered net.now (questions tasks.items) book r.0) }
{
    let effort = effort_alone(book.len(), tasks.len(), workers.len());
    let all = tasks.as_slice();
    let first = &mut workers[0];
    let (book, settled) = settle_alone(rt, alloc, net, book, all, &sieve, gate, first, effort)?;
    if settled >= tasks.len() {
        return Ok((book, sieve));
    }
    let rest = behind(tasks, settled)?;
    share_out(rt, alloc, net, book, rest, sieve, gate, workers)
}

/// The tasks from a place on.
fn behind(tasks: Vec<Asked>, settled: usize) -> Result<Vec<Asked>, AllocError>
    requires { settled ≤ length tasks.items }
    ensures { IfOk result (λ v. v.items ≡ drop settled tasks.items) }
{
    let mut tasks = tasks;
    tasks.split_off(settled)
}

/// Lets workers answer what is asked over a board, no more of them than there are questions.
fn share_out<T: Threads + Wait + Sync, R: Refuter + Send, G: Watch + Sync>(
    rt: &T,
    alloc: Global,
    net: &Net,
    book: Book,
    tasks: Vec<Asked>,
    sieve: Mutex<PatternFilter>,
    gate: &G,
    workers: &mut [Worker<R>],
) -> Result<(Book, Mutex<PatternFilter>), AllocError>
    requires legal { IsLegal net.now book }
    requires askable { AllByRecursion (IsAskable net.now) tasks.items }
    requires asked { 1 ≤ length tasks.items }
    requires some { 1 ≤ length workers.old }
    ensures { IfOk result (λ r. AreAnswered net.now (questions tasks.items) book r.0) }
{
    match Board::open(alloc, net, book, tasks.len() as u64) {
        Ok((board, pass)) => {
            let many = workers.len().min(tasks.len());
            let round = Round {
                board,
                tasks,
                sieve,
            };
            settle_round(rt, alloc, net, round, gate, pass, &mut workers[..many])
        }
        Err((_book, error)) => Err(error),
    }
}

/// Lets the workers settle the tasks of a round, and closes its board.
fn settle_round<T: Threads + Wait + Sync, R: Refuter + Send, G: Watch + Sync>(
    rt: &T,
    alloc: Global,
    net: &Net,
    round: Round,
    gate: &G,
    pass: Pass,
    workers: &mut [Worker<R>],
) -> Result<(Book, Mutex<PatternFilter>), AllocError>
    requires round { IsRound net.now round.board round.tasks.items }
    requires works { Works round.board (questions round.tasks.items) pass }
    requires whole { IsWholePass pass }
    requires some { 1 ≤ length workers.old }
    ensures { IfOk result (λ r.
        AreAnswered round.board.root.net (questions round.tasks.items) round.board.root.opening r.0) }
{
    let pass = fan_out(rt, alloc, net, &round, gate, pass, workers)?;
    let Round {
        board,
        tasks: _,
        sieve,
    } = round;
    let (book, _record) = board.close(pass);
    Ok((book, sieve))
}
