ghost use Rattle.std.specs.Prelude.{◌≡◌, ◌≤◌, [], ◌∷◌, length, take, IfOk};
ghost use Rattle.std.specs.List.{AllByRecursion};
ghost use Rattle.lemma_book.specs.Book.{IsLegal};
ghost use Rattle.sweep_workers.specs.Answered.{AreAnswered};
ghost use Rattle.sweep_workers.specs.Asked.{IsAskable, question_in, questions};

use crate::asked::{Asked, subject_in};
use crate::watch::Watch;
use crate::worker::Worker;
use lemma_book::{Book, Entry};
use netlist::Net;
use pattern_filter::PatternFilter;
use std::alloc::{AllocError, Global};
use std::sync::{Mutex, Wait};
use unit_prop::Refuter;

/// How many entries a board copies in about the time of a question, and in that of a step of an answer.
const A_QUESTION: u64 = 128;

const A_STEP: u64 = 32;

/// How much of a round one worker does alone before the others are called, in steps of its answers.
///
/// A board takes copies of the net and of the book, and the sweep of a large circuit ends in many rounds of a
/// few questions each: with a board for each of them a circuit of 400,000 gates against itself took 1.6 times
/// the processor's time. So where the questions are few beside the entries one worker begins. It goes on until it has
/// spent what a board costs, since a few questions may be hard.
pub(crate) fn effort_alone(entries: u64, tasks: usize, workers: usize) -> u64 {
    if workers < 2 || tasks < 2 {
        u64::MAX
    } else if tasks as u64 <= entries / A_QUESTION {
        entries / A_STEP
    } else {
        0
    }
}

/// Lets one worker, in the caller's thread, settle the first tasks over the book itself, until it has spent
/// that effort. Tells how many it settled.
pub(crate) fn settle_alone<T: Wait, R: Refuter + Send, G: Watch>(
    rt: &T,
    alloc: Global,
    net: &Net,
    book: Book,
    tasks: &[Asked],
    sieve: &Mutex<PatternFilter>,
    gate: &G,
    worker: &mut Worker<R>,
    effort: u64,
) -> Result<(Book, usize), AllocError>
    requires legal { IsLegal net.now book }
    requires askable { AllByRecursion (IsAskable net.now) tasks.now }
    ensures some { IfOk result (λ r. r.1 ≤ length tasks.now) }
    ensures answered { IfOk result
        (λ r. AreAnswered net.now (questions (take r.1 tasks.now)) book r.0) }
{
    let mut book = book;
    let mut spent = 0_u64;
    for (place, asked) in tasks.iter().enumerate() {
        if spent >= effort {
            return Ok((book, place));
        }
        gate.pass(worker.number(), place as u64);
        let open = worker.tally().open;
        let more = answer_in(rt, alloc, net, &mut book, sieve, worker, *asked)?;
        gate.settles(worker.tally().open > open);
        spent = spent.saturating_add(more);
    }
    Ok((book, tasks.len()))
}

/// Puts the answer to a task into the book, unless an entry that is there settles it. Tells the effort.
fn answer_in<T: Wait, R: Refuter + Send>(
    rt: &T,
    alloc: Global,
    net: &Net,
    book: &mut Book,
    sieve: &Mutex<PatternFilter>,
    worker: &mut Worker<R>,
    asked: Asked,
) -> Result<u64, AllocError>
    requires legal { IsLegal net.now book.old }
    requires askable { IsAskable net.now asked }
    ensures { IfOk result
        (λ effort. AreAnswered net.now (question_in asked ∷ []) book.old book.new) }
{
    match book.place_on(subject_in(asked)) {
        Some(_place) => Ok(1),
        None => {
            let entry = worker.answer(rt, alloc, net, sieve, book, asked)?;
            let effort = effort_of(&entry);
            let known = book.len();
            match book.append(alloc, net, known, entry) {
                Ok(_offered) => Ok(effort),
                Err((_entry, error)) => Err(error),
            }
        }
    }
}

/// About how much an entry cost whoever found it.
fn effort_of(entry: &Entry) -> u64 {
    match entry {
        Entry::Merge { steps, .. } | Entry::Out { steps, .. } => (steps.len() as u64).max(1),
        Entry::Spent { log, .. } | Entry::OutSpent { log, .. } => (log.len() as u64).max(1),
        Entry::Apart { .. } | Entry::OutApart { .. } => 1,
    }
}
