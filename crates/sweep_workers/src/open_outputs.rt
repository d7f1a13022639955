ghost use Rattle.std.specs.Prelude.{◌≡◌, ◌≤◌, ◌++◌, length, IfOk, OnOk};
ghost use Rattle.lemma_book.specs.Book.{IsLegal};
ghost use Rattle.lemma_book.specs.Entry.{about};
ghost use Rattle.sweep_workers.specs.Asked.{open_tasks, task_about};
ghost use Rattle.sweep_workers.specs.Swept.{SettlesOutputs};

use crate::asked::Asked;
use crate::round::round;
use crate::watch::{Part, Watch};
use crate::worker::Worker;
use lemma_book::Book;
use netlist::Net;
use pattern_filter::PatternFilter;
use std::alloc::{AllocError, Global};
use std::sync::{Mutex, Wait};
use std::thread::Threads;
use unit_prop::Refuter;

/// Settles each output that has no entry yet: each is a task, which the workers draw.
pub fn outputs_by<T: Threads + Wait + Sync, R: Refuter + Send, G: Watch + Sync>(
    rt: &T,
    alloc: Global,
    net: &Net,
    book: Book,
    sieve: Mutex<PatternFilter>,
    gate: &G,
    workers: &mut [Worker<R>],
) -> Result<(Book, Mutex<PatternFilter>), AllocError>
    requires legal { IsLegal net.now book }
    requires some { 1 ≤ length workers.old }
    ensures { IfOk result (λ r. SettlesOutputs net.now book r.0) }
{
    let tasks = open_outputs(alloc, net, &book)?;
    gate.begins(Part::Outputs, 0, tasks.len() as u64);
    round(rt, alloc, net, book, tasks, sieve, gate, workers)
}

/// The tasks that ask about the outputs without an entry, in order.
fn open_outputs(alloc: Global, net: &Net, book: &Book) -> Result<Vec<Asked>, AllocError>
    ensures { IfOk result (λ v. v.items ≡ open_tasks book.now.entries (length net.now.a.outputs)) }
{
    let mut tasks = Vec::new(alloc);
    for output in 0..net.outputs() {
        push_open(book, output, &mut tasks)?;
    }
    Ok(tasks)
}

/// Puts the task last that asks about an output, if that has no entry.
fn push_open(book: &Book, output: u32, tasks: &mut Vec<Asked>) -> Result<(), AllocError>
    ensures { OnOk result
        (tasks.new.items ≡ tasks.old.items ++ task_about (about book.now.entries output) output) }
{
    if book.about(output).is_none() {
        tasks.push(Asked::Output(output))?;
    }
    Ok(())
}
