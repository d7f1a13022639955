ghost use Rattle.std.specs.Prelude.{◌≡◌, ◌≤◌, length, IfOk};
ghost use Rattle.lemma_book.specs.Book.{IsLegal};
ghost use Rattle.sig_classes.specs.Leader.{IsReduced};
ghost use Rattle.sweep_workers.specs.Swept.{IsPoolFor, SettlesOutputs, Sweeps};

use crate::open_outputs::outputs_by;
use crate::rounds::{Swept, sweep_by};
use crate::watch::Unwatched;
use crate::worker::{Worker, shared_memory};
use desk_port::Gate;
use lemma_book::Book;
use netlist::Net;
use pattern_filter::PatternFilter;
use std::alloc::{AllocError, Global};
use std::sync::{Arc, Mutex, Wait};
use std::thread::Threads;
use unit_prop::Refuter;
use word_sim::Pool;

/// The seed of a sieve's patterns, where the caller has none of its own.
const SEED: u64 = 1;

/// Settles all pairs of nodes that simulation doesn't tell apart, by one worker for each solver: the caller
/// and as many threads as there are more of them.
pub fn sweep<T: Threads + Wait + Sync, R: Refuter + Send, G: Gate + Sync>(
    rt: &T,
    alloc: Global,
    net: &Net,
    book: Book,
    pool: Pool,
    refuters: Vec<R>,
    gate: &G,
) -> Result<(Book, Pool, Vec<R>), AllocError>
    requires legal { IsLegal net.now book }
    requires pool { IsPoolFor net.now pool }
    requires some { 1 ≤ length refuters.items }
    requires few { length refuters.items ≤ 64 }
    ensures sweeps { IfOk result (λ r. Sweeps net.now book r.0 pool r.1) }
    ensures reduced { IfOk result (λ r. IsReduced net.now r.0.entries r.1.patterns) }
    ensures refuters { IfOk result (λ r. length r.2.items ≡ length refuters.items) }
{
    let sieve = Mutex::new(PatternFilter::new(alloc, SEED, 0));
    let mut workers = workers_of(alloc, refuters)?;
    let swept = Swept { book, pool, sieve };
    let Swept {
        book,
        pool,
        sieve: _,
    } = sweep_by(
        rt,
        alloc,
        net,
        swept,
        &Unwatched(gate),
        workers.as_mut_slice(),
    )?;
    Ok((book, pool, refuters_of(alloc, workers)?))
}

/// Settles each output that has no entry yet, by one worker for each solver.
pub fn outputs<T: Threads + Wait + Sync, R: Refuter + Send, G: Gate + Sync>(
    rt: &T,
    alloc: Global,
    net: &Net,
    book: Book,
    refuters: Vec<R>,
    gate: &G,
) -> Result<(Book, Vec<R>), AllocError>
    requires legal { IsLegal net.now book }
    requires some { 1 ≤ length refuters.items }
    requires few { length refuters.items ≤ 64 }
    ensures settles { IfOk result (λ r. SettlesOutputs net.now book r.0) }
    ensures refuters { IfOk result (λ r. length r.1.items ≡ length refuters.items) }
{
    let sieve = Mutex::new(PatternFilter::new(alloc, SEED, 0));
    let mut workers = workers_of(alloc, refuters)?;
    let (book, _sieve) = outputs_by(
        rt,
        alloc,
        net,
        book,
        sieve,
        &Unwatched(gate),
        workers.as_mut_slice(),
    )?;
    Ok((book, refuters_of(alloc, workers)?))
}

/// A worker for each solver, numbered from 0.
fn workers_of<R: Refuter + Send>(
    alloc: Global,
    refuters: Vec<R>,
) -> Result<Vec<Worker<R>>, AllocError>
    ensures { IfOk result (λ v. length v.items ≡ length refuters.items) }
{
    let mut workers = Vec::with_capacity(alloc, refuters.len())?;
    let shared = shared_memory(alloc)?;
    let mut number = 0_u32;
    for refuter in refuters {
        let shared = Arc::try_clone(&shared)?;
        workers.push(Worker::new(alloc, number, refuter, shared))?;
        number = number.saturating_add(1);
    }
    Ok(workers)
}

/// The workers' solvers, in order.
fn refuters_of<R: Refuter + Send>(
    alloc: Global,
    workers: Vec<Worker<R>>,
) -> Result<Vec<R>, AllocError>
    ensures { IfOk result (λ v. length v.items ≡ length workers.items) }
{
    let mut refuters = Vec::with_capacity(alloc, workers.len())?;
    for worker in workers {
        refuters.push(worker.into_refuter())?;
    }
    Ok(refuters)
}
