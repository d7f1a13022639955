ghost use Rattle.std.specs.Prelude.{◌≡◌, ◌≤◌, Some, true, length, IfOk, OnOk};
ghost use Rattle.std.specs.List.{list_all};
ghost use Rattle.word_sim.specs.Patterns.{Patterns};
ghost use Rattle.lemma_book.specs.Book.{IsLegal};
ghost use Rattle.lemma_book.specs.Entry.{Entries, with_last};
ghost use Rattle.lemma_book.specs.Good.{IsGood};
ghost use Rattle.strash_pass.specs.Strash.{ArePlain};
ghost use Rattle.sweep_workers.specs.Swept.{IsPoolFor};
ghost use Rattle.check_session.specs.Begun.{GoesOn, MayBegin};
ghost use Rattle.check_session.specs.Check.{AreInRange, IsFound};
ghost use Rattle.check_session.specs.Outputs.{is_pair_or_out};
ghost use Rattle.check_session.specs.Pool.{IsAmongOrJoins, IsFirstApart, IsPoolOf, NoneApart};
ghost use Rattle.check_session.specs.Sweep.{AddsStructure};
ghost use Rattle.check_session.specs.Telling.{AsksOutputs, TellsDifference};

use crate::counts::Work;
use crate::laws::{is_swept, is_within, means};
use crate::options::Options;
use crate::patterns::{Difference, difference_behind, difference_in, own_difference};
use crate::verdict::Verdict;
use lemma_book::laws::entries_are_true;
use lemma_book::{Book, Entry};
use lits::Listed;
use netlist::Net;
use pattern_filter::PatternFilter;
use solver_watch::WatchSolver;
use std::alloc::{AllocError, Global};
use std::sync::{Arc, Mutex, Wait};
use std::thread::Threads;
use sweep_workers::{Part, Swept, Watch, Worker, outputs_by, shared_memory, sweep_by};
use word_sim::Pool;

/// What a check found, the book that shows it, and the patterns that it leaves.
#[derive(Drop)]
pub(crate) struct Checked {
    pub(crate) pool: Pool,
    pub(crate) book: Book,
    pub(crate) verdict: Verdict,
    pub(crate) work: Work,
}

/// Checks a pair, beginning with this book and these patterns: what a pattern shows at once, or else what is
/// found behind the structure.
pub(crate) fn run<T: Threads + Wait + Sync, G: Watch + Sync>(
    rt: &T,
    alloc: Global,
    net: &Net,
    options: Options,
    gate: &G,
    book: Book,
    pool: Pool,
) -> Result<Checked, AllocError>
    requires range { AreInRange options }
    requires begun { MayBegin net.now options (record { book = book; pool = pool }) }
    ensures goes_on { IfOk result (λ c. GoesOn (record { book = book; pool = pool }) c.book c.pool) }
    ensures found { IfOk result (λ c.
        IsFound net.now options (record { book = book; pool = pool }) (Some c.pool) c.book c.verdict) }
{
    match difference_in(alloc, net, &pool)? {
        Some(difference) => verdict_at_once(alloc, net, options, book, pool, difference),
        None => verdict_by_structure(rt, alloc, net, options, gate, book, pool),
    }
}

/// Merges the nodes that the structure alone shows to be equal, and goes on from there, where no pattern
/// tells an output apart.
///
/// The book as it was stays at hand, since a pattern that shows a difference later is told behind that: it
/// shares its entries, and at the first check of a pair has none.
fn verdict_by_structure<T: Threads + Wait + Sync, G: Watch + Sync>(
    rt: &T,
    alloc: Global,
    net: &Net,
    options: Options,
    gate: &G,
    book: Book,
    pool: Pool,
) -> Result<Checked, AllocError>
    requires range { AreInRange options }
    requires begun { MayBegin net.now options (record { book = book; pool = pool }) }
    requires none { NoneApart net.now pool.patterns }
    ensures goes_on { IfOk result (λ c. GoesOn (record { book = book; pool = pool }) c.book c.pool) }
    ensures found { IfOk result (λ c.
        IsFound net.now options (record { book = book; pool = pool }) (Some c.pool) c.book c.verdict) }
{
    gate.begins(Part::Structure, 0, 0);
    let mut merged = book.copy(alloc)?;
    strash_pass::run(alloc, net, &mut merged)?;
    verdict_of_own(rt, alloc, net, options, gate, book, merged, pool)
}

/// What a pattern shows that isn't in the pool, and then joins it, or else what the sweep finds, behind the
/// merges that the structure shows.
fn verdict_of_own<T: Threads + Wait + Sync, G: Watch + Sync>(
    rt: &T,
    alloc: Global,
    net: &Net,
    options: Options,
    gate: &G,
    begun: Book,
    merged: Book,
    pool: Pool,
) -> Result<Checked, AllocError>
    requires range { AreInRange options }
    requires begun { MayBegin net.now options (record { book = begun; pool = pool }) }
    requires structure { AddsStructure net.now begun merged }
    requires legal { IsLegal net.now merged }
    requires none { NoneApart net.now pool.patterns }
    ensures goes_on { IfOk result (λ c. GoesOn (record { book = begun; pool = pool }) c.book c.pool) }
    ensures found { IfOk result (λ c.
        IsFound net.now options (record { book = begun; pool = pool }) (Some c.pool) c.book c.verdict) }
{
    let mut pool = pool;
    let mut sieve = PatternFilter::new(alloc, options.seed, options.words);
    match own_difference(alloc, net, &merged, &mut sieve, &mut pool)? {
        Some(difference) => verdict_at_once(alloc, net, options, begun, pool, difference),
        None => {
            drop(begun);
            let sieve = Mutex::new(sieve);
            let swept = Swept {
                book: merged,
                pool,
                sieve,
            };
            verdict_of_sweep(rt, alloc, net, options, gate, swept)
        }
    }
}

/// The verdict that a pattern shows, which the check began with or which joined before anything was found.
fn verdict_at_once(
    alloc: Global,
    net: &Net,
    options: Options,
    book: Book,
    pool: Pool,
    difference: Difference,
) -> Result<Checked, AllocError>
    requires begun { MayBegin net.now options (record { book = book; pool = pool }) }
    requires first { IsFirstApart net.now pool.patterns difference.output difference.input }
    ensures goes_on { IfOk result (λ c. GoesOn (record { book = book; pool = pool }) c.book c.pool) }
    ensures found { IfOk result (λ c. (begun : Patterns) → IsPoolOf net.now options begun
        → IsAmongOrJoins net.now begun.patterns pool.patterns difference.input
        → IsFound net.now options (record { book = book; pool = begun }) (Some c.pool) c.book c.verdict) }
{
    let work = Work::none(book.len());
    verdict_told(alloc, net, book, pool, difference, work)
}

/// Tells a difference that a pattern shows behind entries that tell none, and leave no output open.
fn verdict_told(
    alloc: Global,
    net: &Net,
    book: Book,
    pool: Pool,
    difference: Difference,
    work: Work,
) -> Result<Checked, AllocError>
    requires legal { IsLegal net.now book }
    requires entries { list_all is_pair_or_out book.entries ≡ true }
    requires fits { IsPoolFor net.now pool }
    requires first { IsFirstApart net.now pool.patterns difference.output difference.input }
    ensures { IfOk result (TellsDifference net.now book pool difference) }
{
    // So the book has no entry of an output that differs.
    entries_are_true(net, &book);
    let mut book = book;
    let Difference { output, input } = difference;
    let told = Listed::of(Vec::from_slice(alloc, input.as_slice())?);
    put(alloc, net, &mut book, Entry::OutApart { output, input })?;
    means(net, &book);
    let verdict = Verdict::Different {
        output,
        input: told,
    };
    Ok(Checked {
        pool,
        book,
        verdict,
        work,
    })
}

/// The verdict of the sweep, behind merges that the structure shows: what a pattern shows that joined in the
/// sweep, or else what is found of the outputs.
///
/// The inputs on which pairs of nodes differ were looked at for these pairs alone. One that tells an output apart
/// spares the queries about the outputs, which may spend their budgets: so no verdict leaves an output open that
/// a known pattern tells apart.
fn verdict_of_sweep<T: Threads + Wait + Sync, G: Watch + Sync>(
    rt: &T,
    alloc: Global,
    net: &Net,
    options: Options,
    gate: &G,
    begun: Swept,
) -> Result<Checked, AllocError>
    requires range { AreInRange options }
    requires begun { MayBegin net.now options (record { book = begun.book; pool = begun.pool }) }
    requires plain { ArePlain net.now begun.book.entries }
    requires none { NoneApart net.now begun.pool.patterns }
    ensures goes_on { IfOk result
        (λ c. GoesOn (record { book = begun.book; pool = begun.pool }) c.book c.pool) }
    ensures found { IfOk result (λ c. (old : Entries) → AddsStructure net.now old begun.book
        → MayBegin net.now options (record { book = old; pool = begun.pool })
        → IsFound net.now options (record { book = old; pool = begun.pool }) (Some c.pool) c.book c.verdict) }
{
    is_swept(net);
    let behind_structure = begun.book.len();
    let known = begun.pool.patterns();
    let mut workers = workers(alloc, options.workers)?;
    let swept = sweep_by(rt, alloc, net, begun, gate, workers.as_mut_slice())?;
    match difference_behind(alloc, net, &swept.pool, known)? {
        Some(difference) => {
            let work = Work::of(behind_structure, workers.as_slice());
            let Swept { book, pool, .. } = swept;
            verdict_told(alloc, net, book, pool, difference, work)
        }
        None => {
            let workers = workers.as_mut_slice();
            verdict_of_outputs(rt, alloc, net, gate, swept, workers, behind_structure)
        }
    }
}

/// What is found of the outputs, behind what a sweep settled of pairs, where no pattern tells one apart.
fn verdict_of_outputs<T: Threads + Wait + Sync, G: Watch + Sync>(
    rt: &T,
    alloc: Global,
    net: &Net,
    gate: &G,
    swept: Swept,
    workers: &mut [Worker<WatchSolver>],
    behind_structure: u64,
) -> Result<Checked, AllocError>
    requires legal { IsLegal net.now swept.book }
    requires entries { list_all is_pair_or_out swept.book.entries ≡ true }
    requires none { NoneApart net.now swept.pool.patterns }
    requires some { 1 ≤ length workers.old }
    ensures { IfOk result (AsksOutputs net.now swept.book swept.pool) }
{
    let Swept { book, pool, sieve } = swept;
    let (book, _sieve) = outputs_by(rt, alloc, net, book, sieve, gate, workers)?;
    let verdict = Verdict::of(alloc, net, &book)?;
    means(net, &book);
    is_within(net, &book);
    let work = Work::of(behind_structure, workers);
    Ok(Checked {
        pool,
        book,
        verdict,
        work,
    })
}

/// So many workers, numbered from 0, each with a solver of its own.
pub(crate) fn workers(alloc: Global, many: u32) -> Result<Vec<Worker<WatchSolver>>, AllocError>
    ensures { IfOk result (λ v. length v.items ≡ many) }
{
    let mut workers = Vec::new(alloc);
    let shared = shared_memory(alloc)?;
    for number in 0..many {
        let shared = Arc::try_clone(&shared)?;
        workers.push(Worker::new(alloc, number, WatchSolver::new(alloc)?, shared))?;
    }
    Ok(workers)
}

/// Puts a good entry last.
fn put(alloc: Global, net: &Net, book: &mut Book, entry: Entry) -> Result<(), AllocError>
    requires legal { IsLegal net.now book.old }
    requires good { IsGood net.now book.old entry }
    ensures ok { OnOk result (book.new ≡ with_last book.old entry) }
    ensures legal { OnOk result (IsLegal net.now book.new) }
{
    let known = book.len();
    match book.append(alloc, net, known, entry) {
        Ok(_) => Ok(()),
        Err((_entry, error)) => Err(error),
    }
}
