ghost use Rattle.check_session.specs.Counts.{AreCountsUpTo, CountsEntry};

use lemma_book::{Book, Entry};
use sweep_workers::Worker;
use unit_prop::Refuter;

/// What the last check of a session did, in numbers, for whoever wants to know where its time went. The patterns,
/// the pairs and outputs that were told apart or left open and the steps are those of the session; of the others
/// nothing is claimed.
#[derive(Clone, Copy)]
pub struct Counts {
    /// The patterns that it leaves.
    pub patterns: u64,
    /// How many times candidates were taken from simulation.
    pub rounds: u64,
    /// The entries of the book that it began with.
    pub kept: u64,
    /// The merges that the structure alone showed.
    pub by_structure: u64,
    /// The merges that the search found, and those that a query of the whole cone did: a merge that was found by
    /// two workers at once is counted twice.
    pub by_search: u64,
    pub by_cone: u64,
    /// The pairs that were told apart, and those whose budget was spent.
    pub apart: u64,
    pub open_pairs: u64,
    /// The outputs whose budget was spent.
    pub open_outputs: u64,
    /// The conflicts from which searches and queries learned a clause, whatever came of them.
    pub conflicts: u64,
    /// The steps of all entries.
    pub steps: u64,
}

/// What a check counted while it went on.
#[derive(Clone, Copy)]
pub(crate) struct Work {
    /// The entries of the book that it began with.
    pub(crate) kept: u64,
    /// The entries behind the structural pass.
    pub(crate) behind_structure: u64,
    pub(crate) rounds: u64,
    pub(crate) by_search: u64,
    pub(crate) by_cone: u64,
    pub(crate) conflicts: u64,
}

impl Work {
    /// The work of a check that was told at once, over a book of so many entries.
    pub(crate) fn none(kept: u64) -> Work {
        Work {
            kept,
            behind_structure: kept,
            rounds: 0,
            by_search: 0,
            by_cone: 0,
            conflicts: 0,
        }
    }

    /// The work that the workers did behind the structural pass, which left so many entries.
    pub(crate) fn of<R: Refuter + Send>(behind_structure: u64, workers: &[Worker<R>]) -> Work {
        let mut work = Work::none(behind_structure);
        for worker in workers {
            let tally = worker.tally();
            work.rounds = work.rounds.saturating_add(tally.rounds);
            work.by_search = work.by_search.saturating_add(tally.by_search);
            work.by_cone = work.by_cone.saturating_add(tally.by_cone);
            work.conflicts = work.conflicts.saturating_add(tally.conflicts);
        }
        work
    }

    /// The same of a check that began with so many entries.
    pub(crate) fn behind(self, kept: u64) -> Work {
        Work { kept, ..self }
    }
}

/// The numbers of a check that did this work and left so many patterns and this book.
pub(crate) fn counts_of(work: Work, patterns: u64, book: &Book) -> Counts
    ensures { AreCountsUpTo patterns book.now.entries result }
{
    let mut counts = Counts {
        patterns,
        rounds: work.rounds,
        kept: work.kept,
        by_structure: work.behind_structure.saturating_sub(work.kept),
        by_search: work.by_search,
        by_cone: work.by_cone,
        apart: 0,
        open_pairs: 0,
        open_outputs: 0,
        conflicts: work.conflicts,
        steps: 0,
    };
    for place in 0..book.len() {
        let entry = book.entry(place).unwrap();
        counts = with_entry(counts, entry);
    }
    counts
}

/// The numbers with one more entry.
fn with_entry(counts: Counts, entry: &Entry) -> Counts
    ensures { CountsEntry entry.now counts result }
{
    let mut counts = counts;
    match entry {
        Entry::Merge { steps, .. } | Entry::Out { steps, .. } => {
            counts.steps = counts.steps.saturating_add(steps.as_slice().len() as u64);
        }
        Entry::Apart { .. } => counts.apart = counts.apart.saturating_add(1),
        Entry::OutApart { .. } => {}
        Entry::Spent { log, .. } => {
            counts.open_pairs = counts.open_pairs.saturating_add(1);
            counts.steps = counts.steps.saturating_add(log.as_slice().len() as u64);
        }
        Entry::OutSpent { log, .. } => {
            counts.open_outputs = counts.open_outputs.saturating_add(1);
            counts.steps = counts.steps.saturating_add(log.as_slice().len() as u64);
        }
    }
    counts
}
