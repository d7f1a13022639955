ghost use Rattle.std.specs.Prelude.{IfOk, MatchOption};
ghost use Rattle.lits.specs.declared.literal.Lit.{Lit};
ghost use Rattle.lemma_book.specs.declared.entry.Entry.{Entry};
ghost use Rattle.lemma_book.specs.Good.{Shape, NoStep};
ghost use Rattle.lemma_book.specs.Fault.{IsFreeBefore, IsFault, IsJudgement};
ghost use Rattle.lemma_book.specs.Book.{IsLegal};

use crate::apart::has_apart;
use crate::book::Book;
use crate::entry::Entry;
use crate::newness::first_stale;
use crate::presence::{has_earlier, is_there};
use crate::refused::{Fault, Judgement};
use crate::shape::{has_count, has_seen, has_shape};
use crate::sources::{ConeClauses, NodeClauses, OutClauses, positive};
use crate::steps::first_bad;
use crate::values::Values;
use lits::{Lit, Node, Step};
use netlist::Net;
use std::alloc::{AllocError, Global};
use unit_prop::StepCheck;

/// Judges entries, one after another, over books of nets.
///
/// Its tables are kept from entry to entry: one look at a mark tells whether a literal is true in a step, and
/// the values of a cone stand by position. For entries that are judged one at a time, each with memory of its
/// own, to hash literals and positions was a sixth of a check, and for hashes (SHA-2) three quarters.
pub struct Judge {
    check: StepCheck<Lit>,
    known: Values,
}

// Written out, so that a drop is one call and not one for each field at each exit of a function.
impl Drop for Judge {
    fn drop(self) {
        let Judge { check: _, known: _ } = self;
    }
}

impl Judge {
    /// A judge of many entries. Its tables grow with the nodes that it meets, up to some ten bytes for each
    /// variable of the circuits.
    pub fn new(alloc: Global) -> Judge {
        Judge {
            check: StepCheck::marked(alloc),
            known: Values::new(alloc),
        }
    }

    /// A judge of one entry, which takes the memory that its steps need.
    pub(crate) fn once(alloc: Global) -> Judge {
        Judge {
            check: StepCheck::new(alloc),
            known: Values::new(alloc),
        }
    }

    /// Judges an entry over a book: it is good, or this is the first cause against it.
    ///
    /// Each step takes the time of its hints; for a log that was spent the cone is made, and unit
    /// propagation is run over it before each of its clauses.
    pub fn judge(
        &mut self,
        alloc: Global,
        net: &Net,
        book: &Book,
        entry: &Entry,
    ) -> Result<Judgement, AllocError>
        requires legal { IsLegal net.now book.now }
        ensures { IfOk result (IsJudgement net.now book.now entry.now) }
    {
        if let Some(judgement) = cause_of_names(alloc, net, book, &mut self.known, entry)? {
            return Ok(judgement);
        }
        match cause_of_sizes(net, book, entry) {
            Some(fault) => Ok(Judgement::Bad(fault)),
            None => judge_steps(alloc, net, book, &mut self.check, entry),
        }
    }
}

/// The first cause against an entry, of those that come before its shape.
pub(crate) fn cause_of_names(
    alloc: Global,
    net: &Net,
    book: &Book,
    known: &mut Values,
    entry: &Entry,
) -> Result<Option<Judgement>, AllocError>
    ensures { IfOk result (λ o. MatchOption o
        (IsFreeBefore net.now book.now entry.now Shape)
        (IsJudgement net.now book.now entry.now)) }
{
    if !is_there(net, entry) {
        return Ok(Some(Judgement::Bad(Fault::NoNode)));
    }
    if let Some(place) = book.settled_at(entry) {
        return Ok(Some(Judgement::Settled(place)));
    }
    if !has_earlier(net, entry) {
        return Ok(Some(Judgement::Bad(Fault::NotEarlier)));
    }
    if !has_apart(alloc, net, known, entry)? {
        return Ok(Some(Judgement::NotApart));
    }
    Ok(None)
}

/// The first cause against an entry that has none before its shape, of those that come before its steps.
pub(crate) fn cause_of_sizes(net: &Net, book: &Book, entry: &Entry) -> Option<Fault>
    requires free { IsFreeBefore net.now book.now entry.now Shape }
    ensures { MatchOption result
        (IsFreeBefore net.now book.now entry.now (NoStep 0))
        (IsFault net.now book.now entry.now) }
{
    if !has_shape(entry) {
        return Some(Fault::Shape);
    }
    if !has_count(book, entry) {
        return Some(Fault::Count);
    }
    if !has_seen(book, entry) {
        return Some(Fault::Seen);
    }
    None
}

/// Judges the steps of an entry that has no cause against it before them.
pub(crate) fn judge_steps(
    alloc: Global,
    net: &Net,
    book: &Book,
    check: &mut StepCheck<Lit>,
    entry: &Entry,
) -> Result<Judgement, AllocError>
    requires legal { IsLegal net.now book.now }
    requires free { IsFreeBefore net.now book.now entry.now (NoStep 0) }
    ensures { IfOk result (IsJudgement net.now book.now entry.now) }
{
    match entry {
        Entry::Merge { steps, .. } => {
            let all = OutClauses { net, book };
            match first_bad(check, &NodeClauses { all }, steps.as_slice())? {
                Some((k, bad)) => Ok(Judgement::Bad(Fault::Step(k, bad))),
                None => Ok(Judgement::Good),
            }
        }
        Entry::Out { steps, .. } => {
            match first_bad(check, &OutClauses { net, book }, steps.as_slice())? {
                Some((k, bad)) => Ok(Judgement::Bad(Fault::Step(k, bad))),
                None => Ok(Judgement::Good),
            }
        }
        Entry::Spent {
            node,
            lit,
            seen,
            log,
        } => judge_spent(alloc, net, book, check, *node, *lit, *seen, log.as_slice()),
        Entry::OutSpent { output, seen, log } => {
            judge_out_spent(alloc, net, book, check, *output, *seen, log.as_slice())
        }
        Entry::Apart { .. } | Entry::OutApart { .. } => Ok(Judgement::Good),
    }
}

/// Judges the log of a pair, clause by clause over the cone of the two.
fn judge_spent(
    alloc: Global,
    net: &Net,
    book: &Book,
    check: &mut StepCheck<Lit>,
    node: Node,
    lit: Lit,
    seen: u64,
    log: &[Step],
) -> Result<Judgement, AllocError>
    requires legal { IsLegal net.now book.now }
    requires free { IsFreeBefore net.now book.now (Entry.Spent node lit seen log.now) (NoStep 0) }
    ensures { IfOk result (IsJudgement net.now book.now (Entry.Spent node lit seen log.now)) }
{
    let cone = book.cone(alloc, net, seen, &[positive(node), lit])?;
    let cone = cone.as_slice();
    if let Some((k, bad)) = first_bad(check, &ConeClauses { cone }, log)? {
        return Ok(Judgement::Bad(Fault::Step(k, bad)));
    }
    match first_stale(alloc, cone, None, log)? {
        Some(k) => Ok(Judgement::Bad(Fault::NotNew(k))),
        None => Ok(Judgement::Good),
    }
}

/// Judges the log of an output, clause by clause over its cone.
fn judge_out_spent(
    alloc: Global,
    net: &Net,
    book: &Book,
    check: &mut StepCheck<Lit>,
    output: u32,
    seen: u64,
    log: &[Step],
) -> Result<Judgement, AllocError>
    requires legal { IsLegal net.now book.now }
    requires free { IsFreeBefore net.now book.now (Entry.OutSpent output seen log.now) (NoStep 0) }
    ensures { IfOk result (IsJudgement net.now book.now (Entry.OutSpent output seen log.now)) }
{
    let cone = book.output_cone(alloc, net, seen, output)?;
    let cone = cone.as_slice();
    if let Some((k, bad)) = first_bad(check, &ConeClauses { cone }, log)? {
        return Ok(Judgement::Bad(Fault::Step(k, bad)));
    }
    let differs = positive(Node::Xor(output));
    match first_stale(alloc, cone, Some(differs), log)? {
        Some(k) => Ok(Judgement::Bad(Fault::NotNew(k))),
        None => Ok(Judgement::Good),
    }
}
