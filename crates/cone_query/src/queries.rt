ghost use Rattle.std.specs.Prelude.{◌≡◌, ◌<◌, None, Some, length, IfOk, OnOk};
ghost use Rattle.lemma_book.specs.Book.{IsLegal};
ghost use Rattle.lemma_book.specs.Entry.{about, subject_of};
ghost use Rattle.lemma_book.specs.Good.{IsGood, IsEarlier};
ghost use Rattle.lemma_book.specs.Root.{IsRoot};
ghost use Rattle.lemma_book.specs.declared.entry.Subject.TheVariants.{Output};
ghost use Rattle.cone_query.specs.Query.{task_of, SeesAll, IsFalseOutside, IsWithin, IsBuilt, IsUnnamed, IsSetAlone, IsGate};

use crate::output_query::query;
use crate::pair_query::settle;
use flat_cones::Cones;
use lemma_book::laws::entries_are_true;
use lemma_book::{Book, Entry, Task};
use netlist::{Net, laws};
use std::alloc::{AllocError, Global};
use unit_prop::Refuter;

/// Asks one query after another, over cones that are made in the same memory.
#[derive(Drop)]
pub struct Queries {
    cones: Cones,
}

impl Queries {
    /// No query yet.
    pub fn new(alloc: Global) -> Queries {
        Queries {
            cones: Cones::new(alloc),
        }
    }

    /// Asks whether a gate, which isn't merged yet, has the value of a literal of an earlier node, for at
    /// most the book's budget of learned clauses.
    ///
    /// Each of the two implications is a query over the cone of both nodes, and one budget pays for both. A
    /// literal of an input that no clause of the gate's cone names needs no query: the input is set so that
    /// they differ.
    ///
    /// The entry is built of what the query leaves: a `Merge` of the log and then the step of each implication,
    /// a `Spent` of the log.
    pub fn pair<R: Refuter + Send>(
        &mut self,
        alloc: Global,
        net: &Net,
        seen: &Book,
        task: &Task,
        refuter: &mut R,
    ) -> Result<Entry, AllocError>
        requires legal { IsLegal net.now seen.now }
        requires gate { IsGate task.now.node }
        requires root { IsRoot seen.now.entries task.now.node }
        requires earlier { IsEarlier net.now task.now.node task.now.lit }
        ensures about { IfOk result (λ e. task_of e ≡ Some task.now) }
        ensures good { IfOk result (λ e. IsGood net.now seen.now e) }
        ensures seen { IfOk result (SeesAll seen.now) }
        ensures outside { IfOk result (IsFalseOutside net.now seen.now.entries) }
        ensures within { IfOk result (IsWithin net.now seen.now) }
        ensures built { IfOk result (IsBuilt (R.Refuter.log_of refuter.new)) }
        ensures alone { IfOk result (λ e. IsUnnamed net.now seen.now.entries task.now → IsSetAlone e) }
        ensures unasked { OnOk result (IsUnnamed net.now seen.now.entries task.now → refuter.new ≡ refuter.old) }
    {
        laws::is_net(net);
        entries_are_true(net, seen);
        settle(alloc, net, seen, task, &mut self.cones, refuter)
    }

    /// Asks whether both circuits give output j, which has no entry yet, one value on each admitted input: whether
    /// the cone of its XOR and of the constraints, with the constraints' units, implies that the XOR is false, for
    /// at most the book's budget of learned clauses. A counterexample is admitted.
    ///
    /// The entry is built of what the query leaves: an `Out` of the log and then the unit, an `OutSpent` of the
    /// log.
    pub fn output<R: Refuter + Send>(
        &mut self,
        alloc: Global,
        net: &Net,
        seen: &Book,
        j: u32,
        refuter: &mut R,
    ) -> Result<Entry, AllocError>
        requires legal { IsLegal net.now seen.now }
        requires output { j < length net.now.a.outputs }
        requires unsettled { about seen.now.entries j ≡ None }
        ensures about { IfOk result (λ e. subject_of e ≡ Some (Output j)) }
        ensures good { IfOk result (λ e. IsGood net.now seen.now e) }
        ensures seen { IfOk result (SeesAll seen.now) }
        ensures outside { IfOk result (IsFalseOutside net.now seen.now.entries) }
        ensures within { IfOk result (IsWithin net.now seen.now) }
        ensures built { IfOk result (IsBuilt (R.Refuter.log_of refuter.new)) }
    {
        laws::is_net(net);
        entries_are_true(net, seen);
        query(alloc, net, seen, j, &mut self.cones, refuter)
    }
}
