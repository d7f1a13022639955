ghost use Rattle.std.specs.Prelude.{◌≡◌, is_some};
ghost use Rattle.std.specs.List.{list_all};
ghost use Rattle.netlist.specs.Miter.{variable_of};
ghost use Rattle.lemma_book.specs.Good.{IsThere, ArePlaced, IsEarlier, HasEarlier};
ghost use Rattle.lemma_book.specs.Judging.{Tells};

use crate::entry::Entry;
use lits::{Lit, Node, Step};
use netlist::Net;

/// Whether the entry speaks of nodes, outputs and literals that the net has.
pub(crate) fn is_there(net: &Net, entry: &Entry) -> bool
    ensures { Tells (IsThere net.now entry.now) result }
{
    match entry {
        Entry::Merge { node, lit, steps } => {
            are_placed(net, *node, *lit) && are_over(net, steps.as_slice())
        }
        Entry::Apart { node, lit, .. } => are_placed(net, *node, *lit),
        Entry::Spent { node, lit, log, .. } => {
            are_placed(net, *node, *lit) && are_over(net, log.as_slice())
        }
        Entry::Out { output, steps } => {
            *output < net.outputs() && are_over(net, steps.as_slice())
        }
        Entry::OutApart { output, .. } => *output < net.outputs(),
        Entry::OutSpent { output, log, .. } => {
            *output < net.outputs() && are_over(net, log.as_slice())
        }
    }
}

/// Whether node and literal have positions.
fn are_placed(net: &Net, node: Node, lit: Lit) -> bool
    ensures { Tells (ArePlaced net.now node lit) result }
{
    net.position(node).is_some() && net.position(lit.node).is_some()
}

/// Whether each literal of the steps' clauses has a CNF variable.
fn are_over(net: &Net, steps: &[Step]) -> bool
    ensures { result
        ≡ list_all (λ s. list_all (λ l. is_some (variable_of net.now l.node)) s.clause) steps.now }
{
    steps
        .iter()
        .all(|step| are_numbered(net, step.clause.lits()))
}

fn are_numbered(net: &Net, lits: &[Lit]) -> bool
    ensures { result ≡ list_all (λ l. is_some (variable_of net.now l.node)) lits.now }
{
    lits.iter().all(|lit| is_numbered(net, *lit))
}

/// Whether the miter has the literal's node: a step may speak of no other, since a proof could not write it.
fn is_numbered(net: &Net, lit: Lit) -> bool
    ensures { result ≡ is_some (variable_of net.now lit.node) }
{
    net.cnf_number(lit).is_some()
}

/// Whether a merge's target, or that of a pair that isn't merged, is earlier than its node.
pub(crate) fn has_earlier(net: &Net, entry: &Entry) -> bool
    ensures { Tells (HasEarlier net.now entry.now) result }
{
    match entry {
        Entry::Merge { node, lit, .. }
        | Entry::Apart { node, lit, .. }
        | Entry::Spent { node, lit, .. } => is_earlier(net, *node, *lit),
        Entry::Out { .. } | Entry::OutApart { .. } | Entry::OutSpent { .. } => true,
    }
}

/// Whether the literal's node is earlier in position.
fn is_earlier(net: &Net, node: Node, lit: Lit) -> bool
    ensures { Tells (IsEarlier net.now node lit) result }
{
    match (net.position(lit.node), net.position(node)) {
        (Some(first), Some(second)) => first < second,
        _ => false,
    }
}
