ghost use Rattle.std.specs.Prelude.{◌≡◌};
ghost use Rattle.std.specs.List.{list_all, list_any};
ghost use Rattle.netlist_edits.specs.Edited.{touched_by};
ghost use Rattle.keep_lemmas.specs.Kept.{is_clear, hint_stays, step_stays, entry_stays};
ghost use Rattle.keep_lemmas.specs.Keeping.{is_numbered};

use crate::touched::Touched;
use lemma_book::Entry;
use lits::{Hints, Lit, Ref, Step};
use netlist::Net;

/// Whether the entry stays: it says that values are equal, and its steps stay.
pub(crate) fn entry_stays(
    net: &Net,
    touched: &Touched,
    numbers: &[Option<u64>],
    entry: &Entry,
) -> bool
    ensures { result
        ≡ entry_stays net.now (touched_by touched.now) (is_numbered numbers.now) entry.now }
{
    match entry {
        Entry::Merge { steps, .. } | Entry::Out { steps, .. } => {
            steps_stay(net, touched, numbers, steps.as_slice())
        }
        Entry::Apart { .. }
        | Entry::Spent { .. }
        | Entry::OutApart { .. }
        | Entry::OutSpent { .. } => false,
    }
}

/// Whether the steps stay: their clauses and the axioms and constraints' units that they cite have no literal
/// of a touched node, and the entries that they cite have new numbers.
fn steps_stay(net: &Net, touched: &Touched, numbers: &[Option<u64>], steps: &[Step]) -> bool
    ensures { result
        ≡ list_all (step_stays net.now (touched_by touched.now) (is_numbered numbers.now)) steps.now }
{
    steps
        .iter()
        .all(|step| step_stays(net, touched, numbers, step))
}

fn step_stays(net: &Net, touched: &Touched, numbers: &[Option<u64>], step: &Step) -> bool
    ensures { result ≡ step_stays net.now (touched_by touched.now) (is_numbered numbers.now) step.now }
{
    is_clear(touched, step.clause.lits()) && hints_stay(net, touched, numbers, &step.hints)
}

fn hints_stay(net: &Net, touched: &Touched, numbers: &[Option<u64>], hints: &Hints) -> bool
    ensures { result
        ≡ list_all (hint_stays net.now (touched_by touched.now) (is_numbered numbers.now)) hints.now }
{
    for place in 0..hints.len() {
        if !hint_stays(net, touched, numbers, hints.at(place)) {
            return false;
        }
    }
    true
}

/// Whether what the hint names stays: an axiom or a constraint's unit as the old net has it, an entry by its
/// new number.
fn hint_stays(net: &Net, touched: &Touched, numbers: &[Option<u64>], hint: Ref) -> bool
    ensures { result ≡ hint_stays net.now (touched_by touched.now) (is_numbered numbers.now) hint }
{
    match hint {
        Ref::Axiom(node, k) => match net.axiom(node, k) {
            Some(clause) => is_clear(touched, clause.lits()),
            None => true,
        },
        Ref::Entry(place, _) => is_numbered(numbers, place),
        Ref::Own(_) => true,
        Ref::Bound(side, k) => match net.constraint(side, k) {
            Some(lit) => is_clear(touched, &[lit]),
            None => true,
        },
    }
}

/// Whether no literal is over a touched node.
fn is_clear(touched: &Touched, lits: &[Lit]) -> bool
    ensures { result ≡ is_clear (touched_by touched.now) lits.now }
{
    !is_any_touched(touched, lits)
}

fn is_any_touched(touched: &Touched, lits: &[Lit]) -> bool
    ensures { result ≡ list_any (λ l. touched_by touched.now l.node) lits.now }
{
    lits.iter().any(|lit| is_touched(touched, *lit))
}

fn is_touched(touched: &Touched, lit: Lit) -> bool
    ensures { result ≡ touched_by touched.now lit.node }
{
    touched.has(lit.node)
}

/// Whether the entry that had this place has a new number.
fn is_numbered(numbers: &[Option<u64>], place: u64) -> bool
    ensures { result ≡ is_numbered numbers.now place }
{
    match numbers.get(place as usize) {
        Some(number) => number.is_some(),
        None => false,
    }
}
