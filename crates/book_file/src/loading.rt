ghost use Rattle.std.specs.Prelude.{◌≡◌, ◌≤◌, length, map, IfOk, OnOk};
ghost use Rattle.std.specs.List.{list_all};
ghost use Rattle.lemma_book.specs.Book.{IsLegal};
ghost use Rattle.lemma_book.specs.Entry.{with_last};
ghost use Rattle.lemma_book.specs.Good.{IsGood};
ghost use Rattle.keep_lemmas.specs.Kept.{renewed_hint, renewed_step};
ghost use Rattle.book_file.specs.Loaded.{IsLoaded, cites_among, hint_among, is_taken, number_in, renumbered, steps_among};
ghost use Rattle.book_file.specs.Loading.{TakesGood, PutsOrPasses, TakesOrPasses};

use lemma_book::{Book, Entry, Judge, Judgement};
use lits::{Hints, Listed, Ref, Step};
use netlist::Net;
use std::alloc::{AllocError, Global};
use std::mem::replace;

/// The book of those of the entries that can be taken, one after the other, and how many they are. Budgets are
/// as those of a new book.
///
/// An entry cites others by their places in the list, and each that it cites has to be taken before. None is
/// taken that the book doesn't judge to be good, so it doesn't matter who wrote them.
pub fn load(
    alloc: Global,
    net: &Net,
    entries: Vec<Entry>,
    sweep_budget: u64,
    out_budget: u64,
) -> Result<(Book, u64), AllocError>
    requires sweep { (1 ≤ sweep_budget) × (sweep_budget ≤ 1000000000) }
    requires out { (1 ≤ out_budget) × (out_budget ≤ 1000000000) }
    ensures loaded { IfOk result (λ r. IsLoaded net.now sweep_budget out_budget entries.items r.0) }
    ensures count { IfOk result (λ r. r.1 ≡ length r.0.entries) }
    ensures legal { IfOk result (λ r. IsLegal net.now r.0) }
{
    let mut numbers = Vec::with_capacity(alloc, entries.len())?;
    let mut book = Book::new(alloc, sweep_budget, out_budget);
    let mut judge = Judge::new(alloc);
    for entry in entries {
        take_or_pass(alloc, net, &mut judge, &mut book, &mut numbers, entry)?;
    }
    let count = book.len();
    Ok((book, count))
}

/// Puts the entry last where it may be taken, and notes its number in the book, or that it has none.
fn take_or_pass(
    alloc: Global,
    net: &Net,
    judge: &mut Judge,
    book: &mut Book,
    numbers: &mut Vec<Option<u64>>,
    entry: Entry,
) -> Result<(), AllocError>
    requires legal { IsLegal net.now book.old }
    ensures ok { OnOk result
        (TakesOrPasses net.now book.old numbers.old.items entry book.new numbers.new.items) }
    ensures legal { IsLegal net.now book.new }
{
    let number = book.len();
    let is_taken = is_put(alloc, net, judge, book, numbers.as_slice(), entry)?;
    numbers.push(if is_taken { Some(number) } else { None })?;
    Ok(())
}

/// Whether the entry may be taken; if so, it is put last.
#[tactic(auto, using(crate::proofs::LoadLemmas::cites_passes, crate::proofs::LoadLemmas::cites_puts))]
fn is_put(
    alloc: Global,
    net: &Net,
    judge: &mut Judge,
    book: &mut Book,
    numbers: &[Option<u64>],
    entry: Entry,
) -> Result<bool, AllocError>
    requires legal { IsLegal net.now book.old }
    ensures ok { IfOk result (PutsOrPasses net.now book.old numbers.now entry book.new) }
    ensures legal { IsLegal net.now book.new }
{
    if !cites_taken(numbers, &entry) {
        return Ok(false);
    }
    let mut entry = entry;
    renumber(alloc, numbers, &mut entry)?;
    is_good_put(alloc, net, judge, book, entry)
}

/// Puts the entry last, if it is good.
#[tactic(auto, using(crate::proofs::LoadLemmas::fault_bad, crate::proofs::LoadLemmas::apart_bad, crate::proofs::LoadLemmas::settled_bad))]
fn is_good_put(
    alloc: Global,
    net: &Net,
    judge: &mut Judge,
    book: &mut Book,
    entry: Entry,
) -> Result<bool, AllocError>
    requires legal { IsLegal net.now book.old }
    ensures ok { IfOk result (TakesGood net.now book.old entry book.new) }
    ensures legal { IsLegal net.now book.new }
{
    match judge.judge(alloc, net, book, &entry)? {
        Judgement::Good => {
            put(alloc, net, book, entry)?;
            Ok(true)
        }
        Judgement::Settled(_) => Ok(false),
        Judgement::NotApart => Ok(false),
        Judgement::Bad(_) => Ok(false),
    }
}

/// Puts a good entry last.
fn put(alloc: Global, net: &Net, book: &mut Book, entry: Entry) -> Result<(), AllocError>
    requires legal { IsLegal net.now book.old }
    requires good { IsGood net.now book.old entry }
    ensures ok { OnOk result (book.new ≡ with_last book.old entry) }
    ensures legal { IsLegal net.now book.new }
{
    let known = book.len();
    match book.append(alloc, net, known, entry) {
        Ok(_) => Ok(()),
        Err((_entry, error)) => Err(error),
    }
}

/// Whether each entry that the entry cites was taken.
fn cites_taken(numbers: &[Option<u64>], entry: &Entry) -> bool
    ensures { result ≡ cites_among (is_taken numbers.now) entry.now }
{
    match entry {
        Entry::Merge { steps, .. } | Entry::Out { steps, .. } => {
            steps_cite_taken(numbers, steps.as_slice())
        }
        Entry::Spent { log, .. } | Entry::OutSpent { log, .. } => {
            steps_cite_taken(numbers, log.as_slice())
        }
        Entry::Apart { .. } | Entry::OutApart { .. } => true,
    }
}

fn steps_cite_taken(numbers: &[Option<u64>], steps: &[Step]) -> bool
    ensures { result ≡ steps_among (is_taken numbers.now) steps.now }
{
    steps.iter().all(|step| step_cites_taken(numbers, step))
}

fn step_cites_taken(numbers: &[Option<u64>], step: &Step) -> bool
    ensures { result ≡ list_all (hint_among (is_taken numbers.now)) step.now.hints }
{
    for place in 0..step.hints.len() {
        if !hint_is_taken(numbers, step.hints.at(place)) {
            return false;
        }
    }
    true
}

fn hint_is_taken(numbers: &[Option<u64>], hint: Ref) -> bool
    ensures { result ≡ hint_among (is_taken numbers.now) hint }
{
    match hint {
        Ref::Entry(place, _) => is_taken(numbers, place),
        Ref::Axiom(..) | Ref::Own(_) | Ref::Bound(..) => true,
    }
}

fn is_taken(numbers: &[Option<u64>], place: u64) -> bool
    ensures { result ≡ is_taken numbers.now place }
{
    match numbers.get(place as usize) {
        Some(number) => number.is_some(),
        None => false,
    }
}

/// Puts the numbers in the book of those that the entry cites into the entry.
fn renumber(alloc: Global, numbers: &[Option<u64>], entry: &mut Entry) -> Result<(), AllocError>
    ensures { OnOk result (entry.new ≡ renumbered (number_in numbers.now) entry.old) }
{
    match entry {
        Entry::Merge { steps, .. } => renumber_steps(alloc, numbers, steps),
        Entry::Out { steps, .. } => renumber_steps(alloc, numbers, steps),
        Entry::Spent { log, .. } => renumber_steps(alloc, numbers, log),
        Entry::OutSpent { log, .. } => renumber_steps(alloc, numbers, log),
        Entry::Apart { .. } => Ok(()),
        Entry::OutApart { .. } => Ok(()),
    }
}

fn renumber_steps(
    alloc: Global,
    numbers: &[Option<u64>],
    steps: &mut Listed<Step>,
) -> Result<(), AllocError>
    ensures { OnOk result (steps.new ≡ map (renewed_step (number_in numbers.now)) steps.old) }
{
    let mut list = replace(steps, Listed::of(Vec::new(alloc))).into_vec();
    for step in list.iter_mut() {
        step.hints = renumbered_hints(alloc, numbers, &step.hints)?;
    }
    *steps = Listed::of(list);
    Ok(())
}

fn renumbered_hints(
    alloc: Global,
    numbers: &[Option<u64>],
    hints: &Hints,
) -> Result<Hints, AllocError>
    ensures { IfOk result (λ h. h ≡ map (renewed_hint (number_in numbers.now)) hints.now) }
{
    let mut renumbered = Vec::with_capacity(alloc, hints.len())?;
    for place in 0..hints.len() {
        renumbered.push(renumbered_hint(numbers, hints.at(place)))?;
    }
    Ok(Hints::of(renumbered))
}

fn renumbered_hint(numbers: &[Option<u64>], hint: Ref) -> Ref
    ensures { result ≡ renewed_hint (number_in numbers.now) hint }
{
    match hint {
        Ref::Entry(place, k) => Ref::Entry(number_in(numbers, place), k),
        Ref::Axiom(node, k) => Ref::Axiom(node, k),
        Ref::Own(step) => Ref::Own(step),
        Ref::Bound(side, k) => Ref::Bound(side, k),
    }
}

/// The number in the book of the entry at the place; 0 where it has none, which is asked of no entry that may
/// be taken.
pub(crate) fn number_in(numbers: &[Option<u64>], place: u64) -> u64
    ensures { result ≡ number_in numbers.now place }
{
    match numbers.get(place as usize) {
        Some(Some(number)) => *number,
        _ => 0,
    }
}
