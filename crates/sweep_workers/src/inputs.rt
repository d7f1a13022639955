ghost use Rattle.std.specs.Prelude.{◌≡◌, ◌++◌, ◌+◌, ◌≤◌, drop, length, OnOk};
ghost use Rattle.lemma_book.specs.Book.{IsLegal};
ghost use Rattle.sweep_workers.specs.Swept.{HasInputs, IsPoolFor, apart_inputs, input_of};

use lemma_book::{Book, Entry};
use netlist::Net;
use std::alloc::AllocError;
use word_sim::Pool;

/// Lets the inputs of the counterexamples that a book has from a place on join the patterns, in that order.
pub(crate) fn join_inputs(
    net: &Net,
    book: &Book,
    from: u64,
    pool: &mut Pool,
) -> Result<(), AllocError>
    requires legal { IsLegal net.now book.now }
    requires from { from ≤ length book.now.entries }
    requires pool { IsPoolFor net.now pool.old }
    ensures inputs { OnOk result (pool.new.inputs ≡ pool.old.inputs) }
    ensures patterns { OnOk result
        (pool.new.patterns ≡ pool.old.patterns ++ apart_inputs (drop from book.now.entries)) }
{
    for place in from..book.len() {
        join_input_at(net, book, place, pool)?;
    }
    Ok(())
}

/// Lets the input of the entry at a place join, if it is a counterexample.
fn join_input_at(net: &Net, book: &Book, place: u64, pool: &mut Pool) -> Result<(), AllocError>
    requires legal { IsLegal net.now book.now }
    requires inputs { pool.old.inputs ≡ length net.now.a.inputs }
    ensures inputs { OnOk result (pool.new.inputs ≡ pool.old.inputs) }
    ensures patterns { OnOk result
        (pool.new.patterns ++ apart_inputs (drop (place + 1) book.now.entries)
        ≡ pool.old.patterns ++ apart_inputs (drop place book.now.entries)) }
{
    match book.entry(place) {
        Some(entry) => join_input(entry, pool),
        None => Ok(()),
    }
}

/// Lets the input of a counterexample join the patterns.
fn join_input(entry: &Entry, pool: &mut Pool) -> Result<(), AllocError>
    requires { HasInputs pool.old.inputs entry.now }
    ensures inputs { OnOk result (pool.new.inputs ≡ pool.old.inputs) }
    ensures patterns { OnOk result (pool.new.patterns ≡ pool.old.patterns ++ input_of entry.now) }
{
    match entry {
        Entry::Apart { input, .. } => pool.add(input.as_slice()),
        _ => Ok(()),
    }
}
