ghost use Rattle.std.specs.Prelude.{◌≡◌, None, IfOk};
ghost use Rattle.netlist.specs.Unlike.{unlike_of};
ghost use Rattle.fraig_write.specs.Reduced.{HasValuesOf, IsReducedCircuit};
ghost use Rattle.fraig_write.specs.Mirror.{IsMirror};
ghost use Rattle.check_session.specs.Check.{AreInRange, IsSettled};
ghost use Rattle.check_session.specs.Finding.{Equivalent};
ghost use Rattle.check_session.specs.Reduction.{IsReduction, IsSweptBook, swept_pair, without_gates};

use crate::begin::pool_or_first;
use crate::laws::{is_swept, means};
use crate::options::Options;
use crate::session::Session;
use crate::sweep::workers;
use desk_port::Gate;
use fraig_write::mirror;
use lemma_book::Book;
use netlist::{Circuit, Net};
use pattern_filter::PatternFilter;
use std::alloc::{AllocError, Global};
use std::sync::{Mutex, Wait};
use std::thread::Threads;
use sweep_workers::{Swept, Unwatched, sweep_by};
use symbol_names::Names;

/// Reduces a circuit: sweeps it by itself, makes the reduced circuit of the sweep's book, and shows the two
/// equal. Gives the reduced circuit, the sweep's book, and a session of the circuit and the reduced one,
/// matched by position whatever the options say, which counts as checked: both agree on every admitted input.
///
/// No output is asked for. The session's book is the sweep's with a merge for each gate of the reduced
/// circuit, so the proof stands on what the sweep found, and no query is made twice.
pub fn reduce<T: Threads + Wait + Sync, G: Gate + Sync>(
    rt: &T,
    alloc: Global,
    a: Circuit,
    options: Options,
    gate: &G,
) -> Result<(Circuit, Book, Session), AllocError>
    requires { AreInRange options }
    ensures { IfOk result (λ r. IsReduction a options r.0 r.1 r.2) }
{
    let alone = alone(alloc, &a)?;
    let book = swept_book(rt, alloc, &alone, options, gate)?;
    let circuit = fraig_write::reduce(alloc, &alone, &book)?;
    fraig_write::laws::reduced_has_values(&alone, &book, &circuit);
    fraig_write::laws::reduced_is_in_sequence(&alone, &book, &circuit);
    let net = beside(alloc, a, &circuit)?;
    let mirrored = mirrored(alloc, &net, &book, options)?;
    let session = Session::of_equal(alloc, net, options, mirrored);
    Ok((circuit, book, session))
}

/// The pair in which a circuit is swept by itself.
fn alone(alloc: Global, a: &Circuit) -> Result<Net, AllocError>
    ensures { IfOk result (λ n. n ≡ swept_pair a.now) }
{
    let b = without_gates(alloc, a)?;
    net_of(alloc, a.copy(alloc)?, b)
}

/// The circuit without gates, whose outputs are all false.
fn without_gates(alloc: Global, a: &Circuit) -> Result<Circuit, AllocError>
    ensures { IfOk result (λ c. c ≡ without_gates a.now) }
{
    let inputs = Vec::from_slice(alloc, a.inputs())?;
    let outputs = vec![in alloc; 0; a.outputs().len()]?;
    let names = Names::none(alloc, inputs.len() as u32, outputs.len() as u32);
    Circuit::of(
        alloc,
        inputs,
        Vec::new(alloc),
        outputs,
        Vec::new(alloc),
        names,
    )
}

/// The circuit beside its reduced one.
fn beside(alloc: Global, a: Circuit, circuit: &Circuit) -> Result<Net, AllocError>
    requires { HasValuesOf a circuit.now }
    ensures { IfOk result (λ n. n ≡ record { a = a; b = circuit.now }) }
{
    net_of(alloc, a, circuit.copy(alloc)?)
}

/// The net of two circuits with equal numbers of inputs and of outputs.
fn net_of(alloc: Global, a: Circuit, b: Circuit) -> Result<Net, AllocError>
    requires { unlike_of a b ≡ None }
    ensures { IfOk result (λ n. n ≡ record { a = a; b = b }) }
{
    match Net::of(alloc, a, b) {
        Ok(net) => Ok(net),
        Err(_) => Err(AllocError),
    }
}

/// Sweeps the pair from an empty book: what the structure shows is merged, and then what simulation leaves is
/// asked for.
fn swept_book<T: Threads + Wait + Sync, G: Gate + Sync>(
    rt: &T,
    alloc: Global,
    net: &Net,
    options: Options,
    gate: &G,
) -> Result<Book, AllocError>
    requires range { AreInRange options }
    requires alone { net.now ≡ swept_pair net.now.a }
    ensures { IfOk result (IsSweptBook net.now.a options) }
{
    let pool = pool_or_first(alloc, net, options, None)?;
    let mut book = Book::new(alloc, options.sweep_budget, options.out_budget);
    strash_pass::run(alloc, net, &mut book)?;
    let sieve = Mutex::new(PatternFilter::new(alloc, options.seed, options.words));
    let mut workers = workers(alloc, options.workers)?;
    let begun = Swept { book, pool, sieve };
    let swept = sweep_by(
        rt,
        alloc,
        net,
        begun,
        &Unwatched(gate),
        workers.as_mut_slice(),
    )?;
    is_swept(net);
    Ok(swept.book)
}

/// The book that shows the circuit and its reduced one equal.
fn mirrored(alloc: Global, net: &Net, book: &Book, options: Options) -> Result<Book, AllocError>
    requires swept { IsSweptBook net.now.a options book.now }
    requires reduced { IsReducedCircuit net.now.a book.now.entries net.now.b }
    ensures mirror { IfOk result (IsMirror net.now book.now) }
    ensures settled { IfOk result
        (λ b. IsSettled net.now options.sweep_budget options.out_budget b Equivalent) }
{
    let mirrored = mirror(alloc, net, book)?;
    means(net, &mirrored);
    Ok(mirrored)
}
