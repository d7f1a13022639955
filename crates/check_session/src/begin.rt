ghost use Rattle.std.specs.Prelude.{◌≡◌, length, unwrap_or, IfOk, OnOk};
ghost use Rattle.std.specs.List.{AllByRecursion};
ghost use Rattle.check_session.specs.Begun.{IsPastOf, MayBegin, begun_after, with_inputs};
ghost use Rattle.check_session.specs.Check.{AreInRange};
ghost use Rattle.check_session.specs.Pool.{first_pool};

use crate::options::Options;
use keep_lemmas::keep;
use lemma_book::Book;
use lits::{Listed, Side};
use netlist::Net;
use netlist_edits::Edit;
use std::alloc::{AllocError, Global};
use word_sim::Pool;

/// What a check leaves to the next one, and what happened since.
#[derive(Drop)]
pub(crate) struct Past {
    /// The pair before the edits. None where it is the pair as it stands.
    pub(crate) last: Option<Net>,
    /// The edits since, in order.
    pub(crate) edits: Vec<Edit>,
    /// The patterns. None before the first check, and after one that was refused memory.
    pub(crate) pool: Option<Pool>,
    pub(crate) book: Book,
}

/// What a check of the pair begins with: what is kept of the book, and the patterns with the inputs that are
/// handed out.
///
/// The book and its inputs go through `keep` too where nothing was edited: what was open is asked anew, and
/// no check has another beginning.
pub(crate) fn begin(
    alloc: Global,
    net: &Net,
    options: Options,
    past: Past,
) -> Result<(Book, Pool), AllocError>
    requires range { AreInRange options }
    requires past { IsPastOf net.now options past }
    ensures begun { IfOk result (λ r. record { book = r.0; pool = r.1 } ≡ begun_after net.now options past) }
    ensures fit { IfOk result (λ r. MayBegin net.now options (record { book = r.0; pool = r.1 })) }
{
    let Past {
        last,
        edits,
        pool,
        book,
    } = past;
    let (book, inputs) = keep(alloc, book, before(&last, net), edits.as_slice(), net)?;
    let mut pool = pool_or_first(alloc, net, options, pool)?;
    join_all(&mut pool, inputs.as_slice())?;
    Ok((book, pool))
}

/// The pair before the edits.
fn before<'a>(last: &'a Option<Net>, net: &'a Net) -> &'a Net
    ensures { result.now ≡ unwrap_or last.now net.now }
{
    match last {
        Some(last) => last,
        None => net,
    }
}

/// The patterns, or those that the seed draws for the pair's inputs where there are none.
pub(crate) fn pool_or_first(
    alloc: Global,
    net: &Net,
    options: Options,
    pool: Option<Pool>,
) -> Result<Pool, AllocError>
    requires { AreInRange options }
    ensures { IfOk result (λ p. p ≡ unwrap_or pool (first_pool net.now options)) }
{
    if let Some(pool) = pool {
        return Ok(pool);
    }
    // A circuit has fewer inputs than that.
    let Ok(inputs) = u32::try_from(net.circuit(Side::A).inputs().len()) else {
        return Err(AllocError);
    };
    Pool::seeded(alloc, options.seed, options.words, inputs)
}

/// Lets inputs join the patterns, in order.
fn join_all(pool: &mut Pool, inputs: &[Listed<bool>]) -> Result<(), AllocError>
    requires { AllByRecursion (λ bits. length bits ≡ pool.old.inputs) inputs.now }
    ensures { OnOk result (pool.new ≡ with_inputs pool.old inputs.now) }
{
    for input in inputs {
        pool.add(input.as_slice())?;
    }
    Ok(())
}
