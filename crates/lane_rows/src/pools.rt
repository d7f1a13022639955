//! The nets that are simulated, and their patterns.
ghost use Rattle.std.specs.Prelude.{◌≡◌, ◌≤◌, length};
ghost use Rattle.std.specs.Bool.{OnTrue};

use lits::Side;
use netlist::{Circuit, Net};
use std::alloc::{AllocError, Global};
use std::process::Abort;
use word_sim::Pool;

/// Fails the test, with these words, unless it is so.
pub(crate) fn expect(rt: &impl Abort, what: &str, is_so: bool) {
    assert!(rt; is_so, "{what}");
}

/// The net of a pair of circuits, which a test makes in the call.
pub(crate) fn net_of(
    rt: &impl Abort,
    alloc: Global,
    pair: Result<(Circuit, Circuit), AllocError>,
) -> Net {
    let (a, b) = pair.expect(rt, "memory");
    Net::of(alloc, a, b).expect(rt, "a net")
}

/// Whether a pattern of the pool has a truth value for each input.
fn fits(net: &Net, pool: &Pool) -> bool
    ensures { OnTrue result (pool.now.inputs ≡ length net.now.a.inputs) }
{
    pool.inputs() as usize == net.circuit(Side::A).inputs().len()
}

/// So many seeded words of a net of two inputs.
pub(crate) fn seeded(rt: &impl Abort, alloc: Global, net: &Net, words: u32) -> Pool
    requires { (1 ≤ words) × (words ≤ 64) }
    ensures two { result.inputs ≡ 2 }
    ensures fits { result.inputs ≡ length net.now.a.inputs }
{
    let pool = Pool::seeded(alloc, 7, words, 2).expect(rt, "memory");
    assert!(rt; fits(net, &pool));
    pool
}
