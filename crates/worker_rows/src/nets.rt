//! Nets of two inputs, all patterns, and solvers.
ghost use Rattle.std.specs.Prelude.{◌≡◌, ◌≤◌, [], length};
ghost use Rattle.sweep_workers.specs.Swept.{IsPoolFor};

use lits::Side;
use netlist::{Circuit, Net};
use solver_watch::WatchSolver;
use std::alloc::{AllocError, Global};
use std::process::Abort;
use word_sim::Pool;
use worked_circuits::{and, circuit, two_xors};

/// The circuit. The test fails where it has a constraint, which none of these cases has.
fn plain(rt: &impl Abort, circuit: Circuit) -> Circuit
    ensures same { result ≡ circuit }
    ensures plain { result.constraints ≡ [] }
{
    assert!(rt; circuit.constraints().is_empty(), "no constraint");
    circuit
}

fn net_of(rt: &impl Abort, alloc: Global, a: Circuit, b: Circuit) -> Net {
    Net::of(alloc, plain(rt, a), plain(rt, b)).expect(rt, "a net")
}

/// Two XORs by other gates: B's gate 5 is the negation of A's.
pub(crate) fn xors(rt: &impl Abort, alloc: Global) -> Net {
    let (a, b) = two_xors(alloc).expect(rt, "memory");
    net_of(rt, alloc, a, b)
}

/// Two ANDs, of both inputs and of the first without the second.
fn two_ands(alloc: Global) -> Result<Circuit, AllocError> {
    circuit(alloc, &[1, 2], &[and(3, 2, 4), and(4, 2, 5)], &[6, 8])
}

/// The same two ANDs on both sides: two pairs of nodes, and two outputs.
pub(crate) fn pairs_of_ands(rt: &impl Abort, alloc: Global) -> Net {
    let a = two_ands(alloc).expect(rt, "memory");
    let b = two_ands(alloc).expect(rt, "memory");
    net_of(rt, alloc, a, b)
}

/// A seeded pool and all four inputs.
fn all_patterns(rt: &impl Abort, alloc: Global) -> Pool
    ensures { result.inputs ≡ 2 }
{
    let mut pool = Pool::seeded(alloc, 1, 1, 2).expect(rt, "memory");
    pool.add(&[false, false]).expect(rt, "memory");
    pool.add(&[false, true]).expect(rt, "memory");
    pool.add(&[true, false]).expect(rt, "memory");
    pool.add(&[true, true]).expect(rt, "memory");
    pool
}

/// These patterns, for a net of two inputs.
pub(crate) fn pool_for(rt: &impl Abort, alloc: Global, net: &Net) -> Pool
    ensures { IsPoolFor net.now result }
{
    assert!(rt; net.circuit(Side::A).inputs().len() == 2);
    let pool = all_patterns(rt, alloc);
    assert!(rt; pool.patterns() == 68);
    pool
}

/// So many solvers, at most 64.
pub(crate) fn solvers(rt: &impl Abort, alloc: Global, many: usize) -> Vec<WatchSolver>
    ensures { (1 ≤ length result.items) × (length result.items ≤ 64) }
{
    let mut solvers = Vec::new(alloc);
    for _ in 0..many {
        solvers
            .push(WatchSolver::new(alloc).expect(rt, "memory"))
            .expect(rt, "memory");
    }
    assert!(rt; !solvers.is_empty() && solvers.len() <= 64);
    solvers
}
