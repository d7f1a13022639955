ghost use Rattle.std.specs.Prelude.{◌≡◌, ◌≤◌, IfOk};
ghost use Rattle.aiger_file.specs.File.{SpellsAiger};
ghost use Rattle.workload_gen.specs.Workload.{first_bytes, first_circuit, second_bytes, second_circuit};

use crate::adder::{ripple_adder, select_adder};
use crate::comparator::{comparator_down, comparator_up};
use crate::design::Design;
use crate::kind::Kind;
use crate::parity::{parity_chain, parity_tree};
use std::alloc::{AllocError, Global};

/// The greatest number that a workload is made of.
pub const MOST_BITS: u32 = 4096;

/// The two circuits of a kind and a number as files: the first as ASCII AIGER, the second as binary AIGER.
///
/// It takes the time of their gates.
pub fn make(alloc: Global, kind: Kind, n: u32) -> Result<(Vec<u8>, Vec<u8>), AllocError>
    requires { (1 ≤ n) × (n ≤ MOST_BITS) }
    ensures bytes { IfOk result
        (λ p. (p.0.items ≡ first_bytes kind n) × (p.1.items ≡ second_bytes kind n)) }

    // And so both are read back.
    ensures circuits { IfOk result
        (λ p. SpellsAiger p.0.items (first_circuit kind n)
        × SpellsAiger p.1.items (second_circuit kind n)) }
{
    let first = first_design(alloc, kind, n)?.ascii(alloc)?;
    let second = second_design(alloc, kind, n)?.binary(alloc)?;
    Ok((first, second))
}

/// The architecture that goes from the lowest bit up, one after the other.
#[tactic(auto, unfolding(crate::specs::Workload::first_circuit))]
fn first_design(alloc: Global, kind: Kind, n: u32) -> Result<Design, AllocError>
    requires { (1 ≤ n) × (n ≤ MOST_BITS) }
    ensures { IfOk result (λ d. d ≡ first_circuit kind n) }
{
    match kind {
        Kind::Adder => ripple_adder(alloc, n),
        Kind::Parity => parity_chain(alloc, n),
        Kind::Comparator => comparator_up(alloc, n),
    }
}

/// The other one: blocks that are made for either carry, a tree, or from the highest bit down.
#[tactic(auto, unfolding(crate::specs::Workload::second_circuit))]
fn second_design(alloc: Global, kind: Kind, n: u32) -> Result<Design, AllocError>
    requires { (1 ≤ n) × (n ≤ MOST_BITS) }
    ensures { IfOk result (λ d. d ≡ second_circuit kind n) }
{
    match kind {
        Kind::Adder => select_adder(alloc, n),
        Kind::Parity => parity_tree(alloc, n),
        Kind::Comparator => comparator_down(alloc, n),
    }
}
