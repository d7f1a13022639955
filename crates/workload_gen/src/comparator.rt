ghost use Rattle.std.specs.Prelude.{◌≡◌, ◌+◌, ◌*◌, ◌≤◌, ◌<◌, IfOk, OnOk};
ghost use Rattle.netlist.specs.Circuit.{most, var_of};
ghost use Rattle.workload_gen.specs.Comparator.{comparator_down, comparator_up, lowered_bit, raised_bit};
ghost use Rattle.workload_gen.specs.Gates.{built, next};

use crate::builder::{Builder, input, not};
use crate::design::Design;
use crate::workload::MOST_BITS;
use std::alloc::{AllocError, Global};

/// From the lowest bit up: where two bits differ, that of the second number decides.
pub(crate) fn comparator_up(alloc: Global, n: u32) -> Result<Design, AllocError>
    requires { n ≤ MOST_BITS }
    ensures { IfOk result (λ d. d ≡ built (2 * n) (comparator_up n)) }
{
    let mut builder = Builder::new(alloc, 2 * n);
    let mut less = 0;
    for k in 0..n {
        less = raise(&mut builder, n, k, less)?;
    }
    Ok(builder.finish(vec![in alloc; less]?))
}

/// What is found at a bit, by what was found below.
#[tactic(auto, unfolding(crate::specs::Comparator::raised_bit))]
fn raise(builder: &mut Builder, n: u32, k: u32, less: u32) -> Result<u32, AllocError>
    requires few { n ≤ MOST_BITS }
    requires bit { k < n }
    requires inputs { builder.old.inputs ≡ 2 * n }
    requires less { var_of less < next builder.old }
    requires room { next builder.old + 5 ≤ most }
    ensures gates { IfOk result (λ l. (l, builder.new) ≡ raised_bit n k less builder.old) }
    ensures literal { IfOk result (λ l. var_of l < next builder.new) }
    ensures count { OnOk result (next builder.new ≡ next builder.old + 6) }
    ensures inputs { OnOk result (builder.new.inputs ≡ builder.old.inputs) }
{
    let (a, b) = (input(k), input(n + k));
    let differ = builder.xor(a, b)?;
    builder.mux(differ, b, less)
}

/// From the highest bit down: the first bits that differ decide.
pub(crate) fn comparator_down(alloc: Global, n: u32) -> Result<Design, AllocError>
    requires { n ≤ MOST_BITS }
    ensures { IfOk result (λ d. d ≡ built (2 * n) (comparator_down n)) }
{
    let mut builder = Builder::new(alloc, 2 * n);
    let (mut equal, mut less) = (1, 0);
    for i in 0..n {
        (equal, less) = lower(&mut builder, n, n - 1 - i, equal, less)?;
    }
    Ok(builder.finish(vec![in alloc; less]?))
}

/// Whether the bits are equal down to a bit, and what is found there, by the same of the bits above.
#[tactic(auto, unfolding(crate::specs::Comparator::lowered_bit))]
fn lower(
    builder: &mut Builder,
    n: u32,
    k: u32,
    equal: u32,
    less: u32,
) -> Result<(u32, u32), AllocError>
    requires few { n ≤ MOST_BITS }
    requires bit { k < n }
    requires inputs { builder.old.inputs ≡ 2 * n }
    requires equal { var_of equal < next builder.old }
    requires less { var_of less < next builder.old }
    requires room { next builder.old + 6 ≤ most }
    ensures gates { IfOk result (λ s. (s, builder.new) ≡ lowered_bit n k equal less builder.old) }
    ensures literals { IfOk result
        (λ s. (var_of s.0 < next builder.new) × (var_of s.1 < next builder.new)) }
    ensures count { OnOk result (next builder.new ≡ next builder.old + 7) }
    ensures inputs { OnOk result (builder.new.inputs ≡ builder.old.inputs) }
{
    let (a, b) = (input(k), input(n + k));
    let below = builder.and(not(a), b)?;
    let here = builder.and(equal, below)?;
    let less = builder.or(less, here)?;
    let differ = builder.xor(a, b)?;
    let equal = builder.and(equal, not(differ))?;
    Ok((equal, less))
}
