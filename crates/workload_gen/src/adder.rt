ghost use Rattle.std.specs.Prelude.{◌≡◌, ◌+◌, ◌-◌, ◌*◌, ◌≤◌, ◌<◌, length, IfOk, OnOk};
ghost use Rattle.aiger_binary.specs.Binary.{AreBelow};
ghost use Rattle.netlist.specs.Circuit.{most, var_of};
ghost use Rattle.workload_gen.specs.Adder.{chosen, ripple_adder, select_adder, selected, summed};
ghost use Rattle.workload_gen.specs.Gates.{next, built};
ghost use Rattle.workload_gen.specs.declared.workload.TheConstants.{MOST_BITS};

use crate::builder::{Builder, input};
use crate::design::Design;
use crate::workload::MOST_BITS;
use std::alloc::{AllocError, Global};

/// Some bits of two numbers of `n` bits: from one up to another, which is behind the last.
#[derive(Clone, Copy)]
struct Bits {
    n: u32,
    from: u32,
    to: u32,
    ghost order: { from ≤ to },
    ghost within: { to ≤ n },
    ghost few: { n ≤ MOST_BITS },
}

/// The carry goes from bit to bit.
pub(crate) fn ripple_adder(alloc: Global, n: u32) -> Result<Design, AllocError>
    requires { n ≤ MOST_BITS }
    ensures { IfOk result (λ d. d ≡ built (2 * n) (ripple_adder n)) }
{
    let mut builder = Builder::new(alloc, 2 * n);
    let mut sums = Vec::new(alloc);
    let bits = Bits { n, from: 0, to: n };
    let carry = sum_bits(&mut builder, bits, 0, &mut sums)?;
    sums.push(carry)?;
    Ok(builder.finish(sums))
}

/// The carry goes from block to block, of four bits each, of which the last may be shorter (carry select).
pub(crate) fn select_adder(alloc: Global, n: u32) -> Result<Design, AllocError>
    requires { n ≤ MOST_BITS }
    ensures { IfOk result (λ d. d ≡ built (2 * n) (select_adder n)) }
{
    let mut builder = Builder::new(alloc, 2 * n);
    let mut sums = Vec::new(alloc);
    let mut carry = 0;
    for block in 0..n.div_ceil(4) {
        let from = 4 * block;
        let to = n.min(from + 4);
        carry = add_block(&mut builder, alloc, Bits { n, from, to }, carry, &mut sums)?;
    }
    sums.push(carry)?;
    Ok(builder.finish(sums))
}

/// Adds the bits with carry 0 and with carry 1, of which the carry before them chooses, and answers the
/// carry.
#[tactic(auto, unfolding(crate::specs::Adder::selected))]
fn add_block(
    builder: &mut Builder,
    alloc: Global,
    bits: Bits,
    carry: u32,
    sums: &mut Vec<u32>,
) -> Result<u32, AllocError>
    requires inputs { builder.old.inputs ≡ 2 * bits.n }
    requires carry { var_of carry < next builder.old }
    requires below { AreBelow (next builder.old) sums.old.items }
    requires room { next builder.old + 87 ≤ most }
    requires block { bits.to ≤ bits.from + 4 }
    ensures sums { IfOk result (λ c. ((sums.new.items, c), builder.new)
        ≡ selected bits.n (bits.to - bits.from) bits.from sums.old.items carry builder.old) }
    ensures literal { IfOk result (λ c. var_of c < next builder.new) }
    ensures below { OnOk result (AreBelow (next builder.new) sums.new.items) }
    ensures size { OnOk result
        (length sums.new.items ≡ length sums.old.items + (bits.to - bits.from)) }
    ensures count { OnOk result (next builder.new ≤ next builder.old + 87) }
    ensures inputs { OnOk result (builder.new.inputs ≡ builder.old.inputs) }
{
    let (mut zeros, mut ones) = (Vec::new(alloc), Vec::new(alloc));
    let zero = sum_bits(builder, bits, 0, &mut zeros)?;
    let one = sum_bits(builder, bits, 1, &mut ones)?;
    choose(builder, carry, ones.as_slice(), zeros.as_slice(), sums)?;
    builder.mux(carry, one, zero)
}

/// Adds the bits with a carry before them: puts the sums behind those that stand there, and answers the
/// carry.
fn sum_bits(
    builder: &mut Builder,
    bits: Bits,
    carry: u32,
    sums: &mut Vec<u32>,
) -> Result<u32, AllocError>
    requires inputs { builder.old.inputs ≡ 2 * bits.n }
    requires carry { var_of carry < next builder.old }
    requires below { AreBelow (next builder.old) sums.old.items }
    requires room { next builder.old + 9 * (bits.to - bits.from) ≤ most }
    ensures sums { IfOk result (λ c. ((sums.new.items, c), builder.new)
        ≡ summed bits.n (bits.to - bits.from) bits.from sums.old.items carry builder.old) }
    ensures literal { IfOk result (λ c. var_of c < next builder.new) }
    ensures below { OnOk result (AreBelow (next builder.new) sums.new.items) }
    ensures size { OnOk result
        (length sums.new.items ≡ length sums.old.items + (bits.to - bits.from)) }
    ensures count { OnOk result (next builder.new ≡ next builder.old + 9 * (bits.to - bits.from)) }
    ensures inputs { OnOk result (builder.new.inputs ≡ builder.old.inputs) }
{
    let mut last = carry;
    for k in bits.from..bits.to {
        let (sum, more) = builder.full(input(k), input(bits.n + k), last)?;
        sums.push(sum)?;
        last = more;
    }
    Ok(last)
}

/// Of two rows the bits of the first where the carry is true, else those of the second.
fn choose(
    builder: &mut Builder,
    carry: u32,
    ones: &[u32],
    zeros: &[u32],
    sums: &mut Vec<u32>,
) -> Result<(), AllocError>
    requires carry { var_of carry < next builder.old }
    requires ones { AreBelow (next builder.old) ones.now }
    requires zeros { AreBelow (next builder.old) zeros.now }
    requires same { length ones.now ≡ length zeros.now }
    requires below { AreBelow (next builder.old) sums.old.items }
    requires room { next builder.old + 3 * length ones.now ≤ most }
    ensures sums { OnOk result ((sums.new.items, builder.new)
        ≡ chosen carry ones.now zeros.now sums.old.items builder.old) }
    ensures below { OnOk result (AreBelow (next builder.new) sums.new.items) }
    ensures size { OnOk result (length sums.new.items ≡ length sums.old.items + length ones.now) }
    ensures count { OnOk result (next builder.new ≡ next builder.old + 3 * length ones.now) }
    ensures inputs { OnOk result (builder.new.inputs ≡ builder.old.inputs) }
{
    for i in 0..ones.len() {
        let bit = builder.mux(carry, ones[i], zeros[i])?;
        sums.push(bit)?;
    }
    Ok(())
}
