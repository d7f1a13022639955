ghost use Rattle.std.specs.Prelude.{◌≡◌, ◌+◌, ◌*◌, ◌/◌, ◌≤◌, ◌<◌, [], map, length, IfOk};
ghost use Rattle.std.specs.List.{range_with_len};
ghost use Rattle.aiger_binary.specs.Binary.{AreBelow};
ghost use Rattle.netlist.specs.Circuit.{most};
ghost use Rattle.workload_gen.specs.Gates.{next, input_literal, built};
ghost use Rattle.workload_gen.specs.Parity.{joined, parity_chain, parity_tree};

use crate::builder::{Builder, input};
use crate::design::Design;
use crate::workload::MOST_BITS;
use std::alloc::{AllocError, Global};

/// The inputs joined one after the other.
pub(crate) fn parity_chain(alloc: Global, n: u32) -> Result<Design, AllocError>
    requires { (1 ≤ n) × (n ≤ MOST_BITS) }
    ensures { IfOk result (λ d. d ≡ built n (parity_chain n)) }
{
    let mut builder = Builder::new(alloc, n);
    let mut c = input(0);
    for k in 1..n {
        c = builder.xor(c, input(k))?;
    }
    Ok(builder.finish(vec![in alloc; c]?))
}

/// The inputs joined as a tree: neighbours are joined until one is left.
pub(crate) fn parity_tree(alloc: Global, n: u32) -> Result<Design, AllocError>
    requires { (1 ≤ n) × (n ≤ MOST_BITS) }
    ensures { IfOk result (λ d. d ≡ built n (parity_tree n)) }
{
    let mut builder = Builder::new(alloc, n);
    let mut row = inputs(alloc, n)?;
    while row.len() > 1 {
        row = join(&mut builder, alloc, row.as_slice())?;
    }
    Ok(builder.finish(row))
}

fn inputs(alloc: Global, n: u32) -> Result<Vec<u32>, AllocError>
    requires { n ≤ MOST_BITS }
    ensures literals { IfOk result (λ v. v.items ≡ map input_literal (range_with_len 0 n)) }
    ensures below { IfOk result (λ v. AreBelow (n + 1) v.items) }
{
    let mut inputs = Vec::new(alloc);
    for k in 0..n {
        inputs.push(input(k))?;
    }
    Ok(inputs)
}

/// Joins neighbours from the left; an odd last one stays.
fn join(builder: &mut Builder, alloc: Global, row: &[u32]) -> Result<Vec<u32>, AllocError>
    requires below { AreBelow (next builder.old) row.now }
    requires room { next builder.old + 2 * length row.now ≤ most }
    ensures row { IfOk result (λ v. (v.items, builder.new) ≡ joined [] row.now builder.old) }
    ensures below { IfOk result (λ v. AreBelow (next builder.new) v.items) }
    ensures size { IfOk result (λ v. length v.items ≡ (length row.now + 1) / 2) }
    ensures count { IfOk result
        (λ v. next builder.new + 3 * length v.items ≡ next builder.old + 3 * length row.now) }
    ensures inputs { IfOk result (λ v. builder.new.inputs ≡ builder.old.inputs) }
{
    let mut joined = Vec::new(alloc);
    for i in 0..row.len() / 2 {
        let pair = builder.xor(row[2 * i], row[2 * i + 1])?;
        joined.push(pair)?;
    }
    joined.extend_from_slice(&row[row.len() / 2 * 2..])?;
    Ok(joined)
}
