ghost use Rattle.std.specs.Prelude.{◌≡◌, ◌*◌, ◌<◌, ◌&&◌, ℕ, List, Bool, [], length, IfOk, Some};
ghost use Rattle.std.specs.List.{AllByRecursion, list_all, slice_index_or};
ghost use Rattle.lits.specs.declared.literal.Lit.{Lit};
ghost use Rattle.netlist.specs.Net.{bound_of, bounds_of, bounds_on, circuit_of, lit_holds, nodes_of, value_of};
ghost use Rattle.word_sim.specs.Patterns.{words_of};
ghost use Rattle.word_sim.specs.Rows.{AreSignatures, IsRow, turned};
ghost use Rattle.check_session.specs.Pool.{HasBitsFor, admits, bit_of};

use crate::patterns::mask_of;
use lits::Side;
use netlist::Net;
use std::alloc::{AllocError, Global};
use word_sim::Sigs;

/// The row of the patterns that are admitted: its bit is set where each constraint of both circuits is true.
///
/// Without constraints all bits are set, and no row of a node is read.
pub(crate) fn admitted_row(alloc: Global, net: &Net, sigs: &Sigs) -> Result<Vec<u64>, AllocError>
    requires { length sigs.now.rows ≡ length (nodes_of net.now) }
    ensures size { IfOk result (λ v. length v.items ≡ words_of sigs.now.patterns) }
    ensures bits { IfOk result (λ v. (patterns : List (List Bool)) → AreSignatures net.now patterns sigs.now
        → AllByRecursion (λ bits. length bits ≡ length net.now.a.inputs) patterns
        → HasBitsFor patterns (admits net.now) v.items) }
{
    netlist::laws::is_net(net);
    let mut row = vec![in alloc; u64::MAX; sigs.patterns().div_ceil(64) as usize]?;
    keep_admitted(net, sigs, row.as_mut_slice());
    Ok(row)
}

/// Takes the patterns out of a row on which some constraint is false.
fn keep_admitted(net: &Net, sigs: &Sigs, row: &mut [u64])
    requires rows { length sigs.now.rows ≡ length (nodes_of net.now) }
    requires size { length row.old ≡ words_of sigs.now.patterns }
    ensures size { length row.new ≡ length row.old }
    ensures bits { (patterns : List (List Bool)) (p : ℕ) → AreSignatures net.now patterns sigs.now
        → p < length patterns → bit_of row.new p ≡ (bit_of row.old p
        && list_all (lit_holds (value_of net.now (slice_index_or patterns p []))) (bounds_of net.now)) }
{
    keep_met(net, sigs, Side::A, row);
    keep_met(net, sigs, Side::B, row);
}

/// Takes the patterns out of a row on which some constraint of one side is false.
fn keep_met(net: &Net, sigs: &Sigs, side: Side, row: &mut [u64])
    requires rows { length sigs.now.rows ≡ length (nodes_of net.now) }
    requires size { length row.old ≡ words_of sigs.now.patterns }
    ensures size { length row.new ≡ length row.old }
    ensures bits { (patterns : List (List Bool)) (p : ℕ) → AreSignatures net.now patterns sigs.now
        → p < length patterns → bit_of row.new p ≡ (bit_of row.old p
        && list_all (lit_holds (value_of net.now (slice_index_or patterns p []))) (bounds_on net.now side)) }
{
    let count = net.circuit(side).constraints().len() as u32;
    for k in 0..count {
        let (other, neg) = constraint_row(net, sigs, side, k);
        keep_bits(row, other, neg);
    }
}

/// The row of the node of a constraint of one side, and whether the constraint is its negation.
fn constraint_row<'a>(net: &Net, sigs: &'a Sigs, side: Side, k: u32) -> (&'a [u64], bool)
    requires rows { length sigs.now.rows ≡ length (nodes_of net.now) }
    requires constraint { k < length (circuit_of net.now side).constraints }
    ensures size { length result.0.now ≡ words_of sigs.now.patterns }
    ensures row { (patterns : List (List Bool)) (lit : Lit) → AreSignatures net.now patterns sigs.now
        → bound_of net.now side k ≡ Some lit → IsRow net.now patterns lit.node result.0.now }
    ensures sign { (lit : Lit) → bound_of net.now side k ≡ Some lit → result.1 ≡ lit.neg }
{
    netlist::laws::is_net(net);
    let lit = net.constraint(side, k).unwrap();
    let position = net.position(lit.node).unwrap();
    (sigs.row(position), lit.neg)
}

/// Keeps the bits of a row that another has too, or where that one is negated those that it hasn't.
fn keep_bits(row: &mut [u64], other: &[u64], neg: bool)
    requires { length other.now ≡ length row.old }
    ensures size { length row.new ≡ length row.old }
    ensures bits { (p : ℕ) → p < 64 * length row.old
        → bit_of row.new p ≡ (bit_of row.old p && turned neg (bit_of other.now p)) }
{
    let mask = mask_of(neg);
    for word in 0..row.len() {
        row[word] &= other[word] ^ mask;
    }
}
