ghost use Rattle.std.specs.Prelude.{◌≡◌, ◌≤◌, ◌<◌, ◌+◌, ◌*◌, IfOk, OnOk, length, []};
ghost use Rattle.byte_scan.specs.Reading.{Reads};
ghost use Rattle.netlist.specs.Circuit.{var_of};
ghost use Rattle.aiger_binary.specs.Binary.{groups_at, first_fanin, second_fanin, gate_at, gates_at, Lists, AreStacked};
ghost use Rattle.circuit_text.specs.BinaryText.{power_of};

use byte_scan::{AigerErr, Scan, VARIABLE_LIMIT};
use netlist::And;

/// A delta takes at most so many bytes, of 7 bits each.
const GROUPS: u32 = 5;

/// Reads the deltas of `count` gates, the first of which defines the variable behind those of the inputs.
pub(crate) fn gates(
    scan: &mut Scan,
    count: u32,
    inputs: u32,
    gates: &mut Vec<And>,
) -> Result<(), AigerErr>
    requires few { inputs + count ≤ VARIABLE_LIMIT }
    requires none { gates.old.items ≡ [] }
    ensures reads { Lists result gates.new.items scan.new (gates_at count inputs [] scan.old) }
    ensures stacked { OnOk result (AreStacked (inputs + 1) gates.new.items) }
    ensures count { OnOk result (length gates.new.items ≡ count) }
{
    for number in 0..count {
        let gate = gate(scan, number, inputs + number + 1)?;
        gates.push(gate)?;
    }
    Ok(())
}

/// Reads the deltas of the gate of this number, which defines this variable.
fn gate(scan: &mut Scan, number: u32, var: u32) -> Result<And, AigerErr>
    requires range { var ≤ VARIABLE_LIMIT }
    requires some { 1 ≤ var }
    ensures reads { Reads result scan.new (gate_at number var scan.old) }
    ensures stacked { IfOk result (λ g. (g.var ≡ var) × ((var_of g.left < var) × (var_of g.right < var))) }
{
    let first = groups(scan, GROUPS, number)?;
    let left = first_fanin(number, 2 * var, first)?;
    let second = groups(scan, GROUPS, number)?;
    let right = second_fanin(number, left, second)?;
    Ok(And { var, left, right })
}

/// The first fanin of a gate, by the gate's literal and its distance from it.
fn first_fanin(number: u32, lhs: u32, delta: u64) -> Result<u32, AigerErr>
    ensures fanin { result ≡ first_fanin number lhs delta }
    ensures below { IfOk result (λ n. n < lhs) }
{
    if delta == 0 || delta > u64::from(lhs) {
        return Err(AigerErr::BadDelta(u64::from(number)));
    }
    Ok(lhs - delta as u32)
}

/// The second fanin of a gate, by the first and its distance from it.
fn second_fanin(number: u32, rhs0: u32, delta: u64) -> Result<u32, AigerErr>
    ensures fanin { result ≡ second_fanin number rhs0 delta }
    ensures below { IfOk result (λ n. n ≤ rhs0) }
{
    if delta > u64::from(rhs0) {
        return Err(AigerErr::BadDelta(u64::from(number)));
    }
    Ok(rhs0 - delta as u32)
}

/// Reads a number in groups of 7 bits, the least first, of at most `left` bytes.
fn groups(scan: &mut Scan, left: u32, number: u32) -> Result<u64, AigerErr>
    requires { left ≤ 5 }
    ensures reads { Reads result scan.new (groups_at left number scan.old) }
    ensures small { IfOk result (λ n. n < power_of left) }
{
    if left == 0 {
        return Err(AigerErr::BadDelta(u64::from(number)));
    }
    match scan.byte() {
        None => Err(AigerErr::Truncated(scan.at())),
        Some(byte) if byte < 128 => Ok(u64::from(byte)),
        Some(byte) => {
            let more = groups(scan, left - 1, number)?;
            Ok(u64::from(byte) - 128 + 128 * more)
        }
    }
}
