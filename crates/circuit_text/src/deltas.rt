ghost use Rattle.std.specs.Prelude.{◌≡◌, ◌+◌, ◌*◌, ◌≤◌, ◌<◌, ◌++◌, OnOk, OnErr};
ghost use Rattle.tokens.specs.Text.{Begins};
ghost use Rattle.std.specs.List.{flat_map};
ghost use Rattle.circuit_text.specs.BinaryText.{delta_text, gate_deltas, groups, power_of, IsInSequence};
ghost use Rattle.netlist.specs.Circuit.{most};

use netlist::{And, Circuit};
use std::alloc::AllocError;

/// Appends the deltas of the circuit's gates.
pub(crate) fn push_deltas(text: &mut Vec<u8>, circuit: &Circuit) -> Result<(), AllocError>
    requires { IsInSequence circuit.now }
    ensures ok { OnOk result (text.new.items ≡ text.old.items ++ flat_map gate_deltas circuit.now.gates) }
    ensures err { OnErr result (Begins text.old.items text.new.items) }
{
    for gate in circuit.gates() {
        push_gate(text, *gate)?;
    }
    Ok(())
}

/// Appends how far the gate's literal is from its first fanin, and that from the second.
fn push_gate(text: &mut Vec<u8>, gate: And) -> Result<(), AllocError>
    requires var { gate.var ≤ most }
    requires left { gate.left < 2 * gate.var }
    requires right { gate.right ≤ gate.left }
    ensures ok { OnOk result (text.new.items ≡ text.old.items ++ gate_deltas gate) }
    ensures err { OnErr result (Begins text.old.items text.new.items) }
{
    push_delta(text, 2 * gate.var - gate.left)?;
    push_delta(text, gate.left - gate.right)
}

/// Appends a difference of literals in the binary form's groups of 7 bits; 32 bits take at most five.
#[tactic(auto, unfolding(crate::specs::BinaryText::delta_text))]
fn push_delta(text: &mut Vec<u8>, delta: u32) -> Result<(), AllocError>
    ensures ok { OnOk result (text.new.items ≡ text.old.items ++ delta_text delta) }
    ensures err { OnErr result (Begins text.old.items text.new.items) }
{
    push_groups(text, delta, 4)
}

/// Appends the number in groups of 7 bits, the least first, of which so many may follow the first.
fn push_groups(text: &mut Vec<u8>, number: u32, more: u32) -> Result<(), AllocError>
    requires more { more ≤ 4 }
    requires fits { number < power_of (more + 1) }
    ensures ok { OnOk result (text.new.items ≡ text.old.items ++ groups more number) }
    ensures err { OnErr result (Begins text.old.items text.new.items) }
{
    if more == 0 || number < 128 {
        text.push(number as u8)?;
        return Ok(());
    }
    text.push((number % 128) as u8 + 128)?;
    push_groups(text, number / 128, more - 1)
}
