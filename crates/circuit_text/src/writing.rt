ghost use Rattle.std.specs.Prelude.{◌≡◌, ◌++◌, OnOk, OnErr};
ghost use Rattle.tokens.specs.Text.{Begins};
ghost use Rattle.circuit_text.specs.AsciiText.{ascii_text, IsBound};
ghost use Rattle.circuit_text.specs.BinaryText.{binary_text, IsInSequence};

use crate::deltas::push_deltas;
use crate::lines::{push_gates, push_header, push_inputs, push_outputs_and_constraints};
use crate::symbols::push_symbols;
use netlist::Circuit;
use std::alloc::AllocError;

/// Appends the circuit's text in the ASCII form, with this M in its header, which readers take as a bound of
/// the variables. Where memory is refused the text is as it was. It takes the time of the text.
pub fn push_ascii(text: &mut Vec<u8>, m: u32, circuit: &Circuit) -> Result<(), AllocError>
    requires { IsBound m circuit.now }
    ensures ok { OnOk result (text.new.items ≡ text.old.items ++ ascii_text m circuit.now) }
    ensures err { OnErr result (text.new.items ≡ text.old.items) }
{
    let length = text.len();
    let written = append_ascii(text, m, circuit);
    if written.is_err() {
        text.truncate(length);
    }
    written
}

/// Appends the circuit's text in the binary form. Where memory is refused the text is as it was. It takes the
/// time of the text and of the inputs, which have no lines but may have names.
pub fn push_binary(text: &mut Vec<u8>, circuit: &Circuit) -> Result<(), AllocError>
    requires { IsInSequence circuit.now }
    ensures ok { OnOk result (text.new.items ≡ text.old.items ++ binary_text circuit.now) }
    ensures err { OnErr result (text.new.items ≡ text.old.items) }
{
    let length = text.len();
    let written = append_binary(text, circuit);
    if written.is_err() {
        text.truncate(length);
    }
    written
}

/// Appends the text in the ASCII form. Where memory is refused a first part of it may stand, which the caller
/// takes back.
#[tactic(auto, unfolding(crate::specs::AsciiText::ascii_text))]
fn append_ascii(text: &mut Vec<u8>, m: u32, circuit: &Circuit) -> Result<(), AllocError>
    requires { IsBound m circuit.now }
    ensures ok { OnOk result (text.new.items ≡ text.old.items ++ ascii_text m circuit.now) }
    ensures err { OnErr result (Begins text.old.items text.new.items) }
{
    push_header(text, b'a', m, circuit)?;
    push_inputs(text, circuit.inputs())?;
    push_outputs_and_constraints(text, circuit)?;
    push_gates(text, circuit.gates())?;
    push_symbols(text, circuit)
}

/// Appends the text in the binary form. Where memory is refused a first part of it may stand, which the caller
/// takes back.
#[tactic(auto, using(netlist::proofs::Facts::few_gates_of), unfolding(crate::specs::BinaryText::binary_text))]
fn append_binary(text: &mut Vec<u8>, circuit: &Circuit) -> Result<(), AllocError>
    requires { IsInSequence circuit.now }
    ensures ok { OnOk result (text.new.items ≡ text.old.items ++ binary_text circuit.now) }
    ensures err { OnErr result (Begins text.old.items text.new.items) }
{
    let variables = circuit.inputs().len() + circuit.gates().len();
    push_header(text, b'i', variables as u32, circuit)?;
    push_outputs_and_constraints(text, circuit)?;
    push_deltas(text, circuit)?;
    push_symbols(text, circuit)
}
