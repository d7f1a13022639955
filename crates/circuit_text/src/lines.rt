ghost use Rattle.std.specs.Prelude.{◌≡◌, ◌++◌, ◌∷◌, OnOk, OnErr};
ghost use Rattle.tokens.specs.Text.{Begins};
ghost use Rattle.std.specs.List.{flat_map};
ghost use Rattle.circuit_text.specs.AsciiText.{gate_line, input_line};
ghost use Rattle.circuit_text.specs.Lines.{header_line, literal_line, number_line};

use netlist::{And, Circuit};
use std::alloc::AllocError;
use tokens::push_number;

/// Appends the header's line, by the form's letter and M.
pub(crate) fn push_header(
    text: &mut Vec<u8>,
    letter: u8,
    m: u32,
    circuit: &Circuit,
) -> Result<(), AllocError>
    ensures ok { OnOk result (text.new.items ≡ text.old.items ++ header_line letter m circuit.now) }
    ensures err { OnErr result (Begins text.old.items text.new.items) }
{
    let inputs = circuit.inputs().len() as u64;
    let outputs = circuit.outputs().len() as u64;
    let gates = circuit.gates().len() as u64;
    let constraints = circuit.constraints().len() as u64;
    text.extend_from_slice(&[b'a', letter, b'g', b' '])?;
    if constraints == 0 {
        push_line(text, u64::from(m), &[inputs, 0, outputs, gates])
    } else {
        push_line(
            text,
            u64::from(m),
            &[inputs, 0, outputs, gates, 0, constraints],
        )
    }
}

/// Appends the lines of the inputs.
pub(crate) fn push_inputs(text: &mut Vec<u8>, inputs: &[u32]) -> Result<(), AllocError>
    ensures ok { OnOk result (text.new.items ≡ text.old.items ++ flat_map input_line inputs.now) }
    ensures err { OnErr result (Begins text.old.items text.new.items) }
{
    for var in inputs {
        push_line(text, 2 * u64::from(*var), &[])?;
    }
    Ok(())
}

/// Appends the lines of the outputs, then those of the constraints.
pub(crate) fn push_outputs_and_constraints(
    text: &mut Vec<u8>,
    circuit: &Circuit,
) -> Result<(), AllocError>
    ensures ok { OnOk result (text.new.items ≡ text.old.items
        ++ flat_map literal_line circuit.now.outputs ++ flat_map literal_line circuit.now.constraints) }
    ensures err { OnErr result (Begins text.old.items text.new.items) }
{
    push_literals(text, circuit.outputs())?;
    push_literals(text, circuit.constraints())
}

/// Appends a line for each literal.
fn push_literals(text: &mut Vec<u8>, literals: &[u32]) -> Result<(), AllocError>
    ensures ok { OnOk result (text.new.items ≡ text.old.items ++ flat_map literal_line literals.now) }
    ensures err { OnErr result (Begins text.old.items text.new.items) }
{
    for literal in literals {
        push_line(text, u64::from(*literal), &[])?;
    }
    Ok(())
}

/// Appends the lines of the gates.
pub(crate) fn push_gates(text: &mut Vec<u8>, gates: &[And]) -> Result<(), AllocError>
    ensures ok { OnOk result (text.new.items ≡ text.old.items ++ flat_map gate_line gates.now) }
    ensures err { OnErr result (Begins text.old.items text.new.items) }
{
    for gate in gates {
        let fanins = [u64::from(gate.left), u64::from(gate.right)];
        push_line(text, 2 * u64::from(gate.var), &fanins)?;
    }
    Ok(())
}

/// Appends a line of numbers.
#[tactic(auto, unfolding(crate::specs::Lines::number_line))]
fn push_line(text: &mut Vec<u8>, first: u64, rest: &[u64]) -> Result<(), AllocError>
    ensures ok { OnOk result (text.new.items ≡ text.old.items ++ number_line (first ∷ rest.now)) }
    ensures err { OnErr result (Begins text.old.items text.new.items) }
{
    push_number(text, first)?;
    for number in rest {
        text.push(b' ')?;
        push_number(text, *number)?;
    }
    text.push(b'\n')?;
    Ok(())
}
