ghost use Rattle.std.specs.Prelude.{◌≡◌, ◌++◌, OnOk, OnErr};
ghost use Rattle.tokens.specs.Text.{Begins};
ghost use Rattle.std.specs.Option.{option_copied};
ghost use Rattle.circuit_text.specs.Symbols.{symbol_line, symbol_lines, symbols_text};

use netlist::Circuit;
use std::alloc::AllocError;
use tokens::push_number;

/// Appends the symbols: the names of the inputs, then those of the outputs.
pub(crate) fn push_symbols(text: &mut Vec<u8>, circuit: &Circuit) -> Result<(), AllocError>
    ensures ok { OnOk result (text.new.items ≡ text.old.items ++ symbols_text circuit.now.names) }
    ensures err { OnErr result (Begins text.old.items text.new.items) }
{
    push_input_symbols(text, circuit)?;
    push_output_symbols(text, circuit)
}

fn push_input_symbols(text: &mut Vec<u8>, circuit: &Circuit) -> Result<(), AllocError>
    ensures ok { OnOk result (text.new.items ≡ text.old.items ++ symbol_lines 105 0 circuit.now.names.inputs) }
    ensures err { OnErr result (Begins text.old.items text.new.items) }
{
    let count = circuit.inputs().len() as u32;
    for k in 0..count {
        push_symbol(text, b'i', k, circuit.input_name(k))?;
    }
    Ok(())
}

fn push_output_symbols(text: &mut Vec<u8>, circuit: &Circuit) -> Result<(), AllocError>
    ensures ok { OnOk result (text.new.items ≡ text.old.items ++ symbol_lines 111 0 circuit.now.names.outputs) }
    ensures err { OnErr result (Begins text.old.items text.new.items) }
{
    let count = circuit.outputs().len() as u32;
    for j in 0..count {
        push_symbol(text, b'o', j, circuit.output_name(j))?;
    }
    Ok(())
}

/// Appends the line of a place, where it has a name.
#[tactic(auto, unfolding(crate::specs::Symbols::symbol_line))]
fn push_symbol(
    text: &mut Vec<u8>,
    letter: u8,
    place: u32,
    name: Option<&[u8]>,
) -> Result<(), AllocError>
    ensures ok { OnOk result
        (text.new.items ≡ text.old.items ++ symbol_line letter place (option_copied name.entry)) }
    ensures err { OnErr result (Begins text.old.items text.new.items) }
{
    let Some(name) = name else {
        return Ok(());
    };
    text.push(letter)?;
    push_number(text, u64::from(place))?;
    text.push(b' ')?;
    text.extend_from_slice(name)?;
    text.push(b'\n')?;
    Ok(())
}
