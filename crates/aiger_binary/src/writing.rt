ghost use Rattle.std.specs.Prelude.{◌≡◌, IfOk, IsSome};
ghost use Rattle.circuit_text.specs.BinaryText.{binary_text, IsInSequence};
ghost use Rattle.desk_port.specs.Desk.{NoCountFalls};
ghost use Rattle.desk_port.specs.Pieces.{WritesInPieces};

use circuit_text::push_binary;
use desk_port::{Desk, PutErr, put_in_pieces};
use netlist::Circuit;
use std::alloc::{AllocError, Global};

/// Writes the circuit's text in the binary form to the started file in pieces.
pub fn print<D: Desk>(alloc: Global, desk: &mut D, circuit: &Circuit) -> Result<(), PutErr>
    requires started { IsSome (D.state desk.old).started }
    requires sequence { IsInSequence circuit.now }
    ensures answer { WritesInPieces (binary_text circuit.now) (D.state desk.old) (D.state desk.new)
        (D.sizes desk.old) (D.sizes desk.new) result }
    ensures counts { NoCountFalls (D.state desk.old) (D.state desk.new) }
{
    let text = text(alloc, circuit)?;
    put_in_pieces(alloc, desk, text.as_slice())
}

fn text(alloc: Global, circuit: &Circuit) -> Result<Vec<u8>, AllocError>
    requires { IsInSequence circuit.now }
    ensures { IfOk result (λ v. v.items ≡ binary_text circuit.now) }
{
    let mut text = Vec::new(alloc);
    push_binary(&mut text, circuit)?;
    Ok(text)
}
