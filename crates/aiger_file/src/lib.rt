//! Reading AIGER files of combinational circuits, in either form (A. Biere, The AIGER And-Inverter Graph
//! Format, 2007, and AIGER 1.9).
//!
//! `read` chooses by the first four bytes between the readers of `aiger_ascii` and `aiger_binary`, and
//! answers the circuit that the bytes spell, or their first fault, and nothing else but want of memory.
//! Bytes of neither form are a bad header.
//!
//! Definitions: `specs/File.antt` (which bytes spell which circuit) stands on those of the two readers.
//! Begin to read at `lib.rt`: `read` is all that the crate does.
#![tactic(auto)]

ghost use Rattle.std.specs.Prelude.{◌≡◌};
ghost use Rattle.byte_scan.specs.Reading.{Gives};
ghost use Rattle.aiger_file.specs.File.{aiger_in, is_form};

use byte_scan::AigerErr;
use netlist::Circuit;
use std::alloc::Global;

/// Reads an AIGER file: the circuit that the bytes spell, or their first fault.
#[tactic(auto, unfolding(crate::specs::File::aiger_in))]
pub fn read(alloc: Global, bytes: &[u8]) -> Result<Circuit, AigerErr>
    ensures { Gives result (aiger_in bytes.now) }
{
    if is_form(bytes, b'a') {
        return aiger_ascii::read(alloc, bytes);
    }
    if is_form(bytes, b'i') {
        return aiger_binary::read(alloc, bytes);
    }
    Err(AigerErr::BadHeader)
}

/// Whether the bytes begin with `a`, this letter, `g` and a space.
fn is_form(bytes: &[u8], letter: u8) -> bool
    ensures { result ≡ is_form letter bytes.now }
{
    match bytes {
        [b'a', second, b'g', b' ', ..] => *second == letter,
        _ => false,
    }
}
