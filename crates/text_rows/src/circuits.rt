//! What the readers of circuits are compared by.
use crate::checks::check_bytes;
use byte_scan::AigerErr;
use netlist::{And, Circuit};
use std::process::Abort;

/// Compares the fault of a text, or `None` where it was read.
pub(crate) fn check_fault(
    rt: &impl Abort,
    bytes: &[u8],
    found: Option<AigerErr>,
    want: Option<AigerErr>,
) {
    check_bytes(rt, bytes, found == want);
}

/// Whether a circuit was read with this gate alone.
pub(crate) fn has_gate(found: &Result<Circuit, AigerErr>, gate: And) -> bool {
    match found {
        Ok(circuit) => circuit.gates() == [gate].as_slice(),
        Err(_) => false,
    }
}

/// Whether a circuit was read with two inputs, and with its first gate as its one output.
fn has_ends(found: &Result<Circuit, AigerErr>) -> bool {
    match found {
        Ok(circuit) => {
            circuit.inputs() == [1, 2].as_slice() && circuit.outputs() == [6].as_slice()
        }
        Err(_) => false,
    }
}

/// Whether a circuit of two inputs was read whose one output is the AND of them, with its fanins in this
/// order.
pub(crate) fn is_and(found: Result<Circuit, AigerErr>, left: u32, right: u32) -> bool {
    let gate = And {
        var: 3,
        left,
        right,
    };
    has_gate(&found, gate) && has_ends(&found)
}

/// Whether a circuit was read with these constraints.
pub(crate) fn has_constraints(found: &Result<Circuit, AigerErr>, want: &[u32]) -> bool {
    match found {
        Ok(circuit) => circuit.constraints() == want,
        Err(_) => false,
    }
}

/// The name of an input of a circuit that was read.
pub(crate) fn input_name(found: &Result<Circuit, AigerErr>, k: u32) -> Option<&[u8]> {
    match found {
        Ok(circuit) => circuit.input_name(k),
        Err(_) => None,
    }
}

/// The name of an output of a circuit that was read.
pub(crate) fn output_name(found: &Result<Circuit, AigerErr>, j: u32) -> Option<&[u8]> {
    match found {
        Ok(circuit) => circuit.output_name(j),
        Err(_) => None,
    }
}

/// Whether a name is these bytes, or none where there are no bytes.
pub(crate) fn is_named(found: Option<&[u8]>, want: &[u8]) -> bool {
    match found {
        Some(name) => !want.is_empty() && name == want,
        None => want.is_empty(),
    }
}
