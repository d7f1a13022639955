//! Binary AIGER files (A. Biere, The AIGER And-Inverter Graph Format, 2007, and AIGER 1.9) of combinational
//! circuits: reading them, and writing one to a desk.
//!
//! `read` answers the circuit that the bytes spell, or their first fault, with its place or number, and
//! nothing else but want of memory. `specs/Binary.antt` says what bytes spell and in which order faults are
//! judged. `print` writes the text that `circuit_text` defines for a circuit in AIGER's order; that `read`
//! gives that circuit back is promised in `aiger_text`.
//!
//! The reader goes over the bytes once. Begin to read at `reader.rt`, then `writing.rt`.
#![tactic(auto)]

mod gates;
mod reader;
mod writing;

pub use reader::read;
pub use writing::print;
