//! The laws that the readers of AIGER read each circuit's text back (A. Biere, The AIGER And-Inverter Graph
//! Format, 2007; AIGER 1.9, 2011).
//!
//! `circuit_text` defines the text of a circuit, with its constraints and names, in both forms, and writes it
//! with no word of the readers' grammar. The laws say that each text spells the circuit that it is written
//! from, and so both texts of one circuit are read as that circuit; a reader whose definition and code are
//! wrong alike on such a file is refuted.
//!
//! Nothing here runs. Begin to read at `laws.rt`.
#![tactic(auto)]

mod laws;

pub use laws::{written_ascii, written_binary, written_in_both_forms};
