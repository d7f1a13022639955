//! The text of a circuit in both forms of AIGER (A. Biere, The AIGER And-Inverter Graph Format, 2007; AIGER
//! 1.9, 2011), with its constraints and names.
//!
//! The definitions write a circuit plainly, line by line, and know nothing of the readers' grammar:
//! `specs/AsciiText.antt` has the ASCII form and `specs/BinaryText.antt` the binary one, which only circuits
//! in AIGER's order have; both stand on `specs/Lines.antt` and, for the names, on `specs/Symbols.antt`.
//! `push_ascii` and `push_binary` append exactly these texts, and nothing where memory is refused. That the
//! readers read each text back as its circuit is promised above them, in `aiger_text`.
//!
//! Begin to read at `specs/AsciiText.antt`, then `writing.rt`, and as data flows `lines.rt`, `deltas.rt` and
//! `symbols.rt`.
#![tactic(auto)]

mod deltas;
mod lines;
mod symbols;
mod writing;

pub use writing::{push_ascii, push_binary};
