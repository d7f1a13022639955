//! Scanning the bytes of a text: the next byte, number or line, and what both forms of AIGER share, which
//! are the header line, lines of literals and the tail behind the gates (A. Biere, The AIGER And-Inverter
//! Graph Format, 2007, and AIGER 1.9).
//!
//! Contracts see a scan as its bytes and how many of them lie behind (`specs/Scanning.antt`), and each call
//! says exactly what it gives and where the scan then stands. `header` answers what the line spells, or its
//! first fault in the order of `specs/HeaderLine.antt`. `specs/Reading.antt` has the form of a reader's
//! contract, `Gives`, with the lines of literals and the tail; `specs/Faults.antt` how faults are put in
//! order. Only `tail` takes memory, for names.
//!
//! `AigerErr` is the error of the AIGER readers. No clause says what its `Display` writes: a test shows the
//! texts. Begin to read at `scan.rt`, then `header_line.rt`, `line.rt`, `symbols.rt`.
#![tactic(auto)]

mod counts;
mod errors;
mod header_line;
mod line;
mod scan;
mod symbols;

pub use counts::Header;
pub use errors::AigerErr;
pub use header_line::{VARIABLE_LIMIT, header};
pub use line::{literal_line, number, number_line, space, used};
pub use scan::{NUMBER_LIMIT, Scan};
pub use symbols::tail;
