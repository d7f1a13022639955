//! The names that a circuit's inputs and outputs may have, as the symbol table of an AIGER file gives them
//! (A. Biere, The AIGER And-Inverter Graph Format, 2007).
//!
//! Contracts see a `NameList` as a list with one place per input, or per output, each a name or none
//! (`specs/NameList.antt`, `specs/Names.antt`). It takes a name's bytes and two words for each place up to
//! the last that was given one, and nothing where no name was given. Begin to read at `name_list.rt`.
#![tactic(auto)]

mod name_list;
mod names;

pub use name_list::NameList;
pub use names::Names;
