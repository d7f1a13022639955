//! A workload from a kind and a number: two circuits of one function in two architectures.
//!
//! `make` gives them as the bytes of two AIGER files, one in each form, and promises that the readers read
//! these back as the circuits that the definitions build. That both circuits compute one function no clause
//! says: a check of them does. Adders, comparators and parities in two architectures are the classic hard
//! cases of equivalence checking.
//!
//! Data flows from `builder.rt` (gates, one at a time, and what is made of them) by `parity.rt`, `adder.rt`
//! and `comparator.rt` (the architectures) to `design.rt` (the bytes). Definitions:
//! `specs/Workload.antt` (the bytes of a kind and a number), over `specs/Adder.antt`,
//! `specs/Comparator.antt` and `specs/Parity.antt` (the architectures) and `specs/Gates.antt` (what each
//! construction adds to a list of gates). Begin to read at `workload.rt`.
#![tactic(auto)]

pub use kind::Kind;
pub use laws::circuits_are_alike;
pub use workload::{MOST_BITS, make};

mod adder;
mod builder;
mod comparator;
mod design;
mod kind;
mod laws;
mod parity;
mod workload;
