//! Circuits, pairs of circuits, and the miter that asks whether a pair differs.
//!
//! A `Circuit` is an and-inverter graph as AIGER has it (Biere 2007; version 1.9, 2011): input variables,
//! AND gates in order, output literals, constraint literals and names, which are its `Parts`. A constraint
//! says of the inputs which ones count: an input is admitted where the constraints of both circuits are true
//! on it. A `Net` is two circuits over the same inputs, whose nodes, positions, literals and clauses its
//! readers answer exactly. `Net::miter` gives the clauses (Tseitin 1968) that are satisfiable exactly if the
//! two circuits differ on some admitted input (`laws`). `Net::{set_gate, put_gate, drop_gate, set_output}`
//! edit one side in place; no edit changes a constraint.
//!
//! Definitions: `specs/Circuit.antt` (circuits and the values of their literals), `specs/Net.antt`
//! (nodes, positions, values, which inputs are admitted, what it means to agree on them),
//! `specs/Miter.antt` (clauses and their numbers), `specs/Edit.antt` (the edited circuit, and when an
//! edit may be made), `specs/Unlike.antt` (why two circuits are no net), `specs/ByName.antt` (the same by
//! the names of inputs and outputs, and a circuit in another one's order). The others say what single
//! types of the code keep: `specs/VariableTable.antt`, `Source.antt`, `Place.antt`, `Pair.antt`,
//! `Short.antt`, `Starts.antt`, `Tables.antt`, `Numbered.antt`, `NameIndex.antt`. Begin to read at
//! `gate.rt`: a `Circuit` has its `Parts`, and a `VariableTable` finds its variables; a `CircuitPair`
//! makes nodes of two circuits and `Axioms` of their clauses; `Tables` keep what is read of every gate;
//! all this is behind a `Net`. An edit goes the same way: `Net`, `CircuitPair`, `Circuit`. `by_name.rt`
//! puts a circuit into another one's order, by a `NameIndex`.
#![tactic(auto)]

pub use axioms::Axioms;
pub use circuit::Circuit;
pub use gate::{And, Definition, Fanins, Placed};
pub use net::Net;
pub use parts::Parts;
pub use port::Port;
pub use short::Short;
pub use symbol_names::{NameList, Names};
pub use unlike::Unlike;
pub use variable_table::VariableTable;

mod axioms;
mod by_name;
mod circuit;
mod gate;
pub mod laws;
mod miter;
mod name_index;
mod net;
mod pair;
mod parts;
mod port;
mod short;
mod starts;
mod tables;
mod unlike;
mod variable_table;
