use lits::{Dim, Listed};

/// A step of a proof, which changes the clauses that are live.
#[derive(Drop)]
pub enum LratStep {
    /// A clause joins the live ones under an id of its own; the hints are the ids of the clauses that show
    /// it.
    Add {
        id: u64,
        clause: Listed<Dim>,
        hints: Listed<u64>,
    },
    /// The clauses with these ids are live no more.
    Del {
        ids: Listed<u64>,
    },
}

/// A step of a proof text, and the number of its line from 1.
#[derive(Drop)]
pub struct Line {
    pub at: u64,
    pub step: LratStep,
}
