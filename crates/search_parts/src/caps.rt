/// How far a search goes before it gives up.
#[derive(Clone, Copy)]
pub struct Caps {
    /// How many clauses it may learn.
    pub conflicts: u64,
    /// How many gates it may justify by a choice.
    pub decisions: u64,
}
