use lits::Lit;

/// A literal of a trail.
#[derive(Clone, Copy, PartialEq, Eq)]
pub struct Put {
    pub lit: Lit,
    /// The level at which it was put.
    pub level: u64,
    /// The number of the clause that forced it; None where it was decided.
    pub by: Option<u64>,
}
