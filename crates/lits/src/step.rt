use crate::clause::Clause;
use crate::hints::Hints;
use crate::literal::Lit;
use crate::node::{Node, Side};

/// The name of a clause that a proof step cites.
#[derive(Clone, Copy, PartialEq, Eq)]
pub enum Ref {
    /// Clause `k`, from 0, of those that define the node.
    Axiom(Node, u8),
    /// Clause `k`, from 0, that an entry of the lemma book shows.
    Entry(u64, u8),
    /// The clause of an earlier step of the same list, from 0.
    Own(u64),
    /// The unit clause that says that constraint `k`, from 0, of one side is true.
    Bound(Side, u32),
}

/// A step of a proof: a clause, and the clauses that show it by unit propagation, in order.
pub struct Step {
    pub clause: Clause<Lit>,
    pub hints: Hints,
}

// Written out, so that a drop is one call and not one for each field at each exit of a function.
impl Drop for Step {
    fn drop(self) {
        let Step {
            clause: _,
            hints: _,
        } = self;
    }
}

/// A clause with its name.
#[derive(Drop)]
pub struct Named {
    pub clause: Clause<Lit>,
    pub by: Ref,
}
