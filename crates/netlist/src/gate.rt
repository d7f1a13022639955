use lits::{Lit, Node};

/// An AND gate: the variable that it defines, and its fanins as AIGER literals.
///
/// Variable v is the literal 2v, and its negation 2v + 1; 0 is false and 1 is true.
#[derive(Clone, Copy, PartialEq, Eq)]
pub struct And {
    pub var: u32,
    pub left: u32,
    pub right: u32,
}

/// What defines a node of a net: a gate is the AND of the two literals, an XOR tells whether they differ.
#[derive(Clone, Copy, PartialEq, Eq)]
pub struct Definition {
    pub node: Node,
    pub left: Lit,
    pub right: Lit,
}

/// A literal by the position of its node.
#[derive(Clone, Copy, PartialEq, Eq)]
pub struct Placed {
    pub position: u32,
    pub neg: bool,
}

/// The two literals that a gate is the AND of, by their positions.
#[derive(Clone, Copy, PartialEq, Eq)]
pub struct Fanins {
    pub left: Placed,
    pub right: Placed,
}

/// What gives a variable of a circuit its value.
#[derive(Clone, Copy)]
pub enum Source {
    /// The variable 0, which is false.
    Constant,
    /// The input of this index.
    Input(u32),
    /// The gate of this index.
    Gate(u32),
}
