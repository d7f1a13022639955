/// One of the two circuits that are compared.
#[derive(Clone, Copy, PartialEq, Eq, Hash)]
pub enum Side {
    A,
    B,
}

/// A node of the pair of circuits. Both circuits read the same inputs.
///
/// Inputs and XORs are named by their index from 0, gates by their circuit and their AIGER variable, so that
/// an edit of one gate renames no other node.
#[derive(Clone, Copy, PartialEq, Eq, Hash)]
pub enum Node {
    /// The constant true.
    Const,
    Input(u32),
    Gate(Side, u32),
    /// True exactly where the two circuits' outputs of this index differ.
    Xor(u32),
}
