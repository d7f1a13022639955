/// The nine numbers of an AIGER header, under the letters of its definition.
#[derive(Clone, Copy)]
pub struct Header {
    /// The greatest variable.
    pub m: u32,
    /// Inputs.
    pub i: u32,
    /// Latches.
    pub l: u32,
    /// Outputs.
    pub o: u32,
    /// Gates.
    pub a: u32,
    /// Bad states.
    pub b: u32,
    /// Invariant constraints.
    pub c: u32,
    /// Justice properties.
    pub j: u32,
    /// Fairness constraints.
    pub f: u32,
}
