/// The numbers that a check goes by.
#[derive(Clone, Copy)]
pub struct Options {
    /// How many workers settle pairs of nodes and outputs, 1 to 64.
    pub workers: u32,
    /// The seed of the first patterns.
    pub seed: u64,
    /// How many words of 64 patterns are drawn for each input, 1 to 64.
    pub words: u32,
    /// How many clauses the query of a pair of nodes may learn, 1 to 1,000,000,000.
    pub sweep_budget: u64,
    /// How many clauses the query of an output may learn, 1 to 1,000,000,000.
    pub out_budget: u64,
    /// Whether inputs and outputs are matched by their names, and not by their positions.
    pub by_name: bool,
}
