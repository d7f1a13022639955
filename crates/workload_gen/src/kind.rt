/// Which function the two circuits compute.
#[derive(Clone, Copy)]
pub enum Kind {
    /// The sum of two numbers of N bits.
    Adder,
    /// Whether an odd number of N bits is true.
    Parity,
    /// Whether the first of two numbers of N bits is less than the second.
    Comparator,
}
