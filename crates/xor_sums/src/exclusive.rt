/// A gate that is the exclusive OR of two codes.
#[derive(Clone, Copy)]
pub struct Exclusive {
    pub left: u32,
    pub right: u32,
}

impl Exclusive {
    /// Whether the gate's variable is the complement of the sum of both variables.
    pub fn is_odd(self) -> bool {
        (self.left ^ self.right) & 1 == 1
    }
}
