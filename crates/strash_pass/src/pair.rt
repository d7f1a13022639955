use crate::merged::Spot;

/// The roots of a gate's fanins.
#[derive(Clone, Copy)]
pub struct Pair {
    pub left: Spot,
    pub right: Spot,
}
