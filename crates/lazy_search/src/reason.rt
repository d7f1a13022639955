/// Why a code is true, or which clause is false.
///
/// A gate is no clause that stands anywhere: its reasons name the variable, whose record has the codes.
#[derive(Clone, Copy)]
pub(crate) enum Reason {
    /// It was assumed or chosen.
    Choice,
    /// The variable is false, or its first fanin is true.
    First(u32),
    /// The variable is false, or its second fanin is true.
    Second(u32),
    /// The variable is true, or one of its fanins is false.
    Both(u32),
    /// The clause of this number among those that aren't a gate's.
    Listed(u32),
}
