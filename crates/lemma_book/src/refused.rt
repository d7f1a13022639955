use unit_prop::BadStep;

/// What becomes of an entry that is offered to a book and isn't refused: the entry's place, from 0, or
/// that of the entry that settles it.
#[derive(Clone, Copy, Debug, PartialEq, Eq)]
pub enum Offered {
    At(u64),
    Already(u64),
}

/// What is wrong with an entry.
#[derive(Clone, Copy, Debug)]
pub enum Fault {
    /// The net hasn't a node, an output, or the node of a literal of some step.
    NoNode,
    /// The target isn't earlier in position than the node.
    NotEarlier,
    /// The last clauses aren't those that the entry shows.
    Shape,
    /// There are too many steps, or the log isn't that of the whole budget.
    Count,
    /// More entries were seen than there are.
    Seen,
    /// The step at this place, from 0, is none.
    Step(u64, BadStep),
    /// The log's clause at this place, from 0, isn't new, or the output was shown equal before it.
    NotNew(u64),
}

/// Why an entry is refused.
#[derive(Clone, Copy, Debug)]
pub enum Refused {
    Bad(Fault),
    /// The input has another length, or the values are equal on it, or for an output it isn't admitted.
    NotApart,
    NoMemory,
}

/// What a book says of an entry, before it takes it.
#[derive(Clone, Copy)]
pub enum Judgement {
    Good,
    /// The entry at this place settles it.
    Settled(u64),
    /// The input has another length, or the values are equal on it, or for an output it isn't admitted.
    NotApart,
    Bad(Fault),
}
