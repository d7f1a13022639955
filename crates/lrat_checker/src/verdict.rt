use unit_prop::BadStep;

/// What a checker says of the lines of a proof.
#[derive(Clone, Copy, PartialEq, Eq)]
pub enum Verdict {
    /// Each line is a step, and one adds the empty clause.
    Refuted,
    /// Each line is a step, and none adds the empty clause.
    NoEmpty,
    /// The first line that is no step, by its number in the text, and its first fault.
    Bad { line: u64, fault: BadStep },
}
