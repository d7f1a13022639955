use std::time::Instant;

/// What is wanted of the checks besides their verdicts.
#[derive(Clone, Copy)]
pub(crate) struct Wants<'a> {
    /// What the names of the written files begin with, if any are to be written.
    pub(crate) out: Option<&'a str>,
    /// The name of the file for an input on which circuits differ, if one is to be left.
    pub(crate) witness: Option<&'a str>,
    /// Whether the statistics of each check are warned behind its verdict.
    pub(crate) stats: bool,
    /// Whether the progress of each check is warned while it goes on.
    pub(crate) progress: bool,
    /// When the program began to read, if that is measured.
    pub(crate) begun: Option<Instant>,
}
