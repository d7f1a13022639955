ghost use Rattle.std.specs.Prelude.{◌≡◌};
ghost use Rattle.endings.specs.Status.{code_of};

/// How a command ends. Each way has an exit status of its own, for scripts.
#[derive(Clone, Copy, PartialEq, Eq)]
pub enum Status {
    /// The circuits are equivalent, the proof refutes the formula, or help was said.
    Done,
    /// The circuits differ, or the proof doesn't refute the formula.
    No,
    /// Some output is neither shown equal nor shown to differ.
    Undecided,
    /// The arguments were refused.
    BadUsage,
    /// A file, or the pair of circuits, was refused.
    BadInput,
    /// A file couldn't be read.
    CannotRead,
    /// A file or a stream couldn't be written.
    CannotWrite,
    OutOfMemory,
}

impl Status {
    /// The exit status of the process.
    pub fn code(self) -> u8
        ensures { result ≡ code_of self }
    {
        match self {
            Status::Done => 0,
            Status::No => 1,
            Status::Undecided => 2,
            Status::BadUsage => 3,
            Status::BadInput => 4,
            Status::CannotRead => 5,
            Status::CannotWrite => 6,
            Status::OutOfMemory => 7,
        }
    }
}
