use std::alloc::{AllocError, AllocFailed};
use thiserror::Error;

/// Why bytes are no lemma file, with the number of the line from 1.
#[derive(Clone, Copy, Debug, PartialEq, Eq, Error)]
pub enum BookErr {
    /// The line has another form than those that may stand there, or a literal of its step stands twice or
    /// beside its negation.
    #[error("line {0}: bad line")]
    BadLine(u64),
    /// The line, or its LF, is still due where the bytes end.
    #[error("line {0}: ends too early")]
    Truncated(u64),
    #[error("out of memory")]
    NoMemory,
}

impl From<AllocError> for BookErr {
    ghost use Rattle.std.specs.Prelude.{◌≡◌};
    ghost use Rattle.book_file.specs.declared.error.BookErr.TheVariants.{NoMemory};

    ghost from_gives = { λ _ e. e ≡ NoMemory };

    fn from(_error: AllocError) -> BookErr {
        BookErr::NoMemory
    }
}

impl<T: Drop> From<AllocFailed<T>> for BookErr {
    ghost use Rattle.std.specs.Prelude.{◌≡◌};
    ghost use Rattle.book_file.specs.declared.error.BookErr.TheVariants.{NoMemory};

    ghost from_gives = { λ _ e. e ≡ NoMemory };

    fn from(_failed: AllocFailed<T>) -> BookErr {
        BookErr::NoMemory
    }
}
