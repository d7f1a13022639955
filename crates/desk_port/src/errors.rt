//! Why a call of a desk refused.
ghost use Rattle.std.specs.Prelude.{◌≡◌};
ghost use Rattle.desk_port.specs.declared.errors.PutErr.TheVariants as not_put;
ghost use Rattle.desk_port.specs.declared.errors.ReadErr.TheVariants as not_read;

use std::alloc::{AllocError, AllocFailed};

/// Why a file wasn't read.
#[derive(Clone, Copy, Debug, PartialEq, Eq)]
pub enum ReadErr {
    /// It is missing, or the outside failed; the count of read faults rose.
    Failed,
    /// It has more bytes than the caller's limit.
    TooLong,
    /// Memory ran out.
    NoMemory,
}

/// Why bytes weren't put out, or a file not started or closed.
#[derive(Clone, Copy, Debug, PartialEq, Eq)]
pub enum PutErr {
    /// The outside failed; the count of the call's kind rose.
    Failed,
    /// Memory ran out.
    NoMemory,
}

impl From<AllocError> for ReadErr {
    ghost from_gives = { λ _ e. e ≡ not_read.NoMemory };

    fn from(_e: AllocError) -> ReadErr {
        ReadErr::NoMemory
    }
}

impl<T: Drop> From<AllocFailed<T>> for ReadErr {
    ghost from_gives = { λ _ e. e ≡ not_read.NoMemory };

    fn from(_e: AllocFailed<T>) -> ReadErr {
        ReadErr::NoMemory
    }
}

impl From<AllocError> for PutErr {
    ghost from_gives = { λ _ e. e ≡ not_put.NoMemory };

    fn from(_e: AllocError) -> PutErr {
        PutErr::NoMemory
    }
}

impl<T: Drop> From<AllocFailed<T>> for PutErr {
    ghost from_gives = { λ _ e. e ≡ not_put.NoMemory };

    fn from(_e: AllocFailed<T>) -> PutErr {
        PutErr::NoMemory
    }
}
