use std::alloc::{AllocError, AllocFailed};
use thiserror::Error;

/// Why a text is no proof text, with the number of the line from 1.
#[derive(Clone, Copy, Debug, PartialEq, Eq, Error)]
pub enum LratErr {
    /// A word is no number, has a size or a sign that its place doesn't allow, or stands behind the last 0.
    #[error("line {0}: bad number")]
    BadNumber(u64),
    /// A 0 is missing.
    #[error("line {0}: ends too early")]
    Truncated(u64),
    /// An addition's id isn't above those before it, or is that of a clause of the formula.
    #[error("line {0}: id out of order")]
    Order(u64),
    /// A hint is negative, as in a step of the kind RAT.
    #[error("line {0}: negative hint")]
    Rat(u64),
    #[error("out of memory")]
    NoMemory,
}

impl From<AllocError> for LratErr {
    ghost use Rattle.std.specs.Prelude.{◌≡◌};
    ghost use Rattle.lrat_text.specs.declared.error.LratErr.TheVariants.{NoMemory};

    ghost from_gives = { λ _ e. e ≡ NoMemory };

    fn from(_error: AllocError) -> LratErr {
        LratErr::NoMemory
    }
}

impl<T: Drop> From<AllocFailed<T>> for LratErr {
    ghost use Rattle.std.specs.Prelude.{◌≡◌};
    ghost use Rattle.lrat_text.specs.declared.error.LratErr.TheVariants.{NoMemory};

    ghost from_gives = { λ _ e. e ≡ NoMemory };

    fn from(_failed: AllocFailed<T>) -> LratErr {
        LratErr::NoMemory
    }
}
