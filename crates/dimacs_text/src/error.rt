use std::alloc::{AllocError, AllocFailed};
use thiserror::Error;

/// Why a text is no CNF. Places count bytes from 0.
#[derive(Clone, Copy, Debug, PartialEq, Eq, Error)]
pub enum CnfErr {
    /// The text doesn't begin with `p cnf` and two numbers up to 2,147,483,647.
    #[error("bad header")]
    BadHeader,
    /// The place of a word behind the header that is no number.
    #[error("bad number at byte {0}")]
    BadNumber(u64),
    /// The variable, which is above the one that the header names. Those above 10^18 count as 10^18.
    #[error("variable of {0} is too large")]
    Var(u64),
    /// How many clauses the header announces, and how many there are.
    #[error("{0} clauses announced, {1} found")]
    Count(u64, u64),
    /// The length of the text, which ends inside a clause.
    #[error("ends too early at byte {0}")]
    Truncated(u64),
    #[error("out of memory")]
    NoMemory,
}

impl From<AllocError> for CnfErr {
    ghost use Rattle.std.specs.Prelude.{◌≡◌};
    ghost use Rattle.dimacs_text.specs.declared.error.CnfErr.TheVariants.{NoMemory};

    ghost from_gives = { λ _ e. e ≡ NoMemory };

    fn from(_error: AllocError) -> CnfErr {
        CnfErr::NoMemory
    }
}

impl<T: Drop> From<AllocFailed<T>> for CnfErr {
    ghost use Rattle.std.specs.Prelude.{◌≡◌};
    ghost use Rattle.dimacs_text.specs.declared.error.CnfErr.TheVariants.{NoMemory};

    ghost from_gives = { λ _ e. e ≡ NoMemory };

    fn from(_failed: AllocFailed<T>) -> CnfErr {
        CnfErr::NoMemory
    }
}
