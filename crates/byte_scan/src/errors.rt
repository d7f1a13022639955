ghost use Rattle.std.specs.Prelude.{◌≡◌};
ghost use Rattle.byte_scan.specs.declared.errors.AigerErr.TheVariants.{NoMemory};

use crate::header_line::VARIABLE_LIMIT;
use std::alloc::{AllocError, AllocFailed};
use std::fmt::{self, Debug, Display, Formatter, Write};
use thiserror::Error;

/// The first fault of an AIGER file. Places count bytes from 0, literals are the file's.
#[derive(Clone, Copy, PartialEq, Eq, Error)]
pub enum AigerErr {
    #[error("bad header")]
    BadHeader,
    /// A number of the header.
    #[error("{0} is above {limit}", limit = VARIABLE_LIMIT)]
    TooLarge(u64),
    /// How many.
    #[error("{0} latches")]
    HasLatches(u64),
    /// The section's letter: `B`, `J` or `F`.
    #[error("section {} is not supported", char::from(*.0))]
    HasProperty(u8),
    /// The place of the byte that stands where a number, a space or a line's end is due.
    #[error("bad number at byte {0}")]
    BadNumber(u64),
    /// The literal.
    #[error("bad literal {0}")]
    BadLiteral(u64),
    /// The literal.
    #[error("literal {0} is defined twice")]
    DefinedTwice(u64),
    /// The literal.
    #[error("literal {0} is undefined")]
    Undefined(u64),
    /// The gate's literal.
    #[error("literal {0} is on or above a cycle")]
    Cycle(u64),
    /// The gate's number in the file, from 0.
    #[error("bad delta at gate {0}")]
    BadDelta(u64),
    /// The length of the input.
    #[error("ends too early at byte {0}")]
    Truncated(u64),
    /// The place of the line's first byte.
    #[error("bad symbol line at byte {0}")]
    BadSymbol(u64),
    #[error("out of memory")]
    NoMemory,
}

/// A fault is shown by its text everywhere.
impl Debug for AigerErr {
    fn fmt<W: Write>(&self, to: &mut Formatter<W>) -> fmt::Result {
        Display::fmt(self, to)
    }
}

impl From<AllocError> for AigerErr {
    ghost from_gives = { λ _ e. e ≡ NoMemory };

    fn from(_: AllocError) -> AigerErr {
        AigerErr::NoMemory
    }
}

impl<T: Drop> From<AllocFailed<T>> for AigerErr {
    ghost from_gives = { λ _ e. e ≡ NoMemory };

    fn from(_: AllocFailed<T>) -> AigerErr {
        AigerErr::NoMemory
    }
}
