use std::alloc::AllocError;
use thiserror::Error;

/// The line isn't one of a script.
#[derive(Clone, Copy, Debug, PartialEq, Eq, Error)]
#[error("bad line")]
pub struct BadLine;

/// Why an edit isn't made. The net is then unchanged.
#[derive(Clone, Copy, Debug, PartialEq, Eq, Error)]
pub enum EditErr {
    /// A number of the edit is none that a line may have.
    #[error("bad line")]
    BadLine,
    /// The literal of no gate, where one is named that has to be there.
    #[error("no gate {0}")]
    NoGate(u32),
    /// A literal whose variable the circuit hasn't.
    #[error("no literal {0}")]
    NoLiteral(u32),
    /// A fanin that doesn't stand before its gate.
    #[error("literal {0} is not earlier")]
    NotEarlier(u32),
    /// The literal of a new gate whose variable the circuit has.
    #[error("literal {0} is taken")]
    Taken(u32),
    /// The literal of a gate that a gate, an output or a constraint reads.
    #[error("gate {0} is in use")]
    InUse(u32),
    /// The index of no output.
    #[error("no output {0}")]
    NoOutput(u32),
    /// The circuit has as many gates as a circuit may have.
    #[error("too many gates")]
    GateLimit,
    #[error("out of memory")]
    NoMemory,
}

impl From<AllocError> for EditErr {
    ghost use Rattle.std.specs.Prelude.{◌≡◌};
    ghost use Rattle.netlist_edits.specs.declared.error.EditErr.TheVariants.{NoMemory};

    ghost from_gives = { λ _ e. e ≡ NoMemory };

    fn from(_error: AllocError) -> EditErr {
        EditErr::NoMemory
    }
}
