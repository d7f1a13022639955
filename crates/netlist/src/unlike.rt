use crate::port::Port;
use lits::Side;
use std::alloc::{AllocError, AllocFailed};
use std::fmt::{self, Debug, Formatter, Write};

/// Why two circuits are no net.
#[derive(Clone, Copy, PartialEq, Eq)]
pub enum Unlike {
    /// The numbers of inputs differ.
    Inputs(u32, u32),
    /// The numbers of outputs differ.
    Outputs(u32, u32),
    /// The input or output of this index of one side has no name.
    NoName(Side, Port, u32),
    /// The input or output of this index of one side has the name of an earlier one.
    Doubled(Side, Port, u32),
    /// B has no input or output of the name that the one of this index of A has.
    Missing(Port, u32),
    NoMemory,
}

/// Tests alone show it.
impl Debug for Unlike {
    fn fmt<W: Write>(&self, to: &mut Formatter<W>) -> fmt::Result {
        match self {
            Unlike::Inputs(a, b) => write!(to, "inputs {a} and {b} differ"),
            Unlike::Outputs(a, b) => write!(to, "outputs {a} and {b} differ"),
            Unlike::NoName(_, _, k) => write!(to, "{k} has no name"),
            Unlike::Doubled(_, _, k) => write!(to, "{k} has the name of an earlier one"),
            Unlike::Missing(_, k) => write!(to, "{k} of a is missing in b"),
            Unlike::NoMemory => write!(to, "out of memory"),
        }
    }
}

impl From<AllocError> for Unlike {
    ghost use Rattle.std.specs.Prelude.{◌≡◌};
    ghost use Rattle.netlist.specs.declared.unlike.Unlike.TheVariants.{NoMemory};

    ghost from_gives = { λ _ e. e ≡ NoMemory };

    fn from(_error: AllocError) -> Unlike {
        Unlike::NoMemory
    }
}

impl<T: Drop> From<AllocFailed<T>> for Unlike {
    ghost use Rattle.std.specs.Prelude.{◌≡◌};
    ghost use Rattle.netlist.specs.declared.unlike.Unlike.TheVariants.{NoMemory};

    ghost from_gives = { λ _ e. e ≡ NoMemory };

    fn from(_: AllocFailed<T>) -> Unlike {
        Unlike::NoMemory
    }
}
