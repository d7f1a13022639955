ghost use Rattle.std.specs.Prelude.{◌≡◌};

use std::alloc::AllocError;

/// Why a list of hints shows no clause, in the order in which a step is judged.
#[derive(Clone, Copy, Debug, PartialEq, Eq)]
pub enum Why {
    /// The clause has a complementary pair.
    Tautology,
    /// A hint names no clause that stands.
    NoClause,
    /// A hint comes after one whose clause was wholly false.
    AfterFalse,
    /// A hint's clause has a true literal.
    Satisfied,
    /// A hint's clause has two literals that aren't false.
    TwoFree,
    /// No hint's clause was wholly false.
    NotFalse,
}

/// The first fault of a step: its hint's place from 1, or 0 for Tautology and NotFalse.
#[derive(Clone, Copy, Debug, PartialEq, Eq)]
pub struct BadStep {
    pub hint: u64,
    pub why: Why,
}

/// Why a step check refuses a clause or a hint.
#[derive(Clone, Copy, Debug, PartialEq, Eq)]
pub enum StepErr {
    Bad(Why),
    NoMemory,
}

impl From<AllocError> for StepErr {
    ghost use Rattle.unit_prop.specs.declared.why.StepErr.TheVariants.{NoMemory};

    ghost from_gives = { λ _ e. e ≡ NoMemory };

    fn from(_error: AllocError) -> StepErr {
        StepErr::NoMemory
    }
}
