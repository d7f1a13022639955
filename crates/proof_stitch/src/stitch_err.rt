use desk_port::PutErr;
use std::alloc::AllocError;

/// Why a proof wasn't written.
#[derive(Clone, Copy, Debug, PartialEq, Eq)]
pub enum StitchErr {
    /// The desk failed to write it.
    Write,
    NoMemory,
}

impl From<AllocError> for StitchErr {
    ghost use Rattle.std.specs.Prelude.{◌≡◌};
    ghost use Rattle.proof_stitch.specs.declared.stitch_err.StitchErr.TheVariants.{NoMemory};

    ghost from_gives = { λ _ e. e ≡ NoMemory };

    fn from(_error: AllocError) -> StitchErr {
        StitchErr::NoMemory
    }
}

impl From<PutErr> for StitchErr {
    ghost use Rattle.std.specs.Prelude.{◌≡◌};
    ghost use Rattle.proof_stitch.specs.Text.{refusal_of};

    ghost from_gives = { λ p e. e ≡ refusal_of p };

    fn from(error: PutErr) -> StitchErr {
        match error {
            PutErr::Failed => StitchErr::Write,
            PutErr::NoMemory => StitchErr::NoMemory,
        }
    }
}
