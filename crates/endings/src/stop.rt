ghost use Rattle.std.specs.Prelude.{◌≡◌};
ghost use Rattle.endings.specs.Stops.{status_of};

use crate::status::Status;
use desk_port::PutErr;
use std::alloc::AllocError;

/// Why a command ends without a verdict. Files are numbered from 0, in the order in which the command reads
/// them.
#[derive(Drop)]
pub enum Stop {
    CannotRead(usize),
    /// The file has more bytes than the limit.
    TooLong(usize),
    /// The file isn't of its format: the text of its first fault.
    BadFile(usize, String),
    /// What was read doesn't fit together: the text of why.
    NotAlike(String),
    CannotWrite,
    OutOfMemory,
}

impl Stop {
    /// The status with which the command ends.
    pub fn status(&self) -> Status
        ensures { result ≡ status_of self.now }
    {
        match self {
            Stop::CannotRead(_) => Status::CannotRead,
            Stop::TooLong(_) | Stop::BadFile(_, _) | Stop::NotAlike(_) => Status::BadInput,
            Stop::CannotWrite => Status::CannotWrite,
            Stop::OutOfMemory => Status::OutOfMemory,
        }
    }
}

impl From<AllocError> for Stop {
    ghost use Rattle.std.specs.Prelude.{◌≡◌};
    ghost use Rattle.endings.specs.declared.stop.Stop.TheVariants.{OutOfMemory};

    ghost from_gives = { λ _ stop. stop ≡ OutOfMemory };

    fn from(_error: AllocError) -> Stop {
        Stop::OutOfMemory
    }
}

impl From<PutErr> for Stop {
    ghost use Rattle.std.specs.Prelude.{◌≡◌};
    ghost use Rattle.endings.specs.Stops.{stop_of_put};

    ghost from_gives = { λ e stop. stop ≡ stop_of_put e };

    fn from(error: PutErr) -> Stop {
        match error {
            PutErr::Failed => Stop::CannotWrite,
            PutErr::NoMemory => Stop::OutOfMemory,
        }
    }
}
