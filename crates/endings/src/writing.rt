ghost use Rattle.std.specs.Prelude.{◌≡◌, ℕ, List, None, IsSome, IfErr, IfOk, OnOk, length};
ghost use Rattle.desk_port.specs.Desk.{and_sizes};
ghost use Rattle.desk_port.specs.Pieces.{WritesInPieces, piece_sizes};
ghost use Rattle.endings.specs.Writing.{Says, StopsBetweenWrites, WritesFile};

use crate::stop::Stop;
use desk_port::{Desk, PutErr};
use std::alloc::Global;

/// What a command leaves in a file.
pub trait Content {
    /// What whoever puts the bytes tells besides.
    type Told: Drop;

    /// When its bytes may be put.
    ghost is_ready: { Self → Type 0 } = { λ _. Unit {0} };

    ghost bytes: { Self → List ℕ };

    ghost tells: { Self → Self.Told → Type 0 };

    /// Puts the bytes into the started file, in pieces.
    fn put<D: Desk>(&self, alloc: Global, desk: &mut D) -> Result<Self::Told, PutErr>
        requires started { IsSome (D.state desk.old).started }
        requires ready { is_ready self.now }
        ensures puts { WritesInPieces (bytes self.now) (D.state desk.old) (D.state desk.new)
            (D.sizes desk.old) (D.sizes desk.new) result }
        ensures tells { IfOk result (tells self.now) };
}

/// Writes the named file: starts it, puts its content and closes it.
pub fn write_file<D: Desk, C: Content>(
    alloc: Global,
    desk: &mut D,
    name: &str,
    content: &C,
) -> Result<C::Told, PutErr>
    requires started { (D.state desk.old).started ≡ None }
    requires ready { C.is_ready content.now }
    ensures writes { WritesFile (record { name = name.now; bytes = C.bytes content.now }) (D.state desk.old)
        (D.state desk.new) result }
    ensures sizes { OnOk result (D.sizes desk.new
        ≡ and_sizes (D.sizes desk.old) (piece_sizes (length (C.bytes content.now)))) }
    ensures refused { IfErr result (StopsBetweenWrites
        (record { name = name.now; bytes = C.bytes content.now })
        (D.state desk.old) (D.state desk.new) (D.sizes desk.old) (D.sizes desk.new)) }
    ensures tells { IfOk result (C.tells content.now) }
{
    desk.start(name)?;
    let told = content.put(alloc, desk)?;
    desk.close()?;
    Ok(told)
}

/// Says the text of a verdict.
pub fn say<D: Desk>(desk: &mut D, text: &[u8]) -> Result<(), Stop>
    ensures { Says text.now (D.state desk.old) (D.state desk.new) result }
{
    match desk.say(text) {
        Ok(()) => Ok(()),
        Err(PutErr::Failed) => Err(Stop::CannotWrite),
        Err(PutErr::NoMemory) => Err(Stop::OutOfMemory),
    }
}
