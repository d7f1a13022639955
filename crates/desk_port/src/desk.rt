//! The calls by which a program reaches files, standard output and standard error.
ghost use Rattle.std.specs.Prelude.{◌≡◌, None, IsSome};
ghost use Rattle.desk_port.specs.Desk.{DeskState, Reads, Starts, Writes, Closes, Says, Warns};
ghost use Rattle.desk_port.specs.Desk.{NoCountFalls, Sizes, StartedIsThere, SizesAfterWrite};

use crate::errors::{PutErr, ReadErr};
use std::alloc::Global;

/// The outside of a program.
///
/// One file at most is started at a time: `start`, then `write` as often as needed, then `close`.
/// `specs/Desk.antt` says for each call and each of its answers what the desk shows afterwards.
/// What is not named there stays, want of memory changes nothing at all, and a desk that tells goes
/// on telling.
///
/// Only `read` takes an allocator, since it gives the caller a new collection; the other calls take
/// memory from the allocator that the desk keeps.
pub trait Desk {
    /// What the desk shows: the files and the bytes put out where it tells them, and its faults.
    ghost state: { Self → DeskState };

    /// How many bytes each `write` that was done had, in order, where it tells them.
    ghost sizes: { Self → Sizes };

    /// The bytes of the named file, at most `limit` of them.
    ///
    /// `TooLong` exactly where the file has more. A missing file is a fault.
    fn read(&mut self, alloc: Global, name: &str, limit: u64) -> Result<Vec<u8>, ReadErr>
        ensures answer { Reads (state self.old) (state self.new) name.now limit result }
        ensures counts { NoCountFalls (state self.old) (state self.new) }
        ensures sizes { sizes self.new ≡ sizes self.old };

    /// Makes the named file empty, whether it was there or not, and starts it.
    fn start(&mut self, name: &str) -> Result<(), PutErr>
        requires { (state self.old).started ≡ None }
        ensures answer { Starts (state self.old) (state self.new) name.now result }
        ensures counts { NoCountFalls (state self.old) (state self.new) }
        ensures sizes { sizes self.new ≡ sizes self.old };

    /// Puts the bytes at the end of the started file.
    fn write(&mut self, bytes: &[u8]) -> Result<(), PutErr>
        requires { IsSome (state self.old).started }
        ensures answer { Writes (state self.old) (state self.new) bytes.now result }
        ensures counts { NoCountFalls (state self.old) (state self.new) }
        ensures sizes { SizesAfterWrite (sizes self.old) (sizes self.new) bytes.now result };

    /// Ends the started file. Nothing is started afterwards, also where this answers `Failed`.
    fn close(&mut self) -> Result<(), PutErr>
        requires { IsSome (state self.old).started }
        ensures answer { Closes (state self.old) (state self.new) result }
        ensures counts { NoCountFalls (state self.old) (state self.new) }
        ensures sizes { sizes self.new ≡ sizes self.old };

    /// Puts the bytes at the end of standard output.
    fn say(&mut self, bytes: &[u8]) -> Result<(), PutErr>
        ensures answer { Says (state self.old) (state self.new) bytes.now result }
        ensures counts { NoCountFalls (state self.old) (state self.new) }
        ensures sizes { sizes self.new ≡ sizes self.old };

    /// Puts the bytes at the end of standard error. Its faults have a count of their own.
    fn warn(&mut self, bytes: &[u8]) -> Result<(), PutErr>
        ensures answer { Warns (state self.old) (state self.new) bytes.now result }
        ensures counts { NoCountFalls (state self.old) (state self.new) }
        ensures sizes { sizes self.new ≡ sizes self.old };

    /// A file that is started is there, as far as the desk tells.
    ghost started_is_there: { (d : Self) → StartedIsThere (state d) };
}
