ghost use Rattle.endings.specs.Reading.{ReadsBytes};

use crate::stop::Stop;
use desk_port::{Desk, ReadErr};
use std::alloc::Global;

/// No file is read past so many bytes.
pub const READ_LIMIT: u64 = 1_073_741_824;

/// The bytes of the named file, which is this one of those that the command reads.
pub fn read_file<D: Desk>(
    alloc: Global,
    desk: &mut D,
    name: &str,
    file: usize,
) -> Result<Vec<u8>, Stop>
    ensures { ReadsBytes file name.now (D.state desk.old) (D.state desk.new) result }
{
    match desk.read(alloc, name, READ_LIMIT) {
        Ok(bytes) => Ok(bytes),
        Err(ReadErr::Failed) => Err(Stop::CannotRead(file)),
        Err(ReadErr::TooLong) => Err(Stop::TooLong(file)),
        Err(ReadErr::NoMemory) => Err(Stop::OutOfMemory),
    }
}
