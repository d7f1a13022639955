ghost use Rattle.std.specs.Prelude.{map};
ghost use Rattle.endings.specs.Stops.{Warns, status_of, stop_line};

use crate::lines::line_of_stop;
use crate::status::Status;
use crate::stop::Stop;
use desk_port::{Desk, PutErr};
use std::alloc::Global;

/// Warns of the end with this status. Where the warning fails the status stays.
pub fn warn<D: Desk>(desk: &mut D, line: &str, status: Status) -> Status
    ensures { Warns line.now status (D.state desk.old) (D.state desk.new) result }
{
    match desk.warn(line.as_bytes()) {
        Ok(()) | Err(PutErr::Failed) => status,
        Err(PutErr::NoMemory) => Status::OutOfMemory,
    }
}

/// Warns of the cause why a command over the files of these names ends without a verdict, and gives its
/// status.
pub fn end<D: Desk>(alloc: Global, desk: &mut D, names: &[&str], stop: &Stop) -> Status
    ensures { Warns (stop_line (map (λ s. s.now) names.now) stop.now)
        (status_of stop.now) (D.state desk.old) (D.state desk.new) result }
{
    match line_of_stop(alloc, names, stop) {
        Ok(line) => warn(desk, line.as_str(), stop.status()),
        Err(_) => Status::OutOfMemory,
    }
}
