//! How every command of the program reads its files, leaves its files, says its verdict and ends, whatever
//! it is about.
//!
//! A command reads files in the order of its arguments (`read_file`), leaves files (`write_file`), says its
//! verdict (`say`), and is then `Done`, or has another status; or it is stopped (`Stop`), which is warned of
//! as one line (`end`). Each call says what it makes of the desk, and where it stopped. A command's answers
//! are said with these definitions, over the lists of its files.
//!
//! Definitions: `specs/Reading.antt`, `specs/Writing.antt`, `specs/Stops.antt` (causes, their lines), and
//! the table of exit statuses in `specs/Status.antt`. Begin to read at `status.rt` and `stop.rt`, then
//! `reading.rt`, `writing.rt`, `warning.rt`.
#![tactic(auto)]

pub use reading::{READ_LIMIT, read_file};
pub use status::Status;
pub use stop::Stop;
pub use warning::{end, warn};
pub use writing::{Content, say, write_file};

mod lines;
mod reading;
mod status;
mod stop;
mod warning;
mod writing;
