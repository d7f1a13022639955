ghost use Rattle.std.specs.Prelude.{◌≡◌, IfOk, map, string_bytes};
ghost use Rattle.endings.specs.Stops.{fault_line, file_line, name_at, stop_line};

use crate::stop::Stop;
use std::alloc::{AllocError, Global};

/// The line of a fault that is of no file.
fn line_of_fault(alloc: Global, text: &str) -> Result<String, AllocError>
    ensures { IfOk result (λ s. string_bytes s ≡ fault_line text.now) }
{
    let mut line = String::from_str(alloc, "cec: ")?;
    line.push_str(text)?;
    line.push_str("\n")?;
    Ok(line)
}

/// The line of a fault of the named file.
fn line_of_file(alloc: Global, name: &str, text: &str) -> Result<String, AllocError>
    ensures { IfOk result (λ s. string_bytes s ≡ file_line name.now text.now) }
{
    let mut line = String::from_str(alloc, "cec: ")?;
    line.push_str(name)?;
    line.push_str(": ")?;
    line.push_str(text)?;
    line.push_str("\n")?;
    Ok(line)
}

/// The name of a file, of those that the command reads.
fn name_at<'a>(names: &[&'a str], file: usize) -> &'a str
    ensures { result.now ≡ name_at (map (λ s. s.now) names.now) file }
{
    match names.get(file) {
        Some(name) => name,
        None => "",
    }
}

/// The line of a cause without a verdict.
#[tactic(auto, unfolding(crate::specs::Stops::stop_line))]
pub(crate) fn line_of_stop(alloc: Global, names: &[&str], stop: &Stop) -> Result<String, AllocError>
    ensures { IfOk result (λ s. string_bytes s ≡ stop_line (map (λ s. s.now) names.now) stop.now) }
{
    match stop {
        Stop::CannotRead(file) => line_of_file(alloc, name_at(names, *file), "cannot read"),
        Stop::TooLong(file) => {
            line_of_file(alloc, name_at(names, *file), "longer than 1073741824 bytes")
        }
        Stop::BadFile(file, text) => line_of_file(alloc, name_at(names, *file), text.as_str()),
        Stop::NotAlike(text) => line_of_fault(alloc, text.as_str()),
        Stop::CannotWrite => line_of_fault(alloc, "cannot write"),
        Stop::OutOfMemory => line_of_fault(alloc, "out of memory"),
    }
}
