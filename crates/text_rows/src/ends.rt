//! How commands end, over files in memory.
use crate::checks::check;
use crate::desks::desk_with;
use desk_port::{Desk, MemDesk, PutErr, put_in_pieces};
use endings::{Content, READ_LIMIT, Status, Stop, end, read_file, say, warn, write_file};
use std::alloc::{AllocError, Global};
use std::process::Abort;
use std::test::*;

/// Whether a command ends with this code, and warns of this line.
fn ends(
    alloc: Global,
    desk: Result<MemDesk, AllocError>,
    stop: &Stop,
    code: u8,
    line: &str,
) -> bool {
    let Ok(mut desk) = desk else {
        return false;
    };
    end(alloc, &mut desk, &["A", "B"], stop).code() == code && desk.warned() == line.as_bytes()
}

/// Ends a command on a desk that fails nowhere, and on one where the warning fails: the status stays.
fn check_end(rt: &impl Abort, alloc: Global, stop: Result<Stop, AllocError>, code: u8, line: &str) {
    let Ok(stop) = stop else {
        return check(rt, line, false);
    };
    let desk = desk_with(alloc, &[], &[]);
    check(rt, line, ends(alloc, desk, &stop, code, line));
    let desk = desk_with(alloc, &[], &[0]);
    check(rt, line, ends(alloc, desk, &stop, code, ""));
}

fn bad_file(alloc: Global) -> Result<Stop, AllocError> {
    Ok(Stop::BadFile(0, String::from_str(alloc, "bad header")?))
}

fn not_alike(alloc: Global) -> Result<Stop, AllocError> {
    let why = String::from_str(alloc, "inputs 2 and 3 differ")?;
    Ok(Stop::NotAlike(why))
}

#[test]
fn lines_and_statuses(rt: HostRuntime) {
    let alloc = rt.alloc();
    let cannot_read = Ok(Stop::CannotRead(1));
    check_end(&rt, alloc, cannot_read, 5, "cec: B: cannot read\n");
    let long = "cec: A: longer than 1073741824 bytes\n";
    check_end(&rt, alloc, Ok(Stop::TooLong(0)), 4, long);
    let cannot_write = Ok(Stop::CannotWrite);
    check_end(&rt, alloc, cannot_write, 6, "cec: cannot write\n");
    let no_memory = Ok(Stop::OutOfMemory);
    check_end(&rt, alloc, no_memory, 7, "cec: out of memory\n");
    check_end(&rt, alloc, bad_file(alloc), 4, "cec: A: bad header\n");
    let differ = "cec: inputs 2 and 3 differ\n";
    check_end(&rt, alloc, not_alike(alloc), 4, differ);
}

struct Letters;

impl Content for Letters {
    ghost use Rattle.std.specs.Prelude.{◌≡◌, codes};

    type Told = u8;

    ghost bytes = { λ _. codes "abc" };

    ghost tells = { λ _ told. told ≡ 3 };

    fn put<D: Desk>(&self, alloc: Global, desk: &mut D) -> Result<u8, PutErr> {
        put_in_pieces(alloc, desk, b"abc")?;
        Ok(3)
    }
}

/// A name, the calls that fail, of start, write and close, what is told, and what stands in the file.
type Row = (
    &'static str,
    &'static [u64],
    Option<u8>,
    Option<&'static [u8]>,
);

static LETTERS: [Row; 4] = [
    ("none", &[], Some(3), Some(b"abc")),
    ("start", &[0], None, None),
    ("write", &[1], None, Some(b"")),
    ("close", &[2], None, Some(b"abc")),
];

/// Whether the letters are written with this answer, and these bytes stand in the file then.
fn are_written(alloc: Global, (_, fails, told, file): &Row) -> bool {
    let Ok(mut desk) = desk_with(alloc, &[], fails) else {
        return false;
    };
    write_file(alloc, &mut desk, "L", &Letters).ok() == *told && desk.file("L") == *file
}

#[test]
fn files_at_failing_calls(rt: HostRuntime) {
    for row in &LETTERS {
        check(&rt, row.0, are_written(rt.alloc(), row));
    }
}

fn says(desk: &mut MemDesk) -> bool {
    say(desk, b"VERIFIED\n").is_ok() && desk.said() == b"VERIFIED\n".as_slice()
}

/// Whether a missing file can't be read, and a warning ends with its status.
fn reads_and_warns(alloc: Global, desk: &mut MemDesk) -> bool {
    matches!(read_file(alloc, desk, "A", 0), Err(Stop::CannotRead(0)))
        && warn(desk, "no\n", Status::BadUsage) == Status::BadUsage
}

#[test]
fn said_and_read(rt: HostRuntime) {
    let is_so = match desk_with(rt.alloc(), &[], &[]) {
        Ok(mut desk) => says(&mut desk) && reads_and_warns(rt.alloc(), &mut desk),
        Err(AllocError) => false,
    };
    check(&rt, "a word, a missing file, a warning", is_so);
    check(&rt, "greatest length of a file", READ_LIMIT == 1 << 30);
}
