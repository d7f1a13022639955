//! Files in the folder where the tests run, and outputs that take nothing.
//!
//! How many faults are counted is not asked here: the clauses of `OsDesk`'s calls say it exactly.
ghost use Rattle.std.specs.Prelude.{◌≡◌, None, OnOk};

use crate::checks::check;
use desk_port::{Desk, PutErr, ReadErr};
use os_desk::OsDesk;
use std::alloc::{AllocError, Global};
use std::io::{ErrorKind, Write};
use std::process::Abort;
use std::rt::Files;
use std::test::*;
use std::{fs, io};

/// Writes a file.
fn put_old<D: Desk>(desk: &mut D) -> Result<(), PutErr>
    requires { (D.state desk.old).started ≡ None }
    ensures { OnOk result ((D.state desk.new).started ≡ None) }
{
    desk.start("pieces.txt")?;
    desk.write(b"old and longer")?;
    desk.close()
}

/// Writes a shorter one in its place, in pieces.
fn put_pieces<D: Desk>(desk: &mut D) -> Result<(), PutErr>
    requires { (D.state desk.old).started ≡ None }
    ensures { OnOk result ((D.state desk.new).started ≡ None) }
{
    desk.start("pieces.txt")?;
    desk.write(b"ab")?;
    desk.write(b"")?;
    desk.write(b"c")?;
    desk.close()
}

/// What is read, a file and the most that is read of it, and what that comes to.
type Row = (&'static str, &'static str, u64, Result<(), ReadErr>);

static READS: [Row; 4] = [
    ("as long as may be", "pieces.txt", 3, Ok(())),
    ("without a limit", "pieces.txt", u64::MAX, Ok(())),
    ("too long", "pieces.txt", 2, Err(ReadErr::TooLong)),
    ("missing", "missing.txt", 3, Err(ReadErr::Failed)),
];

/// Whether the file reads so: with the bytes "abc", or not at all.
fn reads<D: Desk>(alloc: Global, desk: &mut D, (_, name, limit, want): &Row) -> bool {
    match desk.read(alloc, name, *limit) {
        Ok(bytes) => want.is_ok() && bytes.as_slice() == b"abc".as_slice(),
        Err(fault) => *want == Err(fault),
    }
}

/// Writes the file twice, and reads it.
fn check_files<D: Desk>(rt: &impl Abort, alloc: Global, desk: &mut D) -> Result<(), PutErr>
    requires { (D.state desk.old).started ≡ None }
{
    put_old(desk)?;
    put_pieces(desk)?;
    let no_folder = desk.start("missing/pieces.txt");
    check(rt, "no such folder", no_folder == Err(PutErr::Failed));
    for row in &READS {
        check(rt, row.0, reads(alloc, desk, row));
    }
    Ok(())
}

#[test]
fn real_files(rt: HostRuntime) {
    let mut desk = OsDesk::new(rt.alloc(), &rt, rt.stdout(), rt.stderr());
    let is_put = check_files(&rt, rt.alloc(), &mut desk).is_ok();
    check(&rt, "put", is_put);
    let is_removed = fs::remove_file(&rt, "pieces.txt").is_ok();
    check(&rt, "removed", is_removed);
}

/// How long each of two writes is: both together take three reads.
const HALF: usize = 300_000;

/// The bytes of one write. They begin again after 251 of them, which divides no piece of a read.
fn half(alloc: Global) -> Result<Vec<u8>, AllocError> {
    let mut bytes = Vec::new(alloc);
    for i in 0..HALF {
        bytes.push((i % 251) as u8)?;
    }
    Ok(bytes)
}

/// Writes these bytes twice into one file.
fn put_twice<D: Desk>(desk: &mut D, half: &[u8]) -> Result<(), PutErr>
    requires { (D.state desk.old).started ≡ None }
{
    desk.start("long.txt")?;
    desk.write(half)?;
    desk.write(half)?;
    desk.close()
}

/// Whether the file holds these bytes twice, and nothing else.
fn reads_twice<D: Desk>(alloc: Global, desk: &mut D, half: &[u8]) -> bool {
    match desk.read(alloc, "long.txt", 1_000_000) {
        Ok(bytes) => {
            bytes.len() == 2 * HALF
                && bytes.as_slice().starts_with(half)
                && bytes.as_slice().ends_with(half)
        }
        Err(_) => false,
    }
}

#[test]
fn long_file(rt: HostRuntime) {
    let mut desk = OsDesk::new(rt.alloc(), &rt, rt.stdout(), rt.stderr());
    let half = half(rt.alloc()).expect(&rt, "memory");
    let is_put = put_twice(&mut desk, half.as_slice()).is_ok();
    check(&rt, "put", is_put);
    let is_whole = reads_twice(rt.alloc(), &mut desk, half.as_slice());
    check(&rt, "read back whole", is_whole);
    let is_removed = fs::remove_file(&rt, "long.txt").is_ok();
    check(&rt, "removed", is_removed);
}

// An output that is closed, or that takes nothing.
#[derive(Drop)]
struct Shut(bool);

impl Write for Shut {
    fn write(&mut self, _buf: &[u8]) -> io::Result<usize> {
        if self.0 {
            Err(io::Error::from(ErrorKind::BrokenPipe))
        } else {
            Ok(0)
        }
    }

    fn flush(&mut self) -> io::Result<()> {
        Ok(())
    }
}

/// Whether a desk over such outputs refuses to say and to warn, but for nothing at all.
fn is_shut<R: Files + Drop>(alloc: Global, files: R, is_closed: bool) -> bool {
    let mut desk = OsDesk::new(alloc, files, Shut(is_closed), Shut(is_closed));
    desk.say(b"said") == Err(PutErr::Failed)
        && desk.warn(b"warned") == Err(PutErr::Failed)
        && desk.say(b"").is_ok()
}

#[test]
fn shut_outputs(rt: HostRuntime) {
    check(&rt, "closed", is_shut(rt.alloc(), &rt, true));
    check(&rt, "full", is_shut(rt.alloc(), &rt, false));
}
