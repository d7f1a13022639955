//! What a desk in memory answers, call by call, and a gate that holds nobody.
//!
//! How many faults of reading are counted is proved where the answers are the expected ones, since no call
//! tells it.
ghost use Rattle.std.specs.Prelude.{◌≡◌, None, IfOk};
ghost use Rattle.std.specs.Bool.{OnTrue};
ghost use Rattle.desk_port.specs.MemDesk.{next_count, state_of};

use crate::checks::check;
use desk_port::{Desk, Gate, MemDesk, OpenGate, PutErr, ReadErr};
use std::alloc::{AllocError, Global};
use std::collections::BTreeMap;
use std::test::*;

/// Whether the files that were asked for have these names, in turn.
pub(crate) fn has_asked(desk: &MemDesk, names: &[&str]) -> bool {
    let asked = desk.asked();
    if asked.len() != names.len() {
        return false;
    }
    for i in 0..names.len() {
        if asked[i].as_str() != names[i] {
            return false;
        }
    }
    true
}

fn put_text(
    files: &mut BTreeMap<String, Vec<u8>>,
    alloc: Global,
    name: &str,
    text: &str,
) -> Result<(), AllocError> {
    let name = String::from_str(alloc, name)?;
    files.insert(name, Vec::from_slice(alloc, text.as_bytes())?)?;
    Ok(())
}

/// The bytes of files by their names.
fn files_of(
    alloc: Global,
    texts: &[(&str, &str)],
) -> Result<BTreeMap<String, Vec<u8>>, AllocError> {
    let mut files = BTreeMap::new(alloc);
    for (name, text) in texts {
        put_text(&mut files, alloc, name, text)?;
    }
    Ok(files)
}

/// A desk that fails at the calls of these numbers, with these files.
pub(crate) fn desk_with(
    alloc: Global,
    files: &[(&str, &str)],
    fails: &[u64],
) -> Result<MemDesk, AllocError>
    ensures started { IfOk result (λ desk. (state_of desk).started ≡ None) }
    ensures faults { IfOk result (λ desk. (state_of desk).read_faults ≡ 0) }
{
    let fails = Vec::from_slice(alloc, fails)?;
    MemDesk::new(alloc, files_of(alloc, files)?, fails)
}

/// Whether the file reads as these bytes; no fault is counted then.
fn reads_as(alloc: Global, desk: &mut MemDesk, name: &str, limit: u64, want: &[u8]) -> bool
    ensures { OnTrue result ((state_of desk.new).read_faults ≡ (state_of desk.old).read_faults) }
{
    match desk.read(alloc, name, limit) {
        Ok(bytes) => bytes.as_slice() == want,
        Err(_) => false,
    }
}

/// Whether the file is too long; no fault is counted then.
fn is_too_long(alloc: Global, desk: &mut MemDesk, name: &str, limit: u64) -> bool
    ensures { OnTrue result ((state_of desk.new).read_faults ≡ (state_of desk.old).read_faults) }
{
    match desk.read(alloc, name, limit) {
        Err(ReadErr::TooLong) => true,
        _ => false,
    }
}

/// Whether the read fails; one fault is counted then.
fn fails_to_read(alloc: Global, desk: &mut MemDesk, name: &str, limit: u64) -> bool
    ensures { OnTrue result
        ((state_of desk.new).read_faults ≡ next_count (state_of desk.old).read_faults) }
{
    match desk.read(alloc, name, limit) {
        Err(ReadErr::Failed) => true,
        _ => false,
    }
}

/// Whether one read is as it should be and the next fails, so that one fault is counted.
fn reads_first(alloc: Global, desk: &mut MemDesk) -> bool
    requires { (state_of desk.old).read_faults ≡ 0 }
    ensures { OnTrue result ((state_of desk.new).read_faults ≡ 1) }
{
    if !reads_as(alloc, desk, "x", 5, b"ab") {
        return false;
    }
    fails_to_read(alloc, desk, "x", 5)
}

/// Whether a file is too long then, with one fault still, and another is missing, so that two are counted.
fn reads_then(alloc: Global, desk: &mut MemDesk) -> bool
    requires { (state_of desk.old).read_faults ≡ 1 }
    ensures { OnTrue result ((state_of desk.new).read_faults ≡ 2) }
{
    if !is_too_long(alloc, desk, "x", 1) {
        return false;
    }
    fails_to_read(alloc, desk, "y", 5)
}

/// The same of both, with two faults in the end.
fn reads_all(alloc: Global, desk: &mut MemDesk) -> bool
    requires { (state_of desk.old).read_faults ≡ 0 }
    ensures { OnTrue result ((state_of desk.new).read_faults ≡ 2) }
{
    if !reads_first(alloc, desk) {
        return false;
    }
    reads_then(alloc, desk)
}

#[test]
fn faulty_reads(rt: HostRuntime) {
    let Ok(mut desk) = desk_with(rt.alloc(), &[("x", "ab")], &[1]) else {
        return check(&rt, "a desk", false);
    };
    check(&rt, "the reads", reads_all(rt.alloc(), &mut desk));
    check(&rt, "asked", has_asked(&desk, &["x", "x", "x", "y"]));
}

fn put_file<D: Desk>(desk: &mut D, name: &str, bytes: &[u8]) -> Result<(), PutErr>
    requires { (D.state desk.old).started ≡ None }
{
    desk.start(name)?;
    desk.write(bytes)?;
    desk.close()
}

fn put_lines<D: Desk>(desk: &mut D) -> Result<(), PutErr> {
    desk.say(b"S")?;
    desk.warn(b"W")
}

/// Whether the desk shows the file that was put, and no other.
fn shows_file(desk: &MemDesk) -> bool {
    desk.file("o") == Some(b"ab".as_slice()) && desk.file("p").is_none() && desk.asked().is_empty()
}

fn shows_lines(desk: &MemDesk) -> bool {
    desk.said() == b"S".as_slice() && desk.warned() == b"W".as_slice()
}

/// Whether a file and two lines are put, and shown with nothing else.
fn puts(desk: &mut MemDesk) -> bool
    requires { (state_of desk.old).started ≡ None }
{
    put_file(desk, "o", b"ab").is_ok()
        && put_lines(desk).is_ok()
        && shows_file(desk)
        && shows_lines(desk)
}

#[test]
fn quiet_desk(rt: HostRuntime) {
    let is_put = match desk_with(rt.alloc(), &[], &[]) {
        Ok(mut desk) => puts(&mut desk),
        Err(AllocError) => false,
    };
    check(&rt, "put", is_put);
}

#[test]
fn open_gate_lets_all_pass(_rt: HostRuntime) {
    for task in 0..3 {
        OpenGate.pass(0, task);
    }
}
