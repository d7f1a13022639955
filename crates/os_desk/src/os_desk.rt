//! Real files, standard output and standard error.
ghost use Rattle.std.specs.Prelude.{◌≡◌, ◌<◌, ◌≤◌, IfErr, IfOk, IfSome, IsSome, None, OnErr, OnOk, length};
ghost use Rattle.std.specs.Io.KnownBytes.{Appends};
ghost use Rattle.desk_port.specs.Desk.{Closes, NoCountFalls, OfSomePrefix, Reads, Rose, Says, SizesAfterWrite, Starts, Warns, Writes};
ghost use Rattle.desk_port.specs.MemDesk.{next_count};

use crate::streams::{put_all, read_within};
use desk_port::{Desk, PutErr, ReadErr};
use std::alloc::Global;
use std::fs;
use std::io::Write;
use std::rt::Files;

// The file that is started, and its name.
#[derive(Drop)]
struct Started<F> {
    name: String,
    file: F,
}

/// A desk over the files of a runtime and two writers, which are standard output and standard error
/// where `main` makes it. The writers keep no buffer.
///
/// Each error of std is counted as a fault of the call that met it, and ends that call. A call puts its bytes,
/// or a first part of them where it fails, into its own file or stream, and nothing into another.
#[derive(Drop)]
pub struct OsDesk<R: Files, O, E> {
    alloc: Global,
    files: R,
    out: O,
    err: E,
    started: Option<Started<R::File>>,
    read_faults: u64,
    write_faults: u64,
    warn_faults: u64,
}

impl<R: Files, O: Write, E: Write> OsDesk<R, O, E> {
    ghost use Rattle.os_desk.specs.OsDesk.{err_of, out_of, state_of, untouched};

    /// A desk with nothing started and no fault.
    pub fn new(alloc: Global, files: R, out: O, err: E) -> OsDesk<R, O, E>
        ensures state { state_of result ≡ untouched }
        ensures out { out_of result ≡ out }
        ensures err { err_of result ≡ err }
    {
        OsDesk {
            alloc,
            files,
            out,
            err,
            started: None,
            read_faults: 0,
            write_faults: 0,
            warn_faults: 0,
        }
    }
}

impl<R: Files, O: Write, E: Write> Desk for OsDesk<R, O, E> {
    ghost use Rattle.os_desk.specs.OsDesk.{started_is_there, state_of};
    ghost use Rattle.os_desk.specs.OsDesk.{err_of, file_of, out_of, sizes_of};

    ghost state = { state_of };

    ghost sizes = { sizes_of };

    ghost started_is_there = { started_is_there };

    fn read(&mut self, alloc: Global, name: &str, limit: u64) -> Result<Vec<u8>, ReadErr>
        ensures answer { Reads (state_of self.old) (state_of self.new) name.now limit result }
        ensures counts { NoCountFalls (state_of self.old) (state_of self.new) }
        ensures sizes { sizes_of self.new ≡ sizes_of self.old }
        ensures one { IfErr result (λ e. e ≡ ReadErr.Failed → (state_of self.new).read_faults
            ≡ next_count (state_of self.old).read_faults) }
        ensures bytes { IfOk result (λ v. limit < u64.MAX →
            (f : R.File) × IfSome (R.File.remaining f) (λ all. v.items ≡ all)) }
        ensures file { file_of self.new ≡ file_of self.old }
        ensures out { out_of self.new ≡ out_of self.old }
        ensures err { err_of self.new ≡ err_of self.old }
    {
        let answer = read_file(&self.files, alloc, name, limit);
        if let Err(ReadErr::Failed) = answer {
            count_fault(&mut self.read_faults);
        }
        answer
    }

    /// The name is kept before the file is made: where memory is refused no file has changed.
    fn start(&mut self, name: &str) -> Result<(), PutErr>
        requires { (state_of self.old).started ≡ None }
        ensures answer { Starts (state_of self.old) (state_of self.new) name.now result }
        ensures counts { NoCountFalls (state_of self.old) (state_of self.new) }
        ensures sizes { sizes_of self.new ≡ sizes_of self.old }
        ensures one { IfErr result (λ e. e ≡ PutErr.Failed → (state_of self.new).write_faults
            ≡ next_count (state_of self.old).write_faults) }
        ensures out { out_of self.new ≡ out_of self.old }
        ensures err { err_of self.new ≡ err_of self.old }
    {
        let name = String::from_str(self.alloc, name)?;
        match fs::create(&self.files, name.as_str()) {
            Ok(file) => {
                self.started = Some(Started { name, file });
                Ok(())
            }
            Err(_) => {
                count_fault(&mut self.write_faults);
                Err(PutErr::Failed)
            }
        }
    }

    fn write(&mut self, bytes: &[u8]) -> Result<(), PutErr>
        requires { IsSome (state_of self.old).started }
        ensures answer { Writes (state_of self.old) (state_of self.new) bytes.now result }
        ensures counts { NoCountFalls (state_of self.old) (state_of self.new) }
        ensures sizes { SizesAfterWrite (sizes_of self.old) (sizes_of self.new) bytes.now result }
        ensures one { IfErr result (λ e. e ≡ PutErr.Failed → (state_of self.new).write_faults
            ≡ next_count (state_of self.old).write_faults) }
        ensures put { OnOk result
            (IfSome (file_of self.old) (λ old. IfSome (file_of self.new) (λ new.
            Appends (R.File.contents old) (R.File.contents new) bytes.now))) }
        ensures part { OnErr result (OfSomePrefix bytes.now (λ part.
            IfSome (file_of self.old) (λ old. IfSome (file_of self.new) (λ new.
            Appends (R.File.contents old) (R.File.contents new) part)))) }
        ensures out { out_of self.new ≡ out_of self.old }
        ensures err { err_of self.new ≡ err_of self.old }
    {
        let started = self.started.as_mut().unwrap();
        let answer = put_all(&mut started.file, bytes);
        if answer.is_err() {
            count_fault(&mut self.write_faults);
        }
        answer
    }

    // std closes a file where it is dropped, and tells no error.
    fn close(&mut self) -> Result<(), PutErr>
        requires { IsSome (state_of self.old).started }
        ensures answer { Closes (state_of self.old) (state_of self.new) result }
        ensures counts { NoCountFalls (state_of self.old) (state_of self.new) }
        ensures sizes { sizes_of self.new ≡ sizes_of self.old }
        ensures one { IfErr result (λ e. e ≡ PutErr.Failed → (state_of self.new).write_faults
            ≡ next_count (state_of self.old).write_faults) }
        ensures out { out_of self.new ≡ out_of self.old }
        ensures err { err_of self.new ≡ err_of self.old }
    {
        self.started = None;
        Ok(())
    }

    fn say(&mut self, bytes: &[u8]) -> Result<(), PutErr>
        ensures answer { Says (state_of self.old) (state_of self.new) bytes.now result }
        ensures counts { NoCountFalls (state_of self.old) (state_of self.new) }
        ensures sizes { sizes_of self.new ≡ sizes_of self.old }
        ensures one { IfErr result (λ e. e ≡ PutErr.Failed → (state_of self.new).write_faults
            ≡ next_count (state_of self.old).write_faults) }
        ensures put { OnOk result
            (Appends (O.contents (out_of self.old)) (O.contents (out_of self.new)) bytes.now) }
        ensures part { OnErr result (OfSomePrefix bytes.now
            (λ part. Appends (O.contents (out_of self.old)) (O.contents (out_of self.new)) part)) }
        ensures file { file_of self.new ≡ file_of self.old }
        ensures err { err_of self.new ≡ err_of self.old }
    {
        let answer = put_all(&mut self.out, bytes);
        if answer.is_err() {
            count_fault(&mut self.write_faults);
        }
        answer
    }

    fn warn(&mut self, bytes: &[u8]) -> Result<(), PutErr>
        ensures answer { Warns (state_of self.old) (state_of self.new) bytes.now result }
        ensures counts { NoCountFalls (state_of self.old) (state_of self.new) }
        ensures sizes { sizes_of self.new ≡ sizes_of self.old }
        ensures one { IfErr result (λ e. e ≡ PutErr.Failed → (state_of self.new).warn_faults
            ≡ next_count (state_of self.old).warn_faults) }
        ensures put { OnOk result
            (Appends (E.contents (err_of self.old)) (E.contents (err_of self.new)) bytes.now) }
        ensures part { OnErr result (OfSomePrefix bytes.now
            (λ part. Appends (E.contents (err_of self.old)) (E.contents (err_of self.new)) part)) }
        ensures file { file_of self.new ≡ file_of self.old }
        ensures out { out_of self.new ≡ out_of self.old }
    {
        let answer = put_all(&mut self.err, bytes);
        if answer.is_err() {
            count_fault(&mut self.warn_faults);
        }
        answer
    }
}

// Counts a fault. At the last value the count stands still.
fn count_fault(count: &mut u64)
    ensures one { count.new ≡ next_count count.old }
    ensures rose { Rose count.old count.new }
{
    *count = count.saturating_add(1);
}

// The bytes of the named file: all that the opened file holds.
fn read_file<R: Files>(files: &R, alloc: Global, name: &str, limit: u64) -> Result<Vec<u8>, ReadErr>
    ensures limit { IfOk result (λ v. length v.items ≤ limit) }
    ensures bytes { IfOk result (λ v. limit < u64.MAX →
        (f : R.File) × IfSome (R.File.remaining f) (λ all. v.items ≡ all)) }
{
    let Ok(mut file) = fs::open(files, name) else {
        return Err(ReadErr::Failed);
    };
    read_within(&mut file, alloc, limit)
}
