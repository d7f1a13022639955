//! A desk in memory.
ghost use Rattle.std.specs.Prelude.{◌≡◌, [], IfOk, IsSome, None, Some, map, string_bytes};
ghost use Rattle.std.specs.Option.{ForSome, option_map};
ghost use Rattle.desk_port.specs.Desk.{Closes, Reads, Says, Starts, Warns, Writes};
ghost use Rattle.desk_port.specs.Desk.{NoCountFalls, Rose, SizesAfterWrite, after_close, untouched};
ghost use Rattle.desk_port.specs.MemFiles.{files_of};

use crate::desk::Desk;
use crate::errors::{PutErr, ReadErr};
use crate::mem_files;
use std::alloc::{AllocError, Global};
use std::collections::BTreeMap;

/// A desk whose files, output and error stand in memory. It tells all.
///
/// Its calls are counted together from 0; one that answers `NoMemory` isn't. A call whose number
/// was given to `new` fails: it counts a fault of its kind and puts nothing, and a `close` still
/// closes. No other call fails, but a `read` of a missing file. At the last number of a `u64` the
/// counting stands still.
pub struct MemDesk {
    alloc: Global,
    files: BTreeMap<String, Vec<u8>>,
    fails: Vec<u64>,
    calls: u64,
    started: Option<String>,
    said: Vec<u8>,
    warned: Vec<u8>,
    asked: Vec<String>,
    sizes: Vec<u64>,
    read_faults: u64,
    write_faults: u64,
    warn_faults: u64,
    ghost there: { ForSome started (λ name. IsSome (files_of files (string_bytes name))) },
}

// Written out, so that a drop is one call and not one for each field at each exit of a function.
impl Drop for MemDesk {
    fn drop(self) {
        let MemDesk {
            alloc: _,
            files: _,
            fails: _,
            calls: _,
            started: _,
            said: _,
            warned: _,
            asked: _,
            sizes: _,
            read_faults: _,
            write_faults: _,
            warn_faults: _,
        } = self;
    }
}

impl MemDesk {
    ghost use Rattle.desk_port.specs.MemDesk.{failing_calls, next_call, sizes_of, state_of};
    ghost use Rattle.desk_port.specs.MemDesk.{Finds, is_due, next_count};

    /// A desk with these files that fails at the calls of these numbers. Nothing is started on it,
    /// said, warned or asked for, and no fault counted.
    pub fn new(
        alloc: Global,
        files: BTreeMap<String, Vec<u8>>,
        fails: Vec<u64>,
    ) -> Result<MemDesk, AllocError>
        ensures state { IfOk result (λ desk. state_of desk ≡ untouched (files_of files)) }
        ensures next { IfOk result (λ desk. next_call desk ≡ 0) }
        ensures failing { IfOk result (λ desk. failing_calls desk ≡ fails.items) }
        ensures sizes { IfOk result (λ desk. sizes_of desk ≡ Some []) }
    {
        Ok(MemDesk {
            alloc,
            files,
            fails,
            calls: 0,
            started: None,
            said: Vec::new(alloc),
            warned: Vec::new(alloc),
            asked: Vec::new(alloc),
            sizes: Vec::new(alloc),
            read_faults: 0,
            write_faults: 0,
            warn_faults: 0,
        })
    }

    /// The bytes of the named file; `None` exactly where there is none.
    pub fn file(&self, name: &str) -> Option<&[u8]>
        ensures { option_map (λ files. files name.now) (state_of self.now).files
            ≡ Some (option_map (λ bytes. bytes.now) result) }
    {
        match self.files.get(name) {
            Some(bytes) => Some(bytes.as_slice()),
            None => None,
        }
    }

    /// The bytes said so far.
    pub fn said(&self) -> &[u8]
        ensures { (state_of self.now).said ≡ Some result.now }
    {
        self.said.as_slice()
    }

    /// The bytes warned so far.
    pub fn warned(&self) -> &[u8]
        ensures { (state_of self.now).warned ≡ Some result.now }
    {
        self.warned.as_slice()
    }

    /// The names that `read` was given so far, in order, those that failed too.
    pub fn asked(&self) -> &[String]
        ensures { (state_of self.now).asked ≡ Some (map string_bytes result.now) }
    {
        self.asked.as_slice()
    }

    /// How many bytes each `write` that was done had, in order.
    pub fn sizes(&self) -> &[u64]
        ensures { sizes_of self.now ≡ Some result.now }
    {
        self.sizes.as_slice()
    }

    // Whether the call that comes next fails.
    fn is_due(&self) -> bool
        ensures { result ≡ is_due self.now }
    {
        self.fails.contains(&self.calls)
    }

    // What `read` answers, before it is counted.
    fn find(&self, alloc: Global, name: &str, limit: u64) -> Result<Vec<u8>, ReadErr>
        ensures { Finds self.now name.now limit result }
    {
        if self.is_due() {
            return Err(ReadErr::Failed);
        }
        match self.files.get(name) {
            None => Err(ReadErr::Failed),
            Some(bytes) if bytes.len() as u64 > limit => Err(ReadErr::TooLong),
            Some(bytes) => Ok(Vec::from_slice(alloc, bytes)?),
        }
    }

    // Counts the call, so that the next one has the next number.
    fn count_call(&mut self)
        ensures { self.new ≡ record self.old { calls = next_count self.old.calls } }
    {
        self.calls = self.calls.saturating_add(1);
    }

    // Counts a call that failed to put something, and its fault.
    fn fail_to_put(&mut self)
        ensures stays { self.new
            ≡ record self.old {
              calls = next_count self.old.calls;
              write_faults = self.new.write_faults;
            } }
        ensures next { self.new.write_faults ≡ next_count self.old.write_faults }
        ensures rose { Rose self.old.write_faults self.new.write_faults }
    {
        self.count_call();
        self.write_faults = self.write_faults.saturating_add(1);
    }
}

impl Desk for MemDesk {
    ghost use Rattle.desk_port.specs.MemDesk.{FailsWhenDue, ReadsExactly, sizes_of, state_of};
    ghost use Rattle.desk_port.specs.MemDesk.{started_is_there, with_warn_fault, with_write_fault};

    ghost state = { state_of };

    ghost sizes = { sizes_of };

    ghost started_is_there = { started_is_there };

    /// The name is noted before the call is counted, so that want of memory leaves the desk as it was.
    fn read(&mut self, alloc: Global, name: &str, limit: u64) -> Result<Vec<u8>, ReadErr>
        ensures answer { Reads (state_of self.old) (state_of self.new) name.now limit result }
        ensures counts { NoCountFalls (state_of self.old) (state_of self.new) }
        ensures sizes { sizes_of self.new ≡ sizes_of self.old }
        ensures exact { ReadsExactly self.old self.new name.now limit result }
    {
        let answer = self.find(alloc, name, limit);
        if let Err(ReadErr::NoMemory) = answer {
            return answer;
        }
        self.asked.push(String::from_str(self.alloc, name)?)?;
        self.count_call();
        if let Err(ReadErr::Failed) = answer {
            self.read_faults = self.read_faults.saturating_add(1);
        }
        answer
    }

    fn start(&mut self, name: &str) -> Result<(), PutErr>
        requires { (state_of self.old).started ≡ None }
        ensures answer { Starts (state_of self.old) (state_of self.new) name.now result }
        ensures counts { NoCountFalls (state_of self.old) (state_of self.new) }
        ensures sizes { sizes_of self.new ≡ sizes_of self.old }
        ensures exact { FailsWhenDue self.old self.new
            (with_write_fault (state_of self.old)) result }
    {
        if self.is_due() {
            self.fail_to_put();
            return Err(PutErr::Failed);
        }
        let started = String::from_str(self.alloc, name)?;
        mem_files::make_empty(&mut self.files, self.alloc, name)?;
        self.started = Some(started);
        self.count_call();
        Ok(())
    }

    fn write(&mut self, bytes: &[u8]) -> Result<(), PutErr>
        requires { IsSome (state_of self.old).started }
        ensures answer { Writes (state_of self.old) (state_of self.new) bytes.now result }
        ensures counts { NoCountFalls (state_of self.old) (state_of self.new) }
        ensures sizes { SizesAfterWrite (sizes_of self.old) (sizes_of self.new) bytes.now result }
        ensures exact { FailsWhenDue self.old self.new
            (with_write_fault (state_of self.old)) result }
    {
        if self.is_due() {
            self.fail_to_put();
            return Err(PutErr::Failed);
        }
        self.sizes.reserve(1)?;
        let name = self.started.as_ref().unwrap();
        mem_files::extend(&mut self.files, name.as_str(), bytes)?;
        self.sizes.push_reserved(bytes.len() as u64);
        self.count_call();
        Ok(())
    }

    /// The file is closed also where this fails, as with real files.
    fn close(&mut self) -> Result<(), PutErr>
        requires { IsSome (state_of self.old).started }
        ensures answer { Closes (state_of self.old) (state_of self.new) result }
        ensures counts { NoCountFalls (state_of self.old) (state_of self.new) }
        ensures sizes { sizes_of self.new ≡ sizes_of self.old }
        ensures exact { let closed = after_close (state_of self.old) in
            FailsWhenDue self.old self.new (with_write_fault closed) result }
    {
        self.started = None;
        if self.is_due() {
            self.fail_to_put();
            return Err(PutErr::Failed);
        }
        self.count_call();
        Ok(())
    }

    fn say(&mut self, bytes: &[u8]) -> Result<(), PutErr>
        ensures answer { Says (state_of self.old) (state_of self.new) bytes.now result }
        ensures counts { NoCountFalls (state_of self.old) (state_of self.new) }
        ensures sizes { sizes_of self.new ≡ sizes_of self.old }
        ensures exact { FailsWhenDue self.old self.new
            (with_write_fault (state_of self.old)) result }
    {
        if self.is_due() {
            self.fail_to_put();
            return Err(PutErr::Failed);
        }
        self.said.extend_from_slice(bytes)?;
        self.count_call();
        Ok(())
    }

    fn warn(&mut self, bytes: &[u8]) -> Result<(), PutErr>
        ensures answer { Warns (state_of self.old) (state_of self.new) bytes.now result }
        ensures counts { NoCountFalls (state_of self.old) (state_of self.new) }
        ensures sizes { sizes_of self.new ≡ sizes_of self.old }
        ensures exact { FailsWhenDue self.old self.new
            (with_warn_fault (state_of self.old)) result }
    {
        if self.is_due() {
            self.count_call();
            self.warn_faults = self.warn_faults.saturating_add(1);
            return Err(PutErr::Failed);
        }
        self.warned.extend_from_slice(bytes)?;
        self.count_call();
        Ok(())
    }
}
