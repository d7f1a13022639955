//! The program `cec`: all that it does is `cec_top::run`, here over real files, standard output and standard
//! error.
//!
//! What a status promises is that crate's contract, and `specs/Headline.antt` there the page to begin with.
//! No contract says that `main` hands it the arguments and ends with its status: `main` is short enough to be
//! read, and the gate runs it once on real files.
#![tactic(auto)]

use cec_top::{Status, run};
use desk_port::OpenGate;
use os_desk::OsDesk;
use std::io::{self, ErrorKind};
use std::process::ExitCode;
use std::rt::Env;
use std::{env, mem};

/// The arguments, the program's name first.
fn words(rt: &(impl Env + AllocGlobal)) -> io::Result<Vec<String>> {
    Ok(env::args(rt)?.collect(rt.alloc())?)
}

/// Runs the program over the real world and ends with its status. It is as short as can be, since no
/// contract says anything of it.
fn main(rt: HostRuntime) -> ExitCode {
    let words = match words(&rt) {
        Ok(words) => words,
        Err(error) if error.kind() == ErrorKind::OutOfMemory => {
            return ExitCode::from(Status::OutOfMemory.code());
        }
        // A word that isn't UTF-8 is answered as words that aren't understood.
        Err(_) => Vec::new(rt.alloc()),
    };
    let mut desk = OsDesk::new(rt.alloc(), &rt, rt.stdout(), rt.stderr());
    let (status, kept) = run(&rt, rt.alloc(), words.as_slice(), &mut desk, &OpenGate);

    // The process ends here, so the books aren't given back entry by entry: that took 6 % of the time of a hash
    // against itself, and 11 % of that of a random circuit of a million gates.
    mem::forget(kept);
    ExitCode::from(status.code())
}
