//! The commands of `data/README.md`, run one after the other over real files, each with what it prints and
//! its status: the gate compares this with what the page says. Then the same for words that ask for help, which
//! the script `cec` at the top answers from the file `stdout`.
//!
//! Both streams go to standard output, in the order in which the program writes them. The crate has no
//! contract: a run that prints what the page says is all that it is for. Begin to read at `showing.rt`.
#![tactic(auto)]

mod showing;

use os_desk::OsDesk;
use showing::{EXAMPLES, HELP, show};
use std::process::ExitCode;

/// Runs all examples, and then what asks for help; fails where one can't be shown.
fn main(rt: HostRuntime) -> ExitCode {
    for examples in [EXAMPLES.as_slice(), HELP.as_slice()] {
        for example in examples {
            let mut desk = OsDesk::new(rt.alloc(), &rt, rt.stdout(), rt.stdout());
            if show(&rt, rt.alloc(), example, &mut desk).is_err() {
                return ExitCode::FAILURE;
            }
        }
    }
    ExitCode::SUCCESS
}
