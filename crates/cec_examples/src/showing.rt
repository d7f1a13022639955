ghost use Rattle.std.specs.Prelude.{◌≡◌, None};

use cec_top::run;
use desk_port::{Desk, OpenGate, PutErr};
use std::alloc::Global;
use std::rt::Clock;
use std::sync::Wait;
use std::thread::Threads;

/// The commands of the page, in its order.
pub(crate) const EXAMPLES: [&[&str]; 20] = [
    &[
        "check",
        "adder_ripple.aag",
        "adder_select.aag",
        "--out",
        "adder",
    ],
    &["lrat", "adder.0.cnf", "adder.0.lrat"],
    &["check", "adder_ripple.aag", "adder_wrong.aag"],
    &[
        "check",
        "adder_ripple.aag",
        "adder_wrong.aag",
        "--edits",
        "adder_mend.edits",
    ],
    &[
        "check",
        "multiplier_rows.aag",
        "multiplier_columns.aag",
        "--sweep-budget",
        "1",
        "--budget",
        "1",
    ],
    &["check", "multiplier_rows.aag", "multiplier_columns.aag"],
    &[
        "check",
        "subtract_ab.aag",
        "subtract_ba.aag",
        "--match",
        "names",
    ],
    &["check", "subtract_ab.aag", "subtract_ba.aag"],
    &[
        "check",
        "subtract_ab.aag",
        "subtract_ba.aag",
        "--witness",
        "subtract.witness",
    ],
    &[
        "check",
        "digit_full.aag",
        "digit_short.aag",
        "--out",
        "digit",
    ],
    &["lrat", "digit.0.cnf", "digit.0.lrat"],
    &["check", "digit_full.aag", "digit_free.aag"],
    &["check", "adder_ripple.aag", "adder_cut.aag"],
    &["lrat", "and.cnf", "and.lrat"],
    &["lrat", "and.cnf", "and_refused.lrat"],
    &[
        "check",
        "and.aag",
        "and_swapped.aag",
        "--save",
        "and.lemmas",
    ],
    &[
        "check",
        "and.aag",
        "and_swapped.aag",
        "--load",
        "and.lemmas",
    ],
    &[
        "fraig",
        "and_twice.aag",
        "and_once.aig",
        "--out",
        "and_once",
    ],
    &["lrat", "and_once.0.cnf", "and_once.0.lrat"],
    &["check", "and.aag", "and_once.aig"],
];

/// Words that ask for help or the version, or that lack a command. The script `cec` at the top prints what the file
/// `stdout` has for these where no program is built.
pub(crate) const HELP: [&[&str]; 8] = [
    &["--version"],
    &["--help"],
    &["check", "--help"],
    &["fraig", "--help"],
    &["lrat", "--help"],
    &["self", "--help"],
    &[],
    &["help"],
];

/// The arguments of an example, the program's name before them.
fn words_of(alloc: Global, example: &[&str]) -> Result<Vec<String>, PutErr> {
    let mut words = Vec::new(alloc);
    words.push(String::from_str(alloc, "cec")?)?;
    for word in example {
        words.push(String::from_str(alloc, word)?)?;
    }
    Ok(words)
}

/// The command as a reader would type it.
fn line_of(alloc: Global, words: &[String]) -> Result<String, PutErr> {
    let mut line = String::from_str(alloc, "$")?;
    for word in words {
        line.push(' ')?;
        line.push_str(word.as_str())?;
    }
    line.push('\n')?;
    Ok(line)
}

/// Says the command, runs it, and says the status that it ends with.
pub(crate) fn show<D: Desk>(
    rt: &(impl Threads + Wait + Clock + Sync),
    alloc: Global,
    example: &[&str],
    desk: &mut D,
) -> Result<(), PutErr>
    requires { (D.state desk.old).started ≡ None }
{
    let words = words_of(alloc, example)?;
    desk.say(line_of(alloc, words.as_slice())?.as_bytes())?;
    let (status, _kept) = run(rt, alloc, words.as_slice(), desk, &OpenGate);
    let status = format!(in alloc; "status {}\n", status.code())?;
    desk.say(status.as_bytes())?;
    Ok(())
}
