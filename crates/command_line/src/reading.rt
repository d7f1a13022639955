ghost use Rattle.std.specs.Prelude.{◌≡◌, IfOk, IfErr, Some, is_some, map, string_bytes, true};
ghost use Rattle.clap.specs.Words.{FailsBy, HasMatchesOf, kind_of};
ghost use Rattle.command_line.specs.Commands.{cec_app};
ghost use Rattle.command_line.specs.Words.{Asks, Requested, faults, names_help};
ghost use Rattle.command_line.specs.Answers.{misnamed_text, misuse_text, request, version_text, MayRefuse};
ghost use Rattle.command_line.specs.Parsing.{RefusesFound, RefusesHelp, RefusesMisuse, TellsVersion, IsRefusal, found, misnamed_texts, misuse};

use crate::asked::{Asked, MisnamedWord, Unfit};
use crate::command::cec_command;
use crate::matches::asked_in;
use crate::table::VERSION;
use clap::error::ErrorKind;
use clap::{ArgMatches, Error};
use std::alloc::{AllocError, Global};

/// Why words ask for nothing that the program does.
#[derive(Drop)]
pub enum Refusal {
    /// They ask for help or for the version, which is this text.
    Help(String),
    /// They are of no form that the program knows, as this text says.
    Usage(String),
    /// Out of memory.
    NoMemory,
}

/// Reads the words. The first one is the program's name.
pub fn read<'a>(alloc: Global, words: &'a [String]) -> Result<Asked<'a>, Refusal>
    ensures asked { IfOk result (λ asked. Asks (map string_bytes words.entry.now) (request asked)) }
    ensures refused { IfErr result (MayRefuse (map string_bytes words.entry.now)) }
{
    if names_help(words) {
        return Err(no_command_help(alloc));
    }
    match matches_of(alloc, words) {
        Ok(matches) => answer_to(alloc, &matches),
        Err(error) => Err(refusal_of(alloc, &error)),
    }
}

/// Whether the command is `help`. `clap` has one of its own, which the program hasn't: docs/DECISIONS.md,
/// "`help` isn't a command".
fn names_help(words: &[String]) -> bool
    ensures { result ≡ names_help (map string_bytes words.now) }
{
    match words {
        [_, command, ..] => command.as_str() == "help",
        _ => false,
    }
}

/// The refusal of the command `help`.
fn no_command_help(alloc: Global) -> Refusal
    ensures { RefusesHelp result }
{
    match String::from_str(alloc, "cec: no command help\n") {
        Ok(text) => Refusal::Usage(text),
        Err(_) => Refusal::NoMemory,
    }
}

/// What the matches ask for. Values that ask for nothing, each of which may be given, are refused here.
fn answer_to<'a>(alloc: Global, matches: &ArgMatches<'a>) -> Result<Asked<'a>, Refusal>
    requires { is_some (found matches.now) ≡ true }
    ensures asked { IfOk result (λ asked. found matches.now ≡ Some (Requested (request asked))) }
    ensures refused { IfErr result (RefusesFound (found matches.now)) }
{
    match asked_in(matches) {
        Ok(asked) => Ok(asked),
        Err(unfit) => Err(refused(alloc, &unfit)),
    }
}

/// The refusal of such values.
fn refused(alloc: Global, unfit: &Unfit<'_>) -> Refusal
    ensures { RefusesMisuse (misuse unfit.now) result }
{
    match unfit_text(alloc, unfit) {
        Ok(text) => Refusal::Usage(text),
        Err(_) => Refusal::NoMemory,
    }
}

/// The text of it.
fn unfit_text(alloc: Global, unfit: &Unfit<'_>) -> Result<String, AllocError>
    ensures { IfOk result (λ s. string_bytes s ≡ misuse_text (misuse unfit.now)) }
{
    match unfit {
        Unfit::Misnamed(word) => misnamed_text(alloc, word),
        Unfit::SavesOver => String::from_str(alloc, "cec: --save names a file of --out\n"),
        Unfit::WritesOver => String::from_str(alloc, "cec: OUT is a file of --out\n"),
        Unfit::WitnessOver => String::from_str(alloc, "cec: --witness names a file of --out\n"),
        Unfit::WitnessSaved => {
            String::from_str(alloc, "cec: --witness and --save name one file\n")
        }
    }
}

/// The text of a word that is none of the names that its argument takes, as `clap` says it. `clap` could refuse
/// the word, by the list of names of the argument; but its definitions see such a list as a place in memory, of
/// which no definition can speak.
fn misnamed_text(alloc: Global, misnamed: &MisnamedWord<'_>) -> Result<String, AllocError>
    ensures { IfOk result (λ s. string_bytes s ≡ misnamed_text (misnamed_texts misnamed.now)) }
{
    format!(in alloc;
        "error: invalid value '{}' for '{}'\n  [possible values: {}]\n\
         \nFor more information, try '--help'.\n",
        misnamed.word, misnamed.argument, misnamed.names
    )
}

/// What `clap` reads in the words.
fn matches_of<'a>(alloc: Global, words: &'a [String]) -> Result<ArgMatches<'a>, Error>
    ensures kinds { FailsBy (faults (map string_bytes words.entry.now)) result }
    ensures values { IfOk result (HasMatchesOf cec_app (map string_bytes words.entry.now)) }
{
    cec_command(alloc)?.try_get_matches_from(words)
}

/// What is answered to words that `clap` refuses.
fn refusal_of(alloc: Global, error: &Error) -> Refusal
    ensures { IsRefusal (kind_of error.now) result }
{
    match error.kind() {
        ErrorKind::DisplayVersion => version(alloc),
        ErrorKind::OutOfMemory => Refusal::NoMemory,
        ErrorKind::DisplayHelp => match text_of(alloc, error) {
            Ok(text) => Refusal::Help(text),
            Err(_) => Refusal::NoMemory,
        },
        _ => match text_of(alloc, error) {
            Ok(text) => Refusal::Usage(text),
            Err(_) => Refusal::NoMemory,
        },
    }
}

/// What `clap` says of words that it refuses.
fn text_of(alloc: Global, error: &Error) -> Result<String, AllocError> {
    format!(in alloc; "{error}")
}

/// The version. It is said as `clap` says it, but by the program itself: `clap` promises no text.
fn version(alloc: Global) -> Refusal
    ensures { TellsVersion result }
{
    match version_text(alloc) {
        Ok(text) => Refusal::Help(text),
        Err(_) => Refusal::NoMemory,
    }
}

/// The text of it.
fn version_text(alloc: Global) -> Result<String, AllocError>
    ensures { IfOk result (λ s. string_bytes s ≡ version_text) }
{
    format!(in alloc; "cec {VERSION}\n")
}
