ghost use Rattle.std.specs.Prelude.{◌≡◌, IfOk, false, map};
ghost use Rattle.clap.specs.Words.{app_of, new_app, rule_of};
ghost use Rattle.clap.specs.declared.builder.command.Command.TheViews.{out-Command as fields_of};
ghost use Rattle.command_line.specs.Commands.{cec_app, program};
ghost use Rattle.command_line.specs.Table.{AreCommands, leaf_in, rule_in, shape_in};

use crate::table::{
    ArgumentRow, COMMANDS, CommandRow, PROGRAM_HELP, PROGRAM_NOTES, Takes, VERSION,
};
use clap::builder::ValueParser;
use clap::{Arg, ArgAction, Command};
use std::alloc::{AllocError, Global};

/// The program's command, with all that the table has.
pub(crate) fn cec_command<'a>(alloc: Global) -> Result<Command<'a>, AllocError>
    ensures { IfOk result (λ c. app_of c ≡ cec_app) }
{
    program_of(alloc, &COMMANDS)
}

/// The program's command, with the commands of the rows.
///
/// What may fail comes first, here and below: a command of `clap` has some sixty parts, which would be
/// given up one by one at each exit.
fn program_of<'a>(alloc: Global, rows: &[CommandRow]) -> Result<Command<'a>, AllocError>
    ensures { IfOk result (λ c. app_of c ≡ program (map shape_in rows.now)) }
{
    let commands = commands_of(alloc, rows)?;
    new_command(alloc, "cec", PROGRAM_HELP, PROGRAM_NOTES)
        .version(VERSION)
        .subcommand_required(true)
        .disable_help_subcommand(true)
        .subcommands(commands)
}

/// The commands of the rows, for `clap`.
fn commands_of<'a>(alloc: Global, rows: &[CommandRow]) -> Result<Vec<Command<'a>>, AllocError>
    ensures { IfOk result (λ commands. AreCommands commands.items rows.now) }
{
    let mut commands = Vec::new(alloc);
    for row in rows {
        commands.push(command_of(alloc, row)?)?;
    }
    Ok(commands)
}

/// The command of a row, for `clap`.
fn command_of<'a>(alloc: Global, row: &CommandRow) -> Result<Command<'a>, AllocError>
    ensures app { IfOk result (λ c. app_of c ≡ leaf_in row.now) }
    ensures local { IfOk result (λ c. (fields_of c).has_globals ≡ false) }
{
    let mut arguments = Vec::new(alloc);
    for argument in row.arguments {
        arguments.push(argument_of(alloc, argument))?;
    }
    new_command(alloc, row.name, row.help, row.notes).args(arguments)
}

/// A command that has its name and the texts of its help, but no arguments yet.
fn new_command<'a>(alloc: Global, name: &'a str, help: &'a str, notes: &'a str) -> Command<'a>
    ensures app { app_of result ≡ new_app name.entry.now }
    ensures local { (fields_of result).has_globals ≡ false }
{
    Command::new(alloc, name).about(help).after_help(notes)
}

/// The argument or option of a row, for `clap`. The range of a number is `clap`'s to judge, so that a number
/// out of it is refused with `clap`'s own words.
fn argument_of<'a>(alloc: Global, row: &ArgumentRow) -> Arg<'a>
    ensures rule { rule_of result ≡ rule_in row.now }
    ensures local { result.global ≡ false }
{
    let arg = Arg::new(alloc, row.name).help(row.help);
    match row.takes {
        Takes::Place => arg.value_name(row.value_name).required(true),
        Takes::Count { least, most } => arg
            .value_name(row.value_name)
            .required(true)
            .value_parser(ValueParser::Unsigned(least, most)),
        Takes::Text => arg.value_name(row.value_name).long(row.name),
        Takes::Number { least, most } => arg
            .value_name(row.value_name)
            .long(row.name)
            .value_parser(ValueParser::Unsigned(least, most)),
        Takes::Flag => arg.long(row.name).action(ArgAction::SetTrue),
    }
}
