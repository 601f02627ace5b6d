//! The commands as the library that reads the words is told of them.
use crate::arguments::{Argument, Beside, arguments};
use crate::help;
use crate::table::{Row, commands};
use clap::{Arg, Command};
use std::alloc::{AllocError, Global};

const VERSION: &str = "0.1.0";

const ABOUT: &str =
    "Runs programs that are spread over places, after it has proved that they can't go wrong";

/// The command line of the program.
pub(crate) fn program<'a>(alloc: Global) -> Result<Command<'a>, AllocError> {
    let mut program = Command::new(alloc, "x10p")
        .about(ABOUT)
        .version(VERSION)
        .after_help(help::PROGRAM)
        .subcommand_required(true);
    for row in commands() {
        program = program.subcommand(command(alloc, row)?)?;
    }
    Ok(program)
}

/// A command with the arguments that name it.
fn command<'a>(alloc: Global, row: &Row) -> Result<Command<'a>, AllocError> {
    let mut command = Command::new(alloc, row.name)
        .about(row.about)
        .after_help(row.after);
    for other in arguments() {
        if other.commands & row.bit != 0 {
            command = command.arg(argument(alloc, other)?)?;
        }
    }
    Ok(command)
}

fn argument<'a>(alloc: Global, row: &Argument) -> Result<Arg<'a>, AllocError> {
    let mut arg = Arg::new(alloc, row.id)
        .help(row.help)
        .action(row.action)
        .value_parser(row.parser)
        .required(row.is_required)
        .ignore_case(row.ignores_case)
        .allow_negative_numbers(row.is_number);
    if let Some(name) = row.option {
        arg = arg.long(name);
    }
    if let Some(name) = row.value {
        arg = arg.value_name(name);
    }
    if let Some(value) = row.default {
        arg = arg.default_value(value);
    }
    if let Some(value) = row.alone {
        arg = arg
            .num_args(0..=1)
            .require_equals(true)
            .default_missing_value(value);
    }
    match row.beside {
        Beside::Anything => Ok(arg),
        Beside::With(other) => arg.requires_arg(other),
        Beside::Without(others) => arg.conflicts_with_all(others),
    }
}
