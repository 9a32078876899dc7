//! The words of the command line.
ghost use Rattle.std.specs.Prelude.{IfErr, IfOk, IfSome, map, string_bytes};
ghost use Rattle.clap.specs.Words.{subcommand_rows_of};
ghost use Rattle.mq_process.specs.Arguments.{IsArguments};
ghost use Rattle.mq_words.specs.CommandLine.{AsksFor, HelpsAsked, IsMeantBy};

use crate::fault::{TextFault, WordsFault, fault_of, refusal, text_refusal};
use crate::matching::{argument_matcher, ask_help, matches_of};
use crate::meaning::arguments_of;
use crate::subcommands::{CommandOption, Need, Subcommand, Takes, subcommands};
use clap::{Arg, ArgGroup, ArgMatches, Command, value_parser};
use mq_process::Arguments;
use std::alloc::{AllocError, Global};

/// Reads the words of a command line, the program's name first. `--version` prints this version.
pub fn read_arguments<'a>(
    alloc: Global,
    words: &'a [String],
    version: &'a str,
) -> Result<Arguments<'a>, WordsFault>
    ensures in_range { IfOk result IsArguments }
    ensures asked { IfOk result (AsksFor (map string_bytes words.entry.now)) }
    ensures helps { IfErr result (HelpsAsked (map string_bytes words.entry.now)) }
{
    let mut program = program(alloc, version)?;
    match program.try_get_matches_from_mut(words) {
        Ok(_) => asked(alloc, version, words),
        Err(error) => Err(refusal(error, ask_help(alloc, version, words))),
    }
}

/// What words ask for that the program takes.
fn asked<'a>(
    alloc: Global,
    version: &'a str,
    words: &'a [String],
) -> Result<Arguments<'a>, WordsFault>
    ensures in_range { IfOk result IsArguments }
    ensures asked { IfOk result (AsksFor (map string_bytes words.entry.now)) }
    ensures helps { IfErr result (HelpsAsked (map string_bytes words.entry.now)) }
{
    let matches = matches_of(alloc, version, words)?;
    match asked_by(alloc, &matches) {
        Ok(Some(given)) => Ok(given),
        Ok(None) => Err(text_refusal(no_subcommand(alloc))),
        Err(fault) => Err(text_refusal(fault)),
    }
}

/// The fault of words that name no subcommand.
fn no_subcommand(alloc: Global) -> TextFault {
    fault_of(String::from_str(alloc, "error: a subcommand is required"))
}

/// What words ask for that were matched so, if they name a subcommand.
fn asked_by<'a>(alloc: Global, matches: &ArgMatches<'a>) -> Result<Option<Arguments<'a>>, TextFault>
    ensures in_range { IfOk result (λ given. IfSome given IsArguments) }
    ensures meant { IfOk result (λ given. IfSome given (IsMeantBy (subcommand_rows_of matches.now))) }
{
    match matches.subcommand() {
        Some((name, found)) => arguments_of(alloc, name, found),
        None => Ok(None),
    }
}

/// What the program takes.
fn program<'a>(alloc: Global, version: &'a str) -> Result<Command<'a>, AllocError> {
    let mut program = Command::new(alloc, "mailquota")
        .about("Daily recipient limits for smtpd, shared by all outgoing hosts")
        .version(version)
        .subcommand_required(true)
        .disable_help_subcommand(true);
    for subcommand in subcommands().as_slice() {
        program = program.subcommand(command_of(alloc, subcommand)?)?;
    }
    Ok(program)
}

/// A subcommand as clap reads it.
fn command_of<'a>(alloc: Global, subcommand: &Subcommand) -> Result<Command<'a>, AllocError> {
    let mut command = Command::new(alloc, subcommand.name).about(subcommand.about);
    if let Some(usage) = subcommand.usage {
        command = command.override_usage(usage);
    }
    for word in subcommand.words {
        command = command.arg(argument_of(alloc, word)?)?;
    }
    for option in subcommand.options {
        command = command.arg(argument_of(alloc, option)?.long(option.name))?;
    }
    for group in subcommand.groups {
        command = command.group(ArgGroup::new(alloc, group).required(true))?;
    }
    Ok(command)
}

/// An option as clap reads it, or a word without a name.
fn argument_of<'a>(alloc: Global, option: &CommandOption) -> Result<Arg<'a>, AllocError> {
    let argument = argument_matcher(alloc, option).help(option.help);
    let argument = match option.need {
        Need::Optional => argument,
        Need::Required => argument.required(true),
        Need::OneOf(group) => argument.group(group)?,
        Need::Without(other) => argument.conflicts_with(other)?,
        Need::With(other) => argument.requires_arg(other)?,
    };
    let argument = match option.takes {
        Takes::Nothing => return Ok(argument),
        Takes::Text | Takes::Texts | Takes::Day(_) | Takes::Limit => argument,
        Takes::Number(range) => argument.value_parser(value_parser!(u64).range(
            i64::from(range.least)..=i64::from(range.most),
        )),
        Takes::LongNumber(range) => argument.value_parser(value_parser!(u64).range(
            bound_of(range.least)..=bound_of(range.most),
        )),
    };
    Ok(argument.value_name(option.value))
}

/// A bound as clap takes it, which is a number with a sign.
fn bound_of(number: u64) -> i64 {
    i64::try_from(number).unwrap_or(i64::MAX)
}
