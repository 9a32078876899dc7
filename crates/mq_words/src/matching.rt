//! Which words are whose, as clap matches them.
//!
//! clap says which words go to which option of a command none of whose options depend on others,
//! so words that the whole command took are matched by one without these rules.
ghost use Rattle.std.specs.Prelude.{◌≡◌, IfErr, IfOk, Some, false, map, string_bytes, true};
ghost use Rattle.clap.specs.Words.{HasKind, HasMatchesOf, app_of, fault_of, rule_of};
ghost use Rattle.clap.specs.Words.{shape_of};
ghost use Rattle.clap.specs.declared.builder.command.Command.TheViews.{out-Command};
ghost use Rattle.mq_words.specs.CommandLine.{AsksHelp, command_line, program_with, rule_of_word};
ghost use Rattle.mq_words.specs.CommandLine.{shape_of_subcommand};

use crate::subcommands::{CommandOption, Subcommand, Takes, subcommands};
use clap::{Arg, ArgAction, ArgMatches, Command, Error};
use std::alloc::{AllocError, Global};

/// What the words of a command line, the program's name first, are matched to.
pub fn matches_of<'a>(
    alloc: Global,
    version: &'a str,
    words: &'a [String],
) -> Result<ArgMatches<'a>, Error>
    ensures matches { IfOk result (HasMatchesOf command_line (map string_bytes words.entry.now)) }
    ensures kinds { IfErr result (HasKind
        (fault_of command_line (map string_bytes words.entry.now))) }
{
    matcher(alloc, version)?.try_get_matches_from(words)
}

/// Whether words ask for help or the version.
pub fn ask_help(alloc: Global, version: &str, words: &[String]) -> bool
    ensures { result ≡ true → AsksHelp (map string_bytes words.now) }
{
    match matches_of(alloc, version, words) {
        Ok(_) => false,
        Err(error) => !error.use_stderr(),
    }
}

/// The program with its subcommands.
fn matcher<'a>(alloc: Global, version: &'a str) -> Result<Command<'a>, AllocError>
    ensures { IfOk result (λ program. app_of program ≡ command_line) }
{
    matcher_with(alloc, version, subcommands().as_slice())
}

/// The program with these subcommands.
fn matcher_with<'a>(
    alloc: Global,
    version: &'a str,
    rows: &[&Subcommand],
) -> Result<Command<'a>, AllocError>
    ensures { IfOk result (λ program. app_of program
        ≡ program_with (map (λ s. shape_of_subcommand s.now) rows.now)) }
{
    let mut program = Command::new(alloc, "mailquota")
        .version(version)
        .disable_help_subcommand(true);
    for row in rows {
        program = program.subcommand(subcommand_matcher(alloc, row)?)?;
    }
    Ok(program)
}

/// A subcommand with its words and options.
fn subcommand_matcher<'a>(alloc: Global, row: &Subcommand) -> Result<Command<'a>, AllocError>
    ensures shape { IfOk result (λ command. shape_of command ≡ shape_of_subcommand row.now) }
    ensures local { IfOk result (λ command. (out-Command command).has_globals ≡ false) }
{
    let mut command = Command::new(alloc, row.name);
    for word in row.words {
        command = command.arg(argument_matcher(alloc, word))?;
    }
    for option in row.options {
        command = command.arg(argument_matcher(alloc, option).long(option.name))?;
    }
    Ok(command)
}

/// A word without a name, or an option whose name is missing yet.
pub fn argument_matcher<'a>(alloc: Global, option: &CommandOption) -> Arg<'a>
    ensures rule { rule_of result ≡ rule_of_word option.now }
    ensures local { result.global ≡ false }
{
    let argument = Arg::new(alloc, option.name);
    let argument = match option.takes {
        Takes::Nothing => argument.action(ArgAction::SetTrue),
        Takes::Texts => argument.action(ArgAction::Append),
        _ => argument,
    };
    match option.default {
        Some(text) => argument.default_value(text),
        None => argument,
    }
}
