// The options of a command, read by clap.
ghost use Rattle.std.specs.Prelude.{◌≡◌, [], None, IfOk, MatchResult, map, string_bytes, unwrap_or, false};
ghost use Rattle.clap.specs.Matches.{found_of, first_value};
ghost use Rattle.clap.specs.Walk.{rule_of};
ghost use Rattle.clap.specs.Simple.{app_of};
ghost use Rattle.clap.specs.Values.{kind_of};
ghost use Rattle.clap.specs.declared.error.kind.ErrorKind.TheVariants as kind;
ghost use Rattle.command_words.specs.declared.error.WordsError.TheVariants.{Usage, OutOfMemory};
ghost use Rattle.command_words.specs.Options.{options_given};
ghost use Rattle.command_words.specs.Commands.{action_for, option_rule, option_app};
ghost use Rattle.command_words.specs.Given.{HoldsGiven};
ghost use Rattle.command_words.specs.Told.{told_kind, told_option};

use crate::error::WordsError;
use crate::form::is_form;
use crate::options::{CommandOption, OptionKind, is_needed};
use clap::error::ErrorKind;
use clap::{Arg, ArgAction, ArgMatches, Command, Error};
use std::alloc::{AllocError, Global};

/// What clap does with an option of this kind.
fn action_for(kind: OptionKind) -> ArgAction
    ensures { result ≡ action_for (told_kind kind) }
{
    match kind {
        OptionKind::Needed => ArgAction::Set,
        OptionKind::Optional => ArgAction::Set,
        OptionKind::Flag => ArgAction::SetTrue,
    }
}

/// An option as clap sees it.
fn arg_of<'a>(alloc: Global, option: &CommandOption<'a>) -> Arg<'a>
    ensures rule { rule_of result ≡ option_rule (told_option option.now) }
    ensures local { result.global ≡ false }
{
    Arg::new(alloc, option.name)
        .long(option.name)
        .action(action_for(option.kind))
        .required(is_needed(option.kind))
}

/// A command with its options as clap sees it.
fn command_of<'a>(
    alloc: Global,
    name: &'a str,
    options: &[CommandOption<'a>],
) -> Result<Command<'a>, AllocError>
    ensures { IfOk result (λ command. app_of command ≡ option_app name.entry.now (map told_option options.now)) }
{
    let mut command = Command::new(alloc, name)
        .no_binary_name(true)
        .disable_help_flag(true);
    for option in options {
        command = command.arg(arg_of(alloc, option))?;
    }
    Ok(command)
}

/// Why clap gave no matches: out of memory, or the words.
fn error_of(error: Error) -> WordsError
    ensures { kind_of error ≡ kind.OutOfMemory → result ≡ OutOfMemory }
{
    match error.kind() {
        ErrorKind::OutOfMemory => WordsError::OutOfMemory,
        _ => WordsError::Usage,
    }
}

/// The matches of a command's options in these words.
pub(crate) fn read_options<'a>(
    alloc: Global,
    name: &'a str,
    options: &[CommandOption<'a>],
    words: &'a [String],
) -> Result<ArgMatches<'a>, WordsError>
    ensures { MatchResult result (HoldsGiven (map told_option options.now) (map string_bytes words.entry.now))
        (λ e. e ≡ Usage → options_given (map told_option options.now) (map string_bytes words.entry.now) ≡ None) }
{
    if !is_form(alloc, options, words)? {
        return Err(WordsError::Usage);
    }
    let command = command_of(alloc, name, options)?;
    match command.try_get_matches_from(words) {
        Ok(matches) => Ok(matches),
        Err(error) => Err(error_of(error)),
    }
}

/// The value of an option, or the empty text if it isn't given.
pub(crate) fn text_of<'a>(matches: &ArgMatches<'a>, name: &str) -> &'a str
    ensures { result.now ≡ unwrap_or (first_value (found_of matches.now) name.now) [] }
{
    match matches.get_str(name) {
        None => "",
        Some(text) => text,
    }
}
