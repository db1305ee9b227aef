// Reading words with `clap`.
ghost use Rattle.std.specs.Prelude.{◌≡◌, ◌≢◌, IfErr, IfOk, Some, [], codes, false, true};
ghost use Rattle.clap.specs.Words.{app_of, fault_of, found_of, is_simple_and_free, matches_of, new_app, new_rule, rows_of, rule_of};
ghost use Rattle.clap.specs.Simple.{on_top};
ghost use Rattle.asprin_words.specs.Asked.{texts_of};
ghost use Rattle.asprin_words.specs.Commands.{app_for, asked_file, asked_rule};
ghost use Rattle.asprin_words.specs.Gives.{Answers, Gives, LedGives};
ghost use Rattle.asprin_words.specs.Options.{asprin_options, led_options};
ghost use Rattle.asprin_words.specs.Spelled.{flag, named, single, taken_of};

use crate::WordsFault;
use clap::error::ErrorKind;
use clap::{Arg, ArgAction, ArgMatches, Command};
use std::alloc::{AllocError, Global};

/// An option that is one letter, with a value.
fn letter<'a>(alloc: Global, name: &'a str, letter: char, action: ArgAction) -> Arg<'a>
    ensures rule { rule_of result ≡ record (new_rule name.entry.now) {
      short = Some letter;
      action = Some action;
    } }
    ensures local { result.global ≡ false }
{
    Arg::new(alloc, name).short(letter).action(action)
}

/// An option `--name` with a value, which stands once.
fn single<'a>(alloc: Global, name: &'a str) -> Arg<'a>
    ensures rule { rule_of result ≡ asked_rule (named name.entry.now single) }
    ensures local { result.global ≡ false }
{
    Arg::new(alloc, name).long(name).action(ArgAction::Set)
}

/// A flag `--name`.
fn flag<'a>(alloc: Global, name: &'a str) -> Arg<'a>
    ensures rule { rule_of result ≡ asked_rule (named name.entry.now flag) }
    ensures local { result.global ≡ false }
{
    Arg::new(alloc, name).long(name).action(ArgAction::SetTrue)
}

/// The files.
fn files<'a>(alloc: Global) -> Arg<'a>
    ensures rule { rule_of result ≡ asked_file }
    ensures local { result.global ≡ false }
{
    Arg::new(alloc, "FILE").action(ArgAction::Append)
}

/// A command whose words are all arguments, with no flag for help.
fn plain_command<'a>(alloc: Global) -> Command<'a>
    ensures { app_of result ≡ on_top (λ s. record s {
      no_binary_name = true;
      disable_help_flag = true;
    }) (new_app (codes "words")) }
{
    Command::new(alloc, "words")
        .no_binary_name(true)
        .disable_help_flag(true)
}

/// The command of `asprin`.
fn asprin_command<'a>(alloc: Global) -> Result<Command<'a>, AllocError>
    ensures { IfOk result (λ command. app_of command ≡ app_for asprin_options) }
{
    let command = plain_command(alloc)
        .arg(letter(alloc, "n", 'n', ArgAction::Set))?
        .arg(flag(alloc, "sorted"))?
        .arg(single(alloc, "budget"))?
        .arg(single(alloc, "chains"))?
        .arg(single(alloc, "cert"))?
        .arg(letter(alloc, "c", 'c', ArgAction::Append))?
        .arg(single(alloc, "make"))?
        .arg(flag(alloc, "binary"))?
        .arg(flag(alloc, "audit"))?
        .arg(files(alloc))?;
    Ok(command)
}

/// What a simple command makes of words.
fn parse<'a>(command: Command<'a>, words: &'a [String]) -> Result<ArgMatches<'a>, WordsFault>
    requires { is_simple_and_free (app_of command) ≡ true }
    ensures ok { IfOk result (λ m. (fault_of (app_of command.entry) (texts_of words.entry.now) ≡ [])
        × (rows_of (found_of m) ≡ matches_of (app_of command.entry) (texts_of words.entry.now))) }
    ensures usage { IfErr result (λ e. e ≡ WordsFault.Usage
        → fault_of (app_of command.entry) (texts_of words.entry.now) ≢ []) }
{
    match command.try_get_matches_from(words) {
        Ok(matches) => Ok(matches),
        Err(error) => Err(fault_of_kind(error.kind())),
    }
}

/// What is wrong with words at which a parse failed by this kind of error.
fn fault_of_kind(kind: ErrorKind) -> WordsFault
    ensures { result ≡ WordsFault.Usage → kind ≢ ErrorKind.OutOfMemory }
{
    match kind {
        ErrorKind::OutOfMemory => WordsFault::Memory,
        _ => WordsFault::Usage,
    }
}

/// What the command of `asprin` makes of words.
pub(crate) fn asprin_matches<'a>(
    alloc: Global,
    words: &'a [String],
) -> Result<ArgMatches<'a>, WordsFault>
    ensures { Answers Gives (taken_of asprin_options (texts_of words.entry.now)) result }
{
    let command = asprin_command(alloc)?;
    parse(command, words)
}

/// The command of `asprin_check` and of `asprin_session`.
fn led_command<'a>(alloc: Global) -> Result<Command<'a>, AllocError>
    ensures { IfOk result (λ command. app_of command ≡ app_for led_options) }
{
    let command = plain_command(alloc)
        .arg(letter(alloc, "c", 'c', ArgAction::Append))?
        .arg(files(alloc))?;
    Ok(command)
}

/// What the command of `asprin_check` and of `asprin_session` makes of words.
pub(crate) fn led_matches<'a>(
    alloc: Global,
    words: &'a [String],
) -> Result<ArgMatches<'a>, WordsFault>
    ensures { Answers LedGives (taken_of led_options (texts_of words.entry.now)) result }
{
    let command = led_command(alloc)?;
    parse(command, words)
}
