ghost use Rattle.std.specs.Prelude.{◌≡◌, IfOk, is_some, map, option_and_then, option_map, string_bytes};
ghost use Rattle.clap.specs.Words.{FailsBy, HasKind, Kinds, subcommand_of, subcommand_rows_of};
ghost use Rattle.mill_command.specs.Requests.{IsBounded, ReadsWords, Refuses, faults, is_taken, request, request_in, request_of};
ghost use Rattle.mill_command.specs.Set.{commands};

use crate::command::Command;
use crate::refusal::Refusal;
use crate::set::commands;
use clap::error::ErrorKind;
use clap::{ArgMatches, Error};
use std::alloc::Global;

/// The command that the words ask for. The program's name isn't among them.
///
/// # Errors
/// `Help` where clap answers the words with its help or its version, `NotTaken` where it doesn't
/// take them, and `WantOfMemory`.
pub fn read_words<'a>(alloc: Global, words: &'a [String]) -> Result<Command<'a>, Refusal>
    ensures reads { ReadsWords (map string_bytes words.now) result }

    // Words that clap takes are a command, with each of its values.
    ensures whole { is_some (request (map string_bytes words.now)) ≡ is_taken (map string_bytes words.now) }
    ensures bounded { IfOk result (λ c. IsBounded (request_of c)) }
{
    let matches = match parse(alloc, words) {
        Ok(matches) => matches,
        Err(error) => return Err(refusal_of(alloc, &error)),
    };
    match command_of(&matches) {
        Some(command) => Ok(command),
        // Words that clap takes ask for a command, as the clause `whole` says.
        None => unreachable!(),
    }
}

/// What clap makes of the words.
fn parse<'a>(alloc: Global, words: &'a [String]) -> Result<ArgMatches<'a>, Error>
    ensures kinds { FailsBy (faults (map string_bytes words.now)) result }
    ensures matches { IfOk result (λ m. subcommand_rows_of m ≡ subcommand_of commands (map string_bytes words.now)) }
{
    commands(alloc)?.try_get_matches_from(words)
}

/// The command of the subcommand that clap has matched.
fn command_of<'a>(matches: &ArgMatches<'a>) -> Option<Command<'a>>
    ensures { option_map request_of result ≡ option_and_then (λ m. request_in m.0 m.1) (subcommand_rows_of matches.now) }
{
    let (name, found) = matches.subcommand()?;
    Command::from_matches(name, found)
}

/// The refusal that an error of clap's stands for, with its text: `Help` for help and the version, and
/// else `NotTaken`. It is `WantOfMemory` where clap's error is that, or there is no memory for the text.
pub fn refusal_of(alloc: Global, error: &Error) -> Refusal
    ensures { (kinds : Kinds) → HasKind kinds error.now → Refuses kinds result }
{
    if error.kind() == ErrorKind::OutOfMemory {
        return Refusal::WantOfMemory;
    }
    let Ok(text) = format!(in alloc; "{error}") else {
        return Refusal::WantOfMemory;
    };
    if error.use_stderr() {
        Refusal::NotTaken { text }
    } else {
        Refusal::Help { text }
    }
}
