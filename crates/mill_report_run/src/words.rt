//! The words of the command line: the names of three files, and how many threads share the work.
ghost use Rattle.std.specs.Prelude.{◌≡◌, IfOk, is_some, map, option_map, string_bytes};
ghost use Rattle.clap.specs.Words.{FailsBy, found_of, matches_of, rows_of};
ghost use Rattle.mill_command.specs.Set.{Is};
ghost use Rattle.mill_report_run.specs.Words.{IsBounded, ReadsWords, faults, is_taken, plain, request, request_in, request_of, taken_words, with_setup, with_workers};

use clap::{ArgMatches, Command, Error};
use mill_command::{Refusal, VERSION, number, place, refusal_of, value, with_arg, workers};
use std::alloc::{AllocError, Global};

/// What stands below the words in the help.
const STATUSES: &str = "\
Exit status; a document tells it too:
  0  the program may be run: no move fails a test, and nothing is left too high
  2  these words aren't taken
  3  it may not: a move fails a test, or a column is left too high
  4  a file is refused, or the part stands over the stock
  5  there was not enough memory
  6  a file could not be read
  7  the document could not be printed";

/// What the words ask for: the names of the three files, as the words have them, and how many
/// threads share the work, from 1 to 64.
#[derive(Clone, Copy, Debug)]
pub(crate) struct Asked<'a> {
    pub job: &'a str,
    pub part: &'a str,
    pub program: &'a str,
    pub workers: u32,
}

/// What the words ask for. The program's name isn't among them.
///
/// # Errors
/// `Help` where clap answers the words with its help or its version, `NotTaken` where it doesn't
/// take them, and `WantOfMemory`.
pub(crate) fn read_words<'a>(alloc: Global, words: &'a [String]) -> Result<Asked<'a>, Refusal>
    ensures reads { ReadsWords (map string_bytes words.now) result }

    // Words that clap takes name each of the three files.
    ensures whole { is_some (request (map string_bytes words.now))
        ≡ is_taken (map string_bytes words.now) }
    ensures bounded { IfOk result (λ asked. IsBounded (request_of asked)) }
{
    let matches = match parse(alloc, words) {
        Ok(matches) => matches,
        Err(error) => return Err(refusal_of(alloc, &error)),
    };
    match asked_of(&matches) {
        Some(asked) => Ok(asked),
        // Words that clap takes name each file, as the clause `whole` says.
        None => unreachable!(),
    }
}

/// What clap makes of the words.
fn parse<'a>(alloc: Global, words: &'a [String]) -> Result<ArgMatches<'a>, Error>
    ensures kinds { FailsBy (faults (map string_bytes words.now)) result }
    ensures matches { IfOk result (λ m. rows_of (found_of m)
        ≡ matches_of taken_words (map string_bytes words.now)) }
{
    command(alloc)?.try_get_matches_from(words)
}

/// What is asked for, by the values that clap has matched.
fn asked_of<'a>(matches: &ArgMatches<'a>) -> Option<Asked<'a>>
    ensures { option_map request_of result ≡ request_in (rows_of (found_of matches.now)) }
{
    Some(Asked {
        job: value(matches, "job")?,
        part: value(matches, "part")?,
        program: value(matches, "file")?,
        workers: number(matches, "workers")?,
    })
}

/// The words that the program takes, ready to be built by a parse.
// The words are added by twos, since each that may fail costs a proof that all before it are
// dropped.
fn command<'a>(alloc: Global) -> Result<Command<'a>, AllocError>
    ensures { IfOk result (Is taken_words) }
{
    let command = with_setup(alloc)?;
    with_arg(
        command,
        place(alloc, "file", "FILE", "The program's file, RS274/NGC"),
    )
}

/// The program with its option and its first two words, the job's and the part's file.
fn with_setup<'a>(alloc: Global) -> Result<Command<'a>, AllocError>
    ensures { IfOk result (Is with_setup) }
{
    let command = with_arg(
        with_workers(alloc)?,
        place(alloc, "job", "JOB", "The job's file, TOML"),
    )?;
    with_arg(
        command,
        place(alloc, "part", "PART", "The part's file, ASCII STL"),
    )
}

/// The program with its option.
fn with_workers<'a>(alloc: Global) -> Result<Command<'a>, AllocError>
    ensures { IfOk result (Is with_workers) }
{
    with_arg(plain(alloc)?, workers(alloc))
}

/// The program without words.
// `bin_name` is for the usage lines, which else lack the program's name.
fn plain<'a>(alloc: Global) -> Result<Command<'a>, AllocError>
    ensures { IfOk result (Is plain) }
{
    Command::new(alloc, "camreport")
        .about("Tells all that is wrong with a program for a three-axis mill, as one JSON document")
        .after_help(STATUSES)
        .version(VERSION)
        .no_binary_name(true)
        .bin_name("camreport")
}
