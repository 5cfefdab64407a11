//! The end of the program: its exit status.
ghost use Rattle.std.specs.Prelude.{◌≡◌, IfErr, IfOk, map, string_bytes};
ghost use Rattle.mill_io.specs.Readings.{AreHeld};
ghost use Rattle.mill_io.specs.Views.{ReadsOnly};
ghost use Rattle.mill_answer.specs.Calls.{BlamesFaults, CanCount, ended_call};
ghost use Rattle.mill_run.specs.Headline.{Headlines, Replies};
ghost use Rattle.mill_run.specs.Outcomes.{HasOutcome, Shows, no_memory};
ghost use Rattle.mill_run.specs.Words.{AsksNoFile, AsksNoFileStored};

use crate::commands::run;
use mill_answer::{exit_code_of, tell_memory};
use mill_base::WantOfMemory;
use mill_io::{Shelf, Sink};
use std::alloc::Global;
use std::process::ExitCode;
use std::thread::Threads;

/// All that the program does, and the code that its process is to end with.
///
/// The words don't have the program's name; where there was no memory for them, that is printed and
/// no call on the store is made. The code is that of the status of [`run`], and all that `run`
/// promises of a call is promised here: of the files, of whatever they hold, if they hold what the
/// reads gave.
pub fn end<R: Threads + Sync, S: Shelf, O: Sink>(
    rt: &R,
    alloc: Global,
    words: Result<Vec<String>, WantOfMemory>,
    shelf: &mut S,
    out: &mut O,
) -> ExitCode
    requires { CanCount (S.shows shelf.old) (O.shows out.old) }

    // It is the code of a failed write, and of a failed read, exactly where such a call has failed.
    ensures faults { BlamesFaults (ended_call result
        (S.shows shelf.old) (S.shows shelf.new) (O.shows out.old) (O.shows out.new)) }

    // Where there are no words, or they ask neither for a plan nor for a stock, nothing is written
    // to the store.
    ensures kept { IfOk words (λ words. AsksNoFileStored (map string_bytes words.items)) →
        ReadsOnly (S.shows shelf.old) (S.shows shelf.new) }

    // Where there are no words, or they name no file, no call on the store is made.
    ensures untouched { IfOk words (λ words. AsksNoFile (map string_bytes words.items)) →
        shelf.new ≡ shelf.old }

    // What the store tells of its files holds what the reads gave.
    ensures held { AreHeld (S.shows shelf.old).contents
        (S.shows shelf.old).log (S.shows shelf.new).log }

    // What the call came to, by whatever the files hold, if they hold what the reads gave, and what
    // was printed and stored; the code is the outcome's.
    ensures outcome { IfOk words (λ words.
        HasOutcome (map string_bytes words.items) (ended_call result
        (S.shows shelf.old) (S.shows shelf.new) (O.shows out.old) (O.shows out.new))) }

    // From bytes to bytes: where nothing of the outside failed and memory was enough.
    ensures replies { IfOk words (λ words.
        Replies (map string_bytes words.items) (ended_call result
        (S.shows shelf.old) (S.shows shelf.new) (O.shows out.old) (O.shows out.new))) }

    // What 0 and 3 mean of `verify` and of `rest`, and 0 of `plan` and of `stock`.
    ensures headlines { IfOk words (λ words.
        Headlines (map string_bytes words.items) (ended_call result
        (S.shows shelf.old) (S.shows shelf.new) (O.shows out.old) (O.shows out.new))) }

    // Without memory for the words that is shown.
    ensures short { IfErr words (λ _. Shows (ended_call result
        (S.shows shelf.old) (S.shows shelf.new) (O.shows out.old) (O.shows out.new)) no_memory) }
{
    match words {
        Ok(words) => exit_code_of(run(rt, alloc, &words, shelf, out)),
        Err(WantOfMemory) => exit_code_of(tell_memory(out)),
    }
}
