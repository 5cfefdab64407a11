//! The end of the program: its exit status.
ghost use Rattle.std.specs.Prelude.{◌≡◌, IfErr, IfOk, false, map, string_bytes};
ghost use Rattle.mill_answer.specs.Calls.{BlamesFaults, CanCount, ended_call};
ghost use Rattle.mill_io.specs.Readings.{AreHeld};
ghost use Rattle.mill_io.specs.Views.{ReadsOnly};
ghost use Rattle.mill_load.specs.declared.load.LoadFault.TheVariants.{Memory};
ghost use Rattle.mill_report_run.specs.Headline.{Completes, Headline, Untaken};
ghost use Rattle.mill_report_run.specs.Outcomes.{HasOutcome, Shows, failed};
ghost use Rattle.mill_report_run.specs.Words.{is_taken};

use crate::program::run;
use crate::tell::tell_memory;
use mill_answer::exit_code_of;
use mill_base::WantOfMemory;
use mill_io::{Shelf, Sink};
use std::alloc::Global;
use std::process::ExitCode;
use std::thread::Threads;

/// All that the program does, and the code that its process is to end with.
///
/// The words don't have the program's name; where there was no memory for them, that is printed and
/// no call on the store is made. The code is that of the status of [`run`], and all that `run`
/// promises is promised of it: of the files, for whatever they hold, if they hold what the reads
/// gave.
pub fn end<R: Threads + Sync, S: Shelf, O: Sink>(
    rt: &R,
    alloc: Global,
    words: Result<Vec<String>, WantOfMemory>,
    shelf: &mut S,
    out: &mut O,
) -> ExitCode
    requires { CanCount (S.shows shelf.old) (O.shows out.old) }

    // It is that of a failed write or of a failed read exactly where such a call has failed.
    ensures faults { BlamesFaults (ended_call result
        (S.shows shelf.old) (S.shows shelf.new) (O.shows out.old) (O.shows out.new)) }

    // Nothing is written to the store; where there are no words, or they aren't taken, no call on
    // it is made.
    ensures kept { ReadsOnly (S.shows shelf.old) (S.shows shelf.new) }
    ensures untouched { IfOk words (λ words. is_taken (map string_bytes words.items) ≡ false) →
        shelf.new ≡ shelf.old }

    // What the store tells of its files holds what the reads gave.
    ensures held { AreHeld (S.shows shelf.old).contents
        (S.shows shelf.old).log (S.shows shelf.new).log }

    // What the call came to, by whatever the files hold, if they hold what the reads gave, and what
    // was printed; the code is the outcome's.
    ensures outcome { IfOk words (λ words.
        HasOutcome (map string_bytes words.items) (ended_call result
        (S.shows shelf.old) (S.shows shelf.new) (O.shows out.old) (O.shows out.new))) }

    // Where the files are told and read, nothing of the outside failed and memory was enough, it is
    // 0 or 3, and what these mean; and what it is where the words aren't taken.
    ensures completes { IfOk words (λ words.
        Completes (map string_bytes words.items) (ended_call result
        (S.shows shelf.old) (S.shows shelf.new) (O.shows out.old) (O.shows out.new))) }
    ensures untaken { IfOk words (λ words.
        Untaken (map string_bytes words.items) (ended_call result
        (S.shows shelf.old) (S.shows shelf.new) (O.shows out.old) (O.shows out.new))) }
    ensures headline { IfOk words (λ words.
        Headline (map string_bytes words.items) (ended_call result
        (S.shows shelf.old) (S.shows shelf.new) (O.shows out.old) (O.shows out.new))) }

    // Without memory for the words that is shown.
    ensures short { IfErr words (λ _. Shows (ended_call result
        (S.shows shelf.old) (S.shows shelf.new) (O.shows out.old) (O.shows out.new))
        (failed Memory)) }
{
    match words {
        Ok(words) => exit_code_of(run(rt, alloc, &words, shelf, out)),
        Err(WantOfMemory) => exit_code_of(tell_memory(out)),
    }
}
