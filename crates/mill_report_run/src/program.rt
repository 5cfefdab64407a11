//! All that the program does: the words, the files, and the document.
ghost use Rattle.std.specs.Prelude.{◌≡◌, false, map, string_bytes};
ghost use Rattle.mill_answer.specs.Calls.{BlamesFaults, CanCount, call_of};
ghost use Rattle.mill_io.specs.Readings.{AreHeld};
ghost use Rattle.mill_io.specs.Views.{ReadsOnly};
ghost use Rattle.mill_report_run.specs.Headline.{Completes, Headline, Untaken};
ghost use Rattle.mill_report_run.specs.inner.Prints.{Serves};
ghost use Rattle.mill_report_run.specs.Outcomes.{HasOutcome};
ghost use Rattle.mill_report_run.specs.Words.{IsBounded, is_taken, request_of};

use crate::load::load;
use crate::tell::{tell_fault, tell_refusal, tell_report};
use crate::words::{Asked, read_words};
use mill_answer::Status;
use mill_io::{Shelf, Sink};
use mill_verify::{one_verdict, start_is_safe};
use std::alloc::Global;
use std::thread::Threads;

/// All that the program does: takes the words, reads the three files that they name, and prints the
/// report on them.
///
/// What it promises of the files holds for whatever they hold, if they hold what the reads gave:
/// the clauses say it of any `contents`, which tell of each name what its file holds, or nothing.
/// What the store tells of its own files holds that.
///
/// The words don't have the program's name. What keeps it from a report is printed as a document
/// too, and clap's text of help or of a mistake in the words as it is. The text goes to the sink
/// whole, or the status is `WriteFault` and a prefix of it went there.
pub fn run<R: Threads + Sync, S: Shelf, O: Sink>(
    rt: &R,
    alloc: Global,
    words: &[String],
    shelf: &mut S,
    out: &mut O,
) -> Status
    requires { CanCount (S.shows shelf.old) (O.shows out.old) }

    // It ends as a failed write exactly where a write of the sink has failed, and as a failed read
    // exactly where a read of the store has failed and the sink has not.
    ensures faults { BlamesFaults (call_of result
        (S.shows shelf.old) (S.shows shelf.new) (O.shows out.old) (O.shows out.new)) }

    // Nothing is written to the store; where the words aren't taken, no call on it is made.
    ensures kept { ReadsOnly (S.shows shelf.old) (S.shows shelf.new) }
    ensures untouched { is_taken (map string_bytes words.now) ≡ false → shelf.new ≡ shelf.old }

    // What the store tells of its files holds what the reads gave. So what is said below of
    // whatever the files hold, if they hold that, is said of what the store tells.
    ensures held { AreHeld (S.shows shelf.old).contents
        (S.shows shelf.old).log (S.shows shelf.new).log }

    // What the call came to, whatever the outside did, by whatever the files hold, if they hold
    // what the reads gave; and what was printed.
    ensures outcome { HasOutcome (map string_bytes words.now) (call_of result
        (S.shows shelf.old) (S.shows shelf.new) (O.shows out.old) (O.shows out.new)) }

    // From bytes to bytes: where nothing of the outside failed and memory was enough.
    ensures completes { Completes (map string_bytes words.now) (call_of result
        (S.shows shelf.old) (S.shows shelf.new) (O.shows out.old) (O.shows out.new)) }
    ensures untaken { Untaken (map string_bytes words.now) (call_of result
        (S.shows shelf.old) (S.shows shelf.new) (O.shows out.old) (O.shows out.new)) }

    // What status 0 and status 3 mean.
    ensures headline { Headline (map string_bytes words.now) (call_of result
        (S.shows shelf.old) (S.shows shelf.new) (O.shows out.old) (O.shows out.new)) }
{
    // Laws without code, on which the headline rests: there is at most one verdict on a program,
    // and a tool that may start anywhere comes safely to where the moves begin.
    one_verdict();
    start_is_safe();
    work(rt, alloc, words, shelf, out)
}

/// Reads the words, and serves what they ask for.
fn work<R: Threads + Sync, S: Shelf, O: Sink>(
    rt: &R,
    alloc: Global,
    words: &[String],
    shelf: &mut S,
    out: &mut O,
) -> Status
    requires { CanCount (S.shows shelf.old) (O.shows out.old) }
    ensures outcome { HasOutcome (map string_bytes words.now) (call_of result
        (S.shows shelf.old) (S.shows shelf.new) (O.shows out.old) (O.shows out.new)) }
    ensures untouched { is_taken (map string_bytes words.now) ≡ false → shelf.new ≡ shelf.old }
{
    match read_words(alloc, words) {
        Ok(asked) => serve(rt, alloc, shelf, asked, out),
        Err(refusal) => tell_refusal(refusal, out),
    }
}

/// Reads the files, and prints the report on them or what keeps it from one.
fn serve<R: Threads + Sync, S: Shelf, O: Sink>(
    rt: &R,
    alloc: Global,
    shelf: &mut S,
    asked: Asked<'_>,
    out: &mut O,
) -> Status
    requires bounded { IsBounded (request_of asked) }
    requires counts { CanCount (S.shows shelf.old) (O.shows out.old) }
    ensures { Serves (request_of asked.entry).files (call_of result
        (S.shows shelf.old) (S.shows shelf.new) (O.shows out.old) (O.shows out.new)) }
{
    match load(rt, alloc, shelf, asked.job, asked.part, asked.program) {
        Ok(loaded) => tell_report(rt, alloc, loaded, asked.workers, out),
        Err(fault) => tell_fault(alloc, &fault, out),
    }
}
