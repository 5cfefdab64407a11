//! All that the program does: the words, and the choice of the command.
ghost use Rattle.std.specs.Prelude.{◌≡◌, ◌-◌, ◌^◌, ◌<◌, ℕ, map, string_bytes};
ghost use Rattle.mill_command.specs.Requests.{IsBounded, request_of, sample as asks_sample};
ghost use Rattle.mill_io.specs.Readings.{AreHeld};
ghost use Rattle.mill_io.specs.Views.{ReadsOnly};
ghost use Rattle.mill_answer.specs.Calls.{BlamesFaults, CanCount, call_of};
ghost use Rattle.mill_run.specs.Headline.{Headline, PlanHeadline, Replies, RestHeadline, StockHeadline};
ghost use Rattle.mill_run.specs.Outcomes.{HasOutcome, Serves};
ghost use Rattle.mill_run.specs.inner.Prints.{PrintsOutcome, refusal_outcome};
ghost use Rattle.mill_answer.specs.Statuses.{status_code};
ghost use Rattle.mill_run.specs.Words.{AsksNoFile, AsksNoFileStored};

use crate::drop::drop_cutter;
use crate::level::level_part;
use crate::plan::plan_program;
use crate::rest::verify_files;
use crate::sample::sample;
use crate::stock::stock_program;
use crate::verify::verify_program;
use mill_answer::{Status, tell, tell_memory};
use mill_command::{Command, Refusal, read_words};
use mill_io::{Shelf, Sink};
use mill_verify::{one_list_verdict, one_verdict, start_is_safe};
use std::alloc::Global;
use std::thread::Threads;

/// All that the program does: takes the words, does the work on the files that they name, and
/// prints its answer.
///
/// What it promises of the files it promises of whatever they hold, if they hold what the reads
/// gave: the clauses say it of any `contents`, which tell of each name what its file holds, or
/// nothing. What the store tells of its files holds what the reads gave.
///
/// The words don't have the program's name. The answer goes to the sink whole, or the status is
/// `WriteFault` and a prefix of it went there. The contents of every file stay, but where the words
/// ask for a plan or a stock: then the contents of the file that they name for it become the program,
/// or the text of the stock's surface, if there is one. A store that fails at that leaves them as they
/// were, or a prefix of that text.
pub fn run<R: Threads + Sync, S: Shelf, O: Sink>(
    rt: &R,
    alloc: Global,
    words: &[String],
    shelf: &mut S,
    out: &mut O,
) -> Status
    requires { CanCount (S.shows shelf.old) (O.shows out.old) }

    // It ends as a failed write exactly where a write of the store or the sink has failed, and as a
    // failed read exactly where a read of the store has failed and the sink has not.
    ensures faults { BlamesFaults (call_of result
        (S.shows shelf.old) (S.shows shelf.new) (O.shows out.old) (O.shows out.new)) }

    // Where the words ask neither for a plan nor for a stock, nothing is written to the store.
    ensures kept { AsksNoFileStored (map string_bytes words.now) →
        ReadsOnly (S.shows shelf.old) (S.shows shelf.new) }

    // Where the words name no file, no call on the store is made.
    ensures untouched { AsksNoFile (map string_bytes words.now) → shelf.new ≡ shelf.old }

    // What the store tells of its files holds what the reads gave. So what the clauses below say of
    // whatever the files hold, if they hold that, they say of what the store tells.
    ensures held { AreHeld (S.shows shelf.old).contents
        (S.shows shelf.old).log (S.shows shelf.new).log }

    // What the call came to, whatever the outside did, and by whatever the files hold, if they hold
    // what the reads gave; what was printed and what was stored.
    ensures outcome { HasOutcome (map string_bytes words.now) (call_of result
        (S.shows shelf.old) (S.shows shelf.new) (O.shows out.old) (O.shows out.new)) }

    // From bytes to bytes: where nothing of the outside failed and memory was enough.
    ensures replies { Replies (map string_bytes words.now) (call_of result
        (S.shows shelf.old) (S.shows shelf.new) (O.shows out.old) (O.shows out.new)) }

    // What status 0 and status 3 of `verify` and of `rest` mean, and status 0 of `plan` and of `stock`.
    ensures headline { Headline (map string_bytes words.now) (call_of result
        (S.shows shelf.old) (S.shows shelf.new) (O.shows out.old) (O.shows out.new)) }
    ensures plan_headline { PlanHeadline (map string_bytes words.now) (call_of result
        (S.shows shelf.old) (S.shows shelf.new) (O.shows out.old) (O.shows out.new)) }
    ensures stock_headline { StockHeadline (map string_bytes words.now) (call_of result
        (S.shows shelf.old) (S.shows shelf.new) (O.shows out.old) (O.shows out.new)) }
    ensures rest_headline { RestHeadline (map string_bytes words.now) (call_of result
        (S.shows shelf.old) (S.shows shelf.new) (O.shows out.old) (O.shows out.new)) }
{
    // Laws without code: there is at most one verdict, on a program and on a list of them, and the
    // tool comes safely to where a program's moves begin. Parts of the headlines rest on them.
    one_verdict();
    one_list_verdict();
    start_is_safe();
    work(rt, alloc, words, shelf, out)
}

/// Reads the words, and serves the command that they ask for.
fn work<R: Threads + Sync, S: Shelf, O: Sink>(
    rt: &R,
    alloc: Global,
    words: &[String],
    shelf: &mut S,
    out: &mut O,
) -> Status
    requires { CanCount (S.shows shelf.old) (O.shows out.old) }
    ensures outcome { HasOutcome (map string_bytes words.now) (call_of result
        (S.shows shelf.old) (S.shows shelf.new) (O.shows out.old) (O.shows out.new)) }
    ensures untouched { AsksNoFile (map string_bytes words.now) → shelf.new ≡ shelf.old }
{
    match read_words(alloc, words) {
        Ok(command) => serve(rt, alloc, shelf, command, out),
        Err(refusal) => tell_refusal(refusal, out),
    }
}

/// Prints what clap says of words that it doesn't take, or that there was no memory for them.
fn tell_refusal<O: Sink>(refusal: Refusal, out: &mut O) -> Status
    requires { (O.shows out.old).faults < 2 ^ 64 - 1 }
    ensures { PrintsOutcome (refusal_outcome refusal) (status_code result)
        (O.shows out.old) (O.shows out.new) }
{
    match refusal {
        Refusal::Help { text } => tell(out, text.as_bytes(), Status::Done),
        Refusal::NotTaken { text } => tell(out, text.as_bytes(), Status::Words),
        Refusal::WantOfMemory => tell_memory(out),
    }
}

/// The work on one command.
fn serve<R: Threads + Sync, S: Shelf, O: Sink>(
    rt: &R,
    alloc: Global,
    shelf: &mut S,
    command: Command<'_>,
    out: &mut O,
) -> Status
    requires bounded { IsBounded (request_of command) }
    requires counts { CanCount (S.shows shelf.old) (O.shows out.old) }
    ensures served { Serves (request_of command.entry) (call_of result
        (S.shows shelf.old) (S.shows shelf.new) (O.shows out.old) (O.shows out.new)) }
    ensures untouched { (size workers : ℕ) → request_of command.entry ≡ asks_sample size workers
        → shelf.new ≡ shelf.old }
{
    match command {
        Command::Verify {
            job,
            part,
            file,
            workers,
        } => verify_program(rt, alloc, shelf, job, part, file, workers, out),
        Command::Plan {
            job,
            part,
            out: name,
            workers,
        } => plan_program(rt, alloc, shelf, job, part, name, workers, out),
        Command::Drop { job, part, x, y } => drop_cutter(alloc, shelf, job, part, x, y, out),
        Command::Level { job, part, z } => level_part(alloc, shelf, job, part, z, out),
        Command::Stock {
            job,
            file,
            out: name,
        } => stock_program(alloc, shelf, job, file, name, out),
        Command::Rest {
            job,
            part,
            list,
            workers,
        } => verify_files(rt, alloc, shelf, job, part, list, workers, out),
        Command::Sample { size, workers } => sample(rt, alloc, size, workers, out),
    }
}
