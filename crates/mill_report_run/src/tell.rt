//! What is printed, and the status that it ends with.
ghost use Rattle.std.specs.Prelude.{◌-◌, ◌^◌, ◌<◌, ◌≤◌};
ghost use Rattle.mill_answer.specs.Statuses.{status_code};
ghost use Rattle.mill_report_run.specs.inner.Loads.{IsOfThree, IsReady};
ghost use Rattle.mill_report_run.specs.inner.Prints.{PrintsFault, PrintsOutcome, PrintsShort, TriesReport, refusal_outcome};

use crate::fault::{fault_report, memory_report, read_fault_report};
use crate::load::Loaded;
use crate::whole::report;
use mill_answer::{Status, tell};
use mill_base::WantOfMemory;
use mill_command::Refusal;
use mill_io::Sink;
use mill_load::{LoadFault, Setup};
use std::alloc::Global;
use std::thread::Threads;

/// Prints the report on what was read.
pub(crate) fn tell_report<R: Threads + Sync, O: Sink>(
    rt: &R,
    alloc: Global,
    loaded: Loaded,
    workers: u32,
    out: &mut O,
) -> Status
    requires some { 1 ≤ workers }
    requires few { workers ≤ 64 }
    requires ready { IsReady loaded }
    requires prints { (O.shows out.old).faults < 2 ^ 64 - 1 }
    ensures { TriesReport loaded (status_code result) (O.shows out.old) (O.shows out.new) }
{
    let Loaded {
        sources,
        setup: Setup { job, part },
        moves,
    } = loaded;
    match report(rt, alloc, sources, &job, part, &moves, workers) {
        Ok(made) => tell(out, &made.text, made.status),
        Err(WantOfMemory) => tell_memory(out),
    }
}

/// Prints what kept the call from a report. That a file couldn't be read takes no memory to tell.
pub(crate) fn tell_fault<O: Sink>(alloc: Global, fault: &LoadFault, out: &mut O) -> Status
    requires of_three { IsOfThree fault.now }
    requires prints { (O.shows out.old).faults < 2 ^ 64 - 1 }
    ensures { PrintsFault fault.now (status_code result) (O.shows out.old) (O.shows out.new) }
{
    match fault {
        LoadFault::Memory => tell_memory(out),
        LoadFault::ReadFault(file) => match read_fault_report(*file) {
            Some(text) => tell(out, text, Status::ReadFault),
            // No other file is read than the three that have such a text.
            None => unreachable!(),
        },
        LoadFault::Unfit(_) => match fault_report(alloc, fault) {
            Ok(text) => tell(out, &text, Status::Refused),
            Err(WantOfMemory) => tell_memory(out),
        },
    }
}

/// Prints what clap says of words that it doesn't take, or that there was no memory for them.
pub(crate) fn tell_refusal<O: Sink>(refusal: Refusal, out: &mut O) -> Status
    requires { (O.shows out.old).faults < 2 ^ 64 - 1 }
    ensures { PrintsOutcome (refusal_outcome refusal) (status_code result)
        (O.shows out.old) (O.shows out.new) }
{
    match refusal {
        Refusal::Help { text } => tell(out, text.as_bytes(), Status::Done),
        Refusal::NotTaken { text } => tell(out, text.as_bytes(), Status::Words),
        Refusal::WantOfMemory => tell_memory(out),
    }
}

/// Prints that memory was short, which takes none.
pub(crate) fn tell_memory<O: Sink>(out: &mut O) -> Status
    requires { (O.shows out.old).faults < 2 ^ 64 - 1 }
    ensures { PrintsShort (status_code result) (O.shows out.old) (O.shows out.new) }
{
    tell(out, memory_report(), Status::Memory)
}
