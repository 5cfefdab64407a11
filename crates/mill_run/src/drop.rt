//! The command `drop`: how low the tool comes at one place, over part and fixtures.
ghost use Rattle.std.specs.Prelude.{◌≡◌, ◌-◌, ◌^◌, ◌<◌, IfOk};
ghost use Rattle.mill_command.specs.Requests.{drop as asks_drop};
ghost use Rattle.mill_answer.specs.Calls.{CanCount, call_of};
ghost use Rattle.mill_run.specs.Drop.{height_line};
ghost use Rattle.mill_load.specs.Loads.{IsSetup};
ghost use Rattle.mill_job.specs.Tables.{IsPlace};
ghost use Rattle.mill_run.specs.Outcomes.{Serves};
ghost use Rattle.mill_run.specs.inner.Prints.{TriesHeight};
ghost use Rattle.mill_answer.specs.Statuses.{status_code};

use crate::keeping::kept_off;
use mill_answer::Word::{Length, Text};
use mill_answer::{Status, line_of, line_of_word_fault, tell_fault, tell_made, tell_memory};
use mill_base::{Unit, WantOfMemory};
use mill_drop::drop_once;
use mill_io::{Shelf, Sink};
use mill_job::Place;
use mill_load::{Setup, load_job, load_under, read_place};
use std::alloc::Global;

/// The work of `drop`: reads the job, then the place in the job's unit, then the part, and prints
/// the drop height there or what keeps it from one.
pub fn drop_cutter<S: Shelf, O: Sink>(
    alloc: Global,
    shelf: &mut S,
    job: &str,
    part: &str,
    x: &str,
    y: &str,
    out: &mut O,
) -> Status
    requires { CanCount (S.shows shelf.old) (O.shows out.old) }
    ensures { Serves (asks_drop job.now part.now x.now y.now)
        (call_of result (S.shows shelf.old) (S.shows shelf.new) (O.shows out.old) (O.shows out.new)) }
{
    let job = match load_job(alloc, shelf, job) {
        Ok(job) => job,
        Err(fault) => return tell_fault(alloc, fault, out),
    };
    let place = match read_place(x, y, job.fields.unit) {
        Ok(place) => place,
        Err(fault) => return tell_made(line_of_word_fault(alloc, fault), Status::Refused, out),
    };
    match load_under(alloc, shelf, job, part) {
        Ok(setup) => tell_drop(alloc, setup, place, out),
        Err(fault) => tell_fault(alloc, fault, out),
    }
}

/// Prints the drop height at a place, or that there was no memory for what the tool keeps off.
fn tell_drop<O: Sink>(alloc: Global, setup: Setup, place: Place, out: &mut O) -> Status
    requires ready { IsSetup setup }
    requires place_ok { IsPlace setup.job.fields.unit place }
    requires prints { (O.shows out.old).faults < 2 ^ 64 - 1 }
    ensures { TriesHeight setup place (status_code result) (O.shows out.old) (O.shows out.new) }
{
    let job = setup.job;
    let Ok(all) = kept_off(alloc, &job, setup.part) else {
        return tell_memory(out);
    };
    let tool = job.tool();
    let height = drop_once(&all, &tool, place.x, place.y, job.fields.floor);
    tell_made(
        line_of_height(alloc, height, job.fields.unit),
        Status::Done,
        out,
    )
}

/// The line of a drop height.
fn line_of_height(alloc: Global, height: i32, unit: Unit) -> Result<Vec<u8>, WantOfMemory>
    ensures { IfOk result (λ made. made.items ≡ height_line unit height) }
{
    line_of(alloc, &[Text(b"drop")], &[Length(height, unit)])
}
