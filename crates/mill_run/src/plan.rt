//! The command `plan`: a program that cuts the job's part, stored as a file.
ghost use Rattle.std.specs.Prelude.{◌≡◌, ℕ, ◌-◌, ◌^◌, ◌<◌, List, IfErr, IfOk, Option};
ghost use Rattle.mill_command.specs.Requests.{plan as asks_plan};
ghost use Rattle.mill_io.specs.Readings.{AreHeld};
ghost use Rattle.mill_plan.specs.Plans.{answer_of};
ghost use Rattle.mill_run.specs.Answers.{planned as planned_answer};
ghost use Rattle.mill_answer.specs.Calls.{CanCount, call_of};
ghost use Rattle.mill_run.specs.inner.Loads.{AreWorkers, CanBePlanned, LoadsFed, LoadsPlan};
ghost use Rattle.mill_load.specs.Loads.{NamesFault, OnlyLoads};
ghost use Rattle.mill_load.specs.Setup.{setup_texts};
ghost use Rattle.mill_load.specs.declared.file.File.{File as AnyFile};
ghost use Rattle.mill_load.specs.declared.file.File.TheVariants.{Job as JobFile, Part as PartFile};
ghost use Rattle.mill_run.specs.Outcomes.{Serves, ShowsOr, answered};
ghost use Rattle.mill_run.specs.Plan.{held_line, plan_line};
ghost use Rattle.mill_run.specs.inner.Prints.{PrintsPlanFault, ShowsPlanOr};
ghost use Rattle.mill_answer.specs.Statuses.{status_code};

use mill_answer::Word::{Length, Number, Text};
use mill_answer::{
    Status, line_of, line_of_column, line_of_nodes, tell, tell_fault, tell_made, tell_memory,
};
use mill_base::{Unit, WantOfMemory};
use mill_crew::Threaded;
use mill_io::{Failed, Shelf, Sink, store};
use mill_job::{Job, JobFault, Key};
use mill_load::{LoadFault, Setup, Unfit, load_job, load_under};
use mill_part::SortedPart;
use mill_plan::{PlanFault, Planned, plan};
use std::alloc::Global;
use std::thread::Threads;

/// The work of `plan`: reads the job and the part, stores a program that cuts the part under `name`,
/// and prints its numbers, or what keeps it from a program. There is none for a job that asks for a
/// spindle.
pub fn plan_program<R: Threads + Sync, S: Shelf, O: Sink>(
    rt: &R,
    alloc: Global,
    shelf: &mut S,
    job: &str,
    part: &str,
    name: &str,
    workers: u32,
    out: &mut O,
) -> Status
    requires workers { AreWorkers workers }
    requires counts { CanCount (S.shows shelf.old) (O.shows out.old) }
    ensures { Serves (asks_plan job.now part.now name.now workers)
        (call_of result (S.shows shelf.old) (S.shows shelf.new) (O.shows out.old) (O.shows out.new)) }
{
    match load_plan(alloc, shelf, job, part) {
        Ok(setup) => tell_plan(rt, alloc, shelf, setup, name, workers, out),
        Err(fault) => tell_fault(alloc, fault, out),
    }
}

/// Reads the job and then the part. The first fault ends it. Between the job's own faults and those
/// of the part comes the want of a feed, where the job asks for a spindle.
fn load_plan<S: Shelf>(
    alloc: Global,
    shelf: &mut S,
    job: &str,
    part: &str,
) -> Result<Setup, LoadFault>
    ensures told { (contents : List ℕ → Option (List ℕ)) →
        AreHeld contents (S.shows shelf.old).log (S.shows shelf.new).log →
        LoadsPlan (setup_texts contents job.now part.now) result }
    ensures ready { IfOk result CanBePlanned }
    ensures failed { (names : AnyFile → List ℕ) →
        names JobFile ≡ job.now → names PartFile ≡ part.now →
        IfErr result (NamesFault names (S.shows shelf.new).log) }
    ensures store { OnlyLoads (S.shows shelf.old) (S.shows shelf.new) result }
{
    match load_job(alloc, shelf, job) {
        Ok(job) => load_fed(alloc, shelf, job, part),
        Err(fault) => Err(fault),
    }
}

/// Reads the part for a job that asks for no spindle. The programs of one that does have to name a
/// feed, which no key of a job names yet: no plan is made for it.
fn load_fed<S: Shelf>(
    alloc: Global,
    shelf: &mut S,
    job: Job,
    part: &str,
) -> Result<Setup, LoadFault>
    ensures told { (contents : List ℕ → Option (List ℕ)) →
        AreHeld contents (S.shows shelf.old).log (S.shows shelf.new).log →
        LoadsFed job.fields (contents part.now) result }
    ensures ready { IfOk result CanBePlanned }
    ensures failed { (names : AnyFile → List ℕ) → names PartFile ≡ part.now →
        IfErr result (NamesFault names (S.shows shelf.new).log) }
    ensures store { OnlyLoads (S.shows shelf.old) (S.shows shelf.new) result }
{
    if job.fields.spindle {
        return Err(LoadFault::Unfit(Unfit::JobRefused(JobFault::Missing(Key::Feed))));
    }
    load_under(alloc, shelf, job, part)
}

/// Plans a program for what was read, stores it and prints its numbers, or what keeps it from one.
fn tell_plan<R: Threads + Sync, S: Shelf, O: Sink>(
    rt: &R,
    alloc: Global,
    shelf: &mut S,
    setup: Setup,
    name: &str,
    workers: u32,
    out: &mut O,
) -> Status
    requires workers { AreWorkers workers }
    requires ready { CanBePlanned setup }
    requires counts { CanCount (S.shows shelf.old) (O.shows out.old) }
    ensures shown { ShowsPlanOr setup name.now
        (call_of result (S.shows shelf.old) (S.shows shelf.new) (O.shows out.old) (O.shows out.new)) }
    ensures unread { (S.shows shelf.new).log ≡ (S.shows shelf.old).log }
{
    let job = setup.job;
    let Ok(part) = SortedPart::new(alloc, setup.part) else {
        return tell_memory(out);
    };
    match plan(&Threaded { rt, workers }, alloc, &job, &part) {
        Ok(planned) => store_plan(alloc, shelf, &job, &part, name, &planned, out),
        Err(fault) => tell_plan_fault(alloc, fault, job.fields.unit, out),
    }
}

/// Stores a program that was planned, and then prints its numbers.
///
/// Their line is made before, so that nothing is stored where there is no memory for it. Where the
/// storing fails, nothing is printed.
fn store_plan<S: Shelf, O: Sink>(
    alloc: Global,
    shelf: &mut S,
    job: &Job,
    part: &SortedPart,
    name: &str,
    planned: &Planned,
    out: &mut O,
) -> Status
    requires counts { CanCount (S.shows shelf.old) (O.shows out.old) }
    ensures shown { ShowsOr (answered
        (planned_answer job.now.fields part.now name.now (answer_of planned.now)))
        (call_of result (S.shows shelf.old) (S.shows shelf.new) (O.shows out.old) (O.shows out.new)) }
    ensures unread { (S.shows shelf.new).log ≡ (S.shows shelf.old).log }
{
    let line = match line_of_plan(alloc, planned, job.fields.unit) {
        Ok(line) => line,
        Err(WantOfMemory) => return tell_memory(out),
    };
    match store(shelf, name, &planned.program) {
        Ok(()) => tell(out, &line, Status::Done),
        Err(Failed) => Status::WriteFault,
    }
}

/// Prints why there is no program.
pub fn tell_plan_fault<O: Sink>(alloc: Global, fault: PlanFault, unit: Unit, out: &mut O) -> Status
    requires { (O.shows out.old).faults < 2 ^ 64 - 1 }
    ensures { PrintsPlanFault unit fault (status_code result) (O.shows out.old) (O.shows out.new) }
{
    match fault {
        PlanFault::TooManyNodes { nodes } => {
            tell_made(line_of_nodes(alloc, nodes), Status::TooLarge, out)
        }
        PlanFault::TooManyMoves => tell(out, b"over moves\n", Status::TooLarge),
        PlanFault::Uncut { row, col, top } => {
            tell_made(
                line_of_column(alloc, &[], b"uncut", row, col, top, unit),
                Status::Uncut,
                out,
            )
        }
        PlanFault::Held { at, row, col } => {
            tell_made(line_of_held(alloc, at, row, col), Status::Uncut, out)
        }
        PlanFault::WantOfMemory => tell_memory(out),
    }
}

/// The line of a program that was planned.
fn line_of_plan(alloc: Global, planned: &Planned, unit: Unit) -> Result<Vec<u8>, WantOfMemory>
    ensures { IfOk result (λ made. made.items ≡ plan_line unit (answer_of planned.now)) }
{
    line_of(
        alloc,
        &[Text(b"planned")],
        &[
            Text(b"moves"),
            Number(planned.moves),
            Text(b"columns"),
            Number(planned.columns),
            Text(b"left"),
            Length(planned.most_left, unit),
        ],
    )
}

/// The line of a plan on this move of which the holder would touch what is left of this column.
fn line_of_held(alloc: Global, at: u64, row: u32, col: u32) -> Result<Vec<u8>, WantOfMemory>
    ensures { IfOk result (λ made. made.items ≡ held_line at row col) }
{
    line_of(
        alloc,
        &[Text(b"held")],
        &[
            Text(b"move"),
            Number(at),
            Text(b"row"),
            Number(u64::from(row)),
            Text(b"column"),
            Number(u64::from(col)),
        ],
    )
}
