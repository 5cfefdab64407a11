//! The command `sample`: the sample part of a size that is asked for, planned and verified.
ghost use Rattle.std.specs.Prelude.{◌≡◌, ◌-◌, ◌^◌, ◌<◌, false, List, [], IfOk, Ok};
ghost use Rattle.mill_base.specs.Covers.{IsUnder};
ghost use Rattle.mill_base.specs.declared.motion.Move.{Move as OneMove};
ghost use Rattle.mill_command.specs.Requests.{sample as asks_sample};
ghost use Rattle.mill_io.specs.Views.{StoreView};
ghost use Rattle.mill_job.specs.Columns.{home};
ghost use Rattle.mill_ngc.specs.Programs.{program_of};
ghost use Rattle.mill_plan.specs.Plans.{IsPlanAnswer, answer_of, done};
ghost use Rattle.mill_answer.specs.Calls.{call_of};
ghost use Rattle.mill_load.specs.Loads.{AreMoves};
ghost use Rattle.mill_load.specs.Programs.{SaysMoves, rules_of};
ghost use Rattle.mill_run.specs.inner.Loads.{AreWorkers};
ghost use Rattle.mill_run.specs.SamplePart.{IsSample, IsSize};
ghost use Rattle.mill_run.specs.Outcomes.{Serves};
ghost use Rattle.mill_run.specs.Sample.{sample_line};
ghost use Rattle.mill_run.specs.inner.Prints.{TriesSample};
ghost use Rattle.mill_answer.specs.Statuses.{status_code};

use crate::plan::tell_plan_fault;
use crate::sample_part::sample_setup;
use crate::verify::verdict_on;
use mill_answer::Word::{Length, Number, Text};
use mill_answer::{Status, line_of, tell_made, tell_memory};
use mill_base::{Move, Unit, WantOfMemory};
use mill_crew::Threaded;
use mill_io::Sink;
use mill_job::Job;
use mill_load::{Setup, read_moves};
use mill_ngc::NgcFault;
use mill_part::SortedPart;
use mill_plan::{Planned, plan};
use mill_verify::{Verdict, one_verdict};
use std::alloc::Global;
use std::thread::Threads;

/// The work of `sample`: plans the sample part of a size, verifies the program, and prints its
/// numbers, or what keeps it from a program. No file is read, and none is stored.
pub fn sample<R: Threads + Sync, O: Sink>(
    rt: &R,
    alloc: Global,
    size: u32,
    workers: u32,
    out: &mut O,
) -> Status
    requires size_ok { IsSize size }
    requires workers { AreWorkers workers }
    requires prints { (O.shows out.old).faults < 2 ^ 64 - 1 }

    // Whatever the store is, it stays.
    ensures { (store : StoreView) → Serves (asks_sample size workers)
        (call_of result store store (O.shows out.old) (O.shows out.new)) }
{
    match sample_setup(alloc, size) {
        Ok(setup) => tell_sample(rt, alloc, size, setup, workers, out),
        Err(WantOfMemory) => tell_memory(out),
    }
}

/// Plans and verifies a program for the sample part, and prints its numbers or why there is none.
fn tell_sample<R: Threads + Sync, O: Sink>(
    rt: &R,
    alloc: Global,
    size: u32,
    setup: Setup,
    workers: u32,
    out: &mut O,
) -> Status
    requires setup_ok { IsSample size setup.job.fields setup.part }
    requires workers { AreWorkers workers }
    requires prints { (O.shows out.old).faults < 2 ^ 64 - 1 }
    ensures { TriesSample size (status_code result) (O.shows out.old) (O.shows out.new) }
{
    let job = setup.job;
    let Ok(part) = SortedPart::new(alloc, setup.part) else {
        return tell_memory(out);
    };
    match plan(&Threaded { rt, workers }, alloc, &job, &part) {
        Ok(planned) => tell_planned(rt, alloc, size, &job, &part, &planned, workers, out),
        Err(fault) => tell_plan_fault(alloc, fault, Unit::Hundredth, out),
    }
}

/// Verifies a program that was planned for the sample part, and prints the verdict's numbers.
fn tell_planned<R: Threads + Sync, O: Sink>(
    rt: &R,
    alloc: Global,
    size: u32,
    job: &Job,
    part: &SortedPart,
    planned: &Planned,
    workers: u32,
    out: &mut O,
) -> Status
    requires sample_ok { IsSample size job.now.fields part.now }
    requires planned_ok { IsPlanAnswer job.now.fields part.now (answer_of planned.now) }
    requires workers { AreWorkers workers }
    requires prints { (O.shows out.old).faults < 2 ^ 64 - 1 }
    ensures { TriesSample size (status_code result) (O.shows out.old) (O.shows out.new) }
{
    match verified(rt, alloc, job, part, planned, workers) {
        Ok(
            Verdict::Accept {
                moves,
                columns,
                most_left,
            },
        ) => {
            let line = line_of_sample(alloc, size, moves, columns, most_left);
            tell_made(line, Status::Done, out)
        }
        // The verdict is the plan's, as `verified` says, and that is acceptance.
        Ok(Verdict::Reject(_)) => unreachable!(),
        Err(WantOfMemory) => tell_memory(out),
    }
}

/// The verdict on a program that was planned, as its text reads, for a job that asks for no
/// spindle.
fn verified<R: Threads + Sync>(
    rt: &R,
    alloc: Global,
    job: &Job,
    part: &SortedPart,
    planned: &Planned,
    workers: u32,
) -> Result<Verdict, WantOfMemory>
    requires under { IsUnder part.now job.now.fields.top }
    requires still { job.now.fields.spindle ≡ false }
    requires planned_ok { IsPlanAnswer job.now.fields part.now (answer_of planned.now) }
    requires workers { AreWorkers workers }
    ensures { IfOk result (λ verdict.
        verdict ≡ Verdict.Accept planned.now.moves planned.now.columns planned.now.most_left) }
{
    // A law without code: there is at most one verdict, and the plan has one.
    one_verdict();
    let moves = read_back(alloc, job, &planned.program)?;
    verdict_on(rt, alloc, job, part, &moves, workers)
}

/// The moves of a program's text, which has some.
fn read_back(alloc: Global, job: &Job, program: &[u8]) -> Result<Vec<Move>, WantOfMemory>
    requires { (moves : List OneMove)
        × (program_of (home job.now.fields) job.now.fields.unit (rules_of job.now.fields)
        program.now ≡ Ok moves) }
    ensures told { IfOk result (λ moves. SaysMoves job.now.fields program.now moves.items) }
    ensures ready { IfOk result (λ moves. AreMoves job.now.fields moves.items) }
{
    match read_moves(alloc, program, job) {
        Ok(moves) => Ok(moves),
        Err(NgcFault::WantOfMemory) => Err(WantOfMemory),
        // The text reads as moves.
        Err(_fault) => unreachable!(),
    }
}

/// The line of a sample's numbers.
fn line_of_sample(
    alloc: Global,
    size: u32,
    moves: u64,
    columns: u64,
    most_left: i32,
) -> Result<Vec<u8>, WantOfMemory>
    requires { IsSize size }
    ensures { IfOk result (λ made. made.items ≡ sample_line size (done [] moves columns most_left)) }
{
    line_of(
        alloc,
        &[Text(b"sample"), Number(u64::from(size))],
        &[
            Text(b"triangles"),
            Number(u64::from(2 * size * size)),
            Text(b"columns"),
            Number(columns),
            Text(b"moves"),
            Number(moves),
            Text(b"left"),
            Length(most_left, Unit::Hundredth),
        ],
    )
}
