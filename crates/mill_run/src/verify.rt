//! The command `verify`: the verdict on a program.
ghost use Rattle.std.specs.Prelude.{◌≡◌, ℕ, ◌-◌, ◌^◌, ◌<◌, ◌≤◌, ℤ, List, length, Ok, Option, IfErr, IfOk};
ghost use Rattle.mill_base.specs.Covers.{IsUnder};
ghost use Rattle.mill_base.specs.Ranges.{MovesInRange};
ghost use Rattle.mill_base.specs.declared.limits.TheConstants.{MAX_MOVES};
ghost use Rattle.mill_dexel.specs.Tops.{uncut};
ghost use Rattle.mill_io.specs.Readings.{AreHeld};
ghost use Rattle.mill_verify.specs.Claims.{CutsSafely};
ghost use Rattle.mill_verify.specs.Verdicts.{IsVerdict, NamesLeaf};
ghost use Rattle.mill_verify.specs.declared.verdict.Reason.{Reason as Why};
ghost use Rattle.mill_command.specs.Requests.{verify as asks_verify};
ghost use Rattle.mill_run.specs.Answers.{judged};
ghost use Rattle.mill_answer.specs.Calls.{CanCount, call_of};
ghost use Rattle.mill_run.specs.inner.Loads.{Loads, AreWorkers, IsReady};
ghost use Rattle.mill_load.specs.Loads.{NamesFault, OnlyLoads};
ghost use Rattle.mill_load.specs.declared.file.File.{File as AnyFile};
ghost use Rattle.mill_load.specs.declared.file.File.TheVariants.{Job as JobFile, Part as PartFile, Program as ProgramFile};
ghost use Rattle.mill_run.specs.Outcomes.{Serves, answered};
ghost use Rattle.mill_run.specs.inner.Prints.{PrintsOr, TriesVerdict};
ghost use Rattle.mill_answer.specs.Statuses.{status_code};
ghost use Rattle.mill_answer.specs.Verify.{texts_of, NamesVerdictMove};

use mill_answer::{Status, line_of_verdict, status_of_verdict, tell_fault, tell_made, tell_memory};
use mill_base::{Move, WantOfMemory};
use mill_crew::Threaded;
use mill_io::{Shelf, Sink};
use mill_job::Job;
use mill_load::{File, LoadFault, load_program, load_setup};
use mill_part::SortedPart;
use mill_verify::{Verdict, verify};
use std::alloc::Global;
use std::thread::Threads;

/// What the verifier works on.
#[derive(Drop)]
pub struct Loaded {
    pub job: Job,
    pub part: SortedPart,
    pub moves: Vec<Move>,
}

/// The work of `verify`: reads the job, the part and the program, and prints the verdict or what
/// keeps it from one.
pub fn verify_program<R: Threads + Sync, S: Shelf, O: Sink>(
    rt: &R,
    alloc: Global,
    shelf: &mut S,
    job: &str,
    part: &str,
    program: &str,
    workers: u32,
    out: &mut O,
) -> Status
    requires workers { AreWorkers workers }
    requires counts { CanCount (S.shows shelf.old) (O.shows out.old) }
    ensures { Serves (asks_verify job.now part.now program.now workers)
        (call_of result (S.shows shelf.old) (S.shows shelf.new) (O.shows out.old) (O.shows out.new)) }
{
    match load(alloc, shelf, job, part, program) {
        Ok(loaded) => tell_verdict(rt, alloc, &loaded, workers, out),
        Err(fault) => tell_fault(alloc, fault, out),
    }
}

/// Reads the job, the part and the program, in this order, and checks the part's top before the
/// program, and then sorts the part. The first that fails ends it.
fn load<S: Shelf>(
    alloc: Global,
    shelf: &mut S,
    job: &str,
    part: &str,
    program: &str,
) -> Result<Loaded, LoadFault>
    ensures told { (contents : List ℕ → Option (List ℕ)) →
        AreHeld contents (S.shows shelf.old).log (S.shows shelf.new).log →
        Loads (texts_of contents
        (record { job = job.now; part = part.now; program = program.now })) result }
    ensures ready { IfOk result IsReady }
    ensures failed { (names : AnyFile → List ℕ) → names JobFile ≡ job.now → names PartFile ≡ part.now → names ProgramFile ≡ program.now →
        IfErr result (NamesFault names (S.shows shelf.new).log) }
    ensures store { OnlyLoads (S.shows shelf.old) (S.shows shelf.new) result }
{
    let setup = match load_setup(alloc, shelf, job, part) {
        Ok(setup) => setup,
        Err(fault) => return Err(fault),
    };
    let moves = match load_program(alloc, shelf, program, &setup.job, File::Program) {
        Ok(moves) => moves,
        Err(fault) => return Err(fault),
    };
    let Ok(part) = SortedPart::new(alloc, setup.part) else {
        return Err(LoadFault::Memory);
    };
    Ok(Loaded {
        job: setup.job,
        part,
        moves,
    })
}

/// Prints the verdict on what was read.
fn tell_verdict<R: Threads + Sync, O: Sink>(
    rt: &R,
    alloc: Global,
    loaded: &Loaded,
    workers: u32,
    out: &mut O,
) -> Status
    requires workers { AreWorkers workers }
    requires ready { IsReady loaded.now }
    requires prints { (O.shows out.old).faults < 2 ^ 64 - 1 }
    ensures { TriesVerdict loaded.now (status_code result) (O.shows out.old) (O.shows out.new) }
{
    match verdict_on(rt, alloc, &loaded.job, &loaded.part, &loaded.moves, workers) {
        Ok(verdict) => tell_line_of(alloc, loaded, verdict, out),
        Err(WantOfMemory) => tell_memory(out),
    }
}

/// The verdict on a program, by so many threads. The only error is want of memory.
pub(crate) fn verdict_on<R: Threads + Sync>(
    rt: &R,
    alloc: Global,
    job: &Job,
    part: &SortedPart,
    moves: &[Move],
    workers: u32,
) -> Result<Verdict, WantOfMemory>
    requires moves_ok { MovesInRange moves.now }
    requires under { IsUnder part.now job.now.fields.top }
    requires few { length moves.now ≤ MAX_MOVES }
    ensures verdict { IfOk result (IsVerdict job.now.fields part.now moves.now) }
    ensures safe { (count columns : ℕ) (left : ℤ)
        → result ≡ Ok (Verdict.Accept count columns left)
        → CutsSafely job.now.fields part.now moves.now }
    ensures blocked { (reason : Why)
        → result ≡ Ok (Verdict.Reject reason)
        → NamesLeaf job.now.fields part.now (uncut job.now.fields) moves.now reason }
{
    verify(&Threaded { rt, workers }, alloc, job, part, moves)
}

/// Prints the line of a verdict.
fn tell_line_of<O: Sink>(alloc: Global, loaded: &Loaded, verdict: Verdict, out: &mut O) -> Status
    requires names { NamesVerdictMove loaded.now.moves.items verdict }
    requires prints { (O.shows out.old).faults < 2 ^ 64 - 1 }
    ensures { PrintsOr
        (answered (judged loaded.now.job.fields loaded.now.part loaded.now.moves.items verdict))
        (status_code result) (O.shows out.old) (O.shows out.new) }
{
    let line = line_of_verdict(alloc, &loaded.job, &loaded.moves, verdict);
    tell_made(line, status_of_verdict(verdict), out)
}
