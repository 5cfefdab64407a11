//! The command `rest`: the verdict on the programs of a list, in turn on one stock.
ghost use Rattle.std.specs.Prelude.{◌≡◌, ◌-◌, ◌^◌, ◌<◌, ◌≤◌, ℕ, List};
ghost use Rattle.std.specs.Prelude.{[], length, All, IfErr, IfOk, Option, Some};
ghost use Rattle.mill_command.specs.Requests.{rest as asks_rest};
ghost use Rattle.mill_io.specs.Readings.{AreHeld};
ghost use Rattle.mill_job.specs.Jobs.{FitsJob};
ghost use Rattle.mill_job.specs.declared.step_limits.TheConstants.{MAX_STEPS};
ghost use Rattle.mill_verify.specs.Files.{IsFileOf};
ghost use Rattle.mill_run.specs.Answers.{judged_files};
ghost use Rattle.mill_answer.specs.Calls.{CanCount, call_of};
ghost use Rattle.mill_load.specs.declared.file.File.{File as AnyFile};
ghost use Rattle.mill_load.specs.declared.file.File.TheVariants.{List as ListFile, StepProgram};
ghost use Rattle.mill_run.specs.inner.Loads.{AreFilesReady, AreWorkers, FailsInRest, LoadsFiles, LoadsList, StopsAtStep};
ghost use Rattle.mill_load.specs.Loads.{CountsFault, LoadsProgram, NamesFault, OnlyLoads};
ghost use Rattle.mill_run.specs.Outcomes.{Serves, answered};
ghost use Rattle.mill_run.specs.inner.Prints.{PrintsOr, TriesListVerdict};
ghost use Rattle.mill_run.specs.Rest.{NamesFileMove, ReadsStep, ReadsSteps, list_line, list_status, rest_texts};
ghost use Rattle.mill_load.specs.Setup.{FitsJobFile};
ghost use Rattle.mill_answer.specs.Statuses.{status_code};

use mill_answer::Word::{Length, Number, Text};
use mill_answer::{
    Status, line_of_column, line_of_reason, line_with_margins, tell_fault, tell_made, tell_memory,
};
use mill_base::WantOfMemory;
use mill_crew::Threaded;
use mill_io::{Shelf, Sink};
use mill_job::{Job, JobFault, Step, read_list};
use mill_load::{File, LoadFault, Unfit, load_program, load_setup, read_file};
use mill_part::SortedPart;
use mill_verify::{CutFile, ListVerdict, verify_list};
use std::alloc::Global;
use std::thread::Threads;

/// What the verifier works on: a job, a part, the steps of a list, and the moves of each step's
/// program, with its cutter.
#[derive(Drop)]
pub struct Listed {
    pub job: Job,
    pub part: SortedPart,
    pub steps: Vec<Step>,
    pub files: Vec<CutFile>,
}

/// The work of `rest`: reads the job, the part, the list and the programs that it names, and prints
/// the verdict on them or what keeps it from one.
pub fn verify_files<R: Threads + Sync, S: Shelf, O: Sink>(
    rt: &R,
    alloc: Global,
    shelf: &mut S,
    job: &str,
    part: &str,
    list: &str,
    workers: u32,
    out: &mut O,
) -> Status
    requires workers { AreWorkers workers }
    requires counts { CanCount (S.shows shelf.old) (O.shows out.old) }
    ensures { Serves (asks_rest job.now part.now list.now workers)
        (call_of result (S.shows shelf.old) (S.shows shelf.new) (O.shows out.old) (O.shows out.new)) }
{
    match load_files(alloc, shelf, job, part, list) {
        Ok(listed) => tell_list_verdict(rt, alloc, &listed, workers, out),
        Err(fault) => tell_fault(alloc, fault, out),
    }
}

/// Reads the job, the part, the list and the program of each of its steps, in this order, checks the
/// part's top before the list, and then sorts the part. The first that fails ends it.
fn load_files<S: Shelf>(
    alloc: Global,
    shelf: &mut S,
    job: &str,
    part: &str,
    list: &str,
) -> Result<Listed, LoadFault>
    ensures told { (contents : List ℕ → Option (List ℕ)) →
        AreHeld contents (S.shows shelf.old).log (S.shows shelf.new).log →
        LoadsFiles (rest_texts contents
        (record { job = job.now; part = part.now; list = list.now })) result }
    ensures ready { IfOk result AreFilesReady }
    ensures failed { (contents : List ℕ → Option (List ℕ)) →
        AreHeld contents (S.shows shelf.old).log (S.shows shelf.new).log →
        IfErr result (FailsInRest contents
        (record { job = job.now; part = part.now; list = list.now }) (S.shows shelf.new).log) }
    ensures store { OnlyLoads (S.shows shelf.old) (S.shows shelf.new) result }
{
    let setup = match load_setup(alloc, shelf, job, part) {
        Ok(setup) => setup,
        Err(fault) => return Err(fault),
    };
    let steps = match load_list(alloc, shelf, list, &setup.job) {
        Ok(steps) => steps,
        Err(fault) => return Err(fault),
    };
    let files = match load_steps(alloc, shelf, &steps, &setup.job) {
        Ok(files) => files,
        Err(fault) => return Err(fault),
    };
    let Ok(part) = SortedPart::new(alloc, setup.part) else {
        return Err(LoadFault::Memory);
    };
    Ok(Listed {
        job: setup.job,
        part,
        steps,
        files,
    })
}

/// Reads the list for a job.
fn load_list<S: Shelf>(
    alloc: Global,
    shelf: &mut S,
    name: &str,
    job: &Job,
) -> Result<Vec<Step>, LoadFault>
    ensures told { (contents : List ℕ → Option (List ℕ)) →
        AreHeld contents (S.shows shelf.old).log (S.shows shelf.new).log →
        LoadsList job.now.fields (contents name.now) result }
    ensures fit { IfOk result (λ steps. All (λ step. FitsJob job.now.fields step.cutter) steps.items) }
    ensures few { IfOk result (λ steps. length steps.items ≤ MAX_STEPS) }
    ensures failed { (names : AnyFile → List ℕ) → names ListFile ≡ name.now →
        IfErr result (NamesFault names (S.shows shelf.new).log) }
    ensures store { OnlyLoads (S.shows shelf.old) (S.shows shelf.new) result }
{
    match read_file(alloc, shelf, name, File::List) {
        Ok(text) => list_from(alloc, &text, job),
        Err(fault) => Err(fault),
    }
}

fn list_from(alloc: Global, text: &[u8], job: &Job) -> Result<Vec<Step>, LoadFault>
    requires { FitsJobFile text.now }
    ensures told { LoadsList job.now.fields (Some text.now) result }
    ensures fit { IfOk result (λ steps. All (λ step. FitsJob job.now.fields step.cutter) steps.items) }
    ensures few { IfOk result (λ steps. length steps.items ≤ MAX_STEPS) }
    ensures cause { CountsFault 0 0 result }
{
    match read_list(alloc, text, job) {
        Ok(steps) => Ok(steps),
        Err(JobFault::WantOfMemory) => Err(LoadFault::Memory),
        Err(fault) => Err(LoadFault::Unfit(Unfit::ListRefused(fault))),
    }
}

/// Reads the program of each step in turn. The first that fails ends it.
fn load_steps<S: Shelf>(
    alloc: Global,
    shelf: &mut S,
    steps: &[Step],
    job: &Job,
) -> Result<Vec<CutFile>, LoadFault>
    requires fit { All (λ step. FitsJob job.now.fields step.cutter) steps.now }
    requires few { length steps.now ≤ MAX_STEPS }
    ensures read { (contents : List ℕ → Option (List ℕ)) →
        AreHeld contents (S.shows shelf.old).log (S.shows shelf.new).log →
        IfOk result (λ files. ReadsSteps contents job.now.fields steps.now files.items) }
    ensures fault { (contents : List ℕ → Option (List ℕ)) →
        AreHeld contents (S.shows shelf.old).log (S.shows shelf.new).log →
        IfErr result (StopsAtStep contents job.now.fields steps.now (S.shows shelf.new).log) }
    ensures ready { IfOk result (λ files. All (IsFileOf job.now.fields) files.items) }
    ensures few { IfOk result (λ files. length files.items ≤ MAX_STEPS) }
    ensures store { OnlyLoads (S.shows shelf.old) (S.shows shelf.new) result }
{
    let mut files = Vec::new(alloc);
    for number in 0..steps.len() {
        let file = match load_step(alloc, shelf, &steps[number], job, number as u32) {
            Ok(file) => file,
            Err(fault) => return Err(fault),
        };
        let Ok(()) = files.push(file) else {
            return Err(LoadFault::Memory);
        };
    }
    Ok(files)
}

/// Reads the program of a step, which has this number in its list.
fn load_step<S: Shelf>(
    alloc: Global,
    shelf: &mut S,
    step: &Step,
    job: &Job,
    number: u32,
) -> Result<CutFile, LoadFault>
    requires { FitsJob job.now.fields step.now.cutter }
    ensures read { (contents : List ℕ → Option (List ℕ)) →
        AreHeld contents (S.shows shelf.old).log (S.shows shelf.new).log →
        IfOk result (ReadsStep contents job.now.fields step.now) }
    ensures fault { (contents : List ℕ → Option (List ℕ)) →
        AreHeld contents (S.shows shelf.old).log (S.shows shelf.new).log →
        IfErr result (λ fault.
        LoadsProgram job.now.fields (contents step.now.program) (StepProgram number) (Err fault)) }
    ensures failed { IfErr result (NamesFault (λ file. step.now.program) (S.shows shelf.new).log) }
    ensures ready { IfOk result (IsFileOf job.now.fields) }
    ensures store { OnlyLoads (S.shows shelf.old) (S.shows shelf.new) result }
{
    let program = step.program.as_str();
    match load_program(alloc, shelf, program, job, File::StepProgram(number)) {
        Ok(moves) => Ok(CutFile {
            cutter: step.cutter,
            moves,
        }),
        Err(fault) => Err(fault),
    }
}

/// Prints the verdict on what was read.
fn tell_list_verdict<R: Threads + Sync, O: Sink>(
    rt: &R,
    alloc: Global,
    listed: &Listed,
    workers: u32,
    out: &mut O,
) -> Status
    requires workers { AreWorkers workers }
    requires ready { AreFilesReady listed.now }
    requires prints { (O.shows out.old).faults < 2 ^ 64 - 1 }
    ensures { TriesListVerdict listed.now (status_code result) (O.shows out.old) (O.shows out.new) }
{
    let crew = Threaded { rt, workers };
    match verify_list(&crew, alloc, &listed.job, &listed.part, &listed.files) {
        Ok(verdict) => tell_line_of_list(alloc, listed, verdict, out),
        Err(WantOfMemory) => tell_memory(out),
    }
}

/// Prints the line of a verdict.
fn tell_line_of_list<O: Sink>(
    alloc: Global,
    listed: &Listed,
    verdict: ListVerdict,
    out: &mut O,
) -> Status
    requires names { NamesFileMove listed.now.files.items verdict }
    requires prints { (O.shows out.old).faults < 2 ^ 64 - 1 }
    ensures { PrintsOr
        (answered (judged_files listed.now.job.fields listed.now.part listed.now.steps.items
        listed.now.files.items verdict))
        (status_code result) (O.shows out.old) (O.shows out.new) }
{
    let line = line_of_list_verdict(alloc, &listed.job, &listed.files, verdict);
    tell_made(line, status_of(verdict), out)
}

/// The status of a verdict.
fn status_of(verdict: ListVerdict) -> Status
    ensures { status_code result ≡ list_status verdict }
{
    match verdict {
        ListVerdict::Accept { .. } => Status::Done,
        ListVerdict::Reject { .. } | ListVerdict::Left { .. } => Status::Rejected,
    }
}

/// The line of a verdict.
fn line_of_list_verdict(
    alloc: Global,
    job: &Job,
    files: &[CutFile],
    verdict: ListVerdict,
) -> Result<Vec<u8>, WantOfMemory>
    requires { NamesFileMove files.now verdict }
    ensures { IfOk result (λ made. made.items ≡ list_line job.now.fields files.now verdict) }
{
    match verdict {
        ListVerdict::Accept {
            files: count,
            moves,
            columns,
            most_left,
        } => line_of_acceptance(alloc, job, count, moves, columns, most_left),
        ListVerdict::Reject { file, reason } => {
            let start = [Text(b"rejected"), Text(b"file"), Number(u64::from(file))];
            let rejected = &files[file as usize];
            line_of_reason(alloc, &start, &rejected.moves, reason, job.fields.unit)
        }
        ListVerdict::Left { row, col, top } => {
            line_of_column(
                alloc,
                &[Text(b"rejected")],
                b"left",
                row,
                col,
                top,
                job.fields.unit,
            )
        }
    }
}

/// The line of so many files that are accepted.
fn line_of_acceptance(
    alloc: Global,
    job: &Job,
    files: u32,
    moves: u64,
    columns: u64,
    most_left: i32,
) -> Result<Vec<u8>, WantOfMemory>
    ensures { IfOk result (λ made. made.items ≡ list_line job.now.fields []
        (ListVerdict.Accept files moves columns most_left)) }
{
    let unit = job.fields.unit;
    let words = [
        Text(b"accepted"),
        Text(b"files"),
        Number(u64::from(files)),
        Text(b"moves"),
        Number(moves),
        Text(b"columns"),
        Number(columns),
        Text(b"left"),
        Length(most_left, unit),
    ];
    line_with_margins(alloc, &words, job.fields.overcut, job.fields.slack, unit)
}
