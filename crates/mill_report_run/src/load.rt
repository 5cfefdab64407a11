//! Reading the three files. Each text is kept, so that the checksums of a report are those of the
//! very bytes that were judged. They begin as soon as a text is there, and go on beside all that
//! follows.
ghost use Rattle.std.specs.Prelude.{◌≡◌, ◌≤◌, IfErr, IfOk, IfSome, List, ℕ, Option, length};
ghost use Rattle.mill_answer.specs.Verify.{Texts as ToldTexts, texts_of};
ghost use Rattle.mill_io.specs.Readings.{AreHeld};
ghost use Rattle.mill_load.specs.declared.file.File.{File as AnyFile};
ghost use Rattle.mill_load.specs.declared.file.File.TheVariants.{Job as JobFile, Part as PartFile, Program as ProgramFile};
ghost use Rattle.mill_load.specs.Loads.{CountsFault, NamesFault, OnlyLoads};
ghost use Rattle.mill_load.specs.Setup.{Fits, FitsJobFile, IsPartText, most_bytes, setup_texts};
ghost use Rattle.mill_report_run.specs.inner.Loads.{AreSetupTexts, HoldsJob, HoldsSetup, IsOfThree, IsReady, Loads, ReadsJob, ReadsPart, ReadsSetup, ReadsSource};

use crate::source::Source;
use crate::sources::Sources;
use mill_base::Move;
use mill_io::Shelf;
use mill_job::Job;
use mill_load::{File, LoadFault, Setup, job_from, moves_from, part_from, read_file, setup_from};
use mill_part::Part;
use std::alloc::Global;
use std::thread::Threads;

/// The texts of the three files, and what they read as.
#[derive(Drop)]
pub(crate) struct Loaded {
    pub sources: Sources,
    pub setup: Setup,
    pub moves: Vec<Move>,
}

/// The text of the job's file, and what it reads as.
#[derive(Drop)]
pub(crate) struct JobRead {
    pub source: Source,
    pub job: Job,
}

/// The texts of the job's and of the part's file, and what they read as.
#[derive(Drop)]
pub(crate) struct SetupRead {
    pub job: Source,
    pub part: Source,
    pub setup: Setup,
}

/// Reads the job, the part and the program, in this order, and checks the part's top before the
/// program. The first that fails ends it.
pub(crate) fn load<R: Threads, S: Shelf>(
    rt: &R,
    alloc: Global,
    shelf: &mut S,
    job: &str,
    part: &str,
    program: &str,
) -> Result<Loaded, LoadFault>
    ensures told { (contents : List ℕ → Option (List ℕ)) →
        AreHeld contents (S.shows shelf.old).log (S.shows shelf.new).log →
        Loads (texts_of contents
        (record { job = job.now; part = part.now; program = program.now })) result }
    ensures ready { IfOk result IsReady }
    ensures of_three { IfErr result IsOfThree }
    ensures failed { (names : AnyFile → List ℕ) →
        names JobFile ≡ job.now → names PartFile ≡ part.now → names ProgramFile ≡ program.now →
        IfErr result (NamesFault names (S.shows shelf.new).log) }
    ensures store { OnlyLoads (S.shows shelf.old) (S.shows shelf.new) result }
{
    let read = match load_setup(rt, alloc, shelf, job, part) {
        Ok(read) => read,
        Err(fault) => return Err(fault),
    };
    match read_source(rt, alloc, shelf, program, File::Program) {
        Ok(source) => with_program(alloc, read, source),
        Err(fault) => Err(fault),
    }
}

/// Reads the job and then the part, and checks the part's top. The first that fails ends it.
fn load_setup<R: Threads, S: Shelf>(
    rt: &R,
    alloc: Global,
    shelf: &mut S,
    job: &str,
    part: &str,
) -> Result<SetupRead, LoadFault>
    ensures told { (contents : List ℕ → Option (List ℕ)) →
        AreHeld contents (S.shows shelf.old).log (S.shows shelf.new).log →
        ReadsSetup (setup_texts contents job.now part.now) result }
    ensures ready { IfOk result HoldsSetup }
    ensures failed { (names : AnyFile → List ℕ) →
        names JobFile ≡ job.now → names PartFile ≡ part.now →
        IfErr result (NamesFault names (S.shows shelf.new).log) }
    ensures store { OnlyLoads (S.shows shelf.old) (S.shows shelf.new) result }
{
    match load_job(rt, alloc, shelf, job) {
        Ok(read) => load_part(rt, alloc, shelf, read, part),
        Err(fault) => Err(fault),
    }
}

/// The text of one of the files, whose checksum begins at once. A fault is told as that of `file`.
fn read_source<R: Threads, S: Shelf>(
    rt: &R,
    alloc: Global,
    shelf: &mut S,
    name: &str,
    file: File,
) -> Result<Source, LoadFault>
    ensures told { (contents : List ℕ → Option (List ℕ)) →
        AreHeld contents (S.shows shelf.old).log (S.shows shelf.new).log →
        ReadsSource (contents name.now) file result }
    ensures fits { IfOk result (λ source. length source ≤ most_bytes file) }
    ensures failed { (names : AnyFile → List ℕ) → names file ≡ name.now →
        IfErr result (NamesFault names (S.shows shelf.new).log) }
    ensures store { OnlyLoads (S.shows shelf.old) (S.shows shelf.new) result }
{
    match read_file(alloc, shelf, name, file) {
        Ok(text) => source_of(rt, alloc, text),
        Err(fault) => Err(fault),
    }
}

/// This text, whose checksum begins now.
fn source_of<R: Threads>(rt: &R, alloc: Global, text: Vec<u8>) -> Result<Source, LoadFault>
    ensures text { IfOk result (λ source. source ≡ text.items) }
    ensures memory { IfErr result (λ fault. fault ≡ LoadFault.Memory) }
    ensures cause { CountsFault 0 0 result }
{
    let source = Source::new(rt, alloc, text)?;
    Ok(source)
}

/// Reads the job.
fn load_job<R: Threads, S: Shelf>(
    rt: &R,
    alloc: Global,
    shelf: &mut S,
    name: &str,
) -> Result<JobRead, LoadFault>
    ensures told { (contents : List ℕ → Option (List ℕ)) →
        AreHeld contents (S.shows shelf.old).log (S.shows shelf.new).log →
        ReadsJob (contents name.now) result }
    ensures ready { IfOk result HoldsJob }
    ensures failed { (names : AnyFile → List ℕ) → names JobFile ≡ name.now →
        IfErr result (NamesFault names (S.shows shelf.new).log) }
    ensures store { OnlyLoads (S.shows shelf.old) (S.shows shelf.new) result }
{
    match read_source(rt, alloc, shelf, name, File::Job) {
        Ok(source) => job_with(alloc, source),
        Err(fault) => Err(fault),
    }
}

/// The job that a text says, with the text.
fn job_with(alloc: Global, source: Source) -> Result<JobRead, LoadFault>
    requires { FitsJobFile source }

    // Whatever a store tells of the file.
    ensures told { (told : Option (List ℕ)) → IfSome told (λ bytes. source ≡ bytes)
        → ReadsJob told result }
    ensures ready { IfOk result HoldsJob }
    ensures cause { CountsFault 0 0 result }
{
    match job_from(alloc, source.text()) {
        Ok(job) => Ok(JobRead { source, job }),
        Err(fault) => Err(fault),
    }
}

/// Reads the part for a job, and checks its top.
fn load_part<R: Threads, S: Shelf>(
    rt: &R,
    alloc: Global,
    shelf: &mut S,
    before: JobRead,
    name: &str,
) -> Result<SetupRead, LoadFault>
    requires { HoldsJob before }
    ensures told { (contents : List ℕ → Option (List ℕ)) →
        AreHeld contents (S.shows shelf.old).log (S.shows shelf.new).log →
        ReadsPart before (contents name.now) result }
    ensures ready { IfOk result HoldsSetup }
    ensures failed { (names : AnyFile → List ℕ) → names PartFile ≡ name.now →
        IfErr result (NamesFault names (S.shows shelf.new).log) }
    ensures store { OnlyLoads (S.shows shelf.old) (S.shows shelf.new) result }
{
    match read_source(rt, alloc, shelf, name, File::Part) {
        Ok(source) => part_with(alloc, before, source),
        Err(fault) => Err(fault),
    }
}

/// The part that a text says for a job, with both texts, if it isn't over the job's top.
fn part_with(alloc: Global, before: JobRead, source: Source) -> Result<SetupRead, LoadFault>
    requires ready { HoldsJob before }
    requires fits { Fits source }
    ensures told { (told : Option (List ℕ)) → IfSome told (λ bytes. source ≡ bytes)
        → ReadsPart before told result }
    ensures ready { IfOk result HoldsSetup }
    ensures cause { CountsFault 0 0 result }
{
    match part_from(alloc, source.text(), &before.job) {
        Ok(part) => joined(before, source, part),
        Err(fault) => Err(fault),
    }
}

/// The job with its part and both texts, if the part isn't over the job's top.
fn joined(before: JobRead, source: Source, part: Part) -> Result<SetupRead, LoadFault>
    requires ready { HoldsJob before }
    requires part_is { IsPartText before.job.fields source part }
    ensures told { (told : Option (List ℕ)) → IfSome told (λ bytes. source ≡ bytes)
        → ReadsPart before told result }
    ensures ready { IfOk result HoldsSetup }
    ensures cause { CountsFault 0 0 result }
{
    match setup_from(before.job, part) {
        Ok(setup) => Ok(SetupRead {
            job: before.source,
            part: source,
            setup,
        }),
        Err(fault) => Err(fault),
    }
}

/// The moves that a program's text says for a job, with all three texts.
fn with_program(alloc: Global, before: SetupRead, source: Source) -> Result<Loaded, LoadFault>
    requires ready { HoldsSetup before }
    requires fits { Fits source }
    ensures told { (told : ToldTexts) → AreSetupTexts told.setup before
        → IfSome told.program (λ bytes. source ≡ bytes) → Loads told result }
    ensures ready { IfOk result IsReady }
    ensures cause { CountsFault 0 0 result }
{
    match moves_from(alloc, source.text(), &before.setup.job, File::Program) {
        Ok(moves) => Ok(Loaded {
            sources: Sources {
                job: before.job,
                part: before.part,
                program: source,
            },
            setup: before.setup,
            moves,
        }),
        Err(fault) => Err(fault),
    }
}
