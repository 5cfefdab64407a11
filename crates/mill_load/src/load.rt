//! Reading the job and the part of a command, and the bytes of any of its files.
ghost use Rattle.std.specs.Prelude.{◌≡◌, ◌≤◌, ℕ, List, length, IfErr, IfOk, Option, Some};
ghost use Rattle.mill_io.specs.Readings.{AreHeld};
ghost use Rattle.mill_load.specs.Loads.{ReadsFile, LoadsJob, LoadsPart, LoadsUnder, LoadsSetup, JoinsPart, NamesFault, OnlyLoads, CountsFault, IsSetup};
ghost use Rattle.mill_load.specs.inner.Steps.{IsLow};
ghost use Rattle.mill_load.specs.Setup.{setup_texts, Fits, FitsJobFile, most_bytes};
ghost use Rattle.mill_load.specs.declared.file.File.{File as AnyFile};
ghost use Rattle.mill_load.specs.declared.file.File.TheVariants.{Job as JobFile, Part as PartFile};
ghost use Rattle.mill_load.specs.declared.load.LoadFault.TheVariants as load_fault;

use crate::file::File;
use crate::limits::MAX_JOB_BYTES;
use mill_base::{MAX_FILE_BYTES, Unit, WantOfMemory};
use mill_io::{ReadEnd, Shelf, read_whole};
use mill_job::{Job, JobFault, read_job};
use mill_ngc::NgcFault;
use mill_part::Part;
use mill_stl::{StlFault, read_stl};
use std::alloc::{AllocError, Global};

/// Why a command's files give it nothing to work on.
#[derive(Debug, Drop)]
pub enum Unfit {
    /// The file has too many bytes.
    TooLong(File),
    /// The job's text is refused.
    JobRefused(JobFault),
    /// The part's text is refused.
    PartRefused(StlFault),
    /// The list's text is refused.
    ListRefused(JobFault),
    /// The text of this file, a program, is refused.
    ProgramRefused(File, NgcFault),
    /// The part's greatest height is over the job's top; both are in the job's unit.
    PartTop { height: i32, top: i32, unit: Unit },
}

/// What keeps a command from its files.
#[derive(Debug, Drop)]
pub enum LoadFault {
    /// There was not enough memory.
    Memory,
    /// The file could not be read.
    ReadFault(File),
    /// They give it nothing to work on.
    Unfit(Unfit),
}

impl From<AllocError> for LoadFault {
    ghost from_gives = { λ _ e. e ≡ load_fault.Memory };

    fn from(_: AllocError) -> Self {
        LoadFault::Memory
    }
}

impl From<WantOfMemory> for LoadFault {
    ghost from_gives = { λ _ e. e ≡ load_fault.Memory };

    fn from(_: WantOfMemory) -> Self {
        LoadFault::Memory
    }
}

/// The job, and a part that isn't over the job's top: what a command works on that reads a part.
#[derive(Drop)]
pub struct Setup {
    pub job: Job,
    pub part: Part,
}

/// Reads the job and then the part, and checks the part's top. The first that fails ends it.
pub fn load_setup<S: Shelf>(
    alloc: Global,
    shelf: &mut S,
    job: &str,
    part: &str,
) -> Result<Setup, LoadFault>
    ensures told { (contents : List ℕ → Option (List ℕ)) →
        AreHeld contents (S.shows shelf.old).log (S.shows shelf.new).log →
        LoadsSetup (setup_texts contents job.now part.now) result }
    ensures ready { IfOk result IsSetup }
    ensures failed { (names : AnyFile → List ℕ) → names JobFile ≡ job.now → names PartFile ≡ part.now →
        IfErr result (NamesFault names (S.shows shelf.new).log) }
    ensures store { OnlyLoads (S.shows shelf.old) (S.shows shelf.new) result }
{
    match load_job(alloc, shelf, job) {
        Ok(job) => load_under(alloc, shelf, job, part),
        Err(fault) => Err(fault),
    }
}

/// Reads the part for a job, and checks its top.
pub fn load_under<S: Shelf>(
    alloc: Global,
    shelf: &mut S,
    job: Job,
    name: &str,
) -> Result<Setup, LoadFault>
    ensures told { (contents : List ℕ → Option (List ℕ)) →
        AreHeld contents (S.shows shelf.old).log (S.shows shelf.new).log →
        LoadsUnder job.fields (contents name.now) result }
    ensures ready { IfOk result IsSetup }
    ensures failed { (names : AnyFile → List ℕ) → names PartFile ≡ name.now →
        IfErr result (NamesFault names (S.shows shelf.new).log) }
    ensures store { OnlyLoads (S.shows shelf.old) (S.shows shelf.new) result }
{
    match load_part(alloc, shelf, name, &job) {
        Ok(part) => setup_from(job, part),
        Err(fault) => Err(fault),
    }
}

/// The job with its part, if that isn't over the job's top; else `PartTop`.
pub fn setup_from(job: Job, part: Part) -> Result<Setup, LoadFault>
    ensures told { JoinsPart job.fields part result }
    ensures ready { IfOk result IsSetup }
    ensures cause { CountsFault 0 0 result }
{
    if let Some(height) = height_over(&job, &part) {
        return Err(LoadFault::Unfit(Unfit::PartTop {
            height,
            top: job.fields.top,
            unit: job.fields.unit,
        }));
    }
    Ok(Setup { job, part })
}

/// The part's greatest height, where it is over the job's top.
fn height_over(job: &Job, part: &Part) -> Option<i32>
    ensures { IsLow job.now.fields part.now result }
{
    match part.top() {
        Some(height) if height > job.fields.top => Some(height),
        _ => None,
    }
}

/// Reads the job.
pub fn load_job<S: Shelf>(alloc: Global, shelf: &mut S, name: &str) -> Result<Job, LoadFault>
    ensures told { (contents : List ℕ → Option (List ℕ)) →
        AreHeld contents (S.shows shelf.old).log (S.shows shelf.new).log →
        LoadsJob (contents name.now) result }
    ensures failed { (names : AnyFile → List ℕ) → names JobFile ≡ name.now →
        IfErr result (NamesFault names (S.shows shelf.new).log) }
    ensures store { OnlyLoads (S.shows shelf.old) (S.shows shelf.new) result }
{
    match read_file(alloc, shelf, name, File::Job) {
        Ok(text) => job_from(alloc, &text),
        Err(fault) => Err(fault),
    }
}

fn load_part<S: Shelf>(
    alloc: Global,
    shelf: &mut S,
    name: &str,
    job: &Job,
) -> Result<Part, LoadFault>
    ensures told { (contents : List ℕ → Option (List ℕ)) →
        AreHeld contents (S.shows shelf.old).log (S.shows shelf.new).log →
        LoadsPart job.now.fields (contents name.now) result }
    ensures failed { (names : AnyFile → List ℕ) → names PartFile ≡ name.now →
        IfErr result (NamesFault names (S.shows shelf.new).log) }
    ensures store { OnlyLoads (S.shows shelf.old) (S.shows shelf.new) result }
{
    match read_file(alloc, shelf, name, File::Part) {
        Ok(text) => part_from(alloc, &text, job),
        Err(fault) => Err(fault),
    }
}

/// All the bytes of one of the files, which are at most `MAX_JOB_BYTES` for a job or a list and
/// `MAX_FILE_BYTES` for another. A fault is told as that of `file`.
pub fn read_file<S: Shelf>(
    alloc: Global,
    shelf: &mut S,
    name: &str,
    file: File,
) -> Result<Vec<u8>, LoadFault>
    ensures told { (contents : List ℕ → Option (List ℕ)) →
        AreHeld contents (S.shows shelf.old).log (S.shows shelf.new).log →
        ReadsFile (contents name.now) file result }
    ensures fits { IfOk result (λ text. length text.items ≤ most_bytes file) }
    ensures failed { (names : AnyFile → List ℕ) → names file ≡ name.now →
        IfErr result (NamesFault names (S.shows shelf.new).log) }
    ensures store { OnlyLoads (S.shows shelf.old) (S.shows shelf.new) result }
{
    match read_whole(alloc, shelf, name, most_bytes_of(file)) {
        Ok(bytes) => Ok(bytes),
        Err(ReadEnd::ReadFault) => Err(LoadFault::ReadFault(file)),
        Err(ReadEnd::TooLong) => Err(LoadFault::Unfit(Unfit::TooLong(file))),
        Err(ReadEnd::WantOfMemory) => Err(LoadFault::Memory),
    }
}

// The most bytes that a file may have.
fn most_bytes_of(file: File) -> u64
    ensures { result ≡ most_bytes file }
{
    match file {
        File::Job | File::List => MAX_JOB_BYTES,
        File::Part | File::Program | File::StepProgram(_) => MAX_FILE_BYTES,
    }
}

/// The job that a text within the limit of a job says, or why it is refused.
pub fn job_from(alloc: Global, text: &[u8]) -> Result<Job, LoadFault>
    requires { FitsJobFile text.now }
    ensures told { LoadsJob (Some text.now) result }
    ensures cause { CountsFault 0 0 result }
{
    match read_job(alloc, text) {
        Ok(job) => Ok(job),
        Err(JobFault::WantOfMemory) => Err(LoadFault::Memory),
        Err(fault) => Err(LoadFault::Unfit(Unfit::JobRefused(fault))),
    }
}

/// The part that a text within the limit of a file says for a job, in the job's unit and under its snap,
/// or why it is refused.
pub fn part_from(alloc: Global, text: &[u8], job: &Job) -> Result<Part, LoadFault>
    requires { Fits text.now }
    ensures told { LoadsPart job.now.fields (Some text.now) result }
    ensures cause { CountsFault 0 0 result }
{
    match read_stl(alloc, text, job.fields.snap, job.fields.unit) {
        Ok(read) => Ok(Part::new(read.tris)),
        Err(StlFault::WantOfMemory) => Err(LoadFault::Memory),
        Err(fault) => Err(LoadFault::Unfit(Unfit::PartRefused(fault))),
    }
}
