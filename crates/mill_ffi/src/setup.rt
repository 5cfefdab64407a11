//! Reading the texts of a job, a part and a program.
ghost use Rattle.std.specs.Prelude.{◌≡◌, ◌≢◌, Ok, Err, IfOk, IfErr, IfSome, IfNone};
ghost use Rattle.mill_base.specs.Covers.{IsUnder};
ghost use Rattle.mill_base.specs.Ranges.{IsInUnitRange};
ghost use Rattle.mill_said.specs.declared.fault.NgcFault.TheVariants as program_fault;
ghost use Rattle.mill_ffi.specs.inner.Reading.{IsFitPart, IsHighFor, IsJobCause, IsPartCause, IsPartText, IsProgramCause, IsUnfitPart};
ghost use Rattle.mill_ffi.specs.Judged.{IsSetupCause, ReadsSetup, fault_of_job, line_of_program, untold};
ghost use Rattle.mill_ffi_data.specs.declared.fault.Fault.TheVariants as fault;
ghost use Rattle.mill_job.specs.Columns.{home};
ghost use Rattle.mill_job.specs.Documents.{IsJobOf};
ghost use Rattle.mill_load.specs.Programs.{SaysMoves, rules_of};
ghost use Rattle.mill_ngc.specs.Pieces.{AreSound};
ghost use Rattle.mill_ngc.specs.Programs.{program_of};

use crate::text::{fault_from, line_from};
use mill_base::{Move, Pt3, Unit, WantOfMemory};
use mill_ffi_data::{Fault, RawVerdict};
use mill_job::{Job, JobFault, read_job};
use mill_load::{rules_for, run_moves};
use mill_ngc::{NgcFault, Reader, Rules};
use mill_part::Part;
use mill_stl::read_stl;
use std::alloc::Global;

/// Why there is no verdict, and what is told of it.
#[derive(Clone, Copy)]
pub struct Stop {
    pub fault: Fault,
    pub told: RawVerdict,
}

impl From<WantOfMemory> for Stop {
    ghost from_gives = { λ _ stop. stop ≡ record { fault = fault.Memory; told = untold } };

    fn from(_: WantOfMemory) -> Self {
        Stop {
            fault: Fault::Memory,
            told: nothing(),
        }
    }
}

/// Nothing is told.
pub fn nothing() -> RawVerdict
    ensures { result ≡ untold }
{
    RawVerdict {
        test: 0,
        most_left: 0,
        top: 0,
        height: 0,
        triangle: 0,
        row: 0,
        column: 0,
        depth: 0,
        leaf: 0,
        at: 0,
        moves: 0,
        columns: 0,
        line: 0,
        fixture: 0,
    }
}

/// A job, and a part that isn't over its top.
#[derive(Drop)]
pub struct Setup {
    pub job: Job,
    pub part: Part,
}

/// The job of a text, and the part of another for it.
pub fn setup_from(alloc: Global, job_text: &[u8], part_text: &[u8]) -> Result<Setup, Stop>
    ensures reads { IfOk result (λ setup.
        ReadsSetup job_text.now part_text.now setup.job.fields setup.part) }
    ensures cause { IfErr result (λ stop.
        IsSetupCause job_text.now part_text.now stop.told stop.fault) }
{
    let job = job_from(alloc, job_text)?;
    setup_for(alloc, job, part_text)
}

/// A job, and the part of a text for it.
pub fn setup_for(alloc: Global, job: Job, part_text: &[u8]) -> Result<Setup, Stop>
    ensures same { IfOk result (λ setup. setup.job.fields ≡ job.fields) }
    ensures part { IfOk result (λ setup. IsFitPart job.fields part_text.now setup.part) }
    ensures cause { IfErr result (λ stop.
        IsUnfitPart job.fields part_text.now stop.told stop.fault) }
{
    let part = part_for(alloc, &job, part_text)?;
    match height_over(&job, &part) {
        None => Ok(Setup { job, part }),
        Some(height) => Err(Stop {
            fault: Fault::PartTop,
            told: RawVerdict {
                height,
                ..nothing()
            },
        }),
    }
}

/// The job of a text.
pub fn job_from(alloc: Global, text: &[u8]) -> Result<Job, Stop>
    ensures reads { IfOk result (λ job. IsJobOf text.now (Ok job.fields)) }
    ensures cause { IfErr result (λ stop. IsJobCause text.now stop.told stop.fault) }
{
    match read_job(alloc, text) {
        Ok(job) => Ok(job),
        Err(fault) => Err(Stop {
            fault: job_fault(&fault),
            told: nothing(),
        }),
    }
}

fn part_for(alloc: Global, job: &Job, text: &[u8]) -> Result<Part, Stop>
    ensures reads { IfOk result (IsPartText job.now.fields text.now) }
    ensures cause { IfErr result (λ stop.
        IsPartCause job.now.fields text.now stop.told stop.fault) }
{
    match read_stl(alloc, text, job.fields.snap, job.fields.unit) {
        Ok(read) => Ok(Part::new(read.tris)),
        Err(fault) => Err(Stop {
            fault: fault_from(fault),
            told: RawVerdict {
                line: line_from(fault),
                ..nothing()
            },
        }),
    }
}

/// The part's greatest height, where it is over the job's top.
fn height_over(job: &Job, part: &Part) -> Option<i32>
    ensures under { IfNone result (IsUnder part.now job.now.fields.top) }
    ensures over { IfSome result (IsHighFor job.now.fields part.now) }
{
    match part.top() {
        Some(height) if height > job.fields.top => Some(height),
        _ => None,
    }
}

/// The moves of a program's text for a job, by the job's rules, as its machine makes them.
pub fn moves_for(alloc: Global, job: &Job, text: &[u8]) -> Result<Vec<Move>, Stop>
    ensures reads { IfOk result (λ moves. SaysMoves job.now.fields text.now moves.items) }
    ensures sound { IfOk result (λ moves.
        AreSound (home job.now.fields) job.now.fields.unit (rules_of job.now.fields) moves.items) }
    ensures cause { IfErr result (λ stop.
        IsProgramCause job.now.fields text.now stop.told stop.fault) }
{
    match moves_from(alloc, job.home(), job.fields.unit, rules_for(job), text) {
        Ok(mut moves) => {
            run_moves(job.fields.rapids, &mut moves);
            Ok(moves)
        }
        Err(NgcFault::WantOfMemory) => Err(Stop::from(WantOfMemory)),
        Err(fault) => Err(Stop {
            fault: Fault::Program,
            told: RawVerdict {
                line: line_of(fault),
                ..nothing()
            },
        }),
    }
}

/// The moves of a program's text from a point on, in a unit.
fn moves_from(
    alloc: Global,
    start: Pt3,
    unit: Unit,
    rules: Rules,
    text: &[u8],
) -> Result<Vec<Move>, NgcFault>
    requires start_ok { IsInUnitRange unit start }
    ensures reads { IfOk result (λ moves. program_of start unit rules text.now ≡ Ok moves.items) }
    ensures sound { IfOk result (λ moves. AreSound start unit rules moves.items) }
    ensures fault { IfErr result (λ first. first ≢ program_fault.WantOfMemory
        → program_of start unit rules text.now ≡ Err first) }
{
    let mut moves = Vec::new(alloc);
    let mut reader = Reader::new(start, unit, rules);
    reader.feed(text, &mut moves)?;
    reader.finish(&mut moves)?;
    Ok(moves)
}

/// The fault of a job's text, as a call tells it.
fn job_fault(fault: &JobFault) -> Fault
    ensures { result ≡ fault_of_job fault.now }
{
    match fault {
        JobFault::Syntax => Fault::JobSyntax,
        JobFault::Unknown(_) => Fault::JobUnknown,
        JobFault::Missing(_) => Fault::JobMissing,
        JobFault::WrongKind(_) => Fault::JobKind,
        JobFault::Range(_) => Fault::JobRange,
        JobFault::Relation(_, _) => Fault::JobRelation,
        JobFault::WantOfMemory => Fault::Memory,
    }
}

/// The line of a program's fault; 0 for want of memory.
fn line_of(fault: NgcFault) -> u64
    ensures { result ≡ line_of_program fault }
{
    match fault {
        NgcFault::LongLine { line } => line,
        NgcFault::Word { line, .. } => line,
        NgcFault::NotInProfile { line, .. } => line,
        NgcFault::LateTool { line } => line,
        NgcFault::Group { line, .. } => line,
        NgcFault::Twice { line, .. } => line,
        NgcFault::PathControl { line } => line,
        NgcFault::Start { line } => line,
        NgcFault::LateOffset { line } => line,
        NgcFault::NoUnits { line } => line,
        NgcFault::NoAbsolute { line } => line,
        NgcFault::NoMotion { line } => line,
        NgcFault::NoSpindle { line } => line,
        NgcFault::NoFeed { line } => line,
        NgcFault::Arc { line } => line,
        NgcFault::Cycle { line } => line,
        NgcFault::OffGrid { line } => line,
        NgcFault::OutOfRange { line } => line,
        NgcFault::TooManyMoves { line } => line,
        NgcFault::NoAxis { line } => line,
        NgcFault::NoEnd { line } => line,
        NgcFault::WantOfMemory => 0,
    }
}
