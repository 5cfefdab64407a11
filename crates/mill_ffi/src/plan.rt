ghost use Rattle.std.specs.Prelude.{◌≡◌, ◌≢◌, ◌⊎◌, pos, false, length, IfOk, IfErr, OnErr};
ghost use Rattle.mill_ffi.specs.Asked.{IsToldFor};
ghost use Rattle.mill_ffi.specs.Judged.{ReadsSetup};
ghost use Rattle.mill_ffi.specs.Plans.{IsPlanCause, IsPlanned, IsPlannedFor, IsUnfed, IsUnplanned, fault_of_plan, told_of_plan, told_of_plan_fault, told_of_setup, unplanned};
ghost use Rattle.mill_plan.specs.Plans.{answer_of};

use crate::setup::{Setup, Stop, job_from, setup_for};
use mill_base::WantOfMemory;
use mill_crew::Alone;
use mill_ffi_data::{Fault, RawPlanned};
use mill_part::SortedPart;
use mill_plan::{PlanFault, Planned, plan};
use std::alloc::Global;

/// The text of the program that the planner writes for a job and a part, each by its text, as the
/// command `plan` stores it.
///
/// The job's text is a TOML document, and the part's an ASCII STL, which is read in the job's unit
/// and by its snap. A job that asks for a spindle is refused as one that lacks a key, before the
/// part is read: a plan names no feed. With status 0 `program` has the text. It is as long as that
/// has bytes: with an array of another length the status is that of the room. With these two
/// statuses `told` has the numbers of the program. With any other it has the line of the part's
/// fault, the height of a part that is too high, how many nodes a lattice has that has too many, or
/// which column the plan leaves too high or the holder would touch; it has nothing else then, and
/// is written with every status. With any status but 0 `program` is as it was.
///
/// Each call plans anew, and does all of the work on the calling thread.
#[unsafe(no_mangle)]
pub extern "C" fn camtool_plan(
    alloc: Global,
    job: &[u8],
    part: &[u8],
    program: &mut [u8],
    told: &mut RawPlanned,
) -> i32
    ensures done { result ≡ pos 0 → IsPlanned job.now part.now program.new told.new }
    ensures cause { result ≢ pos 0
        → IsToldFor (IsPlanCause job.now part.now (length program.old) told.new) result }
    ensures kept { result ≢ pos 0 → program.new ≡ program.old }
{
    match plan_into(alloc, job, part, program) {
        Ok(numbers) => {
            *told = numbers;
            0
        }
        Err(stop) => {
            *told = stop.told;
            stop.fault.code()
        }
    }
}

/// Why no program is written, and what is told of it.
#[derive(Clone, Copy)]
struct NoPlan {
    fault: Fault,
    told: RawPlanned,
}

/// Writes the program's text, and gives its numbers, or why there is none.
fn plan_into(
    alloc: Global,
    job: &[u8],
    part: &[u8],
    program: &mut [u8],
) -> Result<RawPlanned, NoPlan>
    ensures done { IfOk result (λ told. IsPlanned job.now part.now program.new told) }
    ensures cause { IfErr result
        (λ stop. IsPlanCause job.now part.now (length program.old) stop.told stop.fault) }
    ensures kept { OnErr result (program.new ≡ program.old) }
{
    let planned = planned_for(alloc, job, part)?;
    let told = numbers_of(&planned);
    if program.len() != planned.program.len() {
        return Err(NoPlan {
            fault: Fault::Room,
            told,
        });
    }
    program.copy_from_slice(&planned.program);
    Ok(told)
}

/// The plan for the texts, or why there is none.
fn planned_for(alloc: Global, job: &[u8], part: &[u8]) -> Result<Planned, NoPlan>
    ensures is { IfOk result (λ planned. IsPlannedFor job.now part.now (answer_of planned)) }
    ensures cause { IfErr result (λ stop. IsUnfed job.now part.now stop.told stop.fault
        ⊎ IsUnplanned job.now part.now stop.told stop.fault) }
{
    let setup = fed_setup(alloc, job, part)?;
    let part = match SortedPart::new(alloc, setup.part) {
        Ok(part) => part,
        Err(WantOfMemory) => return Err(without_plan(PlanFault::WantOfMemory)),
    };
    match plan(&Alone, alloc, &setup.job, &part) {
        Ok(planned) => Ok(planned),
        Err(fault) => Err(without_plan(fault)),
    }
}

/// A job that asks for no spindle, and its part. The programs of one that does have to name a feed,
/// which no key of a job names: it is refused as one that lacks a key, before its part is read.
fn fed_setup(alloc: Global, job: &[u8], part: &[u8]) -> Result<Setup, NoPlan>
    ensures reads { IfOk result (λ setup.
        ReadsSetup job.now part.now setup.job.fields setup.part) }
    ensures still { IfOk result (λ setup. setup.job.fields.spindle ≡ false) }
    ensures cause { IfErr result (λ stop. IsUnfed job.now part.now stop.told stop.fault) }
{
    let job = match job_from(alloc, job) {
        Ok(job) => job,
        Err(stop) => return Err(unread(stop)),
    };
    if job.fields.spindle {
        return Err(NoPlan {
            fault: Fault::JobMissing,
            told: nothing(),
        });
    }
    match setup_for(alloc, job, part) {
        Ok(setup) => Ok(setup),
        Err(stop) => Err(unread(stop)),
    }
}

/// Texts that give no job and part.
fn unread(stop: Stop) -> NoPlan
    ensures { result ≡ record { fault = stop.fault; told = told_of_setup stop.told } }
{
    NoPlan {
        fault: stop.fault,
        told: RawPlanned {
            line: stop.told.line,
            height: stop.told.height,
            ..nothing()
        },
    }
}

/// The planner's fault, in numbers.
fn without_plan(fault: PlanFault) -> NoPlan
    ensures { result ≡ record { fault = fault_of_plan fault; told = told_of_plan_fault fault } }
{
    match fault {
        PlanFault::TooManyNodes { nodes } => NoPlan {
            fault: Fault::TooManyNodes,
            told: RawPlanned { nodes, ..nothing() },
        },
        PlanFault::TooManyMoves => NoPlan {
            fault: Fault::TooManyMoves,
            told: nothing(),
        },
        PlanFault::Uncut { row, col, top } => NoPlan {
            fault: Fault::Uncut,
            told: RawPlanned {
                row,
                column: col,
                top,
                ..nothing()
            },
        },
        PlanFault::Held { at, row, col } => NoPlan {
            fault: Fault::Held,
            told: RawPlanned {
                at,
                row,
                column: col,
                ..nothing()
            },
        },
        PlanFault::WantOfMemory => NoPlan {
            fault: Fault::Memory,
            told: nothing(),
        },
    }
}

/// The numbers of a program that was planned.
fn numbers_of(planned: &Planned) -> RawPlanned
    ensures { result ≡ told_of_plan planned.now.program.items
        planned.now.moves planned.now.columns planned.now.most_left }
{
    RawPlanned {
        bytes: planned.program.len() as u64,
        moves: planned.moves,
        columns: planned.columns,
        most_left: planned.most_left,
        ..nothing()
    }
}

/// Nothing is told.
fn nothing() -> RawPlanned
    ensures { result ≡ unplanned }
{
    RawPlanned {
        bytes: 0,
        moves: 0,
        columns: 0,
        nodes: 0,
        at: 0,
        line: 0,
        most_left: 0,
        top: 0,
        height: 0,
        row: 0,
        column: 0,
    }
}
