//! By how much each move that fails against the part has to be raised.
ghost use Rattle.std.specs.List.{AllZip};
ghost use Rattle.std.specs.Prelude.{◌≡◌, ℕ, pos, All, IfOk};
ghost use Rattle.mill_base.specs.Ranges.{MoveInRange, MovesInRange};
ghost use Rattle.mill_gouge.specs.Lifts.{HasRoom, IsLeastLift};
ghost use Rattle.mill_report.specs.Findings.{IsFinding};
ghost use Rattle.mill_report_run.specs.inner.Lifts.{lifted_move as lifted_move_of};
ghost use Rattle.mill_report_run.specs.Reports.{IsLift, IsLiftOf};

use mill_base::{Move, Tool, WantOfMemory};
use mill_gouge::{has_room, least_lift, over_part_passes, passes_from_lift};
use mill_job::Job;
use mill_part::SortedPart;
use mill_verify::Reason;
use std::alloc::Global;

/// The lift of each finding, in units: the least with which its move passes the part, where it
/// fails against that, and can be raised so far; else none.
pub(crate) fn lifts_of(
    alloc: Global,
    job: &Job,
    part: &SortedPart,
    moves: &[Move],
    found: &[Reason],
) -> Result<Vec<Option<i32>>, WantOfMemory>
    requires moves_ok { MovesInRange moves.now }
    requires found { All (IsFinding job.now.fields part.now moves.now) found.now }
    ensures { IfOk result (λ lifts.
        AllZip (IsLift job.now.fields part.now moves.now) found.now lifts.items) }
{
    let mut lifts = Vec::new(alloc);
    for index in 0..found.len() {
        let lift = lift_of(job, part, moves, &found[index]);
        lifts.push(lift)?;
    }
    Ok(lifts)
}

/// The lift of one finding.
fn lift_of(job: &Job, part: &SortedPart, moves: &[Move], reason: &Reason) -> Option<i32>
    requires moves_ok { MovesInRange moves.now }
    requires finding { IsFinding job.now.fields part.now moves.now reason.now }
    ensures { IsLift job.now.fields part.now moves.now reason.now result }
{
    let number = lifted_move(reason)?;
    move_lift(job, part, &moves[number as usize])
}

/// The number of a finding's move, where it fails against the part.
fn lifted_move(reason: &Reason) -> Option<u64>
    ensures { result ≡ lifted_move_of reason.now }
{
    match *reason {
        Reason::Gouge { at, .. } | Reason::Holder { at, .. } => Some(at),
        _ => None,
    }
}

/// The least lift of a move, if it can be raised so far.
fn move_lift(job: &Job, part: &SortedPart, step: &Move) -> Option<i32>
    requires step_ok { MoveInRange step.now }
    ensures { IsLiftOf job.now.fields part.now step.now result }
{
    let tool = job.part_tool();
    if !has_room(&tool, part.part(), step) {
        return None;
    }
    Some(least_units(&tool, part, step))
}

/// The least lift of a move that has room, as a length.
fn least_units(tool: &Tool, part: &SortedPart, step: &Move) -> i32
    requires step_ok { MoveInRange step.now }
    requires room_ok { HasRoom tool.now part.now step.now }
    ensures { (n : ℕ) × (result ≡ pos n) × IsLeastLift tool.now part.now step.now n }
{
    // Laws without code: a move that is raised over the part passes, so the least lift is no more
    // than that.
    over_part_passes();
    passes_from_lift();
    least_lift(tool, part, step) as i32
}
