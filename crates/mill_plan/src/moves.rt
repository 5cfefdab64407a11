ghost use Rattle.std.specs.Prelude.{◌≡◌, ◌++◌, ◌<◌, ◌≤◌, List, [], length, All, IfErr, IfOk, OnErr, OnOk};
ghost use Rattle.mill_base.specs.declared.limits.TheConstants.{MAX_MOVES};
ghost use Rattle.mill_base.specs.declared.motion.Move.{Move as OneMove};
ghost use Rattle.mill_base.specs.declared.points.Tri.{Tri};
ghost use Rattle.mill_base.specs.Ranges.{IsInUnitRange, MovesInRange};
ghost use Rattle.mill_dexel.specs.Rows.{IsRowOf};
ghost use Rattle.mill_job.specs.Columns.{home as home_of};
ghost use Rattle.mill_links.specs.Links.{FollowStock};
ghost use Rattle.mill_links.specs.Safety.{GoSafely, LiesUnderClear};
ghost use Rattle.mill_paths.specs.Plans.{ArePlanVisits};
ghost use Rattle.mill_paths.specs.Visits.{IsVisit};
ghost use Rattle.mill_plan.specs.Plans.{HasFewNodes, HasPlan};
ghost use Rattle.mill_plan.specs.inner.Conditions.{AreFirstRows};
ghost use Rattle.mill_plan.specs.inner.Feeds.{SayClear};
ghost use Rattle.mill_plan.specs.inner.Steps.{IsMovesFault, IsNodesFault, IsRound, IsRoundFault};

use crate::crew::PlanCrew;
use crate::fault::PlanFault;
use mill_base::{MAX_MOVES, MAX_NODES, Move, WantOfMemory};
use mill_dexel::{Row, cut_rows, uncut_rows};
use mill_job::Job;
use mill_links::{Visit, head, home, link_known};
use mill_part::SortedPart;
use mill_paths::{
    PathCrew, finish_lattice, finish_visits, level_visits, rough_lattice, rough_visits,
};
use std::alloc::Global;

/// Whether each lattice that the paths go over has at most 4,000,000 nodes: the finishing one, over
/// which the levels' waterlines go too, and, where there is a layer, the rough one. The error tells
/// of the first that hasn't.
pub(crate) fn check_nodes(job: &Job) -> Result<(), PlanFault>
    ensures few { OnOk result (HasFewNodes job.now.fields) }
    ensures fault { IfErr result (IsNodesFault job.now.fields) }
{
    let finish = finish_lattice(job).nodes();
    if finish > MAX_NODES {
        return Err(PlanFault::TooManyNodes { nodes: finish });
    }
    if job.fields.layer == 0 {
        return Ok(());
    }
    let rough = rough_lattice(job).nodes();
    if rough > MAX_NODES {
        return Err(PlanFault::TooManyNodes { nodes: rough });
    }
    Ok(())
}

/// The moves of the plan, of which there are at most 1,000,000.
///
/// The part is here all that the tool has to keep off. They go safely from home to home. The rows
/// are those of `rows_for_depth`; where the job limits the depth of cut, they are then those that
/// all the moves leave. The error is that there are too many moves, or want of memory.
pub(crate) fn planned_moves<C: PlanCrew>(
    crew: &C,
    alloc: Global,
    job: &Job,
    part: &SortedPart,
    rows: &mut [Row],
) -> Result<Vec<Move>, PlanFault>
    requires crew_ok { C.ready }
    requires under { LiesUnderClear job.now.fields part.now }
    requires nodes { HasFewNodes job.now.fields }
    requires rows_ok { AreFirstRows job.now.fields rows.old }
    ensures stock { IfOk result (λ moves. FollowStock job.now.fields moves.items rows.new) }
    ensures plan { IfOk result (λ moves. HasPlan job.now.fields part.now moves.items) }
    ensures safe { IfOk
        result
        (λ moves. GoSafely job.now.fields part.now [] (home_of job.now.fields) moves.items (home_of job.now.fields)) }
    ensures fault { IfErr result (IsMovesFault job.now.fields part.now) }
{
    let visits = plan_visits(crew, alloc, job, part)?;
    let clear = crew.clear_links(alloc, job, part, &visits)?;
    round_of(alloc, job, rows, &visits, &clear)
}

/// The plan's visits: those of its roughing, then those of its levels, then its finishing path.
fn plan_visits<C: PathCrew>(
    crew: &C,
    alloc: Global,
    job: &Job,
    part: &SortedPart,
) -> Result<Vec<Visit>, PlanFault>
    requires crew_ok { C.ready }
    requires nodes { HasFewNodes job.now.fields }
    ensures list { IfOk result (λ visits. ArePlanVisits job.now.fields part.now visits.items) }
    ensures each { IfOk result (λ visits. All (IsVisit job.now.fields part.now) visits.items) }
    ensures fault { IfErr result (IsMovesFault job.now.fields part.now) }
{
    let mut visits = rough_visits(crew, alloc, job, part)?;
    let level = level_visits(crew, alloc, job, part)?;
    visits.extend_from_slice(&level)?;
    let finish = finish_visits(crew, alloc, job, part)?;
    visits.extend_from_slice(&finish)?;
    Ok(visits)
}

/// The rows of the uncut stock, by which it is seen how deep a feed cuts; none where the job
/// doesn't limit that.
pub(crate) fn rows_for_depth(alloc: Global, job: &Job) -> Result<Vec<Row>, WantOfMemory>
    ensures { IfOk result (λ rows. AreFirstRows job.now.fields rows.items) }
{
    if job.fields.max_cut == 0 {
        return Ok(Vec::new(alloc));
    }
    uncut_rows(alloc, job)
}

/// The moves from home through the visits, and home again, of which there are at most 1,000,000,
/// those with which the program begins among them.
///
/// `clear` says of each visit whether the link to it is clear: for each part of which it says so,
/// the links are those of the part's plan. The rows are those of `rows_for_depth`; all the moves
/// cut them, those at the beginning and those of the way home too. It ends at the first link with
/// which there are too many moves.
fn round_of(
    alloc: Global,
    job: &Job,
    rows: &mut [Row],
    visits: &[Visit],
    clear: &[bool],
) -> Result<Vec<Move>, PlanFault>
    requires rows_ok { AreFirstRows job.now.fields rows.old }
    requires visits_ok { All (λ visit. IsInUnitRange job.now.fields.unit visit.at) visits.now }
    requires both { length clear.now ≡ length visits.now }
    ensures round { (part : List Tri) → SayClear job.now.fields part visits.now clear.now
        → IfOk result (λ moves. IsRound job.now.fields part visits.now moves.items) }
    ensures stock { (part : List Tri) → SayClear job.now.fields part visits.now clear.now
        → IfOk result (λ moves. FollowStock job.now.fields moves.items rows.new) }
    ensures few { IfOk result (λ moves. length moves.items ≤ MAX_MOVES) }
    ensures fault { (part : List Tri) → SayClear job.now.fields part visits.now clear.now
        → IfErr result (IsRoundFault job.now.fields part visits.now) }
{
    let mut moves = Vec::new(alloc);
    head(job, &mut moves)?;
    cut(job, rows, &moves);
    let mut place = job.home();
    for number in 0..visits.len() {
        let visit = visits[number];
        link_known(job, rows, place, visit, clear[number], &mut moves)?;
        check_moves(&moves)?;
        place = visit.at;
    }
    let first = moves.len();
    home(job, place, &mut moves)?;
    check_moves(&moves)?;
    cut(job, rows, &moves[first..]);
    Ok(moves)
}

/// Lowers the rows to what the cutter leaves after these moves; there are none where the job
/// doesn't limit the depth of cut.
fn cut(job: &Job, rows: &mut [Row], moves: &[Move])
    requires rows_ok { All (IsRowOf job.now.fields) rows.old }
    requires moves_ok { MovesInRange moves.now }
    ensures stock { (done : List OneMove) → FollowStock job.now.fields done rows.old →
        FollowStock job.now.fields (done ++ moves.now) rows.new }
    ensures rows_ok { All (IsRowOf job.now.fields) rows.new }
{
    for step in moves {
        cut_rows(job, rows, step);
    }
}

/// Whether there are at most 1,000,000 moves.
fn check_moves(moves: &[Move]) -> Result<(), PlanFault>
    ensures few { OnOk result (length moves.now ≤ MAX_MOVES) }
    ensures fault { IfErr result (λ fault. fault ≡ PlanFault.TooManyMoves) }
    ensures many { OnErr result (MAX_MOVES < length moves.now) }
{
    if moves.len() > MAX_MOVES {
        return Err(PlanFault::TooManyMoves);
    }
    Ok(())
}
