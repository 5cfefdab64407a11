ghost use Rattle.std.specs.Prelude.{◌≡◌, ◌↔◌, ℕ, ◌≤◌, ℤ, pos, ◌<ℤ◌, length, None, Ok};
ghost use Rattle.std.specs.Prelude.{IfErr, IfOk, IsErrOf, IsTrue};
ghost use Rattle.mill_base.specs.declared.limits.TheConstants.{MAX_MOVES};
ghost use Rattle.mill_base.specs.Covers.{IsUnder};
ghost use Rattle.mill_links.specs.Links.{FollowStock};
ghost use Rattle.mill_ngc.specs.Readings.{ReadsAs};
ghost use Rattle.mill_obstacles.specs.Faces.{obstacles_of};
ghost use Rattle.mill_verify.specs.Claims.{CutsSafely};
ghost use Rattle.mill_verify.specs.Verdicts.{IsVerdict};
ghost use Rattle.mill_plan.specs.Plans.{HasFewNodes, HasPlan, IsOverNodes, IsPlanAnswer};
ghost use Rattle.mill_plan.specs.Plans.{IsPlanFault, answer_of, begin_of, plan_text};
ghost use Rattle.mill_plan.specs.inner.Conditions.{AreFirstRows, BeginsWithHead, KeepsOffAll};
ghost use Rattle.mill_plan.specs.declared.fault.PlanFault.TheVariants.{TooManyNodes};

use crate::crew::PlanCrew;
use crate::fault::PlanFault;
use crate::moves::{check_nodes, planned_moves, rows_for_depth};
use crate::planned::Planned;
use mill_base::{Move, WantOfMemory};
use mill_dexel::Row;
use mill_job::Job;
use mill_ngc::write_program;
use mill_obstacles::obstacles;
use mill_part::SortedPart;
use mill_verify::{Reason, Verdict};
use std::alloc::Global;

/// Plans a program that cuts the job's part, and verifies it.
///
/// The cutter starts at the job's home, comes to the visits of its roughing, then to those along
/// the waterlines at its levels, each closed one round to its first point again, and then to those
/// of its finishing path (`mill_paths`), each by its link (`mill_links`), and goes home. The text
/// is that of `mill_ngc` in the job's unit; it reads back as these moves, as the job's machine
/// makes them, which the verifier accepts, with the numbers that are told.
///
/// Where the job has fixtures, the tool keeps off them as off the part: their upper faces stand
/// behind its triangles (`mill_obstacles`) for drop heights, waterlines and straight feeds. They
/// cover nothing, so the stock beside them that the cutter can't come to is left. Where a program
/// may start from elsewhere than over home, the moves begin with two that stay at home, and the
/// text with the two lines that lead there: up, and across.
///
/// Where the job limits the depth of cut (`max_cut`), the way down to a place goes by pecks, none of
/// them deeper, and a straight feed is made only where it cuts no column deeper than that, as the moves
/// before it left the column. The rows of the stock, a top for each column, are held meanwhile. Then
/// the moves aren't tested a second time, if the job has no holder: it is proved that each of them passes,
/// and what they leave of the stock, which decides the verdict, is what the rows have come to.
///
/// Where the job has a holder, the drop heights and the waterlines are those of cutter and holder, and a
/// straight feed is made only where the holder passes the part, too. What is left of the stock isn't
/// looked at for the holder before the verdict.
///
/// The crew shares the work; the answer doesn't depend on who it is. Of a runtime's threads, the verifying
/// goes to as many as the crew has workers, and the drop heights, the waterlines and the straight feeds to
/// as many as the machine has processors. The part is nowhere higher than the uncut stock. Lengths are in
/// the job's units.
///
/// # Errors
///
/// The first of these: `TooManyNodes` exactly where the finishing lattice has more than 4,000,000
/// nodes, or, where there is a layer, the rough lattice; the finishing one is named first.
/// `TooManyMoves` where the plan has more than 1,000,000 moves, as visits or moves of it show. `Uncut`
/// where the verdict on the plan is that this column's top is left too high: the finishing path can't
/// come to it. `Held` where the verdict on the plan is that on this move the holder would touch what the
/// moves before it left of this column. By `one_plan_answer` no two of the answers are right at a time.
/// `WantOfMemory` may come in the place of any of them.
pub fn plan<C: PlanCrew>(
    crew: &C,
    alloc: Global,
    job: &Job,
    part: &SortedPart,
) -> Result<Planned, PlanFault>
    requires crew_ok { C.ready }
    requires under { IsUnder part.now job.now.fields.top }
    ensures planned { IfOk result (λ planned. IsPlanAnswer job.now.fields part.now (answer_of
        planned)) }
    ensures fault { IfErr result (IsPlanFault job.now.fields part.now) }
    ensures nodes { (nodes : ℕ) →
        IsErrOf result (TooManyNodes nodes) ↔ IsOverNodes job.now.fields nodes }
{
    check_nodes(job)?;
    let mut rows = rows_for_depth(alloc, job)?;
    let moves = moves_past_all(crew, alloc, job, part, &mut rows)?;
    verified(crew, alloc, job, part, &moves, &rows)
}

/// The moves of the plan, which keep off the part and off the job's fixtures.
fn moves_past_all<C: PlanCrew>(
    crew: &C,
    alloc: Global,
    job: &Job,
    part: &SortedPart,
    rows: &mut [Row],
) -> Result<Vec<Move>, PlanFault>
    requires crew_ok { C.ready }
    requires under { IsUnder part.now job.now.fields.top }
    requires nodes { HasFewNodes job.now.fields }
    requires rows_ok { AreFirstRows job.now.fields rows.old }
    ensures stock { IfOk result (λ moves. FollowStock job.now.fields moves.items rows.new) }
    ensures plan { IfOk
        result
        (λ moves. HasPlan job.now.fields (obstacles_of job.now.fields part.now) moves.items) }
    ensures safe { IfOk result (λ moves. KeepsOffAll job.now.fields part.now moves.items) }
    ensures fault { IfErr result (IsPlanFault job.now.fields part.now) }
{
    if job.fixtures().is_empty() {
        return planned_moves(crew, alloc, job, part, rows);
    }
    let all = obstacles(alloc, job, part.part())?;
    let all = SortedPart::new(alloc, all)?;
    planned_moves(crew, alloc, job, &all, rows)
}

/// The planner's answer, from the verdict on the plan's moves.
fn verified<C: PlanCrew>(
    crew: &C,
    alloc: Global,
    job: &Job,
    part: &SortedPart,
    moves: &[Move],
    rows: &[Row],
) -> Result<Planned, PlanFault>
    requires crew_ok { C.ready }
    requires under { IsUnder part.now job.now.fields.top }
    requires plan_ok { HasPlan
        job.now.fields
        (obstacles_of job.now.fields part.now)
        moves.now }
    requires safe { KeepsOffAll job.now.fields part.now moves.now }
    requires stock { FollowStock job.now.fields moves.now rows.now }
    ensures planned { IfOk
        result
        (λ planned. IsPlanAnswer job.now.fields part.now (answer_of planned)) }
    ensures fault { IfErr result (IsPlanFault job.now.fields part.now) }
{
    match verdict_on(crew, alloc, job, part, moves, rows)? {
        Verdict::Accept {
            moves: count,
            columns,
            most_left,
        } => {
            let program = text_of(alloc, job, moves)?;
            Ok(Planned {
                program,
                moves: count,
                columns,
                most_left,
            })
        }
        Verdict::Reject(reason) => match reason {
            Reason::Left { row, col, top } => Err(PlanFault::Uncut { row, col, top }),
            Reason::HolderStock {
                at,
                row,
                col,
                leaf: _,
            } => Err(PlanFault::Held { at, row, col }),
            // No move of a plan fails another test: each ends over the floor, cutter and holder pass the
            // part and the fixtures, and the cutter passes the stock.
            _ => unreachable!(),
        },
    }
}

/// The text of the plan's moves: where they begin with two at home, these are the lines that lead
/// there.
fn text_of(alloc: Global, job: &Job, moves: &[Move]) -> Result<Vec<u8>, WantOfMemory>
    requires begins { BeginsWithHead job.now.fields moves.now }
    ensures text { IfOk result (λ text. text.items ≡ plan_text job.now.fields moves.now) }
    ensures reads { IfOk
        result
        (λ text. ReadsAs job.now.fields.unit (begin_of job.now.fields) moves.now text.items) }
{
    if !job.fields.start.is_elsewhere() {
        return write_program(alloc, None, moves, job.fields.unit);
    }
    write_program(alloc, Some(job.home()), &moves[2..], job.fields.unit)
}

/// The verdict on the plan's moves: by the last test alone, on the rows that the moves have made already,
/// where it is known that the moves pass all others; else by all tests.
fn verdict_on<C: PlanCrew>(
    crew: &C,
    alloc: Global,
    job: &Job,
    part: &SortedPart,
    moves: &[Move],
    rows: &[Row],
) -> Result<Verdict, WantOfMemory>
    requires crew_ok { C.ready }
    requires under { IsUnder part.now job.now.fields.top }
    requires few { length moves.now ≤ MAX_MOVES }
    requires safe { KeepsOffAll job.now.fields part.now moves.now }
    requires stock { FollowStock job.now.fields moves.now rows.now }
    ensures verdict { IfOk result (IsVerdict job.now.fields part.now moves.now) }
    ensures safe { (count columns : ℕ) (left : ℤ)
        → result ≡ Ok (Verdict.Accept count columns left)
        → CutsSafely job.now.fields part.now moves.now }
{
    if is_decided_by_stock(job) {
        return Ok(crew.verdict_on_stock(job, part, moves, rows));
    }
    crew.verify(alloc, job, part, moves)
}

/// Whether what a plan's moves leave of the stock decides the verdict on them, and the rows tell it: the
/// job has no holder, whose test against the stock alone may fail, and limits the depth of cut.
fn is_decided_by_stock(job: &Job) -> bool
    ensures limited { IsTrue result → pos 0 <ℤ job.now.fields.max_cut }
    ensures bare { IsTrue result → job.now.fields.holder ≡ None }
{
    if job.fields.max_cut == 0 {
        return false;
    }
    job.fields.holder.is_none()
}
