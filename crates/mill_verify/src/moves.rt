ghost use Rattle.std.specs.Prelude.{IfOk, MatchResult};
ghost use Rattle.mill_verify.specs.inner.Firsts.{ArePassed, IsFloorEnd, IsStopped};
ghost use Rattle.mill_verify.specs.inner.Pieces.{AreReady, AreTested};
ghost use Rattle.mill_verify.specs.inner.Readiness.{AreAsked, rows_at, stock_of};

use crate::block::Block;
use crate::crew::TestCrew;
use crate::failure::{first_failed, reason_of};
use crate::floor::floor_end;
use crate::piece::Piece;
use crate::start::Start;
use crate::stock::rows_of;
use crate::verdict::Reason;
use mill_base::{Move, WantOfMemory};
use mill_board::Closed;
use mill_dexel::Row;
use mill_job::Job;
use mill_part::SortedPart;
use mill_sweep::failing_is_blocked;
use std::alloc::Global;

/// Tests (i) to (iii h) of a program from this stock on: the rows of the stock that all moves leave, or the
/// first test that a move fails.
///
/// The crew shares the tests against part, fixtures and stock of the moves before the first that
/// fails test (i). What these come to has the first that fails.
pub fn rows_after<C: TestCrew>(
    crew: &C,
    alloc: Global,
    job: &Job,
    part: &SortedPart,
    start: &Start,
    moves: &[Move],
) -> Result<Result<Vec<Row>, Reason>, WantOfMemory>
    requires crew_ok { C.ready }
    requires asked { AreAsked job.now.fields start.now moves.now }
    ensures { IfOk result (λ told. MatchResult
        told
        (λ rows. ArePassed job.now.fields part.now (stock_of job.now.fields start.now) moves.now rows.items)
        (IsStopped job.now.fields part.now (stock_of job.now.fields start.now) moves.now)) }
{
    let turns = floor_end(job, moves) as u64;
    let closed = crew.tested(alloc, job, part, start, moves, turns)?;
    told_by(alloc, job, part, start, moves, turns, closed)
}

/// What the tests of the first `turns` moves, which all pass test (i), came to.
///
/// Of the pieces that failed at the least turn a block comes before the rows, and a row before those
/// after it; but a row that failed the holder's test alone comes after the others.
fn told_by(
    alloc: Global,
    job: &Job,
    part: &SortedPart,
    start: &Start,
    moves: &[Move],
    turns: u64,
    closed: Closed<Piece>,
) -> Result<Result<Vec<Row>, Reason>, WantOfMemory>
    requires ready { AreReady job.now.fields (stock_of job.now.fields start.now) moves.now turns }
    requires floor { IsFloorEnd job.now.fields moves.now turns }
    requires tested { AreTested job.now.fields part.now (rows_at start.now) moves.now turns closed.least closed.pieces.items }
    ensures { IfOk result (λ told. MatchResult
        told
        (λ rows. ArePassed job.now.fields part.now (stock_of job.now.fields start.now) moves.now rows.items)
        (IsStopped job.now.fields part.now (stock_of job.now.fields start.now) moves.now)) }
{
    // A law without code: a leaf that fails, of the cutter or of the holder, is one of the last of its move.
    failing_is_blocked();
    let Closed { least, pieces } = closed;
    if let Some(number) = first_failed(&pieces, least) {
        let kind = moves[least as usize].kind;
        return Ok(Err(reason_of(&pieces[number], kind, Block::count(turns))));
    }
    if turns < moves.len() as u64 {
        return Ok(Err(Reason::Floor { at: turns }));
    }
    Ok(Ok(rows_of(alloc, pieces)?))
}
