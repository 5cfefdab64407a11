ghost use Rattle.std.specs.Prelude.{◌≡◌, ℕ, ◌≤◌, ℤ, List, length, Ok, IfOk};
ghost use Rattle.mill_base.specs.declared.limits.TheConstants.{MAX_MOVES};
ghost use Rattle.mill_base.specs.Covers.{IsUnder};
ghost use Rattle.mill_base.specs.Ranges.{MovesInRange};
ghost use Rattle.mill_base.specs.declared.points.Tri.{Tri};
ghost use Rattle.mill_verify.specs.Claims.{CutsSafely};
ghost use Rattle.mill_dexel.specs.Stocks.{IsStock};
ghost use Rattle.mill_dexel.specs.Tops.{stock_after, uncut};
ghost use Rattle.mill_verify.specs.Tests.{GoodBefore};
ghost use Rattle.mill_verify.specs.Verdicts.{IsVerdict, NamesLeaf};
ghost use Rattle.mill_verify.specs.inner.Firsts.{IsStockTold};
ghost use Rattle.mill_verify.specs.declared.verdict.Reason.{Reason as Why};

use crate::crew::TestCrew;
use crate::left::Uncut;
use crate::moves::rows_after;
use crate::start::Start;
use crate::verdict::{Reason, Verdict};
use mill_base::{Move, WantOfMemory};
use mill_dexel::Row;
use mill_job::Job;
use mill_part::SortedPart;
use std::alloc::Global;

/// The verdict on a program: its first failing test, or its acceptance.
///
/// Move by move, in order: (i) both ends are at or over the floor; (ii) the move, halved into
/// leaves, passes every triangle of the part; (iii) a rapid, halved in the same way, passes the top
/// of every column of the stock that the moves before it left, and a feed, where the job's
/// `max_cut` isn't 0, the point of every column that lies so far under that top, or at the floor if
/// that is higher; then the move cuts. Where the job has a holder, a move is also tested with it,
/// halved in the same way: (ii h), after (ii), it passes every triangle, and (iii h), after (iii),
/// the top of every column, whether the move is a rapid or a feed. Where fixtures stand on the
/// machine, a move passes each of them too: (ii f), after (ii h), what the cutter may touch passes
/// both triangles of its upper face, and (ii hf) the holder does, before (iii). After the last
/// move, (iv) every column stands at most the allowance over what covers it. An accepted program
/// cuts safely, at every fraction of every move. A rejection by (ii), (ii f) or (iii) names a leaf
/// whose outer cutter, which holds the cutter at each moment of the leaf and is wider by at most
/// two units, has some point of the triangle, of the fixture's upper face, or the point of the
/// column, strictly inside; one by (ii h), (ii hf) or (iii h) the same of the holder.
///
/// The crew shares the work; the verdict doesn't depend on who it is, or on which of its workers does what.
///
/// The part is nowhere higher than the uncut stock. The program has at most 1,000,000 moves,
/// from wherever it starts. A part point covers the column on which it stands, and those nearer to it than the
/// job's band.
///
/// The only error is want of memory, for the bands of the moves and the rows of the stock.
pub fn verify<C: TestCrew>(
    crew: &C,
    alloc: Global,
    job: &Job,
    part: &SortedPart,
    moves: &[Move],
) -> Result<Verdict, WantOfMemory>
    requires crew_ok { C.ready }
    requires moves_ok { MovesInRange moves.now }
    requires under { IsUnder part.now job.now.fields.top }
    requires few { length moves.now ≤ MAX_MOVES }
    ensures verdict { IfOk result (IsVerdict job.now.fields part.now moves.now) }
    ensures safe { (count columns : ℕ) (left : ℤ)
        → result ≡ Ok (Verdict.Accept count columns left)
        → CutsSafely job.now.fields part.now moves.now }
    ensures blocked { (reason : Why)
        → result ≡ Ok (Verdict.Reject reason)
        → NamesLeaf job.now.fields part.now (uncut job.now.fields) moves.now reason }
{
    let start = Start::Uncut;
    match rows_after(crew, alloc, job, part, &start, moves)? {
        Ok(rows) => {
            let left = crew.stock_left(job, part, &rows);
            Ok(last_verdict(job, moves, left))
        }
        Err(reason) => Ok(Verdict::Reject(reason)),
    }
}

/// The verdict of [`verify`] on a program all of whose moves are good, by the rows of the stock that its
/// moves made.
///
/// It is for a program that was made so: for each move it must be known, by proof, that it passes tests
/// (i) to (iii h) after those before it (`good`), and the rows must be those that all the moves leave
/// (`rows_ok`). Then no move can be the first that fails, and only test (iv) is left, which the rows
/// decide; so no move is tested again, and none cuts again. Nothing of this is looked at here: a caller
/// that hasn't proved it takes `verify`.
///
/// The crew shares the columns; the verdict doesn't depend on
/// who it is. No memory is taken.
pub fn verdict_on_stock<C: TestCrew>(
    crew: &C,
    job: &Job,
    part: &SortedPart,
    moves: &[Move],
    rows: &[Row],
) -> Verdict
    requires crew_ok { C.ready }
    requires moves_ok { MovesInRange moves.now }
    requires good { GoodBefore job.now.fields part.now moves.now (length moves.now) }
    requires rows_ok { IsStock job.now.fields moves.now rows.now }
    ensures verdict { IsVerdict job.now.fields part.now moves.now result }
    ensures safe { (count columns : ℕ) (left : ℤ)
        → result ≡ Verdict.Accept count columns left
        → CutsSafely job.now.fields part.now moves.now }
{
    last_verdict(job, moves, crew.stock_left(job, part, rows))
}

/// The verdict after the last move, all moves being good, by what is told to be left of the stock.
fn last_verdict(job: &Job, moves: &[Move], left: Result<i32, Uncut>) -> Verdict
    ensures verdict { (part : List Tri)
        → GoodBefore job.now.fields part moves.now (length moves.now)
        → IsStockTold job.now.fields part (stock_after job.now.fields (uncut job.now.fields) moves.now) left
        → IsVerdict job.now.fields part moves.now result }
    ensures blocked { (part : List Tri) (reason : Why)
        → result ≡ Verdict.Reject reason
        → NamesLeaf job.now.fields part (uncut job.now.fields) moves.now reason }
{
    match left {
        Ok(most_left) => Verdict::Accept {
            moves: moves.len() as u64,
            columns: job.column_total(),
            most_left,
        },
        Err(Uncut { row, col, top }) => Verdict::Reject(Reason::Left { row, col, top }),
    }
}
