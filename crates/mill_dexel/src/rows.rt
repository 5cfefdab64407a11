ghost use Rattle.std.specs.Prelude.{◌≡◌, ◌<◌, ◌≤◌, ◌*◌, ◌/◌, ◌^◌, All, length};
ghost use Rattle.std.specs.List.{AllZip};
ghost use Rattle.mill_base.specs.Ranges.{MovesInRange};
ghost use Rattle.mill_base.specs.declared.limits.TheConstants.{MAX_WORKERS};
ghost use Rattle.mill_job.specs.Jobs.{IsJob};
ghost use Rattle.mill_dexel.specs.Rows.{IsRowOf};
ghost use Rattle.mill_dexel.specs.Bands.{IsBand};
ghost use Rattle.mill_dexel.specs.inner.Readiness.{AreReady};
ghost use Rattle.mill_dexel.specs.Turns.{IsTurned, IsTurnedUpTo};
ghost use denote.Param.Send.{IsSync};

use crate::band::{Band, band_of};
use crate::row::Row;
use crate::turns::run_to;
use mill_base::Move;
use mill_job::Job;
use std::thread::{Threads, join_mut};

/// Lets each row go through its turns, from its next move on, until the moves end or one fails. A
/// row that had failed is left as it is.
///
/// The rows are handed in fixed chunks to `workers` threads, from 1 to 64. What becomes of a row
/// doesn't depend on their number. No memory is taken.
pub fn rows_static<R: Threads + Sync>(
    rt: &R,
    job: &Job,
    mut rows: Vec<Row>,
    moves: &[Move],
    workers: u32,
) -> Vec<Row>
    requires rows_ok { All (IsRowOf job.now.fields) rows.items }
    requires moves_ok { MovesInRange moves.now }
    requires some { 1 ≤ workers }
    requires few { workers ≤ MAX_WORKERS }
    ensures turned { AllZip (IsTurned job.now.fields moves.now) rows.items result.items }
    ensures rows_ok { All (IsRowOf job.now.fields) result.items }
{
    spread(rt, job, moves, workers, rows.as_mut_slice());
    rows
}

/// Halves the rows among the workers, until each has its chunk.
fn spread<R: Threads + Sync>(rt: &R, job: &Job, moves: &[Move], workers: u32, rows: &mut [Row])
    requires ready { AreReady job.now.fields moves.now workers rows.old }
    ensures { AllZip (IsTurned job.now.fields moves.now) rows.old rows.new }
{
    if workers <= 1 || rows.len() <= 1 {
        run_all(job, moves, rows);
        return;
    }
    let left_workers = workers / 2;
    let right_workers = workers - left_workers;
    let middle = share(rows.len(), left_workers, workers);
    let (left, right) = rows.split_at_mut(middle);
    join_mut(
        rt,
        &mut || -> ()
            requires sync { IsSync R.row }
            requires ready { AreReady job.now.fields moves.now left_workers left.now }
            ensures { AllZip (IsTurned job.entry.now.fields moves.entry.now) left.entry.now left.exit.now }
        { spread(rt, job, moves, left_workers, left) },
        &mut || -> ()
            requires sync { IsSync R.row }
            requires ready { AreReady job.now.fields moves.now right_workers right.now }
            ensures { AllZip (IsTurned job.entry.now.fields moves.entry.now) right.entry.now right.exit.now }
        { spread(rt, job, moves, right_workers, right) },
    );
}

/// How many of `count` pieces of work are for `some` of all the workers, so that each worker gets about
/// as many.
///
/// The product of the two may be too great for a machine, so it is never made.
pub fn share(count: usize, some: u32, workers: u32) -> usize
    requires workers { 1 ≤ workers }
    requires part { some ≤ workers }
    requires few { workers ≤ MAX_WORKERS }
    requires count_ok { count ≤ 2 ^ 63 }
    ensures value { result ≡ (count * some) / workers }
    ensures bound { result ≤ count }
{
    let some = some as usize;
    let workers = workers as usize;
    count / workers * some + count % workers * some / workers
}

/// How many moves the rows of a chunk go through before the next ones.
const BLOCK: u64 = 512;

/// One worker's chunk: the moves block by block, so that a row goes over a block that stays far away
/// from it at once.
fn run_all(job: &Job, moves: &[Move], rows: &mut [Row])
    requires rows_ok { All (IsRowOf job.now.fields) rows.old }
    requires moves_ok { MovesInRange moves.now }
    ensures { AllZip (IsTurned job.now.fields moves.now) rows.old rows.new }
{
    let count = moves.len() as u64;
    let mut first = 0;
    while first < count {
        let end = block_end(first, count);
        run_block(job, moves, &band_of(moves, first, end), rows);
        first = end;
    }
}

/// Where the block from move `first` on ends.
fn block_end(first: u64, count: u64) -> u64
    requires { first < count }
    ensures onward { first < result }
    ensures within { result ≤ count }
{
    first + BLOCK.min(count - first)
}

/// One block of moves, row by row.
fn run_block(job: &Job, moves: &[Move], band: &Band, rows: &mut [Row])
    requires rows_ok { All (IsRowOf job.now.fields) rows.old }
    requires moves_ok { MovesInRange moves.now }
    requires there { band.now.end ≤ length moves.now }
    requires band { IsBand moves.now band.now }
    ensures turned { AllZip (IsTurnedUpTo job.now.fields moves.now band.now.end) rows.old rows.new }
    ensures rows_ok { All (IsRowOf job.now.fields) rows.new }
{
    for row in rows.iter_mut() {
        run_to(row, job, moves, band);
    }
}
