//! Who makes the tests of a program.
ghost use Rattle.std.specs.Prelude.{◌≡◌, IfOk};
ghost use Rattle.mill_dexel.specs.Stocks.{ShowsStock};
ghost use Rattle.mill_dexel.specs.Tops.{Stock};
ghost use Rattle.mill_verify.specs.inner.Firsts.{IsStockTold};
ghost use Rattle.mill_verify.specs.inner.Pieces.{AreReady, AreTested};
ghost use Rattle.mill_verify.specs.inner.Readiness.{AreJobRows, IsStart, rows_at, stock_of};

use crate::left::{Uncut, rows_left, scan_rows};
use crate::piece::Piece;
use crate::start::Start;
use crate::work::Tests;
use mill_base::{Move, WantOfMemory};
use mill_board::{Closed, run_all, run_alone};
use mill_crew::{Alone, Crew, Threaded};
use mill_dexel::Row;
use mill_job::Job;
use mill_part::SortedPart;
use std::alloc::Global;
use std::thread::Threads;

/// A crew that tests programs: as many threads as it has workers, or the calling thread alone.
///
/// What it tells doesn't depend on it. It is sealed: `Threaded` and `Alone` are such crews, and no
/// other.
pub trait TestCrew: Crew {
    /// What tests (ii) to (iii h) of the first `turns` moves come to on this stock. The only error is want of
    /// memory, for the bands of the moves and the pieces of the work.
    fn tested(
        &self,
        alloc: Global,
        job: &Job,
        part: &SortedPart,
        start: &Start,
        moves: &[Move],
        turns: u64,
    ) -> Result<Closed<Piece>, WantOfMemory>
        requires crew_ok { Self.ready }
        requires ready { AreReady job.now.fields (stock_of job.now.fields start.now) moves.now turns }
        requires start_ok { IsStart job.now.fields start.now }
        ensures { IfOk result (λ closed. AreTested job.now.fields part.now (rows_at start.now) moves.now turns closed.least closed.pieces.items) };

    /// Test (iv): how much is left over the part at most, or the first column that isn't cut, by row first.
    fn stock_left(&self, job: &Job, part: &SortedPart, rows: &[Row]) -> Result<i32, Uncut>
        requires crew_ok { Self.ready }
        requires rows_ok { AreJobRows job.now.fields rows.now }
        ensures { (stock : Stock) → ShowsStock job.now.fields stock rows.now → IsStockTold job.now.fields part.now stock result };
}

impl<'a, R: Threads + Sync> TestCrew for Threaded<'a, R> {
    fn tested(
        &self,
        alloc: Global,
        job: &Job,
        part: &SortedPart,
        start: &Start,
        moves: &[Move],
        turns: u64,
    ) -> Result<Closed<Piece>, WantOfMemory> {
        let work = Tests::new(alloc, job, part, start, moves, turns)?;
        let pieces = work.pieces();
        run_all(self.rt, alloc, work, pieces, turns, self.workers())
    }

    fn stock_left(&self, job: &Job, part: &SortedPart, rows: &[Row]) -> Result<i32, Uncut> {
        let end = rows.len();
        rows_left(self.rt, job, part, rows, 0, end, self.workers())
    }
}

impl TestCrew for Alone {
    fn tested(
        &self,
        alloc: Global,
        job: &Job,
        part: &SortedPart,
        start: &Start,
        moves: &[Move],
        turns: u64,
    ) -> Result<Closed<Piece>, WantOfMemory> {
        let work = Tests::new(alloc, job, part, start, moves, turns)?;
        let pieces = work.pieces();
        run_alone(alloc, work, pieces, turns)
    }

    fn stock_left(&self, job: &Job, part: &SortedPart, rows: &[Row]) -> Result<i32, Uncut> {
        scan_rows(job, part, rows, 0, rows.len())
    }
}
