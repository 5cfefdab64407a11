ghost use Rattle.std.specs.Prelude.{◌≡◌, ◌^◌, ◌<◌, IfOk};
ghost use Rattle.mill_verify.specs.inner.Pieces.{AreReady, piece_count};
ghost use Rattle.mill_verify.specs.inner.Readiness.{IsStart, rows_at, stock_of};

use crate::block::Block;
use crate::piece::Piece;
use crate::start::{Start, fresh_row};
use mill_base::{Move, WantOfMemory};
use mill_board::Work;
use mill_dexel::Bands;
use mill_job::Job;
use mill_part::SortedPart;
use std::alloc::Global;
use std::marker::Model;

/// Tests (ii) to (iii h) of a program as work that threads share: its pieces are the blocks of moves and,
/// after them, the rows of the stock, and each has a turn a move. The moves that have turns are those
/// before the first that fails test (i).
#[derive(Drop)]
pub struct Tests<'a> {
    job: &'a Job,
    part: &'a SortedPart,
    start: &'a Start,
    bands: Bands<'a>,
}

impl<'a> Model for Tests<'a> {
    ghost use Rattle.mill_verify.specs.inner.Pieces.{AreReady, TestsShown};
    ghost use Rattle.mill_verify.specs.inner.Readiness.{IsStart, rows_at, stock_of};

    ghost Value = { TestsShown };

    ghost view = { λ w. record { job = w.job.now.fields; part = w.part.now; start = rows_at w.start.now; moves = w.bands.moves; turns = w.bands.count } };

    ghost invariant = { λ w. AreReady w.job.now.fields (stock_of w.job.now.fields w.start.now) w.bands.moves w.bands.count × IsStart w.job.now.fields w.start.now };
}

impl<'a> Tests<'a> {
    /// The tests of the first `turns` moves on this stock. The only error is want of memory, for the bands of
    /// the moves.
    pub fn new(
        alloc: Global,
        job: &'a Job,
        part: &'a SortedPart,
        start: &'a Start,
        moves: &'a [Move],
        turns: u64,
    ) -> Result<Tests<'a>, WantOfMemory>
        requires ready { AreReady job.now.fields (stock_of job.now.fields start.now) moves.now turns }
        requires start_ok { IsStart job.now.fields start.now }
        ensures { IfOk result (λ tests. tests ≡ record { job = job.now.fields; part = part.now; start = rows_at start.now; moves = moves.now; turns = turns }) }
    {
        let bands = Bands::new(alloc, moves, turns)?;
        Ok(Tests {
            job,
            part,
            start,
            bands,
        })
    }

    /// How many pieces there are.
    pub fn pieces(&self) -> u64
        ensures count { result ≡ piece_count self.now }
        ensures few { result < 2 ^ 32 }
    {
        Block::count(self.bands.count()) + u64::from(self.job.rows())
    }
}

impl<'a> Work for Tests<'a> {
    type Piece = Piece;

    ghost use Rattle.mill_verify.specs.inner.Pieces.{tests};

    ghost means = { tests };

    fn span(&self, number: u64) -> (u64, u64) {
        let turns = self.bands.count();
        if number < Block::count(turns) {
            let block = Block::new(number, turns);
            return (block.first(), block.limit());
        }
        (0, turns)
    }

    fn fresh(&self, alloc: Global, number: u64) -> Result<Piece, WantOfMemory> {
        let turns = self.bands.count();
        let blocks = Block::count(turns);
        if number < blocks {
            let block = Block::new(number, turns);
            return Ok(Piece::Block { number, block });
        }
        let row = fresh_row(alloc, self.job, self.start, number - blocks)?;
        Ok(Piece::Stock { number, row })
    }

    /// A row goes over the moves that stay far away from it, and a block over none.
    fn pass_over(&self, piece: &mut Piece, turn: u64) -> u64 {
        match piece {
            Piece::Block { .. } => turn,
            Piece::Stock { number: _, row } => row.go_over(self.job, &self.bands, turn),
        }
    }

    fn turn(&self, piece: &mut Piece, turn: u64) -> bool {
        let moves = self.bands.moves();
        match piece {
            Piece::Block { number: _, block } => { block.turn(self.job, self.part, moves, turn) }
            Piece::Stock { number: _, row } => row.turn_on(self.job, moves, turn),
        }
    }
}
