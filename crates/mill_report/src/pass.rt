ghost use Rattle.std.specs.Prelude.{◌≡◌, ◌≢◌, ℕ, ◌+◌, ◌<◌, ◌≤◌, ◌^◌, All, length, None, IfOk, OnOk, replicate, slice_index_or};
ghost use Rattle.mill_base.specs.Ranges.{MovesInRange};
ghost use Rattle.mill_job.specs.Columns.{row_count};
ghost use Rattle.mill_dexel.specs.Rows.{IsRowOf, uncut_row};
ghost use Rattle.mill_dexel.specs.Stocks.{IsStock};
ghost use Rattle.mill_report.specs.inner.Stops.{AreTold, AreToldBy, first_of, row_met, told_with};

use mill_base::{Move, WantOfMemory};
use mill_dexel::{Bands, Row, RowFail, RowTest};
use mill_job::Job;
use mill_sweep::Leaf;
use std::alloc::Global;

/// Where the stock stops a move: the number of the row, the first column of it that the move doesn't pass, the
/// leaf of the move at which the test fails, and which test that is.
#[derive(Clone, Copy)]
pub struct Stop {
    pub row: u32,
    pub col: u32,
    pub leaf: Leaf,
    pub test: RowTest,
}

/// What all moves come to on the uncut stock: its rows after them, in order, and for each move
/// where the stock, as that move met it, stopped it, if it did.
#[derive(Drop)]
pub struct Passage {
    pub rows: Vec<Row>,
    pub stops: Vec<Option<Stop>>,
}

/// Lets the uncut stock go through all moves, each of which cuts whether it passes or not.
///
/// It goes row by row, and not move by move, since a row goes over the moves that stay far away from it many at
/// once. The only error is want of memory, for the rows, the bands of the moves and a place for each move's stop.
pub fn go_through(alloc: Global, job: &Job, moves: &[Move]) -> Result<Passage, WantOfMemory>
    requires { MovesInRange moves.now }
    ensures rows_ok { IfOk result (λ passage. All (IsRowOf job.now.fields) passage.rows.items) }
    ensures stock { IfOk result (λ passage. IsStock job.now.fields moves.now passage.rows.items) }
    ensures told { IfOk result (λ passage. AreTold job.now.fields moves.now passage.stops.items) }
{
    let bands = Bands::new(alloc, moves, moves.len() as u64)?;
    let mut stops = no_stops(alloc, moves.len())?;
    let rows = rows_through(alloc, job, &bands, stops.as_mut_slice())?;
    Ok(Passage { rows, stops })
}

/// So many moves that nothing has stopped yet.
fn no_stops(alloc: Global, count: usize) -> Result<Vec<Option<Stop>>, WantOfMemory>
    ensures { IfOk result (λ stops. stops.items ≡ replicate count None) }
{
    let stops = vec![in alloc; None; count]?;
    Ok(stops)
}

/// The rows of the stock after all moves. The stops, of which there are none before, are those of all rows then.
fn rows_through(
    alloc: Global,
    job: &Job,
    bands: &Bands,
    stops: &mut [Option<Stop>],
) -> Result<Vec<Row>, WantOfMemory>
    requires moves_ok { MovesInRange bands.now.moves }
    requires whole { bands.now.count ≡ length bands.now.moves }
    requires none { AreToldBy job.now.fields bands.now.moves 0 stops.old }
    ensures rows_ok { IfOk result (λ rows. All (IsRowOf job.now.fields) rows.items) }
    ensures stock { IfOk result (λ rows. IsStock job.now.fields bands.now.moves rows.items) }
    ensures told { OnOk result (AreToldBy job.now.fields bands.now.moves (row_count job.now.fields) stops.new) }
{
    let mut rows = Vec::new(alloc);
    for number in 0..job.rows() {
        rows.push(row_through(alloc, job, bands, number, stops)?)?;
    }
    Ok(rows)
}

/// Row `number` after all moves, where the stops so far are those of the rows before it.
fn row_through(
    alloc: Global,
    job: &Job,
    bands: &Bands,
    number: u32,
    stops: &mut [Option<Stop>],
) -> Result<Row, WantOfMemory>
    requires moves_ok { MovesInRange bands.now.moves }
    requires whole { bands.now.count ≡ length bands.now.moves }
    requires there { number < row_count job.now.fields }
    requires told { AreToldBy job.now.fields bands.now.moves number stops.old }
    ensures is { IfOk result (λ row. row ≡ row_met job.now.fields bands.now.moves (length bands.now.moves) number) }
    ensures row_ok { IfOk result (λ row. IsRowOf job.now.fields row) }
    ensures told { OnOk result (AreToldBy job.now.fields bands.now.moves (number + 1) stops.new) }
{
    let mut row = Row::new(alloc, job, u64::from(number))?;
    take_turns(job, bands, number, &mut row, stops);
    Ok(row)
}

/// Row `number`'s turns, from the first move to the last.
fn take_turns(job: &Job, bands: &Bands, number: u32, row: &mut Row, stops: &mut [Option<Stop>])
    requires moves_ok { MovesInRange bands.now.moves }
    requires whole { bands.now.count ≡ length bands.now.moves }
    requires row_ok { IsRowOf job.now.fields row.old }
    requires fresh { row.old ≡ uncut_row job.now.fields number }
    requires told { AreToldBy job.now.fields bands.now.moves number stops.old }
    ensures is { row.new ≡ row_met job.now.fields bands.now.moves (length bands.now.moves) number }
    ensures row_ok { IsRowOf job.now.fields row.new }
    ensures told { AreToldBy job.now.fields bands.now.moves (number + 1) stops.new }
{
    let moves = bands.moves();
    let count = bands.count();
    let mut next = 0;
    while next < count {
        let turn = row.go_over(job, bands, next);
        if turn >= count {
            return;
        }
        let fail = row.turn_through(job, moves, turn);
        note(stops, turn, number, fail);
        next = turn + 1;
    }
}

/// Adds to the stops what row `row` tells of move `at`, which failed there so, if it did.
fn note(stops: &mut [Option<Stop>], at: u64, row: u32, fail: Option<RowFail>)
    requires { at < length stops.old }
    ensures count { length stops.new ≡ length stops.old }
    ensures noted { slice_index_or stops.new at None ≡ told_with row (slice_index_or stops.old at None) fail }
    ensures others { (k : ℕ) → k ≢ at → slice_index_or stops.new k None ≡ slice_index_or stops.old k None }
{
    if let Some(fail) = fail {
        let stop = Stop {
            row,
            col: fail.col,
            leaf: fail.leaf,
            test: fail.test,
        };
        stops[at as usize] = Some(earlier(stops[at as usize], stop));
    }
}

/// The first of a move's stop so far and one in a later row. The cutter's test of all rows comes before the
/// holder's, and then a row before those behind it.
fn earlier(told: Option<Stop>, later: Stop) -> Stop
    ensures { result ≡ first_of told later }
{
    match told {
        None => later,
        Some(stop) => match stop.test {
            RowTest::Cut => stop,
            RowTest::Holder => match later.test {
                RowTest::Cut => later,
                RowTest::Holder => stop,
            },
        },
    }
}
