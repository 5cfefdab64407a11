ghost use Rattle.std.specs.Prelude.{◌≡◌, ◌≤◌, None, length};
ghost use Rattle.mill_base.specs.Ranges.{MovesInRange};
ghost use Rattle.mill_job.specs.Jobs.{IsJob};
ghost use Rattle.mill_dexel.specs.Rows.{IsRowOf};
ghost use Rattle.mill_dexel.specs.Bands.{IsBand};
ghost use Rattle.mill_dexel.specs.Turns.{IsTurnedUpTo, OneOutcome};

use crate::band::Band;
use crate::row::Row;
use mill_base::Move;
use mill_job::Job;

/// Lets a row go through its turns, from its next move on, until those of the band end or one fails.
/// A row that had failed is left as it is.
pub(crate) fn run_to(row: &mut Row, job: &Job, moves: &[Move], band: &Band)
    requires moves_ok { MovesInRange moves.now }
    requires there { band.now.end ≤ length moves.now }
    requires band { IsBand moves.now band.now }
    requires row { IsRowOf job.now.fields row.old }
    ensures { IsTurnedUpTo job.now.fields moves.now band.now.end row.old row.new }
{
    if row.failed().is_some() {
        return;
    }
    if row.pass_over(job, band) {
        return;
    }
    run_on(row, job, moves, band.end);
}

/// Lets a row that hasn't failed go through its turns, from its next move on, before move `end`, or
/// until one fails.
fn run_on(row: &mut Row, job: &Job, moves: &[Move], end: u64)
    requires moves_ok { MovesInRange moves.now }
    requires there { end ≤ length moves.now }
    requires row { IsRowOf job.now.fields row.old }
    requires unfailed { row.old.failed ≡ None }
    ensures { IsTurnedUpTo job.now.fields moves.now end row.old row.new }
{
    let mut last = None;
    for t in row.done()..end {
        if !row.turn_after(job, moves, t, last) {
            return;
        }
        last = Some(moves[t as usize].to);
    }
}

/// A law: what a row comes to by a list of moves is determined by them, so it doesn't depend on who
/// turns the row, or when.
pub fn one_outcome()
    ensures { OneOutcome }
{}
