//! The tops of the columns that are in the way of a move, as the moves before have left them.
ghost use Rattle.std.specs.Prelude.{◌≡◌, ◌≤◌, [], All, IfOk, IfSome, length, map, take};
ghost use Rattle.mill_base.specs.declared.limits.TheConstants.{MAX_COORDINATE};
ghost use Rattle.mill_base.specs.Numbers.{Within};
ghost use Rattle.mill_base.specs.Ranges.{MovesInRange};
ghost use Rattle.mill_dexel.specs.Rows.{IsRowOf};
ghost use Rattle.mill_dexel.specs.Stocks.{IsStock, ShowsStock};
ghost use Rattle.mill_dexel.specs.Tops.{Stock};
ghost use Rattle.mill_document.specs.Details.{column_numbers as column_numbers_of, shown_top, top_met};
ghost use Rattle.mill_job.specs.Columns.{IsColumn, row_count};
ghost use Rattle.mill_report.specs.Findings.{AreFindings};

use crate::numbers::{column_numbers, move_number};
use mill_base::{Move, WantOfMemory};
use mill_dexel::{Row, cut_rows, uncut_rows};
use mill_job::Job;
use mill_part::Part;
use mill_verify::Reason;
use std::alloc::Global;

/// For each finding the top of the column that is in the way of its move, in units, as the moves
/// before it have left it; 0 where no column is.
///
/// The only error is want of memory, for the rows of the stock and the tops.
pub fn tops_met(
    alloc: Global,
    job: &Job,
    part: &Part,
    moves: &[Move],
    found: &[Reason],
) -> Result<Vec<i32>, WantOfMemory>
    requires moves_ok { MovesInRange moves.now }
    requires found { AreFindings job.now.fields part.now moves.now found.now }
    ensures { IfOk result (λ tops. tops.items ≡ map (top_met job.now.fields moves.now) found.now) }
{
    let mut rows = uncut_rows(alloc, job)?;
    tops_on(alloc, job, part, moves, found, rows.as_mut_slice())
}

/// The same, on the rows of the uncut stock, which the moves before each finding cut.
fn tops_on(
    alloc: Global,
    job: &Job,
    part: &Part,
    moves: &[Move],
    found: &[Reason],
    rows: &mut [Row],
) -> Result<Vec<i32>, WantOfMemory>
    requires moves_ok { MovesInRange moves.now }
    requires found { AreFindings job.now.fields part.now moves.now found.now }
    requires rows_ok { All (IsRowOf job.now.fields) rows.old }
    requires stock { IsStock job.now.fields [] rows.old }
    ensures { IfOk result (λ tops. tops.items ≡ map (top_met job.now.fields moves.now) found.now) }
{
    let mut tops = Vec::new(alloc);
    let mut done = 0;
    for index in 0..found.len() {
        let reason = &found[index];
        let next = move_number(reason) as usize;
        cut_moves(job, rows, moves, done, next);
        done = next;
        tops.push(top_of(job, rows, reason))?;
    }
    Ok(tops)
}

/// Cuts the rows, which the moves before `from` have cut, by the moves up to `to`.
fn cut_moves(job: &Job, rows: &mut [Row], moves: &[Move], from: usize, to: usize)
    requires moves_ok { MovesInRange moves.now }
    requires order { from ≤ to }
    requires inside { to ≤ length moves.now }
    requires rows_ok { All (IsRowOf job.now.fields) rows.old }
    requires stock { IsStock job.now.fields (take from moves.now) rows.old }
    ensures rows_ok { All (IsRowOf job.now.fields) rows.new }
    ensures stock { IsStock job.now.fields (take to moves.now) rows.new }
{
    for number in from..to {
        cut_rows(job, rows, &moves[number]);
    }
}

/// The top of the column that the reason names, in the stock that the rows show; 0 where it names
/// none.
fn top_of(job: &Job, rows: &[Row], reason: &Reason) -> i32
    requires rows_ok { All (IsRowOf job.now.fields) rows.now }
    requires count { length rows.now ≡ row_count job.now.fields }
    requires column { IfSome (column_numbers_of reason.now) (λ c. IsColumn job.now.fields c.0 c.1) }
    ensures in_range { Within MAX_COORDINATE result }
    ensures top { (stock : Stock) → ShowsStock job.now.fields stock rows.now
        → result ≡ shown_top stock (column_numbers_of reason.now) }
{
    match column_numbers(reason) {
        Some((row, col)) => column_top(job, rows, row, col),
        None => 0,
    }
}

/// The top of this column, in the stock that the rows show.
fn column_top(job: &Job, rows: &[Row], row: u32, col: u32) -> i32
    requires rows_ok { All (IsRowOf job.now.fields) rows.now }
    requires count { length rows.now ≡ row_count job.now.fields }
    requires column { IsColumn job.now.fields row col }
    ensures in_range { Within MAX_COORDINATE result }
    ensures top { (stock : Stock) → ShowsStock job.now.fields stock rows.now
        → result ≡ stock row col }
{
    rows[row as usize].tops()[col as usize]
}
