ghost use Rattle.std.specs.Prelude.{◌≡◌, ◌<◌, ◌≤◌, pos, ◌-ℤ◌, ◌≤ℤ◌, length, MatchOption, MatchResult};
ghost use Rattle.mill_base.specs.Covers.{Covered};
ghost use Rattle.mill_job.specs.Jobs.{IsFrom};
ghost use Rattle.mill_job.specs.Columns.{row_count};
ghost use Rattle.mill_dexel.specs.Stocks.{shown_by};
ghost use Rattle.mill_verify.specs.inner.Firsts.{AreRowsTold, IsBoth, IsCutTo, IsMostWith, IsRowLeft, IsRowUncut};
ghost use Rattle.mill_verify.specs.inner.Readiness.{AreJobRows, AreRowsReady, IsColumnReady};
ghost use denote.Param.Send.{IsSync};

use mill_dexel::{Row, share};
use mill_job::Job;
use mill_part::SortedPart;
use std::thread::{Threads, join};

/// A column that isn't cut, and its top.
#[derive(Clone, Copy)]
pub struct Uncut {
    pub row: u32,
    pub col: u32,
    pub top: i32,
}

/// Test (iv) on the rows from number `start` to before `end`; 0 is left where there is none.
///
/// The rows are halved among `workers` threads, at most 64, until each has its own, and the first
/// column of the left half comes before that of the right.
pub fn rows_left<R: Threads + Sync>(
    rt: &R,
    job: &Job,
    part: &SortedPart,
    rows: &[Row],
    start: usize,
    end: usize,
    workers: u32,
) -> Result<i32, Uncut>
    requires ready { AreRowsReady job.now.fields rows.now start end workers }
    ensures { AreRowsTold job.now.fields part.now (shown_by rows.now) start end result }
{
    if workers <= 1 || end - start <= 1 {
        return scan_rows(job, part, rows, start, end);
    }
    let left_workers = workers / 2;
    let right_workers = workers - left_workers;
    let middle = start + share(end - start, left_workers, workers);
    let (left, right) = join(
        rt,
        || -> Result<i32, Uncut>
            requires sync { IsSync R.row }
            requires ready { AreRowsReady job.now.fields rows.now start middle left_workers }
            ensures { AreRowsTold job.entry.now.fields part.entry.now (shown_by rows.entry.now) start middle result }
        { rows_left(rt, job, part, rows, start, middle, left_workers) },
        || -> Result<i32, Uncut>
            requires sync { IsSync R.row }
            requires ready { AreRowsReady job.now.fields rows.now middle end right_workers }
            ensures { AreRowsTold job.entry.now.fields part.entry.now (shown_by rows.entry.now) middle end result }
        { rows_left(rt, job, part, rows, middle, end, right_workers) },
    );
    both(left, right)
}

/// What the rows of two ranges say together, of which the left one comes first.
fn both(left: Result<i32, Uncut>, right: Result<i32, Uncut>) -> Result<i32, Uncut>
    ensures { IsBoth left right result }
{
    let most = left?;
    let other = right?;
    Ok(most.max(other))
}

/// One worker's rows, one by one.
pub fn scan_rows(
    job: &Job,
    part: &SortedPart,
    rows: &[Row],
    start: usize,
    end: usize,
) -> Result<i32, Uncut>
    requires rows_ok { AreJobRows job.now.fields rows.now }
    requires order { start ≤ end }
    requires there { end ≤ length rows.now }
    ensures { AreRowsTold job.now.fields part.now (shown_by rows.now) start end result }
{
    let mut most = 0;
    for index in start..end {
        let left = row_left(job, part, rows, index as u32)?;
        most = most.max(left);
    }
    Ok(most)
}

/// Test (iv) on the columns of row `number`.
fn row_left(job: &Job, part: &SortedPart, rows: &[Row], number: u32) -> Result<i32, Uncut>
    requires rows_ok { AreJobRows job.now.fields rows.now }
    requires there { number < row_count job.now.fields }
    ensures { MatchResult
        result
        (IsRowLeft job.now.fields part.now (shown_by rows.now) number)
        (λ uncut. (uncut.row ≡ number) × IsRowUncut job.now.fields part.now (shown_by rows.now) number uncut.col uncut.top) }
{
    let y = job.row_y(number);
    let tops = rows[number as usize].tops();
    let mut most = 0;
    for (index, top) in tops.iter().enumerate() {
        let col = index as u32;
        match most_with(job, part, job.column_x(col), y, *top, most) {
            Some(greater) => most = greater,
            None => {
                return Err(Uncut {
                    row: number,
                    col,
                    top: *top,
                });
            }
        }
    }
    Ok(most)
}

/// The greater of `most` and how much a column with this top is left over its greatest covered
/// height; none where the top is more than the allowance over it.
///
/// Where no more than `most` and the allowance is left, one look whether the column is covered so
/// high says so, and the greatest height isn't worked out.
fn most_with(job: &Job, part: &SortedPart, x: i32, y: i32, top: i32, most: i32) -> Option<i32>
    requires ready { IsColumnReady x y top }
    requires most_ok { pos 0 ≤ℤ most }
    ensures { MatchOption
        result
        (¬ Covered part.now job.now.fields.floor job.now.fields.band x y (top -ℤ job.now.fields.allowance))
        (IsMostWith job.now.fields part.now x y top most) }
{
    let enough = top - most.min(job.fields.allowance);
    if part.covered_near(job.fields.floor, x, y, enough, job.fields.band) {
        return Some(most);
    }
    let left = left_over(job, part, x, y, top)?;
    Some(most.max(left))
}

/// How much a column with this top is left over its greatest covered height; none where the top
/// is more than the allowance over it.
fn left_over(job: &Job, part: &SortedPart, x: i32, y: i32, top: i32) -> Option<i32>
    requires ready { IsColumnReady x y top }
    ensures { MatchOption
        result
        (¬ Covered part.now job.now.fields.floor job.now.fields.band x y (top -ℤ job.now.fields.allowance))
        (IsCutTo job.now.fields part.now x y top) }
{
    let covered = part.covered_height_near(job.fields.floor, x, y, job.fields.band);
    if top - job.fields.allowance > covered {
        return None;
    }
    Some(top - top.min(covered))
}
