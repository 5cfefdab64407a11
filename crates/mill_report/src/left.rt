ghost use Rattle.std.specs.Prelude.{◌≡◌, ◌+◌, ◌*◌, ◌<◌, ◌≤◌, ◌↔◌, ◌^◌, ◌-ℤ◌, All, length, IfOk, IsTrue, OnOk};
ghost use Rattle.mill_base.specs.Numbers.{Within};
ghost use Rattle.mill_base.specs.Covers.{Covered};
ghost use Rattle.mill_base.specs.declared.limits.TheConstants.{MAX_COORDINATE};
ghost use Rattle.mill_job.specs.Columns.{IsColumn, row_count};
ghost use Rattle.mill_dexel.specs.Rows.{IsRowOf};
ghost use Rattle.mill_dexel.specs.Stocks.{ShowsStock};
ghost use Rattle.mill_dexel.specs.Tops.{Stock};
ghost use Rattle.mill_report.specs.Columns.{IsShownLeft, column_number};
ghost use Rattle.mill_report.specs.inner.Lefts.{IsLeftTo, shown_more};

use mill_base::WantOfMemory;
use mill_dexel::Row;
use mill_job::Job;
use mill_part::SortedPart;
use std::alloc::Global;

/// The most columns that are told of one by one.
pub const MAX_LEFT: u64 = 10_000;

/// A column that is left too high, by the numbers of its row and of its column in that, both from 0, and its
/// top, in units.
#[derive(Clone, Copy, Debug, PartialEq, Eq)]
pub struct LeftColumn {
    pub row: u32,
    pub col: u32,
    pub top: i32,
}

/// The columns left too high: the first of them, by row first, and how many there are.
#[derive(Drop)]
pub struct LeftColumns {
    pub shown: Vec<LeftColumn>,
    pub total: u64,
}

/// Test (iv) of each column of the stock that these rows are. The only error is want of memory, for the
/// columns that are shown.
pub fn columns_left(
    alloc: Global,
    job: &Job,
    part: &SortedPart,
    rows: &[Row],
) -> Result<LeftColumns, WantOfMemory>
    requires rows_ok { All (IsRowOf job.now.fields) rows.now }
    requires count { length rows.now ≡ row_count job.now.fields }
    ensures { IfOk result (λ left. (stock : Stock) → ShowsStock job.now.fields stock rows.now →
        IsShownLeft job.now.fields part.now stock left.shown.items left.total) }
{
    let mut left = LeftColumns {
        shown: Vec::new(alloc),
        total: 0,
    };
    for number in 0..job.rows() {
        add_row(job, part, rows, number, &mut left)?;
    }
    Ok(left)
}

/// Test (iv) of each column of row `number`, whose columns left too high are added to those of the rows before.
fn add_row(
    job: &Job,
    part: &SortedPart,
    rows: &[Row],
    number: u32,
    left: &mut LeftColumns,
) -> Result<(), WantOfMemory>
    requires rows_ok { All (IsRowOf job.now.fields) rows.now }
    requires count { length rows.now ≡ row_count job.now.fields }
    requires there { number < row_count job.now.fields }
    requires few { left.old.total ≤ column_number job.now.fields number 0 }
    ensures few { OnOk result (left.new.total ≤ column_number job.now.fields (number + 1) 0) }
    ensures more { OnOk
        result
        ((stock : Stock) → ShowsStock job.now.fields stock rows.now
        → IsLeftTo job.now.fields part.now stock (column_number job.now.fields number 0) left.old
        → IsLeftTo job.now.fields part.now stock (column_number job.now.fields (number + 1) 0) left.new) }
{
    for col in 0..job.columns() {
        test_column(job, part, rows, number, col, left)?;
    }
    Ok(())
}

/// Test (iv) of column `col` of row `number`, which is added where it is left too high.
fn test_column(
    job: &Job,
    part: &SortedPart,
    rows: &[Row],
    number: u32,
    col: u32,
    left: &mut LeftColumns,
) -> Result<(), WantOfMemory>
    requires rows_ok { All (IsRowOf job.now.fields) rows.now }
    requires count { length rows.now ≡ row_count job.now.fields }
    requires column { IsColumn job.now.fields number col }
    requires few { left.old.total ≤ column_number job.now.fields number col }
    ensures few { OnOk result (left.new.total ≤ column_number job.now.fields number (col + 1)) }
    ensures more { OnOk
        result
        ((stock : Stock) → ShowsStock job.now.fields stock rows.now
        → IsLeftTo job.now.fields part.now stock (column_number job.now.fields number col) left.old
        → IsLeftTo job.now.fields part.now stock (column_number job.now.fields number (col + 1)) left.new) }
{
    let top = rows[number as usize].tops()[col as usize];
    if is_cut(job, part, job.column_x(col), job.row_y(number), top) {
        return Ok(());
    }
    let column = LeftColumn {
        row: number,
        col,
        top,
    };
    add(left, column)?;
    Ok(())
}

/// Test (iv) of a column with this top: whether the top less the allowance is covered.
fn is_cut(job: &Job, part: &SortedPart, x: i32, y: i32, top: i32) -> bool
    requires x_ok { Within MAX_COORDINATE x }
    requires y_ok { Within MAX_COORDINATE y }
    requires top_ok { Within MAX_COORDINATE top }
    ensures { IsTrue result ↔ Covered part.now job.now.fields.floor job.now.fields.band x y (top -ℤ job.now.fields.allowance) }
{
    let enough = top - job.fields.allowance;
    part.covered_near(job.fields.floor, x, y, enough, job.fields.band)
}

/// One column more, which is shown where not too many are yet.
fn add(left: &mut LeftColumns, column: LeftColumn) -> Result<(), WantOfMemory>
    requires few { left.old.total < 2 ^ 63 }
    ensures shown { OnOk result (left.new.shown.items ≡ shown_more left.old.total left.old.shown.items column) }
    ensures total { OnOk result (left.new.total ≡ left.old.total + 1) }
{
    if left.total < MAX_LEFT {
        left.shown.push(column)?;
    }
    left.total += 1;
    Ok(())
}
