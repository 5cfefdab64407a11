ghost use Rattle.std.specs.Prelude.{◌≡◌, ◌<◌, IfOk};
ghost use Rattle.mill_dexel.specs.Stocks.{ShowsStock};
ghost use Rattle.mill_dexel.specs.Rows.{fresh_row as fresh_row_of};
ghost use Rattle.mill_job.specs.Columns.{row_count};
ghost use Rattle.mill_verify.specs.inner.Readiness.{IsStart, stock_of};

use mill_base::WantOfMemory;
use mill_dexel::{Row, uncut_rows};
use mill_job::Job;
use std::alloc::Global;

/// The stock before a program's first move.
#[derive(Drop)]
pub enum Start {
    /// The uncut stock.
    Uncut,
    /// What other programs left of it: all rows of the job, in order.
    Rows(Vec<Row>),
}

/// The row of this number of that stock, before the first move.
pub fn fresh_row(alloc: Global, job: &Job, start: &Start, number: u64) -> Result<Row, WantOfMemory>
    requires start_ok { IsStart job.now.fields start.now }
    requires row { number < row_count job.now.fields }
    ensures { IfOk result (λ row. row ≡ fresh_row_of job.now.fields (stock_of job.now.fields start.now) number) }
{
    match start {
        Start::Uncut => Row::new(alloc, job, number),
        Start::Rows(rows) => rows[number as usize].again(alloc),
    }
}

/// All rows of that stock, in order.
pub fn rows_of_start(alloc: Global, job: &Job, start: Start) -> Result<Vec<Row>, WantOfMemory>
    requires { IsStart job.now.fields start }
    ensures { IfOk result (λ rows. ShowsStock job.now.fields (stock_of job.now.fields start) rows.items) }
{
    match start {
        Start::Uncut => uncut_rows(alloc, job),
        Start::Rows(rows) => Ok(rows),
    }
}
