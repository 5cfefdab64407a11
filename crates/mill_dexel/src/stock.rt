ghost use Rattle.std.specs.Prelude.{◌≡◌, List, [], ◌∷◌, ◌++◌, All, IfOk, IsTrue, false};
ghost use Rattle.mill_base.specs.Ranges.{MoveInRange};
ghost use Rattle.mill_base.specs.declared.motion.Move.{Move as OneMove};
ghost use Rattle.mill_base.specs.declared.motion.Kind.TheVariants.{Feed};
ghost use Rattle.mill_job.specs.Jobs.{IsJob};
ghost use Rattle.mill_dexel.specs.Rows.{IsRowOf};
ghost use Rattle.mill_dexel.specs.Stocks.{IsStock};
ghost use Rattle.mill_dexel.specs.Tops.{ClearsColumns};

use crate::reach::row_reach;
use crate::row::Row;
use mill_base::{Move, WantOfMemory};
use mill_job::Job;
use std::alloc::Global;

/// All rows of the uncut stock, in order.
pub fn uncut_rows(alloc: Global, job: &Job) -> Result<Vec<Row>, WantOfMemory>
    ensures stock { IfOk result (λ rows. IsStock job.now.fields [] rows.items) }
    ensures rows_ok { IfOk result (λ rows. All (IsRowOf job.now.fields) rows.items) }
{
    let mut rows = Vec::new(alloc);
    for number in 0..job.rows() {
        rows.push(Row::new(alloc, job, u64::from(number))?)?;
    }
    Ok(rows)
}

/// Whether a feed passes every column of the stock as low as it may cut, after whatever moves have made
/// the stock. It does where the job doesn't limit the depth of cut.
pub fn keeps_depth(job: &Job, rows: &[Row], step: &Move) -> bool
    requires rows_ok { All (IsRowOf job.now.fields) rows.now }
    requires step { MoveInRange step.now }
    ensures yes { IsTrue result → step.now.kind ≡ Feed → (done : List OneMove) → IsStock job.now.fields done rows.now → ClearsColumns job.now.fields done step.now }
    ensures no { result ≡ false → step.now.kind ≡ Feed → (done : List OneMove) → IsStock job.now.fields done rows.now → ¬ ClearsColumns job.now.fields done step.now }
{
    let reach = row_reach(job, step.from, step.to);
    for number in reach.first as usize..rows.len().min(reach.end as usize) {
        if rows[number].cut_test(job, step).is_some() {
            return false;
        }
    }
    true
}

/// Lowers the tops of all rows of the stock to what the cutter leaves after one more move.
pub fn cut_rows(job: &Job, rows: &mut [Row], step: &Move)
    requires rows_ok { All (IsRowOf job.now.fields) rows.old }
    requires step { MoveInRange step.now }
    ensures stock { (done : List OneMove) → IsStock job.now.fields done rows.old → IsStock job.now.fields (done ++ step.now ∷ []) rows.new }
    ensures rows_ok { All (IsRowOf job.now.fields) rows.new }
{
    let reach = row_reach(job, step.from, step.to);
    for number in reach.first as usize..rows.len().min(reach.end as usize) {
        rows[number].cut_turn(job, step);
    }
}
