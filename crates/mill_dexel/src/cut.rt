ghost use Rattle.std.specs.Prelude.{◌≡◌, ◌↔◌, ◌<◌, ◌≤◌, ◌≤ℤ◌, pos, length, slice_set, IsTrue, IfSome, Some};
ghost use Rattle.mill_base.specs.Contact.{Holds};
ghost use Rattle.mill_base.specs.Numbers.{Within};
ghost use Rattle.mill_base.specs.declared.limits.TheConstants.{MAX_COORDINATE};
ghost use Rattle.mill_base.specs.Points.{point_at};
ghost use Rattle.mill_base.specs.Ranges.{MoveInRange};
ghost use Rattle.mill_job.specs.Columns.{row_count, column_count, column_x, column_y};
ghost use Rattle.mill_job.specs.Jobs.{IsJob};
ghost use Rattle.mill_dexel.specs.Samples.{IsRaisedSample, IsSample, raised_sample};
ghost use Rattle.mill_dexel.specs.Tops.{top_after_sample, tops_after_move};
ghost use Rattle.mill_dexel.specs.Rows.{top_at};
ghost use Rattle.mill_dexel.specs.inner.Cuts.{IsCutAt, IsCutBy};

use crate::chord::half_chord;
use crate::reach::{is_beyond, reach_by};
use crate::{Placed, halvings, sample_at};
use mill_base::{Move, Pt3, offset, power_of_two};
use mill_job::Job;
use mill_shape::{cut_height, inside, shrink};

/// Lowers the tops of a row to what is left after the move for sure: at each sample of the job's
/// inner solid in turn, none where the whole move is too far away from the row.
///
/// `last` is a point at which the row is cut already, if one is known. Most moves start where the
/// one before them ended, and then the first sample would change nothing.
pub(crate) fn cut_move(tops: &mut [i32], job: &Job, number: u32, step: &Move, last: Option<Pt3>)
    requires row { number < row_count job.now.fields }
    requires columns { length tops.old ≡ column_count job.now.fields }
    requires step_ok { MoveInRange step.now }
    requires last { IfSome last (λ tip. IsCutAt job.now.fields number tip tops.old) }
    ensures { tops.new ≡ tops_after_move job.now.fields number 0 step.now tops.old }
{
    let inner = job.inner();
    let cutter = inner.cutter();
    if is_beyond(job.row_y(number), cutter.radius(), step.from.y, step.to.y) {
        return;
    }
    let narrowed = shrink(cutter);
    let lift = inner.lift();
    let d = halvings(step, job.fields.sample.unsigned_abs());
    for k in first_sample(step, last)..power_of_two(d) + 1 {
        let mut sample = sample_at(cutter, narrowed, step, d, k);
        raise(&mut sample, lift);
        cut_sample(tops, job, number, sample);
    }
}

/// The number of the first of a move's samples that may lower a top, in a row that is cut at `last`.
fn first_sample(step: &Move, last: Option<Pt3>) -> u64
    ensures bound { result ≤ 1 }
    ensures known { result ≡ 1 → last ≡ Some step.now.from }
{
    if last == Some(step.from) { 1 } else { 0 }
}

/// Raises the tip of the sample, if there is one, by a solid's lift.
fn raise(sample: &mut Option<Placed>, lift: i32)
    requires sample_ok { IfSome sample.old IsSample }
    requires lift_least { pos 0 ≤ℤ lift }
    requires lift_most { lift ≤ℤ pos 3400 }
    ensures value { sample.new ≡ raised_sample lift sample.old }
    ensures sample { IfSome sample.new IsRaisedSample }
{
    if let Some(sample) = sample {
        sample.tip.z += lift;
    }
}

/// Lowers the tops of a row to where the sample's cutter cuts, if there is one.
fn cut_sample(tops: &mut [i32], job: &Job, number: u32, sample: Option<Placed>)
    requires row { number < row_count job.now.fields }
    requires columns { length tops.old ≡ column_count job.now.fields }
    requires sample_ok { IfSome sample IsRaisedSample }
    ensures { IsCutBy job.now.fields number sample tops.old tops.new }
{
    if let Some(sample) = sample {
        cut_row(tops, job, number, sample);
    }
}

/// Lowers the tops of a row to where the sample's cutter cuts. Only the columns that the row has
/// inside the circle of its radius are looked at.
fn cut_row(tops: &mut [i32], job: &Job, number: u32, sample: Placed)
    requires row { number < row_count job.now.fields }
    requires columns { length tops.old ≡ column_count job.now.fields }
    requires sample_ok { IsRaisedSample sample }
    ensures { IsCutBy job.now.fields number (Some sample) tops.old tops.new }
{
    let tip = sample.tip;
    let Some(chord) = half_chord(sample.cutter.radius(), job.row_y(number), tip.y) else {
        return;
    };
    let reach = reach_by(job, chord, tip.x, tip.x);
    for column in reach.first..reach.end {
        cut_column(tops, job, number, column, sample);
    }
}

/// Lowers the top of one column.
fn cut_column(tops: &mut [i32], job: &Job, number: u32, column: u32, sample: Placed)
    requires row { number < row_count job.now.fields }
    requires columns { length tops.old ≡ column_count job.now.fields }
    requires column { column < column_count job.now.fields }
    requires sample_ok { IsRaisedSample sample }
    ensures { tops.new ≡ slice_set tops.old column (top_after_sample job.now.fields.floor (column_x job.now.fields column) (column_y job.now.fields number) (top_at tops.old column) (Some sample)) }
{
    let before = tops[column as usize];
    if is_free(before, job.fields.floor, sample.tip.z) {
        return;
    }
    let x = job.column_x(column);
    let y = job.row_y(number);
    if is_clear(sample, job.fields.floor, x, y, before) {
        return;
    }
    if let Some(height) = cut_height(sample.cutter, sample.tip, x, y) {
        let top = &mut tops[column as usize];
        *top = (*top).min(height).max(job.fields.floor);
    }
}

/// Whether a column's top is from the floor to the tip's height, so that the cutter can't lower it.
fn is_free(top: i32, floor: i32, tip: i32) -> bool
    ensures low { IsTrue result → floor ≤ℤ top }
    ensures high { IsTrue result → top ≤ℤ tip }
{
    if top < floor {
        return false;
    }
    top <= tip
}

/// Whether the top of the column at (x, y) is at the floor or over it and not strictly inside the
/// sample's cutter, so that the cutter can't lower it. This takes no root, as a cut's height does.
fn is_clear(sample: Placed, floor: i32, x: i32, y: i32, top: i32) -> bool
    requires sample_ok { IsRaisedSample sample }
    requires x_ok { Within MAX_COORDINATE x }
    requires y_ok { Within MAX_COORDINATE y }
    ensures low { IsTrue result → floor ≤ℤ top }
    ensures outside { IsTrue result →
        ¬ Holds sample.cutter (pos 1) sample.tip (pos 1) (point_at x y top) }
{
    if top < floor {
        return false;
    }
    !holds(sample, x, y, top)
}

/// Whether the whole point (x, y, z) is strictly inside the sample's cutter.
fn holds(sample: Placed, x: i32, y: i32, z: i32) -> bool
    requires sample_ok { IsRaisedSample sample }
    ensures { IsTrue result ↔ Holds sample.cutter (pos 1) sample.tip (pos 1) (point_at x y z) }
{
    let tip = sample.tip;
    let offset = [offset(x, tip.x), offset(y, tip.y), offset(z, tip.z)];
    inside(sample.cutter, 1, offset)
}
