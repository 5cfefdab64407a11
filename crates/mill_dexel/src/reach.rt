ghost use Rattle.std.specs.Prelude.{◌≡◌, ℕ, ◌<◌, ◌≤◌, ◌*◌, ◌^◌, IsTrue, pos, ◌+ℤ◌, ◌*ℤ◌, ◌≤ℤ◌, ◌<ℤ◌};
ghost use Rattle.mill_base.specs.Numbers.{Within};
ghost use Rattle.mill_base.specs.Sizes.{IsCutter};
ghost use Rattle.mill_job.specs.Jobs.{IsJob};
ghost use Rattle.mill_sweep.specs.Reach.{margin_of};
ghost use Rattle.mill_dexel.specs.inner.Cuts.{IsReachAlong, IsReachBy, IsRowReach, IsBeyond};
ghost use Rattle.mill_dexel.specs.inner.Passing.{IsAway};

use mill_base::{Cutter, MAX_LAST_REACH, Pt3};
use mill_job::Job;

/// The numbers of the columns of a row, or of the rows, that a move may touch: from `first` on, before `end`.
#[derive(Clone, Copy)]
pub(crate) struct Reach {
    pub first: u32,
    pub end: u32,
}

/// Where the columns of a row stand in x, or the rows in y: `count` places at steps of `pitch`, from
/// `start` on.
#[derive(Clone, Copy)]
struct Places {
    start: i32,
    pitch: i32,
    count: u32,
}

/// The columns that stand nearer than the radius of a cutter, or of a holder's shape, and the greatest
/// last reach to the interval between two points in x. On a move between these points it passes each
/// other column.
pub(crate) fn reach_of(job: &Job, cutter: Cutter, from: Pt3, to: Pt3) -> Reach
    requires { IsCutter cutter }
    ensures { IsReachBy job.now.fields (margin_of cutter) from.x to.x result.first result.end }
{
    reach_by(job, passing_distance(cutter), from.x, to.x)
}

/// The columns that stand nearer than `distance` to the interval between two places in x.
pub(crate) fn reach_by(job: &Job, distance: i32, from: i32, to: i32) -> Reach
    ensures { IsReachBy job.now.fields distance from to result.first result.end }
{
    let columns = Places {
        start: job.fields.area.x0,
        pitch: job.fields.pitch,
        count: job.columns(),
    };
    reach_along(columns, distance, from, to)
}

/// The rows that stand nearer than the radius of the job's inner solid and the greatest last reach
/// to the interval between two points in y. A move between these points passes the columns of each
/// other row, and leaves them uncut.
pub(crate) fn row_reach(job: &Job, from: Pt3, to: Pt3) -> Reach
    ensures { IsRowReach job.now.fields from.y to.y result.first result.end }
{
    let rows = Places {
        start: job.fields.area.y0,
        pitch: job.fields.pitch,
        count: job.rows(),
    };
    reach_along(rows, passing_distance(job.inner().cutter()), from.y, to.y)
}

/// The places that are nearer than `distance` to the interval between two others.
fn reach_along(places: Places, distance: i32, from: i32, to: i32) -> Reach
    requires { (pos 1) ≤ℤ places.pitch }
    ensures { IsReachAlong places.start places.pitch places.count distance from to result.first
        result.end }
{
    Reach {
        first: places_up_to(places, low_end(distance, from, to)),
        end: places_up_to(places, high_end(distance, from, to)),
    }
}

/// The greatest place that is `distance` under both.
fn low_end(distance: i32, from: i32, to: i32) -> i64
    ensures bound { Within (2 ^ 40) result }
    ensures from { (result +ℤ distance) ≤ℤ from }
    ensures to { (result +ℤ distance) ≤ℤ to }
{
    i64::from(from.min(to)) - i64::from(distance)
}

/// The greatest place that is less than `distance` over one of them.
fn high_end(distance: i32, from: i32, to: i32) -> i64
    ensures bound { Within (2 ^ 40) result }
    ensures from { (from +ℤ distance) ≤ℤ (result +ℤ pos 1) }
    ensures to { (to +ℤ distance) ≤ℤ (result +ℤ pos 1) }
{
    i64::from(from.max(to)) + i64::from(distance) - 1
}

/// How many of the places are at `end` or before it.
fn places_up_to(places: Places, end: i64) -> u32
    requires pitch_ok { (pos 1) ≤ℤ places.pitch }
    requires end_ok { Within (2 ^ 40) end }
    ensures bound { result ≤ places.count }
    ensures inside { (i : ℕ) → i < result → (places.start +ℤ pos i *ℤ places.pitch) ≤ℤ end }
    ensures outside { (i : ℕ) → result ≤ i → i < places.count →
        end <ℤ (places.start +ℤ pos i *ℤ places.pitch) }
{
    let span = end - i64::from(places.start);
    if span < 0 {
        return 0;
    }
    let steps = steps_up_to(span.unsigned_abs(), u64::from(places.pitch.unsigned_abs()));
    steps.min(u64::from(places.count)) as u32
}

/// How many multiples of the pitch, from 0 on, are at most the span.
fn steps_up_to(span: u64, pitch: u64) -> u64
    requires span_ok { span ≤ 2 ^ 63 }
    requires pitch_ok { 0 < pitch }
    ensures inside { (i : ℕ) → i < result → i * pitch ≤ span }
    ensures outside { (i : ℕ) → result ≤ i → span < i * pitch }
{
    span / pitch + 1
}

/// Whether a row at `y` stands at least `distance` away from the interval between two places in y.
pub(crate) fn is_beyond(y: i32, distance: i32, from: i32, to: i32) -> bool
    ensures yes { IsTrue result → IsBeyond distance from to y }
{
    let y = i64::from(y);
    if y <= low_end(distance, from, to) {
        return true;
    }
    y > high_end(distance, from, to)
}

/// Whether a row at `y` stands so far away from the interval between two places in y that a cutter,
/// or a holder's shape, passes the row on a move within it. A solid of that cutter leaves it uncut
/// then too.
pub(crate) fn is_apart(cutter: Cutter, y: i32, from: i32, to: i32) -> bool
    requires { IsCutter cutter }
    ensures { IsTrue result → IsBeyond (margin_of cutter) from to y }
{
    is_beyond(y, passing_distance(cutter), from, to)
}

/// Whether a row at `y` stands so far away from the interval between two places in y that a move
/// within it does nothing to the row, by its cutter or by its holder, which is wider.
pub(crate) fn is_away(job: &Job, y: i32, from: i32, to: i32) -> bool
    ensures { IsTrue result → IsAway job.now.fields from to y }
{
    match job.holder_solid() {
        None => is_apart(job.inner().cutter(), y, from, to),
        Some(holder) => is_apart(holder.cutter(), y, from, to),
    }
}

/// How far away from a move in x or in y a column stands at least that the cutter passes: its radius
/// and the greatest last reach.
fn passing_distance(cutter: Cutter) -> i32
    requires { IsCutter cutter }
    ensures { result ≡ margin_of cutter }
{
    cutter.radius() + MAX_LAST_REACH as i32
}
