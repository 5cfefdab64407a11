ghost use Rattle.std.specs.Prelude.{◌≡◌, ◌+◌, ◌*◌, ◌^◌, ◌≤◌, ◌+ℤ◌, ◌≤ℤ◌, ◌&&◌, pos, nat_abs, nat_le, IfSome};
ghost use Rattle.mill_base.specs.Numbers.{round_half_up, ceil_div, divides, Within};
ghost use Rattle.mill_base.specs.declared.limits.TheConstants.{MAX_COORDINATE};
ghost use Rattle.mill_base.specs.Ranges.{IsInRange, MoveInRange};
ghost use Rattle.mill_base.specs.Sizes.{IsCutter};
ghost use Rattle.mill_sweep.specs.Leaves.{length_x, length_y, end_of};
ghost use Rattle.mill_sweep.specs.Widths.{longest, end_depth, farthest_end};
ghost use Rattle.mill_dexel.specs.Samples.{split_of, straight_split_of, sample_centre, is_at_whole_place as is_whole_at, sample_at as sample_of, IsSample, IsNarrowed};

use mill_base::{Cutter, Kind, MAX_DEPTH, Move, Pt3, power_of_two};
use mill_sweep::{end_at, nearest};

/// How often a move is halved at most until its parts are as short as the shortest sample.
const MAX_HALVINGS: u32 = MAX_DEPTH + 1;

/// A cutter with its tip at a whole point.
#[derive(Clone, Copy)]
pub struct Placed {
    /// The cutter.
    pub cutter: Cutter,
    /// Where its tip is, in units.
    pub tip: Pt3,
}

/// The least number of halvings after which the parts of the move are at most `sample` long, in x
/// and y together; 0 for a dogleg, whose tip is surely at its two ends alone. `sample` is a length
/// in units, from 1 to 10,000; the move's coordinates are of at most 524,287 in magnitude.
pub fn halvings(step: &Move, sample: u32) -> u32
    requires step_ok { MoveInRange step.now }
    requires sample_least { 1 ≤ sample }
    requires sample_most { sample ≤ 10000 }
    ensures value { result ≡ split_of (pos sample) step.now }
    ensures most { result ≤ end_depth }
{
    match step.kind {
        Kind::Rapid => straight_halvings(step, sample),
        Kind::Feed => straight_halvings(step, sample),
        Kind::Dogleg => 0,
    }
}

/// The same of a straight move.
fn straight_halvings(step: &Move, sample: u32) -> u32
    requires step_ok { MoveInRange step.now }
    requires sample_least { 1 ≤ sample }
    requires sample_most { sample ≤ 10000 }
    ensures value { result ≡ straight_split_of (pos sample) step.now }
    ensures most { result ≤ end_depth }
{
    let length = length(step);
    for d in 0..MAX_HALVINGS {
        if is_reached(length, sample, d) {
            return d;
        }
    }
    MAX_HALVINGS
}

/// How far the move goes in x and y together.
fn length(step: &Move) -> u32
    requires { MoveInRange step.now }
    ensures value { result ≡ length_x step.now + length_y step.now }
    ensures bound { result ≤ 2 * longest }
{
    step.to.x.abs_diff(step.from.x) + step.to.y.abs_diff(step.from.y)
}

/// Whether the length is at most `sample` times 2 to the power `d`.
fn is_reached(length: u32, sample: u32, d: u32) -> bool
    requires sample_ok { sample ≤ 10000 }
    requires d_ok { d ≤ end_depth }
    ensures { result ≡ nat_le length (sample * 2 ^ d) }
{
    u64::from(length) <= u64::from(sample) * power_of_two(d)
}

/// The sample of the move at k/2^d: where the tip is at a whole place then, the cutter itself, and
/// else the narrowed cutter beside it, raised. The tip's height is rounded up. There is none beside a
/// whole place where the cutter's radius is 1.
///
/// `narrowed` is the cutter with its radius less by 1, and by how much it is raised for that, none at
/// radius 1, as `mill_shape::shrink` gives it.
pub fn sample_at(
    cutter: Cutter,
    narrowed: Option<(Cutter, i32)>,
    step: &Move,
    d: u32,
    k: u64,
) -> Option<Placed>
    requires cutter_ok { IsCutter cutter }
    requires narrowed_ok { IsNarrowed cutter narrowed }
    requires step_ok { MoveInRange step.now }
    requires d_ok { d ≤ end_depth }
    requires k_ok { k ≤ 2 ^ d }
    ensures value { result ≡ sample_of cutter step.now d k }
    ensures sample { IfSome result IsSample }
{
    let centre = centre_at(step, d, k);
    let tip = centre.tip;
    if centre.is_whole {
        return Some(Placed { cutter, tip });
    }
    let (narrower, rise) = narrowed?;
    Some(raised(narrower, tip, rise))
}

/// The cutter with its tip over the point by `rise`.
fn raised(cutter: Cutter, point: Pt3, rise: i32) -> Placed
    requires cutter_ok { IsCutter cutter }
    requires point_ok { IsInRange point }
    requires rise_least { pos 0 ≤ℤ rise }
    requires rise_most { rise ≤ℤ pos 16 }
    ensures value { result ≡ record { cutter = cutter; tip = record { x = point.x; y = point.y; z = point.z +ℤ rise } } }
    ensures sample { IsSample result }
{
    Placed {
        cutter,
        tip: Pt3 {
            x: point.x,
            y: point.y,
            z: point.z + rise,
        },
    }
}

/// Where a sample stands: the tip at a whole place, and whether it is there at that moment, in x and
/// in y.
#[derive(Clone, Copy)]
struct Centre {
    tip: Pt3,
    is_whole: bool,
}

/// Where the sample at k/2^d stands.
fn centre_at(step: &Move, d: u32, k: u64) -> Centre
    requires step_ok { MoveInRange step.now }
    requires d_ok { d ≤ end_depth }
    requires k_ok { k ≤ 2 ^ d }
    ensures tip { result.tip ≡ sample_centre step.now d k }
    ensures tip_ok { IsInRange result.tip }
    ensures whole { result.is_whole ≡ is_whole_at step.now d k }
{
    let x = place_at(step.from.x, step.to.x, d, k);
    let y = place_at(step.from.y, step.to.y, d, k);
    let tip = Pt3 {
        x: x.nearest,
        y: y.nearest,
        z: height_at(step.from.z, step.to.z, d, k),
    };
    Centre {
        tip,
        is_whole: are_both(x.is_whole, y.is_whole),
    }
}

/// Whether both are true.
fn are_both(a: bool, b: bool) -> bool
    ensures { result ≡ (a && b) }
{
    a && b
}

/// One coordinate of the tip at a moment of a move: the nearest whole one, halves up, and whether it
/// is that.
#[derive(Clone, Copy)]
struct Rounded {
    nearest: i32,
    is_whole: bool,
}

/// The place of the tip along one axis at k/2^d.
fn place_at(from: i32, to: i32, d: u32, k: u64) -> Rounded
    requires from_ok { Within MAX_COORDINATE from }
    requires to_ok { Within MAX_COORDINATE to }
    requires d_ok { d ≤ end_depth }
    requires k_ok { k ≤ 2 ^ d }
    ensures nearest { result.nearest ≡ round_half_up (end_of from to d k) (2 ^ d) }
    ensures nearest_ok { Within MAX_COORDINATE result.nearest }
    ensures whole { result.is_whole ≡ divides (2 ^ d) (end_of from to d k) }
{
    let end = end_at(from, to, d, k);
    Rounded {
        nearest: nearest(end, d),
        is_whole: is_whole(end, d),
    }
}

/// The height of the tip at k/2^d, rounded up.
fn height_at(from: i32, to: i32, d: u32, k: u64) -> i32
    requires from_ok { Within MAX_COORDINATE from }
    requires to_ok { Within MAX_COORDINATE to }
    requires d_ok { d ≤ end_depth }
    requires k_ok { k ≤ 2 ^ d }
    ensures value { result ≡ ceil_div (end_of from to d k) (2 ^ d) }
    ensures bound { Within MAX_COORDINATE result }
{
    rounded_up(end_at(from, to, d, k), d)
}

/// An end over 2^d, rounded up.
fn rounded_up(end: i64, d: u32) -> i32
    requires end_ok { Within (farthest_end) end }
    requires end_within { nat_abs end ≤ 2 ^ d * MAX_COORDINATE }
    requires d_ok { d ≤ end_depth }
    ensures value { result ≡ ceil_div end (2 ^ d) }
    ensures bound { Within MAX_COORDINATE result }
{
    -(-end >> d) as i32
}

/// Whether an end is a multiple of 2^d.
fn is_whole(end: i64, d: u32) -> bool
    requires { d ≤ end_depth }
    ensures { result ≡ divides (2 ^ d) end }
{
    end.unsigned_abs() & (power_of_two(d) - 1) == 0
}
