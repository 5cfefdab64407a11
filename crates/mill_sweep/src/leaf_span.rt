ghost use Rattle.std.specs.Int.{div_ceil};
ghost use Rattle.std.specs.Prelude.{◌≡◌, ◌+◌, ◌*◌, ◌^◌, ◌<◌, ◌≤◌, ◌+ℤ◌, ◌-ℤ◌, ◌*ℤ◌, ◌≤ℤ◌, pos, nat_abs, max};
ghost use Rattle.mill_base.specs.Numbers.{floor_div, round_half_up, lesser, Within};
ghost use Rattle.mill_base.specs.declared.limits.TheConstants.{MAX_COORDINATE, MAX_DEPTH};
ghost use Rattle.mill_base.specs.Ranges.{MoveInRange};
ghost use Rattle.mill_sweep.specs.Halving.{IsSpan};
ghost use Rattle.mill_sweep.specs.Lifted.{IsTipHeight, IsLiftedMove};
ghost use Rattle.mill_sweep.specs.Leaves.{depth_of, span_of, lower_of, zlow_of};
ghost use Rattle.mill_sweep.specs.Sweeps.{IsStretch, IsStretchOf, span_at};
ghost use Rattle.mill_sweep.specs.Widths.{longest, highest_tip};

use crate::diagonal::diagonal;
use crate::ends::{Ends, ends_of, nearest, weighed};
use crate::leaf::{Leaf, Span};
use mill_base::{Move, power_of_two};

/// Where the leaf of the move lies.
pub fn span(step: &Move, leaf: Leaf) -> Span
    requires move_ok { MoveInRange step.now }
    requires d_ok { leaf.d ≤ depth_of step.now }
    requires k_ok { leaf.k < 2 ^ leaf.d }
    ensures value { result ≡ span_of step.now leaf.d leaf.k }
    ensures x_ok { Within MAX_COORDINATE result.x }
    ensures y_ok { Within MAX_COORDINATE result.y }
    ensures reach_ok { pos 0 ≤ℤ result.reach }
    ensures reach_most { result.reach ≤ℤ pos (2 * longest) }
    ensures zlow_ok { Within MAX_COORDINATE result.zlow }
{
    span_of_tip(step, leaf)
}

/// The same of a move of a solid's tip.
pub(crate) fn span_of_tip(step: &Move, leaf: Leaf) -> Span
    requires move_ok { IsLiftedMove step.now }
    requires d_ok { leaf.d ≤ depth_of step.now }
    requires k_ok { leaf.k < 2 ^ leaf.d }
    ensures value { result ≡ span_of step.now leaf.d leaf.k }
    ensures span { IsSpan result }
    ensures reach_most { result.reach ≤ℤ pos (2 * longest) }
{
    span_by(
        stretch_in_x(step, leaf),
        stretch_in_y(step, leaf),
        low_end(step, leaf),
    )
}

/// The span of a leaf that lies so in x and in y and whose lower end is at `zlow`.
pub(crate) fn span_by(x: Stretch, y: Stretch, zlow: i32) -> Span
    requires x_ok { IsStretch x }
    requires y_ok { IsStretch y }
    requires zlow_ok { IsTipHeight zlow }
    ensures value { result ≡ span_at x y zlow }
    ensures span { IsSpan result }
    ensures reach_most { result.reach ≤ℤ pos (2 * longest) }
{
    Span {
        x: x.middle,
        y: y.middle,
        reach: diagonal(x.farther, y.farther),
        zlow,
    }
}

/// A leaf along one axis: its middle, and how far, rounded up, its farther end is from that.
#[derive(Clone, Copy)]
pub(crate) struct Stretch {
    pub middle: i32,
    pub farther: u32,
}

/// The leaf of the move in x.
pub(crate) fn stretch_in_x(step: &Move, leaf: Leaf) -> Stretch
    requires move_ok { IsLiftedMove step.now }
    requires d_ok { leaf.d ≤ depth_of step.now }
    requires k_ok { leaf.k < 2 ^ leaf.d }
    ensures value { IsStretchOf step.now.from.x step.now.to.x leaf.d leaf.k result }
    ensures bound { IsStretch result }
{
    stretch_of(step.from.x, step.to.x, leaf)
}

/// The leaf of the move in y.
pub(crate) fn stretch_in_y(step: &Move, leaf: Leaf) -> Stretch
    requires move_ok { IsLiftedMove step.now }
    requires d_ok { leaf.d ≤ depth_of step.now }
    requires k_ok { leaf.k < 2 ^ leaf.d }
    ensures value { IsStretchOf step.now.from.y step.now.to.y leaf.d leaf.k result }
    ensures bound { IsStretch result }
{
    stretch_of(step.from.y, step.to.y, leaf)
}

/// The height of the leaf's lower end, rounded down.
pub(crate) fn low_end(step: &Move, leaf: Leaf) -> i32
    requires move_ok { IsLiftedMove step.now }
    requires d_ok { leaf.d ≤ depth_of step.now }
    requires k_ok { leaf.k < 2 ^ leaf.d }
    ensures value { result ≡ zlow_of step.now leaf.d leaf.k }
    ensures bound { IsTipHeight result }
{
    lower_end(step.from.z, step.to.z, leaf)
}

/// The leaf along one axis of a move.
///
/// Most moves of a raster are at rest along an axis or two.
fn stretch_of(from: i32, to: i32, leaf: Leaf) -> Stretch
    requires from_ok { Within MAX_COORDINATE from }
    requires to_ok { Within MAX_COORDINATE to }
    requires d_ok { leaf.d ≤ MAX_DEPTH }
    requires k_ok { leaf.k < 2 ^ leaf.d }
    ensures value { IsStretchOf from to leaf.d leaf.k result }
    ensures bound { IsStretch result }
{
    if from == to {
        return Stretch {
            middle: from,
            farther: 0,
        };
    }
    stretch_between(ends_of(from, to, leaf), leaf.d)
}

/// The stretch between two ends, which are given times 2^d.
fn stretch_between(ends: Ends, d: u32) -> Stretch
    requires first_ok { nat_abs ends.first ≤ 2 ^ d * MAX_COORDINATE }
    requires last_ok { nat_abs ends.last ≤ 2 ^ d * MAX_COORDINATE }
    requires d_ok { d ≤ MAX_DEPTH }
    ensures middle { result.middle ≡ round_half_up (ends.first +ℤ ends.last) (2 ^ (d + 1)) }
    ensures farther { result.farther ≡ div_ceil (max (nat_abs (ends.first -ℤ pos (2 ^ d) *ℤ result.middle)) (nat_abs (ends.last -ℤ pos (2 ^ d) *ℤ result.middle))) (2 ^ d) }
    ensures bound { IsStretch result }
{
    let middle = mean(ends, d);
    Stretch {
        middle,
        farther: farther_from(ends, middle, d),
    }
}

/// The mean of two ends, which are given times 2^d.
fn mean(ends: Ends, d: u32) -> i32
    requires first_ok { nat_abs ends.first ≤ 2 ^ d * MAX_COORDINATE }
    requires last_ok { nat_abs ends.last ≤ 2 ^ d * MAX_COORDINATE }
    requires d_ok { d ≤ MAX_DEPTH }
    ensures value { result ≡ round_half_up (ends.first +ℤ ends.last) (2 ^ (d + 1)) }
    ensures bound { Within MAX_COORDINATE result }
{
    nearest(ends.first + ends.last, d + 1)
}

/// How far, rounded up, the farther of two ends, which are given times 2^d, is from the middle.
fn farther_from(ends: Ends, middle: i32, d: u32) -> u32
    requires first_ok { nat_abs ends.first ≤ 2 ^ d * MAX_COORDINATE }
    requires last_ok { nat_abs ends.last ≤ 2 ^ d * MAX_COORDINATE }
    requires middle_ok { Within MAX_COORDINATE middle }
    requires d_ok { d ≤ MAX_DEPTH }
    ensures value { result ≡ div_ceil (max (nat_abs (ends.first -ℤ pos (2 ^ d) *ℤ middle)) (nat_abs (ends.last -ℤ pos (2 ^ d) *ℤ middle))) (2 ^ d) }
    ensures bound { result ≤ longest }
{
    let place = weighed(power_of_two(d), middle);
    let farther = ends.first.abs_diff(place).max(ends.last.abs_diff(place));
    parts_up(farther, d) as u32
}

/// A length over 2^d, rounded up.
fn parts_up(length: u64, d: u32) -> u64
    requires length_ok { length ≤ longest * 2 ^ MAX_DEPTH }
    requires d_ok { d ≤ MAX_DEPTH }
    ensures { result ≡ div_ceil length (2 ^ d) }
{
    (length + (power_of_two(d) - 1)) >> d
}

/// The lower end of the leaf along one axis, rounded down.
fn lower_end(from: i32, to: i32, leaf: Leaf) -> i32
    requires from_ok { IsTipHeight from }
    requires to_ok { IsTipHeight to }
    requires d_ok { leaf.d ≤ MAX_DEPTH }
    requires k_ok { leaf.k < 2 ^ leaf.d }
    ensures value { result ≡ lower_of from to leaf.d leaf.k }
    ensures bound { IsTipHeight result }
{
    if from == to {
        return from;
    }
    lower_of_ends(ends_of(from, to, leaf), leaf.d)
}

/// The lower of two ends, which are given times 2^d, rounded down.
fn lower_of_ends(ends: Ends, d: u32) -> i32
    requires first_ok { nat_abs ends.first ≤ 2 ^ d * highest_tip }
    requires last_ok { nat_abs ends.last ≤ 2 ^ d * highest_tip }
    requires d_ok { d ≤ MAX_DEPTH }
    ensures value { result ≡ floor_div (lesser ends.first ends.last) (2 ^ d) }
    ensures bound { Within highest_tip result }
{
    (ends.first.min(ends.last) >> d) as i32
}
