ghost use Rattle.std.specs.Prelude.{◌≡◌, ◌+◌, ◌*◌, ◌^◌, ◌<◌, ◌≤◌, ◌*ℤ◌, pos, nat_abs};
ghost use Rattle.mill_base.specs.Numbers.{round_half_up, Within};
ghost use Rattle.mill_base.specs.declared.limits.TheConstants.{MAX_COORDINATE, MAX_DEPTH};
ghost use Rattle.mill_sweep.specs.Leaves.{end_of};
ghost use Rattle.mill_sweep.specs.Widths.{end_depth, farthest_end, highest_end, highest_tip};

use crate::leaf::Leaf;
use mill_base::{offset, power_of_two};

/// The two ends of a leaf along one axis, times 2^d.
#[derive(Clone, Copy)]
pub(crate) struct Ends {
    pub first: i64,
    pub last: i64,
}

/// The ends of the leaf along one axis of a move.
///
/// All leaves of a depth are equally long, so the last end needs no product of its own.
pub(crate) fn ends_of(from: i32, to: i32, leaf: Leaf) -> Ends
    requires from_ok { Within highest_tip from }
    requires to_ok { Within highest_tip to }
    requires d_ok { leaf.d ≤ MAX_DEPTH }
    requires k_ok { leaf.k < 2 ^ leaf.d }
    ensures first { result.first ≡ end_of from to leaf.d leaf.k }
    ensures last { result.last ≡ end_of from to leaf.d (leaf.k + 1) }
    ensures first_within { nat_abs result.first ≤ 2 ^ leaf.d * highest_tip }
    ensures last_within { nat_abs result.last ≤ 2 ^ leaf.d * highest_tip }
{
    let first = tip_end_at(from, to, leaf.d, leaf.k);
    Ends {
        first,
        last: first + offset(to, from),
    }
}

/// One coordinate of the tip at k/2^d, times 2^d.
pub fn end_at(from: i32, to: i32, d: u32, k: u64) -> i64
    requires from_ok { Within MAX_COORDINATE from }
    requires to_ok { Within MAX_COORDINATE to }
    requires d_ok { d ≤ end_depth }
    requires k_ok { k ≤ 2 ^ d }
    ensures value { result ≡ end_of from to d k }
    ensures bound { Within farthest_end result }
    ensures within { nat_abs result ≤ 2 ^ d * MAX_COORDINATE }
{
    tip_end_at(from, to, d, k)
}

/// The same of a solid's tip, which may be twice as high as coordinates go.
fn tip_end_at(from: i32, to: i32, d: u32, k: u64) -> i64
    requires from_ok { Within highest_tip from }
    requires to_ok { Within highest_tip to }
    requires d_ok { d ≤ end_depth }
    requires k_ok { k ≤ 2 ^ d }
    ensures value { result ≡ end_of from to d k }
    ensures bound { Within highest_end result }
    ensures within { nat_abs result ≤ 2 ^ d * highest_tip }
{
    weighed(power_of_two(d) - k, from) + weighed(k, to)
}

/// The whole number that is nearest to an end over 2^d, halves up.
pub fn nearest(end: i64, d: u32) -> i32
    requires end_ok { nat_abs end ≤ 2 ^ d * MAX_COORDINATE }
    requires d_ok { d ≤ end_depth }
    ensures value { result ≡ round_half_up end (2 ^ d) }
    ensures bound { Within MAX_COORDINATE result }
{
    ((2 * end + power_of_two(d) as i64) >> (d + 1)) as i32
}

/// The place times its weight.
pub(crate) fn weighed(weight: u64, place: i32) -> i64
    requires weight_ok { weight ≤ 2 ^ end_depth }
    requires place_ok { Within highest_tip place }
    ensures value { result ≡ pos weight *ℤ place }
    ensures bound { Within highest_end result }
{
    weight as i64 * i64::from(place)
}
