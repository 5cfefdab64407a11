ghost use Rattle.std.specs.Prelude.{◌≡◌, ◌+◌, ◌*◌, ◌^◌, ◌<◌, ◌≤◌, ◌+ℤ◌, ◌-ℤ◌, ◌*ℤ◌, ◌<ℤ◌, ◌≤ℤ◌, pos, nat_abs};
ghost use Rattle.mill_base.specs.Numbers.{Within};
ghost use Rattle.mill_base.specs.Ranges.{IsInRange, TriInRange};
ghost use Rattle.mill_base.specs.declared.limits.TheConstants.{MAX_COORDINATE};
ghost use Rattle.mill_geom.specs.Extents.{IsExtentInRange, IsExtentOver};
ghost use Rattle.mill_geom.specs.inner.Edges.{IsCornerInRange, IsIn, IsPartOver, IsUpperPart, corner_of};

use crate::Axis;
use mill_base::{MAX_COORDINATE, Pt3, Tri};

/// The coordinates along an axis from `first` to `last`, with both of them; none where `last` is the
/// lesser one.
#[derive(Clone, Copy, Debug, PartialEq, Eq)]
pub struct Extent {
    pub first: i32,
    pub last: i32,
}

/// A corner of a triangle, as it is seen along an axis and from a height.
#[derive(Clone, Copy)]
struct Corner {
    /// Its coordinate along the axis.
    place: i32,
    /// How far it is over the height; negative where it is under it.
    height: i32,
}

/// From the least to the greatest coordinate along the axis of what the triangle has over the height
/// `z`, rounded outwards to whole units. Where it has nothing there, the extent says nothing.
pub fn extent_over(tri: &Tri, axis: Axis, z: i32) -> Extent
    requires tri_ok { TriInRange tri.now }
    requires z_ok { Within MAX_COORDINATE z }
    ensures extent { IsExtentOver axis z tri.now result }
    ensures in_range { IsExtentInRange result }
{
    let a = corner_at(tri.a, axis, z);
    let b = corner_at(tri.b, axis, z);
    let c = corner_at(tri.c, axis, z);
    around(edge_over(a, b), around(edge_over(b, c), edge_over(c, a)))
}

/// A corner as it is seen along the axis and from the height `z`.
fn corner_at(point: Pt3, axis: Axis, z: i32) -> Corner
    requires point_ok { IsInRange point }
    requires z_ok { Within MAX_COORDINATE z }
    ensures value { result ≡ corner_of axis z point }
    ensures in_range { IsCornerInRange result }
{
    let height = point.z - z;
    match axis {
        Axis::X => Corner {
            place: point.x,
            height,
        },
        Axis::Y => Corner {
            place: point.y,
            height,
        },
    }
}

/// An extent that holds both of these, and as little else as it can.
fn around(a: Extent, b: Extent) -> Extent
    requires a_ok { IsExtentInRange a }
    requires b_ok { IsExtentInRange b }
    ensures first { IsIn a result }
    ensures second { IsIn b result }
    ensures in_range { IsExtentInRange result }
{
    Extent {
        first: a.first.min(b.first),
        last: a.last.max(b.last),
    }
}

/// The places of what the edge between two corners has over the height. Where it has nothing there,
/// the extent is empty: it adds nothing to one that it is joined to.
fn edge_over(a: Corner, b: Corner) -> Extent
    requires a_ok { IsCornerInRange a }
    requires b_ok { IsCornerInRange b }
    ensures part { IsPartOver a b result }
    ensures in_range { IsExtentInRange result }
{
    if a.height > 0 {
        if b.height > 0 {
            return Extent {
                first: a.place.min(b.place),
                last: a.place.max(b.place),
            };
        }
        return upper_part(a, b);
    }
    if b.height > 0 {
        return upper_part(b, a);
    }
    Extent {
        first: MAX_COORDINATE as i32,
        last: -(MAX_COORDINATE as i32),
    }
}

/// The places of an edge from its corner over the height to where it crosses the height.
fn upper_part(over: Corner, under: Corner) -> Extent
    requires over_ok { IsCornerInRange over }
    requires under_ok { IsCornerInRange under }
    requires over { pos 0 <ℤ over.height }
    requires under { under.height ≤ℤ pos 0 }
    ensures { IsUpperPart over under result }
{
    let length = upper_length(over, under);
    if under.place < over.place {
        Extent {
            first: over.place - length,
            last: over.place,
        }
    } else {
        Extent {
            first: over.place,
            last: over.place + length,
        }
    }
}

/// How far the place where an edge crosses the height is from its corner over the height, rounded up.
fn upper_length(over: Corner, under: Corner) -> i32
    requires over_ok { IsCornerInRange over }
    requires under_ok { IsCornerInRange under }
    requires over { pos 0 <ℤ over.height }
    requires under { under.height ≤ℤ pos 0 }
    ensures least { pos 0 ≤ℤ result }
    ensures most { result ≤ℤ pos (nat_abs (under.place -ℤ over.place)) }
    ensures covers { (pos (nat_abs (under.place -ℤ over.place)) *ℤ over.height) ≤ℤ (result *ℤ (over.height -ℤ under.height)) }
{
    let length = under.place.abs_diff(over.place);
    let rise = over.height.unsigned_abs();
    let drop = under.height.unsigned_abs();
    share(length, rise, drop) as i32
}

/// The share of a length that `rise` has of `rise` and `drop` together, rounded up.
fn share(length: u32, rise: u32, drop: u32) -> u32
    requires length_ok { length ≤ 2 ^ 20 }
    requires rise_ok { rise ≤ 2 ^ 20 }
    requires drop_ok { drop ≤ 2 ^ 20 }
    requires some { 0 < rise }
    ensures most { result ≤ length }
    ensures covers { length * rise ≤ result * (rise + drop) }
{
    (u64::from(length) * u64::from(rise)).div_ceil(u64::from(rise + drop)) as u32
}
