ghost use Rattle.std.specs.Prelude.{◌≡◌, ◌^◌, ◌-ℤ◌, ◌+ℤ◌, ◌*ℤ◌, ◌<ℤ◌, ◌≤ℤ◌, pos, false, IsTrue};
ghost use Rattle.mill_base.specs.Numbers.{Within};
ghost use Rattle.mill_geom.specs.Widths.{most_mixed_place, widest};
ghost use Rattle.mill_geom.specs.Offsets.{OffsetInRange};
ghost use Rattle.mill_geom.specs.Contacts.{TouchesTriangle};
ghost use Rattle.mill_geom.specs.Spots.{SpotInRange};
ghost use Rattle.mill_geom.specs.Sides.{IsOnSide, TouchesSlid, IsSpotUnder, IsBetween};

use crate::offset::Offset;
use crate::spot::{Spot, spot_below};
use crate::touch::Side;
use crate::triangle::is_over;
use crate::turn::mirrored;

/// Whether the spot's y is greater than minus the radius.
fn is_above(spot: Spot, radius: i64) -> bool
    requires spot_ok { SpotInRange spot }
    requires r_ok { Within widest radius }
    ensures yes { IsTrue result → (pos 0 -ℤ radius *ℤ spot.n) <ℤ spot.y }
    ensures no { result ≡ false → spot.y ≤ℤ (pos 0 -ℤ radius *ℤ spot.n) }
{
    0 - radius * spot.n < spot.y
}

/// The x of the sum of two spots, each weighed by how far the other is from the plane along x.
fn mixed_x(low: Spot, high: Spot) -> i128
    requires low_ok { SpotInRange low }
    requires high_ok { SpotInRange high }
    ensures value { result ≡ (pos 0 -ℤ high.y) *ℤ low.x +ℤ (pos 0 -ℤ low.y) *ℤ high.x }
    ensures bound { Within most_mixed_place result }
{
    (0 - high.y as i128) * low.x as i128 + (0 - low.y as i128) * high.x as i128
}

/// The x of a point between `low` and the mirror image of `high` that is nearer to the vertical
/// plane along x than the radius, where `low` and `high` are both under it.
fn between_x(low: Spot, high: Spot, radius: i64) -> i128
    requires low_ok { SpotInRange low }
    requires high_ok { SpotInRange high }
    requires r_ok { Within widest radius }
    requires r_least { pos 0 <ℤ radius }
    requires low_under { IsSpotUnder radius low }
    requires high_under { IsSpotUnder radius high }
    ensures between { IsBetween radius low high result }
    ensures bound { Within most_mixed_place result }
{
    if is_above(low, radius) {
        return low.x as i128;
    }
    if is_above(high, radius) {
        return high.x as i128;
    }
    mixed_x(low, high)
}

/// On which side along x the triangle lies, of which no point is over the level and nearer to the
/// axis than the radius.
///
/// A point of the triangle, on the level or over it, that is nearer than the radius to the vertical
/// plane along x decides by its x: with a touch at a position away from it, it would give a touch
/// here. Where there is no such point, there is no touch at any position.
pub fn side(a: Offset, b: Offset, c: Offset, radius: i64) -> Side
    requires a_ok { OffsetInRange a }
    requires b_ok { OffsetInRange b }
    requires c_ok { OffsetInRange c }
    requires r_ok { Within widest radius }
    requires r_least { pos 0 <ℤ radius }
    requires apart { ¬ TouchesTriangle radius a b c }
    ensures { IsOnSide result (TouchesSlid radius a b c) }
{
    if !is_over(a, b, c) {
        return Side::Never;
    }
    let Some(low) = spot_below(a, b, c, radius) else {
        return Side::Never;
    };
    let Some(high) = spot_below(mirrored(a), mirrored(b), mirrored(c), radius) else {
        return Side::Never;
    };
    if between_x(low, high, radius) > 0 {
        return Side::More;
    }
    Side::Less
}
