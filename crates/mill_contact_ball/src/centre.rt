ghost use Rattle.std.specs.Prelude.{◌≡◌, ◌+ℤ◌, ◌-ℤ◌, ◌≤ℤ◌, pos};
ghost use Rattle.mill_base.specs.Numbers.{Within};
ghost use Rattle.mill_base.specs.Ranges.{IsInRange};
ghost use Rattle.mill_base.specs.Sizes.{HasRadius};
ghost use Rattle.mill_base.specs.declared.limits.TheConstants.{LOWEST_TIP, MAX_COORDINATE, MAX_WIDE_RADIUS};
ghost use Rattle.mill_geom.specs.Widths.{farthest};
ghost use Rattle.mill_geom.specs.Offsets.{OffsetInRange, IsOffset, IsCentre};
ghost use Rattle.mill_contact_ball.specs.Centres.{sphere_centre};

use mill_base::Pt3;
use mill_geom::{Offset, offset_from};

/// How far a height is over a tip's.
fn over_tip(height: i32, tip: i32) -> i64
    requires height_ok { Within MAX_COORDINATE height }
    requires tip_from { LOWEST_TIP ≤ℤ tip }
    requires tip_to { tip ≤ℤ pos MAX_COORDINATE }
    ensures { result ≡ height -ℤ tip }
{
    i64::from(height) - i64::from(tip)
}

/// How far a height is over the centre of the sphere of `radius` that stands on a tip.
fn over_centre(height: i32, tip: i32, radius: i32) -> i64
    requires height_ok { Within MAX_COORDINATE height }
    requires tip_from { LOWEST_TIP ≤ℤ tip }
    requires tip_to { tip ≤ℤ pos MAX_COORDINATE }
    requires radius_ok { HasRadius radius MAX_WIDE_RADIUS }
    ensures value { result ≡ height -ℤ (tip +ℤ radius) }
    ensures bound { Within farthest result }
{
    over_tip(height, tip) - i64::from(radius)
}

/// How far `point` is from the centre of the sphere of `radius` that stands on `tip`.
pub fn offset_from_centre(point: Pt3, tip: Pt3, radius: i32) -> Offset
    requires point_ok { IsInRange point }
    requires tip_ok { IsCentre tip }
    requires radius_ok { HasRadius radius MAX_WIDE_RADIUS }
    ensures place { IsOffset result point (sphere_centre radius tip) }
    ensures range { OffsetInRange result }
{
    let Offset { x, y, .. } = offset_from(point, tip);
    let z = over_centre(point.z, tip.z, radius);
    Offset { x, y, z }
}
