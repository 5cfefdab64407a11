ghost use Rattle.std.specs.Prelude.{◌≡◌, ◌-ℤ◌, ◌≤ℤ◌, pos};
ghost use Rattle.mill_base.specs.Numbers.{Within};
ghost use Rattle.mill_base.specs.Ranges.{IsInRange};
ghost use Rattle.mill_base.specs.declared.limits.TheConstants.{MAX_COORDINATE, LOWEST_TIP};
ghost use Rattle.mill_geom.specs.Widths.{farthest};
ghost use Rattle.mill_geom.specs.Offsets.{OffsetInRange, IsOffset, IsCentre};

use mill_base::Pt3;

/// How far a point is from a centre, in units.
#[derive(Clone, Copy, Debug, PartialEq, Eq)]
pub struct Offset {
    pub x: i64,
    pub y: i64,
    pub z: i64,
}

/// How far `a` is over `b`, where both are in the range that calls take.
fn beside(a: i32, b: i32) -> i64
    requires a_ok { Within MAX_COORDINATE a }
    requires b_ok { Within MAX_COORDINATE b }
    ensures value { result ≡ a -ℤ b }
    ensures bound { Within farthest result }
{
    i64::from(a) - i64::from(b)
}

/// How far the height `a` is over that of a tip, which may be lower.
fn over(a: i32, tip: i32) -> i64
    requires a_ok { Within MAX_COORDINATE a }
    requires tip_from { LOWEST_TIP ≤ℤ tip }
    requires tip_to { tip ≤ℤ pos MAX_COORDINATE }
    ensures value { result ≡ a -ℤ tip }
    ensures bound { Within farthest result }
{
    i64::from(a) - i64::from(tip)
}

/// How far `point` is from `centre`.
pub fn offset_from(point: Pt3, centre: Pt3) -> Offset
    requires point_ok { IsInRange point }
    requires centre_ok { IsCentre centre }
    ensures place { IsOffset result point centre }
    ensures range { OffsetInRange result }
{
    let x = beside(point.x, centre.x);
    let y = beside(point.y, centre.y);
    let z = over(point.z, centre.z);
    Offset { x, y, z }
}
