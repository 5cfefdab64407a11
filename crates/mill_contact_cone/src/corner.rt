ghost use Rattle.std.specs.Prelude.{◌≡◌, ◌-ℤ◌};
ghost use Rattle.mill_base.specs.Numbers.{Within};
ghost use Rattle.mill_base.specs.Ranges.{IsInRange};
ghost use Rattle.mill_geom.specs.Offsets.{OffsetInRange, LiftedInRange, IsCentre};
ghost use Rattle.mill_geom.specs.Widths.{farthest, most_lift};
ghost use Rattle.mill_contact_cone.specs.Cones.{IsCone, over_of, IsCornerOf, plain, lifted, CornerInRange};
ghost use Rattle.mill_contact_cone.specs.inner.Positions.{IsAlong};

use mill_base::Pt3;
use mill_geom::{Axis, Offset, offset_from};

/// A cone that rises by `rise` over each `run` until it reaches its radius at its rim, in units.
#[derive(Clone, Copy, Debug, PartialEq, Eq)]
pub struct Cone {
    pub radius: i64,
    pub rise: i64,
    pub run: i64,
}

/// How far a corner of a triangle is from the tip, and, times the run, how far it is over the
/// height of the rim.
#[derive(Clone, Copy, Debug, PartialEq, Eq)]
pub struct Corner {
    pub x: i64,
    pub y: i64,
    pub z: i64,
    pub over: i64,
}

/// How far the height `z` is over that of the rim, times the run.
fn over(z: i64, cone: Cone) -> i64
    requires z_ok { Within farthest z }
    requires cone_ok { IsCone cone }
    ensures value { result ≡ over_of cone z }
    ensures bound { Within most_lift result }
{
    cone.run * z - cone.rise * cone.radius
}

/// The corner at `point`, from the tip, with `axis` for x.
pub fn corner_from(point: Pt3, tip: Pt3, axis: Axis, cone: Cone) -> Corner
    requires point_ok { IsInRange point }
    requires tip_ok { IsCentre tip }
    requires cone_ok { IsCone cone }
    ensures place { IsAlong axis result point tip }
    ensures lifted { IsCornerOf cone result }
    ensures range { CornerInRange result }
{
    let offset = offset_from(point, tip);
    let over = over(offset.z, cone);
    match axis {
        Axis::X => Corner {
            x: offset.x,
            y: offset.y,
            z: offset.z,
            over,
        },
        Axis::Y => Corner {
            x: offset.y,
            y: offset.x,
            z: offset.z,
            over,
        },
    }
}

/// The corner as an offset from the tip.
pub fn offset_of(p: Corner) -> Offset
    requires p_ok { CornerInRange p }
    ensures value { result ≡ plain p }
    ensures range { OffsetInRange result }
{
    Offset {
        x: p.x,
        y: p.y,
        z: p.z,
    }
}

/// The corner as an offset from the tip, with how far it is over the height of the rim for its height.
pub fn lifted_of(p: Corner) -> Offset
    requires p_ok { CornerInRange p }
    ensures value { result ≡ lifted p }
    ensures range { LiftedInRange result }
{
    Offset {
        x: p.x,
        y: p.y,
        z: p.over,
    }
}
