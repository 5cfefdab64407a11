ghost use Rattle.std.specs.Prelude.{◌≡◌, ◌↔◌, ◌+ℤ◌, ◌*ℤ◌, ◌<ℤ◌, IsTrue};
ghost use Rattle.mill_base.specs.Numbers.{Within};
ghost use Rattle.mill_geom.specs.declared.plane.TheConstants.{FAR_VOLUME};
ghost use Rattle.mill_geom.specs.Widths.{
  widest,
  most_area,
  most_lift,
  most_slope,
  most_volume,
  most_lifted_volume,
};
ghost use Rattle.mill_geom.specs.Offsets.{OffsetInRange, PlanInRange, LiftedInRange};
ghost use Rattle.mill_geom.specs.Forms.{cross_of, volume_of, slope_x_of, slope_y_of, IsLineNear};

use crate::offset::Offset;

/// Twice the area that two offsets span in x and y, with its sign.
pub fn cross(p: Offset, q: Offset) -> i64
    requires p_ok { PlanInRange p }
    requires q_ok { PlanInRange q }
    ensures value { result ≡ cross_of p q }
    ensures bound { Within most_area result }
{
    p.x * q.y - p.y * q.x
}

/// Six times the volume that three offsets span, with its sign.
pub fn volume(a: Offset, b: Offset, c: Offset) -> i64
    requires a_ok { OffsetInRange a }
    requires b_ok { OffsetInRange b }
    requires c_ok { OffsetInRange c }
    ensures value { result ≡ volume_of a b c }
    ensures bound { Within most_volume result }
{
    (b.x * c.y - b.y * c.x) * a.z + (c.x * a.y - c.y * a.x) * b.z + (a.x * b.y - a.y * b.x) * c.z
}

/// The sum of three heights that are weighted with areas.
fn weighted(i: i64, j: i64, k: i64, x: i64, y: i64, z: i64) -> i128
    requires i_ok { Within most_area i }
    requires j_ok { Within most_area j }
    requires k_ok { Within most_area k }
    requires x_ok { Within most_lift x }
    requires y_ok { Within most_lift y }
    requires z_ok { Within most_lift z }
    ensures value { result ≡ (i *ℤ x +ℤ j *ℤ y) +ℤ k *ℤ z }
    ensures bound { Within most_lifted_volume result }
{
    i as i128 * x as i128 + j as i128 * y as i128 + k as i128 * z as i128
}

/// How steep the plane of three offsets is in x.
fn slope_x(a: Offset, b: Offset, c: Offset) -> i64
    requires a_ok { LiftedInRange a }
    requires b_ok { LiftedInRange b }
    requires c_ok { LiftedInRange c }
    ensures value { result ≡ slope_x_of a b c }
    ensures bound { Within most_slope result }
{
    a.z * (c.x - b.x) + b.z * (a.x - c.x) + c.z * (b.x - a.x)
}

/// How steep the plane of three offsets is in y.
fn slope_y(a: Offset, b: Offset, c: Offset) -> i64
    requires a_ok { LiftedInRange a }
    requires b_ok { LiftedInRange b }
    requires c_ok { LiftedInRange c }
    ensures value { result ≡ slope_y_of a b c }
    ensures bound { Within most_slope result }
{
    a.z * (c.y - b.y) + b.z * (a.y - c.y) + c.z * (b.y - a.y)
}

/// From this magnitude on, the square of a volume is over all that a near line may have.
const FAR_VOLUME: u128 = 12_000_000_000_000_000_000;

/// Whether the square of a volume is less than that of the radius times the sum of those of two
/// slopes.
fn is_less(volume: i128, x: i64, y: i64, radius: i64) -> bool
    requires volume_ok { Within FAR_VOLUME volume }
    requires x_ok { Within most_slope x }
    requires y_ok { Within most_slope y }
    requires r_ok { Within widest radius }
    ensures { IsTrue result ↔ ((volume *ℤ volume) <ℤ ((radius *ℤ radius) *ℤ (x *ℤ x +ℤ y *ℤ y))) }
{
    let x = x as i128;
    let y = y as i128;
    let radius = radius as i128;
    volume * volume < radius * radius * (x * x + y * y)
}

/// Whether a line whose plane has these slopes and this volume is nearer to the axis than the
/// radius. Volumes whose square may not fit are far too great.
fn is_near(volume: i128, x: i64, y: i64, radius: i64) -> bool
    requires volume_ok { Within most_lifted_volume volume }
    requires x_ok { Within most_slope x }
    requires y_ok { Within most_slope y }
    requires r_ok { Within widest radius }
    ensures { IsTrue result ↔ ((volume *ℤ volume) <ℤ ((radius *ℤ radius) *ℤ (x *ℤ x +ℤ y *ℤ y))) }
{
    if volume.unsigned_abs() >= FAR_VOLUME {
        return false;
    }
    is_less(volume, x, y, radius)
}

/// Whether the line in which the plane meets the level is nearer to the axis than the radius.
/// Heights may be scaled ones.
pub fn is_line_near(a: Offset, b: Offset, c: Offset, radius: i64) -> bool
    requires a_ok { LiftedInRange a }
    requires b_ok { LiftedInRange b }
    requires c_ok { LiftedInRange c }
    requires r_ok { Within widest radius }
    ensures { IsTrue result ↔ IsLineNear radius a b c }
{
    let i = cross(b, c);
    let j = cross(c, a);
    let k = cross(a, b);
    let volume = weighted(i, j, k, a.z, b.z, c.z);
    let x = slope_x(a, b, c);
    let y = slope_y(a, b, c);
    is_near(volume, x, y, radius)
}
