ghost use Rattle.std.specs.Prelude.{◌≡◌, ◌<ℤ◌, pos, false, IsTrue};
ghost use Rattle.mill_base.specs.Numbers.{Within};
ghost use Rattle.mill_geom.specs.Widths.{widest};
ghost use Rattle.mill_geom.specs.Offsets.{OffsetInRange};
ghost use Rattle.mill_geom.specs.Sides.{IsOnSide};
ghost use Rattle.mill_contact_ball.specs.inner.Widths.{most_place};
ghost use Rattle.mill_contact_ball.specs.inner.Spheres.{MeetsBall, MeetsAt, WeightsInRange, flat_of, x_of};

use crate::edge::has_corner_in;
use crate::face::{meets_inner, sphere_spot};
use crate::weights::Weights;
use mill_geom::{Offset, Side, side, touches_triangle};

/// Whether some point of the triangle is nearer to the origin than the radius, or over the origin
/// and nearer than the radius to the vertical axis through it.
#[inline(always)]
pub fn meets_ball(a: Offset, b: Offset, c: Offset, radius: i64) -> bool
    requires a_ok { OffsetInRange a }
    requires b_ok { OffsetInRange b }
    requires c_ok { OffsetInRange c }
    requires r_ok { Within widest radius }
    requires r_least { pos 0 <ℤ radius }
    ensures yes { IsTrue result → MeetsBall radius a b c }
    ensures no { result ≡ false → ¬ MeetsBall radius a b c }
{
    if has_corner_in(a, b, c, radius) {
        return true;
    }
    if touches_triangle(a, b, c, radius) {
        return true;
    }
    meets_inner(a, b, c, radius)
}

/// The offset's image on the plane through the origin across x.
fn flattened(p: Offset) -> Offset
    requires p_ok { OffsetInRange p }
    ensures value { result ≡ flat_of p }
    ensures range { OffsetInRange result }
{
    Offset {
        x: 0,
        y: p.y,
        z: p.z,
    }
}

/// The x of the point of the triangle with these weights, over their sum.
fn weighed_x(s: Weights, a: Offset, b: Offset, c: Offset) -> i128
    requires s_ok { WeightsInRange s }
    requires a_ok { OffsetInRange a }
    requires b_ok { OffsetInRange b }
    requires c_ok { OffsetInRange c }
    ensures value { result ≡ x_of s a b c }
    ensures bound { Within most_place result }
{
    s.u * a.x as i128 + s.v * b.x as i128 + s.w * c.x as i128
}

/// On which side along x a triangle lies that the ball and the cylinder over it miss.
///
/// One point of the triangle that the ball passes on its way along x decides: the cutter moves away
/// from the triangle by leaving it. If there is none, the cylinder alone counts.
pub fn side_of_ball(a: Offset, b: Offset, c: Offset, radius: i64) -> Side
    requires a_ok { OffsetInRange a }
    requires b_ok { OffsetInRange b }
    requires c_ok { OffsetInRange c }
    requires r_ok { Within widest radius }
    requires r_least { pos 0 <ℤ radius }
    requires apart { ¬ MeetsBall radius a b c }
    ensures { IsOnSide result (MeetsAt radius a b c) }
{
    let Some(spot) = sphere_spot(flattened(a), flattened(b), flattened(c), radius) else {
        return side(a, b, c, radius);
    };
    if weighed_x(spot, a, b, c) > 0 {
        return Side::More;
    }
    Side::Less
}
