ghost use Rattle.std.specs.Prelude.{◌≡◌, ◌<ℤ◌, ◌≤ℤ◌, pos, false, IsTrue};
ghost use Rattle.mill_base.specs.Numbers.{Within};
ghost use Rattle.mill_base.specs.Ranges.{TriInRange};
ghost use Rattle.mill_base.specs.Sizes.{HasRadius};
ghost use Rattle.mill_base.specs.declared.limits.TheConstants.{MAX_WIDE_RADIUS};
ghost use Rattle.mill_geom.specs.Widths.{widest};
ghost use Rattle.mill_geom.specs.Contacts.{TouchesTriangle};
ghost use Rattle.mill_geom.specs.Offsets.{OffsetInRange, IsCentre};
ghost use Rattle.mill_geom.specs.Reaches.{
  AllUnder,
  Reaches,
  ReachesTriangle,
  ReachesSegment,
  ReachesCorner,
  raised_of,
};

use crate::cylinder::{all_from, all_to};
use crate::offset::{Offset, offset_from};
use crate::segment::{form, touches_segment};
use crate::triangle::{is_over, touches_triangle};
use mill_base::{Pt3, Tri};

/// The corner straight over or under `p` at the height 1: near the axis as `p` is, and over the
/// level.
fn raised(p: Offset) -> Offset
    requires { OffsetInRange p }
    ensures place { result ≡ raised_of p }
    ensures range { OffsetInRange result }
{
    Offset {
        x: p.x,
        y: p.y,
        z: 1,
    }
}

/// Whether the corner isn't under the level, and is nearer to the axis than the radius.
fn reaches_corner(p: Offset, radius: i64) -> bool
    requires p_ok { OffsetInRange p }
    requires r_ok { Within widest radius }
    ensures yes { IsTrue result → ReachesCorner radius p }
    ensures no { result ≡ false → ¬ ReachesCorner radius p }
{
    if p.z < 0 {
        return false;
    }
    form(p, p, radius) < 0
}

/// Whether some point of the segment isn't under the level, and is nearer to the axis than the
/// radius, where neither end is over the level: then only ends on it count.
fn reaches_segment(p: Offset, q: Offset, radius: i64) -> bool
    requires p_ok { OffsetInRange p }
    requires q_ok { OffsetInRange q }
    requires r_ok { Within widest radius }
    requires p_under { p.z ≤ℤ pos 0 }
    requires q_under { q.z ≤ℤ pos 0 }
    ensures yes { IsTrue result → ReachesSegment radius p q }
    ensures no { result ≡ false → ¬ ReachesSegment radius p q }
{
    if p.z < 0 {
        return reaches_corner(q, radius);
    }
    if q.z < 0 {
        return reaches_corner(p, radius);
    }
    touches_segment(raised(p), raised(q), radius)
}

/// Whether some point of the triangle isn't under the level, and is nearer to the axis than the
/// radius, where no corner is over the level: then only its points on the level count.
fn reaches_under(a: Offset, b: Offset, c: Offset, radius: i64) -> bool
    requires a_ok { OffsetInRange a }
    requires b_ok { OffsetInRange b }
    requires c_ok { OffsetInRange c }
    requires r_ok { Within widest radius }
    requires r_least { pos 0 <ℤ radius }
    requires under { AllUnder a b c }
    ensures yes { IsTrue result → ReachesTriangle radius a b c }
    ensures no { result ≡ false → ¬ ReachesTriangle radius a b c }
{
    if a.z < 0 {
        return reaches_segment(b, c, radius);
    }
    if b.z < 0 {
        return reaches_segment(c, a, radius);
    }
    if c.z < 0 {
        return reaches_segment(a, b, radius);
    }
    touches_triangle(raised(a), raised(b), raised(c), radius)
}

/// Whether some point of the triangle isn't under the level, and is nearer to the axis than the
/// radius. Where a corner is over the level, a near point on it gives one over it.
fn reaches_triangle(a: Offset, b: Offset, c: Offset, radius: i64) -> bool
    requires a_ok { OffsetInRange a }
    requires b_ok { OffsetInRange b }
    requires c_ok { OffsetInRange c }
    requires r_ok { Within widest radius }
    requires r_least { pos 0 <ℤ radius }
    ensures yes { IsTrue result → ReachesTriangle radius a b c }
    ensures no { result ≡ false → ¬ ReachesTriangle radius a b c }
{
    if is_over(a, b, c) {
        return touches_triangle(a, b, c, radius);
    }
    reaches_under(a, b, c, radius)
}

/// Whether the upright box of the triangle keeps off that of the cylinder, by 64-bit comparisons.
fn is_beside(a: Offset, b: Offset, c: Offset, radius: i64) -> bool
    requires a_ok { OffsetInRange a }
    requires b_ok { OffsetInRange b }
    requires c_ok { OffsetInRange c }
    requires r_ok { Within widest radius }
    requires r_least { pos 0 ≤ℤ radius }
    ensures { IsTrue result → ¬ TouchesTriangle radius a b c }
{
    if all_from(a.x, b.x, c.x, radius) {
        return true;
    }
    if all_to(a.x, b.x, c.x, radius) {
        return true;
    }
    if all_from(a.y, b.y, c.y, radius) {
        return true;
    }
    all_to(a.y, b.y, c.y, radius)
}

/// Whether some point of the triangle is at least as high as `centre`, and strictly nearer than
/// `radius` to the vertical axis through it. Lengths are in units.
///
/// Corners may be equal or collinear. The test of the boxes looks at no height.
pub fn reaches_cylinder(tri: &Tri, radius: i32, centre: Pt3) -> bool
    requires tri_ok { TriInRange tri.now }
    requires radius_ok { HasRadius radius MAX_WIDE_RADIUS }
    requires centre_ok { IsCentre centre }
    ensures yes { IsTrue result → Reaches radius centre tri.now }
    ensures no { result ≡ false → ¬ Reaches radius centre tri.now }
{
    let a = offset_from(tri.a, centre);
    let b = offset_from(tri.b, centre);
    let c = offset_from(tri.c, centre);
    let radius = i64::from(radius);
    if is_beside(raised(a), raised(b), raised(c), radius) {
        return false;
    }
    reaches_triangle(a, b, c, radius)
}
