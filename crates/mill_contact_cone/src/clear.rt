ghost use Rattle.std.specs.Prelude.{◌≡◌, ◌*◌, ◌*ℤ◌, false, IsTrue};
ghost use Rattle.mill_base.specs.Numbers.{Within};
ghost use Rattle.mill_geom.specs.Widths.{farthest, widest, most_area};
ghost use Rattle.mill_contact_cone.specs.inner.Widths.{most_steep};
ghost use Rattle.mill_contact_cone.specs.Cones.{IsCone, CornerInRange, TouchesCone};
ghost use Rattle.mill_contact_cone.specs.inner.Clears.{apart_of, across_of, upward_of, HoldsCorner, HoldsNone};

use crate::corner::{Cone, Corner, offset_of};
use mill_geom::{box_gap, highest};

/// The square of the radius.
fn radius_square(cone: Cone) -> i64
    requires cone_ok { IsCone cone }
    ensures value { result ≡ cone.radius *ℤ cone.radius }
    ensures bound { Within (widest * widest) result }
{
    cone.radius * cone.radius
}

/// The square of the corner's distance from the axis.
fn apart(p: Corner) -> i64
    requires p_ok { CornerInRange p }
    ensures value { result ≡ apart_of p }
    ensures bound { Within most_area result }
{
    p.x * p.x + p.y * p.y
}

/// The square of a distance from the axis, times that of the rise.
fn across(gap: i64, cone: Cone) -> i64
    requires gap_ok { Within most_area gap }
    requires cone_ok { IsCone cone }
    ensures value { result ≡ across_of cone gap }
    ensures bound { Within most_steep result }
{
    cone.rise * cone.rise * gap
}

/// The square of a height over the tip, times that of the run.
fn upward(z: i64, cone: Cone) -> i64
    requires z_ok { Within farthest z }
    requires cone_ok { IsCone cone }
    ensures value { result ≡ upward_of cone z }
    ensures bound { Within most_steep result }
{
    cone.run * cone.run * (z * z)
}

/// Whether the box of the corners shows that no point of the triangle is strictly inside the cone
/// cutter: none is over the tip, or all are at least the radius from the axis, or even a point as
/// high as the highest corner and as near to the axis as the box isn't over the wall.
pub fn is_clear(a: Corner, b: Corner, c: Corner, cone: Cone) -> bool
    requires a_ok { CornerInRange a }
    requires b_ok { CornerInRange b }
    requires c_ok { CornerInRange c }
    requires cone_ok { IsCone cone }
    ensures { IsTrue result → ¬ TouchesCone cone a b c }
{
    let a = offset_of(a);
    let b = offset_of(b);
    let c = offset_of(c);
    let top = highest(a, b, c);
    if top <= 0 {
        return true;
    }
    let gap = box_gap(a, b, c);
    if gap >= radius_square(cone) {
        return true;
    }
    upward(top, cone) <= across(gap, cone)
}

/// Whether the corner is strictly inside the cone cutter.
pub fn holds(p: Corner, cone: Cone) -> bool
    requires p_ok { CornerInRange p }
    requires cone_ok { IsCone cone }
    ensures yes { IsTrue result → HoldsCorner cone p }
    ensures no { result ≡ false → ¬ HoldsCorner cone p }
{
    if p.z <= 0 {
        return false;
    }
    let apart = apart(p);
    if apart >= radius_square(cone) {
        return false;
    }
    across(apart, cone) < upward(p.z, cone)
}

/// Whether some corner is strictly inside the cone cutter.
pub fn holds_corner(a: Corner, b: Corner, c: Corner, cone: Cone) -> bool
    requires a_ok { CornerInRange a }
    requires b_ok { CornerInRange b }
    requires c_ok { CornerInRange c }
    requires cone_ok { IsCone cone }
    ensures yes { IsTrue result → TouchesCone cone a b c }
    ensures no { result ≡ false → HoldsNone cone a b c }
{
    if holds(a, cone) {
        return true;
    }
    if holds(b, cone) {
        return true;
    }
    holds(c, cone)
}
