ghost use Rattle.std.specs.Prelude.{◌≡◌, ◌^◌, ◌<ℤ◌, pos, false, IsTrue};
ghost use Rattle.mill_base.specs.Numbers.{Within};
ghost use Rattle.mill_geom.specs.Widths.{most_area, most_volume, widest};
ghost use Rattle.mill_geom.specs.Offsets.{OffsetInRange};
ghost use Rattle.mill_geom.specs.Forms.{AllUp, AllDown, IsOver, IsPierced};
ghost use Rattle.mill_geom.specs.Contacts.{TouchesTriangle, EdgesClear};

use crate::level::touches_on_level;
use crate::offset::Offset;
use crate::plane::{cross, volume};
use crate::segment::touches_segment;

/// Whether some corner is over the level.
pub fn is_over(a: Offset, b: Offset, c: Offset) -> bool
    requires a_ok { OffsetInRange a }
    requires b_ok { OffsetInRange b }
    requires c_ok { OffsetInRange c }
    ensures yes { IsTrue result → IsOver a b c }
    ensures no { result ≡ false → ¬ IsOver a b c }
{
    if a.z > 0 {
        return true;
    }
    if b.z > 0 {
        return true;
    }
    c.z > 0
}

/// Whether some edge has a point nearer to the axis than the radius and over the level.
fn touches_edge(a: Offset, b: Offset, c: Offset, radius: i64) -> bool
    requires a_ok { OffsetInRange a }
    requires b_ok { OffsetInRange b }
    requires c_ok { OffsetInRange c }
    requires r_ok { Within widest radius }
    ensures yes { IsTrue result → TouchesTriangle radius a b c }
    ensures no { result ≡ false → EdgesClear radius a b c }
{
    if touches_segment(a, b, radius) {
        return true;
    }
    if touches_segment(b, c, radius) {
        return true;
    }
    touches_segment(c, a, radius)
}

/// Whether three areas aren't negative and a volume is positive.
fn all_up(i: i64, j: i64, k: i64, volume: i64) -> bool
    requires i_ok { Within most_area i }
    requires j_ok { Within most_area j }
    requires k_ok { Within most_area k }
    requires volume_ok { Within most_volume volume }
    ensures yes { IsTrue result → AllUp i j k volume }
    ensures no { result ≡ false → ¬ AllUp i j k volume }
{
    if volume <= 0 {
        return false;
    }
    if i < 0 {
        return false;
    }
    if j < 0 {
        return false;
    }
    k >= 0
}

/// Whether three areas aren't positive and a volume is negative.
fn all_down(i: i64, j: i64, k: i64, volume: i64) -> bool
    requires i_ok { Within most_area i }
    requires j_ok { Within most_area j }
    requires k_ok { Within most_area k }
    requires volume_ok { Within most_volume volume }
    ensures yes { IsTrue result → AllDown i j k volume }
    ensures no { result ≡ false → ¬ AllDown i j k volume }
{
    if volume >= 0 {
        return false;
    }
    if i > 0 {
        return false;
    }
    if j > 0 {
        return false;
    }
    k <= 0
}

/// Whether the axis meets the triangle over the level.
pub fn is_pierced(a: Offset, b: Offset, c: Offset) -> bool
    requires a_ok { OffsetInRange a }
    requires b_ok { OffsetInRange b }
    requires c_ok { OffsetInRange c }
    ensures yes { IsTrue result → IsPierced a b c }
    ensures no { result ≡ false → ¬ IsPierced a b c }
{
    let i = cross(b, c);
    let j = cross(c, a);
    let k = cross(a, b);
    let volume = volume(a, b, c);
    if all_up(i, j, k, volume) {
        return true;
    }
    all_down(i, j, k, volume)
}

/// Whether some point of the triangle is nearer to the axis than the radius and over the level.
pub fn touches_triangle(a: Offset, b: Offset, c: Offset, radius: i64) -> bool
    requires a_ok { OffsetInRange a }
    requires b_ok { OffsetInRange b }
    requires c_ok { OffsetInRange c }
    requires r_ok { Within widest radius }
    requires r_least { pos 0 <ℤ radius }
    ensures yes { IsTrue result → TouchesTriangle radius a b c }
    ensures no { result ≡ false → ¬ TouchesTriangle radius a b c }
{
    if !is_over(a, b, c) {
        return false;
    }
    if touches_edge(a, b, c, radius) {
        return true;
    }
    if is_pierced(a, b, c) {
        return true;
    }
    touches_on_level(a, b, c, radius)
}
