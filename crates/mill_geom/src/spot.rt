ghost use Rattle.std.specs.Prelude.{◌≡◌, ◌^◌, ◌-ℤ◌, ◌<ℤ◌, pos, false, IsTrue, IfSome, None};
ghost use Rattle.mill_base.specs.Numbers.{Within};
ghost use Rattle.mill_geom.specs.Widths.{most_area, most_fall, farthest, widest};
ghost use Rattle.mill_geom.specs.Offsets.{OffsetInRange};
ghost use Rattle.mill_geom.specs.Spots.{SpotInRange, IsBelow, AllBeyond, LowCorner, LowCrossing, crossing_of};

use crate::offset::Offset;

/// A point of a triangle, on the level or over it, over the denominator `n`.
#[derive(Clone, Copy, Debug, PartialEq, Eq)]
pub struct Spot {
    pub x: i64,
    pub y: i64,
    pub n: i64,
}

/// Whether the corner is on the level or over it, and its y is less than the radius.
fn is_low_corner(p: Offset, radius: i64) -> bool
    requires p_ok { OffsetInRange p }
    requires r_ok { Within widest radius }
    ensures yes { IsTrue result → LowCorner radius p }
    ensures no { result ≡ false → ¬ LowCorner radius p }
{
    if p.z < 0 {
        return false;
    }
    p.y < radius
}

/// Where the edge from the height `z` and the coordinate `f` to `w` and `g` crosses the level, over
/// the denominator `z - w`.
fn crossing(z: i64, w: i64, f: i64, g: i64) -> i64
    requires z_ok { Within farthest z }
    requires w_ok { Within farthest w }
    requires f_ok { Within farthest f }
    requires g_ok { Within farthest g }
    ensures value { result ≡ crossing_of z w f g }
    ensures bound { Within most_area result }
{
    (0 - w) * f + z * g
}

/// How far the height `z` is over `w`.
fn fall(z: i64, w: i64) -> i64
    requires z_ok { Within farthest z }
    requires w_ok { Within farthest w }
    ensures value { result ≡ z -ℤ w }
    ensures bound { Within most_fall result }
{
    z - w
}

/// Whether the edge from `p`, over the level, to `q`, under it, crosses the level at a y less than
/// the radius.
fn is_low_crossing(p: Offset, q: Offset, radius: i64) -> bool
    requires p_ok { OffsetInRange p }
    requires q_ok { OffsetInRange q }
    requires r_ok { Within widest radius }
    ensures yes { IsTrue result → LowCrossing radius p q }
    ensures no { result ≡ false → ¬ LowCrossing radius p q }
{
    if p.z <= 0 {
        return false;
    }
    if q.z >= 0 {
        return false;
    }
    let y = crossing(p.z, q.z, p.y, q.y);
    let n = fall(p.z, q.z);
    y < radius * n
}

/// The corner as a spot.
fn corner_spot(p: Offset) -> Spot
    requires p_ok { OffsetInRange p }
    ensures x { result.x ≡ p.x }
    ensures y { result.y ≡ p.y }
    ensures n { result.n ≡ pos 1 }
    ensures range { SpotInRange result }
{
    Spot {
        x: p.x,
        y: p.y,
        n: 1,
    }
}

/// The point where the edge from `p` to `q` crosses the level.
fn crossing_spot(p: Offset, q: Offset) -> Spot
    requires p_ok { OffsetInRange p }
    requires q_ok { OffsetInRange q }
    ensures x { result.x ≡ crossing_of p.z q.z p.x q.x }
    ensures y { result.y ≡ crossing_of p.z q.z p.y q.y }
    ensures n { result.n ≡ p.z -ℤ q.z }
    ensures range { SpotInRange result }
{
    let x = crossing(p.z, q.z, p.x, q.x);
    let y = crossing(p.z, q.z, p.y, q.y);
    let n = fall(p.z, q.z);
    Spot { x, y, n }
}

/// Some point of the triangle, on the level or over it, whose y is less than the radius.
pub fn spot_below(a: Offset, b: Offset, c: Offset, radius: i64) -> Option<Spot>
    requires a_ok { OffsetInRange a }
    requires b_ok { OffsetInRange b }
    requires c_ok { OffsetInRange c }
    requires r_ok { Within widest radius }
    ensures found { IfSome result (λ s. IsBelow radius a b c s) }
    ensures none { result ≡ None → AllBeyond radius a b c }
{
    if is_low_corner(a, radius) {
        return Some(corner_spot(a));
    }
    if is_low_corner(b, radius) {
        return Some(corner_spot(b));
    }
    if is_low_corner(c, radius) {
        return Some(corner_spot(c));
    }
    if is_low_crossing(a, b, radius) {
        return Some(crossing_spot(a, b));
    }
    if is_low_crossing(b, a, radius) {
        return Some(crossing_spot(b, a));
    }
    if is_low_crossing(b, c, radius) {
        return Some(crossing_spot(b, c));
    }
    if is_low_crossing(c, b, radius) {
        return Some(crossing_spot(c, b));
    }
    if is_low_crossing(c, a, radius) {
        return Some(crossing_spot(c, a));
    }
    if is_low_crossing(a, c, radius) {
        return Some(crossing_spot(a, c));
    }
    None
}
