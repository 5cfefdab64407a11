ghost use Rattle.std.specs.Prelude.{◌≡◌, ◌+ℤ◌, ◌-ℤ◌, ◌*ℤ◌, ◌<ℤ◌, pos, false, IsTrue};
ghost use Rattle.mill_base.specs.Numbers.{Within};
ghost use Rattle.mill_geom.specs.Sides.{IsOnSide};
ghost use Rattle.mill_geom.specs.Widths.{farthest};
ghost use Rattle.mill_contact_cone.specs.inner.Widths.{most_bound};
ghost use Rattle.mill_contact_cone.specs.Cones.{IsCone, IsCornerOf, CornerInRange, TouchesEdge, TouchesCone};
ghost use Rattle.mill_contact_cone.specs.inner.Clears.{HoldsCorner, HoldsNone};
ghost use Rattle.mill_contact_cone.specs.inner.Positions.{ConeAt, flattened as flattened_of, IsSeenOn, HoldsBefore, IsBefore};

use crate::clear::holds;
use crate::corner::{Cone, Corner};
use crate::edge::touches_edge;
use mill_geom::Side;

/// The corner brought to the tip's x.
fn flattened(p: Corner) -> Corner
    requires p_ok { CornerInRange p }
    ensures value { result ≡ flattened_of p }
    ensures range { CornerInRange result }
{
    Corner {
        x: 0,
        y: p.y,
        z: p.z,
        over: p.over,
    }
}

/// Whether the corner comes into the cutter at some position along x.
fn is_corner_seen(p: Corner, cone: Cone) -> bool
    requires p_ok { CornerInRange p }
    requires cone_ok { IsCone cone }
    ensures yes { IsTrue result → HoldsCorner cone (flattened_of p) }
    ensures no { result ≡ false → ¬ HoldsCorner cone (flattened_of p) }
{
    holds(flattened(p), cone)
}

/// Whether some point of the segment comes into the cutter at some position along x, where no end
/// does.
fn is_seen(p: Corner, q: Corner, cone: Cone) -> bool
    requires p_ok { CornerInRange p }
    requires q_ok { CornerInRange q }
    requires cone_ok { IsCone cone }
    requires p_is { IsCornerOf cone p }
    requires q_is { IsCornerOf cone q }
    requires p_out { ¬ HoldsCorner cone (flattened_of p) }
    requires q_out { ¬ HoldsCorner cone (flattened_of q) }
    ensures yes { IsTrue result → TouchesEdge cone (flattened_of p) (flattened_of q) }
    ensures no { result ≡ false → ¬ TouchesEdge cone (flattened_of p) (flattened_of q) }
{
    touches_edge(flattened(p), flattened(q), cone)
}

/// Whether a quantity that is `f` at the end at `x`, before the tip, and `g` at the end at `w`,
/// behind it, is positive at the first end, and isn't at the point between them at the tip's x.
fn holds_before(f: i64, g: i64, x: i64, w: i64) -> bool
    requires f_ok { Within most_bound f }
    requires g_ok { Within most_bound g }
    requires x_ok { Within farthest x }
    requires w_ok { Within farthest w }
    ensures yes { IsTrue result → HoldsBefore f g x w }
    ensures no { result ≡ false → ¬ HoldsBefore f g x w }
{
    if f <= 0 {
        return false;
    }
    w * f <= x * g
}

/// How far the corner is from the cylinder's side at the greater y.
fn from_right(p: Corner, cone: Cone) -> i64
    requires p_ok { CornerInRange p }
    requires cone_ok { IsCone cone }
    ensures value { result ≡ cone.radius -ℤ p.y }
    ensures bound { Within most_bound result }
{
    cone.radius - p.y
}

/// How far the corner is from the cylinder's side at the lesser y.
fn from_left(p: Corner, cone: Cone) -> i64
    requires p_ok { CornerInRange p }
    requires cone_ok { IsCone cone }
    ensures value { result ≡ cone.radius +ℤ p.y }
    ensures bound { Within most_bound result }
{
    cone.radius + p.y
}

/// How far the corner is over the cone's wall at the greater y, times the run.
fn over_right(p: Corner, cone: Cone) -> i64
    requires p_ok { CornerInRange p }
    requires cone_ok { IsCone cone }
    ensures value { result ≡ cone.run *ℤ p.z -ℤ cone.rise *ℤ p.y }
    ensures bound { Within most_bound result }
{
    cone.run * p.z - cone.rise * p.y
}

/// How far the corner is over the cone's wall at the lesser y, times the run.
fn over_left(p: Corner, cone: Cone) -> i64
    requires p_ok { CornerInRange p }
    requires cone_ok { IsCone cone }
    ensures value { result ≡ cone.run *ℤ p.z +ℤ cone.rise *ℤ p.y }
    ensures bound { Within most_bound result }
{
    cone.run * p.z + cone.rise * p.y
}

/// Whether some of the four bounds of what comes into the cutter holds at the first end, before the
/// tip, and not at the point of the segment at the tip's x.
fn is_before(p: Corner, q: Corner, cone: Cone) -> bool
    requires p_ok { CornerInRange p }
    requires q_ok { CornerInRange q }
    requires cone_ok { IsCone cone }
    ensures yes { IsTrue result → IsBefore cone p q }
    ensures no { result ≡ false → ¬ IsBefore cone p q }
{
    if holds_before(from_right(p, cone), from_right(q, cone), p.x, q.x) {
        return true;
    }
    if holds_before(from_left(p, cone), from_left(q, cone), p.x, q.x) {
        return true;
    }
    if holds_before(over_right(p, cone), over_right(q, cone), p.x, q.x) {
        return true;
    }
    holds_before(over_left(p, cone), over_left(q, cone), p.x, q.x)
}

/// On which side of the tip the points of the segment are that come into the cutter, where no point
/// is in it.
fn edge_side(p: Corner, q: Corner, cone: Cone) -> Side
    requires p_ok { CornerInRange p }
    requires q_ok { CornerInRange q }
    requires cone_ok { IsCone cone }
    requires seen { TouchesEdge cone (flattened_of p) (flattened_of q) }
    requires apart { ¬ TouchesEdge cone p q }
    ensures { IsSeenOn result cone p q }
{
    if p.x < 0 {
        if q.x <= 0 {
            return Side::Less;
        }
        let before = is_before(p, q, cone);
        if before {
            return Side::Less;
        }
        return Side::More;
    }
    if q.x >= 0 {
        return Side::More;
    }
    if p.x <= 0 {
        return Side::Less;
    }
    let behind = is_before(q, p, cone);
    if behind {
        return Side::Less;
    }
    Side::More
}

/// On which side of the tip along x a triangle is that has no point in the cutter, where no corner
/// comes into it at any position.
fn side_of_edges(a: Corner, b: Corner, c: Corner, cone: Cone) -> Side
    requires a_ok { CornerInRange a }
    requires b_ok { CornerInRange b }
    requires c_ok { CornerInRange c }
    requires cone_ok { IsCone cone }
    requires a_is { IsCornerOf cone a }
    requires b_is { IsCornerOf cone b }
    requires c_is { IsCornerOf cone c }
    requires out { HoldsNone cone (flattened_of a) (flattened_of b) (flattened_of c) }
    requires apart { ¬ TouchesCone cone a b c }
    ensures { IsOnSide result (ConeAt cone a b c) }
{
    if is_seen(a, b, cone) {
        return edge_side(a, b, cone);
    }
    if is_seen(b, c, cone) {
        return edge_side(b, c, cone);
    }
    if is_seen(c, a, cone) {
        return edge_side(c, a, cone);
    }
    Side::Never
}

/// On which side of the tip along x a triangle is that has no point in the cutter.
pub fn side(a: Corner, b: Corner, c: Corner, cone: Cone) -> Side
    requires a_ok { CornerInRange a }
    requires b_ok { CornerInRange b }
    requires c_ok { CornerInRange c }
    requires cone_ok { IsCone cone }
    requires a_is { IsCornerOf cone a }
    requires b_is { IsCornerOf cone b }
    requires c_is { IsCornerOf cone c }
    requires apart { ¬ TouchesCone cone a b c }
    ensures { IsOnSide result (ConeAt cone a b c) }
{
    if is_corner_seen(a, cone) {
        return edge_side(a, b, cone);
    }
    if is_corner_seen(b, cone) {
        return edge_side(b, c, cone);
    }
    if is_corner_seen(c, cone) {
        return edge_side(c, a, cone);
    }
    side_of_edges(a, b, c, cone)
}
