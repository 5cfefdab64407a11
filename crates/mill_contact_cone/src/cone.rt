ghost use Rattle.std.specs.Prelude.{◌≡◌, pos, false, IsTrue};
ghost use Rattle.mill_base.specs.Ranges.{TriInRange};
ghost use Rattle.mill_base.specs.Contact.{Touches};
ghost use Rattle.mill_base.specs.Sizes.{HasRadius, IsSlope, IsWideCutter};
ghost use Rattle.mill_base.specs.declared.limits.TheConstants.{MAX_WIDE_RADIUS};
ghost use Rattle.mill_base.specs.declared.cutter.Cutter.TheVariants.{Cone as ConeCutter};
ghost use Rattle.mill_geom.specs.Offsets.{IsCentre};
ghost use Rattle.mill_geom.specs.Sides.{IsTouch, along};
ghost use Rattle.mill_contact_cone.specs.Cones.{IsCone, IsConical, IsCornerOf, CornerInRange, TouchesCone, EdgesFree};
ghost use Rattle.mill_contact_cone.specs.inner.Clears.{HoldsNone};
ghost use Rattle.mill_contact_cone.specs.inner.Positions.{ConeAt};

use crate::clear::{holds_corner, is_clear};
use crate::corner::{Cone, Corner, corner_from, lifted_of, offset_of};
use crate::edge::touches_edge;
use crate::side::side;
use mill_base::{Cutter, Pt3, Tri};
use mill_geom::{Axis, Touch, box_side, is_pierced, touches_on_level};

/// Whether some edge has a point strictly inside the cone cutter, where no corner is.
fn touches_some_edge(a: Corner, b: Corner, c: Corner, cone: Cone) -> bool
    requires a_ok { CornerInRange a }
    requires b_ok { CornerInRange b }
    requires c_ok { CornerInRange c }
    requires cone_ok { IsCone cone }
    requires a_is { IsCornerOf cone a }
    requires b_is { IsCornerOf cone b }
    requires c_is { IsCornerOf cone c }
    requires out { HoldsNone cone a b c }
    ensures yes { IsTrue result → TouchesCone cone a b c }
    ensures no { result ≡ false → EdgesFree cone a b c }
{
    if touches_edge(a, b, cone) {
        return true;
    }
    if touches_edge(b, c, cone) {
        return true;
    }
    touches_edge(c, a, cone)
}

/// Whether some point of the triangle is strictly inside the cone cutter, where no corner is.
#[inline(always)]
fn touches_cone(a: Corner, b: Corner, c: Corner, cone: Cone) -> bool
    requires a_ok { CornerInRange a }
    requires b_ok { CornerInRange b }
    requires c_ok { CornerInRange c }
    requires cone_ok { IsCone cone }
    requires a_is { IsCornerOf cone a }
    requires b_is { IsCornerOf cone b }
    requires c_is { IsCornerOf cone c }
    requires out { HoldsNone cone a b c }
    ensures yes { IsTrue result → TouchesCone cone a b c }
    ensures no { result ≡ false → ¬ TouchesCone cone a b c }
{
    if is_pierced(offset_of(a), offset_of(b), offset_of(c)) {
        return true;
    }
    if touches_some_edge(a, b, c, cone) {
        return true;
    }
    touches_on_level(lifted_of(a), lifted_of(b), lifted_of(c), cone.radius)
}

/// Whether some point of the triangle is strictly inside the cone cutter, from the box and the corners
/// alone wherever they show it.
#[inline(always)]
fn has_inside(a: Corner, b: Corner, c: Corner, cone: Cone) -> bool
    requires a_ok { CornerInRange a }
    requires b_ok { CornerInRange b }
    requires c_ok { CornerInRange c }
    requires cone_ok { IsCone cone }
    requires a_is { IsCornerOf cone a }
    requires b_is { IsCornerOf cone b }
    requires c_is { IsCornerOf cone c }
    ensures yes { IsTrue result → TouchesCone cone a b c }
    ensures no { result ≡ false → ¬ TouchesCone cone a b c }
{
    if is_clear(a, b, c, cone) {
        return false;
    }
    if holds_corner(a, b, c, cone) {
        return true;
    }
    touches_cone(a, b, c, cone)
}

/// How the triangle lies to the cone cutter, for positions along x.
fn touch_along_x(a: Corner, b: Corner, c: Corner, cone: Cone) -> Touch
    requires a_ok { CornerInRange a }
    requires b_ok { CornerInRange b }
    requires c_ok { CornerInRange c }
    requires cone_ok { IsCone cone }
    requires a_is { IsCornerOf cone a }
    requires b_is { IsCornerOf cone b }
    requires c_is { IsCornerOf cone c }
    ensures { IsTouch result (ConeAt cone a b c) }
{
    if let Some(side) = box_side(offset_of(a), offset_of(b), offset_of(c), cone.radius) {
        return Touch::Apart(side);
    }
    if has_inside(a, b, c, cone) {
        return Touch::Inside;
    }
    Touch::Apart(side(a, b, c, cone))
}

/// How the triangle lies to the cone cutter with its tip at `tip`, for positions along `axis`.
fn touch_cone(tri: &Tri, cone: Cone, tip: Pt3, axis: Axis) -> Touch
    requires tri_ok { TriInRange tri.now }
    requires cone_ok { IsCone cone }
    requires tip_ok { IsCentre tip }
    ensures { IsTouch result (λ t. Touches (ConeCutter cone.radius cone.rise cone.run) (pos 1) (along axis tip t) tri.now) }
{
    let a = corner_from(tri.a, tip, axis, cone);
    let b = corner_from(tri.b, tip, axis, cone);
    let c = corner_from(tri.c, tip, axis, cone);
    touch_along_x(a, b, c, cone)
}

/// The numbers of a cone cutter.
fn cone_of(radius: i32, rise: i32, run: i32) -> Cone
    requires radius_ok { HasRadius radius MAX_WIDE_RADIUS }
    requires slope_ok { IsSlope rise run }
    ensures radius { result.radius ≡ radius }
    ensures rise { result.rise ≡ rise }
    ensures run { result.run ≡ run }
    ensures range { IsCone result }
{
    Cone {
        radius: i64::from(radius),
        rise: i64::from(rise),
        run: i64::from(run),
    }
}

/// Whether some point of the triangle is strictly inside the cone cutter with its tip at `tip`.
#[inline(always)]
fn is_inside_cone(tri: &Tri, cone: Cone, tip: Pt3) -> bool
    requires tri_ok { TriInRange tri.now }
    requires cone_ok { IsCone cone }
    requires tip_ok { IsCentre tip }
    ensures yes { IsTrue result → Touches (ConeCutter cone.radius cone.rise cone.run) (pos 1) tip tri.now }
    ensures no { result ≡ false → ¬ Touches (ConeCutter cone.radius cone.rise cone.run) (pos 1) tip tri.now }
{
    let a = corner_from(tri.a, tip, Axis::X, cone);
    let b = corner_from(tri.b, tip, Axis::X, cone);
    let c = corner_from(tri.c, tip, Axis::X, cone);
    has_inside(a, b, c, cone)
}

/// Whether some point of the triangle is strictly inside the cone cutter with its tip at `tip`.
///
/// The cutter is a cone. Lengths are in units. Corners may be equal or collinear. A few
/// 64-bit operations answer for a triangle whose box is clear of the cutter, and for one of which a
/// corner is inside.
#[inline(always)]
pub fn is_inside(tri: &Tri, cutter: Cutter, tip: Pt3) -> bool
    requires tri_ok { TriInRange tri.now }
    requires cutter_ok { IsWideCutter cutter }
    requires shape_ok { IsConical cutter }
    requires tip_ok { IsCentre tip }
    ensures yes { IsTrue result → Touches cutter (pos 1) tip tri.now }
    ensures no { result ≡ false → ¬ Touches cutter (pos 1) tip tri.now }
{
    match cutter {
        Cutter::Cone { radius, rise, run } => {
            is_inside_cone(tri, cone_of(radius, rise, run), tip)
        }
        Cutter::Flat { .. } => unreachable!(),
        Cutter::Ball { .. } => unreachable!(),
    }
}

/// Whether some point of the triangle is strictly inside the cone cutter with its tip at `tip`, and
/// if none is, at which positions of the tip along `axis` none is either.
///
/// The cutter is a cone. Lengths are in units. Corners may be equal or collinear.
pub fn touch(tri: &Tri, cutter: Cutter, tip: Pt3, axis: Axis) -> Touch
    requires tri_ok { TriInRange tri.now }
    requires cutter_ok { IsWideCutter cutter }
    requires shape_ok { IsConical cutter }
    requires tip_ok { IsCentre tip }
    ensures { IsTouch result (λ t. Touches cutter (pos 1) (along axis tip t) tri.now) }
{
    match cutter {
        Cutter::Cone { radius, rise, run } => {
            touch_cone(tri, cone_of(radius, rise, run), tip, axis)
        }
        Cutter::Flat { .. } => unreachable!(),
        Cutter::Ball { .. } => unreachable!(),
    }
}
