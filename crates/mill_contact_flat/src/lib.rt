//! The exact contact of a flat cutter and a triangle.
//!
//! It stands on mill_geom, which tests the triangle's offsets from the tip against the cutter's
//! cylinder, and on mill_base, whose specs/Contact defines a touch. `touch` decides whether some
//! point of the triangle is strictly inside a flat cutter, and if none is, at which positions along
//! an axis none is either; mill_geom's specs/Sides says what its answers mean. `is_inside` decides
//! the first alone, at less cost. specs/Flats says which cutters these are.
#![tactic(auto)]

ghost use Rattle.std.specs.Prelude.{◌≡◌, ◌↔◌, ◌+ℤ◌, ◌*ℤ◌, ◌<ℤ◌, pos, false, IsTrue};
ghost use Rattle.mill_base.specs.Contact.{Touches};
ghost use Rattle.mill_base.specs.Numbers.{Within};
ghost use Rattle.mill_base.specs.Ranges.{TriInRange};
ghost use Rattle.mill_base.specs.Sizes.{HasRadius, IsWideCutter};
ghost use Rattle.mill_base.specs.declared.cutter.Cutter.TheVariants.{Flat};
ghost use Rattle.mill_base.specs.declared.limits.TheConstants.{MAX_WIDE_RADIUS};
ghost use Rattle.mill_geom.specs.Widths.{widest, most_area};
ghost use Rattle.mill_geom.specs.Contacts.{TouchesTriangle};
ghost use Rattle.mill_geom.specs.Offsets.{IsCentre, OffsetInRange};
ghost use Rattle.mill_geom.specs.Sides.{IsTouch, TouchesSlid, along};
ghost use Rattle.mill_contact_flat.specs.Flats.{IsFlat, IsCornerInside};

use mill_base::{Cutter, Pt3, Tri};
use mill_geom::{
    Axis, Offset, Touch, box_gap, box_side, highest, offset_from, side, touches_triangle, turned,
};

/// How the triangle lies to the cylinder of `radius` over the level, for positions along x.
fn touch_along_x(a: Offset, b: Offset, c: Offset, radius: i64) -> Touch
    requires a_ok { OffsetInRange a }
    requires b_ok { OffsetInRange b }
    requires c_ok { OffsetInRange c }
    requires r_ok { Within widest radius }
    requires r_least { pos 0 <ℤ radius }
    ensures { IsTouch result (TouchesSlid radius a b c) }
{
    if let Some(side) = box_side(a, b, c, radius) {
        return Touch::Apart(side);
    }
    if touches_triangle(a, b, c, radius) {
        return Touch::Inside;
    }
    Touch::Apart(side(a, b, c, radius))
}

/// How the triangle lies to the flat cutter of `radius` with its tip at `tip`, for positions along
/// `axis`.
fn touch_flat(tri: &Tri, radius: i32, tip: Pt3, axis: Axis) -> Touch
    requires tri_ok { TriInRange tri.now }
    requires radius_ok { HasRadius radius MAX_WIDE_RADIUS }
    requires tip_ok { IsCentre tip }
    ensures { IsTouch result (λ t. Touches (Flat radius) (pos 1) (along axis tip t) tri.now) }
{
    let a = turned(offset_from(tri.a, tip), axis);
    let b = turned(offset_from(tri.b, tip), axis);
    let c = turned(offset_from(tri.c, tip), axis);
    touch_along_x(a, b, c, i64::from(radius))
}

/// Whether some point of the triangle is strictly inside the flat cutter with its tip at `tip`, and
/// if none is, at which positions of the tip along `axis` none is either.
///
/// The cutter is a flat. Lengths are in units. Corners may be equal or collinear.
pub fn touch(tri: &Tri, cutter: Cutter, tip: Pt3, axis: Axis) -> Touch
    requires tri_ok { TriInRange tri.now }
    requires cutter_ok { IsWideCutter cutter }
    requires shape_ok { IsFlat cutter }
    requires tip_ok { IsCentre tip }
    ensures { IsTouch result (λ t. Touches cutter (pos 1) (along axis tip t) tri.now) }
{
    match cutter {
        Cutter::Flat { radius } => touch_flat(tri, radius, tip, axis),
        Cutter::Ball { .. } => unreachable!(),
        Cutter::Cone { .. } => unreachable!(),
    }
}

/// Whether the corner is nearer to the axis than the radius.
fn is_near(p: Offset, radius: i64) -> bool
    requires p_ok { OffsetInRange p }
    requires r_ok { Within widest radius }
    ensures { IsTrue result ↔ ((p.x *ℤ p.x +ℤ p.y *ℤ p.y) <ℤ (radius *ℤ radius)) }
{
    p.x * p.x + p.y * p.y < radius * radius
}

/// Whether the corner is nearer to the axis than the radius, and over the level.
fn is_corner_inside(p: Offset, radius: i64) -> bool
    requires p_ok { OffsetInRange p }
    requires r_ok { Within widest radius }
    ensures yes { IsTrue result → IsCornerInside radius p }
    ensures no { result ≡ false → ¬ IsCornerInside radius p }
{
    if p.z <= 0 {
        return false;
    }
    is_near(p, radius)
}

/// Whether some point of a triangle whose upright box is near the cylinder's is nearer to the axis
/// than the radius and over the level: the corners first, by 64-bit products.
fn touches_near(a: Offset, b: Offset, c: Offset, radius: i64) -> bool
    requires a_ok { OffsetInRange a }
    requires b_ok { OffsetInRange b }
    requires c_ok { OffsetInRange c }
    requires r_ok { Within widest radius }
    requires r_least { pos 0 <ℤ radius }
    ensures yes { IsTrue result → TouchesTriangle radius a b c }
    ensures no { result ≡ false → ¬ TouchesTriangle radius a b c }
{
    if is_corner_inside(a, radius) {
        return true;
    }
    if is_corner_inside(b, radius) {
        return true;
    }
    if is_corner_inside(c, radius) {
        return true;
    }
    touches_triangle(a, b, c, radius)
}

/// Whether the square of a distance is less than the radius's.
fn is_less(gap: i64, radius: i64) -> bool
    requires gap_ok { Within most_area gap }
    requires r_ok { Within widest radius }
    ensures { IsTrue result ↔ (gap <ℤ (radius *ℤ radius)) }
{
    gap < radius * radius
}

/// Whether some point of the triangle is nearer to the axis than the radius and over the level. Most
/// triangles aren't: their boxes show it.
#[inline(always)]
fn touches_here(a: Offset, b: Offset, c: Offset, radius: i64) -> bool
    requires a_ok { OffsetInRange a }
    requires b_ok { OffsetInRange b }
    requires c_ok { OffsetInRange c }
    requires r_ok { Within widest radius }
    requires r_least { pos 0 <ℤ radius }
    ensures yes { IsTrue result → TouchesTriangle radius a b c }
    ensures no { result ≡ false → ¬ TouchesTriangle radius a b c }
{
    if highest(a, b, c) <= 0 {
        return false;
    }
    if !is_less(box_gap(a, b, c), radius) {
        return false;
    }
    touches_near(a, b, c, radius)
}

/// Whether some point of the triangle is strictly inside the flat cutter of `radius` with its tip at
/// `tip`.
#[inline(always)]
fn is_inside_flat(tri: &Tri, radius: i32, tip: Pt3) -> bool
    requires tri_ok { TriInRange tri.now }
    requires radius_ok { HasRadius radius MAX_WIDE_RADIUS }
    requires tip_ok { IsCentre tip }
    ensures yes { IsTrue result → Touches (Flat radius) (pos 1) tip tri.now }
    ensures no { result ≡ false → ¬ Touches (Flat radius) (pos 1) tip tri.now }
{
    let a = offset_from(tri.a, tip);
    let b = offset_from(tri.b, tip);
    let c = offset_from(tri.c, tip);
    touches_here(a, b, c, i64::from(radius))
}

/// Whether some point of the triangle is strictly inside the flat cutter with its tip at `tip`.
///
/// The cutter is a flat. Lengths are in units. Corners may be equal or collinear.
#[inline(always)]
pub fn is_inside(tri: &Tri, cutter: Cutter, tip: Pt3) -> bool
    requires tri_ok { TriInRange tri.now }
    requires cutter_ok { IsWideCutter cutter }
    requires shape_ok { IsFlat cutter }
    requires tip_ok { IsCentre tip }
    ensures yes { IsTrue result → Touches cutter (pos 1) tip tri.now }
    ensures no { result ≡ false → ¬ Touches cutter (pos 1) tip tri.now }
{
    match cutter {
        Cutter::Flat { radius } => is_inside_flat(tri, radius, tip),
        Cutter::Ball { .. } => unreachable!(),
        Cutter::Cone { .. } => unreachable!(),
    }
}
