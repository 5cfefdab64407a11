//! The exact contact of a ball cutter and a triangle.
//!
//! It stands on mill_geom, whose cylinder it tries over the sphere's centre, and on mill_base,
//! whose specs/Contact defines a touch. `touch` decides whether some point of a triangle,
//! degenerate ones too, is strictly inside the cutter, and if none is, at which positions along an
//! axis none is (mill_geom's specs/Sides); `is_inside` decides the first alone, at less cost.
//! specs/Spheres, specs/Planes and specs/Vectors define what is compared, specs/Widths how great
//! it can be.
#![tactic(auto)]

ghost use Rattle.std.specs.Prelude.{◌≡◌, ◌<ℤ◌, pos, false, IsTrue, IfSome};
ghost use Rattle.mill_base.specs.Contact.{Touches};
ghost use Rattle.mill_base.specs.Numbers.{Within};
ghost use Rattle.mill_base.specs.Ranges.{TriInRange};
ghost use Rattle.mill_base.specs.Sizes.{HasRadius, IsWideCutter};
ghost use Rattle.mill_base.specs.declared.cutter.Cutter.TheVariants.{Ball};
ghost use Rattle.mill_base.specs.declared.limits.TheConstants.{MAX_WIDE_RADIUS};
ghost use Rattle.mill_geom.specs.Widths.{widest};
ghost use Rattle.mill_geom.specs.Offsets.{IsCentre, OffsetInRange};
ghost use Rattle.mill_geom.specs.Sides.{IsOnSide, IsTouch, along};
ghost use Rattle.mill_contact_ball.specs.Centres.{IsBall};
ghost use Rattle.mill_contact_ball.specs.inner.Spheres.{MeetsAt, MeetsBall};

mod centre;
mod edge;
mod face;
mod gap;
mod meeting;
mod plane;
mod vector;
mod weights;

use crate::centre::offset_from_centre;
use crate::gap::is_box_close;
use crate::meeting::{meets_ball, side_of_ball};
use mill_base::{Cutter, Pt3, Tri};
use mill_geom::{Axis, Offset, Side, Touch, box_side, offset_from, turned};

/// The side of a triangle whose upright box shows it by a few 64-bit comparisons: it isn't over the
/// tip's plane, or keeps off the box of the cylinder of `radius`, in which the cutter lies.
fn side_by_box(tri: &Tri, radius: i32, tip: Pt3, axis: Axis) -> Option<Side>
    requires tri_ok { TriInRange tri.now }
    requires radius_ok { HasRadius radius MAX_WIDE_RADIUS }
    requires tip_ok { IsCentre tip }
    ensures { IfSome result (λ side. IsOnSide side (λ t. Touches (Ball radius) (pos 1) (along axis tip t) tri.now)) }
{
    let a = turned(offset_from(tri.a, tip), axis);
    let b = turned(offset_from(tri.b, tip), axis);
    let c = turned(offset_from(tri.c, tip), axis);
    box_side(a, b, c, i64::from(radius))
}

/// How the triangle lies to the ball about the origin with the cylinder over it, for positions
/// along x.
fn touch_along_x(a: Offset, b: Offset, c: Offset, radius: i64) -> Touch
    requires a_ok { OffsetInRange a }
    requires b_ok { OffsetInRange b }
    requires c_ok { OffsetInRange c }
    requires r_ok { Within widest radius }
    requires r_least { pos 0 <ℤ radius }
    ensures { IsTouch result (MeetsAt radius a b c) }
{
    if meets_ball(a, b, c, radius) {
        return Touch::Inside;
    }
    Touch::Apart(side_of_ball(a, b, c, radius))
}

/// How the triangle lies to the ball cutter of `radius` with its tip at `tip`, for positions along
/// `axis`.
fn touch_ball(tri: &Tri, radius: i32, tip: Pt3, axis: Axis) -> Touch
    requires tri_ok { TriInRange tri.now }
    requires radius_ok { HasRadius radius MAX_WIDE_RADIUS }
    requires tip_ok { IsCentre tip }
    ensures { IsTouch result (λ t. Touches (Ball radius) (pos 1) (along axis tip t) tri.now) }
{
    if let Some(side) = side_by_box(tri, radius, tip, axis) {
        return Touch::Apart(side);
    }
    let a = turned(offset_from_centre(tri.a, tip, radius), axis);
    let b = turned(offset_from_centre(tri.b, tip, radius), axis);
    let c = turned(offset_from_centre(tri.c, tip, radius), axis);
    touch_along_x(a, b, c, i64::from(radius))
}

/// Whether some point of the triangle is strictly inside the ball cutter with its tip at `tip`, and
/// if none is, at which positions of the tip along `axis` none is either.
///
/// The cutter is a ball. Lengths are in units. Corners may be equal or collinear.
pub fn touch(tri: &Tri, cutter: Cutter, tip: Pt3, axis: Axis) -> Touch
    requires tri_ok { TriInRange tri.now }
    requires cutter_ok { IsWideCutter cutter }
    requires shape_ok { IsBall cutter }
    requires tip_ok { IsCentre tip }
    ensures { IsTouch result (λ t. Touches cutter (pos 1) (along axis tip t) tri.now) }
{
    match cutter {
        Cutter::Ball { radius } => touch_ball(tri, radius, tip, axis),
        Cutter::Flat { .. } => unreachable!(),
        Cutter::Cone { .. } => unreachable!(),
    }
}

/// Whether some point of the triangle is in the ball about the origin or in the cylinder over it. Of
/// most triangles none is: their boxes show it.
#[inline(always)]
fn meets_here(a: Offset, b: Offset, c: Offset, radius: i64) -> bool
    requires a_ok { OffsetInRange a }
    requires b_ok { OffsetInRange b }
    requires c_ok { OffsetInRange c }
    requires r_ok { Within widest radius }
    requires r_least { pos 0 <ℤ radius }
    ensures yes { IsTrue result → MeetsBall radius a b c }
    ensures no { result ≡ false → ¬ MeetsBall radius a b c }
{
    if !is_box_close(a, b, c, radius) {
        return false;
    }
    meets_ball(a, b, c, radius)
}

/// Whether some point of the triangle is strictly inside the ball cutter of `radius` with its tip at
/// `tip`.
#[inline(always)]
fn holds_some(tri: &Tri, radius: i32, tip: Pt3) -> bool
    requires tri_ok { TriInRange tri.now }
    requires radius_ok { HasRadius radius MAX_WIDE_RADIUS }
    requires tip_ok { IsCentre tip }
    ensures yes { IsTrue result → Touches (Ball radius) (pos 1) tip tri.now }
    ensures no { result ≡ false → ¬ Touches (Ball radius) (pos 1) tip tri.now }
{
    let a = offset_from_centre(tri.a, tip, radius);
    let b = offset_from_centre(tri.b, tip, radius);
    let c = offset_from_centre(tri.c, tip, radius);
    meets_here(a, b, c, i64::from(radius))
}

/// Whether some point of the triangle is strictly inside the ball cutter with its tip at `tip`.
///
/// The cutter is a ball. Lengths are in units. Corners may be equal or collinear.
#[inline(always)]
pub fn is_inside(tri: &Tri, cutter: Cutter, tip: Pt3) -> bool
    requires tri_ok { TriInRange tri.now }
    requires cutter_ok { IsWideCutter cutter }
    requires shape_ok { IsBall cutter }
    requires tip_ok { IsCentre tip }
    ensures yes { IsTrue result → Touches cutter (pos 1) tip tri.now }
    ensures no { result ≡ false → ¬ Touches cutter (pos 1) tip tri.now }
{
    match cutter {
        Cutter::Ball { radius } => holds_some(tri, radius, tip),
        Cutter::Flat { .. } => unreachable!(),
        Cutter::Cone { .. } => unreachable!(),
    }
}
