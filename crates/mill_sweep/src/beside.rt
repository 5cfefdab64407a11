ghost use Rattle.std.specs.Prelude.{◌≡◌, ◌↔◌, ◌^◌, ◌≤◌, ◌+ℤ◌, pos, IsTrue};
ghost use Rattle.mill_base.specs.Sizes.{IsCutter, radius_of};
ghost use Rattle.mill_base.specs.declared.limits.TheConstants.{MAX_LAST_REACH};
ghost use Rattle.mill_sweep.specs.Apart.{LieApart, LiesBeside};
ghost use Rattle.mill_sweep.specs.Sweeps.{IsStretch};
ghost use Rattle.mill_sweep.specs.Widths.{longest};

use crate::gap::Gap;
use crate::leaf_span::Stretch;
use mill_base::{Cutter, MAX_LAST_REACH, Move, Pt3, Tri};

/// Whether the triangle lies, in x or in y, so far from the whole move that the move passes: beyond
/// the radius by the greatest reach of the leaves at the move's depth, so that none is blocked.
pub(crate) fn is_beside_move(cutter: Cutter, step: &Move, tri: &Tri) -> bool
    requires { IsCutter cutter }
    ensures { IsTrue result ↔ LiesBeside (radius_of cutter +ℤ pos MAX_LAST_REACH) step.now.from step.now.to tri.now }
{
    lies_beside(
        cutter.radius() + MAX_LAST_REACH as i32,
        step.from,
        step.to,
        tri,
    )
}

/// Whether the triangle lies, in x or in y, at least the radius away from the box of the move's two
/// ends.
pub(crate) fn is_beside_box(cutter: Cutter, step: &Move, tri: &Tri) -> bool
    requires { IsCutter cutter }
    ensures { IsTrue result ↔ LiesBeside (radius_of cutter) step.now.from step.now.to tri.now }
{
    lies_beside(cutter.radius(), step.from, step.to, tri)
}

/// Whether the triangle lies, in x, so far from a leaf that each leaf under it passes.
pub(crate) fn is_beside_in_x(cutter: Cutter, x: Stretch, tri: &Tri) -> bool
    requires cutter_ok { IsCutter cutter }
    requires x_ok { IsStretch x }
    ensures { IsTrue result → LieApart ((radius_of cutter +ℤ pos MAX_LAST_REACH) +ℤ pos x.farther) x.middle x.middle tri.now.a.x tri.now.b.x tri.now.c.x }
{
    gap_in_x(leaf_distance(cutter, x.farther), x.middle, tri).is_wide()
}

/// Whether it lies so far from the leaf in y.
pub(crate) fn is_beside_in_y(cutter: Cutter, y: Stretch, tri: &Tri) -> bool
    requires cutter_ok { IsCutter cutter }
    requires y_ok { IsStretch y }
    ensures { IsTrue result → LieApart ((radius_of cutter +ℤ pos MAX_LAST_REACH) +ℤ pos y.farther) y.middle y.middle tri.now.a.y tri.now.b.y tri.now.c.y }
{
    gap_in_y(leaf_distance(cutter, y.farther), y.middle, tri).is_wide()
}

/// How far along an axis a triangle is to be away from the middle of a leaf whose ends are this far
/// from it.
fn leaf_distance(cutter: Cutter, farther: u32) -> i32
    requires cutter_ok { IsCutter cutter }
    requires farther_ok { farther ≤ longest }
    ensures { result ≡ (radius_of cutter +ℤ pos MAX_LAST_REACH) +ℤ pos farther }
{
    cutter.radius() + MAX_LAST_REACH as i32 + farther as i32
}

/// The middle of a leaf and the triangle in x.
fn gap_in_x(distance: i32, middle: i32, tri: &Tri) -> Gap
    ensures { result ≡ record { distance = distance; from = middle; to = middle; a = tri.now.a.x; b = tri.now.b.x; c = tri.now.c.x } }
{
    Gap {
        distance,
        from: middle,
        to: middle,
        a: tri.a.x,
        b: tri.b.x,
        c: tri.c.x,
    }
}

/// The middle of a leaf and the triangle in y.
fn gap_in_y(distance: i32, middle: i32, tri: &Tri) -> Gap
    ensures { result ≡ record { distance = distance; from = middle; to = middle; a = tri.now.a.y; b = tri.now.b.y; c = tri.now.c.y } }
{
    Gap {
        distance,
        from: middle,
        to: middle,
        a: tri.a.y,
        b: tri.b.y,
        c: tri.c.y,
    }
}

/// Whether the triangle lies at least the distance away, in x or in y, from the box of two places.
fn lies_beside(distance: i32, from: Pt3, to: Pt3, tri: &Tri) -> bool
    ensures { IsTrue result ↔ LiesBeside distance from to tri.now }
{
    if x_gap(distance, from, to, tri).is_wide() {
        return true;
    }
    y_gap(distance, from, to, tri).is_wide()
}

/// The two places and the triangle in x.
fn x_gap(distance: i32, from: Pt3, to: Pt3, tri: &Tri) -> Gap
    ensures { result ≡ record { distance = distance; from = from.x; to = to.x; a = tri.now.a.x; b = tri.now.b.x; c = tri.now.c.x } }
{
    Gap {
        distance,
        from: from.x,
        to: to.x,
        a: tri.a.x,
        b: tri.b.x,
        c: tri.c.x,
    }
}

/// The two places and the triangle in y.
fn y_gap(distance: i32, from: Pt3, to: Pt3, tri: &Tri) -> Gap
    ensures { result ≡ record { distance = distance; from = from.y; to = to.y; a = tri.now.a.y; b = tri.now.b.y; c = tri.now.c.y } }
{
    Gap {
        distance,
        from: from.y,
        to: to.y,
        a: tri.a.y,
        b: tri.b.y,
        c: tri.c.y,
    }
}
