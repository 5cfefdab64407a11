ghost use Rattle.std.specs.Prelude.{◌≡◌, ◌≤ℤ◌, ◌<ℤ◌, pos, false, IsTrue};
ghost use Rattle.mill_base.specs.Contact.{Touches};
ghost use Rattle.mill_base.specs.declared.limits.TheConstants.{MAX_REACH};
ghost use Rattle.mill_base.specs.Points.{highest as highest_of};
ghost use Rattle.mill_base.specs.Ranges.{TriInRange};
ghost use Rattle.mill_base.specs.Sizes.{IsCutter, outer};
ghost use Rattle.mill_sweep.specs.Halving.{Blocks, IsFreeSpan, IsSpan};
ghost use Rattle.mill_sweep.specs.Leaves.{outer_tip};
ghost use Rattle.mill_sweep.specs.Lifted.{IsTipHeight};
ghost use Rattle.mill_sweep.specs.Sweeps.{IsStretch, span_at};

use crate::contact::holds_some;
use crate::leaf::Span;
use crate::leaf_span::{Stretch, span_by};
use mill_base::{Cutter, MAX_REACH, Pt3, Tri};
use mill_shape::widen;

/// Whether no corner of the triangle is higher than `height`.
pub(crate) fn is_no_higher(tri: &Tri, height: i32) -> bool
    ensures yes { IsTrue result → highest_of tri.now ≤ℤ height }
    ensures no { result ≡ false → height <ℤ highest_of tri.now }
{
    highest(tri) <= height
}

/// Whether a leaf passes the triangle by itself: it lies no lower than the triangle's highest point,
/// or its reach is small and its outer cutter holds no point of the triangle.
pub(crate) fn is_free(cutter: Cutter, span: Span, tri: &Tri) -> bool
    requires cutter_ok { IsCutter cutter }
    requires span_ok { IsSpan span }
    requires tri_ok { TriInRange tri.now }
    ensures yes { IsTrue result → IsFreeSpan cutter span tri.now }
    ensures no { result ≡ false → ¬ IsFreeSpan cutter span tri.now }
    ensures blocked { result ≡ false → span.reach ≤ℤ pos MAX_REACH → Blocks cutter span tri.now }
{
    if highest(tri) <= span.zlow {
        return true;
    }
    if span.reach > MAX_REACH as i32 {
        return false;
    }
    !outer_holds_some(cutter, span, tri)
}

/// Whether a leaf that lies so in x and in y passes the triangle by itself, where a corner of the
/// triangle is higher than it.
///
/// Ends that are far from the middle along an axis make the reach great, so no root is taken then.
pub(crate) fn is_free_by(cutter: Cutter, x: Stretch, y: Stretch, zlow: i32, tri: &Tri) -> bool
    requires cutter_ok { IsCutter cutter }
    requires x_ok { IsStretch x }
    requires y_ok { IsStretch y }
    requires zlow_ok { IsTipHeight zlow }
    requires tri_ok { TriInRange tri.now }
    requires higher { zlow <ℤ highest_of tri.now }
    ensures yes { IsTrue result → IsFreeSpan cutter (span_at x y zlow) tri.now }
    ensures no { result ≡ false → ¬ IsFreeSpan cutter (span_at x y zlow) tri.now }
    ensures blocked { result ≡ false → (span_at x y zlow).reach ≤ℤ pos MAX_REACH → Blocks cutter (span_at x y zlow) tri.now }
{
    if x.farther.max(y.farther) > MAX_REACH {
        return false;
    }
    is_free(cutter, span_by(x, y, zlow), tri)
}

/// Whether some point of the triangle is strictly inside the outer cutter of a leaf, where a corner
/// of the triangle is higher than it.
///
/// So the leaf is in range upward, though a solid's tip may leave the range.
fn outer_holds_some(cutter: Cutter, span: Span, tri: &Tri) -> bool
    requires cutter_ok { IsCutter cutter }
    requires span_ok { IsSpan span }
    requires reach_most { span.reach ≤ℤ pos MAX_REACH }
    requires tri_ok { TriInRange tri.now }
    requires higher { span.zlow <ℤ highest_of tri.now }
    ensures yes { IsTrue result → Touches (outer cutter span.reach) (pos 1) (outer_tip cutter span) tri.now }
    ensures no { result ≡ false → ¬ Touches (outer cutter span.reach) (pos 1) (outer_tip cutter span) tri.now }
{
    let (wide, lowered) = widen(cutter, span.reach);
    let tip = Pt3 {
        x: span.x,
        y: span.y,
        z: span.zlow - lowered,
    };
    holds_some(wide, tip, tri)
}

/// The greatest of a triangle's three heights.
fn highest(tri: &Tri) -> i32
    ensures { result ≡ highest_of tri.now }
{
    tri.a.z.max(tri.b.z).max(tri.c.z)
}
