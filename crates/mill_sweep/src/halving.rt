ghost use Rattle.std.specs.Prelude.{◌≡◌, ◌+◌, ◌*◌, ◌^◌, ◌<◌, ◌≤◌, ◌≤ℤ◌, pos, false, IsTrue, MatchOption};
ghost use Rattle.mill_base.specs.Points.{point_tri};
ghost use Rattle.mill_base.specs.Ranges.{IsInRange, MoveInRange, TriInRange};
ghost use Rattle.mill_base.specs.Sizes.{IsCutter};
ghost use Rattle.mill_base.specs.declared.limits.TheConstants.{MAX_REACH, MAX_DEPTH};
ghost use Rattle.mill_sweep.specs.Apart.{low_end_of};
ghost use Rattle.mill_sweep.specs.Halving.{Blocks, FailsUnder, HalvingFailsAt};
ghost use Rattle.mill_sweep.specs.Halving.{HalvingPasses, IsFreeSpan, LeafPasses};
ghost use Rattle.mill_sweep.specs.Leaves.{depth_of, span_of};
ghost use Rattle.mill_sweep.specs.Lifted.{IsLiftedMove};
ghost use Rattle.mill_sweep.specs.Passing.{BoxBlocks, BoxPasses, FailsAt, IsBlocked, Passes};
ghost use Rattle.mill_sweep.specs.Solids.{SolidFailsAt, SolidIsBlocked};
ghost use Rattle.mill_sweep.specs.Solids.{SolidPasses, SolidPassesPoint};
ghost use Rattle.mill_sweep.specs.Sweeps.{IsPrepared, PassesDown};
ghost use Rattle.mill_sweep.specs.inner.Boxes.{BoxFailsAt};

use crate::beside::{is_beside_box, is_beside_in_x, is_beside_in_y, is_beside_move};
use crate::leaf::Leaf;
use crate::leaf_span::{low_end, stretch_in_x, stretch_in_y};
use crate::leaf_test::{is_free, is_free_by, is_no_higher};
use crate::solid::lift;
use crate::sweep::{Prepared, prepare};
use mill_base::{Cutter, Kind, Move, Pt3, Solid, Tri};

/// Whether the solid passes the triangle on the move: halved as often as its depth says, the move
/// of its tip has no leaf that the triangle blocks. A dogleg passes a triangle that lies beside the
/// box of its two ends, or no higher than the lower one.
///
/// A solid that passes holds no point of the triangle strictly inside wherever the tip may be. One
/// that doesn't comes so near to it on a straight move that the outer cutter of a leaf, which is at
/// most 2 wider, holds a point of the triangle. Lengths are in units; coordinates go from -524,287
/// to 524,287, and the solid's tip may leave that range by its lift.
pub fn passes_tri(solid: Solid, step: &Move, tri: &Tri) -> bool
    requires move_ok { MoveInRange step.now }
    requires tri_ok { TriInRange tri.now }
    ensures yes { IsTrue result → SolidPasses solid step.now tri.now }
    ensures no { result ≡ false → ¬ SolidPasses solid step.now tri.now }
{
    first_block(solid, step, tri).is_none()
}

/// Whether the solid passes the point, which is a triangle of three equal corners.
pub fn passes_point(solid: Solid, step: &Move, point: Pt3) -> bool
    requires move_ok { MoveInRange step.now }
    requires point_ok { IsInRange point }
    ensures yes { IsTrue result → SolidPassesPoint solid step.now point }
    ensures no { result ≡ false → ¬ SolidPassesPoint solid step.now point }
{
    passes_tri(solid, step, &triangle_at(point))
}

/// The leaf of the move at which the solid fails to pass the triangle, none exactly where it
/// passes.
///
/// Halving from the whole move on leads to this leaf, each time by the first half that doesn't
/// pass, and the triangle blocks it. That of a dogleg is the whole move. A leaf of the solid's way
/// is one of the tool's, since both are halved at the same moments. Where many triangles are tried
/// against one move, a `Sweep` of it does the same with less work for each.
pub fn first_block(solid: Solid, step: &Move, tri: &Tri) -> Option<Leaf>
    requires move_ok { MoveInRange step.now }
    requires tri_ok { TriInRange tri.now }
    ensures { MatchOption result (SolidPasses solid step.now tri.now) (λ leaf. SolidFailsAt solid step.now tri.now leaf × SolidIsBlocked solid step.now tri.now leaf) }
{
    first_of_tip(solid.cutter(), &lift(solid, step), tri)
}

/// The same of a cutter and a move of its own tip.
fn first_of_tip(cutter: Cutter, step: &Move, tri: &Tri) -> Option<Leaf>
    requires cutter_ok { IsCutter cutter }
    requires move_ok { IsLiftedMove step.now }
    requires tri_ok { TriInRange tri.now }
    ensures { MatchOption result (Passes cutter step.now tri.now) (λ leaf. FailsAt cutter step.now tri.now leaf × IsBlocked cutter step.now tri.now leaf) }
{
    if is_far(cutter, step, tri) {
        return None;
    }
    first_near(&prepare(cutter, step), tri)
}

/// The leaf at which the solid fails to pass the point, none exactly where it passes.
pub fn first_block_point(solid: Solid, step: &Move, point: Pt3) -> Option<Leaf>
    requires move_ok { MoveInRange step.now }
    requires point_ok { IsInRange point }
    ensures { MatchOption result (SolidPassesPoint solid step.now point) (λ leaf. SolidFailsAt solid step.now (point_tri point) leaf × SolidIsBlocked solid step.now (point_tri point) leaf) }
{
    first_block(solid, step, &triangle_at(point))
}

/// The leaf at which a move that is ready fails to pass the triangle, none exactly where it passes.
pub(crate) fn first_on(prepared: &Prepared, tri: &Tri) -> Option<Leaf>
    requires prepared_ok { IsPrepared prepared.now }
    requires tri_ok { TriInRange tri.now }
    ensures { MatchOption result (Passes prepared.now.cutter prepared.now.step tri.now) (λ leaf. FailsAt prepared.now.cutter prepared.now.step tri.now leaf × IsBlocked prepared.now.cutter prepared.now.step tri.now leaf) }
{
    if is_far(prepared.cutter, &prepared.step, tri) {
        return None;
    }
    first_near(prepared, tri)
}

/// The same without a look first at whether the triangle is far away: a dogleg is judged by the box
/// of its two ends, and each other move is halved.
fn first_near(prepared: &Prepared, tri: &Tri) -> Option<Leaf>
    requires prepared_ok { IsPrepared prepared.now }
    requires tri_ok { TriInRange tri.now }
    ensures { MatchOption result (Passes prepared.now.cutter prepared.now.step tri.now) (λ leaf. FailsAt prepared.now.cutter prepared.now.step tri.now leaf × IsBlocked prepared.now.cutter prepared.now.step tri.now leaf) }
{
    match prepared.step.kind {
        Kind::Rapid => first_halved(prepared, tri),
        Kind::Feed => first_halved(prepared, tri),
        Kind::Dogleg => first_by_box(prepared.cutter, &prepared.step, tri),
    }
}

/// The whole move, where a dogleg doesn't pass the triangle: a corner is higher than its lower end,
/// and the triangle lies nearer than the radius to the box of its two ends.
fn first_by_box(cutter: Cutter, step: &Move, tri: &Tri) -> Option<Leaf>
    requires cutter_ok { IsCutter cutter }
    requires move_ok { IsLiftedMove step.now }
    ensures { MatchOption result (BoxPasses cutter step.now tri.now) (λ leaf. BoxFailsAt cutter step.now tri.now leaf × BoxBlocks cutter step.now tri.now) }
{
    if is_no_higher(tri, lower_end(step)) {
        return None;
    }
    if is_beside_box(cutter, step, tri) {
        return None;
    }
    Some(Leaf { d: 0, k: 0 })
}

/// The height of the lower end of the move.
fn lower_end(step: &Move) -> i32
    ensures { result ≡ low_end_of step.now }
{
    step.from.z.min(step.to.z)
}

/// Whether the triangle is no higher than the move's lower end, or lies far beside the whole move:
/// then the move passes it.
fn is_far(cutter: Cutter, step: &Move, tri: &Tri) -> bool
    requires cutter_ok { IsCutter cutter }
    requires move_ok { IsLiftedMove step.now }
    ensures { IsTrue result → Passes cutter step.now tri.now }
{
    if is_no_higher(tri, step.from.z.min(step.to.z)) {
        return true;
    }
    is_beside_move(cutter, step, tri)
}

/// The leaf at which the move fails, found by halving from the whole move on, none where it passes.
fn first_halved(prepared: &Prepared, tri: &Tri) -> Option<Leaf>
    requires prepared_ok { IsPrepared prepared.now }
    requires tri_ok { TriInRange tri.now }
    ensures { MatchOption result (HalvingPasses prepared.now.cutter prepared.now.step tri.now) (λ leaf. HalvingFailsAt prepared.now.cutter prepared.now.step tri.now leaf × Blocks prepared.now.cutter (span_of prepared.now.step leaf.d leaf.k) tri.now) }
{
    first_under(prepared, tri, Leaf { d: 0, k: 0 }, prepared.depth)
}

/// The leaf at which a leaf fails that can be halved `more` times, none where it passes.
///
/// Halving ends early at each leaf that is free, or that lies far beside the triangle.
fn first_under(prepared: &Prepared, tri: &Tri, leaf: Leaf, more: u32) -> Option<Leaf>
    requires prepared_ok { IsPrepared prepared.now }
    requires tri_ok { TriInRange tri.now }
    requires deep { leaf.d + more ≡ depth_of prepared.now.step }
    requires place { leaf.k < 2 ^ leaf.d }
    ensures { MatchOption result (LeafPasses prepared.now.cutter prepared.now.step tri.now more leaf.d leaf.k) (λ at. FailsUnder prepared.now.cutter prepared.now.step tri.now more leaf.d leaf.k at) }
{
    if is_passed(prepared, tri, leaf) {
        return None;
    }
    if more == 0 {
        return Some(leaf);
    }
    if let Some(at) = first_under(prepared, tri, left_half(leaf), more - 1) {
        return Some(at);
    }
    first_under(prepared, tri, right_half(leaf), more - 1)
}

/// Whether a leaf is free, or lies so far beside the triangle that each leaf under it passes.
fn is_passed(prepared: &Prepared, tri: &Tri, leaf: Leaf) -> bool
    requires prepared_ok { IsPrepared prepared.now }
    requires tri_ok { TriInRange tri.now }
    requires d_ok { leaf.d ≤ depth_of prepared.now.step }
    requires k_ok { leaf.k < 2 ^ leaf.d }
    ensures yes { IsTrue result → PassesDown prepared.now.cutter prepared.now.step tri.now leaf.d leaf.k }
    ensures no { result ≡ false → ¬ IsFreeSpan prepared.now.cutter (span_of prepared.now.step leaf.d leaf.k) tri.now }
    ensures blocked { result ≡ false → (span_of prepared.now.step leaf.d leaf.k).reach ≤ℤ pos MAX_REACH → Blocks prepared.now.cutter (span_of prepared.now.step leaf.d leaf.k) tri.now }
{
    if leaf.d == 0 {
        return is_free(prepared.cutter, prepared.whole, tri);
    }
    is_segment_passed(prepared.cutter, &prepared.step, tri, leaf)
}

/// Whether a leaf whose span isn't known yet is free, or lies so far beside the triangle that each
/// leaf under it passes.
///
/// What takes the least is tried first: its lower end, then where it lies in x, and then in y.
fn is_segment_passed(cutter: Cutter, step: &Move, tri: &Tri, leaf: Leaf) -> bool
    requires cutter_ok { IsCutter cutter }
    requires move_ok { IsLiftedMove step.now }
    requires tri_ok { TriInRange tri.now }
    requires d_ok { leaf.d ≤ depth_of step.now }
    requires k_ok { leaf.k < 2 ^ leaf.d }
    ensures yes { IsTrue result → PassesDown cutter step.now tri.now leaf.d leaf.k }
    ensures no { result ≡ false → ¬ IsFreeSpan cutter (span_of step.now leaf.d leaf.k) tri.now }
    ensures blocked { result ≡ false → (span_of step.now leaf.d leaf.k).reach ≤ℤ pos MAX_REACH → Blocks cutter (span_of step.now leaf.d leaf.k) tri.now }
{
    let zlow = low_end(step, leaf);
    if is_no_higher(tri, zlow) {
        return true;
    }
    let x = stretch_in_x(step, leaf);
    if is_beside_in_x(cutter, x, tri) {
        return true;
    }
    let y = stretch_in_y(step, leaf);
    if is_beside_in_y(cutter, y, tri) {
        return true;
    }
    is_free_by(cutter, x, y, zlow, tri)
}

/// The first half of a leaf's moments.
fn left_half(leaf: Leaf) -> Leaf
    requires d_ok { leaf.d < MAX_DEPTH }
    requires k_ok { leaf.k < 2 ^ leaf.d }
    ensures d { result.d ≡ leaf.d + 1 }
    ensures k { result.k ≡ 2 * leaf.k }
    ensures place { result.k < 2 ^ result.d }
{
    Leaf {
        d: leaf.d + 1,
        k: 2 * leaf.k,
    }
}

/// The second half of a leaf's moments.
fn right_half(leaf: Leaf) -> Leaf
    requires d_ok { leaf.d < MAX_DEPTH }
    requires k_ok { leaf.k < 2 ^ leaf.d }
    ensures d { result.d ≡ leaf.d + 1 }
    ensures k { result.k ≡ 2 * leaf.k + 1 }
    ensures place { result.k < 2 ^ result.d }
{
    Leaf {
        d: leaf.d + 1,
        k: 2 * leaf.k + 1,
    }
}

/// The triangle whose three corners are the point.
pub(crate) fn triangle_at(point: Pt3) -> Tri
    ensures { result ≡ record { a = point; b = point; c = point } }
{
    Tri {
        a: point,
        b: point,
        c: point,
    }
}
