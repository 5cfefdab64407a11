ghost use Rattle.std.specs.Prelude.{◌≡◌, ◌-ℤ◌, ◌<ℤ◌, pos, false, IsTrue, IfSome, None};
ghost use Rattle.mill_base.specs.Numbers.{Within};
ghost use Rattle.mill_geom.specs.Widths.{farthest, widest};
ghost use Rattle.mill_geom.specs.Offsets.{OffsetInRange, AllFrom, AllTo};
ghost use Rattle.mill_geom.specs.Sides.{IsOnSide, TouchesSlid, IsBoxNear};

use crate::offset::Offset;
use crate::touch::Side;
use crate::triangle::is_over;

/// Whether all three numbers are at least `bound`.
pub fn all_from(a: i64, b: i64, c: i64, bound: i64) -> bool
    requires a_ok { Within farthest a }
    requires b_ok { Within farthest b }
    requires c_ok { Within farthest c }
    requires bound_ok { Within widest bound }
    ensures yes { IsTrue result → AllFrom bound a b c }
    ensures no { result ≡ false → ¬ AllFrom bound a b c }
{
    if a < bound {
        return false;
    }
    if b < bound {
        return false;
    }
    c >= bound
}

/// Whether all three numbers are at most `-bound`.
pub fn all_to(a: i64, b: i64, c: i64, bound: i64) -> bool
    requires a_ok { Within farthest a }
    requires b_ok { Within farthest b }
    requires c_ok { Within farthest c }
    requires bound_ok { Within widest bound }
    ensures yes { IsTrue result → AllTo (pos 0 -ℤ bound) a b c }
    ensures no { result ≡ false → ¬ AllTo (pos 0 -ℤ bound) a b c }
{
    if a > -bound {
        return false;
    }
    if b > -bound {
        return false;
    }
    c <= -bound
}

/// The side of a triangle whose upright box shows it by 64-bit comparisons: it isn't over the level,
/// or keeps off the cylinder's box.
///
/// A ball and a cone lie in the cylinder of their radius over their tip, so the side is theirs, too.
pub fn box_side(a: Offset, b: Offset, c: Offset, radius: i64) -> Option<Side>
    requires a_ok { OffsetInRange a }
    requires b_ok { OffsetInRange b }
    requires c_ok { OffsetInRange c }
    requires r_ok { Within widest radius }
    requires r_least { pos 0 <ℤ radius }
    ensures apart { IfSome result (λ side. IsOnSide side (TouchesSlid radius a b c)) }
    ensures near { result ≡ None → IsBoxNear radius a b c }
{
    if !is_over(a, b, c) {
        return Some(Side::Never);
    }
    if all_from(a.y, b.y, c.y, radius) {
        return Some(Side::Never);
    }
    if all_to(a.y, b.y, c.y, radius) {
        return Some(Side::Never);
    }
    if all_from(a.x, b.x, c.x, radius) {
        return Some(Side::More);
    }
    if all_to(a.x, b.x, c.x, radius) {
        return Some(Side::Less);
    }
    None
}
