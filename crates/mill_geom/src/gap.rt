ghost use Rattle.std.specs.Prelude.{◌≡◌, ◌^◌, ◌+ℤ◌, ◌≤ℤ◌, pos};
ghost use Rattle.mill_base.specs.Numbers.{Within, square, lesser, greater};
ghost use Rattle.mill_geom.specs.Widths.{most_area, farthest};
ghost use Rattle.mill_geom.specs.Offsets.{OffsetInRange};
ghost use Rattle.mill_geom.specs.Gaps.{gap_of, box_gap_of, highest_of, AllApart, AllUpTo};

use crate::offset::Offset;

/// The least of three numbers.
fn least(a: i64, b: i64, c: i64) -> i64
    requires a_ok { Within farthest a }
    requires b_ok { Within farthest b }
    requires c_ok { Within farthest c }
    ensures value { result ≡ lesser a (lesser b c) }
    ensures bound { Within farthest result }
{
    a.min(b.min(c))
}

/// The greatest of three numbers.
fn most(a: i64, b: i64, c: i64) -> i64
    requires a_ok { Within farthest a }
    requires b_ok { Within farthest b }
    requires c_ok { Within farthest c }
    ensures value { result ≡ greater a (greater b c) }
    ensures bound { Within farthest result }
{
    a.max(b.max(c))
}

/// How far 0 is from the numbers between the least and the greatest of three; 0 where it is one of
/// them.
fn gap(a: i64, b: i64, c: i64) -> i64
    requires a_ok { Within farthest a }
    requires b_ok { Within farthest b }
    requires c_ok { Within farthest c }
    ensures value { result ≡ gap_of a b c }
    ensures bound { Within farthest result }
{
    let low = least(a, b, c);
    let high = most(a, b, c);
    low.max(-high).max(0)
}

/// The sum of the squares of two distances.
fn square_sum(x: i64, y: i64) -> i64
    requires x_ok { Within farthest x }
    requires y_ok { Within farthest y }
    ensures value { result ≡ square x +ℤ square y }
    ensures bound { Within most_area result }
{
    x * x + y * y
}

/// The square of the axis's distance in x and y from the upright box of the triangle: no point of
/// the triangle is nearer to the axis. It is 0 where the axis goes through the box.
pub fn box_gap(a: Offset, b: Offset, c: Offset) -> i64
    requires a_ok { OffsetInRange a }
    requires b_ok { OffsetInRange b }
    requires c_ok { OffsetInRange c }
    ensures value { result ≡ box_gap_of a b c }
    ensures apart { AllApart result a b c }
    ensures least { pos 0 ≤ℤ result }
    ensures bound { Within most_area result }
{
    square_sum(gap(a.x, b.x, c.x), gap(a.y, b.y, c.y))
}

/// The greatest height of the corners: no point of the triangle is higher.
pub fn highest(a: Offset, b: Offset, c: Offset) -> i64
    requires a_ok { OffsetInRange a }
    requires b_ok { OffsetInRange b }
    requires c_ok { OffsetInRange c }
    ensures value { result ≡ highest_of a b c }
    ensures under { AllUpTo result a b c }
    ensures bound { Within farthest result }
{
    most(a.z, b.z, c.z)
}
