ghost use Rattle.std.specs.Prelude.{◌≡◌, ◌↔◌, ◌+ℤ◌, ◌-ℤ◌, ◌*ℤ◌, ◌≤ℤ◌, ◌<ℤ◌, pos, false, IsTrue};
ghost use Rattle.mill_base.specs.Cutters.{Inside, InFlat, InBall, InCone};
ghost use Rattle.mill_base.specs.Numbers.{square as square_of, Within};
ghost use Rattle.mill_base.specs.Points.{point_at};
ghost use Rattle.mill_base.specs.Sizes.{HasRadius, IsSlope, IsWideCutter};
ghost use Rattle.mill_base.specs.declared.limits.TheConstants.{MAX_WIDE_RADIUS};
ghost use Rattle.mill_shape.specs.Offsets.{offset_of};
ghost use Rattle.mill_shape.specs.Widths.{greatest_denominator, greatest_numerator, length_width};

use crate::arithmetic::{reach, square, square_length, square_sum, times_square};
use mill_base::Cutter;

/// Whether a point is strictly inside the cutter: the point at the offset `d` over the denominator
/// `n` from the tip, which is `d[0] / n`, `d[1] / n` and `d[2] / n` units in x, y and z.
pub fn inside(cutter: Cutter, n: i64, d: [i64; 3]) -> bool
    requires cutter_ok { IsWideCutter cutter }
    requires n_least { pos 1 ≤ℤ n }
    requires n_most { n ≤ℤ pos greatest_denominator }
    requires x_ok { Within greatest_numerator (offset_of d).x }
    requires y_ok { Within greatest_numerator (offset_of d).y }
    requires z_ok { Within greatest_numerator (offset_of d).z }
    ensures { IsTrue result ↔ Inside cutter n (offset_of d) }
{
    let [x, y, z] = d;
    match cutter {
        Cutter::Flat { radius } => in_flat(radius, n, x, y, z),
        Cutter::Ball { radius } => in_ball(radius, n, x, y, z),
        Cutter::Cone { radius, rise, run } => in_cone(radius, rise, run, n, x, y, z),
    }
}

/// Whether the offset (x, y) over `n` is nearer to the axis than the radius.
fn is_near(radius: i32, n: i64, x: i64, y: i64) -> bool
    requires radius_ok { HasRadius radius MAX_WIDE_RADIUS }
    requires n_least { pos 1 ≤ℤ n }
    requires n_most { n ≤ℤ pos greatest_denominator }
    requires x_ok { Within greatest_numerator x }
    requires y_ok { Within greatest_numerator y }
    ensures yes { IsTrue result → (square_of x +ℤ square_of y) <ℤ (square_of radius *ℤ square_of n) }
    ensures no { result ≡ false → (square_of radius *ℤ square_of n) ≤ℤ (square_of x +ℤ square_of y) }
{
    square_sum(x, y) < square(reach(radius, n))
}

/// Whether the offset is over the tip's plane and nearer to the axis than the radius.
fn in_flat(radius: i32, n: i64, x: i64, y: i64, z: i64) -> bool
    requires radius_ok { HasRadius radius MAX_WIDE_RADIUS }
    requires n_least { pos 1 ≤ℤ n }
    requires n_most { n ≤ℤ pos greatest_denominator }
    requires x_ok { Within greatest_numerator x }
    requires y_ok { Within greatest_numerator y }
    ensures yes { IsTrue result → InFlat radius n (point_at x y z) }
    ensures no { result ≡ false → ¬ InFlat radius n (point_at x y z) }
{
    if z <= 0 {
        return false;
    }
    is_near(radius, n, x, y)
}

/// Whether the offset is nearer to the axis than the radius and over the sphere's centre, or in the
/// sphere, which stands on the tip.
fn in_ball(radius: i32, n: i64, x: i64, y: i64, z: i64) -> bool
    requires radius_ok { HasRadius radius MAX_WIDE_RADIUS }
    requires n_least { pos 1 ≤ℤ n }
    requires n_most { n ≤ℤ pos greatest_denominator }
    requires x_ok { Within greatest_numerator x }
    requires y_ok { Within greatest_numerator y }
    requires z_ok { Within greatest_numerator z }
    ensures yes { IsTrue result → InBall radius n (point_at x y z) }
    ensures no { result ≡ false → ¬ InBall radius n (point_at x y z) }
{
    let height = over_centre(radius, n, z);
    if height >= 0 {
        return is_near(radius, n, x, y);
    }
    in_sphere(radius, n, x, y, height)
}

/// How far the height `z` over `n` is over the sphere's centre.
fn over_centre(radius: i32, n: i64, z: i64) -> i64
    requires radius_ok { HasRadius radius MAX_WIDE_RADIUS }
    requires n_least { pos 1 ≤ℤ n }
    requires n_most { n ≤ℤ pos greatest_denominator }
    requires z_ok { Within greatest_numerator z }
    ensures value { result ≡ z -ℤ radius *ℤ n }
    ensures bound { Within length_width result }
{
    z - reach(radius, n)
}

/// Whether the offset (x, y, z) over `n` from the sphere's centre is shorter than the radius.
fn in_sphere(radius: i32, n: i64, x: i64, y: i64, z: i64) -> bool
    requires radius_ok { HasRadius radius MAX_WIDE_RADIUS }
    requires n_least { pos 1 ≤ℤ n }
    requires n_most { n ≤ℤ pos greatest_denominator }
    requires x_ok { Within greatest_numerator x }
    requires y_ok { Within greatest_numerator y }
    requires z_ok { Within length_width z }
    ensures yes { IsTrue result → ((square_of x +ℤ square_of y) +ℤ square_of z) <ℤ (square_of radius *ℤ square_of n) }
    ensures no { result ≡ false → (square_of radius *ℤ square_of n) ≤ℤ ((square_of x +ℤ square_of y) +ℤ square_of z) }
{
    square_length(x, y, z) < square(reach(radius, n))
}

/// Whether the offset is over the cone's wall, which rises by `rise` over each `run`.
fn is_over_wall(rise: i32, run: i32, x: i64, y: i64, z: i64) -> bool
    requires slope_ok { IsSlope rise run }
    requires x_ok { Within greatest_numerator x }
    requires y_ok { Within greatest_numerator y }
    requires z_ok { Within greatest_numerator z }
    ensures yes { IsTrue result → (square_of rise *ℤ (square_of x +ℤ square_of y)) <ℤ (square_of run *ℤ square_of z) }
    ensures no { result ≡ false → (square_of run *ℤ square_of z) ≤ℤ (square_of rise *ℤ (square_of x +ℤ square_of y)) }
{
    times_square(rise, square_sum(x, y)) < times_square(run, square(z))
}

/// Whether the offset is over the cone's wall and nearer to the axis than the radius.
fn in_cone(radius: i32, rise: i32, run: i32, n: i64, x: i64, y: i64, z: i64) -> bool
    requires radius_ok { HasRadius radius MAX_WIDE_RADIUS }
    requires slope_ok { IsSlope rise run }
    requires n_least { pos 1 ≤ℤ n }
    requires n_most { n ≤ℤ pos greatest_denominator }
    requires x_ok { Within greatest_numerator x }
    requires y_ok { Within greatest_numerator y }
    requires z_ok { Within greatest_numerator z }
    ensures yes { IsTrue result → InCone radius rise run n (point_at x y z) }
    ensures no { result ≡ false → ¬ InCone radius rise run n (point_at x y z) }
{
    if !is_over_wall(rise, run, x, y, z) {
        return false;
    }
    in_flat(radius, n, x, y, z)
}
