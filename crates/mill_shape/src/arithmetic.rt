ghost use Rattle.std.specs.Prelude.{◌≡◌, ◌+ℤ◌, ◌*ℤ◌, ◌≤ℤ◌, pos};
ghost use Rattle.mill_base.specs.Numbers.{square as square_of, Within};
ghost use Rattle.mill_base.specs.Sizes.{HasRadius};
ghost use Rattle.mill_base.specs.declared.limits.TheConstants.{MAX_WIDE_RADIUS};
ghost use Rattle.mill_shape.specs.Widths.{greatest_denominator, reach_width, length_width, square_width, sum_width, wall_width};

/// The radius over the denominator `n`.
pub fn reach(radius: i32, n: i64) -> i64
    requires radius_ok { HasRadius radius MAX_WIDE_RADIUS }
    requires n_least { pos 1 ≤ℤ n }
    requires n_most { n ≤ℤ pos greatest_denominator }
    ensures value { result ≡ radius *ℤ n }
    ensures bound { Within reach_width result }
{
    i64::from(radius) * n
}

/// The square of `x`.
pub fn square(x: i64) -> i128
    requires { Within length_width x }
    ensures value { result ≡ square_of x }
    ensures bound { Within square_width result }
{
    i128::from(x) * i128::from(x)
}

/// The sum of the squares of `x` and `y`.
pub fn square_sum(x: i64, y: i64) -> i128
    requires x_ok { Within length_width x }
    requires y_ok { Within length_width y }
    ensures value { result ≡ square_of x +ℤ square_of y }
    ensures bound { Within sum_width result }
{
    square(x) + square(y)
}

/// The sum of the squares of `x`, `y` and `z`.
pub fn square_length(x: i64, y: i64, z: i64) -> i128
    requires x_ok { Within length_width x }
    requires y_ok { Within length_width y }
    requires z_ok { Within length_width z }
    ensures value { result ≡ (square_of x +ℤ square_of y) +ℤ square_of z }
    ensures bound { Within sum_width result }
{
    square(x) + square(y) + square(z)
}

/// The product of the square of `factor` and `s`.
pub fn times_square(factor: i32, s: i128) -> i128
    requires factor_ok { Within 100 factor }
    requires s_ok { Within sum_width s }
    ensures value { result ≡ square_of factor *ℤ s }
    ensures bound { Within wall_width result }
{
    i128::from(factor) * i128::from(factor) * s
}
