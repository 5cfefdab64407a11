ghost use Rattle.std.specs.Prelude.{◌≡◌, ◌^◌, ◌*◌, ◌+ℤ◌, ◌-ℤ◌, ◌*ℤ◌, ◌≤ℤ◌, pos};
ghost use Rattle.mill_base.specs.Numbers.{square as square_of, Within};

/// How far `a` is over `b`.
pub fn offset(a: i32, b: i32) -> i64
    ensures value { result ≡ a -ℤ b }
    ensures bound { Within (2 ^ 32) result }
{
    i64::from(a) - i64::from(b)
}

/// The square of `x`.
pub fn square(x: i64) -> i128
    requires { Within (2 ^ 40) x }
    ensures value { result ≡ square_of x }
    ensures low { pos 0 ≤ℤ result }
    ensures bound { Within (2 ^ 80) result }
{
    i128::from(x) * i128::from(x)
}

/// The sum of the squares of `x` and `y`.
pub fn square_sum(x: i64, y: i64) -> i128
    requires x_ok { Within (2 ^ 40) x }
    requires y_ok { Within (2 ^ 40) y }
    ensures value { result ≡ square_of x +ℤ square_of y }
    ensures low { pos 0 ≤ℤ result }
    ensures bound { Within (2 ^ 81) result }
{
    square(x) + square(y)
}

/// The product of `a` and `b`.
pub fn product(a: i64, b: i64) -> i128
    requires a_ok { Within (2 ^ 40) a }
    requires b_ok { Within (2 ^ 40) b }
    ensures value { result ≡ a *ℤ b }
    ensures bound { Within (2 ^ 80) result }
{
    i128::from(a) * i128::from(b)
}
