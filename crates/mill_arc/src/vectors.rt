//! Vectors in the plane of an arc, and their products.
ghost use Rattle.std.specs.Prelude.{◌≡◌, ◌^◌, ◌-ℤ◌};
ghost use Rattle.mill_base.specs.Numbers.{Within};
ghost use Rattle.mill_arc.specs.Vectors.{IsNear, ahead as ahead_of, dot as dot_of};

use mill_base::product;

/// A vector along the two axes of an arc's plane, in nanometres.
#[derive(Clone, Copy, Debug, PartialEq, Eq)]
pub struct Vector {
    pub first: i64,
    pub second: i64,
}

/// The product of the lengths of both and of the cosine of the angle between them.
pub(crate) fn dot(a: Vector, b: Vector) -> i128
    requires a_ok { IsNear a }
    requires b_ok { IsNear b }
    ensures value { result ≡ dot_of a b }
    ensures bound { Within (2 ^ 81) result }
{
    product(a.first, b.first) + product(a.second, b.second)
}

/// How far `b` lies ahead of `a` as the arc turns: the product of both lengths and of the sine of
/// the angle from `a` to `b`.
pub(crate) fn ahead(counterclockwise: bool, a: Vector, b: Vector) -> i128
    requires a_ok { IsNear a }
    requires b_ok { IsNear b }
    ensures value { result ≡ ahead_of counterclockwise a b }
    ensures bound { Within (2 ^ 81) result }
{
    if counterclockwise {
        difference(product(a.first, b.second), product(a.second, b.first))
    } else {
        difference(product(a.second, b.first), product(a.first, b.second))
    }
}

fn difference(a: i128, b: i128) -> i128
    requires a_ok { Within (2 ^ 80) a }
    requires b_ok { Within (2 ^ 80) b }
    ensures value { result ≡ a -ℤ b }
    ensures bound { Within (2 ^ 81) result }
{
    a - b
}
