//! What a program's number is in units of the grid.
ghost use Rattle.std.specs.Prelude.{◌≡◌, ◌≤◌, ◌+◌, ◌*◌, ◌^◌};
ghost use Rattle.mill_base.specs.Numbers.{Within};
ghost use Rattle.mill_words.specs.Words.{FitsNum};
ghost use Rattle.mill_control.specs.Lengths.{per as per_of, rounded as rounded_of};
ghost use Rattle.mill_control.specs.Lengths.{is_whole as is_whole_of, exact as exact_of};
ghost use Rattle.mill_control.specs.Lengths.{nearest as nearest_of, signed as signed_by};
ghost use Rattle.mill_control.specs.Lengths.{rounded_parts as rounded_parts_of};
ghost use Rattle.mill_control.specs.Rounding.{RoundedIsNear};

use mill_base::Unit;
use mill_words::Num;

/// The unit of a program's lengths (NISTIR 6556, 3.5.7).
#[derive(Clone, Copy)]
pub enum LengthUnit {
    /// Behind `G21` and `G71`.
    Millimetres,
    /// Behind `G20` and `G70`.
    Inches,
}

impl LengthUnit {
    /// So many units of the grid is a length of 1: 100 or 1,000, in inches 2,540 or 25,400.
    pub fn per(self, unit: Unit) -> u64
        ensures value { result ≡ per_of self unit }
        ensures few { result ≤ 25400 }
    {
        match (self, unit) {
            (LengthUnit::Millimetres, Unit::Hundredth) => 100,
            (LengthUnit::Millimetres, Unit::Thousandth) => 1_000,
            (LengthUnit::Inches, Unit::Hundredth) => 2_540,
            (LengthUnit::Inches, Unit::Thousandth) => 25_400,
        }
    }
}

/// A number of lengths, of which 1 is so many units, in units: rounded to the nearest, halves away
/// from zero.
#[tactic(auto, unfolding(crate::specs::Lengths::rounded))]
pub fn rounded(num: Num, per: u64) -> i128
    requires num { FitsNum 18 num }
    requires per { per ≤ 25400 }
    ensures { result ≡ rounded_of per num }
{
    signed(
        num.neg,
        nearest(times(u128::from(num.mant), per), power(num.scale)),
    )
}

/// Whether it is a whole number of units.
#[tactic(auto, unfolding(crate::specs::Lengths::is_whole))]
pub fn is_whole(num: Num, per: u64) -> bool
    requires num { FitsNum 18 num }
    requires per { per ≤ 25400 }
    ensures { result ≡ is_whole_of per num }
{
    times(u128::from(num.mant), per) % power(num.scale) == 0
}

/// The number in parts of 10^18, exactly.
pub fn exact(num: Num) -> i128
    requires { FitsNum 18 num }
    ensures value { result ≡ exact_of num }
    ensures bound { Within (10 ^ 36) result }
{
    signed(num.neg, raised(u128::from(num.mant), power(18 - num.scale)))
}

/// So many parts of 10^18 of lengths in units, rounded in the same way.
#[tactic(auto, unfolding(crate::specs::Lengths::rounded_parts))]
pub(crate) fn rounded_parts(parts: i128, per: u64) -> i128
    requires parts { Within (10 ^ 26) parts }
    requires per { per ≤ 25400 }
    ensures { result ≡ rounded_parts_of per parts }
{
    signed(
        parts < 0,
        nearest(times(parts.unsigned_abs(), per), power(18)),
    )
}

// A number of lengths, or of their parts, in units or parts of these.
#[tactic(auto, using(crate::proofs::Products::times_most))]
pub(crate) fn times(number: u128, per: u64) -> u128
    requires number { number ≤ 10 ^ 26 }
    requires per { per ≤ 25400 }
    ensures value { result ≡ number * per }
    ensures bound { result ≤ 10 ^ 32 }
{
    number * u128::from(per)
}

// A number of 18 digits in parts of 10^18.
#[tactic(auto, using(crate::proofs::Products::raised_most))]
fn raised(number: u128, parts: u128) -> u128
    requires number { number ≤ 10 ^ 18 }
    requires parts { parts ≤ 10 ^ 18 }
    ensures value { result ≡ number * parts }
    ensures bound { result ≤ 10 ^ 36 }
{
    number * parts
}

// A ratio rounded to the nearest whole number, halves up.
#[tactic(auto, using(crate::proofs::Nearest::nearest_most))]
fn nearest(number: u128, parts: u128) -> u128
    requires number { number ≤ 10 ^ 32 }
    requires some { 1 ≤ parts }
    requires parts { parts ≤ 10 ^ 18 }
    ensures value { result ≡ nearest_of number parts }
    ensures bound { result ≤ number + 1 }
{
    (2 * number + parts) / (2 * parts)
}

#[tactic(auto, using(crate::proofs::Products::ten_most, crate::proofs::Products::ten_least))]
pub(crate) fn power(scale: u8) -> u128
    requires { scale ≤ 18 }
    ensures value { result ≡ 10 ^ scale }
    ensures some { 1 ≤ result }
    ensures bound { result ≤ 10 ^ 18 }
{
    10u128.pow(u32::from(scale))
}

fn signed(neg: bool, magnitude: u128) -> i128
    requires { magnitude ≤ 10 ^ 36 }
    ensures value { result ≡ signed_by neg magnitude }
    ensures bound { Within magnitude result }
{
    let number = magnitude as i128;
    if neg { -number } else { number }
}

/// A law: a rounded number is within half a unit of the number itself.
pub fn rounded_is_near()
    ensures { RoundedIsNear }
{}
