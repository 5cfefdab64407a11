//! A program's own numbers, before they are rounded: in parts of 10^18 of a unit, in which each of
//! them is whole.
ghost use Rattle.std.specs.Prelude.{◌≡◌, ◌≤◌, ◌*◌, ◌^◌, ◌-◌, ◌-ℤ◌, ◌*ℤ◌, pos, neg_ℤ, nat_abs};
ghost use Rattle.std.specs.Prelude.{true, if◌then◌else◌};
ghost use Rattle.mill_base.specs.Numbers.{Within, greater};
ghost use Rattle.mill_base.specs.Units.{greatest_of};
ghost use Rattle.mill_words.specs.Words.{FitsNum};
ghost use Rattle.mill_control.specs.Lengths.{nearest};
ghost use Rattle.mill_control.specs.Unrounded.{finer as finer_of, text_of, text_units};
ghost use Rattle.mill_control.specs.Unrounded.{is_nano as is_nano_of, nano_of};
ghost use Rattle.mill_control.specs.Unrounded.{nano_parts as nano_parts_of};
ghost use Rattle.mill_control.specs.Unrounded.{nano_units as nano_units_of};

use crate::lengths::{power, times};
use mill_base::Unit;
use mill_words::Num;

/// A coordinate by the program's own number.
#[derive(Clone, Copy)]
pub struct Coordinate {
    /// The number rounded to units of the grid.
    pub units: i32,
    /// What it has beside them, in parts of 10^18 of a unit: at most half a unit.
    pub finer: i64,
}

impl Coordinate {
    /// Whether the coordinate is a whole number of nanometres.
    pub fn is_nano(self, unit: Unit) -> bool
        ensures { result ≡ is_nano_of unit (text_of self) }
    {
        is_nano(self.finer, unit)
    }

    /// The coordinate in nanometres, of which it is a whole number: under 1,310.72 mm.
    pub fn nano(self, unit: Unit) -> i64
        requires whole { is_nano_of unit (text_of self) ≡ true }
        requires units { Within (greatest_of unit) self.units }
        requires finer { Within (5 * 10 ^ 17) self.finer }
        ensures value { result ≡ nano_of unit (text_of self) }
        ensures exact { result *ℤ pos (nano_parts_of unit) ≡ text_of self }
        ensures bound { Within (2 ^ 17 * 10 ^ 4) result }
    {
        units_nano(self.units, unit) + finer_nano(self.finer, unit)
    }
}

/// The higher of two coordinates. Its units are the greater ones, too.
pub fn higher(one: Coordinate, other: Coordinate) -> Coordinate
    requires one { Within (5 * 10 ^ 17) one.finer }
    requires other { Within (5 * 10 ^ 17) other.finer }
    ensures text { text_of result ≡ greater (text_of one) (text_of other) }
    ensures units { result.units ≡ greater one.units other.units }
    ensures finer { Within (5 * 10 ^ 17) result.finer }
{
    if one.units < other.units || (one.units == other.units && one.finer < other.finer) {
        return other;
    }
    one
}

/// What a number of lengths, of which 1 is so many units, has beside its rounded units, in parts of
/// 10^18 of a unit.
pub fn finer(num: Num, per: u64) -> i64
    requires num { FitsNum 18 num }
    requires per { per ≤ 25400 }
    ensures value { result ≡ finer_of per num }
    ensures bound { Within (5 * 10 ^ 17) result }
{
    let beside = beside(times(u128::from(num.mant), per), power(num.scale));
    signed(num.neg, raised(beside, num.scale))
}

/// Whether such a number, of any size, is a whole number of nanometres.
pub fn is_nano_number(num: Num, per: u64, unit: Unit) -> bool
    requires num { FitsNum 18 num }
    requires per { per ≤ 25400 }
    ensures { result ≡ is_nano_of unit (text_units per num) }
{
    is_nano(finer(num, per), unit)
}

// What a ratio has beside the nearest whole number, in parts of 1.
fn beside(number: u128, parts: u128) -> i64
    requires some { 1 ≤ parts }
    requires parts { parts ≤ 10 ^ 18 }
    ensures value { result ≡ pos number -ℤ pos (parts * nearest number parts) }
    ensures half { 2 * nat_abs result ≤ parts }
{
    let rest = (number % parts) as i64;
    let whole = parts as i64;
    if 2 * rest < whole { rest } else { rest - whole }
}

// What has so many decimals and is at most a half, in parts of 10^18.
fn raised(beside: i64, scale: u8) -> i64
    requires scale { scale ≤ 18 }
    requires half { 2 * nat_abs beside ≤ 10 ^ scale }
    ensures value { result ≡ beside *ℤ pos (10 ^ (18 - scale)) }
    ensures bound { Within (5 * 10 ^ 17) result }
{
    beside * power(18 - scale) as i64
}

fn signed(neg: bool, parts: i64) -> i64
    requires { Within (5 * 10 ^ 17) parts }
    ensures value { result ≡ (if neg then neg_ℤ parts else parts) }
    ensures bound { Within (5 * 10 ^ 17) result }
{
    if neg { -parts } else { parts }
}

// So many parts are a whole number of nanometres.
fn is_nano(parts: i64, unit: Unit) -> bool
    ensures { result ≡ is_nano_of unit parts }
{
    parts.unsigned_abs() % nano_parts(unit) == 0
}

// A whole number of nanometres that is at most half a unit.
fn finer_nano(parts: i64, unit: Unit) -> i64
    requires whole { is_nano_of unit parts ≡ true }
    requires parts { Within (5 * 10 ^ 17) parts }
    ensures exact { result *ℤ pos (nano_parts_of unit) ≡ parts }
    ensures bound { Within 5000 result }
{
    let nano = nano_parts(unit) as i64;
    parts / nano
}

fn units_nano(units: i32, unit: Unit) -> i64
    requires { Within (greatest_of unit) units }
    ensures value { result ≡ units *ℤ pos (nano_units_of unit) }
    ensures bound { Within (131071 * 10 ^ 4) result }
{
    i64::from(units) * nano_units(unit)
}

// So many parts of a unit is a nanometre.
fn nano_parts(unit: Unit) -> u64
    ensures { result ≡ nano_parts_of unit }
{
    match unit {
        Unit::Hundredth => 100_000_000_000_000,
        Unit::Thousandth => 1_000_000_000_000_000,
    }
}

// So many nanometres has a unit.
fn nano_units(unit: Unit) -> i64
    ensures { result ≡ pos (nano_units_of unit) }
{
    match unit {
        Unit::Hundredth => 10_000,
        Unit::Thousandth => 1_000,
    }
}
