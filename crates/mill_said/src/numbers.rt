//! The values of numbers.
ghost use Rattle.std.specs.Prelude.{◌≡◌, ◌^◌, ◌*◌, ◌≤◌, ◌<◌, ◌*ℤ◌, pos, IfOk};
ghost use Rattle.mill_words.specs.Words.{FitsNum};
ghost use Rattle.mill_base.specs.Numbers.{Within};
ghost use Rattle.mill_base.specs.Units.{places_of, greatest_of};
ghost use Rattle.mill_said.specs.Numbers.{whole_of as whole_number_of};
ghost use Rattle.mill_said.specs.Numbers.{whole_units as whole_units_of};
ghost use Rattle.mill_said.specs.Numbers.{is_over_zero as is_over_zero_number};
ghost use Rattle.mill_said.specs.Numbers.{is_nought as is_nought_number};
ghost use Rattle.mill_said.specs.Numbers.{is_at_or_over as is_at_or_over_height};
ghost use Rattle.mill_said.specs.Numbers.{is_on_grid as is_on_grid_number, axis_units as units_by};
ghost use Rattle.mill_said.specs.Numbers.{signed as signed_by};

use crate::fault::NgcFault;
use mill_base::Unit;
use mill_words::Num;

/// The whole number that a number is, if it is one and isn't less than 0.
#[tactic(auto, unfolding(crate::specs::Numbers::whole_of))]
pub(crate) fn whole_of(num: Num) -> Option<u64>
    requires { FitsNum 18 num }
    ensures { result ≡ whole_number_of num }
{
    let unit = power(num.scale);
    if num.mant % unit != 0 {
        return None;
    }
    if num.neg && num.mant > 0 {
        return None;
    }
    Some(num.mant / unit)
}

/// Whether a number is over 0.
pub fn is_over_zero(num: Num) -> bool
    ensures { result ≡ is_over_zero_number num }
{
    !num.neg && num.mant > 0
}

/// Whether there is no number but 0, or none.
pub fn is_nought(num: Option<Num>) -> bool
    ensures { result ≡ is_nought_number num }
{
    match num {
        Some(num) => num.mant == 0,
        None => true,
    }
}

/// Whether a number of millimetres is at or over a height in units, all of its digits taken.
pub fn is_at_or_over(num: Num, height: i32, unit: Unit) -> bool
    requires { FitsNum 18 num }
    ensures { result ≡ is_at_or_over_height unit height num }
{
    height_parts(height, num.scale) <= parts(num, unit)
}

// A height in units, in parts of a unit of 10^scale.
fn height_parts(height: i32, scale: u8) -> i128
    requires { scale ≤ 18 }
    ensures { result ≡ height *ℤ pos (10 ^ scale) }
{
    i128::from(height) * i128::from(power(scale))
}

// A number of millimetres, in parts of a unit of 10^(its scale).
fn parts(num: Num, unit: Unit) -> i128
    requires { FitsNum 18 num }
    ensures { result ≡ signed_by num.neg (num.mant * 10 ^ places_of unit) }
{
    let parts = i128::from(num.mant) * i128::from(power(unit.places() as u8));
    if num.neg { -parts } else { parts }
}

/// The units of an axis number, on this line.
#[inline(always)]
#[tactic(auto, unfolding(crate::specs::Numbers::axis_units))]
pub fn units_of(line: u64, num: Num, unit: Unit) -> Result<i32, NgcFault>
    requires { FitsNum 18 num }
    ensures value { result ≡ units_by unit line num }
    ensures within { IfOk result (Within (greatest_of unit)) }
{
    if !is_on_grid(num, unit) {
        return Err(NgcFault::OffGrid { line });
    }
    let units = whole_units(num, unit);
    if units > u128::from(unit.greatest().unsigned_abs()) {
        return Err(NgcFault::OutOfRange { line });
    }
    Ok(signed(num.neg, units as u32))
}

fn is_on_grid(num: Num, unit: Unit) -> bool
    requires { FitsNum 18 num }
    ensures { result ≡ is_on_grid_number unit num }
{
    let places = unit.places() as u8;
    if num.scale <= places {
        return true;
    }
    num.mant % power(num.scale - places) == 0
}

// The number's magnitude in units, without the digits past the unit's places.
fn whole_units(num: Num, unit: Unit) -> u128
    requires { FitsNum 18 num }
    ensures { result ≡ whole_units_of unit num }
{
    let places = unit.places() as u8;
    if num.scale == places {
        return u128::from(num.mant);
    }
    if num.scale <= places {
        return u128::from(num.mant) * u128::from(power(places - num.scale));
    }
    u128::from(num.mant / power(num.scale - places))
}

/// A power of ten.
pub(crate) fn power(scale: u8) -> u64
    requires { scale ≤ 18 }
    ensures value { result ≡ 10 ^ scale }
    ensures some { 0 < result }
{
    10u64.pow(u32::from(scale))
}

/// The number of this magnitude, less than 0 or not.
pub fn signed(neg: bool, units: u32) -> i32
    requires { units < 2 ^ 31 }
    ensures value { result ≡ signed_by neg units }
    ensures within { Within units result }
{
    let number = units as i32;
    if neg { -number } else { number }
}
