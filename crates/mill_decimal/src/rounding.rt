ghost use Rattle.std.specs.Prelude.{◌≡◌, ◌+◌, ◌*◌, ◌/◌, ◌%◌, ◌==◌, ◌<◌, ◌≤◌, ◌^◌, IfSome};
ghost use Rattle.mill_base.specs.Units.{greatest_of};
ghost use Rattle.mill_decimal.specs.Decimals.{nearest as nearest_to, is_whole as is_whole_number, in_range as units_in_range};

use mill_base::Unit;

/// The mantissa times ten to the power, rounded to the nearest whole number, halves up, if that is
/// in range.
#[tactic(auto, using(crate::proofs::Powers::nearest_raised, crate::proofs::Powers::nearest_lowered))]
pub fn nearest(mantissa: u128, power: i32, unit: Unit) -> Option<u32>
    requires { mantissa < 10 ^ 24 }
    ensures value { result ≡ units_in_range unit (nearest_to mantissa power) }
    ensures in_range { IfSome result (λ n. n ≤ greatest_of unit) }
{
    let places = power.unsigned_abs();
    if power < 0 {
        return divided(mantissa, places, unit);
    }
    multiplied(mantissa, places, unit)
}

// The mantissa with this many zeros behind it, if that is in range.
fn multiplied(mantissa: u128, zeros: u32, unit: Unit) -> Option<u32>
    requires { mantissa < 10 ^ 24 }
    ensures value { result ≡ units_in_range unit (mantissa * 10 ^ zeros) }
    ensures in_range { IfSome result (λ n. n ≤ greatest_of unit) }
{
    if mantissa == 0 {
        return Some(0);
    }
    // Six zeros take any other mantissa out of range.
    if zeros > 5 {
        return None;
    }
    in_range(mantissa * power_of_ten(zeros), unit)
}

// The mantissa without this many digits, rounded, if that is in range.
fn divided(mantissa: u128, places: u32, unit: Unit) -> Option<u32>
    requires { mantissa < 10 ^ 24 }
    ensures value { result ≡ units_in_range unit ((2 * mantissa + 10 ^ places) / (2 * 10 ^ places)) }
    ensures in_range { IfSome result (λ n. n ≤ greatest_of unit) }
{
    // A mantissa of 24 digits is then less than a half.
    if places > 26 {
        return Some(0);
    }
    let divisor = power_of_ten(places);
    in_range((2 * mantissa + divisor) / (2 * divisor), unit)
}

/// Whether the mantissa times ten to the power is a whole number.
#[tactic(auto, using(crate::proofs::Powers::is_whole_raised, crate::proofs::Powers::is_whole_lowered))]
pub fn is_whole(mantissa: u128, power: i32) -> bool
    requires { mantissa < 10 ^ 24 }
    ensures { result ≡ is_whole_number mantissa power }
{
    if power < 0 {
        return ends_in_zeros(mantissa, power.unsigned_abs());
    }
    true
}

// Whether the last digits of the mantissa are zeros, as many as this.
fn ends_in_zeros(mantissa: u128, zeros: u32) -> bool
    requires { mantissa < 10 ^ 24 }
    ensures { result ≡ (mantissa % 10 ^ zeros == 0) }
{
    // A mantissa of 24 digits ends in no more than 24 zeros, if it isn't zero itself.
    if zeros > 26 {
        return mantissa == 0;
    }
    mantissa % power_of_ten(zeros) == 0
}

fn power_of_ten(exponent: u32) -> u128
    requires { exponent ≤ 26 }
    ensures value { result ≡ 10 ^ exponent }
    ensures low { 0 < result }
    ensures high { result ≤ 10 ^ 26 }
{
    10u128.pow(exponent)
}

/// A power of ten in 64 bits.
pub fn short_power_of_ten(exponent: u32) -> u64
    requires { exponent ≤ 14 }
    ensures value { result ≡ 10 ^ exponent }
    ensures low { 0 < result }
    ensures high { result ≤ 10 ^ 14 }
{
    10u64.pow(exponent)
}

/// The number of units, if the unit has it in range.
pub fn in_range(units: u128, unit: Unit) -> Option<u32>
    ensures value { result ≡ units_in_range unit units }
    ensures in_range { IfSome result (λ n. n ≤ greatest_of unit) }
{
    if units > u128::from(unit.greatest().unsigned_abs()) {
        return None;
    }
    Some(units as u32)
}
