ghost use Rattle.std.specs.Prelude.{◌≡◌, ◌+◌, ◌<◌, ◌≤◌, ◌^◌, ◌++◌, length, IfOk, IfSome, pos, ◌+ℤ◌, ◌-ℤ◌};
ghost use Rattle.std.specs.Str.Parse.{AllDigits, digits_value};
ghost use Rattle.mill_base.specs.Numbers.{Within};
ghost use Rattle.mill_base.specs.Units.{places_of};
ghost use Rattle.mill_decimal.specs.Spelling.{fraction_of, after_fraction, scaled_digits as scaled_from, scaled_by as scaled_if_few, scaled_of as scaled_in};

use crate::digits::{split_digits, split_sign, value_after};
use crate::exponent::exponent_of;
use crate::fault::DecFault;
use mill_base::Unit;

/// The most digits of a mantissa.
const MOST_DIGITS: usize = 24;

/// The units of a decimal: the mantissa times ten to the power, with a sign.
#[derive(Clone, Copy, Debug, PartialEq, Eq)]
pub struct Scaled {
    pub negative: bool,
    pub mantissa: u128,
    pub power: i32,
}

/// The units of a text that is spelled as a decimal of at most 24 digits.
#[tactic(auto, unfolding(crate::specs::Spelling::scaled_of))]
pub fn scaled_of(text: &[u8], unit: Unit) -> Result<Scaled, DecFault>
    ensures value { result ≡ scaled_in unit text.now }
    ensures bound { IfOk result (λ s. s.mantissa < 10 ^ 24) }
{
    let (negative, rest) = split_sign(text);
    let (whole, rest) = split_digits(rest);
    let (fraction, rest) = split_fraction(rest);
    scaled_by(negative, whole, fraction, exponent_of(rest), unit)
}

// The digits behind the point, and what stands behind them.
fn split_fraction(text: &[u8]) -> (&[u8], &[u8])
    ensures front { result.0.now ≡ fraction_of text.now }
    ensures rest { result.1.now ≡ after_fraction text.now }
    ensures digits { AllDigits 10 result.0.now }
{
    match text {
        [b'.', rest @ ..] => split_digits(rest),
        _ => (&text[..0], text),
    }
}

fn scaled_by(
    negative: bool,
    whole: &[u8],
    fraction: &[u8],
    exponent: Option<i32>,
    unit: Unit,
) -> Result<Scaled, DecFault>
    requires whole { AllDigits 10 whole.now }
    requires fraction { AllDigits 10 fraction.now }
    requires exponent { IfSome exponent (λ e. Within 999 e) }
    ensures value { result ≡ scaled_if_few unit negative whole.now fraction.now exponent }
    ensures bound { IfOk result (λ s. s.mantissa < 10 ^ 24) }
{
    match exponent {
        None => Err(DecFault::Spelling),
        Some(exponent) => {
            if whole.is_empty() && fraction.is_empty() {
                return Err(DecFault::Spelling);
            }
            if whole.len() > MOST_DIGITS || fraction.len() > MOST_DIGITS - whole.len() {
                return Err(DecFault::TooManyDigits);
            }
            Ok(scaled_digits(negative, whole, fraction, exponent, unit))
        }
    }
}

// The digits as a mantissa, and the power that makes units of it.
fn scaled_digits(negative: bool, whole: &[u8], fraction: &[u8], exponent: i32, unit: Unit) -> Scaled
    requires whole { AllDigits 10 whole.now }
    requires fraction { AllDigits 10 fraction.now }
    requires few { length whole.now + length fraction.now ≤ 24 }
    requires exponent { Within 999 exponent }
    ensures value { result ≡ scaled_from unit negative whole.now fraction.now exponent }
    ensures bound { result.mantissa < 10 ^ 24 }
{
    Scaled {
        negative,
        mantissa: mantissa_of(whole, fraction),
        power: power_of(exponent, fraction.len(), unit),
    }
}

fn mantissa_of(whole: &[u8], fraction: &[u8]) -> u128
    requires whole { AllDigits 10 whole.now }
    requires fraction { AllDigits 10 fraction.now }
    requires few { length whole.now + length fraction.now ≤ 24 }
    ensures value { result ≡ digits_value 10 (whole.now ++ fraction.now) }
    ensures bound { result < 10 ^ 24 }
{
    let front = value_after(0, 0, whole);
    value_after(front, whole.len(), fraction)
}

// Each digit behind the point takes one from the exponent, and each decimal of the unit adds one.
fn power_of(exponent: i32, places: usize, unit: Unit) -> i32
    requires exponent { Within 999 exponent }
    requires places { places ≤ 24 }
    ensures { result ≡ (exponent -ℤ pos places) +ℤ pos (places_of unit) }
{
    exponent - places as i32 + unit.places() as i32
}
