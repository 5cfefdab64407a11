//! Short decimals with no exponent, as most are: split in one pass, and in 64 bits.

ghost use Rattle.std.specs.Prelude.{◌≡◌, ◌+◌, ◌<◌, ◌≤◌, ◌^◌, length, IfSome, Some, Ok, pos};
ghost use Rattle.std.specs.Str.Parse.{digits_value, digits_value_after};
ghost use Rattle.mill_base.specs.declared.unit.Unit.{Unit};
ghost use Rattle.mill_decimal.specs.Spelling.{fraction_of, after_fraction, scaled_by, scaled_of as scaled_in};
ghost use Rattle.mill_decimal.specs.inner.Shorts.{scaled_from};

use crate::digits::{split_sign, split_value};

/// The most bytes of a short text: the number that so many digits stand for, and a thousand times
/// that number, fit 64 bits.
const MOST_BYTES: usize = 16;

/// A decimal with no exponent: its digits as a number, with a sign, and how many of them stand
/// behind the point.
#[derive(Clone, Copy, Debug, PartialEq, Eq)]
pub struct Short {
    pub negative: bool,
    pub mantissa: u64,
    pub places: usize,
}

/// A short text that is spelled as a decimal with no exponent, nothing of another text.
#[tactic(auto, unfolding(crate::specs::Spelling::scaled_of))]
pub fn short_of(text: &[u8]) -> Option<Short>
    ensures value { IfSome result (λ short. (unit : Unit) → scaled_in unit text.now ≡ Ok (scaled_from unit short)) }
    ensures bound { IfSome result (λ short. short.mantissa < 10 ^ 16) }
    ensures places { IfSome result (λ short. short.places ≤ 16) }
{
    if text.len() > MOST_BYTES {
        return None;
    }
    let (negative, rest) = split_sign(text);
    let (value, whole, rest) = split_value(0, 0, rest);
    let (mantissa, fraction, rest) = split_fraction_value(value, whole.len(), rest);
    if !rest.is_empty() {
        return None;
    }
    joined(negative, mantissa, whole, fraction)
}

// The digits behind the point and what stands behind them, and before these the number of the
// digits behind `before` digits that stand for `front`.
fn split_fraction_value(front: u64, before: usize, text: &[u8]) -> (u64, &[u8], &[u8])
    requires front { front < 10 ^ before }
    requires few { before + length text.now ≤ 16 }
    ensures value { result.0 ≡ digits_value_after 10 front (fraction_of text.now) }
    ensures bound { result.0 < 10 ^ (before + length (fraction_of text.now)) }
    ensures front { result.1.now ≡ fraction_of text.now }
    ensures rest { result.2.now ≡ after_fraction text.now }
    ensures size { length result.1.now + length result.2.now ≤ length text.now }
{
    match text {
        [b'.', rest @ ..] => split_value(front, before, rest),
        _ => (front, &text[..0], text),
    }
}

// The digits before the point and behind it as a decimal, if there are any.
#[tactic(auto, using(crate::proofs::ShortForms::scaled_by_few))]
fn joined(negative: bool, mantissa: u64, whole: &[u8], fraction: &[u8]) -> Option<Short>
    requires value { mantissa ≡ digits_value_after 10 (digits_value 10 whole.now) fraction.now }
    requires bound { mantissa < 10 ^ (length whole.now + length fraction.now) }
    requires few { length whole.now + length fraction.now ≤ 16 }
    ensures value { IfSome result (λ short. (unit : Unit) → scaled_by unit negative whole.now fraction.now (Some (pos 0)) ≡ Ok (scaled_from unit short)) }
    ensures bound { IfSome result (λ short. short.mantissa < 10 ^ 16) }
    ensures places { IfSome result (λ short. short.places ≤ 16) }
{
    if whole.is_empty() && fraction.is_empty() {
        return None;
    }
    Some(Short {
        negative,
        mantissa,
        places: fraction.len(),
    })
}
