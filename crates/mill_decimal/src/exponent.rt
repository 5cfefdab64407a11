ghost use Rattle.std.specs.Prelude.{◌≡◌, ◌<◌, IfSome};
ghost use Rattle.std.specs.Str.Parse.{AllDigits};
ghost use Rattle.mill_base.specs.Numbers.{Within};
ghost use Rattle.mill_decimal.specs.Spelling.{exponent_of as exponent_in, marked_exponent as marked_in, short_number as short_number_of};

use crate::digits::{split_digits, split_sign, value_after, with_sign};

/// The most digits of an exponent.
const MOST_DIGITS: usize = 3;

/// The exponent that the text spells: 0 where there is none, nothing where it is none.
pub fn exponent_of(text: &[u8]) -> Option<i32>
    ensures value { result ≡ exponent_in text.now }
    ensures small { IfSome result (λ e. Within 999 e) }
{
    match text {
        [] => Some(0),
        [b'e', rest @ ..] => marked_exponent(rest),
        [b'E', rest @ ..] => marked_exponent(rest),
        _ => None,
    }
}

// The exponent behind its mark.
#[tactic(auto, unfolding(crate::specs::Spelling::marked_exponent))]
fn marked_exponent(text: &[u8]) -> Option<i32>
    ensures value { result ≡ marked_in text.now }
    ensures small { IfSome result (λ e. Within 999 e) }
{
    let (negative, rest) = split_sign(text);
    let (digits, rest) = split_digits(rest);
    match short_number(digits, rest) {
        Some(number) => Some(with_sign(negative, number)),
        None => None,
    }
}

// The number of one to three digits with nothing behind them.
fn short_number(digits: &[u8], rest: &[u8]) -> Option<u32>
    requires { AllDigits 10 digits.now }
    ensures value { result ≡ short_number_of digits.now rest.now }
    ensures small { IfSome result (λ n. n < 1000) }
{
    if !rest.is_empty() {
        return None;
    }
    if digits.is_empty() {
        return None;
    }
    if digits.len() > MOST_DIGITS {
        return None;
    }
    Some(value_after(0, 0, digits) as u32)
}
