ghost use Rattle.std.specs.Prelude.{◌≡◌, ◌+◌, ◌<◌, ◌≤◌, ◌^◌, length, take};
ghost use Rattle.std.specs.Str.Parse.{digits_value_after, AllDigits};
ghost use Rattle.std.specs.List.{prefix_len};
ghost use Rattle.std.specs.Char.{is_ascii_digit};
ghost use Rattle.mill_decimal.specs.Spelling.{is_negative, after_sign, signed, digits_of, after_digits};

/// Whether the text begins with a minus sign, and what stands behind its sign.
pub fn split_sign(text: &[u8]) -> (bool, &[u8])
    ensures negative { result.0 ≡ is_negative text.now }
    ensures rest { result.1.now ≡ after_sign text.now }
{
    match text {
        [b'-', rest @ ..] => (true, rest),
        [b'+', rest @ ..] => (false, rest),
        _ => (false, text),
    }
}

/// The number with its sign.
pub fn with_sign(negative: bool, magnitude: u32) -> i32
    requires { magnitude < 2 ^ 31 }
    ensures { result ≡ signed negative magnitude }
{
    let number = magnitude as i32;
    if negative { -number } else { number }
}

/// The digits that the text begins with, and what stands behind them.
#[tactic(auto, unfolding(crate::specs::Spelling::digits_of, crate::specs::Spelling::after_digits))]
pub fn split_digits(text: &[u8]) -> (&[u8], &[u8])
    ensures front { result.0.now ≡ digits_of text.now }
    ensures rest { result.1.now ≡ after_digits text.now }
    ensures digits { AllDigits 10 result.0.now }
{
    text.split_at(digits_in_front(text))
}

fn digits_in_front(text: &[u8]) -> usize
    ensures { result ≡ prefix_len is_ascii_digit text.now }
{
    text.iter().take_while(|b| b.is_ascii_digit()).count()
}

/// The digits that a short text begins with and what stands behind them, as `split_digits` gives
/// them, and before these the number of the digits behind `before` digits that stand for `front`.
#[tactic(auto, unfolding(crate::specs::Spelling::digits_of, crate::specs::Spelling::after_digits))]
pub fn split_value(front: u64, before: usize, text: &[u8]) -> (u64, &[u8], &[u8])
    requires front { front < 10 ^ before }
    requires few { before + length text.now ≤ 16 }
    ensures value { result.0 ≡ digits_value_after 10 front (digits_of text.now) }
    ensures bound { result.0 < 10 ^ (before + length (digits_of text.now)) }
    ensures front { result.1.now ≡ digits_of text.now }
    ensures rest { result.2.now ≡ after_digits text.now }
    ensures size { length result.1.now + length result.2.now ≡ length text.now }
{
    let (value, count) = value_in_front(front, before, text);
    let (digits, rest) = text.split_at(count);
    (value, digits, rest)
}

// The number of the digits that a short text begins with, and how many they are.
fn value_in_front(front: u64, before: usize, text: &[u8]) -> (u64, usize)
    requires front { front < 10 ^ before }
    requires few { before + length text.now ≤ 16 }
    ensures count { result.1 ≡ prefix_len is_ascii_digit text.now }
    ensures value { result.0 ≡ digits_value_after 10 front (take result.1 text.now) }
    ensures bound { result.0 < 10 ^ (before + result.1) }
{
    let mut value = front;
    for place in 0..text.len() {
        let byte = text[place];
        if !byte.is_ascii_digit() {
            return (value, place);
        }
        value = 10 * value + u64::from(byte - b'0');
    }
    (value, text.len())
}

/// The number that the digits stand for behind `before` digits that stand for `front`.
pub fn value_after(front: u128, before: usize, digits: &[u8]) -> u128
    requires digits { AllDigits 10 digits.now }
    requires front { front < 10 ^ before }
    requires few { before + length digits.now ≤ 24 }
    ensures value { result ≡ digits_value_after 10 front digits.now }
    ensures bound { result < 10 ^ (before + length digits.now) }
{
    let mut value = front;
    for digit in digits {
        value = 10 * value + u128::from(*digit - b'0');
    }
    value
}
