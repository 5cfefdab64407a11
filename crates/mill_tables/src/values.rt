//! Numbers.
ghost use Rattle.std.specs.Prelude.{◌≤◌, ◌≤ℤ◌, IfOk, length, vec_len};
ghost use Rattle.mill_base.specs.Numbers.{Within};
ghost use Rattle.mill_base.specs.declared.limits.TheConstants.{MAX_COORDINATE};

use mill_base::MAX_COORDINATE;
use std::alloc::Global;
use std::test::Fail;

/// A number from `least` to `most`.
pub fn number(text: &str, least: i32, most: i32) -> Result<i32, Fail>
    ensures least { IfOk result (λ number. least ≤ℤ number) }
    ensures most { IfOk result (λ number. number ≤ℤ most) }
{
    let number: i32 = text.parse()?;
    if number < least || number > most {
        return Err(Fail::from("out of range"));
    }
    Ok(number)
}

/// A coordinate in units, at most MAX_COORDINATE from 0.
pub fn coordinate(text: &str) -> Result<i32, Fail>
    ensures { IfOk result (λ number. Within MAX_COORDINATE number) }
{
    let number: i32 = text.parse()?;
    if number.unsigned_abs() > MAX_COORDINATE {
        return Err(Fail::from("out of range"));
    }
    Ok(number)
}

/// The numbers of a text, with blanks between them.
pub fn numbers(alloc: Global, text: &str) -> Result<Vec<u64>, Fail>
    ensures { IfOk result (λ numbers. vec_len numbers ≤ length text.now) }
{
    let mut numbers = Vec::new(alloc);
    for word in text.split_whitespace() {
        numbers.push(word.parse::<u64>()?)?;
    }
    Ok(numbers)
}
