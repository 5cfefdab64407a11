ghost use Rattle.std.specs.Prelude.{◌≡◌, ◌++◌, ◌∷◌, ◌^◌, ◌/◌, ◌%◌, ◌+◌, ◌<◌, ◌≤◌, [], length, decimal};
ghost use Rattle.mill_base.specs.Units.{places_of};
ghost use Rattle.mill_decimal.specs.Decimals.{canonical, last_digits};

use crate::number_text::NumText;
use itoa::Buffer;
use mill_base::Unit;

/// Writes a number of units as millimetres, in place of what stands in `out`.
///
/// The canonical form is `-` where the number is negative, the whole millimetres without leading
/// zeros but with at least one digit, a point, and as many digits as the unit has places: -5 is
/// `-0.05` in hundredths and `-0.005` in thousandths.
#[tactic(auto, unfolding(crate::specs::Decimals::canonical))]
pub fn write_decimal(number: i32, unit: Unit, out: &mut NumText)
    ensures { out.new ≡ canonical unit number }
{
    out.clear();
    if number < 0 {
        out.push(b'-');
    }
    let units = number.unsigned_abs();
    push_millimetres(units, unit, out);
    out.push(b'.');
    push_places(units, unit, out);
}

// The whole millimetres of so many units.
fn whole_millimetres(units: u32, unit: Unit) -> u32
    ensures { result ≡ units / 10 ^ places_of unit }
{
    match unit {
        Unit::Hundredth => units / 100,
        Unit::Thousandth => units / 1000,
    }
}

// Adds the whole millimetres of so many units: the more places the unit has, the fewer digits.
#[tactic(auto, using(crate::proofs::DigitRuns::short_decimal))]
fn push_millimetres(units: u32, unit: Unit, out: &mut NumText)
    requires sign { length out.old ≤ 1 }
    ensures text { out.new ≡ out.old ++ decimal (units / 10 ^ places_of unit) }
    ensures size { length out.new + places_of unit ≤ 11 }
{
    let mut buffer = Buffer::new();
    out.push_all(buffer.format(whole_millimetres(units, unit)).as_bytes());
}

// Adds as many last digits of the units as the unit has places.
fn push_places(units: u32, unit: Unit, out: &mut NumText)
    requires size { length out.old + places_of unit ≤ 12 }
    ensures text { out.new ≡ out.old ++ last_digits (places_of unit) units }
{
    match unit {
        Unit::Hundredth => {}
        Unit::Thousandth => push_last_digit(units / 100, out),
    }
    push_last_digit(units / 10, out);
    push_last_digit(units, out);
}

// Adds the last digit of a number.
fn push_last_digit(number: u32, out: &mut NumText)
    requires size { length out.old < 12 }
    ensures text { out.new ≡ out.old ++ (48 + number % 10) ∷ [] }
    ensures size { length out.new ≡ length out.old + 1 }
{
    out.push(b'0' + (number % 10) as u8);
}
