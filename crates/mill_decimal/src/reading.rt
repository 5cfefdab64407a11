ghost use Rattle.std.specs.Prelude.{◌≡◌, ◌<◌, ◌≤◌, ◌^◌, ◌-◌, Ok, Err, IfOk, IfErr, IfSome};
ghost use Rattle.mill_base.specs.Numbers.{Within};
ghost use Rattle.mill_base.specs.Units.{places_of, greatest_of};
ghost use Rattle.mill_decimal.specs.Decimals.{read_as, units_of as units_of_scaled, is_rounded, is_refused as is_refused_under, is_between, units_or_fault};
ghost use Rattle.mill_decimal.specs.declared.snap.Snap.{Snap};
ghost use Rattle.mill_decimal.specs.inner.Shorts.{scaled_from};

use crate::digits::with_sign;
use crate::fault::DecFault;
use crate::rounding::{in_range, is_whole, nearest, short_power_of_ten};
use crate::scaled::{Scaled, scaled_of};
use crate::short::{Short, short_of};
use crate::snap::Snap;
use mill_base::Unit;

/// What a decimal was read as.
#[derive(Clone, Copy, Debug, PartialEq, Eq)]
pub struct Reading {
    /// Its units, rounded.
    pub units: i32,
    /// Whether its units aren't whole.
    pub rounded: bool,
}

/// Reads a decimal of millimetres as whole units, whose magnitude is at most the unit's greatest
/// coordinate.
///
/// A decimal is an optional sign, digits with at most one point and at least one digit, and then
/// nothing or `e` or `E`, an optional sign, and one to three digits: every other text is refused as
/// `Spelling`. More than 24 digits before the exponent are `TooManyDigits`, leading zeros too.
/// Under `Exact`, units that are not whole are `OffGrid`; `Nearest` rounds them to the nearest unit,
/// ties away from zero. Units whose magnitude, rounded, is over the unit's greatest coordinate are
/// `OutOfRange`. Where several of these hold, the first named is told.
pub fn read_decimal(text: &[u8], snap: Snap, unit: Unit) -> Result<i32, DecFault>
    ensures value { result ≡ read_as snap unit text.now }
    ensures in_range { IfOk result (λ z. Within (greatest_of unit) z) }
{
    match read_with_rounding(text, snap, unit) {
        Ok(reading) => Ok(reading.units),
        Err(fault) => Err(fault),
    }
}

/// Reads a decimal as `read_decimal` does, and tells whether it was rounded, as `was_rounded` does.
#[tactic(auto, unfolding(crate::specs::Decimals::read_as, crate::specs::Decimals::is_rounded))]
pub fn read_with_rounding(text: &[u8], snap: Snap, unit: Unit) -> Result<Reading, DecFault>
    ensures units { IfOk result (λ reading. read_as snap unit text.now ≡ Ok reading.units) }
    ensures in_range { IfOk result (λ reading. Within (greatest_of unit) reading.units) }
    ensures rounded { IfOk result (λ reading. reading.rounded ≡ is_rounded unit text.now) }
    ensures fault { IfErr result (λ fault. read_as snap unit text.now ≡ Err fault) }
{
    match short_of(text) {
        Some(short) => short_reading(short, snap, unit),
        None => long_reading(text, snap, unit),
    }
}

// The reading of any text, with an exponent or without.
#[tactic(auto, unfolding(crate::specs::Decimals::read_as, crate::specs::Decimals::is_rounded))]
fn long_reading(text: &[u8], snap: Snap, unit: Unit) -> Result<Reading, DecFault>
    ensures units { IfOk result (λ reading. read_as snap unit text.now ≡ Ok reading.units) }
    ensures in_range { IfOk result (λ reading. Within (greatest_of unit) reading.units) }
    ensures rounded { IfOk result (λ reading. reading.rounded ≡ is_rounded unit text.now) }
    ensures fault { IfErr result (λ fault. read_as snap unit text.now ≡ Err fault) }
{
    match scaled_of(text, unit) {
        Ok(scaled) => reading_of(scaled, snap, unit),
        Err(fault) => Err(fault),
    }
}

// The reading of a short decimal.
fn short_reading(short: Short, snap: Snap, unit: Unit) -> Result<Reading, DecFault>
    requires bound { short.mantissa < 10 ^ 16 }
    requires places { short.places ≤ 16 }
    ensures units { IfOk result (λ reading. units_of_scaled snap unit (scaled_from unit short) ≡ Ok reading.units) }
    ensures in_range { IfOk result (λ reading. Within (greatest_of unit) reading.units) }
    ensures rounded { IfOk result (λ reading. reading.rounded ≡ is_between (scaled_from unit short)) }
    ensures fault { IfErr result (λ fault. units_of_scaled snap unit (scaled_from unit short) ≡ Err fault) }
{
    if short.places <= unit.places() as usize {
        return whole_reading(short, unit);
    }
    divided_reading(short, snap, unit)
}

// The reading of a short decimal with no more places than the unit: its units are whole, so that the
// snap doesn't count.
#[tactic(auto, using(crate::proofs::ShortForms::units_of_whole, crate::proofs::ShortForms::is_between_whole))]
fn whole_reading(short: Short, unit: Unit) -> Result<Reading, DecFault>
    requires bound { short.mantissa < 10 ^ 16 }
    requires places { short.places ≤ places_of unit }
    ensures units { (snap : Snap) → IfOk result (λ reading. units_of_scaled snap unit (scaled_from unit short) ≡ Ok reading.units) }
    ensures in_range { IfOk result (λ reading. Within (greatest_of unit) reading.units) }
    ensures rounded { IfOk result (λ reading. reading.rounded ≡ is_between (scaled_from unit short)) }
    ensures fault { (snap : Snap) → IfErr result (λ fault. units_of_scaled snap unit (scaled_from unit short) ≡ Err fault) }
{
    let units = short.mantissa * units_at(short.places, unit);
    match in_range(u128::from(units), unit) {
        None => Err(DecFault::OutOfRange),
        Some(units) => Ok(Reading {
            units: with_sign(short.negative, units),
            rounded: false,
        }),
    }
}

// How many units the last of so many places stands for.
fn units_at(places: usize, unit: Unit) -> u64
    requires { places ≤ places_of unit }
    ensures value { result ≡ 10 ^ (places_of unit - places) }
    ensures small { result ≤ 1000 }
{
    match unit.places() as usize - places {
        0 => 1,
        1 => 10,
        2 => 100,
        _ => 1000,
    }
}

// The reading of a short decimal with more places than the unit.
#[tactic(auto, using(crate::proofs::ShortForms::units_of_divided, crate::proofs::ShortForms::is_between_divided))]
fn divided_reading(short: Short, snap: Snap, unit: Unit) -> Result<Reading, DecFault>
    requires bound { short.mantissa < 10 ^ 16 }
    requires low { places_of unit < short.places }
    requires places { short.places ≤ 16 }
    ensures units { IfOk result (λ reading. units_of_scaled snap unit (scaled_from unit short) ≡ Ok reading.units) }
    ensures in_range { IfOk result (λ reading. Within (greatest_of unit) reading.units) }
    ensures rounded { IfOk result (λ reading. reading.rounded ≡ is_between (scaled_from unit short)) }
    ensures fault { IfErr result (λ fault. units_of_scaled snap unit (scaled_from unit short) ≡ Err fault) }
{
    let divisor = short_power_of_ten(short.places as u32 - unit.places());
    let is_between = short.mantissa % divisor != 0;
    let units = (2 * short.mantissa + divisor) / (2 * divisor);
    let units = in_range(u128::from(units), unit);
    reading_from(short.negative, is_between, units, snap, unit)
}

fn reading_of(scaled: Scaled, snap: Snap, unit: Unit) -> Result<Reading, DecFault>
    requires { scaled.mantissa < 10 ^ 24 }
    ensures units { IfOk result (λ reading. units_of_scaled snap unit scaled ≡ Ok reading.units) }
    ensures in_range { IfOk result (λ reading. Within (greatest_of unit) reading.units) }
    ensures rounded { IfOk result (λ reading. reading.rounded ≡ is_between scaled) }
    ensures fault { IfErr result (λ fault. units_of_scaled snap unit scaled ≡ Err fault) }
{
    let is_between = !is_whole(scaled.mantissa, scaled.power);
    let units = nearest(scaled.mantissa, scaled.power, unit);
    reading_from(scaled.negative, is_between, units, snap, unit)
}

// The reading of units without their sign, if they are in range, that were rounded or not.
fn reading_from(
    negative: bool,
    is_between: bool,
    units: Option<u32>,
    snap: Snap,
    unit: Unit,
) -> Result<Reading, DecFault>
    requires { IfSome units (λ n. n ≤ greatest_of unit) }
    ensures units { IfOk result (λ reading. units_or_fault snap negative is_between units ≡ Ok reading.units) }
    ensures in_range { IfOk result (λ reading. Within (greatest_of unit) reading.units) }
    ensures rounded { IfOk result (λ reading. reading.rounded ≡ is_between) }
    ensures fault { IfErr result (λ fault. units_or_fault snap negative is_between units ≡ Err fault) }
{
    if is_refused(snap, is_between) {
        return Err(DecFault::OffGrid);
    }
    match units {
        None => Err(DecFault::OutOfRange),
        Some(units) => Ok(Reading {
            units: with_sign(negative, units),
            rounded: is_between,
        }),
    }
}

fn is_refused(snap: Snap, is_between: bool) -> bool
    ensures { result ≡ is_refused_under snap is_between }
{
    match snap {
        Snap::Nearest => false,
        Snap::Exact => is_between,
    }
}

/// Whether the text reads under `Nearest` and its units aren't whole.
#[tactic(auto, unfolding(crate::specs::Decimals::is_rounded))]
pub fn was_rounded(text: &[u8], unit: Unit) -> bool
    ensures { result ≡ is_rounded unit text.now }
{
    match read_with_rounding(text, Snap::Nearest, unit) {
        Ok(reading) => reading.rounded,
        Err(_) => false,
    }
}
