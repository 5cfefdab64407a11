//! The small parts of a document.
ghost use Rattle.std.specs.Prelude.{◌≡◌, IfOk};
ghost use Rattle.mill_document.specs.Documents.{bytes_data, length_data, point_data, sum_data};
ghost use Rattle.serde_json.specs.View.{view};

use mill_base::{Pt3, Unit};
use mill_decimal::{NumText, write_decimal};
use serde_json::{Value, push};
use std::alloc::{AllocError, Global};

/// A length of so many units.
pub(crate) fn length_value(alloc: Global, unit: Unit, units: i32) -> Result<Value, AllocError>
    ensures { IfOk result (λ v. view v ≡ length_data unit units) }
{
    let mut number = NumText::new();
    write_decimal(units, unit, &mut number);
    let text = String::from_utf8_lossy(alloc, number.as_bytes())?;
    Ok(Value::from(text))
}

/// A point, by its three coordinates.
pub(crate) fn point_value(alloc: Global, unit: Unit, point: Pt3) -> Result<Value, AllocError>
    ensures { IfOk result (λ v. view v ≡ point_data unit point) }
{
    let mut coordinates = Vec::new(alloc);
    push(&mut coordinates, length_value(alloc, unit, point.x)?)?;
    push(&mut coordinates, length_value(alloc, unit, point.y)?)?;
    push(&mut coordinates, length_value(alloc, unit, point.z)?)?;
    Ok(Value::from(coordinates))
}

/// A text. What isn't UTF-8 in it is told as U+FFFD.
pub(crate) fn bytes_value(alloc: Global, bytes: &[u8]) -> Result<Value, AllocError>
    ensures { IfOk result (λ v. view v ≡ bytes_data bytes.now) }
{
    let text = String::from_utf8_lossy(alloc, bytes)?;
    Ok(Value::from(text))
}

/// A checksum, in hexadecimal digits.
pub(crate) fn sum_value(alloc: Global, sum: &[u8; 32]) -> Result<Value, AllocError>
    ensures { IfOk result (λ v. view v ≡ sum_data sum.now) }
{
    let text = hex::encode(alloc, sum.as_slice())?;
    Ok(Value::from(text))
}
