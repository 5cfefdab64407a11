ghost use Rattle.std.specs.Prelude.{◌≡◌, ◌&&◌, ◌≤ℤ◌, ◌≤◌, true, length, IsTrue, int_le, [], ◌∷◌, IfOk, IfErr, Some, None, is_some, option_map};
ghost use Rattle.toml.specs.View.{table_view, view, items_view};
ghost use Rattle.mill_job.specs.Tables.{IsArea, IsPlace, are_levels, area_of, array_fault, array_fault_if_there, checked, integers, is_area, is_place, kind_fault, levels_of, misfit_of, numbers_at, place_of};
ghost use Rattle.mill_job.specs.declared.limits.TheConstants.{MAX_LEVELS};
ghost use Rattle.mill_job.specs.inner.Ranged.{AreInOrder};

use crate::fault::JobFault;
use crate::fields::Place;
use crate::key::Key;
use crate::levels::Levels;
use crate::limits::MAX_LEVELS;
use crate::values::{as_coordinate, find};
use mill_base::{Box2, Unit};
use toml::{Table, Value};

/// Whether each value is a whole number.
pub fn are_integers(values: &[Value]) -> bool
    ensures { result ≡ is_some (integers (items_view values.now)) }
{
    for value in values {
        if !value.is_integer() {
            return false;
        }
    }
    true
}

/// What is wrong with an array that hasn't the right length.
pub fn misfit(values: &[Value], key: Key) -> JobFault
    ensures { result ≡ misfit_of key (integers (items_view values.now)) }
{
    if are_integers(values) {
        JobFault::Range(key)
    } else {
        JobFault::WrongKind(key)
    }
}

/// Whether the corners are in their order.
fn is_ordered(area: Box2) -> bool
    ensures value { result ≡ (int_le area.x0 area.x1 && int_le area.y0 area.y1) }
    ensures x_order { IsTrue result → area.x0 ≤ℤ area.x1 }
    ensures y_order { IsTrue result → area.y0 ≤ℤ area.y1 }
{
    area.x0 <= area.x1 && area.y0 <= area.y1
}

/// The rectangle with these corners, as the value at a key.
pub fn corners(x0: i64, y0: i64, x1: i64, y1: i64, key: Key, unit: Unit) -> Result<Box2, JobFault>
    ensures value { result ≡
        checked (kind_fault key (is_area unit) (Some (x0 ∷ y0 ∷ x1 ∷ y1 ∷ [])))
        (record { x0 = x0; y0 = y0; x1 = x1; y1 = y1 }) }
    ensures in_range { IfOk result (IsArea unit) }
{
    let area = Box2 {
        x0: as_coordinate(x0, key, unit)?,
        y0: as_coordinate(y0, key, unit)?,
        x1: as_coordinate(x1, key, unit)?,
        y1: as_coordinate(y1, key, unit)?,
    };
    if !is_ordered(area) {
        return Err(JobFault::Range(key));
    }
    Ok(area)
}

/// The four whole numbers that the values are.
fn four(a: &Value, b: &Value, c: &Value, d: &Value) -> Option<(i64, i64, i64, i64)>
    ensures { option_map (λ z. z.0 ∷ z.1 ∷ z.2 ∷ z.3 ∷ []) result ≡
        integers (items_view (a.now ∷ b.now ∷ c.now ∷ d.now ∷ [])) }
{
    Some((
        a.as_integer()?,
        b.as_integer()?,
        c.as_integer()?,
        d.as_integer()?,
    ))
}

/// The rectangle whose corners the values are, in the order x0, y0, x1, y1.
fn area_in(values: &[Value], unit: Unit) -> Result<Box2, JobFault>
    ensures value { result ≡ checked (kind_fault Key.Area (is_area unit) (integers (items_view values.now))) (area_of (integers (items_view values.now))) }
    ensures in_range { IfOk result (IsArea unit) }
{
    if values.len() != 4 {
        return Err(misfit(values, Key::Area));
    }
    let Some((x0, y0, x1, y1)) = four(&values[0], &values[1], &values[2], &values[3]) else {
        return Err(JobFault::WrongKind(Key::Area));
    };
    corners(x0, y0, x1, y1, Key::Area, unit)
}

/// The rectangle at `area`.
#[tactic(auto, unfolding(crate::specs::Tables::array_fault, crate::specs::Tables::numbers_at))]
pub fn area(table: &Table, unit: Unit) -> Result<Box2, JobFault>
    ensures ok { IfOk result (λ area. (array_fault Key.Area (is_area unit) (table_view table.now)
        ≡ None) × (area ≡ area_of (numbers_at Key.Area (table_view table.now)))) }
    ensures err { IfErr result (λ fault. array_fault Key.Area (is_area unit) (table_view
        table.now) ≡ Some fault) }
    ensures in_range { IfOk result (IsArea unit) }
{
    let value = find(table, Key::Area).ok_or(JobFault::Missing(Key::Area))?;
    let Some(values) = value.as_array() else {
        return Err(JobFault::WrongKind(Key::Area));
    };
    area_in(values, unit)
}

/// The heights that the values are, each a coordinate under the one before it.
fn falling(values: &[Value], unit: Unit) -> Result<Levels, JobFault>
    requires few { length values.now ≤ MAX_LEVELS }
    requires whole { is_some (integers (items_view values.now)) ≡ true }
    ensures { result ≡ checked (kind_fault Key.Levels (are_levels unit) (integers (items_view
        values.now))) (levels_of (integers (items_view values.now))) }
{
    let mut levels = Levels::NONE;
    let mut bound = unit.greatest() + 1;
    for value in values {
        let Some(number) = value.as_integer() else {
            return Err(JobFault::WrongKind(Key::Levels));
        };
        let height = as_coordinate(number, Key::Levels, unit)?;
        if bound <= height {
            return Err(JobFault::Range(Key::Levels));
        }
        levels.push(height);
        bound = height;
    }
    Ok(levels)
}

/// The levels that the values are, of which there are at most 64.
fn levels_in(values: &[Value], unit: Unit) -> Result<Levels, JobFault>
    ensures value { result ≡ checked (kind_fault Key.Levels (are_levels unit) (integers (items_view values.now))) (levels_of (integers (items_view values.now))) }
    ensures in_order { IfOk result AreInOrder }
{
    if !are_integers(values) {
        return Err(JobFault::WrongKind(Key::Levels));
    }
    if MAX_LEVELS < values.len() {
        return Err(JobFault::Range(Key::Levels));
    }
    falling(values, unit)
}

/// The levels at `levels`, none where the document lacks the key.
#[tactic(auto, unfolding(crate::specs::Tables::array_fault_if_there, crate::specs::Tables::numbers_at))]
pub fn levels(table: &Table, unit: Unit) -> Result<Levels, JobFault>
    ensures ok { IfOk result (λ levels. (array_fault_if_there Key.Levels (are_levels unit) (table_view table.now) ≡ None) × (levels ≡ levels_of (numbers_at Key.Levels (table_view table.now)))) }
    ensures err { IfErr result (λ fault. array_fault_if_there Key.Levels (are_levels unit)
        (table_view table.now) ≡ Some fault) }
    ensures in_order { IfOk result AreInOrder }
{
    let Some(value) = find(table, Key::Levels) else {
        return Ok(Levels::NONE);
    };
    let Some(values) = value.as_array() else {
        return Err(JobFault::WrongKind(Key::Levels));
    };
    levels_in(values, unit)
}

/// The two whole numbers that the values are.
fn two(a: &Value, b: &Value) -> Option<(i64, i64)>
    ensures { option_map (λ z. z.0 ∷ z.1 ∷ []) result ≡ integers (items_view (a.now ∷ b.now ∷ [])) }
{
    Some((a.as_integer()?, b.as_integer()?))
}

/// The place whose coordinates the values are.
fn place_in(values: &[Value], unit: Unit) -> Result<Place, JobFault>
    ensures value { result ≡ checked (kind_fault Key.Home (is_place unit) (integers (items_view values.now))) (place_of (integers (items_view values.now))) }
    ensures in_range { IfOk result (IsPlace unit) }
{
    if values.len() != 2 {
        return Err(misfit(values, Key::Home));
    }
    let Some((x, y)) = two(&values[0], &values[1]) else {
        return Err(JobFault::WrongKind(Key::Home));
    };
    let x = as_coordinate(x, Key::Home, unit)?;
    let y = as_coordinate(y, Key::Home, unit)?;
    Ok(Place { x, y })
}

/// The place at `home`.
#[tactic(auto, unfolding(crate::specs::Tables::array_fault, crate::specs::Tables::numbers_at))]
pub fn home(table: &Table, unit: Unit) -> Result<Place, JobFault>
    ensures ok { IfOk result (λ at. (array_fault Key.Home (is_place unit) (table_view table.now) ≡ None) × (at ≡ place_of (numbers_at Key.Home (table_view table.now)))) }
    ensures err { IfErr result (λ fault. array_fault Key.Home (is_place unit) (table_view table.now) ≡ Some fault) }
    ensures in_range { IfOk result (IsPlace unit) }
{
    let value = find(table, Key::Home).ok_or(JobFault::Missing(Key::Home))?;
    let Some(values) = value.as_array() else {
        return Err(JobFault::WrongKind(Key::Home));
    };
    place_in(values, unit)
}
