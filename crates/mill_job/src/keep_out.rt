ghost use Rattle.std.specs.Prelude.{◌≡◌, ◌≤◌, true, length, [], ◌∷◌};
ghost use Rattle.std.specs.Prelude.{IfOk, IfErr, Some, None, is_some, option_map};
ghost use Rattle.toml.specs.View.{table_view, view, items_view};
ghost use Rattle.mill_job.specs.Fixtures.{AreFixtures, IsFixture, are_fixtures, is_fixture, rows};
ghost use Rattle.mill_job.specs.Fixtures.{fixture_of, fixtures_at, fixtures_fault, fixtures_of};
ghost use Rattle.mill_job.specs.Tables.{as_integers, checked, integers, kind_fault};
ghost use Rattle.mill_job.specs.declared.limits.TheConstants.{MAX_FIXTURES};

use crate::arrays::{are_integers, corners, misfit};
use crate::fault::JobFault;
use crate::fixtures::{Fixture, Fixtures};
use crate::key::Key;
use crate::limits::MAX_FIXTURES;
use crate::values::{as_coordinate, find};
use mill_base::Unit;
use toml::{Table, Value};

/// Whether a value is an array of whole numbers.
fn is_row(value: &Value) -> bool
    ensures { result ≡ is_some (as_integers (view value.now)) }
{
    match value.as_array() {
        Some(members) => are_integers(members),
        None => false,
    }
}

/// Whether each value is an array of whole numbers.
fn are_rows(values: &[Value]) -> bool
    ensures { result ≡ is_some (rows (items_view values.now)) }
{
    for value in values {
        if !is_row(value) {
            return false;
        }
    }
    true
}

/// The five whole numbers that the values are.
fn five(a: &Value, b: &Value, c: &Value, d: &Value, e: &Value) -> Option<(i64, i64, i64, i64, i64)>
    ensures { option_map (λ z. z.0 ∷ z.1 ∷ z.2 ∷ z.3 ∷ z.4 ∷ []) result ≡
        integers (items_view (a.now ∷ b.now ∷ c.now ∷ d.now ∷ e.now ∷ [])) }
{
    Some((
        a.as_integer()?,
        b.as_integer()?,
        c.as_integer()?,
        d.as_integer()?,
        e.as_integer()?,
    ))
}

/// The fixture with these corners and this height.
fn standing(x0: i64, y0: i64, x1: i64, y1: i64, z: i64, unit: Unit) -> Result<Fixture, JobFault>
    ensures value { result ≡
        checked (kind_fault Key.KeepOut (is_fixture unit) (Some (x0 ∷ y0 ∷ x1 ∷ y1 ∷ z ∷ [])))
        (record { area = record { x0 = x0; y0 = y0; x1 = x1; y1 = y1 }; height = z }) }
    ensures in_range { IfOk result (IsFixture unit) }
{
    let area = corners(x0, y0, x1, y1, Key::KeepOut, unit)?;
    let height = as_coordinate(z, Key::KeepOut, unit)?;
    Ok(Fixture { area, height })
}

/// The fixture whose corners and height the values are, in the order x0, y0, x1, y1, z.
fn fixture_in(values: &[Value], unit: Unit) -> Result<Fixture, JobFault>
    ensures value { result ≡
        checked (kind_fault Key.KeepOut (is_fixture unit) (integers (items_view values.now)))
        (fixture_of (integers (items_view values.now))) }
    ensures in_range { IfOk result (IsFixture unit) }
{
    if values.len() != 5 {
        return Err(misfit(values, Key::KeepOut));
    }
    let Some((x0, y0, x1, y1, z)) = five(&values[0], &values[1], &values[2], &values[3], &values[4])
    else {
        return Err(JobFault::WrongKind(Key::KeepOut));
    };
    standing(x0, y0, x1, y1, z, unit)
}

/// The fixtures that the values are, each an array of whole numbers.
fn each_fixture(values: &[Value], unit: Unit) -> Result<Fixtures, JobFault>
    requires few { length values.now ≤ MAX_FIXTURES }
    requires whole { is_some (rows (items_view values.now)) ≡ true }
    ensures value { result ≡
        checked (kind_fault Key.KeepOut (are_fixtures unit) (rows (items_view values.now)))
        (fixtures_of (rows (items_view values.now))) }
    ensures in_range { IfOk result (AreFixtures unit) }
{
    let mut fixtures = Fixtures::NONE;
    for value in values {
        let Some(row) = value.as_array() else {
            return Err(JobFault::WrongKind(Key::KeepOut));
        };
        let fixture = fixture_in(row, unit)?;
        fixtures.push(fixture);
    }
    Ok(fixtures)
}

/// The fixtures that the values are, of which there are at most 64.
fn fixtures_in(values: &[Value], unit: Unit) -> Result<Fixtures, JobFault>
    ensures value { result ≡
        checked (kind_fault Key.KeepOut (are_fixtures unit) (rows (items_view values.now)))
        (fixtures_of (rows (items_view values.now))) }
    ensures in_range { IfOk result (AreFixtures unit) }
{
    if !are_rows(values) {
        return Err(JobFault::WrongKind(Key::KeepOut));
    }
    if MAX_FIXTURES < values.len() {
        return Err(JobFault::Range(Key::KeepOut));
    }
    each_fixture(values, unit)
}

/// The fixtures at `keep_out`, none where the document lacks the key.
#[tactic(auto, unfolding(crate::specs::Fixtures::fixtures_fault, crate::specs::Fixtures::fixtures_at))]
pub fn keep_out(table: &Table, unit: Unit) -> Result<Fixtures, JobFault>
    ensures ok { IfOk result (λ fixtures. (fixtures_fault unit (table_view table.now) ≡ None)
        × (fixtures ≡ fixtures_at (table_view table.now))) }
    ensures err { IfErr result (λ fault.
        fixtures_fault unit (table_view table.now) ≡ Some fault) }
    ensures in_range { IfOk result (AreFixtures unit) }
{
    let Some(value) = find(table, Key::KeepOut) else {
        return Ok(Fixtures::NONE);
    };
    let Some(values) = value.as_array() else {
        return Err(JobFault::WrongKind(Key::KeepOut));
    };
    fixtures_in(values, unit)
}
