//! What is told of a move that fails and of a column left too high, and the items of it.
ghost use Rattle.std.specs.Prelude.{◌≡◌, IfOk, OnOk, false};
ghost use Rattle.mill_document.specs.Documents.{column_data, column_or_null, corners_data, ends_data, failure_data, leaf_data, length_or_null, put_fixture, put_obstacle, put_place, segment_data, test_name, triangle_data, triangle_or_null};
ghost use Rattle.serde_json.specs.Data.{string};
ghost use Rattle.serde_json.specs.View.{members_view, view};
ghost use Rattle.serde_json.specs.Written.{has_float};

use crate::values::{bytes_value, length_value, point_value};
use mill_base::{Pt3, Tri, Unit, WantOfMemory};
use serde_json::{Map, Value, push, put};
use std::alloc::{AllocError, Global};

/// The test that a move fails.
#[derive(Clone, Copy, Debug, PartialEq, Eq)]
pub(crate) enum Test {
    /// It goes under the floor.
    Floor,
    /// Its cutter gouges the part.
    Gouge,
    /// Its holder hits the part.
    Holder,
    /// Its cutter hits a fixture.
    Fixture,
    /// Its holder hits a fixture.
    HolderFixture,
    /// It is a rapid whose cutter hits the stock.
    Rapid,
    /// It is a feed whose cutter cuts too deep into the stock.
    Cut,
    /// Its holder hits the stock.
    HolderStock,
}

/// A triangle of the part: its number, from 0, and its corners, in units.
#[derive(Clone, Copy, Debug, PartialEq, Eq)]
pub(crate) struct Triangle {
    pub number: u32,
    pub corners: Tri,
}

/// A column of the stock: the numbers of its row and of its column in that, both from 0, its place
/// and its top, in units.
#[derive(Clone, Copy, Debug, PartialEq, Eq)]
pub(crate) struct Column {
    pub row: u32,
    pub column: u32,
    pub x: i32,
    pub y: i32,
    pub top: i32,
}

/// A segment of a move: the part of this number, from 0, of 2^depth equal ones, and its two ends,
/// each rounded to whole units.
#[derive(Clone, Copy, Debug, PartialEq, Eq)]
pub(crate) struct Segment {
    pub depth: u32,
    pub number: u64,
    pub from: Pt3,
    pub to: Pt3,
}

/// A move that fails a test.
#[derive(Clone, Copy, Debug, PartialEq, Eq)]
pub(crate) struct Failure {
    /// The number of the move, from 0.
    pub number: u64,
    /// The number of its line, from 1.
    pub line: u32,
    pub test: Test,
    /// What of the part is in its way.
    pub triangle: Option<Triangle>,
    /// The number of the fixture in its way, from 0.
    pub fixture: Option<u32>,
    /// What of the stock is in its way.
    pub column: Option<Column>,
    /// The segment of the move that fails.
    pub segment: Option<Segment>,
    /// The least lift at which the move passes the part, in units.
    pub lift: Option<i32>,
}

/// A move that fails, with the words of its line, as an item of a report.
pub(crate) fn failure_value(
    alloc: Global,
    unit: Unit,
    words: &[u8],
    failure: &Failure,
) -> Result<Value, WantOfMemory>
    ensures data { IfOk result (λ v. view v ≡ failure_data unit words.now failure.now) }
    ensures plain { IfOk result (λ v. has_float (view v) ≡ false) }
{
    let mut members = Map::new(alloc);
    add_place(&mut members, alloc, words, failure)?;
    add_obstacle(&mut members, alloc, unit, failure)?;
    add_fixture(&mut members, alloc, failure.fixture)?;
    Ok(Value::from(members))
}

/// Adds which move it is, where it stands, and which test it fails.
fn add_place(
    members: &mut Map<String, Value>,
    alloc: Global,
    words: &[u8],
    failure: &Failure,
) -> Result<(), AllocError>
    ensures { OnOk result (members_view members.new.entries
        ≡ put_place words.now failure.now (members_view members.old.entries)) }
{
    put(members, alloc, "move", Value::from(failure.number))?;
    put(members, alloc, "line", Value::from(failure.line))?;
    put(members, alloc, "words", bytes_value(alloc, words)?)?;
    put(members, alloc, "test", test_value(alloc, failure.test)?)
}

/// Adds what is in its way, where on the move, and how high it has to be lifted.
fn add_obstacle(
    members: &mut Map<String, Value>,
    alloc: Global,
    unit: Unit,
    failure: &Failure,
) -> Result<(), AllocError>
    ensures { OnOk result (members_view members.new.entries
        ≡ put_obstacle unit failure.now (members_view members.old.entries)) }
{
    put(
        members,
        alloc,
        "triangle",
        triangle_value(alloc, unit, failure.triangle)?,
    )?;
    put(
        members,
        alloc,
        "column",
        column_value_of(alloc, unit, failure.column)?,
    )?;
    put(members, alloc, "leaf", leaf_value(alloc, failure.segment)?)?;
    put(
        members,
        alloc,
        "segment",
        segment_value(alloc, unit, failure.segment)?,
    )?;
    put(
        members,
        alloc,
        "lift",
        lift_value(alloc, unit, failure.lift)?,
    )
}

/// Adds the number of the fixture in its way, where one is.
fn add_fixture(
    members: &mut Map<String, Value>,
    alloc: Global,
    fixture: Option<u32>,
) -> Result<(), AllocError>
    ensures { OnOk result (members_view members.new.entries
        ≡ put_fixture fixture (members_view members.old.entries)) }
{
    match fixture {
        Some(number) => put(members, alloc, "box", Value::from(number)),
        None => Ok(()),
    }
}

fn test_value(alloc: Global, test: Test) -> Result<Value, AllocError>
    ensures { IfOk result (λ v. view v ≡ string (test_name test)) }
{
    Value::try_from_str(alloc, test_text(test))
}

fn test_text(test: Test) -> &'static str
    ensures { result.now ≡ test_name test }
{
    match test {
        Test::Floor => "floor",
        Test::Gouge => "gouge",
        Test::Holder => "holder",
        Test::Fixture => "fixture",
        Test::HolderFixture => "holder-fixture",
        Test::Rapid => "rapid",
        Test::Cut => "cut",
        Test::HolderStock => "holder-stock",
    }
}

fn triangle_value(
    alloc: Global,
    unit: Unit,
    triangle: Option<Triangle>,
) -> Result<Value, AllocError>
    ensures { IfOk result (λ v. view v ≡ triangle_or_null unit triangle) }
{
    match triangle {
        Some(triangle) => one_triangle(alloc, unit, triangle),
        None => Ok(Value::Null),
    }
}

fn one_triangle(alloc: Global, unit: Unit, triangle: Triangle) -> Result<Value, AllocError>
    ensures { IfOk result (λ v. view v ≡ triangle_data unit triangle) }
{
    let mut members = Map::new(alloc);
    put(&mut members, alloc, "number", Value::from(triangle.number))?;
    put(
        &mut members,
        alloc,
        "corners",
        corners_value(alloc, unit, triangle.corners)?,
    )?;
    Ok(Value::from(members))
}

fn corners_value(alloc: Global, unit: Unit, corners: Tri) -> Result<Value, AllocError>
    ensures { IfOk result (λ v. view v ≡ corners_data unit corners) }
{
    let mut points = Vec::new(alloc);
    push(&mut points, point_value(alloc, unit, corners.a)?)?;
    push(&mut points, point_value(alloc, unit, corners.b)?)?;
    push(&mut points, point_value(alloc, unit, corners.c)?)?;
    Ok(Value::from(points))
}

fn column_value_of(alloc: Global, unit: Unit, column: Option<Column>) -> Result<Value, AllocError>
    ensures { IfOk result (λ v. view v ≡ column_or_null unit column) }
{
    match column {
        Some(column) => one_column(alloc, unit, column),
        None => Ok(Value::Null),
    }
}

/// A column of the stock, as an item of a report.
pub(crate) fn column_value(
    alloc: Global,
    unit: Unit,
    column: &Column,
) -> Result<Value, WantOfMemory>
    ensures data { IfOk result (λ v. view v ≡ column_data unit column.now) }
    ensures plain { IfOk result (λ v. has_float (view v) ≡ false) }
{
    Ok(one_column(alloc, unit, *column)?)
}

fn one_column(alloc: Global, unit: Unit, column: Column) -> Result<Value, AllocError>
    ensures { IfOk result (λ v. view v ≡ column_data unit column) }
{
    let mut members = Map::new(alloc);
    put(&mut members, alloc, "row", Value::from(column.row))?;
    put(&mut members, alloc, "column", Value::from(column.column))?;
    put(
        &mut members,
        alloc,
        "x",
        length_value(alloc, unit, column.x)?,
    )?;
    put(
        &mut members,
        alloc,
        "y",
        length_value(alloc, unit, column.y)?,
    )?;
    put(
        &mut members,
        alloc,
        "top",
        length_value(alloc, unit, column.top)?,
    )?;
    Ok(Value::from(members))
}

fn leaf_value(alloc: Global, segment: Option<Segment>) -> Result<Value, AllocError>
    ensures { IfOk result (λ v. view v ≡ leaf_data segment) }
{
    let Some(segment) = segment else {
        return Ok(Value::Null);
    };
    let mut numbers = Vec::new(alloc);
    push(&mut numbers, Value::from(segment.depth))?;
    push(&mut numbers, Value::from(segment.number))?;
    Ok(Value::from(numbers))
}

fn segment_value(alloc: Global, unit: Unit, segment: Option<Segment>) -> Result<Value, AllocError>
    ensures { IfOk result (λ v. view v ≡ segment_data unit segment) }
{
    match segment {
        Some(segment) => ends_value(alloc, unit, segment),
        None => Ok(Value::Null),
    }
}

fn ends_value(alloc: Global, unit: Unit, segment: Segment) -> Result<Value, AllocError>
    ensures { IfOk result (λ v. view v ≡ ends_data unit segment) }
{
    let mut points = Vec::new(alloc);
    push(&mut points, point_value(alloc, unit, segment.from)?)?;
    push(&mut points, point_value(alloc, unit, segment.to)?)?;
    Ok(Value::from(points))
}

fn lift_value(alloc: Global, unit: Unit, lift: Option<i32>) -> Result<Value, AllocError>
    ensures { IfOk result (λ v. view v ≡ length_or_null unit lift) }
{
    match lift {
        Some(lift) => length_value(alloc, unit, lift),
        None => Ok(Value::Null),
    }
}
