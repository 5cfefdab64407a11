//! The whole document.
ghost use Rattle.std.specs.Prelude.{◌≡◌, ◌++◌, ◌∷◌, [], All, IfOk, OnOk, false, map};
ghost use Rattle.mill_document.specs.Documents.{fault_data, length_or_null, put_answer, put_lists, put_numbers, report_data, sums_data, text_of, too_high_data, unit_name};
ghost use Rattle.serde_json.specs.View.{members_view, view};
ghost use Rattle.serde_json.specs.Written.{compact_text, has_float};

use crate::values::{bytes_value, length_value, sum_value};
use mill_base::{Unit, WantOfMemory};
use serde_json::{Map, Value, put};
use std::alloc::{AllocError, Global};

/// The SHA-256 of the three texts, as they were read.
#[derive(Clone, Copy, Debug, PartialEq, Eq)]
pub struct Sums {
    pub job: [u8; 32],
    pub part: [u8; 32],
    pub program: [u8; 32],
}

/// The numbers of a report.
#[derive(Clone, Copy, Debug, PartialEq, Eq)]
pub struct Summary {
    /// The exit status.
    pub status: u8,
    /// The unit of all lengths.
    pub unit: Unit,
    /// How many moves the program has.
    pub moves: u64,
    /// How many columns the stock has.
    pub columns: u64,
    /// What is left over the part at most, in units, where the program is accepted.
    pub left: Option<i32>,
    /// How many columns are left too high.
    pub too_high: u64,
}

/// The document of a verdict: its line, without a line end; the checksums; the numbers; the moves
/// that fail, as [`failing_values`](crate::failing_values) makes them; and the columns left too
/// high that are told of, as [`left_values`](crate::left_values) does.
///
/// One line feed ends it. Only want of memory keeps it from the text.
pub fn report_text(
    alloc: Global,
    line: &[u8],
    sums: &Sums,
    summary: &Summary,
    failing: Vec<Value>,
    left: Vec<Value>,
) -> Result<Vec<u8>, WantOfMemory>
    requires failing { All (λ v. has_float (view v) ≡ false) failing.items }
    requires left { All (λ v. has_float (view v) ≡ false) left.items }
    ensures { IfOk result (λ made. made.items
        ≡ text_of (report_data line.now sums.now summary.now
        (map view failing.items) (map view left.items))) }
{
    let mut members = Map::new(alloc);
    add_answer(&mut members, alloc, line, summary.status)?;
    add_numbers(&mut members, alloc, sums, summary)?;
    add_lists(&mut members, alloc, summary.too_high, failing, left)?;
    document(alloc, Value::from(members))
}

/// The document of a refusal or a fault: its line, without a line end, and the exit status.
///
/// One line feed ends it. Only want of memory keeps it from the text.
pub fn fault_text(alloc: Global, line: &[u8], status: u8) -> Result<Vec<u8>, WantOfMemory>
    ensures { IfOk result (λ made. made.items ≡ text_of (fault_data line.now status)) }
{
    let mut members = Map::new(alloc);
    add_answer(&mut members, alloc, line, status)?;
    document(alloc, Value::from(members))
}

/// The compact text of a value without floats, and a line feed.
fn document(alloc: Global, value: Value) -> Result<Vec<u8>, WantOfMemory>
    requires { has_float (view value) ≡ false }
    ensures { IfOk result (λ made. made.items ≡ text_of (view value)) }
{
    let mut text = value.to_vec(alloc)?;
    text.push(b'\n')?;
    Ok(text)
}

/// Adds the line of the answer, and its status.
fn add_answer(
    members: &mut Map<String, Value>,
    alloc: Global,
    line: &[u8],
    status: u8,
) -> Result<(), AllocError>
    ensures { OnOk result (members_view members.new.entries
        ≡ put_answer line.now status (members_view members.old.entries)) }
{
    put(members, alloc, "line", bytes_value(alloc, line)?)?;
    put(members, alloc, "status", Value::from(status))
}

/// Adds the checksums and the numbers.
fn add_numbers(
    members: &mut Map<String, Value>,
    alloc: Global,
    sums: &Sums,
    summary: &Summary,
) -> Result<(), AllocError>
    ensures { OnOk result (members_view members.new.entries
        ≡ put_numbers sums.now summary.now (members_view members.old.entries)) }
{
    put(members, alloc, "sha256", sums_value(alloc, sums)?)?;
    put(
        members,
        alloc,
        "unit",
        Value::try_from_str(alloc, unit_text(summary.unit))?,
    )?;
    put(members, alloc, "moves", Value::from(summary.moves))?;
    put(members, alloc, "columns", Value::from(summary.columns))?;
    put(
        members,
        alloc,
        "left",
        left_value(alloc, summary.unit, summary.left)?,
    )
}

/// Adds the moves that fail and the columns left too high.
fn add_lists(
    members: &mut Map<String, Value>,
    alloc: Global,
    too_high: u64,
    failing: Vec<Value>,
    left: Vec<Value>,
) -> Result<(), AllocError>
    ensures { OnOk result (members_view members.new.entries
        ≡ put_lists too_high (map view failing.items) (map view left.items)
        (members_view members.old.entries)) }
{
    put(members, alloc, "failing", Value::from(failing))?;
    put(
        members,
        alloc,
        "left_too_high",
        too_high_value(alloc, too_high, left)?,
    )
}

fn sums_value(alloc: Global, sums: &Sums) -> Result<Value, AllocError>
    ensures { IfOk result (λ v. view v ≡ sums_data sums.now) }
{
    let mut members = Map::new(alloc);
    put(&mut members, alloc, "job", sum_value(alloc, &sums.job)?)?;
    put(&mut members, alloc, "part", sum_value(alloc, &sums.part)?)?;
    put(
        &mut members,
        alloc,
        "program",
        sum_value(alloc, &sums.program)?,
    )?;
    Ok(Value::from(members))
}

fn too_high_value(alloc: Global, count: u64, columns: Vec<Value>) -> Result<Value, AllocError>
    ensures { IfOk result (λ v. view v ≡ too_high_data count (map view columns.items)) }
{
    let mut members = Map::new(alloc);
    put(&mut members, alloc, "count", Value::from(count))?;
    put(&mut members, alloc, "columns", Value::from(columns))?;
    Ok(Value::from(members))
}

fn left_value(alloc: Global, unit: Unit, left: Option<i32>) -> Result<Value, AllocError>
    ensures { IfOk result (λ v. view v ≡ length_or_null unit left) }
{
    match left {
        Some(left) => length_value(alloc, unit, left),
        None => Ok(Value::Null),
    }
}

/// One unit, in millimetres.
fn unit_text(unit: Unit) -> &'static str
    ensures { result.now ≡ unit_name unit }
{
    match unit {
        Unit::Hundredth => "0.01",
        Unit::Thousandth => "0.001",
    }
}
