//! The items of the two lists of a report.
ghost use Rattle.std.specs.Prelude.{◌≡◌, All, IfOk, false, length, map};
ghost use Rattle.mill_base.specs.Ranges.{MovesInRange};
ghost use Rattle.mill_document.specs.Details.{IsInText, failing_data, left_column, told_of, top_met};
ghost use Rattle.mill_document.specs.Documents.{column_data};
ghost use Rattle.mill_job.specs.Columns.{IsColumn};
ghost use Rattle.mill_report.specs.Findings.{IsFinding};
ghost use Rattle.serde_json.specs.View.{view};
ghost use Rattle.serde_json.specs.Written.{has_float};

use crate::detail::{failure, one_column};
use crate::failure::{column_value, failure_value};
use crate::numbers::move_number;
use mill_base::{Move, WantOfMemory};
use mill_job::Job;
use mill_ngc::{LineSpan, line_words};
use mill_part::Part;
use mill_report::LeftColumn;
use mill_verify::Reason;
use serde_json::Value;
use std::alloc::Global;

/// The items of all moves that fail: for each finding its line's number and words, its test, what
/// is in its way, its segment and its lift.
///
/// `places` has the place in `text` of each move, `tops` what [`tops_met`](crate::tops_met) gives,
/// and `lifts` the lift of each finding, in units, if it has one. The only error is want of memory,
/// for the items.
pub fn failing_values(
    alloc: Global,
    job: &Job,
    part: &Part,
    moves: &[Move],
    text: &[u8],
    places: &[LineSpan],
    found: &[Reason],
    tops: &[i32],
    lifts: &[Option<i32>],
) -> Result<Vec<Value>, WantOfMemory>
    requires moves_ok { MovesInRange moves.now }
    requires places { length places.now ≡ length moves.now }
    requires inside { All (IsInText text.now) places.now }
    requires found { All (IsFinding job.now.fields part.now moves.now) found.now }
    requires tops { tops.now ≡ map (top_met job.now.fields moves.now) found.now }
    requires lifts { length lifts.now ≡ length found.now }
    ensures data { IfOk result (λ values. map view values.items
        ≡ failing_data job.now.fields part.now moves.now text.now places.now found.now lifts.now) }
    ensures plain { IfOk result (λ values. All (λ v. has_float (view v) ≡ false) values.items) }
{
    let mut values = Vec::new(alloc);
    for index in 0..found.len() {
        let reason = &found[index];
        let value = failing_value(
            alloc,
            job,
            part,
            moves,
            text,
            places,
            reason,
            tops[index],
            lifts[index],
        )?;
        values.push(value)?;
    }
    Ok(values)
}

/// The item of one move that fails, where the column in its way has this top.
fn failing_value(
    alloc: Global,
    job: &Job,
    part: &Part,
    moves: &[Move],
    text: &[u8],
    places: &[LineSpan],
    reason: &Reason,
    top: i32,
    lift: Option<i32>,
) -> Result<Value, WantOfMemory>
    requires moves_ok { MovesInRange moves.now }
    requires places { length places.now ≡ length moves.now }
    requires inside { All (IsInText text.now) places.now }
    requires finding { IsFinding job.now.fields part.now moves.now reason.now }
    requires top { top ≡ top_met job.now.fields moves.now reason.now }
    ensures data { IfOk result (λ v. view v
        ≡ told_of job.now.fields part.now moves.now text.now places.now reason.now lift) }
    ensures plain { IfOk result (λ v. has_float (view v) ≡ false) }
{
    let place = places[move_number(reason) as usize];
    let failure = failure(job, part, moves, reason, place.line, top, lift);
    failure_value(alloc, job.fields.unit, line_words(text, place), &failure)
}

/// The items of the columns left too high that are told of.
///
/// The only error is want of memory, for the items.
pub fn left_values(
    alloc: Global,
    job: &Job,
    left: &[LeftColumn],
) -> Result<Vec<Value>, WantOfMemory>
    requires { All (λ c. IsColumn job.now.fields c.row c.col) left.now }
    ensures data { IfOk result (λ values. map view values.items
        ≡ map (λ c. column_data job.now.fields.unit (left_column job.now.fields c)) left.now) }
    ensures plain { IfOk result (λ values. All (λ v. has_float (view v) ≡ false) values.items) }
{
    let mut values = Vec::new(alloc);
    for index in 0..left.len() {
        values.push(left_value(alloc, job, left[index])?)?;
    }
    Ok(values)
}

/// The item of one column left too high.
fn left_value(alloc: Global, job: &Job, left: LeftColumn) -> Result<Value, WantOfMemory>
    requires { IsColumn job.now.fields left.row left.col }
    ensures data { IfOk result (λ v. view v
        ≡ column_data job.now.fields.unit (left_column job.now.fields left)) }
    ensures plain { IfOk result (λ v. has_float (view v) ≡ false) }
{
    let column = one_column(job, left.row, left.col, left.top);
    column_value(alloc, job.fields.unit, &column)
}
