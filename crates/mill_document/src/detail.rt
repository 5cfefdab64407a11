//! All that is told of one move that fails.
ghost use Rattle.std.specs.Prelude.{◌≡◌, ◌<◌, IfSome, length};
ghost use Rattle.mill_base.specs.Ranges.{MovesInRange, MoveInRange};
ghost use Rattle.mill_document.specs.Details.{column_at, column_numbers as column_numbers_of, column_of as column_of_reason, failure_of, leaf_of as leaf_of_reason, segment_of as segment_of_reason, triangle_at, triangle_number as triangle_number_of, triangle_of as triangle_of_reason};
ghost use Rattle.mill_document.specs.inner.Leaves.{IsLeaf};
ghost use Rattle.mill_job.specs.Columns.{IsColumn};
ghost use Rattle.mill_report.specs.Findings.{IsFinding, move_of};

use crate::failure::{Column, Failure, Segment, Triangle};
use crate::numbers::{
    column_numbers, fixture_number, leaf_of, move_number, test_of, triangle_number,
};
use crate::segment::segment;
use mill_base::Move;
use mill_job::Job;
use mill_part::Part;
use mill_verify::Reason;

/// The failure that a finding is, on this line, where the column in the way has this top, and with
/// this lift.
pub(crate) fn failure(
    job: &Job,
    part: &Part,
    moves: &[Move],
    reason: &Reason,
    line: u32,
    top: i32,
    lift: Option<i32>,
) -> Failure
    requires moves_ok { MovesInRange moves.now }
    requires finding { IsFinding job.now.fields part.now moves.now reason.now }
    ensures { result ≡ failure_of job.now.fields part.now moves.now reason.now line top lift }
{
    let number = move_number(reason);
    Failure {
        number,
        line,
        test: test_of(reason),
        triangle: triangle_of(part, reason),
        fixture: fixture_number(reason),
        column: column_of(job, reason, top),
        segment: segment_of(&moves[number as usize], reason),
        lift,
    }
}

fn triangle_of(part: &Part, reason: &Reason) -> Option<Triangle>
    requires { IfSome (triangle_number_of reason.now) (λ t. t < length part.now) }
    ensures { result ≡ triangle_of_reason part.now reason.now }
{
    let number = triangle_number(reason)?;
    Some(one_triangle(part, number))
}

fn one_triangle(part: &Part, number: u32) -> Triangle
    requires { number < length part.now }
    ensures { result ≡ triangle_at part.now number }
{
    Triangle {
        number,
        corners: part.tris()[number as usize],
    }
}

fn column_of(job: &Job, reason: &Reason, top: i32) -> Option<Column>
    requires { IfSome (column_numbers_of reason.now) (λ c. IsColumn job.now.fields c.0 c.1) }
    ensures { result ≡ column_of_reason job.now.fields top reason.now }
{
    let (row, column) = column_numbers(reason)?;
    Some(one_column(job, row, column, top))
}

/// A column of the job's, with this top.
pub(crate) fn one_column(job: &Job, row: u32, column: u32, top: i32) -> Column
    requires { IsColumn job.now.fields row column }
    ensures { result ≡ column_at job.now.fields row column top }
{
    Column {
        row,
        column,
        x: job.column_x(column),
        y: job.row_y(row),
        top,
    }
}

fn segment_of(step: &Move, reason: &Reason) -> Option<Segment>
    requires step_ok { MoveInRange step.now }
    requires leaf { IfSome (leaf_of_reason reason.now) IsLeaf }
    ensures { result ≡ segment_of_reason step.now reason.now }
{
    let leaf = leaf_of(reason)?;
    Some(segment(step, leaf))
}
