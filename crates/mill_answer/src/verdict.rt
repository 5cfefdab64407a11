//! The line and the status of a verdict.
ghost use Rattle.std.specs.Prelude.{◌≡◌, ◌<◌, ◌++◌, [], length, map, IfOk};
ghost use Rattle.mill_answer.specs.Lines.{line, word_text};
ghost use Rattle.mill_answer.specs.Statuses.{status_code};
ghost use Rattle.mill_answer.specs.Verify.{NamesMove, NamesVerdictMove, blocked_words, obstacle_words, reason_words, verdict_line, verdict_status};

use crate::line::line_of;
use crate::print::{line_of_column, line_with_margins};
use crate::status::Status;
use crate::word::Word;
use crate::word::Word::{Length, Number, Text};
use mill_base::{Move, Unit, WantOfMemory};
use mill_job::Job;
use mill_sweep::Leaf;
use mill_verify::{Reason, Verdict};
use std::alloc::Global;

/// The status of a verdict.
pub fn status_of_verdict(verdict: Verdict) -> Status
    ensures { status_code result ≡ verdict_status verdict }
{
    match verdict {
        Verdict::Accept { .. } => Status::Done,
        Verdict::Reject(_) => Status::Rejected,
    }
}

/// The line of a verdict on these moves, with lengths in the job's unit.
///
/// Only want of memory keeps it from the line.
pub fn line_of_verdict(
    alloc: Global,
    job: &Job,
    moves: &[Move],
    verdict: Verdict,
) -> Result<Vec<u8>, WantOfMemory>
    requires { NamesVerdictMove moves.now verdict }
    ensures { IfOk result (λ made. made.items ≡ verdict_line job.now.fields moves.now verdict) }
{
    match verdict {
        Verdict::Accept {
            moves: count,
            columns,
            most_left,
        } => line_of_acceptance(alloc, job, count, columns, most_left),
        Verdict::Reject(reason) => {
            line_of_reason(alloc, &[Text(b"rejected")], moves, reason, job.fields.unit)
        }
    }
}

fn line_of_acceptance(
    alloc: Global,
    job: &Job,
    count: u64,
    columns: u64,
    most_left: i32,
) -> Result<Vec<u8>, WantOfMemory>
    ensures { IfOk result (λ made. made.items ≡ verdict_line job.now.fields [] (Verdict.Accept count columns most_left)) }
{
    let unit = job.fields.unit;
    let words = [
        Text(b"accepted"),
        Text(b"moves"),
        Number(count),
        Text(b"columns"),
        Number(columns),
        Text(b"left"),
        Length(most_left, unit),
        Text(b"band"),
        Length(job.fields.band, unit),
        Text(b"allowance"),
        Length(job.fields.allowance, unit),
    ];
    line_with_margins(alloc, &words, job.fields.overcut, job.fields.slack, unit)
}

/// The line of the words `start` and then those of a reason, which counts these moves. Lengths are in
/// this unit.
///
/// Only want of memory keeps it from the line.
pub fn line_of_reason(
    alloc: Global,
    start: &[Word<'_>],
    moves: &[Move],
    reason: Reason,
    unit: Unit,
) -> Result<Vec<u8>, WantOfMemory>
    requires { NamesMove moves.now reason }
    ensures { IfOk result (λ made. made.items ≡
        line (map word_text start.now ++ reason_words unit moves.now reason)) }
{
    match reason {
        Reason::Floor { at } => line_of_floor(alloc, start, moves, at, unit),
        Reason::Gouge { at, tri, leaf } => {
            line_of_obstacle(alloc, start, b"gouge", b"triangle", at, tri, leaf)
        }
        Reason::Holder { at, tri, leaf } => {
            line_of_obstacle(alloc, start, b"holder", b"triangle", at, tri, leaf)
        }
        Reason::Fixture { at, fixture, leaf } => {
            line_of_obstacle(alloc, start, b"fixture", b"box", at, fixture, leaf)
        }
        Reason::HolderFixture { at, fixture, leaf } => {
            line_of_obstacle(alloc, start, b"holder-fixture", b"box", at, fixture, leaf)
        }
        Reason::Rapid { at, row, col, leaf } => {
            line_of_blocked(alloc, start, b"rapid", at, row, col, leaf)
        }
        Reason::Cut { at, row, col, leaf } => {
            line_of_blocked(alloc, start, b"cut", at, row, col, leaf)
        }
        Reason::HolderStock { at, row, col, leaf } => {
            line_of_blocked(alloc, start, b"holder-stock", at, row, col, leaf)
        }
        Reason::Left { row, col, top } => {
            line_of_column(alloc, start, b"left", row, col, top, unit)
        }
    }
}

fn line_of_floor(
    alloc: Global,
    start: &[Word<'_>],
    moves: &[Move],
    at: u64,
    unit: Unit,
) -> Result<Vec<u8>, WantOfMemory>
    requires { at < length moves.now }
    ensures { IfOk result (λ made. made.items ≡
        line (map word_text start.now ++ reason_words unit moves.now (Reason.Floor at))) }
{
    line_of(
        alloc,
        start,
        &[
            Text(b"floor"),
            Text(b"move"),
            Number(at),
            Text(b"z"),
            Length(moves[at as usize].to.z, unit),
        ],
    )
}

// The line of a move on which a triangle or a fixture, as `name` says, stops the cutter or the
// holder, as `what` says.
fn line_of_obstacle<'x>(
    alloc: Global,
    start: &[Word<'_>],
    what: &'x [u8],
    name: &'x [u8],
    at: u64,
    number: u32,
    leaf: Leaf,
) -> Result<Vec<u8>, WantOfMemory>
    ensures { IfOk result (λ made. made.items ≡
        line (map word_text start.now ++ obstacle_words what.now name.now at number leaf)) }
{
    line_of(
        alloc,
        start,
        &[
            Text(what),
            Text(b"move"),
            Number(at),
            Text(name),
            Number(u64::from(number)),
            Text(b"leaf"),
            Number(u64::from(leaf.d)),
            Number(leaf.k),
        ],
    )
}

// The line of a move on which a column stops the cutter or the holder, as `what` says.
fn line_of_blocked(
    alloc: Global,
    start: &[Word<'_>],
    what: &[u8],
    at: u64,
    row: u32,
    col: u32,
    leaf: Leaf,
) -> Result<Vec<u8>, WantOfMemory>
    ensures { IfOk result (λ made. made.items ≡
        line (map word_text start.now ++ blocked_words what.now at row col leaf)) }
{
    line_of(
        alloc,
        start,
        &[
            Text(what),
            Text(b"move"),
            Number(at),
            Text(b"row"),
            Number(u64::from(row)),
            Text(b"column"),
            Number(u64::from(col)),
            Text(b"leaf"),
            Number(u64::from(leaf.d)),
            Number(leaf.k),
        ],
    )
}
