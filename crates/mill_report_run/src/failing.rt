//! The items of all moves that fail.
ghost use Rattle.std.specs.Prelude.{◌≡◌, All, IfOk, List, false, length, map};
ghost use Rattle.mill_base.specs.declared.motion.Move.{Move as OneMove};
ghost use Rattle.mill_job.specs.Columns.{home};
ghost use Rattle.mill_load.specs.Loads.{AreMoves};
ghost use Rattle.mill_load.specs.Programs.{IsProgramText, rules_of};
ghost use Rattle.mill_load.specs.Setup.{Fits};
ghost use Rattle.mill_ngc.specs.Lines.{ArePlaces};
ghost use Rattle.mill_report.specs.Findings.{AreFindings};
ghost use Rattle.mill_report_run.specs.inner.Sources.{texts_of_sources};
ghost use Rattle.mill_report_run.specs.Reports.{AreFailing, AreItems};
ghost use Rattle.serde_json.specs.View.{view};
ghost use Rattle.serde_json.specs.Written.{has_float};

use crate::lifts::lifts_of;
use crate::sources::Sources;
use mill_base::{Move, WantOfMemory};
use mill_document::{failing_values, tops_met};
use mill_job::Job;
use mill_load::rules_for;
use mill_ngc::{LineSpan, places};
use mill_part::SortedPart;
use mill_verify::Reason;
use serde_json::Value;
use std::alloc::Global;

/// The items of all findings. Without findings the program's text isn't looked at.
pub(crate) fn failing_items(
    alloc: Global,
    sources: &Sources,
    job: &Job,
    part: &SortedPart,
    moves: &[Move],
    found: &[Reason],
) -> Result<Vec<Value>, WantOfMemory>
    requires read { IsProgramText job.now.fields sources.now.program moves.now }
    requires moves_ok { AreMoves job.now.fields moves.now }
    requires found { AreFindings job.now.fields part.now moves.now found.now }
    ensures are { IfOk result (λ values.
        AreFailing (texts_of_sources sources.now) job.now.fields part.now moves.now found.now
        (map view values.items)) }
    ensures plain { IfOk result (λ values. All (λ v. has_float (view v) ≡ false) values.items) }
{
    if found.is_empty() {
        return Ok(Vec::new(alloc));
    }
    told_items(alloc, sources, job, part, moves, found)
}

/// The items of these findings: each with its place in the program's text, its lift, and the top
/// in its way.
fn told_items(
    alloc: Global,
    sources: &Sources,
    job: &Job,
    part: &SortedPart,
    moves: &[Move],
    found: &[Reason],
) -> Result<Vec<Value>, WantOfMemory>
    requires read { IsProgramText job.now.fields sources.now.program moves.now }
    requires moves_ok { AreMoves job.now.fields moves.now }
    requires found { AreFindings job.now.fields part.now moves.now found.now }
    ensures are { IfOk result (λ values.
        AreItems (texts_of_sources sources.now) job.now.fields part.now moves.now found.now
        (map view values.items)) }
    ensures plain { IfOk result (λ values. All (λ v. has_float (view v) ≡ false) values.items) }
{
    let places = places_of(alloc, sources, job)?;
    let lifts = lifts_of(alloc, job, part, moves, found)?;
    let whole = part.part();
    let tops = tops_met(alloc, job, whole, moves, found)?;
    failing_values(
        alloc,
        job,
        whole,
        moves,
        sources.program.text(),
        &places,
        found,
        &tops,
        &lifts,
    )
}

/// The place of each move in the program's text.
fn places_of(alloc: Global, sources: &Sources, job: &Job) -> Result<Vec<LineSpan>, WantOfMemory>
    requires { Fits sources.now.program }
    ensures are { IfOk result (λ places.
        ArePlaces (home job.now.fields) job.now.fields.unit (rules_of job.now.fields)
        sources.now.program places.items) }
    ensures all { IfOk result (λ places. (moves : List OneMove)
        → IsProgramText job.now.fields sources.now.program moves
        → length places.items ≡ length moves) }
{
    places(
        alloc,
        sources.program.text(),
        job.home(),
        job.fields.unit,
        rules_for(job),
    )
}
