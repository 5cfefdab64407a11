//! The two lists of a report: the moves that fail, and the columns left too high.
ghost use Rattle.std.specs.Prelude.{◌≡◌, [], IfOk};
ghost use Rattle.mill_load.specs.Loads.{AreMoves};
ghost use Rattle.mill_load.specs.Programs.{IsProgramText};
ghost use Rattle.mill_report_run.specs.inner.Lists.{AreLists};
ghost use Rattle.mill_report_run.specs.inner.Sources.{texts_of_sources};
ghost use Rattle.mill_verify.specs.declared.verdict.Reason.{Reason as Why};
ghost use Rattle.mill_verify.specs.Verdicts.{IsVerdict};

use crate::failing::failing_items;
use crate::sources::Sources;
use mill_base::{Move, WantOfMemory};
use mill_document::left_values;
use mill_job::Job;
use mill_part::SortedPart;
use mill_report::{all_findings, first_is_verdict, first_left_is_verdict, verdict_is_first};
use mill_verify::{Verdict, one_verdict};
use serde_json::Value;
use std::alloc::Global;

/// The items of the moves that fail and of the columns left too high that are told of, and how
/// many columns are.
#[derive(Drop)]
pub(crate) struct Lists {
    pub failing: Vec<Value>,
    pub left: Vec<Value>,
    pub too_high: u64,
}

/// The lists of a verdict. Where the program is accepted nothing is looked for.
pub(crate) fn lists_of(
    alloc: Global,
    sources: &Sources,
    job: &Job,
    part: &SortedPart,
    moves: &[Move],
    verdict: Verdict,
) -> Result<Lists, WantOfMemory>
    requires read { IsProgramText job.now.fields sources.now.program moves.now }
    requires moves_ok { AreMoves job.now.fields moves.now }
    requires verdict { IsVerdict job.now.fields part.now moves.now verdict }
    ensures { IfOk result
        (AreLists (texts_of_sources sources.now) job.now.fields part.now moves.now verdict) }
{
    match verdict {
        Verdict::Accept { .. } => Ok(no_lists(alloc)),
        Verdict::Reject(_) => finding_lists(alloc, sources, job, part, moves),
    }
}

fn no_lists(alloc: Global) -> Lists
    ensures failing { result.failing.items ≡ [] }
    ensures left { result.left.items ≡ [] }
    ensures too_high { result.too_high ≡ 0 }
{
    Lists {
        failing: Vec::new(alloc),
        left: Vec::new(alloc),
        too_high: 0,
    }
}

/// The lists of all findings: those of the rejection that is the verdict, if one is.
fn finding_lists(
    alloc: Global,
    sources: &Sources,
    job: &Job,
    part: &SortedPart,
    moves: &[Move],
) -> Result<Lists, WantOfMemory>
    requires read { IsProgramText job.now.fields sources.now.program moves.now }
    requires moves_ok { AreMoves job.now.fields moves.now }
    ensures { IfOk result (λ lists. (reason : Why)
        → IsVerdict job.now.fields part.now moves.now (Verdict.Reject reason)
        → AreLists (texts_of_sources sources.now) job.now.fields part.now moves.now
        (Verdict.Reject reason) lists) }
{
    // Laws without code: the reason is the first finding, or the first column left too high.
    one_verdict();
    first_is_verdict();
    verdict_is_first();
    first_left_is_verdict();
    let found = all_findings(alloc, job, part, moves)?;
    let failing = failing_items(alloc, sources, job, part, moves, &found.failing)?;
    let left = left_values(alloc, job, &found.left.shown)?;
    Ok(Lists {
        failing,
        left,
        too_high: found.left.total,
    })
}
