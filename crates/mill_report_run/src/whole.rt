//! The whole report.
ghost use Rattle.std.specs.Prelude.{◌≡◌, ◌≤◌, IfOk, map};
ghost use Rattle.mill_answer.specs.Statuses.{status_code};
ghost use Rattle.mill_base.specs.Covers.{IsUnder};
ghost use Rattle.mill_base.specs.declared.limits.TheConstants.{MAX_WORKERS};
ghost use Rattle.mill_document.specs.Documents.{report_data, text_of};
ghost use Rattle.mill_load.specs.Loads.{AreMoves};
ghost use Rattle.mill_report_run.specs.inner.Judged.{IsJudged};
ghost use Rattle.mill_report_run.specs.inner.Lists.{ArePlain};
ghost use Rattle.mill_report_run.specs.inner.Sources.{texts_of_sources};
ghost use Rattle.mill_report_run.specs.Reports.{IsReportText, Read, most_left as most_left_of, summary_of as summary_of_verdict};
ghost use Rattle.serde_json.specs.View.{view};

use crate::line::verdict_words;
use crate::lists::{Lists, lists_of};
use crate::sources::{Sources, sums_of};
use mill_answer::{Status, status_of_verdict};
use mill_base::{Move, WantOfMemory};
use mill_crew::Threaded;
use mill_document::{Summary, Sums, report_text};
use mill_job::Job;
use mill_part::{Part, SortedPart};
use mill_verify::{Verdict, verify};
use std::alloc::Global;
use std::thread::Threads;

/// A report's text, and the exit status that goes with it.
#[derive(Debug, Drop)]
pub(crate) struct Written {
    pub text: Vec<u8>,
    pub status: Status,
}

/// The report on a program: its verdict, with the line that `verify` prints, and all that is wrong
/// with it.
///
/// `sources` has the texts as which `job`, `part` and `moves` were read; the report has the
/// checksums of exactly these. The moves that fail are told each with the first test that it
/// fails, on the stock that every move before it has cut; and of the columns left too high the
/// first 10,000, with the number of all. Where the program is accepted both lists are empty, and
/// nothing is looked for beyond the verdict.
///
/// The work of the verdict is shared by `workers` threads, from 1 to 64. The report doesn't depend
/// on their number. The only error is want of memory.
pub(crate) fn report<R: Threads + Sync>(
    rt: &R,
    alloc: Global,
    sources: Sources,
    job: &Job,
    part: Part,
    moves: &[Move],
    workers: u32,
) -> Result<Written, WantOfMemory>
    requires read { Read (texts_of_sources sources) job.now.fields part moves.now }
    requires moves_ok { AreMoves job.now.fields moves.now }
    requires some_workers { 1 ≤ workers }
    requires few_workers { workers ≤ MAX_WORKERS }
    ensures { IfOk result (λ report.
        IsReportText (texts_of_sources sources) job.now.fields part moves.now
        report.text.items (status_code report.status)) }
{
    let part = SortedPart::new(alloc, part)?;
    let verdict = judged(rt, alloc, job, &part, moves, workers)?;
    report_of_verdict(rt, alloc, sources, job, &part, moves, verdict)
}

/// The verdict, by so many workers.
fn judged<R: Threads + Sync>(
    rt: &R,
    alloc: Global,
    job: &Job,
    part: &SortedPart,
    moves: &[Move],
    workers: u32,
) -> Result<Verdict, WantOfMemory>
    requires under { IsUnder part.now job.now.fields.top }
    requires moves_ok { AreMoves job.now.fields moves.now }
    requires some_workers { 1 ≤ workers }
    requires few_workers { workers ≤ MAX_WORKERS }
    ensures { IfOk result (IsJudged job.now.fields part.now moves.now) }
{
    let crew = Threaded { rt, workers };
    let verdict = verify(&crew, alloc, job, part, moves)?;
    Ok(verdict)
}

/// The report on a program that has this verdict.
fn report_of_verdict<R: Threads>(
    rt: &R,
    alloc: Global,
    sources: Sources,
    job: &Job,
    part: &SortedPart,
    moves: &[Move],
    verdict: Verdict,
) -> Result<Written, WantOfMemory>
    requires read { Read (texts_of_sources sources) job.now.fields part.now moves.now }
    requires moves_ok { AreMoves job.now.fields moves.now }
    requires judged { IsJudged job.now.fields part.now moves.now verdict }
    ensures { IfOk result (λ report.
        IsReportText (texts_of_sources sources) job.now.fields part.now moves.now
        report.text.items (status_code report.status)) }
{
    let lists = lists_of(alloc, &sources, job, part, moves, verdict)?;
    let line = verdict_words(alloc, job, moves, verdict)?;
    let sums = sums_of(rt, sources);
    let text = document(alloc, &sums, job, moves, verdict, &line, lists)?;
    Ok(Written {
        text,
        status: status_of_verdict(verdict),
    })
}

/// The document of a verdict with these checksums, this line and these lists.
fn document(
    alloc: Global,
    sums: &Sums,
    job: &Job,
    moves: &[Move],
    verdict: Verdict,
    line: &[u8],
    lists: Lists,
) -> Result<Vec<u8>, WantOfMemory>
    requires { ArePlain lists }
    ensures { IfOk result (λ made. made.items ≡ text_of (report_data
        line.now
        sums.now
        (summary_of_verdict job.now.fields moves.now verdict lists.too_high)
        (map view lists.failing.items)
        (map view lists.left.items))) }
{
    let summary = summary_of(job, moves, verdict, lists.too_high);
    report_text(alloc, line, sums, &summary, lists.failing, lists.left)
}

/// The numbers of a report.
fn summary_of(job: &Job, moves: &[Move], verdict: Verdict, too_high: u64) -> Summary
    ensures { result ≡ summary_of_verdict job.now.fields moves.now verdict too_high }
{
    Summary {
        status: status_of_verdict(verdict).code(),
        unit: job.fields.unit,
        moves: moves.len() as u64,
        columns: job.column_total(),
        left: most_left(verdict),
        too_high,
    }
}

/// What is left at most, which an acceptance alone tells.
fn most_left(verdict: Verdict) -> Option<i32>
    ensures { result ≡ most_left_of verdict }
{
    match verdict {
        Verdict::Accept { most_left, .. } => Some(most_left),
        Verdict::Reject(_) => None,
    }
}
