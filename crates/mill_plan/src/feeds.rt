//! Which of a plan's links are clear, tried side by side, or one after another.
ghost use Rattle.std.specs.Prelude.{◌≡◌, ◌<◌, length, All, IfOk};
ghost use Rattle.mill_base.specs.Ranges.{IsInUnitRange};
ghost use Rattle.mill_paths.specs.Visits.{IsVisit};
ghost use Rattle.mill_plan.specs.inner.Feeds.{IsLinkTask, SayClear, SaysClearTo, place_before as place_before_of};

use mill_base::{Pt3, WantOfMemory};
use mill_job::Job;
use mill_links::{Visit, goes_clear};
use mill_part::SortedPart;
use rayon::prelude::*;
use std::alloc::Global;
use std::thread::Threads;

/// For each visit, in their order, whether the link to it is clear, tried by the threads of a runtime.
pub(crate) fn clear_links_by_threads<R: Threads + Sync>(
    rt: &R,
    alloc: Global,
    job: &Job,
    part: &SortedPart,
    visits: &[Visit],
) -> Result<Vec<bool>, WantOfMemory>
    requires { All (IsVisit job.now.fields part.now) visits.now }
    ensures say { IfOk result (λ answers. SayClear job.now.fields part.now visits.now
        answers.items) }
    ensures each { IfOk result (λ answers. length answers.items ≡ length visits.now) }
{
    let answers = (0..visits.len())
        .into_par_iter()
        .map(
            |number: usize| -> bool
                requires { IsLinkTask job.now.fields part.now visits.now number }
                ensures { SaysClearTo job.entry.now.fields part.entry.now visits.entry.now number
                    result }
            { is_clear_to(job, part, visits, number) },
        )
        .collect(rt, alloc)?;
    Ok(answers)
}

/// For each visit, in their order, whether the link to it is clear, tried one after another.
pub(crate) fn clear_links_alone(
    alloc: Global,
    job: &Job,
    part: &SortedPart,
    visits: &[Visit],
) -> Result<Vec<bool>, WantOfMemory>
    requires { All (IsVisit job.now.fields part.now) visits.now }
    ensures say { IfOk result (λ answers. SayClear job.now.fields part.now visits.now
        answers.items) }
    ensures each { IfOk result (λ answers. length answers.items ≡ length visits.now) }
{
    let mut answers = Vec::with_capacity(alloc, visits.len())?;
    for number in 0..visits.len() {
        answers.push(is_clear_to(job, part, visits, number))?;
    }
    Ok(answers)
}

/// Whether the link to the visit of this number is clear.
fn is_clear_to(job: &Job, part: &SortedPart, visits: &[Visit], number: usize) -> bool
    requires { IsLinkTask job.now.fields part.now visits.now number }
    ensures { SaysClearTo job.now.fields part.now visits.now number result }
{
    let from = place_before(job, visits, number);
    goes_clear(job, part, from, visits[number])
}

/// Where the cutter is before it comes to the visit of this number.
fn place_before(job: &Job, visits: &[Visit], number: usize) -> Pt3
    requires visits_ok { All (λ visit. IsInUnitRange job.now.fields.unit visit.at) visits.now }
    requires number_ok { number < length visits.now }
    ensures value { result ≡ place_before_of job.now.fields visits.now number }
    ensures in_range { IsInUnitRange job.now.fields.unit result }
{
    if number == 0 {
        return job.home();
    }
    visits[number - 1].at
}
