//! What the tool keeps off where it is dropped, or led round a part.
ghost use Rattle.std.specs.Prelude.{◌≡◌, IfOk};
ghost use Rattle.mill_obstacles.specs.Faces.{obstacles_of};

use mill_base::WantOfMemory;
use mill_job::Job;
use mill_obstacles::{no_fixtures_no_more, obstacles};
use mill_part::Part;
use std::alloc::Global;

/// The part, and behind it the upper faces of the fixtures, where there are any. Without fixtures it
/// is the part itself, at no cost.
pub fn kept_off(alloc: Global, job: &Job, part: Part) -> Result<Part, WantOfMemory>
    ensures { IfOk result (λ all. all ≡ obstacles_of job.now.fields part) }
{
    // A law without code: without fixtures the obstacles are the part.
    no_fixtures_no_more();
    if job.fixtures().is_empty() {
        Ok(part)
    } else {
        obstacles(alloc, job, &part)
    }
}
