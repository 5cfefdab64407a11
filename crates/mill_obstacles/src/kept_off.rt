ghost use Rattle.std.specs.Prelude.{◌≡◌, IfOk};
ghost use Rattle.mill_obstacles.specs.Faces.{obstacles_of};

use crate::faces::{first_half, second_half};
use mill_base::WantOfMemory;
use mill_job::Job;
use mill_part::Part;
use std::alloc::Global;

/// The part's triangles, and behind them two for each fixture of the job: those of its upper face.
///
/// # Errors
///
/// Only want of memory. Where 2^32 triangles or more come together, that is one too: a part can't
/// hold them.
pub fn obstacles(alloc: Global, job: &Job, part: &Part) -> Result<Part, WantOfMemory>
    ensures { IfOk result (λ all. all ≡ obstacles_of job.now.fields part.now) }
{
    let fixtures = job.fixtures();
    let count = part.tris().len() + 2 * fixtures.len();
    if count > u32::MAX as usize {
        return Err(WantOfMemory);
    }
    let mut all = Vec::with_capacity(alloc, count)?;
    all.extend_from_slice(part.tris())?;
    for fixture in fixtures {
        all.extend_from_slice(&[first_half(fixture), second_half(fixture)])?;
    }
    Ok(Part::new(all))
}
