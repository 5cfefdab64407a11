ghost use Rattle.std.specs.Prelude.{◌≡◌, ◌≤◌, length, All, IfOk};
ghost use Rattle.mill_job.specs.Jobs.{FitsJob};
ghost use Rattle.mill_job.specs.Lists.{GivesList};
ghost use Rattle.mill_job.specs.declared.step_limits.TheConstants.{MAX_STEPS};

use crate::step::Step;
use crate::tables::steps_at;
use crate::{Job, JobFault, Key, Name, first_unknown, read_document};
use std::alloc::Global;

/// Reads the steps by which one stock is cut with one cutter after the other: a TOML 1.0 document with
/// one key, `steps`, an array of 1 to 16 tables.
///
/// Each table has a key `program`, a text of any length that names a program's file, and tells its
/// cutter by `cutter`, `radius`, `rise` and `run`, as a job does. All else is the job's: `job` is the
/// one for which all steps are cut, and its own cutter isn't looked at.
///
/// # Errors
///
/// The first in this order: the document's syntax; a key other than `steps`, the first by its
/// bytes; that `steps` is missing, or no array, or has a member that is no table, or not 1 to 16 of
/// them; then for each table in turn an unknown key, the first by its bytes; for each key in the
/// order above, that it is missing, of a wrong kind or out of range, which a program's name never
/// is; and a relation that fails: only a cone has a rise, only a cone has a run, rise is at most 16
/// times run, the job's band is at most the radius, the radius of its holder, if it has one, is
/// over it, and its slack, its overcut, its graze and its fixtures fit the cutter as they fit a
/// job's own.
pub fn read_list(alloc: Global, text: &[u8], job: &Job) -> Result<Vec<Step>, JobFault>
    ensures gives { GivesList job.now.fields text.now result }
    ensures fit { IfOk result (λ steps. All (λ step. FitsJob job.now.fields step.cutter) steps.items) }
    ensures some { IfOk result (λ steps. 1 ≤ length steps.items) }
    ensures few { IfOk result (λ steps. length steps.items ≤ MAX_STEPS) }
{
    let table = read_document(alloc, text)?;
    if let Some(key) = first_unknown(&table, &[Key::Steps]) {
        return Err(JobFault::Unknown(Name::copied(alloc, key.as_str())?));
    }
    steps_at(alloc, &table, job)
}
