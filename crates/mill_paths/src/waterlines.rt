//! The waterlines of a plan's levels, worked out side by side, or one after another.
ghost use Rattle.std.specs.Prelude.{◌<◌, length, map as map_list, IfOk};
ghost use Rattle.mill_job.specs.Jobs.{tool_of};
ghost use Rattle.mill_level.specs.Waterlines.{IsWaterline, seen};
ghost use Rattle.mill_paths.specs.Lattices.{finish_lattice as finish_lattice_of};
ghost use Rattle.mill_paths.specs.Visits.{AreWaterlines};
ghost use Rattle.mill_paths.specs.inner.Levels.{level_at};

use crate::lattices::finish_lattice;
use mill_base::WantOfMemory;
use mill_job::Job;
use mill_level::{Chain, waterline};
use mill_part::SortedPart;
use rayon::prelude::*;
use std::alloc::Global;
use std::thread::Threads;

/// The waterlines of the job's tool at its levels over the finishing lattice, by the threads of a
/// runtime.
pub(crate) fn waterlines_by_threads<R: Threads + Sync>(
    rt: &R,
    alloc: Global,
    job: &Job,
    part: &SortedPart,
) -> Result<Vec<Vec<Chain>>, WantOfMemory>
    ensures { IfOk result (λ waterlines. AreWaterlines job.now.fields part.now (map_list
        (λ chains. map_list seen chains.items) waterlines.items)) }
{
    (0..job.fields.levels.as_slice().len())
        .into_par_iter()
        .with_min_len(1)
        .map(
            |number: usize| -> Result<Vec<Chain>, WantOfMemory>
                requires { number < length job.now.fields.levels }
                ensures { IfOk result (λ chains. IsWaterline (tool_of job.entry.now.fields) part.entry.now (level_at job.entry.now.fields number) (finish_lattice_of job.entry.now.fields) (map_list seen chains.items)) }
            { waterline_at(alloc, job, part, number) },
        )
        .collect::<Result<Vec<Vec<Chain>>, WantOfMemory>>(rt, alloc)?
}

/// The waterlines of the job's tool at its levels over the finishing lattice, one after another.
pub(crate) fn waterlines_alone(
    alloc: Global,
    job: &Job,
    part: &SortedPart,
) -> Result<Vec<Vec<Chain>>, WantOfMemory>
    ensures { IfOk result (λ waterlines. AreWaterlines job.now.fields part.now (map_list
        (λ chains. map_list seen chains.items) waterlines.items)) }
{
    let mut waterlines = Vec::new(alloc);
    for number in 0..job.fields.levels.as_slice().len() {
        let chains = waterline_at(alloc, job, part, number)?;
        waterlines.push(chains)?;
    }
    Ok(waterlines)
}

/// The waterline of the job's tool at the level of this number, over the finishing lattice.
fn waterline_at(
    alloc: Global,
    job: &Job,
    part: &SortedPart,
    number: usize,
) -> Result<Vec<Chain>, WantOfMemory>
    requires { number < length job.now.fields.levels }
    ensures { IfOk result (λ chains. IsWaterline (tool_of job.now.fields) part.now (level_at
        job.now.fields number) (finish_lattice_of job.now.fields) (map_list seen chains.items)) }
{
    let z = job.fields.levels.as_slice()[number];
    let lattice = finish_lattice(job);
    let tool = job.tool();
    // The nodes were counted before, and so only memory can be wanting.
    waterline(alloc, part, &tool, z, &lattice).map_err(|_| WantOfMemory)
}
