//! Who works out waterlines, and paths along rows.
ghost use Rattle.std.specs.Prelude.{◌≡◌, ◌≤◌, pos, length, map as map_list, IfOk};
ghost use Rattle.mill_base.specs.Lattices.{lattice_ys, node_count};
ghost use Rattle.mill_base.specs.declared.limits.TheConstants.{MAX_NODES};
ghost use Rattle.mill_job.specs.Jobs.{IsFrom};
ghost use Rattle.mill_job.specs.declared.limits.TheConstants.{MAX_DISTANCE};
ghost use Rattle.mill_level.specs.Waterlines.{seen};
ghost use Rattle.mill_paths.specs.Lattices.{finish_lattice as finish_lattice_of};
ghost use Rattle.mill_paths.specs.RowPaths.{AreTurnedPaths};
ghost use Rattle.mill_paths.specs.Visits.{AreWaterlines};

use crate::row_paths::{paths_alone, paths_by_threads};
use crate::waterlines::{waterlines_alone, waterlines_by_threads};
use mill_base::{Pt3, WantOfMemory};
use mill_crew::{Alone, Threaded};
use mill_drop::DropCrew;
use mill_job::Job;
use mill_level::Chain;
use mill_part::SortedPart;
use std::alloc::Global;
use std::ops::Range;
use std::thread::Threads;

/// A crew that works out waterlines and the paths along rows, beside drop heights. A runtime's threads are as
/// many as the machine has processors.
///
/// What is made doesn't depend on it. Lengths are in the job's units, and the only error is want of memory.
pub trait PathCrew: DropCrew {
    /// The waterlines of the job's tool at its levels, from the first level on, over the finishing
    /// lattice, which has at most 4,000,000 nodes.
    fn waterlines(
        &self,
        alloc: Global,
        job: &Job,
        part: &SortedPart,
    ) -> Result<Vec<Vec<Chain>>, WantOfMemory>
        requires crew_ok { Self.ready }
        requires few { node_count (finish_lattice_of job.now.fields) ≤ MAX_NODES }
        ensures { IfOk result (λ waterlines. AreWaterlines job.now.fields part.now (map_list
            (λ chains. map_list seen chains.items) waterlines.items)) };

    /// The points of the paths by this tolerance along these rows of the finishing lattice, each in the
    /// order in which they are come to.
    fn paths(
        &self,
        alloc: Global,
        job: &Job,
        part: &SortedPart,
        tol: i32,
        rows: Range<u32>,
    ) -> Result<Vec<Vec<Pt3>>, WantOfMemory>
        requires crew_ok { Self.ready }
        requires tol_ok { IsFrom (pos 0) MAX_DISTANCE tol }
        requires few { node_count (finish_lattice_of job.now.fields) ≤ MAX_NODES }
        requires order { rows.start ≤ rows.end }
        requires rows_ok { rows.end ≤ length (lattice_ys (finish_lattice_of job.now.fields)) }
        ensures { IfOk result (λ paths. AreTurnedPaths job.now.fields part.now tol rows.start
            rows.end (map_list (λ path. path.items) paths.items)) };
}

impl<'a, R: Threads + Sync> PathCrew for Threaded<'a, R> {
    fn waterlines(
        &self,
        alloc: Global,
        job: &Job,
        part: &SortedPart,
    ) -> Result<Vec<Vec<Chain>>, WantOfMemory> {
        waterlines_by_threads(self.rt, alloc, job, part)
    }

    fn paths(
        &self,
        alloc: Global,
        job: &Job,
        part: &SortedPart,
        tol: i32,
        rows: Range<u32>,
    ) -> Result<Vec<Vec<Pt3>>, WantOfMemory> {
        paths_by_threads(self.rt, alloc, job, part, tol, rows)
    }
}

impl PathCrew for Alone {
    fn waterlines(
        &self,
        alloc: Global,
        job: &Job,
        part: &SortedPart,
    ) -> Result<Vec<Vec<Chain>>, WantOfMemory> {
        waterlines_alone(alloc, job, part)
    }

    fn paths(
        &self,
        alloc: Global,
        job: &Job,
        part: &SortedPart,
        tol: i32,
        rows: Range<u32>,
    ) -> Result<Vec<Vec<Pt3>>, WantOfMemory> {
        paths_alone(alloc, job, part, tol, rows)
    }
}
