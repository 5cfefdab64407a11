//! The paths along a plan's rows, worked out side by side, or one after another.
ghost use Rattle.std.specs.Prelude.{◌≡◌, ◌≤◌, ◌<◌, pos, length, map as map_list, IfOk};
ghost use Rattle.mill_base.specs.Lattices.{lattice_ys, node_count};
ghost use Rattle.mill_base.specs.declared.limits.TheConstants.{MAX_NODES};
ghost use Rattle.mill_job.specs.Jobs.{IsFrom};
ghost use Rattle.mill_job.specs.declared.limits.TheConstants.{MAX_DISTANCE};
ghost use Rattle.mill_paths.specs.Lattices.{finish_lattice as finish_lattice_of};
ghost use Rattle.mill_paths.specs.RowPaths.{AreTurnedPaths, IsTurnedPath, row_y};
ghost use Rattle.mill_paths.specs.Visits.{in_turn};
ghost use Rattle.mill_paths.specs.inner.Rows.{IsRowTask};

use crate::lattices::finish_lattice;
use mill_base::{Box2, Pt3, WantOfMemory};
use mill_drop::path_drop;
use mill_job::Job;
use mill_part::SortedPart;
use rayon::prelude::*;
use std::alloc::Global;
use std::ops::Range;
use std::thread::Threads;

/// The points of the paths along these rows, each in the order in which they are come to, by the threads
/// of a runtime.
pub(crate) fn paths_by_threads<R: Threads + Sync>(
    rt: &R,
    alloc: Global,
    job: &Job,
    part: &SortedPart,
    tol: i32,
    rows: Range<u32>,
) -> Result<Vec<Vec<Pt3>>, WantOfMemory>
    requires tol_ok { IsFrom (pos 0) MAX_DISTANCE tol }
    requires few { node_count (finish_lattice_of job.now.fields) ≤ MAX_NODES }
    requires order { rows.start ≤ rows.end }
    requires rows_ok { rows.end ≤ length (lattice_ys (finish_lattice_of job.now.fields)) }
    ensures { IfOk result (λ paths. AreTurnedPaths job.now.fields part.now tol rows.start
        rows.end (map_list (λ path. path.items) paths.items)) }
{
    rows.into_par_iter()
        .with_min_len(1)
        .map(
            |row: u32| -> Result<Vec<Pt3>, WantOfMemory>
                requires { IsRowTask job.now.fields tol row }
                ensures { IfOk result (λ path. IsTurnedPath job.entry.now.fields part.entry.now
                    tol row path.items) }
            { path_of(alloc, job, part, tol, row) },
        )
        .collect::<Result<Vec<Vec<Pt3>>, WantOfMemory>>(rt, alloc)?
}

/// The points of the paths along these rows, each in the order in which they are come to, one path after
/// another.
pub(crate) fn paths_alone(
    alloc: Global,
    job: &Job,
    part: &SortedPart,
    tol: i32,
    rows: Range<u32>,
) -> Result<Vec<Vec<Pt3>>, WantOfMemory>
    requires tol_ok { IsFrom (pos 0) MAX_DISTANCE tol }
    requires few { node_count (finish_lattice_of job.now.fields) ≤ MAX_NODES }
    requires order { rows.start ≤ rows.end }
    requires rows_ok { rows.end ≤ length (lattice_ys (finish_lattice_of job.now.fields)) }
    ensures { IfOk result (λ paths. AreTurnedPaths job.now.fields part.now tol rows.start
        rows.end (map_list (λ path. path.items) paths.items)) }
{
    let mut paths = Vec::new(alloc);
    for row in rows.start..rows.end {
        let path = path_of(alloc, job, part, tol, row)?;
        paths.push(path)?;
    }
    Ok(paths)
}

/// The points of the path along the row of this number, in the order in which they are come to: from the
/// least x in the rows 0, 2, 4 and so on, and from the greatest in the others.
fn path_of(
    alloc: Global,
    job: &Job,
    part: &SortedPart,
    tol: i32,
    row: u32,
) -> Result<Vec<Pt3>, WantOfMemory>
    requires { IsRowTask job.now.fields tol row }
    ensures { IfOk result (λ path. IsTurnedPath job.now.fields part.now tol row path.items) }
{
    let y = row_place(job, row);
    let tool = job.tool();
    let Box2 { x0, x1, .. } = job.fields.area;
    let mut path = path_drop(alloc, part, &tool, y, x0, x1, job.fields.floor, tol)?;
    turn(row, &mut path);
    Ok(path)
}

/// Turns the points of the path along the row of this number, which have x ascending, into the order in
/// which they are come to.
fn turn(row: u32, path: &mut Vec<Pt3>)
    ensures { path.new.items ≡ in_turn row path.old.items }
{
    if row % 2 != 0 {
        path.reverse();
    }
}

/// Where the row of this number lies in y.
fn row_place(job: &Job, row: u32) -> i32
    requires few { node_count (finish_lattice_of job.now.fields) ≤ MAX_NODES }
    requires row_ok { row < length (lattice_ys (finish_lattice_of job.now.fields)) }
    ensures { result ≡ row_y job.now.fields row }
{
    let lattice = finish_lattice(job);
    let (_, y) = lattice.node(row * lattice.node_columns());
    y
}
