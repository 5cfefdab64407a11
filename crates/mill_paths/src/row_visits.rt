ghost use Rattle.std.specs.Prelude.{◌≡◌, ◌≤◌, ◌++◌, pos, length, map as map_list, All, IfErr, IfOk, OnOk};
ghost use Rattle.std.specs.List.{flat_map};
ghost use Rattle.mill_base.specs.Lattices.{lattice_ys, node_count};
ghost use Rattle.mill_base.specs.declared.limits.TheConstants.{MAX_NODES};
ghost use Rattle.mill_job.specs.Jobs.{IsFrom};
ghost use Rattle.mill_job.specs.declared.limits.TheConstants.{MAX_DISTANCE};
ghost use Rattle.mill_paths.specs.Lattices.{finish_lattice as finish_lattice_of};
ghost use Rattle.mill_paths.specs.Limits.{change_count, most_changes, IsHeightsFault, IsListFault};
ghost use Rattle.mill_paths.specs.Visits.{AreRowVisits, HaveManyRowVisits, point_visit, point_visits, step_from as step_of};
ghost use Rattle.mill_paths.specs.inner.Rows.{IsFinishFault, IsInArea};

use crate::crew::PathCrew;
use crate::fault::PathFault;
use crate::lattices::{check_nodes, finish_lattice};
use crate::path::{Path, tip_height};
use crate::visit_list::VisitList;
use mill_base::Pt3;
use mill_job::Job;
use mill_links::Visit;
use mill_part::SortedPart;
use std::alloc::Global;

/// How many rows' paths are worked out before their visits are added. One path can have over a million
/// points, so no more paths than these are held at once; and they are enough to keep every thread of a
/// crew at work.
const ROWS_AT_ONCE: u32 = 64;

/// The finishing visits by a tolerance: row by row, along each row's path.
pub(crate) fn row_visits<C: PathCrew>(
    crew: &C,
    alloc: Global,
    job: &Job,
    part: &SortedPart,
    tol: i32,
) -> Result<Vec<Visit>, PathFault>
    requires crew_ok { C.ready }
    requires tol_ok { IsFrom (pos 0) MAX_DISTANCE tol }
    ensures list { IfOk result (λ visits. AreRowVisits job.now.fields part.now tol visits.items) }
    ensures few { IfOk result (λ visits. change_count visits.items ≤ most_changes) }
    ensures nodes { IfOk result (λ _. node_count (finish_lattice_of job.now.fields) ≤ MAX_NODES) }
    ensures fault { IfErr result
        (IsFinishFault (finish_lattice_of job.now.fields) (HaveManyRowVisits job.now.fields part.now tol)) }
{
    let rows = row_count(job)?;
    let mut list = VisitList::new(alloc);
    let mut first = 0;
    while first < rows {
        let end = rows.min(first + ROWS_AT_ONCE);
        let paths = crew.paths(alloc, job, part, tol, first..end)?;
        add_paths(job, &paths, &mut list)?;
        first = end;
    }
    Ok(list.into_visits())
}

/// How many rows the finishing lattice has, where it has at most 4,000,000 nodes.
fn row_count(job: &Job) -> Result<u32, PathFault>
    ensures value { IfOk result (λ rows. rows ≡
        length (lattice_ys (finish_lattice_of job.now.fields))) }
    ensures bound { IfOk result (λ rows. rows ≤ MAX_NODES) }
    ensures few { IfOk result (λ _. node_count (finish_lattice_of job.now.fields) ≤ MAX_NODES) }
    ensures fault { IfErr result (IsHeightsFault (finish_lattice_of job.now.fields)) }
{
    let lattice = finish_lattice(job);
    check_nodes(&lattice)?;
    Ok(lattice.node_rows())
}

/// Adds the visits along each path.
fn add_paths(job: &Job, paths: &[Vec<Pt3>], list: &mut VisitList) -> Result<(), PathFault>
    requires { All (λ path. All (IsInArea job.now.fields) path.items) paths.now }
    ensures ok { OnOk result
        (list.new.visits.items ≡ list.old.visits.items
        ++ flat_map (point_visits job.now.fields) (map_list (λ path. path.items) paths.now)) }
    ensures fault { IfErr result
        (IsListFault (list.old.visits.items
        ++ flat_map (point_visits job.now.fields) (map_list (λ path. path.items) paths.now))) }
{
    for path in paths {
        add_path(job, path, list)?;
    }
    Ok(())
}

/// Adds the visits at the points of a row's path, which are in the order in which they are come to.
fn add_path(job: &Job, points: &[Pt3], list: &mut VisitList) -> Result<(), PathFault>
    requires { All (IsInArea job.now.fields) points.now }
    ensures ok { OnOk result
        (list.new.visits.items ≡ list.old.visits.items ++ point_visits job.now.fields points.now) }
    ensures fault { IfErr result
        (IsListFault (list.old.visits.items ++ point_visits job.now.fields points.now)) }
{
    let Some(first) = points.first() else {
        return Ok(());
    };
    let mut before = *first;
    for point in points {
        add_point(job, before, *point, list)?;
        before = *point;
    }
    Ok(())
}

/// Adds the visit at a point of a row's path, raised by the lift, if that is under the top. `before` is
/// the point before it.
fn add_point(job: &Job, before: Pt3, point: Pt3, list: &mut VisitList) -> Result<(), PathFault>
    requires before_ok { IsInArea job.now.fields before }
    requires point_ok { IsInArea job.now.fields point }
    ensures ok { OnOk result
        (list.new.visits.items ≡ list.old.visits.items ++ point_visit job.now.fields before point) }
    ensures fault { IfErr result
        (IsListFault (list.old.visits.items ++ point_visit job.now.fields before point)) }
{
    match tip_height(job, Path::Finish, point.z) {
        Some(z) => {
            let step = step_from(job, before, point);
            list.push(Visit {
                at: Pt3 { z, ..point },
                step,
            })
        }
        None => Ok(()),
    }
}

/// The step of the visit at a point of a row's path: the way to it in x from the point before it, and at
/// least the raster.
fn step_from(job: &Job, before: Pt3, point: Pt3) -> i32
    requires before_ok { IsInArea job.now.fields before }
    requires point_ok { IsInArea job.now.fields point }
    ensures { result ≡ step_of job.now.fields before point }
{
    job.fields.raster.max((point.x - before.x).abs())
}
