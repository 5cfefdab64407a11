ghost use Rattle.std.specs.Prelude.{◌≡◌, ◌↔◌, ℕ, ◌<◌, ◌≤◌, ◌++◌, pos, ◌<ℤ◌, length, slice_index_or, All, IfErr, IfOk, IsErrOf, OnOk};
ghost use Rattle.mill_base.specs.Lattices.{node_count, nodes_of, IsLattice, IsMapLattice};
ghost use Rattle.mill_base.specs.declared.limits.TheConstants.{MAX_NODES};
ghost use Rattle.mill_drop.specs.Maps.{AreDropHeights};
ghost use Rattle.mill_job.specs.Jobs.{tool_of};
ghost use Rattle.mill_paths.specs.Lattices.{finish_lattice as finish_lattice_of, rough_lattice as rough_lattice_of};
ghost use Rattle.mill_paths.specs.Limits.{change_count, most_changes, HasManyNodes, IsHeightsFault, IsListFault};
ghost use Rattle.mill_paths.specs.Visits.{AreRoughVisits, AreFinishVisits, AreNodeVisits, HaveManyRoughVisits, HaveManyFinishVisits, HaveManyNodeVisits, IsVisit, layer_heights, rough_visits_of};
ghost use Rattle.mill_paths.specs.inner.Rows.{IsFinishFault};
ghost use Rattle.mill_paths.specs.declared.fault.PathFault.TheVariants.{TooManyNodes, TooManyVisits};

use crate::crew::PathCrew;
use crate::fault::PathFault;
use crate::lattices::{check_nodes, finish_lattice, rough_lattice};
use crate::path::Path;
use crate::row_visits::row_visits;
use crate::visit_list::VisitList;
use crate::zigzag::add_path;
use mill_base::Lattice;
use mill_job::Job;
use mill_links::Visit;
use mill_part::SortedPart;
use std::alloc::Global;

/// The visits of a plan's roughing, layer by layer from the top, and on each in zigzag order: at the
/// layer's height over each node of the rough lattice at which that is at least the rough stock over the
/// drop height of the job's tool. Without a layer there are none, and the lattice isn't gone over.
///
/// The visits are the same whatever the crew.
///
/// # Errors
///
/// `TooManyNodes` exactly where there is a layer and the rough lattice has more than 4,000,000
/// nodes; `TooManyVisits` exactly where it hasn't, and more than 1,000,000 visits differ from the one
/// before them, of which the first has none before it. Want of memory may come in the place of the
/// latter.
pub fn rough_visits<C: PathCrew>(
    crew: &C,
    alloc: Global,
    job: &Job,
    part: &SortedPart,
) -> Result<Vec<Visit>, PathFault>
    requires { C.ready }
    ensures list { IfOk result (λ visits. AreRoughVisits job.now.fields part.now visits.items) }
    ensures each { IfOk result (λ visits. All (IsVisit job.now.fields part.now) visits.items) }
    ensures few { IfOk result (λ visits. change_count visits.items ≤ most_changes) }
    ensures nodes { (nodes : ℕ) → IsErrOf result (TooManyNodes nodes)
        ↔ (((pos 0) <ℤ job.now.fields.layer) × HasManyNodes (rough_lattice_of job.now.fields) nodes) }
    ensures visits { IsErrOf result TooManyVisits
        → ((pos 0) <ℤ job.now.fields.layer) × HaveManyRoughVisits job.now.fields part.now }
    ensures many { OnOk result (¬ HaveManyRoughVisits job.now.fields part.now) }
{
    if job.fields.layer == 0 {
        return Ok(Vec::new(alloc));
    }
    let lattice = rough_lattice(job);
    let heights = drop_heights(crew, alloc, job, part, &lattice)?;
    let mut list = VisitList::new(alloc);
    add_layers(job, &heights, &mut list)?;
    Ok(list.into_visits())
}

/// The visits of a plan's finishing path, raised by the lift over the drop heights of the job's tool, where
/// that is under the top: without a tolerance in the job in zigzag order, over each node of the finishing
/// lattice.
///
/// Where the job has one, they are over the points of the path along each of that lattice's rows, with x
/// ascending in the rows 0, 2, 4 and so on, and descending in the others. The step of such a visit is the
/// way to it in x from the point before it in the row, and at least the raster.
///
/// The visits are the same whatever the crew.
///
/// # Errors
///
/// `TooManyNodes` exactly where the lattice has more than 4,000,000 nodes; `TooManyVisits` exactly
/// where it hasn't, and more than 1,000,000 visits differ from the one before them. Want of memory may
/// come in the place of the latter.
pub fn finish_visits<C: PathCrew>(
    crew: &C,
    alloc: Global,
    job: &Job,
    part: &SortedPart,
) -> Result<Vec<Visit>, PathFault>
    requires { C.ready }
    ensures list { IfOk result (λ visits. AreFinishVisits job.now.fields part.now visits.items) }
    ensures each { IfOk result (λ visits. All (IsVisit job.now.fields part.now) visits.items) }
    ensures few { IfOk result (λ visits. change_count visits.items ≤ most_changes) }
    ensures nodes { (nodes : ℕ) → IsErrOf result (TooManyNodes nodes)
        ↔ HasManyNodes (finish_lattice_of job.now.fields) nodes }
    ensures visits { IsErrOf result TooManyVisits → HaveManyFinishVisits job.now.fields part.now }
    ensures many { OnOk result (¬ HaveManyFinishVisits job.now.fields part.now) }
{
    match job.fields.path_tol {
        None => node_visits(crew, alloc, job, part),
        Some(tol) => row_visits(crew, alloc, job, part, tol),
    }
}

/// The finishing visits at the nodes of the finishing lattice, in zigzag order.
fn node_visits<C: PathCrew>(
    crew: &C,
    alloc: Global,
    job: &Job,
    part: &SortedPart,
) -> Result<Vec<Visit>, PathFault>
    requires { C.ready }
    ensures list { IfOk result (λ visits. AreNodeVisits job.now.fields part.now visits.items) }
    ensures few { IfOk result (λ visits. change_count visits.items ≤ most_changes) }
    ensures nodes { IfOk result (λ _. node_count (finish_lattice_of job.now.fields) ≤ MAX_NODES) }
    ensures fault { IfErr result
        (IsFinishFault (finish_lattice_of job.now.fields) (HaveManyNodeVisits job.now.fields part.now)) }
{
    let lattice = finish_lattice(job);
    let heights = drop_heights(crew, alloc, job, part, &lattice)?;
    let mut list = VisitList::new(alloc);
    add_path(job, &heights, Path::Finish, &mut list)?;
    Ok(list.into_visits())
}

/// The drop heights of the job's tool over the lattice, where that has at most 4,000,000 nodes.
fn drop_heights<C: PathCrew>(
    crew: &C,
    alloc: Global,
    job: &Job,
    part: &SortedPart,
    lattice: &Lattice,
) -> Result<Vec<i32>, PathFault>
    requires crew_ok { C.ready }
    requires lattice_ok { IsLattice lattice.now }
    ensures heights { IfOk result (λ heights. AreDropHeights (tool_of job.now.fields) part.now
        job.now.fields.floor lattice.now heights.items) }
    ensures lattice_ok { IfOk result (λ _. IsMapLattice lattice.now) }
    ensures fault { IfErr result (IsHeightsFault lattice.now) }
{
    check_nodes(lattice)?;
    let tool = job.tool();
    Ok(crew.drop_map(alloc, part, &tool, lattice, job.fields.floor)?)
}

/// Adds the visits of all layers. `heights` are the drop heights at the nodes of the rough lattice.
fn add_layers(job: &Job, heights: &[i32], list: &mut VisitList) -> Result<(), PathFault>
    requires layer_ok { (pos 0) <ℤ job.now.fields.layer }
    requires lattice_ok { IsMapLattice (rough_lattice_of job.now.fields) }
    requires heights_ok { length heights.now ≡ length (nodes_of (rough_lattice_of job.now.fields)) }
    ensures ok { OnOk result
        (list.new.visits.items ≡ list.old.visits.items ++ rough_visits_of job.now.fields heights.now) }
    ensures fault { IfErr result
        (IsListFault (list.old.visits.items ++ rough_visits_of job.now.fields heights.now)) }
{
    for number in 0..layer_count(job) {
        let z = layer_height(job, number);
        add_path(job, heights, Path::Layer { z }, list)?;
    }
    Ok(())
}

/// How many layers roughing takes off that end over the floor.
fn layer_count(job: &Job) -> u32
    requires { (pos 0) <ℤ job.now.fields.layer }
    ensures { result ≡ length (layer_heights job.now.fields) }
{
    job.fields.top.abs_diff(job.fields.floor).saturating_sub(1) / job.fields.layer.unsigned_abs()
}

/// The height at which the layer of this number ends, counted from 0 at the top, in units.
fn layer_height(job: &Job, number: u32) -> i32
    requires layer_ok { (pos 0) <ℤ job.now.fields.layer }
    requires number_ok { number < length (layer_heights job.now.fields) }
    ensures { result ≡ slice_index_or (layer_heights job.now.fields) number (pos 0) }
{
    let lowered = (number + 1) * job.fields.layer.unsigned_abs();
    job.fields.top - lowered as i32
}
