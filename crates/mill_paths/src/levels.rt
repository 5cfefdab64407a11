ghost use Rattle.std.specs.Prelude.{◌≡◌, ◌↔◌, ℕ, ◌<◌, ◌≤◌, ◌++◌, [], ◌∷◌, length, map as map_list, All, IfErr, IfOk, IsErrOf, OnOk};
ghost use Rattle.std.specs.List.{flat_map};
ghost use Rattle.mill_base.specs.Lattices.{node_count};
ghost use Rattle.mill_base.specs.declared.limits.TheConstants.{MAX_NODES};
ghost use Rattle.mill_level.specs.Waterlines.{seen};
ghost use Rattle.mill_paths.specs.Lattices.{finish_lattice as finish_lattice_of};
ghost use Rattle.mill_paths.specs.Limits.{change_count, most_changes, HasManyNodes, IsHeightsFault, IsListFault};
ghost use Rattle.mill_paths.specs.Visits.{AreLevelVisits, AreWaterlines, HaveManyLevelVisits, IsVisit, level_visits_of, outline_visits};
ghost use Rattle.mill_paths.specs.declared.fault.PathFault.TheVariants.{TooManyNodes, TooManyVisits};
ghost use Rattle.mill_paths.specs.inner.Levels.{point_visit};

use crate::crew::PathCrew;
use crate::fault::PathFault;
use crate::lattices::{check_nodes, finish_lattice};
use crate::visit_list::VisitList;
use mill_base::Pt3;
use mill_job::Job;
use mill_level::Chain;
use mill_links::Visit;
use mill_part::SortedPart;
use std::alloc::Global;

/// The visits of a plan's levels, from the first level on: along each chain of the tool's waterline there,
/// over the finishing lattice, and along a closed one up to its first point again. Without levels there
/// are none, and the lattice isn't gone over.
///
/// The visits are the same whatever the crew.
///
/// # Errors
///
/// `TooManyNodes` exactly where there are levels and the lattice has more than 4,000,000 nodes;
/// `TooManyVisits` exactly where it hasn't, and more than 1,000,000 visits differ from the one before
/// them. Want of memory may come in the place of the latter.
pub fn level_visits<C: PathCrew>(
    crew: &C,
    alloc: Global,
    job: &Job,
    part: &SortedPart,
) -> Result<Vec<Visit>, PathFault>
    requires { C.ready }
    ensures list { IfOk result (λ visits. AreLevelVisits job.now.fields part.now visits.items) }
    ensures each { IfOk result (λ visits. All (IsVisit job.now.fields part.now) visits.items) }
    ensures few { IfOk result (λ visits. change_count visits.items ≤ most_changes) }
    ensures nodes { (nodes : ℕ) → IsErrOf result (TooManyNodes nodes)
        ↔ ((0 < length job.now.fields.levels) × HasManyNodes (finish_lattice_of job.now.fields) nodes) }
    ensures visits { IsErrOf result TooManyVisits → HaveManyLevelVisits job.now.fields part.now }
    ensures many { OnOk result (¬ HaveManyLevelVisits job.now.fields part.now) }
{
    if job.fields.levels.as_slice().is_empty() {
        return Ok(Vec::new(alloc));
    }
    let waterlines = waterlines_of(crew, alloc, job, part)?;
    let mut list = VisitList::new(alloc);
    add_waterlines(job, &waterlines, &mut list)?;
    Ok(list.into_visits())
}

/// The waterlines of the job's tool at its levels over the finishing lattice, where that has at most
/// 4,000,000 nodes.
fn waterlines_of<C: PathCrew>(
    crew: &C,
    alloc: Global,
    job: &Job,
    part: &SortedPart,
) -> Result<Vec<Vec<Chain>>, PathFault>
    requires { C.ready }
    ensures waterlines { IfOk result (λ waterlines. AreWaterlines job.now.fields part.now
        (map_list (λ chains. map_list seen chains.items) waterlines.items)) }
    ensures few { IfOk result (λ _. node_count (finish_lattice_of job.now.fields) ≤ MAX_NODES) }
    ensures fault { IfErr result (IsHeightsFault (finish_lattice_of job.now.fields)) }
{
    let lattice = finish_lattice(job);
    check_nodes(&lattice)?;
    Ok(crew.waterlines(alloc, job, part)?)
}

/// Adds the visits along the chains of each waterline.
fn add_waterlines(
    job: &Job,
    waterlines: &[Vec<Chain>],
    list: &mut VisitList,
) -> Result<(), PathFault>
    ensures ok { OnOk result
        (list.new.visits.items ≡ list.old.visits.items
        ++ level_visits_of job.now.fields (map_list (λ chains. map_list seen chains.items) waterlines.now)) }
    ensures fault { IfErr result
        (IsListFault (list.old.visits.items
        ++ level_visits_of job.now.fields (map_list (λ chains. map_list seen chains.items) waterlines.now))) }
{
    for chains in waterlines {
        add_chains(job, chains, list)?;
    }
    Ok(())
}

/// Adds the visits along each chain.
fn add_chains(job: &Job, chains: &[Chain], list: &mut VisitList) -> Result<(), PathFault>
    ensures ok { OnOk result
        (list.new.visits.items ≡ list.old.visits.items
        ++ flat_map (outline_visits job.now.fields.raster) (map_list seen chains.now)) }
    ensures fault { IfErr result
        (IsListFault (list.old.visits.items
        ++ flat_map (outline_visits job.now.fields.raster) (map_list seen chains.now))) }
{
    for chain in chains {
        add_chain(job, chain, list)?;
    }
    Ok(())
}

/// Adds the visits along a chain: at its points, and at the first again where it is closed.
fn add_chain(job: &Job, chain: &Chain, list: &mut VisitList) -> Result<(), PathFault>
    ensures ok { OnOk result
        (list.new.visits.items ≡ list.old.visits.items
        ++ outline_visits job.now.fields.raster (seen chain.now)) }
    ensures fault { IfErr result
        (IsListFault (list.old.visits.items ++ outline_visits job.now.fields.raster (seen chain.now))) }
{
    add_points(job, &chain.points, list)?;
    if !chain.closed {
        return Ok(());
    }
    match chain.points.first() {
        Some(first) => list.push(visit_at(job, *first)),
        None => Ok(()),
    }
}

/// Adds a visit at each point.
fn add_points(job: &Job, points: &[Pt3], list: &mut VisitList) -> Result<(), PathFault>
    ensures ok { OnOk result
        (list.new.visits.items ≡ list.old.visits.items
        ++ map_list (point_visit job.now.fields.raster) points.now) }
    ensures fault { IfErr result
        (IsListFault (list.old.visits.items
        ++ map_list (point_visit job.now.fields.raster) points.now)) }
{
    for point in points {
        list.push(visit_at(job, *point))?;
    }
    Ok(())
}

/// The visit at a point of a waterline.
fn visit_at(job: &Job, at: Pt3) -> Visit
    ensures { result ≡ point_visit job.now.fields.raster at }
{
    Visit {
        at,
        step: job.fields.raster,
    }
}
