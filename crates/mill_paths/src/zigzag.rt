ghost use Rattle.std.specs.Prelude.{◌≡◌, ◌+◌, ◌*◌, ◌<◌, ◌≤◌, ◌++◌, length, slice_index, IfErr, OnOk};
ghost use Rattle.std.specs.List.{flat_map};
ghost use Rattle.mill_base.specs.Lattices.{lattice_xs, lattice_ys, nodes_of, IsMapLattice};
ghost use Rattle.mill_paths.specs.Lattices.{zigzag_row};
ghost use Rattle.mill_paths.specs.Limits.{IsListFault};
ghost use Rattle.mill_base.specs.declared.limits.TheConstants.{MAX_NODES};
ghost use Rattle.mill_paths.specs.inner.Paths.{path_lattice, path_visit, path_visits};

use crate::fault::PathFault;
use crate::path::{Path, lattice_of, visit_of};
use crate::visit_list::VisitList;
use mill_job::Job;

/// Adds the visits of a path, in zigzag order. `heights` are the drop heights at the nodes of its
/// lattice.
pub(crate) fn add_path(
    job: &Job,
    heights: &[i32],
    path: Path,
    list: &mut VisitList,
) -> Result<(), PathFault>
    requires lattice_ok { IsMapLattice (path_lattice job.now.fields path) }
    requires heights_ok { length heights.now ≡ length (nodes_of (path_lattice job.now.fields path)) }
    ensures ok { OnOk result
        (list.new.visits.items ≡ list.old.visits.items ++ path_visits job.now.fields heights.now path) }
    ensures fault { IfErr result
        (IsListFault (list.old.visits.items ++ path_visits job.now.fields heights.now path)) }
{
    let lattice = lattice_of(job, path);
    let columns = lattice.node_columns();
    for row in 0..lattice.node_rows() {
        add_row(job, heights, path, columns, row, list)?;
    }
    Ok(())
}

/// Adds the visits of a path on one row.
fn add_row(
    job: &Job,
    heights: &[i32],
    path: Path,
    columns: u32,
    row: u32,
    list: &mut VisitList,
) -> Result<(), PathFault>
    requires lattice_ok { IsMapLattice (path_lattice job.now.fields path) }
    requires heights_ok { length heights.now ≡ length (nodes_of (path_lattice job.now.fields path)) }
    requires columns_ok { columns ≡ length (lattice_xs (path_lattice job.now.fields path)) }
    requires row_ok { row < length (lattice_ys (path_lattice job.now.fields path)) }
    ensures ok { OnOk result
        (list.new.visits.items ≡ list.old.visits.items
        ++ flat_map (path_visit job.now.fields heights.now path) (zigzag_row columns row)) }
    ensures fault { IfErr result
        (IsListFault (list.old.visits.items
        ++ flat_map (path_visit job.now.fields heights.now path) (zigzag_row columns row))) }
{
    for place in 0..columns {
        add_node(job, heights, path, node_number(columns, row, place), list)?;
    }
    Ok(())
}

/// Adds the visit of a path at the node of this number, if it comes there.
fn add_node(
    job: &Job,
    heights: &[i32],
    path: Path,
    number: u32,
    list: &mut VisitList,
) -> Result<(), PathFault>
    requires lattice_ok { IsMapLattice (path_lattice job.now.fields path) }
    requires heights_ok { length heights.now ≡ length (nodes_of (path_lattice job.now.fields path)) }
    requires number_ok { number < length (nodes_of (path_lattice job.now.fields path)) }
    ensures ok { OnOk result
        (list.new.visits.items ≡ list.old.visits.items
        ++ path_visit job.now.fields heights.now path number) }
    ensures fault { IfErr result
        (IsListFault (list.old.visits.items ++ path_visit job.now.fields heights.now path number)) }
{
    match visit_of(job, heights, path, number) {
        Some(visit) => list.push(visit),
        None => Ok(()),
    }
}

/// The number of the node at this place on the path along a row. The places go from the least x in
/// the rows 0, 2, 4 and so on, and from the greatest in the others.
fn node_number(columns: u32, row: u32, place: u32) -> u32
    requires place_ok { place < columns }
    requires row_ok { row * columns + columns ≤ MAX_NODES }
    ensures { result ≡ slice_index (zigzag_row columns row) place }
{
    let first = row * columns;
    if row % 2 == 0 {
        first + place
    } else {
        first + (columns - 1 - place)
    }
}
