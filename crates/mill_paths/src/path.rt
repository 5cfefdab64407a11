ghost use Rattle.std.specs.Prelude.{◌≡◌, ◌<◌, length, option_to_list};
ghost use Rattle.mill_base.specs.Lattices.{nodes_of, IsMapLattice};
ghost use Rattle.mill_paths.specs.inner.Paths.{path_height, path_lattice, path_visit};

use crate::lattices::{finish_lattice, rough_lattice};
use mill_base::{Lattice, Pt3};
use mill_job::Job;
use mill_links::Visit;

/// A path over a lattice.
#[derive(Clone, Copy, Debug, PartialEq, Eq)]
pub(crate) enum Path {
    /// Roughing on the layer of this height, in units.
    Layer { z: i32 },
    /// The finishing path.
    Finish,
}

/// The lattice that the path goes over.
pub(crate) fn lattice_of(job: &Job, path: Path) -> Lattice
    ensures { result ≡ path_lattice job.now.fields path }
{
    match path {
        Path::Layer { .. } => rough_lattice(job),
        Path::Finish => finish_lattice(job),
    }
}

/// The path's visit at the node of this number, if it comes there. `heights` are the drop heights
/// at the nodes.
pub(crate) fn visit_of(job: &Job, heights: &[i32], path: Path, number: u32) -> Option<Visit>
    requires lattice_ok { IsMapLattice (path_lattice job.now.fields path) }
    requires heights_ok { length heights.now ≡
        length (nodes_of (path_lattice job.now.fields path)) }
    requires number_ok { number < length (nodes_of (path_lattice job.now.fields path)) }
    ensures { option_to_list result ≡ path_visit job.now.fields heights.now path number }
{
    let z = tip_height(job, path, heights[number as usize])?;
    let lattice = lattice_of(job, path);
    let (x, y) = lattice.node(number);
    Some(Visit {
        at: Pt3 { x, y, z },
        step: lattice.step,
    })
}

/// How high the tip is over a node with this drop height; none where the path doesn't come there.
pub(crate) fn tip_height(job: &Job, path: Path, drop: i32) -> Option<i32>
    ensures { result ≡ path_height job.now.fields path drop }
{
    match path {
        Path::Layer { z } => {
            let least = i64::from(drop) + i64::from(job.fields.rough_stock);
            if least <= i64::from(z) { Some(z) } else { None }
        }
        Path::Finish => {
            if drop < job.fields.top - job.fields.lift {
                Some(drop + job.fields.lift)
            } else {
                None
            }
        }
    }
}
