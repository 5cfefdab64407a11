ghost use Rattle.std.specs.Prelude.{◌≡◌, ◌<◌, ◌≤◌, IfErr, OnErr, OnOk};
ghost use Rattle.mill_base.specs.Lattices.{node_count, IsLattice};
ghost use Rattle.mill_base.specs.declared.limits.TheConstants.{MAX_NODES};
ghost use Rattle.mill_paths.specs.Lattices.{finish_lattice as finish_lattice_of, rough_lattice as rough_lattice_of};

use crate::fault::PathFault;
use mill_base::{Lattice, MAX_NODES};
use mill_job::Job;

/// The lattice that the finishing path goes over: the job's area by steps of its raster.
pub fn finish_lattice(job: &Job) -> Lattice
    ensures { result ≡ finish_lattice_of job.now.fields }
{
    Lattice {
        area: job.fields.area,
        step: job.fields.raster,
    }
}

/// The lattice that the roughing paths go over: the job's area by steps of its rough raster.
pub fn rough_lattice(job: &Job) -> Lattice
    ensures { result ≡ rough_lattice_of job.now.fields }
{
    Lattice {
        area: job.fields.area,
        step: job.fields.rough_raster,
    }
}

/// Whether the lattice has at most 4,000,000 nodes. The error tells how many it has.
pub(crate) fn check_nodes(lattice: &Lattice) -> Result<(), PathFault>
    requires { IsLattice lattice.now }
    ensures few { OnOk result (node_count lattice.now ≤ MAX_NODES) }
    ensures fault { IfErr
        result
        (λ fault. fault ≡ PathFault.TooManyNodes (node_count lattice.now)) }
    ensures many { OnErr result (MAX_NODES < node_count lattice.now) }
{
    let nodes = lattice.nodes();
    if nodes > MAX_NODES {
        return Err(PathFault::TooManyNodes { nodes });
    }
    Ok(())
}
