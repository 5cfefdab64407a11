ghost use Rattle.std.specs.Prelude.{◌↔◌, ◌≤◌, ℕ, IfOk, IsErrOf, map as map_list};
ghost use Rattle.mill_base.specs.Numbers.{Within};
ghost use Rattle.mill_base.specs.declared.limits.TheConstants.{MAX_COORDINATE, MAX_NODES};
ghost use Rattle.mill_base.specs.Lattices.{node_count, IsLattice};
ghost use Rattle.mill_level.specs.declared.fault.LevelFault.TheVariants.{TooManyNodes};
ghost use Rattle.mill_level.specs.Waterlines.{HasManyNodes, IsWaterline, seen};

use crate::chain::Chain;
use crate::cut::Cut;
use crate::fault::LevelFault;
use crate::map::level_map;
use crate::outline::chains_at;
use crate::trails::trails;
use mill_base::{Lattice, MAX_NODES, Tool};
use mill_part::SortedPart;
use std::alloc::Global;

/// The waterline of a part at height z: the chains of the places between nodes of the lattice at
/// which the tool gouges and neighbours at which it doesn't, each at the last free place before
/// the blocked ones, which are on the left of the way. They come in the order of their first points.
///
/// Lengths are in units, of at most `MAX_COORDINATE` in magnitude.
///
/// # Errors
///
/// `TooManyNodes` exactly where the lattice has more than 4,000,000 nodes. The only other one is want
/// of memory.
pub fn waterline(
    alloc: Global,
    part: &SortedPart,
    tool: &Tool,
    z: i32,
    lattice: &Lattice,
) -> Result<Vec<Chain>, LevelFault>
    requires z_ok { Within MAX_COORDINATE z }
    requires lattice_ok { IsLattice lattice.now }
    ensures chains { IfOk result (λ chains. IsWaterline tool.now part.now z lattice.now (map_list seen chains.items)) }
    ensures few { IfOk result (λ _. node_count lattice.now ≤ MAX_NODES) }
    ensures nodes { (nodes : ℕ) → IsErrOf result (TooManyNodes nodes) ↔ HasManyNodes lattice.now nodes }
{
    let nodes = lattice.nodes();
    if nodes > MAX_NODES {
        return Err(LevelFault::TooManyNodes { nodes });
    }
    let cut = Cut {
        part,
        tool: *tool,
        z,
    };
    let map = level_map(alloc, &cut, lattice)?;
    let trails = trails(alloc, &map)?;
    Ok(chains_at(alloc, &map, &trails, z)?)
}
