//! All chains of a lattice at a height.
ghost use Rattle.std.specs.Prelude.{All, IfOk};
ghost use Rattle.mill_level.specs.Chains.{AreChains};
ghost use Rattle.mill_level.specs.inner.Maps.{IsSized, grid_of};
ghost use Rattle.mill_level.specs.inner.Trails.{AreTrails, IsTrail, chains_of};

use crate::edge::Edge;
use crate::grid::LevelMap;
use crate::trace::{Trail, trace};
use mill_base::WantOfMemory;
use mill_geom::Axis;
use std::alloc::Global;

/// The chains of the crossings, in the order of their first crossings.
pub fn trails(alloc: Global, map: &LevelMap) -> Result<Vec<Trail>, WantOfMemory>
    requires { IsSized map.now }
    ensures each { IfOk result (λ trails. All (IsTrail map.now) trails.items) }
    ensures chains { IfOk result (λ trails. AreChains (grid_of map.now) (chains_of map.now trails.items)) }
{
    let mut trails = all_trails(alloc, map)?;
    trails.sort_by_key(|trail| trail.rank)?;
    Ok(trails)
}

/// The chains of the crossings, in the order in which they are found.
fn all_trails(alloc: Global, map: &LevelMap) -> Result<Vec<Trail>, WantOfMemory>
    requires { IsSized map.now }
    ensures { IfOk result (λ trails. AreTrails map.now trails.items) }
{
    let count = map.edge_count();
    let mut passed = vec![in alloc; false; count as usize]?;
    let mut trails = Vec::new(alloc);
    let mut edge = Edge {
        column: 0,
        row: 0,
        axis: Axis::X,
    };
    for number in 0..count {
        if map.is_crossing(edge) && !passed[number as usize] {
            trails.push(trace(alloc, map, edge, &mut passed)?)?;
        }
        edge = map.next_edge(edge);
    }
    Ok(trails)
}
