//! The points of chains.
ghost use Rattle.std.specs.Prelude.{◌≡◌, All, IfOk, map as map_list};
ghost use Rattle.mill_level.specs.Waterlines.{outline, seen};
ghost use Rattle.mill_level.specs.inner.Maps.{IsSized};
ghost use Rattle.mill_level.specs.inner.Trails.{IsTrail, chain_of};

use crate::chain::Chain;
use crate::grid::LevelMap;
use crate::trace::Trail;
use mill_base::{Pt3, WantOfMemory};
use std::alloc::Global;

/// The chains with their points, at height z.
pub fn chains_at(
    alloc: Global,
    map: &LevelMap,
    trails: &[Trail],
    z: i32,
) -> Result<Vec<Chain>, WantOfMemory>
    requires sized { IsSized map.now }
    requires trails_ok { All (IsTrail map.now) trails.now }
    ensures { IfOk result (λ chains. map_list seen chains.items ≡ map_list (λ trail. outline z (chain_of map.now trail)) trails.now) }
{
    let mut chains = Vec::with_capacity(alloc, trails.len())?;
    for trail in trails {
        chains.push(chain_at(alloc, map, trail, z)?)?;
    }
    Ok(chains)
}

/// A chain with its points, at height z.
fn chain_at(alloc: Global, map: &LevelMap, trail: &Trail, z: i32) -> Result<Chain, WantOfMemory>
    requires sized { IsSized map.now }
    requires trail_ok { IsTrail map.now trail.now }
    ensures { IfOk result (λ chain. seen chain ≡ outline z (chain_of map.now trail.now)) }
{
    let mut points = Vec::with_capacity(alloc, trail.edges.len())?;
    for edge in &trail.edges {
        let (x, y) = map.place(*edge);
        points.push(Pt3 { x, y, z })?;
    }
    Ok(Chain {
        closed: trail.closed,
        points,
    })
}
