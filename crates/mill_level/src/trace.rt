//! Follows the joins of one chain.
ghost use Rattle.std.specs.Prelude.{◌≡◌, ◌+◌, ◌*◌, ◌<◌, true, false, [], ◌∷◌, ◌++◌, All, IfOk, length, slice_set};
ghost use Rattle.mill_level.specs.declared.edge.Edge.{Edge};
ghost use Rattle.mill_level.specs.Chains.{times_in};
ghost use Rattle.mill_level.specs.Grids.{has_edge};
ghost use Rattle.mill_level.specs.inner.Maps.{IsSized, crossing_at, edge_number, grid_of};
ghost use Rattle.mill_level.specs.inner.Trails.{AreMarks, IsTrail, chain_of, is_passed, mark, rank_of};
ghost use Rattle.mill_level.specs.inner.Ways.{IsLeast, MayGoOn, MayStart, WentBack, WentOn};

use crate::edge::Edge;
use crate::grid::LevelMap;
use mill_base::WantOfMemory;
use mill_geom::Axis;
use std::alloc::Global;

/// The crossings of a chain, by their edges, in their order.
#[derive(Drop)]
pub struct Trail {
    pub closed: bool,
    /// Where its first crossing comes in the order of crossings.
    pub rank: Rank,
    pub edges: Vec<Edge>,
}

/// How crossings are ordered: by the place's x, then y, then the edge's column, its row, and edges
/// along X before edges along Y.
pub type Rank = (i32, i32, u32, u32, bool);

impl LevelMap {
    /// Where the crossing of an edge comes in the order of crossings.
    pub fn rank(&self, edge: Edge) -> Rank
        requires sized { IsSized self.now }
        requires edge_ok { has_edge (grid_of self.now) edge ≡ true }
        ensures { result ≡ rank_of (crossing_at self.now edge) }
    {
        let (x, y) = self.place(edge);
        (x, y, edge.column, edge.row, edge.axis == Axis::Y)
    }
}

/// The chain in which a crossing stands, and marks its crossings as passed. An open chain begins
/// where no join comes, and a closed one at its least crossing.
pub fn trace(
    alloc: Global,
    map: &LevelMap,
    start: Edge,
    passed: &mut Vec<bool>,
) -> Result<Trail, WantOfMemory>
    requires sized { IsSized map.now }
    requires start_ok { MayStart map.now passed.old.items start }
    ensures trail { IfOk result (IsTrail map.now) }
    ensures once { IfOk result (λ trail. (e : Edge)
        → mark map.now passed.new.items e ≡ mark map.now passed.old.items e + times_in e (chain_of map.now trail)) }
    ensures marks { IfOk result (λ _. AreMarks map.now passed.new.items) }
    ensures start { IfOk result (λ _. is_passed map.now passed.new.items start ≡ true) }
{
    let mut edges = Vec::new(alloc);
    let closed = go_back(map, start, passed, &mut edges)?;
    edges.reverse();
    if closed {
        let least = least_of(map, &edges);
        edges.rotate_left(least);
    } else {
        go_on(map, start, passed, &mut edges)?;
    }
    Ok(Trail {
        closed,
        rank: map.rank(edges[0]),
        edges,
    })
}

/// Adds the crossing, and those before it against the joins: to the first, or round to the crossing
/// after this one. Says whether the way went round.
fn go_back(
    map: &LevelMap,
    start: Edge,
    passed: &mut Vec<bool>,
    edges: &mut Vec<Edge>,
) -> Result<bool, WantOfMemory>
    requires sized { IsSized map.now }
    requires start_ok { MayStart map.now passed.old.items start }
    requires empty { edges.old.items ≡ [] }
    ensures { IfOk result (λ closed. WentBack map.now passed.old.items passed.new.items start closed edges.new.items) }
{
    pass(map, start, passed, edges)?;
    let mut edge = start;
    while let Some(before) = map.before(edge) {
        if before == start {
            return Ok(true);
        }
        pass(map, before, passed, edges)?;
        edge = before;
    }
    Ok(false)
}

/// Adds the crossings after this one along the joins, to the last.
fn go_on(
    map: &LevelMap,
    start: Edge,
    passed: &mut Vec<bool>,
    edges: &mut Vec<Edge>,
) -> Result<(), WantOfMemory>
    requires sized { IsSized map.now }
    requires way { MayGoOn map.now passed.old.items start edges.old.items }
    ensures { IfOk result (λ _. WentOn map.now passed.old.items passed.new.items edges.old.items edges.new.items) }
{
    let mut edge = start;
    while let Some(after) = map.after(edge) {
        pass(map, after, passed, edges)?;
        edge = after;
    }
    Ok(())
}

/// Marks an edge as passed, and adds it.
fn pass(
    map: &LevelMap,
    edge: Edge,
    passed: &mut Vec<bool>,
    edges: &mut Vec<Edge>,
) -> Result<(), WantOfMemory>
    requires sized { IsSized map.now }
    requires edge_ok { has_edge (grid_of map.now) edge ≡ true }
    requires size { length passed.old.items ≡ 2 * (map.now.columns * map.now.rows) }
    ensures marks { passed.new.items ≡ slice_set passed.old.items (edge_number (grid_of map.now) edge) true }
    ensures edges { IfOk result (λ _. edges.new.items ≡ edges.old.items ++ edge ∷ []) }
{
    passed[map.number(edge)] = true;
    edges.push(edge)?;
    Ok(())
}

/// Which one of the crossings is the least.
fn least_of(map: &LevelMap, edges: &[Edge]) -> usize
    requires sized { IsSized map.now }
    requires some { 0 < length edges.now }
    requires edges_ok { All (λ e. has_edge (grid_of map.now) e ≡ true) edges.now }
    ensures { IsLeast map.now edges.now result }
{
    let mut least = 0;
    let mut least_rank = map.rank(edges[0]);
    for at in 1..edges.len() {
        let rank = map.rank(edges[at]);
        if rank < least_rank {
            least = at;
            least_rank = rank;
        }
    }
    least
}
