ghost use Rattle.std.specs.Prelude.{◌≡◌, IfOk, All};
ghost use Rattle.mill_base.specs.Numbers.{Within};
ghost use Rattle.mill_base.specs.declared.limits.TheConstants.{MAX_COORDINATE};
ghost use Rattle.mill_base.specs.Lattices.{node_at, IsMapLattice};
ghost use Rattle.mill_drop.specs.Drops.{IsHeightFrom};
ghost use Rattle.mill_drop.specs.Maps.{AreDropHeights, IsHeightAt, IsNodeTask};

use crate::drop::drop_at;
use mill_base::{Lattice, Tool, WantOfMemory};
use mill_crew::{Alone, Crew, Threaded};
use mill_part::SortedPart;
use rayon::prelude::*;
use std::alloc::Global;
use std::thread::Threads;

/// A crew that works out drop heights.
pub trait DropCrew: Crew {
    /// The drop heights at all nodes of the lattice: row by row with y ascending, and with x
    /// ascending along each row. They are the same whoever works them out. A runtime's threads are
    /// as many as the machine has processors.
    ///
    /// The lattice has at most `MAX_NODES` nodes. Lengths are in units, of at most `MAX_COORDINATE`
    /// in magnitude; the heights are in the range of those of `drop_at`. The only error is want of
    /// memory.
    fn drop_map(
        &self,
        alloc: Global,
        part: &SortedPart,
        tool: &Tool,
        lattice: &Lattice,
        floor: i32,
    ) -> Result<Vec<i32>, WantOfMemory>
        requires crew_ok { Self.ready }
        requires lattice_ok { IsMapLattice lattice.now }
        requires floor_ok { Within MAX_COORDINATE floor }
        ensures heights { IfOk result
            (λ heights. AreDropHeights tool.now part.now floor lattice.now heights.items) }
        ensures bound { IfOk result (λ heights. All (IsHeightFrom tool.now floor) heights.items) };
}

impl<'a, R: Threads + Sync> DropCrew for Threaded<'a, R> {
    fn drop_map(
        &self,
        alloc: Global,
        part: &SortedPart,
        tool: &Tool,
        lattice: &Lattice,
        floor: i32,
    ) -> Result<Vec<i32>, WantOfMemory> {
        map_by_threads(self.rt, alloc, part, tool, lattice, floor)
    }
}

impl DropCrew for Alone {
    fn drop_map(
        &self,
        alloc: Global,
        part: &SortedPart,
        tool: &Tool,
        lattice: &Lattice,
        floor: i32,
    ) -> Result<Vec<i32>, WantOfMemory> {
        map_in_turn(alloc, part, tool, lattice, floor)
    }
}

/// The drop heights at all nodes of the lattice, by the threads of a runtime.
fn map_by_threads<R: Threads + Sync>(
    rt: &R,
    alloc: Global,
    part: &SortedPart,
    tool: &Tool,
    lattice: &Lattice,
    floor: i32,
) -> Result<Vec<i32>, WantOfMemory>
    requires lattice_ok { IsMapLattice lattice.now }
    requires floor_ok { Within MAX_COORDINATE floor }
    ensures heights { IfOk result
        (λ heights. AreDropHeights tool.now part.now floor lattice.now heights.items) }
    ensures bound { IfOk result (λ heights. All (IsHeightFrom tool.now floor) heights.items) }
{
    let nodes = lattice.nodes() as u32;
    let heights = (0..nodes)
        .into_par_iter()
        .map(
            |number: u32| -> i32
                requires { IsNodeTask lattice.now floor number }
                ensures { IsHeightAt tool.entry.now part.entry.now floor
                    (node_at lattice.entry.now number) result × IsHeightFrom tool.entry.now floor result }
            { height_at(part, tool, lattice, floor, number) },
        )
        .collect(rt, alloc)?;
    Ok(heights)
}

/// The drop heights at all nodes of the lattice, one after another.
pub(crate) fn map_in_turn(
    alloc: Global,
    part: &SortedPart,
    tool: &Tool,
    lattice: &Lattice,
    floor: i32,
) -> Result<Vec<i32>, WantOfMemory>
    requires lattice_ok { IsMapLattice lattice.now }
    requires floor_ok { Within MAX_COORDINATE floor }
    ensures heights { IfOk result
        (λ heights. AreDropHeights tool.now part.now floor lattice.now heights.items) }
    ensures bound { IfOk result (λ heights. All (IsHeightFrom tool.now floor) heights.items) }
{
    let nodes = lattice.nodes() as u32;
    let mut dropped = Vec::with_capacity(alloc, nodes as usize)?;
    for number in 0..nodes {
        dropped.push(height_at(part, tool, lattice, floor, number))?;
    }
    Ok(dropped)
}

/// The drop height at the node of this number.
fn height_at(part: &SortedPart, tool: &Tool, lattice: &Lattice, floor: i32, number: u32) -> i32
    requires { IsNodeTask lattice.now floor number }
    ensures height { IsHeightAt tool.now part.now floor (node_at lattice.now number) result }
    ensures bound { IsHeightFrom tool.now floor result }
{
    let (x, y) = lattice.node(number);
    drop_at(part, tool, x, y, floor)
}
