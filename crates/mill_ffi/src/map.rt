ghost use Rattle.std.specs.Prelude.{◌≡◌, ◌≢◌, pos, length, OnOk, IfErr, OnErr, IfOk, IsSomeAnd};
ghost use Rattle.mill_base.specs.declared.limits.TheConstants.{MAX_COORDINATE};
ghost use Rattle.mill_base.specs.Lattices.{IsMapLattice, node_count};
ghost use Rattle.mill_base.specs.Numbers.{Within};
ghost use Rattle.mill_drop.specs.Maps.{AreDropHeights};
ghost use Rattle.mill_ffi.specs.Asked.{IsToldFor};
ghost use Rattle.mill_ffi.specs.inner.Testing.{AreSoundBeside, IsCauseBesideNodes};
ghost use Rattle.mill_ffi.specs.Lattices.{AreSoundNodes, IsNodesCause};
ghost use Rattle.mill_ffi_data.specs.declared.fault.Fault.TheVariants as fault;
ghost use Rattle.mill_ffi_data.specs.Faults.{fault_code};
ghost use Rattle.mill_ffi_data.specs.Raw.{IsSoundTool, lattice_of, nodes_in, tool_of, tris_of};

use mill_base::{Lattice, Tool, WantOfMemory};
use mill_crew::Alone;
use mill_drop::DropCrew;
use mill_ffi_data::{
    Fault, RawLattice, RawTool, RawTriangle, check_triangles, is_coordinate, lattice_from,
    part_from, tool_from,
};
use mill_part::{Part, SortedPart};
use std::alloc::Global;

/// Drop heights over a lattice: for each node the least whole height, from `floor` on, at which
/// the tool with its tip there doesn't gouge the part of these triangles, neither by its cutter
/// nor by its holder.
///
/// With status 0 `heights` has them row by row, with y ascending, and x ascending along each row.
/// It is as long as the lattice has nodes, of which there are at most 4,000,000: with an array of
/// another length the status is that of the room. With these two statuses `told` has the number of
/// nodes, and with any other it is 0. With any status but 0 `heights` is as it was.
#[unsafe(no_mangle)]
pub extern "C" fn camtool_drop_map(
    alloc: Global,
    triangles: &[RawTriangle],
    tool: &RawTool,
    lattice: &RawLattice,
    floor: i32,
    heights: &mut [i32],
    told: &mut u64,
) -> i32
    ensures done { result ≡ pos 0 → IsSomeAnd (tool_of tool.now)
        (λ t. AreDropHeights t (tris_of triangles.now) floor (lattice_of lattice.now) heights.new) }
    ensures told { result ≡ pos 0 → told.new ≡ nodes_in lattice.now }
    ensures sound_tool { result ≡ pos 0 → IsSoundTool tool.now }
    ensures sound { result ≡ pos 0
        → AreSoundNodes triangles.now lattice.now floor (length heights.old) }
    ensures cause { result ≢ pos 0 → IsToldFor (IsNodesCause triangles.now tool.now lattice.now
        floor (length heights.old) told.new) result }
    ensures kept { result ≢ pos 0 → heights.new ≡ heights.old }
    ensures untold { result ≢ pos 0 → result ≢ fault_code fault.Room → told.new ≡ 0 }
{
    match drops_into(alloc, triangles, tool, lattice, floor, heights, told) {
        Ok(()) => 0,
        Err(fault) => fault.code(),
    }
}

/// Drop heights over a lattice, or why there are none.
fn drops_into(
    alloc: Global,
    triangles: &[RawTriangle],
    tool: &RawTool,
    lattice: &RawLattice,
    floor: i32,
    heights: &mut [i32],
    told: &mut u64,
) -> Result<(), Fault>
    ensures done { OnOk result (IsSomeAnd (tool_of tool.now)
        (λ t. AreDropHeights t (tris_of triangles.now) floor (lattice_of lattice.now)
        heights.new)) }
    ensures told { OnOk result (told.new ≡ nodes_in lattice.now) }
    ensures sound_tool { OnOk result (IsSoundTool tool.now) }
    ensures sound { OnOk result
        (AreSoundNodes triangles.now lattice.now floor (length heights.old)) }
    ensures cause { IfErr result (IsNodesCause triangles.now tool.now lattice.now
        floor (length heights.old) told.new) }
    ensures kept { OnErr result (heights.new ≡ heights.old) }
    ensures untold { IfErr result (λ why. why ≢ fault.Room → told.new ≡ 0) }
{
    *told = 0;
    // A match, since rattle proves no `?` on a tool.
    let cutting = match tool_from(tool) {
        Ok(cutting) => cutting,
        Err(fault) => return Err(fault),
    };
    let nodes = check_arguments(triangles, lattice, floor)?;
    if heights.len() as u64 != nodes.nodes() {
        *told = nodes.nodes();
        return Err(Fault::Room);
    }
    let part = part_from(alloc, triangles)?;
    let found = node_heights(alloc, part, &cutting, &nodes, floor)?;
    heights.copy_from_slice(&found);
    *told = nodes.nodes();
    Ok(())
}

/// Tests the arguments other than the tool and the array, and gives the lattice.
fn check_arguments(
    triangles: &[RawTriangle],
    lattice: &RawLattice,
    floor: i32,
) -> Result<Lattice, Fault>
    ensures is { IfOk result (λ nodes. nodes ≡ lattice_of lattice.now) }
    ensures sound { OnOk result (AreSoundBeside triangles.now lattice.now floor) }
    ensures cause { IfErr result (IsCauseBesideNodes triangles.now lattice.now floor) }
{
    check_triangles(triangles)?;
    if !is_coordinate(floor) {
        return Err(Fault::Floor);
    }
    lattice_from(lattice)
}

/// The drop height at each node, row by row.
fn node_heights(
    alloc: Global,
    part: Part,
    tool: &Tool,
    lattice: &Lattice,
    floor: i32,
) -> Result<Vec<i32>, WantOfMemory>
    requires lattice_ok { IsMapLattice lattice.now }
    requires floor_ok { Within MAX_COORDINATE floor }
    ensures heights { IfOk result
        (λ heights. AreDropHeights tool.now part floor lattice.now heights.items) }
    ensures count { IfOk result (λ heights. length heights.items ≡ node_count lattice.now) }
{
    let sorted = SortedPart::new(alloc, part)?;
    let heights = Alone.drop_map(alloc, &sorted, tool, lattice, floor)?;
    Ok(heights)
}
