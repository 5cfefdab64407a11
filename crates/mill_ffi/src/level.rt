ghost use Rattle.std.specs.Prelude.{◌≡◌, ◌≢◌, [], ◌++◌, pos, length, map, OnOk, IfErr, OnErr, IfOk, IsSomeAnd};
ghost use Rattle.mill_base.specs.declared.limits.TheConstants.{MAX_COORDINATE};
ghost use Rattle.mill_base.specs.Lattices.{IsMapLattice};
ghost use Rattle.mill_base.specs.Numbers.{Within};
ghost use Rattle.mill_ffi.specs.Asked.{IsToldFor};
ghost use Rattle.mill_ffi.specs.inner.Testing.{IsCauseBesideLevel};
ghost use Rattle.mill_ffi.specs.Levels.{AreChainsAt, AreOutlines, AreSoundLevel, IsLevelCause, counts_of, head_of};
ghost use Rattle.mill_ffi_data.specs.declared.fault.Fault.TheVariants as fault;
ghost use Rattle.mill_ffi_data.specs.Faults.{fault_code};
ghost use Rattle.mill_ffi_data.specs.Raw.{IsSoundTool, corner_of, lattice_of, tool_of, tris_of};
ghost use Rattle.mill_level.specs.Waterlines.{IsWaterline, seen};

use crate::text::raw_corner;
use mill_base::{Lattice, Pt3, Tool, WantOfMemory};
use mill_ffi_data::{
    Fault, RawChain, RawCounts, RawLattice, RawPoint, RawTool, RawTriangle, check_triangles,
    is_coordinate, lattice_from, part_from, tool_from,
};
use mill_level::{Chain, waterline};
use mill_part::{Part, SortedPart};
use std::alloc::Global;

/// A waterline: the chains of the places at height z between nodes of the lattice at which the
/// tool gouges the part of these triangles and neighbours at which it doesn't, each at the last
/// free place before the blocked ones, which are on the left of the way.
///
/// With status 0 `chains` has how many points each chain has, in the order of their first points,
/// and `points` all of them, chain after chain. Both are as long as these are many: with an array
/// of another length the status is that of the room. With these two statuses `told` has both
/// numbers, and with any other they are 0. With any status but 0 both arrays are as they were.
#[unsafe(no_mangle)]
pub extern "C" fn camtool_waterline(
    alloc: Global,
    triangles: &[RawTriangle],
    tool: &RawTool,
    z: i32,
    lattice: &RawLattice,
    chains: &mut [RawChain],
    points: &mut [RawPoint],
    told: &mut RawCounts,
) -> i32
    ensures done { result ≡ pos 0 → IsSomeAnd (tool_of tool.now) (λ t.
        AreChainsAt t (tris_of triangles.now) z (lattice_of lattice.now) chains.new points.new) }
    ensures told { result ≡ pos 0 → told.new ≡ counts_of chains.new points.new }
    ensures sound_tool { result ≡ pos 0 → IsSoundTool tool.now }
    ensures sound { result ≡ pos 0 → AreSoundLevel triangles.now z lattice.now }
    ensures cause { result ≢ pos 0 → IsToldFor (IsLevelCause triangles.now tool.now z lattice.now
        (length chains.old) (length points.old) told.new) result }
    ensures chains_kept { result ≢ pos 0 → chains.new ≡ chains.old }
    ensures points_kept { result ≢ pos 0 → points.new ≡ points.old }
    ensures untold { result ≢ pos 0 → result ≢ fault_code fault.Room → told.new ≡ counts_of [] [] }
{
    match chains_into(alloc, triangles, tool, z, lattice, chains, points, told) {
        Ok(()) => 0,
        Err(fault) => fault.code(),
    }
}

/// A waterline, or why there is none.
fn chains_into(
    alloc: Global,
    triangles: &[RawTriangle],
    tool: &RawTool,
    z: i32,
    lattice: &RawLattice,
    chains: &mut [RawChain],
    points: &mut [RawPoint],
    told: &mut RawCounts,
) -> Result<(), Fault>
    ensures done { OnOk result (IsSomeAnd (tool_of tool.now) (λ t.
        AreChainsAt t (tris_of triangles.now) z (lattice_of lattice.now) chains.new points.new)) }
    ensures told { OnOk result (told.new ≡ counts_of chains.new points.new) }
    ensures sound_tool { OnOk result (IsSoundTool tool.now) }
    ensures sound { OnOk result (AreSoundLevel triangles.now z lattice.now) }
    ensures cause { IfErr result (IsLevelCause triangles.now tool.now z lattice.now
        (length chains.old) (length points.old) told.new) }
    ensures chains_kept { OnErr result (chains.new ≡ chains.old) }
    ensures points_kept { OnErr result (points.new ≡ points.old) }
    ensures untold { IfErr result (λ why. why ≢ fault.Room → told.new ≡ counts_of [] []) }
{
    *told = RawCounts {
        chains: 0,
        points: 0,
    };
    // A match, since rattle proves no `?` on a tool.
    let cutting = match tool_from(tool) {
        Ok(cutting) => cutting,
        Err(fault) => return Err(fault),
    };
    let nodes = check_arguments(triangles, z, lattice)?;
    let part = part_from(alloc, triangles)?;
    let found = found_chains(alloc, part, &cutting, z, &nodes)?;
    *told = RawCounts {
        chains: found.chains.len() as u64,
        points: found.points.len() as u64,
    };
    if chains.len() != found.chains.len() {
        return Err(Fault::Room);
    }
    if points.len() != found.points.len() {
        return Err(Fault::Room);
    }
    chains.copy_from_slice(&found.chains);
    points.copy_from_slice(&found.points);
    Ok(())
}

/// Tests the arguments other than the tool and the arrays, and gives the lattice.
fn check_arguments(
    triangles: &[RawTriangle],
    z: i32,
    lattice: &RawLattice,
) -> Result<Lattice, Fault>
    ensures is { IfOk result (λ nodes. nodes ≡ lattice_of lattice.now) }
    ensures sound { OnOk result (AreSoundLevel triangles.now z lattice.now) }
    ensures cause { IfErr result (IsCauseBesideLevel triangles.now z lattice.now) }
{
    check_triangles(triangles)?;
    if !is_coordinate(z) {
        return Err(Fault::Height);
    }
    lattice_from(lattice)
}

/// How many points each chain has, and all of them.
#[derive(Drop)]
struct Found {
    chains: Vec<RawChain>,
    points: Vec<RawPoint>,
}

/// The chains of the waterline.
fn found_chains(
    alloc: Global,
    part: Part,
    tool: &Tool,
    z: i32,
    lattice: &Lattice,
) -> Result<Found, WantOfMemory>
    requires z_ok { Within MAX_COORDINATE z }
    requires lattice_ok { IsMapLattice lattice.now }
    ensures { IfOk result (λ found.
        AreChainsAt tool.now part z lattice.now found.chains.items found.points.items) }
{
    let sorted = SortedPart::new(alloc, part)?;
    let chains = chains_at(alloc, &sorted, tool, z, lattice)?;
    let found = told_chains(alloc, &chains)?;
    Ok(found)
}

/// The waterline over a lattice that has not too many nodes.
fn chains_at(
    alloc: Global,
    part: &SortedPart,
    tool: &Tool,
    z: i32,
    lattice: &Lattice,
) -> Result<Vec<Chain>, WantOfMemory>
    requires z_ok { Within MAX_COORDINATE z }
    requires lattice_ok { IsMapLattice lattice.now }
    ensures { IfOk result (λ chains.
        IsWaterline tool.now part.now z lattice.now (map seen chains.items)) }
{
    match waterline(alloc, part, tool, z, lattice) {
        Ok(chains) => Ok(chains),
        // The nodes were counted before, and so only memory can be wanting.
        Err(_) => Err(WantOfMemory),
    }
}

/// Chains, told by their numbers of points and all these.
fn told_chains(alloc: Global, chains: &[Chain]) -> Result<Found, WantOfMemory>
    ensures { IfOk result (λ found.
        AreOutlines (map seen chains.now) found.chains.items found.points.items) }
{
    let mut heads = Vec::with_capacity(alloc, chains.len())?;
    let mut points = Vec::new(alloc);
    for chain in chains {
        heads.push(head(chain))?;
        add_points(&chain.points, &mut points)?;
    }
    Ok(Found {
        chains: heads,
        points,
    })
}

/// What is told of a chain beside its points.
fn head(chain: &Chain) -> RawChain
    ensures { result ≡ head_of (seen chain.now) }
{
    RawChain {
        points: chain.points.len() as u64,
        closed: if chain.closed { 1 } else { 0 },
    }
}

/// Adds the points of a chain to those of the chains before it.
fn add_points(found: &[Pt3], points: &mut Vec<RawPoint>) -> Result<(), WantOfMemory>
    ensures { OnOk result
        (map corner_of points.new.items ≡ map corner_of points.old.items ++ found.now) }
{
    for point in found {
        points.push(raw_corner(*point))?;
    }
    Ok(())
}
