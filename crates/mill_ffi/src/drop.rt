ghost use Rattle.std.specs.Prelude.{◌≡◌, ◌≢◌, pos, length, All, OnOk, IfErr, OnErr, IsSomeAnd};
ghost use Rattle.mill_base.specs.declared.limits.TheConstants.{MAX_COORDINATE};
ghost use Rattle.mill_base.specs.Numbers.{Within};
ghost use Rattle.mill_ffi.specs.Asked.{AreHeightsAt, AreSound, IsCause, IsHeightAt, IsToldFor};
ghost use Rattle.mill_ffi.specs.inner.Testing.{IsCauseBeside};
ghost use Rattle.mill_ffi_data.specs.Raw.{IsPlace, IsSoundTool, tool_of, tris_of};

use mill_base::Tool;
use mill_drop::drop_at;
use mill_ffi_data::{
    Fault, RawPlace, RawTool, RawTriangle, are_places, check_triangles, is_coordinate, part_from,
    tool_from,
};
use mill_part::SortedPart;
use std::alloc::Global;

/// Drop heights: for each place the least whole height, from `floor` on, at which the tool with its
/// tip there doesn't gouge the part of these triangles, neither by its cutter nor by its holder.
///
/// With status 0 `heights` has them in the order of the places, and with any other it is as it
/// was. Lengths are in units, coordinates and the floor of at most 524,287 in magnitude, and
/// `heights` is as long as `places`. Where several arguments are wrong, the status tells of one of
/// them.
#[unsafe(no_mangle)]
pub extern "C" fn camtool_drop_heights(
    alloc: Global,
    triangles: &[RawTriangle],
    tool: &RawTool,
    places: &[RawPlace],
    floor: i32,
    heights: &mut [i32],
) -> i32
    ensures done { result ≡ pos 0 → IsSomeAnd (tool_of tool.now)
        (λ t. AreHeightsAt t (tris_of triangles.now) floor places.now heights.new) }
    ensures sound_tool { result ≡ pos 0 → IsSoundTool tool.now }
    ensures sound { result ≡ pos 0
        → AreSound triangles.now places.now floor (length heights.old) }
    ensures cause { result ≢ pos 0
        → IsToldFor (IsCause triangles.now tool.now places.now floor (length heights.old)) result }
    ensures kept { result ≢ pos 0 → heights.new ≡ heights.old }
{
    match drop_into(alloc, triangles, tool, places, floor, heights) {
        Ok(()) => 0,
        Err(fault) => fault.code(),
    }
}

/// Drop heights, or why there are none.
fn drop_into(
    alloc: Global,
    triangles: &[RawTriangle],
    tool: &RawTool,
    places: &[RawPlace],
    floor: i32,
    heights: &mut [i32],
) -> Result<(), Fault>
    ensures done { OnOk result (IsSomeAnd (tool_of tool.now)
        (λ t. AreHeightsAt t (tris_of triangles.now) floor places.now heights.new)) }
    ensures sound_tool { OnOk result (IsSoundTool tool.now) }
    ensures sound { OnOk result (AreSound triangles.now places.now floor (length heights.old)) }
    ensures cause { IfErr result
        (IsCause triangles.now tool.now places.now floor (length heights.old)) }
    ensures kept { OnErr result (heights.new ≡ heights.old) }
{
    // A match, since rattle proves no `?` on a tool.
    let cutting = match tool_from(tool) {
        Ok(cutting) => cutting,
        Err(fault) => return Err(fault),
    };
    check_arguments(triangles, places, floor, heights.len())?;
    let part = part_from(alloc, triangles)?;
    let sorted = SortedPart::new(alloc, part)?;
    drop_all(&sorted, &cutting, places, floor, heights);
    Ok(())
}

/// Tests the arguments other than the tool; the array for the heights is `room` long.
fn check_arguments(
    triangles: &[RawTriangle],
    places: &[RawPlace],
    floor: i32,
    room: usize,
) -> Result<(), Fault>
    ensures sound { OnOk result (AreSound triangles.now places.now floor room) }
    ensures cause { IfErr result (IsCauseBeside triangles.now places.now floor room) }
{
    check_triangles(triangles)?;
    if !are_places(places) {
        return Err(Fault::Place);
    }
    if !is_coordinate(floor) {
        return Err(Fault::Floor);
    }
    if room != places.len() {
        return Err(Fault::Room);
    }
    Ok(())
}

/// Writes the drop height at each place.
fn drop_all(part: &SortedPart, tool: &Tool, places: &[RawPlace], floor: i32, heights: &mut [i32])
    requires places_ok { All IsPlace places.now }
    requires floor_ok { Within MAX_COORDINATE floor }
    requires room_ok { length heights.old ≡ length places.now }
    ensures { AreHeightsAt tool.now part.now floor places.now heights.new }
{
    for i in 0..places.len() {
        heights[i] = height_at(part, tool, places[i], floor);
    }
}

/// The drop height at a place.
fn height_at(part: &SortedPart, tool: &Tool, place: RawPlace, floor: i32) -> i32
    requires place_ok { IsPlace place }
    requires floor_ok { Within MAX_COORDINATE floor }
    ensures { IsHeightAt tool.now part.now floor place result }
{
    let RawPlace { x, y } = place;
    drop_at(part, tool, x, y, floor)
}
