ghost use Rattle.std.specs.Prelude.{◌≡◌, ◌≢◌, pos, length, OnOk, IfErr, OnErr};
ghost use Rattle.mill_ffi.specs.Asked.{IsToldFor};
ghost use Rattle.mill_ffi.specs.Texts.{IsRead, IsReadCause, fault_of, line_of, snap_of, unit_of};
ghost use Rattle.mill_ffi_data.specs.Raw.{corner_of, tri_of, tris_of};

use mill_base::{Pt3, Tri, Unit};
use mill_decimal::Snap;
use mill_ffi_data::{Fault, RawPoint, RawReading, RawTriangle};
use mill_stl::{StlFault, read_stl};
use std::alloc::Global;

/// Reads a part from a text of ASCII STL: its triangles, in the order of the text.
///
/// `unit` says how many decimals of a millimetre stand for whole units: 2 for 0.01 mm, 3 for 0.001
/// mm. `snap` says how a coordinate between two units is read: 0 refuses it, 1 rounds it to the
/// nearest. `triangles` is as long as the part has triangles: with an array of another length the
/// status is that of the room, and `told` has their count. With any status but 0 `triangles` is as
/// it was.
#[unsafe(no_mangle)]
pub extern "C" fn camtool_read_part(
    alloc: Global,
    text: &[u8],
    unit: i32,
    snap: i32,
    triangles: &mut [RawTriangle],
    told: &mut RawReading,
) -> i32
    ensures done { result ≡ pos 0 → IsRead unit snap text.now triangles.new told.new }
    ensures cause { result ≢ pos 0
        → IsToldFor (IsReadCause unit snap text.now (length triangles.old) told.new) result }
    ensures kept { result ≢ pos 0 → triangles.new ≡ triangles.old }
{
    match read_into(alloc, text, unit, snap, triangles, told) {
        Ok(()) => 0,
        Err(fault) => fault.code(),
    }
}

/// Reads a part, or says why there is none.
fn read_into(
    alloc: Global,
    text: &[u8],
    unit: i32,
    snap: i32,
    triangles: &mut [RawTriangle],
    told: &mut RawReading,
) -> Result<(), Fault>
    ensures done { OnOk result (IsRead unit snap text.now triangles.new told.new) }
    ensures cause { IfErr result
        (IsReadCause unit snap text.now (length triangles.old) told.new) }
    ensures kept { OnErr result (triangles.new ≡ triangles.old) }
{
    *told = RawReading {
        triangles: 0,
        rounded: 0,
        line: 0,
    };
    let Some(unit) = unit_from(unit) else {
        return Err(Fault::Unit);
    };
    let Some(snap) = snap_from(snap) else {
        return Err(Fault::Snap);
    };
    let read = match read_stl(alloc, text, snap, unit) {
        Ok(read) => read,
        Err(fault) => {
            told.line = line_from(fault);
            return Err(fault_from(fault));
        }
    };
    told.triangles = read.tris.len() as u64;
    told.rounded = read.rounded;
    if triangles.len() != read.tris.len() {
        return Err(Fault::Room);
    }
    write_all(&read.tris, triangles);
    Ok(())
}

fn unit_from(number: i32) -> Option<Unit>
    ensures { result ≡ unit_of number }
{
    match number {
        2 => Some(Unit::Hundredth),
        3 => Some(Unit::Thousandth),
        _ => None,
    }
}

fn snap_from(number: i32) -> Option<Snap>
    ensures { result ≡ snap_of number }
{
    match number {
        0 => Some(Snap::Exact),
        1 => Some(Snap::Nearest),
        _ => None,
    }
}

/// The fault of a part's text, as a call tells it.
pub fn fault_from(fault: StlFault) -> Fault
    ensures { result ≡ fault_of fault }
{
    match fault {
        StlFault::Expected { .. } => Fault::Word,
        StlFault::Coord { .. } => Fault::Coordinate,
        StlFault::TooManyTriangles { .. } => Fault::LongText,
        StlFault::CutShort { .. } => Fault::CutShort,
        StlFault::WantOfMemory => Fault::Memory,
    }
}

/// The line of that fault; 0 for want of memory.
pub fn line_from(fault: StlFault) -> u64
    ensures { result ≡ line_of fault }
{
    match fault {
        StlFault::Expected { line, .. } => line,
        StlFault::Coord { line, .. } => line,
        StlFault::TooManyTriangles { line } => line,
        StlFault::CutShort { line } => line,
        StlFault::WantOfMemory => 0,
    }
}

/// Writes the triangles.
fn write_all(tris: &[Tri], triangles: &mut [RawTriangle])
    requires room_ok { length triangles.old ≡ length tris.now }
    ensures { tris_of triangles.new ≡ tris.now }
{
    for i in 0..tris.len() {
        triangles[i] = raw_from(tris[i]);
    }
}

fn raw_from(tri: Tri) -> RawTriangle
    ensures { tri_of result ≡ tri }
{
    let Tri { a, b, c } = tri;
    RawTriangle {
        a: raw_corner(a),
        b: raw_corner(b),
        c: raw_corner(c),
    }
}

/// The numbers of a corner.
pub fn raw_corner(corner: Pt3) -> RawPoint
    ensures { corner_of result ≡ corner }
{
    let Pt3 { x, y, z } = corner;
    RawPoint { x, y, z }
}
