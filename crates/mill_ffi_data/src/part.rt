ghost use Rattle.std.specs.Prelude.{◌≡◌, ◌<◌, ◌^◌, length, false, All, IsTrue, IfErr, IfOk, OnOk};
ghost use Rattle.mill_base.specs.Numbers.{Within};
ghost use Rattle.mill_base.specs.declared.limits.TheConstants.{MAX_COORDINATE};
ghost use Rattle.mill_base.specs.Ranges.{IsInRange};
ghost use Rattle.mill_ffi_data.specs.Raw.{IsPlace, IsTriangle, corner_of, tri_of, tris_of};
ghost use Rattle.mill_ffi_data.specs.Tests.{IsTrianglesCause};

use crate::fault::Fault;
use crate::raw::{RawPlace, RawPoint, RawTriangle};
use mill_base::{MAX_COORDINATE, Pt3, Tri, WantOfMemory};
use mill_part::Part;
use std::alloc::Global;

/// The part of these triangles.
pub fn part_from(alloc: Global, raws: &[RawTriangle]) -> Result<Part, WantOfMemory>
    requires in_range { All IsTriangle raws.now }
    requires count { length raws.now < 2 ^ 32 }
    ensures { IfOk result (λ part. part ≡ tris_of raws.now) }
{
    let mut tris = Vec::with_capacity(alloc, raws.len())?;
    for raw in raws {
        tris.push(tri_from(raw))?;
    }
    Ok(Part::new(tris))
}

fn tri_from(raw: &RawTriangle) -> Tri
    ensures { result ≡ tri_of raw.now }
{
    Tri {
        a: corner_from(raw.a),
        b: corner_from(raw.b),
        c: corner_from(raw.c),
    }
}

fn corner_from(raw: RawPoint) -> Pt3
    ensures { result ≡ corner_of raw }
{
    let RawPoint { x, y, z } = raw;
    Pt3 { x, y, z }
}

/// Tests a caller's triangles.
///
/// # Errors
/// `Triangle` where a coordinate isn't in range, and `TooManyTriangles` where each is, but there are more
/// triangles than 32 bits number.
pub fn check_triangles(raws: &[RawTriangle]) -> Result<(), Fault>
    ensures in_range { OnOk result (All IsTriangle raws.now) }
    ensures count { OnOk result (length raws.now < 2 ^ 32) }
    ensures cause { IfErr result (IsTrianglesCause raws.now) }
{
    if !are_triangles(raws) {
        return Err(Fault::Triangle);
    }
    if raws.len() > u32::MAX as usize {
        return Err(Fault::TooManyTriangles);
    }
    Ok(())
}

/// Whether each coordinate of the triangles is in range.
fn are_triangles(raws: &[RawTriangle]) -> bool
    ensures yes { IsTrue result → All IsTriangle raws.now }
    ensures no { result ≡ false → ¬ All IsTriangle raws.now }
{
    for raw in raws {
        if !is_triangle(raw) {
            return false;
        }
    }
    true
}

fn is_triangle(raw: &RawTriangle) -> bool
    ensures yes { IsTrue result → IsTriangle raw.now }
    ensures no { result ≡ false → ¬ IsTriangle raw.now }
{
    is_corner(raw.a) && is_corner(raw.b) && is_corner(raw.c)
}

fn is_corner(raw: RawPoint) -> bool
    ensures yes { IsTrue result → IsInRange (corner_of raw) }
    ensures no { result ≡ false → ¬ IsInRange (corner_of raw) }
{
    is_coordinate(raw.x) && is_coordinate(raw.y) && is_coordinate(raw.z)
}

/// Whether the coordinates of the places are in range.
pub fn are_places(raws: &[RawPlace]) -> bool
    ensures yes { IsTrue result → All IsPlace raws.now }
    ensures no { result ≡ false → ¬ All IsPlace raws.now }
{
    for raw in raws {
        if !is_place(raw) {
            return false;
        }
    }
    true
}

fn is_place(raw: &RawPlace) -> bool
    ensures yes { IsTrue result → IsPlace raw.now }
    ensures no { result ≡ false → ¬ IsPlace raw.now }
{
    is_coordinate(raw.x) && is_coordinate(raw.y)
}

/// Whether a coordinate is in range.
pub fn is_coordinate(coordinate: i32) -> bool
    ensures yes { IsTrue result → Within MAX_COORDINATE coordinate }
    ensures no { result ≡ false → ¬ Within MAX_COORDINATE coordinate }
{
    coordinate.unsigned_abs() <= MAX_COORDINATE
}
