//! Writes triangles as a part text.

ghost use Rattle.std.specs.Prelude.{◌≡◌, ◌+◌, ◌*◌, ◌≤◌, ◌++◌, length, IfOk, OnOk};
ghost use Rattle.mill_base.specs.declared.limits.TheConstants.{MAX_FILE_BYTES, MAX_TRIANGLES};
ghost use Rattle.mill_base.specs.Ranges.{TrisInUnitRange};
ghost use Rattle.mill_stl.specs.Written.{coordinate_word, vertex_line, ended, facet_text, part_text, ReadsBack};

use mill_base::{Pt3, Tri, Unit, WantOfMemory};
use mill_decimal::{NumText, write_decimal};
use std::alloc::Global;

/// Writes triangles as a part text in ASCII STL, one solid with the name `stock`.
///
/// It is a line `solid stock`, seven lines for each triangle, and a line `endsolid stock`, each with a
/// line feed behind it. A triangle's lines are `facet normal 0 0 1`, `outer loop`, for each corner
/// `vertex` and its x, y and z, `endloop` and `endfacet`; words are parted by one space. Coordinates are
/// in millimetres, with as many decimals as the unit has places. The normal is the same for all
/// triangles, since `read_stl` doesn't look at it.
///
/// The text reads back as exactly these triangles, none of their coordinates rounded, and is no longer
/// than a file may be. The only error is want of memory.
pub fn write_stl(alloc: Global, tris: &[Tri], unit: Unit) -> Result<Vec<u8>, WantOfMemory>
    requires few { length tris.now ≤ MAX_TRIANGLES }
    requires in_range { TrisInUnitRange unit tris.now }
    ensures text { IfOk result (λ text. text.items ≡ part_text unit tris.now) }
    ensures few { IfOk result (λ text. length text.items ≤ MAX_FILE_BYTES) }
    ensures reads { IfOk result (λ text. ReadsBack unit tris.now text.items) }
{
    let mut text = Vec::with_capacity(alloc, room_for(tris))?;
    add_text(&mut text, b"solid stock\n")?;
    for tri in tris {
        add_facet(&mut text, *tri, unit)?;
    }
    add_text(&mut text, b"endsolid stock\n")?;
    Ok(text)
}

/// The most bytes of a triangle's lines, where its coordinates are in range: each of these has at most
/// the eight bytes of `-1310.71` or `-524.287`, and a space before it.
const LONGEST: usize = 19 + 11 + 3 * (6 + 3 * (1 + 8) + 1) + 8 + 9;

/// The bytes of the lines before and behind those of the triangles.
const FRAME: usize = 12 + 15;

// How many bytes to take memory for.
fn room_for(tris: &[Tri]) -> usize
    requires { length tris.now ≤ MAX_TRIANGLES }
    ensures { result ≡ length tris.now * LONGEST + FRAME }
{
    tris.len() * LONGEST + FRAME
}

// Adds the lines of a triangle.
fn add_facet(text: &mut Vec<u8>, tri: Tri, unit: Unit) -> Result<(), WantOfMemory>
    ensures { OnOk result (text.new.items ≡ text.old.items ++ facet_text unit tri) }
{
    add_text(text, b"facet normal 0 0 1\nouter loop\n")?;
    add_vertex(text, tri.a, unit)?;
    add_vertex(text, tri.b, unit)?;
    add_vertex(text, tri.c, unit)?;
    add_text(text, b"endloop\nendfacet\n")?;
    Ok(())
}

// Adds the line of a corner.
fn add_vertex(text: &mut Vec<u8>, corner: Pt3, unit: Unit) -> Result<(), WantOfMemory>
    ensures { OnOk result (text.new.items ≡ text.old.items ++ ended (vertex_line unit corner)) }
{
    add_text(text, b"vertex")?;
    add_coordinate(text, corner.x, unit)?;
    add_coordinate(text, corner.y, unit)?;
    add_coordinate(text, corner.z, unit)?;
    text.push(b'\n')?;
    Ok(())
}

// Adds a space and a coordinate.
fn add_coordinate(text: &mut Vec<u8>, units: i32, unit: Unit) -> Result<(), WantOfMemory>
    ensures { OnOk result (text.new.items ≡ text.old.items ++ coordinate_word unit units) }
{
    let mut number = NumText::new();
    write_decimal(units, unit, &mut number);
    text.push(b' ')?;
    add_text(text, number.as_bytes())
}

// Adds these bytes.
fn add_text(text: &mut Vec<u8>, bytes: &[u8]) -> Result<(), WantOfMemory>
    ensures { OnOk result (text.new.items ≡ text.old.items ++ bytes.now) }
{
    text.extend_from_slice(bytes)?;
    Ok(())
}
