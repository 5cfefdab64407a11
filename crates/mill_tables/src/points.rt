//! Points, places, lattices and triangles.
ghost use Rattle.std.specs.Prelude.{◌≡◌, ℕ, List, IfOk, IsTrue, codes};
ghost use Rattle.std.specs.Str.{trim_end};
ghost use Rattle.mill_base.specs.Lattices.{IsLattice};
ghost use Rattle.mill_base.specs.Numbers.{Within};
ghost use Rattle.mill_base.specs.Ranges.{IsInRange, TriInRange};
ghost use Rattle.mill_base.specs.declared.limits.TheConstants.{MAX_COORDINATE};
ghost use Rattle.mill_geom.specs.Offsets.{IsCentre};
ghost use Rattle.mill_tables.specs.Rows.{CutsAt};

use crate::values::{coordinate, number};
use crate::words::first_word;
use mill_base::{Box2, LOWEST_TIP, Lattice, MAX_COORDINATE, Pt3, Tri};
use std::test::Fail;

/// A point by its three coordinates.
pub fn point(text: &str) -> Result<Pt3, Fail>
    ensures { IfOk result (λ point. IsInRange point) }
{
    let (x, others) = first_word(text)?;
    let (y, z) = first_word(others)?;
    let (x, y, z) = (coordinate(x)?, coordinate(y)?, coordinate(z)?);
    Ok(Pt3 { x, y, z })
}

/// A tip by its three coordinates, which may be as low as LOWEST_TIP, lower than any point.
pub fn tip(text: &str) -> Result<Pt3, Fail>
    ensures { IfOk result (λ tip. IsCentre tip) }
{
    let (x, others) = first_word(text)?;
    let (y, z) = first_word(others)?;
    let (x, y) = (coordinate(x)?, coordinate(y)?);
    let z = number(z, LOWEST_TIP, MAX_COORDINATE as i32)?;
    Ok(Pt3 { x, y, z })
}

/// A place by two coordinates.
pub fn place(text: &str) -> Result<(i32, i32), Fail>
    ensures x { IfOk result (λ place. Within MAX_COORDINATE place.0) }
    ensures y { IfOk result (λ place. Within MAX_COORDINATE place.1) }
{
    let (x, y) = first_word(text)?;
    Ok((coordinate(x)?, coordinate(y)?))
}

/// A lattice by its first node, its last one and its step, as `0 0 to 300 200 by 100`. One whose
/// last node is before its first is refused.
pub fn lattice(text: &str) -> Result<Lattice, Fail>
    ensures { IfOk result (λ lattice. IsLattice lattice) }
{
    let (first, others) = text
        .split_once(" to ")
        .ok_or("a lattice without a last node")?;
    let (last, step) = others.split_once(" by ").ok_or("a lattice without a step")?;
    let ((x0, y0), (x1, y1)) = (place(first)?, place(last)?);
    let step = number(step, 1, i32::MAX)?;
    if x0 > x1 || y0 > y1 {
        return Err(Fail::from("no lattice"));
    }
    let area = Box2 { x0, y0, x1, y1 };
    Ok(Lattice { area, step })
}

/// The texts of a triangle's corners, with a comma between them. The last one counts again where
/// there are fewer than three.
pub fn corners(text: &str) -> (&str, &str, &str)
    ensures { (others : List ℕ)
        × CutsAt (codes ", ") text.now text.now result.0.now others
        × CutsAt (codes ", ") others others result.1.now result.2.now }
{
    let (a, others) = text.split_once(", ").unwrap_or((text, text));
    let (b, c) = others.split_once(", ").unwrap_or((others, others));
    (a, b, c)
}

/// A triangle by its `corners`.
pub fn triangle(text: &str) -> Result<Tri, Fail>
    ensures { IfOk result (λ tri. TriInRange tri) }
{
    let (a, b, c) = corners(text);
    let (a, b, c) = (point(a)?, point(b)?, point(c)?);
    Ok(Tri { a, b, c })
}

/// A row's corners, if it has any, and the tip's place that stands behind `at`: the origin, if it
/// says none.
pub fn placed(text: &str) -> (&str, &str)
    ensures { (corners : List ℕ)
        × CutsAt (codes "at ") (codes "0 0 0") text.now corners result.1.now
        × (result.0.now ≡ trim_end corners) }
{
    let (corners, place) = text.split_once("at ").unwrap_or((text, "0 0 0"));
    (corners.trim_end(), place)
}

/// Whether a point is in the range of coordinates. A loop that reads points keeps no such fact of
/// them.
pub(crate) fn fits(point: Pt3) -> bool
    ensures { IsTrue result → IsInRange point }
{
    let most = MAX_COORDINATE;
    point.x.unsigned_abs() <= most
        && point.y.unsigned_abs() <= most
        && point.z.unsigned_abs() <= most
}
