//! Parts of a few triangles.
ghost use Rattle.std.specs.Prelude.{◌≤◌, IfOk, IsTrue, length};
ghost use Rattle.mill_base.specs.Covers.{IsUnder};
ghost use Rattle.mill_base.specs.Ranges.{TriInRange};

use crate::points::{fits, triangle};
use mill_base::Tri;
use mill_part::{Part, SortedPart};
use std::alloc::Global;
use std::test::Fail;

fn tri_fits(tri: &Tri) -> bool
    ensures { IsTrue result → TriInRange tri.now }
{
    fits(tri.a) && fits(tri.b) && fits(tri.c)
}

/// The triangles of a text, or none of `nothing`.
fn triangles(alloc: Global, text: &str) -> Result<Vec<Tri>, Fail> {
    let mut tris = Vec::new(alloc);
    if text == "nothing" {
        return Ok(tris);
    }
    for corners in text.split("; ") {
        tris.push(triangle(corners)?)?;
    }
    Ok(tris)
}

/// The part of these triangles, not sorted yet.
fn unsorted(alloc: Global, text: &str) -> Result<Part, Fail>
    ensures { IfOk result (λ part. length part ≤ 9) }
{
    let tris = triangles(alloc, text)?;
    if tris.len() > 9 || !tris.iter().all(tri_fits) {
        return Err(Fail::from("too many triangles"));
    }
    Ok(Part::new(tris))
}

/// The part of a few triangles by their `corners`, with a semicolon between them, or of `nothing`.
/// More than nine triangles are refused.
pub fn part_of(alloc: Global, text: &str) -> Result<SortedPart, Fail>
    ensures { IfOk result (λ part. length part ≤ 9) }
{
    Ok(SortedPart::new(alloc, unsorted(alloc, text)?)?)
}

fn is_under(part: &Part, most: i32) -> bool
    ensures { IsTrue result → IsUnder part.now most }
{
    part.top().unwrap_or(most) <= most
}

/// The part of a few triangles, as `part_of` has it. One of which a corner comes over the height
/// `most` is refused.
pub fn part_under(alloc: Global, most: i32, text: &str) -> Result<SortedPart, Fail>
    ensures { IfOk result (λ part. IsUnder part most) }
{
    let part = unsorted(alloc, text)?;
    if !is_under(&part, most) {
        return Err(Fail::from("a part over the stock"));
    }
    Ok(SortedPart::new(alloc, part)?)
}
