ghost use Rattle.std.specs.Prelude.{◌≡◌, ◌<◌, length, map, All, IfOk};
ghost use Rattle.mill_base.specs.Numbers.{Within};
ghost use Rattle.mill_base.specs.declared.limits.TheConstants.{MAX_COORDINATE};
ghost use Rattle.mill_drop.specs.Paths.{row_lattice, tip_over, IsPath, IsRow, IsTolerance, KeepsTolerance};
ghost use Rattle.mill_drop.specs.inner.Rows.{AreHeights};

use crate::map::map_in_turn;
use crate::places::places_of;
use mill_base::{Box2, Lattice, Pt3, Tool, WantOfMemory};
use mill_part::SortedPart;
use std::alloc::Global;

/// The greatest tolerance of a path, in units.
pub const MAX_TOLERANCE: i32 = 10_000;

/// The path of a tool along the row at `y` from `x0` to `x1`: the tips between which it goes
/// straight, with x ascending. Each is at its drop height, the first at `x0` and the last at `x1`,
/// and at each whole x the line through them has a height from the drop height to `tol` over it.
///
/// From a tip the tool goes straight to another where the line between them keeps to that; else it
/// goes to the tip in the middle first, of two the lower in x, and either half is as a whole row.
/// Each place is dropped once.
///
/// `tol` is from 0 to `MAX_TOLERANCE`. Lengths are in units, of at most `MAX_COORDINATE` in
/// magnitude; the drop heights are in the range of those of `drop_at`.
pub fn path_drop(
    alloc: Global,
    part: &SortedPart,
    tool: &Tool,
    y: i32,
    x0: i32,
    x1: i32,
    floor: i32,
    tol: i32,
) -> Result<Vec<Pt3>, WantOfMemory>
    requires row_ok { IsRow y x0 x1 }
    requires floor_ok { Within MAX_COORDINATE floor }
    requires tol_ok { IsTolerance tol }
    ensures path { IfOk result (λ points. IsPath tool.now part.now y x0 x1 floor tol points.items) }
    ensures keeps { IfOk result (λ points. KeepsTolerance tool.now part.now y x0 x1 floor tol points.items) }
{
    let heights = map_in_turn(alloc, part, tool, &row(y, x0, x1), floor)?;
    let places = places_of(alloc, &heights, tol)?;
    tips(alloc, &heights, &places, y, x0)
}

/// The places of a row: one at each whole x.
fn row(y: i32, x0: i32, x1: i32) -> Lattice
    ensures { result ≡ row_lattice y x0 x1 }
{
    Lattice {
        area: Box2 {
            x0,
            y0: y,
            x1,
            y1: y,
        },
        step: 1,
    }
}

/// The tips over these places of the row at `y` that begins at `x0`.
fn tips(
    alloc: Global,
    heights: &[i32],
    places: &[u32],
    y: i32,
    x0: i32,
) -> Result<Vec<Pt3>, WantOfMemory>
    requires heights_ok { AreHeights heights.now }
    requires places_ok { All (λ place. place < length heights.now) places.now }
    requires x0_ok { Within MAX_COORDINATE x0 }
    ensures { IfOk result (λ points. points.items ≡ map (tip_over y x0 heights.now) places.now) }
{
    let mut points = Vec::with_capacity(alloc, places.len())?;
    for place in places {
        points.push(Pt3 {
            x: x0 + *place as i32,
            y,
            z: heights[*place as usize],
        })?;
    }
    Ok(points)
}
