ghost use Rattle.std.specs.Prelude.{◌≡◌, ◌⊎◌};
ghost use Rattle.mill_base.specs.Numbers.{Within};
ghost use Rattle.mill_base.specs.declared.limits.TheConstants.{MAX_COORDINATE};
ghost use Rattle.mill_drop.specs.Drops.{IsDropHeight, IsHeightFrom, IsToolHeight, IsUnderTop};
ghost use Rattle.mill_drop.specs.inner.Solids.{IsSolidDrop};

use crate::lift::{tip_from, tool_from};
use crate::near::{raised_near, square_around, start_height};
use crate::search::Spindle;
use mill_base::{Solid, Tool};
use mill_part::SortedPart;

/// The drop height at (x, y): the least whole height from `floor` on at which the tool with its tip
/// there doesn't gouge, neither by its cutter nor by its holder. Only the triangles are tried whose
/// boxes are near.
///
/// Lengths are in units, of at most `MAX_COORDINATE` in magnitude. Only a solid whose tip is under
/// the tool's may raise the tool over that, by as much as it is under it, which is at most 4,300.
pub fn drop_at(part: &SortedPart, tool: &Tool, x: i32, y: i32, floor: i32) -> i32
    requires x_ok { Within MAX_COORDINATE x }
    requires y_ok { Within MAX_COORDINATE y }
    requires floor_ok { Within MAX_COORDINATE floor }
    ensures drop { IsDropHeight tool.now part.now x y floor result }
    ensures bound { IsHeightFrom tool.now floor result }
{
    let height = solid_drop(part, tool.cutter, x, y, floor);
    match tool.holder {
        Some(holder) => solid_drop(part, holder, x, y, height),
        None => height,
    }
}

/// The least height of the tool's tip, from `from` on, at which this solid of it doesn't gouge.
fn solid_drop(part: &SortedPart, solid: Solid, x: i32, y: i32, from: i32) -> i32
    requires x_ok { Within MAX_COORDINATE x }
    requires y_ok { Within MAX_COORDINATE y }
    requires from_ok { IsToolHeight from }
    ensures drop { IsSolidDrop solid part.now x y from result }
    ensures bound { IsToolHeight result }
    ensures reached { (result ≡ from) ⊎ IsUnderTop solid result }
{
    let cutter = solid.cutter();
    let spindle = Spindle { cutter, x, y };
    let start = start_height(part, spindle, tip_from(solid, from));
    let tip = raised_near(part, spindle, square_around(cutter, x, y), start);
    tool_from(solid, tip, from)
}
