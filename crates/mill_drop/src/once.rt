ghost use Rattle.std.specs.Prelude.{◌≡◌, ◌⊎◌};
ghost use Rattle.mill_base.specs.Numbers.{Within};
ghost use Rattle.mill_base.specs.declared.limits.TheConstants.{MAX_COORDINATE};
ghost use Rattle.mill_drop.specs.Drops.{IsDropHeight, IsHeightFrom, IsToolHeight, IsUnderTop};
ghost use Rattle.mill_drop.specs.inner.Solids.{IsSolidDrop};

use crate::lift::{tip_from, tool_from};
use crate::search::Spindle;
use mill_base::{Solid, Tool};
use mill_part::Part;

/// The drop height at (x, y) as `drop_at` gives it, by a look at every triangle of the part. For a
/// single place that is less work than making cells.
pub fn drop_once(part: &Part, tool: &Tool, x: i32, y: i32, floor: i32) -> i32
    requires x_ok { Within MAX_COORDINATE x }
    requires y_ok { Within MAX_COORDINATE y }
    requires floor_ok { Within MAX_COORDINATE floor }
    ensures drop { IsDropHeight tool.now part.now x y floor result }
    ensures bound { IsHeightFrom tool.now floor result }
{
    let height = solid_once(part, tool.cutter, x, y, floor);
    match tool.holder {
        Some(holder) => solid_once(part, holder, x, y, height),
        None => height,
    }
}

/// The least height of the tool's tip, from `from` on, at which this solid of it doesn't gouge.
fn solid_once(part: &Part, solid: Solid, x: i32, y: i32, from: i32) -> i32
    requires x_ok { Within MAX_COORDINATE x }
    requires y_ok { Within MAX_COORDINATE y }
    requires from_ok { IsToolHeight from }
    ensures drop { IsSolidDrop solid part.now x y from result }
    ensures bound { IsToolHeight result }
    ensures reached { (result ≡ from) ⊎ IsUnderTop solid result }
{
    let cutter = solid.cutter();
    let spindle = Spindle { cutter, x, y };
    let start = tip_from(solid, from);
    let mut tip = start;
    for tri in part.tris() {
        tip = spindle.raised(tri, tip);
    }
    tool_from(solid, tip, from)
}
