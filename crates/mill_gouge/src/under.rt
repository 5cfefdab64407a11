//! How far the tips of a tool's solids are under its own.
ghost use Rattle.std.specs.Prelude.{◌≡◌, ◌-ℤ◌, ◌≤ℤ◌, pos};
ghost use Rattle.mill_base.specs.declared.limits.TheConstants.{LOWEST_LIFT};
ghost use Rattle.mill_gouge.specs.Lifts.{held_under_tip_of, low_of, under_tip_of};

use mill_base::{Solid, Tool};

/// How far the tip of the tool's lowest solid is under the tool's, in units; 0 where none is.
pub fn lowest(tool: &Tool) -> i32
    ensures value { result ≡ low_of tool.now }
    ensures least { pos 0 ≤ℤ result }
    ensures most { result ≤ℤ (pos 0 -ℤ LOWEST_LIFT) }
{
    under_tip(tool.cutter).max(held_under_tip(tool.holder))
}

/// How far a solid's tip is under the tool's; 0 where it isn't.
fn under_tip(solid: Solid) -> i32
    ensures value { result ≡ under_tip_of solid }
    ensures least { pos 0 ≤ℤ result }
    ensures most { result ≤ℤ (pos 0 -ℤ LOWEST_LIFT) }
{
    (-solid.lift()).max(0)
}

/// How far a holder's tip is under the tool's, if there is a holder; else 0.
fn held_under_tip(holder: Option<Solid>) -> i32
    ensures value { result ≡ held_under_tip_of holder }
    ensures least { pos 0 ≤ℤ result }
    ensures most { result ≤ℤ (pos 0 -ℤ LOWEST_LIFT) }
{
    match holder {
        Some(holder) => under_tip(holder),
        None => 0,
    }
}
