ghost use Rattle.std.specs.Prelude.{◌≡◌, ◌⊎◌, ◌↔◌, ◌≤ℤ◌, ◌+ℤ◌, pos, IsTrue};
ghost use Rattle.mill_base.specs.Covers.{IsUnder};
ghost use Rattle.mill_base.specs.Ranges.{MoveInRange};
ghost use Rattle.mill_sweep.specs.Leaves.{length_z};
ghost use Rattle.mill_sweep.specs.Apart.{low_end_of};
ghost use Rattle.mill_sweep.specs.Widths.{longest};
ghost use Rattle.mill_gouge.specs.Lifts.{HasRoom, ceiling_of, lowest_tip_of, raised};

use crate::under::lowest;
use mill_base::{MAX_COORDINATE, Move, Tool};
use mill_part::Part;

/// Whether the move can be raised over the part within the range of coordinates: the part's highest
/// corner is at most 524,287 less the move's length in z, and less by how far the tip of the tool's
/// lowest solid is under the tool's.
///
/// It is so of all that texts in units of 0.01 mm give
/// ([`hundredths_have_room`](crate::hundredths_have_room)).
pub fn has_room(tool: &Tool, part: &Part, step: &Move) -> bool
    requires { MoveInRange step.now }
    ensures { IsTrue result ↔ HasRoom tool.now part.now step.now }
{
    match part.top() {
        Some(top) => top <= ceiling(tool, step),
        None => true,
    }
}

/// How high the part may be.
fn ceiling(tool: &Tool, step: &Move) -> i32
    requires { MoveInRange step.now }
    ensures { result ≡ ceiling_of tool.now step.now }
{
    MAX_COORDINATE as i32 - rise(step) - lowest(tool)
}

/// How far apart the move's ends are in z.
fn rise(step: &Move) -> i32
    requires { MoveInRange step.now }
    ensures value { result ≡ pos (length_z step.now) }
    ensures least { pos 0 ≤ℤ result }
    ensures most { result ≤ℤ pos longest }
{
    step.to.z.abs_diff(step.from.z) as i32
}

/// A lift that surely is enough: it brings the tip of the tool's lowest solid up to the part's
/// highest corner, or it is 0 where that tip stays over it already.
pub fn enough(tool: &Tool, part: &Part, step: &Move) -> u32
    requires move_ok { MoveInRange step.now }
    requires room_ok { HasRoom tool.now part.now step.now }
    ensures over { IsUnder part.now (lowest_tip_of tool.now step.now +ℤ pos result) }
    ensures bound { MoveInRange (raised result step.now) }
{
    match part.top() {
        Some(top) => climb(lowest_tip(tool, step), top),
        None => 0,
    }
}

/// How low the tip of the tool's lowest solid comes on the move.
fn lowest_tip(tool: &Tool, step: &Move) -> i32
    requires { MoveInRange step.now }
    ensures { result ≡ lowest_tip_of tool.now step.now }
{
    low_end(step) - lowest(tool)
}

/// The height of the move's lower end.
fn low_end(step: &Move) -> i32
    requires { MoveInRange step.now }
    ensures { result ≡ low_end_of step.now }
{
    step.from.z.min(step.to.z)
}

/// How far it is from one height up to another, 0 where that isn't over it.
fn climb(from: i32, to: i32) -> u32
    ensures reaches { to ≤ℤ (from +ℤ pos result) }
    ensures least { (result ≡ 0) ⊎ ((from +ℤ pos result) ≤ℤ to) }
{
    if to <= from {
        return 0;
    }
    to.abs_diff(from)
}
