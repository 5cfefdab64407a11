ghost use Rattle.std.specs.Prelude.{◌≡◌, IsTrue, false};
ghost use Rattle.mill_base.specs.Ranges.{MoveInRange};
ghost use Rattle.mill_gouge.specs.Gouges.{ToolPassesPart};
ghost use Rattle.mill_gouge.specs.Lifts.{HasRoom, IsLeastLift, raised};

use crate::clear::tool_clears;
use crate::raise::raise;
use crate::room::enough;
use mill_base::{Move, Tool};
use mill_part::SortedPart;

/// The least whole number of units by which the move is to be raised, at both its ends, so that the
/// tool passes each triangle of the part, with its cutter and with its holder; 0 where it passes
/// already. A solid's tip may be under the tool's.
///
/// The magnitudes of the move's coordinates are at most 524,287, and so are those of the move that
/// is raised over the part, as `has_room` tells. The move is tested at most 21 times: as it stands,
/// and for each halving of the stretch in which the lift lies.
pub fn least_lift(tool: &Tool, part: &SortedPart, step: &Move) -> u32
    requires move_ok { MoveInRange step.now }
    requires room_ok { HasRoom tool.now part.now step.now }
    ensures { IsLeastLift tool.now part.now step.now result }
{
    if tool_clears(tool, part, step) {
        return 0;
    }
    least_up_to(tool, part, step, enough(tool, part.part(), step))
}

/// The least lift of a move that doesn't pass as it stands, where this one is enough.
fn least_up_to(tool: &Tool, part: &SortedPart, step: &Move, enough: u32) -> u32
    requires move_ok { MoveInRange step.now }
    requires raised_ok { MoveInRange (raised enough step.now) }
    requires fails { ¬ ToolPassesPart tool.now step.now part.now }
    requires passes { ToolPassesPart tool.now (raised enough step.now) part.now }
    ensures { IsLeastLift tool.now part.now step.now result }
{
    let mut short = 0;
    let mut least = enough;
    while short + 1 < least {
        let middle = short + (least - short) / 2;
        if clears_raised(tool, part, step, middle) {
            least = middle;
        } else {
            short = middle;
        }
    }
    least
}

/// Whether the tool passes the part on the move that is raised so far.
fn clears_raised(tool: &Tool, part: &SortedPart, step: &Move, lift: u32) -> bool
    requires move_ok { MoveInRange step.now }
    requires raised_ok { MoveInRange (raised lift step.now) }
    ensures yes { IsTrue result → ToolPassesPart tool.now (raised lift step.now) part.now }
    ensures no { result ≡ false → ¬ ToolPassesPart tool.now (raised lift step.now) part.now }
{
    tool_clears(tool, part, &raise(step, lift))
}
