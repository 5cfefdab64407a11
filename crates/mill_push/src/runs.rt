ghost use Rattle.std.specs.Prelude.{◌≡◌, ◌+◌, ◌*◌, ◌≤◌, ◌≤ℤ◌, length, IfOk};
ghost use Rattle.mill_base.specs.Numbers.{Within};
ghost use Rattle.mill_base.specs.declared.limits.TheConstants.{MAX_COORDINATE};
ghost use Rattle.mill_push.specs.Runs.{AreRuns};
ghost use Rattle.mill_push.specs.Touches.{IsFiber, ToolTouchesFew, most_touches};

use crate::fiber::{Fiber, Run};
use crate::solids::tool_stretches;
use crate::union::union;
use mill_base::{Steps, Tool, WantOfMemory};
use mill_hints::Ends;
use mill_part::SortedPart;
use std::alloc::Global;
use std::sync::ledger::Ledger;

/// The maximal runs of whole positions from `from` to `to` along the fiber at which the tool gouges
/// the part, ascending: with the tool's tip on the fiber, a part point is strictly inside its
/// cutter or its holder.
///
/// `steps` counts the touches: at most 40 of the cutter for each triangle, and none of one that
/// isn't near the fiber of the cutter's own tip or isn't over its height; then as many of the
/// holder, near the fiber of its tip. Lengths are in units, of at most `MAX_COORDINATE` in
/// magnitude. The only error is want of memory; the touches made before it are counted.
pub fn push<L: Ledger>(
    alloc: Global,
    part: &SortedPart,
    tool: &Tool,
    fiber: Fiber,
    from: i32,
    to: i32,
    steps: &mut Steps<L>,
) -> Result<Vec<Run>, WantOfMemory>
    requires fiber_ok { IsFiber fiber }
    requires from_ok { Within MAX_COORDINATE from }
    requires to_ok { Within MAX_COORDINATE to }
    requires order { from ≤ℤ to }
    ensures runs { IfOk result (λ runs. AreRuns tool.now part.now fiber from to runs.items) }
    ensures cost { steps.new ≤ steps.old + most_touches tool.now * length part.now }
    ensures near { ToolTouchesFew tool.now part.now fiber from to steps.old steps.new }
{
    let mut ends = Ends::none(alloc);
    push_after(alloc, part, tool, fiber, from, to, &mut ends, steps)
}

/// The same as `push`, after other pushes of the same cutter along fibers beside this one: it looks
/// for the ends of each triangle's stretch where they come from what `ends` kept of the push
/// before, and keeps where they are. So it mostly takes fewer touches. Of the holder nothing is
/// kept.
///
/// `ends` is for the part's count of triangles. Whatever it holds, the runs are the same.
pub fn push_after<L: Ledger>(
    alloc: Global,
    part: &SortedPart,
    tool: &Tool,
    fiber: Fiber,
    from: i32,
    to: i32,
    ends: &mut Ends,
    steps: &mut Steps<L>,
) -> Result<Vec<Run>, WantOfMemory>
    requires fiber_ok { IsFiber fiber }
    requires from_ok { Within MAX_COORDINATE from }
    requires to_ok { Within MAX_COORDINATE to }
    requires order { from ≤ℤ to }
    ensures runs { IfOk result (λ runs. AreRuns tool.now part.now fiber from to runs.items) }
    ensures cost { steps.new ≤ steps.old + most_touches tool.now * length part.now }
    ensures near { ToolTouchesFew tool.now part.now fiber from to steps.old steps.new }
{
    ends.next_turn();
    let mut stretches = tool_stretches(alloc, part, tool, fiber, from, to, ends, steps)?;
    stretches.sort_by_key(|stretch| stretch.first)?;
    union(alloc, &stretches)
}
