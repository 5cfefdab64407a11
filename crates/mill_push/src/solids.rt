//! The stretches of a tool: those of its cutter, and those of its holder.
ghost use Rattle.std.specs.Prelude.{◌≡◌, ◌-ℤ◌, ◌≤ℤ◌, ◌<ℤ◌, pos, false, IfOk, IsTrue};
ghost use Rattle.mill_base.specs.Covers.{IsUnder};
ghost use Rattle.mill_base.specs.Numbers.{Within};
ghost use Rattle.mill_base.specs.declared.limits.TheConstants.{LOWEST_LIFT, MAX_COORDINATE};
ghost use Rattle.mill_push.specs.Fibers.{IsBlocked};
ghost use Rattle.mill_push.specs.Touches.{IsFiber, SolidTouchesFew, ToolTouchesFew, lifted};
ghost use Rattle.mill_push.specs.inner.Solids.{IsSolidBlocked};
ghost use Rattle.mill_push.specs.inner.Unions.{AreStretches};

use crate::fiber::{Fiber, Run};
use crate::reach::reach_over;
use crate::stretch::Pusher;
use mill_base::{Solid, Steps, Tool, WantOfMemory};
use mill_hints::Ends;
use mill_part::{Part, SortedPart};
use std::alloc::Global;
use std::sync::ledger::Ledger;

/// Runs that hold the positions from `from` to `to` at which the tool gouges the part, and no
/// other: those of the cutter, whose ends are kept, then those of the holder.
pub fn tool_stretches<L: Ledger>(
    alloc: Global,
    part: &SortedPart,
    tool: &Tool,
    fiber: Fiber,
    from: i32,
    to: i32,
    ends: &mut Ends,
    steps: &mut Steps<L>,
) -> Result<Vec<Run>, WantOfMemory>
    requires fiber_ok { IsFiber fiber }
    requires from_ok { Within MAX_COORDINATE from }
    requires to_ok { Within MAX_COORDINATE to }
    requires order { from ≤ℤ to }
    ensures stretches { IfOk result (λ runs. AreStretches (IsBlocked tool.now part.now fiber) from to runs.items) }
    ensures cost { ToolTouchesFew tool.now part.now fiber from to steps.old steps.new }
{
    let mut stretches = solid_stretches(alloc, part, tool.cutter, fiber, from, to, ends, steps)?;
    let Some(holder) = tool.holder else {
        return Ok(stretches);
    };
    let mut none = Ends::none(alloc);
    let others = solid_stretches(alloc, part, holder, fiber, from, to, &mut none, steps)?;
    stretches.extend_from_slice(&others)?;
    Ok(stretches)
}

/// The stretches of one solid of the tool, whose tip is on the fiber. A solid that is over the
/// whole part has none.
fn solid_stretches<L: Ledger>(
    alloc: Global,
    part: &SortedPart,
    solid: Solid,
    fiber: Fiber,
    from: i32,
    to: i32,
    ends: &mut Ends,
    steps: &mut Steps<L>,
) -> Result<Vec<Run>, WantOfMemory>
    requires fiber_ok { IsFiber fiber }
    requires from_ok { Within MAX_COORDINATE from }
    requires to_ok { Within MAX_COORDINATE to }
    requires order { from ≤ℤ to }
    ensures stretches { IfOk result (λ runs. AreStretches (IsSolidBlocked solid part.now fiber) from to runs.items) }
    ensures cost { SolidTouchesFew solid part.now fiber from to steps.old steps.new }
{
    let cutter = solid.cutter();
    let fiber = lift(fiber, solid);
    if is_over_all(part.part(), fiber.z) {
        return Ok(Vec::new(alloc));
    }
    let reach = reach_over(part.part(), cutter, fiber.z);
    let pusher = Pusher {
        cutter,
        fiber,
        reach,
    };
    pusher.stretches(alloc, part, from, to, ends, steps)
}

/// The fiber of the solid's own tip, where the tool's is on this one.
fn lift(fiber: Fiber, solid: Solid) -> Fiber
    requires { IsFiber fiber }
    ensures value { result ≡ lifted solid fiber }
    ensures at_ok { Within MAX_COORDINATE result.at }
    ensures least { (LOWEST_LIFT -ℤ pos MAX_COORDINATE) ≤ℤ result.z }
{
    Fiber {
        z: fiber.z + solid.lift(),
        ..fiber
    }
}

/// Whether no point of the part is over the height z.
fn is_over_all(part: &Part, z: i32) -> bool
    ensures yes { IsTrue result → IsUnder part.now z }
    ensures no { result ≡ false → z <ℤ pos MAX_COORDINATE }
{
    if part.tris().is_empty() {
        return true;
    }
    part.top().unwrap_or(z) <= z
}
