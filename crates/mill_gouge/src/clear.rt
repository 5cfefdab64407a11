ghost use Rattle.std.specs.Prelude.{◌≡◌, ◌↔◌, IsTrue, false};
ghost use Rattle.mill_base.specs.Ranges.{MoveInRange, TriInRange};
ghost use Rattle.mill_base.specs.Solids.{at_tip};
ghost use Rattle.mill_sweep.specs.Passing.{Passes};
ghost use Rattle.mill_gouge.specs.inner.Reaches.{PassesOutside};
ghost use Rattle.mill_gouge.specs.Gouges.{PassesPart, ToolPassesPart};

use crate::reach::reach_of;
use mill_base::{Box2, Move, Solid, Tool, Tri};
use mill_part::SortedPart;
use mill_sweep::Sweep;

/// Whether the solid passes each triangle of the part on the tool's move.
///
/// It takes what `first_gouge` takes and tries the same triangles, but none after one that the
/// solid doesn't pass.
pub fn clears(solid: Solid, part: &SortedPart, step: &Move) -> bool
    requires { MoveInRange step.now }
    ensures { IsTrue result ↔ PassesPart solid step.now part.now }
{
    match reach_of(solid, part.part(), step) {
        Some(reach) => passes_each(&reach.sweep, part, reach.area, reach.low),
        None => true,
    }
}

/// Whether the tool passes each triangle of the part on its move: its cutter does, and so does its
/// holder, if it has one.
///
/// It takes what `clears` takes. The holder isn't tried where the cutter doesn't pass.
pub fn tool_clears(tool: &Tool, part: &SortedPart, step: &Move) -> bool
    requires { MoveInRange step.now }
    ensures { IsTrue result ↔ ToolPassesPart tool.now step.now part.now }
{
    if !clears(tool.cutter, part, step) {
        return false;
    }
    match tool.holder {
        Some(holder) => clears(holder, part, step),
        None => true,
    }
}

/// Whether the sweep passes each triangle of the part, where it passes those whose box doesn't meet
/// the area or that don't come over the height.
fn passes_each(sweep: &Sweep, part: &SortedPart, area: Box2, low: i32) -> bool
    requires { PassesOutside sweep.now.cutter sweep.now.move area low }
    ensures { IsTrue result ↔ PassesPart (at_tip sweep.now.cutter) sweep.now.move part.now }
{
    let tris = part.part().tris();
    for tri in part.cells().near_over(area, low) {
        if !passes(sweep, &tris[tri as usize]) {
            return false;
        }
    }
    true
}

/// Whether the move passes the triangle.
fn passes(sweep: &Sweep, tri: &Tri) -> bool
    requires { TriInRange tri.now }
    ensures yes { IsTrue result → Passes sweep.now.cutter sweep.now.move tri.now }
    ensures no { result ≡ false → ¬ Passes sweep.now.cutter sweep.now.move tri.now }
{
    sweep.first_block(tri).is_none()
}
