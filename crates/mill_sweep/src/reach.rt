ghost use Rattle.std.specs.Prelude.{◌≡◌, ◌≤ℤ◌, pos};
ghost use Rattle.mill_base.specs.Numbers.{Within};
ghost use Rattle.mill_base.specs.declared.limits.TheConstants.{MAX_COORDINATE};
ghost use Rattle.mill_base.specs.Ranges.{MoveInRange};
ghost use Rattle.mill_base.specs.Sizes.{IsCutter};
ghost use Rattle.mill_base.specs.Solids.{IsLift, IsSolid, lifted};
ghost use Rattle.mill_sweep.specs.Apart.{low_end_of};
ghost use Rattle.mill_sweep.specs.Reach.{OutOfReachPasses, reach_box_of, margin_of, low_side_of, high_side_of};

use mill_base::{Box2, Cutter, MAX_COORDINATE, MAX_LAST_REACH, Move, Solid};

/// The box about a move in x and y that a triangle must meet to block the solid on it, and the
/// height of the lower end of the solid's way, which it must come over.
///
/// The box is that of the move's two ends, wider on each side by the solid's radius and 2, and cut
/// off at a magnitude of 524,287, since no triangle reaches further. Lengths are in units.
pub fn reach_box(solid: Solid, step: &Move) -> (Box2, i32)
    requires { MoveInRange step.now }
    ensures area { result.0 ≡ reach_box_of solid.cutter step.now }
    ensures low { result.1 ≡ low_end_of (lifted solid step.now) }
    ensures solid_ok { IsSolid solid }
{
    (area_about(solid.cutter(), step), way_end(solid, step))
}

/// A law: a solid passes each triangle in range whose box doesn't meet the box that `reach_box`
/// gives, or whose highest point isn't over its height.
pub fn out_of_reach_passes()
    ensures { OutOfReachPasses }
{}

/// The height of the lower end of the solid's way.
fn way_end(solid: Solid, step: &Move) -> i32
    requires { MoveInRange step.now }
    ensures value { result ≡ low_end_of (lifted solid step.now) }
    ensures lift_ok { IsLift solid.lift }
{
    lower_end(step) + solid.lift()
}

/// The height of the move's lower end.
fn lower_end(step: &Move) -> i32
    requires { MoveInRange step.now }
    ensures value { result ≡ low_end_of step.now }
    ensures bound { Within MAX_COORDINATE result }
{
    step.from.z.min(step.to.z)
}

/// The box of the move's two ends in x and y, wider by the margin and cut off.
fn area_about(cutter: Cutter, step: &Move) -> Box2
    requires cutter_ok { IsCutter cutter }
    requires move_ok { MoveInRange step.now }
    ensures { result ≡ reach_box_of cutter step.now }
{
    let margin = margin(cutter);
    Box2 {
        x0: low_side(step.from.x, step.to.x, margin),
        y0: low_side(step.from.y, step.to.y, margin),
        x1: high_side(step.from.x, step.to.x, margin),
        y1: high_side(step.from.y, step.to.y, margin),
    }
}

/// How far from a move a triangle may lie and still block it.
fn margin(cutter: Cutter) -> i32
    requires { IsCutter cutter }
    ensures value { result ≡ margin_of cutter }
    ensures least { pos 0 ≤ℤ result }
    ensures bound { Within MAX_COORDINATE result }
{
    cutter.radius() + MAX_LAST_REACH as i32
}

/// Where the stretch between two coordinates, wider by the margin, begins.
fn low_side(from: i32, to: i32, margin: i32) -> i32
    requires from_ok { Within MAX_COORDINATE from }
    requires to_ok { Within MAX_COORDINATE to }
    requires margin_least { pos 0 ≤ℤ margin }
    requires margin_ok { Within MAX_COORDINATE margin }
    ensures value { result ≡ low_side_of from to margin }
    ensures bound { Within MAX_COORDINATE result }
{
    (from.min(to) - margin).max(-(MAX_COORDINATE as i32))
}

/// Where it ends.
fn high_side(from: i32, to: i32, margin: i32) -> i32
    requires from_ok { Within MAX_COORDINATE from }
    requires to_ok { Within MAX_COORDINATE to }
    requires margin_least { pos 0 ≤ℤ margin }
    requires margin_ok { Within MAX_COORDINATE margin }
    ensures value { result ≡ high_side_of from to margin }
    ensures bound { Within MAX_COORDINATE result }
{
    (from.max(to) + margin).min(MAX_COORDINATE as i32)
}
