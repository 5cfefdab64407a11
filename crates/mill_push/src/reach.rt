ghost use Rattle.std.specs.Prelude.{◌<◌, ◌≤◌, ◌-ℤ◌, nat_abs, pos};
ghost use Rattle.mill_base.specs.Sizes.{IsCutter};
ghost use Rattle.mill_base.specs.declared.limits.TheConstants.{MAX_RADIUS};
ghost use Rattle.mill_push.specs.inner.Reaches.{IsBallReach, IsReach, IsReachForPart, IsWallReach};

use mill_base::{Cutter, ceil_root};
use mill_part::Part;

/// How far from its axis the cutter, with its tip at the height `z`, may hold points of the part: each
/// is nearer than that. A ball and a cone are narrow near the tip.
pub fn reach_over(part: &Part, cutter: Cutter, z: i32) -> i32
    requires { IsCutter cutter }
    ensures { IsReachForPart cutter z result part.now }
{
    reach_up_to(cutter, z, part.top().unwrap_or(z))
}

/// How far from its axis the cutter, with its tip at the height `z`, may hold points that aren't over
/// the height `top`.
pub fn reach_up_to(cutter: Cutter, z: i32, top: i32) -> i32
    requires { IsCutter cutter }
    ensures { IsReach cutter (top -ℤ z) result }
{
    if top <= z {
        return 1;
    }
    reach_under(cutter, top.abs_diff(z))
}

/// How far from its axis the cutter may hold points that are at most `height` over its tip.
fn reach_under(cutter: Cutter, height: u32) -> i32
    requires cutter_ok { IsCutter cutter }
    requires some { 0 < height }
    ensures { IsReach cutter (pos height) result }
{
    match cutter {
        Cutter::Flat { radius } => radius,
        Cutter::Ball { radius } => ball_reach(radius.unsigned_abs(), height) as i32,
        Cutter::Cone { radius, rise, run } => {
            let wall = wall_reach(height, rise.unsigned_abs(), run.unsigned_abs());
            wall.min(u64::from(radius.unsigned_abs())) as i32
        }
    }
}

/// How far a ball reaches up to a height: its radius, or where the height is less, as far as its
/// sphere is wide there, rounded up.
fn ball_reach(radius: u32, height: u32) -> u32
    requires radius_least { 0 < radius }
    requires radius_most { radius ≤ nat_abs MAX_RADIUS }
    requires some { 0 < height }
    ensures { IsBallReach radius height result }
{
    if height >= radius {
        return radius;
    }
    ceil_root(u64::from(height) * u64::from(2 * radius - height)) as u32
}

/// How far a cone's wall is from the axis at a height, rounded up.
fn wall_reach(height: u32, rise: u32, run: u32) -> u64
    requires some { 0 < height }
    requires rise_least { 0 < rise }
    requires run_least { 0 < run }
    requires run_most { run ≤ 100 }
    ensures { IsWallReach height rise run result }
{
    (u64::from(height) * u64::from(run)).div_ceil(u64::from(rise))
}
