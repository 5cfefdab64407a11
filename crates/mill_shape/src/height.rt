ghost use Rattle.std.specs.Prelude.{◌≡◌, ◌+◌, ◌-◌, ◌*◌, ◌<◌, ◌≤◌, ◌/◌, ◌+ℤ◌, ◌-ℤ◌, ◌≤ℤ◌, pos, nat_abs, IfSome, IfNone, MatchOption};
ghost use Rattle.mill_base.specs.Numbers.{square as square_of, Within};
ghost use Rattle.mill_base.specs.declared.limits.TheConstants.{LOWEST_TIP, MAX_COORDINATE};
ghost use Rattle.mill_base.specs.Sizes.{radius_of, surface as surface_of, IsWideCutter, IsCutHeight, cut_height_of};
ghost use Rattle.mill_shape.specs.inner.Roots.{IsFloorRoot, IsCeilRoot};
ghost use Rattle.mill_shape.specs.declared.height.TheConstants.{HIGHEST_TIP};
ghost use Rattle.mill_shape.specs.Widths.{greatest_radius, greatest_area, rise_width};

use mill_base::{Cutter, Pt3, ceil_root, floor_root};

/// The greatest height of a tip that cuts: over the greatest coordinate by what a cutter is raised
/// for a margin taken off it, and for its place not being whole.
pub const HIGHEST_TIP: i32 = 528_000;

/// The height to which the cutter, with its tip at `tip`, cuts the column at (x, y): the greatest
/// whole height there that isn't strictly inside the cutter. There is none exactly where the column
/// isn't strictly within the radius.
///
/// All lengths are in units, and the tip stands at most at `HIGHEST_TIP`.
pub fn cut_height(cutter: Cutter, tip: Pt3, x: i32, y: i32) -> Option<i32>
    requires cutter_ok { IsWideCutter cutter }
    requires tip_x_ok { Within MAX_COORDINATE tip.x }
    requires tip_y_ok { Within MAX_COORDINATE tip.y }
    requires tip_z_least { LOWEST_TIP ≤ℤ tip.z }
    requires tip_z_most { tip.z ≤ℤ HIGHEST_TIP }
    requires x_ok { Within MAX_COORDINATE x }
    requires y_ok { Within MAX_COORDINATE y }
    ensures value { result ≡ cut_height_of cutter tip x y }
    ensures greatest { IfSome result (IsCutHeight cutter tip x y) }
    ensures none { IfNone result (square_of (radius_of cutter) ≤ℤ (square_of (x -ℤ tip.x) +ℤ square_of (y -ℤ tip.y))) }
{
    let distance = square_within(
        cutter.radius().unsigned_abs(),
        x.abs_diff(tip.x),
        y.abs_diff(tip.y),
    )?;
    Some(tip.z + surface(cutter, distance))
}

/// The square of a distance, by its lengths in x and y, if it is less than the square of the radius.
fn square_within(radius: u32, dx: u32, dy: u32) -> Option<u64>
    requires { radius ≤ greatest_radius }
    ensures { MatchOption result (radius * radius ≤ dx * dx + dy * dy) (λ s. (s ≡ dx * dx + dy * dy) × (s < radius * radius)) }
{
    if dx >= radius {
        return None;
    }
    if dy >= radius {
        return None;
    }
    let distance = square(dx) + square(dy);
    if distance < square(radius) {
        Some(distance)
    } else {
        None
    }
}

/// The square of a length within the greatest radius.
fn square(length: u32) -> u64
    requires { length ≤ greatest_radius }
    ensures value { result ≡ length * length }
    ensures bound { result ≤ greatest_area }
{
    u64::from(length) * u64::from(length)
}

/// How far the cutter's surface is over its tip, rounded down, where the square of the distance
/// from the axis is `distance`.
fn surface(cutter: Cutter, distance: u64) -> i32
    requires cutter_ok { IsWideCutter cutter }
    requires near { distance < nat_abs (radius_of cutter) * nat_abs (radius_of cutter) }
    ensures value { result ≡ surface_of cutter (pos distance) }
    ensures least { pos 0 ≤ℤ result }
    ensures most { result ≤ℤ pos rise_width }
{
    match cutter {
        Cutter::Flat { .. } => 0,
        Cutter::Ball { radius } => ball_surface(radius.unsigned_abs(), distance) as i32,
        Cutter::Cone { rise, run, .. } => cone_surface(
            rise.unsigned_abs(),
            run.unsigned_abs(),
            distance,
        ) as i32,
    }
}

/// The rise of a ball's surface: what the root of the rest of the squared radius leaves of the radius.
fn ball_surface(radius: u32, distance: u64) -> u64
    requires radius_ok { radius ≤ greatest_radius }
    requires near { distance < radius * radius }
    ensures root { IsCeilRoot (radius * radius - distance) (radius - result) }
    ensures bound { result ≤ radius }
{
    u64::from(radius) - ceil_root(square(radius) - distance)
}

/// The rise of a cone's wall: the distance times the slope.
fn cone_surface(rise: u32, run: u32, distance: u64) -> u64
    requires rise_ok { rise ≤ 100 }
    requires run_least { 0 < run }
    requires run_ok { run ≤ 100 }
    requires near { distance < greatest_area }
    ensures root { IsFloorRoot (rise * rise * distance / (run * run)) result }
    ensures bound { result ≤ rise_width }
{
    floor_root(square(rise) * distance / square(run))
}
