ghost use Rattle.std.specs.Prelude.{◌≡◌, ◌+◌, ◌*◌, ◌≤◌, pos};
ghost use Rattle.std.specs.Prelude.{◌+ℤ◌, ◌-ℤ◌, ◌*ℤ◌, ◌<ℤ◌, ◌≤ℤ◌};
ghost use Rattle.mill_base.specs.Sizes.{radius_of, with_radius, IsCutter, IsSlope};
ghost use Rattle.mill_base.specs.declared.limits.TheConstants.{LOWEST_LIFT, MAX_COORDINATE};
ghost use Rattle.mill_base.specs.declared.limits.TheConstants.{MAX_RADIUS};
ghost use Rattle.mill_margin.specs.Margins.{IsMargin, cone_offset_of, offset_of};
ghost use Rattle.mill_margin.specs.Margins.{grown as grown_by, shrunk as shrunk_by};
ghost use Rattle.mill_margin.specs.declared.margin.TheConstants.{MAX_MARGIN};
ghost use Rattle.mill_shape.specs.inner.Roots.{IsCeilRoot};

use mill_base::{Cutter, Solid, ceil_root};

/// The greatest margin, in units.
pub const MAX_MARGIN: u32 = 500;

/// The solid with a margin of `margin` units around it: its radius is greater by the margin, and
/// its tip lower by the offset.
pub fn grown(solid: Solid, margin: i32) -> Solid
    requires margin_ok { IsMargin margin }
    requires radius_ok { (radius_of solid.cutter +ℤ margin) ≤ℤ MAX_RADIUS }
    requires lift_ok { LOWEST_LIFT ≤ℤ (solid.lift -ℤ offset_of solid.cutter margin) }
    ensures { result ≡ grown_by solid margin }
{
    let cutter = solid.cutter();
    let lift = solid.lift();
    Solid::new(
        resized(cutter, cutter.radius() + margin),
        lift - offset(cutter, margin),
    )
}

/// The solid with a margin of `margin` units taken off: its radius is less by the margin, and its
/// tip higher by the offset.
pub fn shrunk(solid: Solid, margin: i32) -> Solid
    requires margin_ok { IsMargin margin }
    requires radius_ok { margin <ℤ radius_of solid.cutter }
    requires lift_ok { (solid.lift +ℤ offset_of solid.cutter margin) ≤ℤ pos MAX_COORDINATE }
    ensures { result ≡ shrunk_by solid margin }
{
    let cutter = solid.cutter();
    let lift = solid.lift();
    Solid::new(
        resized(cutter, cutter.radius() - margin),
        lift + offset(cutter, margin),
    )
}

/// The same cutter with another radius.
fn resized(cutter: Cutter, radius: i32) -> Cutter
    ensures { result ≡ with_radius cutter radius }
{
    match cutter {
        Cutter::Flat { .. } => Cutter::Flat { radius },
        Cutter::Ball { .. } => Cutter::Ball { radius },
        Cutter::Cone { rise, run, .. } => Cutter::Cone { radius, rise, run },
    }
}

/// How far, in whole units, the cutter's tip goes down where its surface goes outward by `margin`
/// units, or up where it goes inward: the margin itself, but for a cone as much more as its slope
/// asks, rounded up.
pub fn offset(cutter: Cutter, margin: i32) -> i32
    requires cutter_ok { IsCutter cutter }
    requires margin_ok { IsMargin margin }
    ensures value { result ≡ offset_of cutter margin }
    ensures least { margin ≤ℤ result }
    ensures most { result ≤ℤ (pos 17 *ℤ margin) }
{
    match cutter {
        Cutter::Flat { .. } => margin,
        Cutter::Ball { .. } => margin,
        Cutter::Cone { rise, run, .. } => cone_offset(rise, run, margin),
    }
}

/// The offset of a cone that rises by `rise` over each `run`.
fn cone_offset(rise: i32, run: i32, margin: i32) -> i32
    requires slope_ok { IsSlope rise run }
    requires margin_ok { IsMargin margin }
    ensures value { result ≡ cone_offset_of rise run margin }
    ensures least { margin ≤ℤ result }
    ensures most { result ≤ℤ (pos 17 *ℤ margin) }
{
    let run = run.unsigned_abs();
    slant(rise.unsigned_abs(), run, margin.unsigned_abs()).div_ceil(u64::from(run)) as i32
}

/// The root of the square of `margin` times the sum of the squares of `rise` and `run`, rounded up.
fn slant(rise: u32, run: u32, margin: u32) -> u64
    requires rise_ok { rise ≤ 100 }
    requires run_ok { run ≤ 100 }
    requires margin_ok { margin ≤ MAX_MARGIN }
    ensures { IsCeilRoot (margin * margin * (rise * rise + run * run)) result }
{
    ceil_root(square(margin) * (square(rise) + square(run)))
}

/// The square of a length.
fn square(length: u32) -> u64
    requires { length ≤ MAX_MARGIN }
    ensures value { result ≡ length * length }
    ensures bound { result ≤ MAX_MARGIN * MAX_MARGIN }
{
    u64::from(length) * u64::from(length)
}
