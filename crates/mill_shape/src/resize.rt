ghost use Rattle.std.specs.Prelude.{◌≡◌, ◌*◌, ◌+ℤ◌, ◌*ℤ◌, ◌<ℤ◌, ◌≤ℤ◌, pos, nat_abs, None, Some, MatchOption, IfNone, IfSome};
ghost use Rattle.mill_base.specs.Numbers.{ceil_div};
ghost use Rattle.mill_base.specs.Sizes.{radius_of, with_radius, shift as shift_of, outer, inner, IsCutter, IsSlope, IsWideCutter};
ghost use Rattle.mill_base.specs.declared.limits.TheConstants.{MAX_REACH};

use mill_base::Cutter;

/// The cutter widened by `reach`, and how far it is to be lowered, so that it holds all that the
/// cutter holds when that is moved sideways by up to `reach`. Lengths are in units.
pub fn widen(cutter: Cutter, reach: i32) -> (Cutter, i32)
    requires cutter_ok { IsCutter cutter }
    requires reach_least { pos 0 ≤ℤ reach }
    requires reach_most { reach ≤ℤ pos MAX_REACH }
    ensures cutter { result.0 ≡ outer cutter reach }
    ensures lowered { result.1 ≡ shift_of cutter reach }
    ensures wide { IsWideCutter result.0 }
    ensures lowered_least { pos 0 ≤ℤ result.1 }
    ensures lowered_most { result.1 ≤ℤ pos (16 * MAX_REACH) }
{
    (
        with_radius_of(cutter, cutter.radius() + reach),
        shift(cutter, reach),
    )
}

/// The cutter narrowed by 1, and how far it is to be raised, so that the cutter holds all that it
/// holds when it is moved sideways by up to 1. There is none exactly where the radius is 1.
#[tactic(auto, using(crate::proofs::Resizing::narrow))]
pub fn shrink(cutter: Cutter) -> Option<(Cutter, i32)>
    requires cutter_ok { IsCutter cutter }
    ensures value { MatchOption result (inner cutter ≡ None) (λ r. (inner cutter ≡ Some r.0) × (r.1 ≡ shift_of cutter (pos 1))) }
    ensures none { IfNone result (radius_of cutter ≡ pos 1) }
    ensures small { IfSome result (λ r. IsCutter r.0 × (pos 0 ≤ℤ r.1) × (r.1 ≤ℤ pos 16)) }
{
    if cutter.radius() <= 1 {
        return None;
    }
    Some((
        with_radius_of(cutter, cutter.radius() - 1),
        shift(cutter, 1),
    ))
}

/// The same cutter with another radius.
fn with_radius_of(cutter: Cutter, radius: i32) -> Cutter
    ensures { result ≡ with_radius cutter radius }
{
    match cutter {
        Cutter::Flat { .. } => Cutter::Flat { radius },
        Cutter::Ball { .. } => Cutter::Ball { radius },
        Cutter::Cone { rise, run, .. } => Cutter::Cone { radius, rise, run },
    }
}

/// How far the cutter is shifted up or down where its radius changes by `reach`.
fn shift(cutter: Cutter, reach: i32) -> i32
    requires cutter_ok { IsCutter cutter }
    requires reach_least { pos 0 ≤ℤ reach }
    requires reach_most { reach ≤ℤ pos MAX_REACH }
    ensures value { result ≡ shift_of cutter reach }
    ensures least { pos 0 ≤ℤ result }
    ensures most { result ≤ℤ (pos 16 *ℤ reach) }
{
    match cutter {
        Cutter::Flat { .. } => 0,
        Cutter::Ball { .. } => reach,
        Cutter::Cone { rise, run, .. } => rise_over(reach, rise, run),
    }
}

/// How far a cone's wall rises over the distance `reach`, rounded up.
fn rise_over(reach: i32, rise: i32, run: i32) -> i32
    requires slope_ok { IsSlope rise run }
    requires reach_least { pos 0 ≤ℤ reach }
    requires reach_most { reach ≤ℤ pos MAX_REACH }
    ensures value { result ≡ ceil_div (reach *ℤ rise) (nat_abs run) }
    ensures least { pos 0 ≤ℤ result }
    ensures most { result ≤ℤ (pos 16 *ℤ reach) }
{
    (reach.unsigned_abs() * rise.unsigned_abs()).div_ceil(run.unsigned_abs()) as i32
}
