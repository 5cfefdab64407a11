ghost use Rattle.std.specs.Prelude.{◌*◌, ◌+◌, ◌-ℤ◌, ◌<◌, ◌≤◌, MatchOption, pos};
ghost use Rattle.mill_base.specs.Numbers.{Within};
ghost use Rattle.mill_base.specs.declared.limits.TheConstants.{MAX_COORDINATE, MAX_RADIUS};
ghost use Rattle.mill_base.specs.Sizes.{HasRadius};
ghost use Rattle.mill_dexel.specs.inner.Cuts.{IsBeyond, IsHalfChord};

/// At least half of the chord at which the row at `y` crosses the circle of the radius round
/// `middle`. There is none where the row stands at least the radius away.
pub(crate) fn half_chord(radius: i32, y: i32, middle: i32) -> Option<i32>
    requires radius_ok { HasRadius radius MAX_RADIUS }
    requires y_ok { Within MAX_COORDINATE y }
    requires middle_ok { Within MAX_COORDINATE middle }
    ensures { MatchOption result (IsBeyond radius middle middle y) (IsHalfChord radius (y -ℤ
        middle)) }
{
    let radius = radius.unsigned_abs();
    let distance = y.abs_diff(middle);
    if distance >= radius {
        return None;
    }
    Some(half_width(radius, distance) as i32)
}

/// A length whose square is at least what the square of `distance` leaves of the square of the
/// radius. It isn't the least one, which would take a root.
fn half_width(radius: u32, distance: u32) -> u32
    requires radius_ok { radius ≤ 10000 }
    requires near { distance < radius }
    ensures least { 1 ≤ result }
    ensures most { result ≤ radius }
    ensures wide { radius * radius ≤ result * result + distance * distance }
{
    radius - distance * distance / (2 * radius)
}
