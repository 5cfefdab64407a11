ghost use Rattle.std.specs.Prelude.{◌≡◌, pos, ◌+ℤ◌};
ghost use Rattle.mill_base.specs.Numbers.{Within};
ghost use Rattle.mill_base.specs.declared.limits.TheConstants.{MAX_COORDINATE};
ghost use Rattle.mill_base.specs.Ranges.{MoveInRange};
ghost use Rattle.mill_gouge.specs.Lifts.{place_over, raised};

use mill_base::{Move, Pt3};

/// The move with both its ends so much higher, in units.
pub fn raise(step: &Move, lift: u32) -> Move
    requires move_ok { MoveInRange step.now }
    requires raised_ok { MoveInRange (raised lift step.now) }
    ensures { result ≡ raised lift step.now }
{
    Move {
        from: raise_place(step.from, lift),
        to: raise_place(step.to, lift),
        ..*step
    }
}

/// The place so much higher.
fn raise_place(place: Pt3, lift: u32) -> Pt3
    requires place_ok { Within MAX_COORDINATE place.z }
    requires raised_ok { Within MAX_COORDINATE (place.z +ℤ pos lift) }
    ensures { result ≡ place_over lift place }
{
    Pt3 {
        z: raise_height(place.z, lift),
        ..place
    }
}

/// The height so much greater. A lift within the range of coordinates is at most as long as that.
fn raise_height(z: i32, lift: u32) -> i32
    requires z_ok { Within MAX_COORDINATE z }
    requires raised_ok { Within MAX_COORDINATE (z +ℤ pos lift) }
    ensures { result ≡ z +ℤ pos lift }
{
    z + lift as i32
}
