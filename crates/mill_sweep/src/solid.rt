ghost use Rattle.std.specs.Prelude.{◌≡◌, pos};
ghost use Rattle.mill_base.specs.Ranges.{IsInRange, MoveInRange};
ghost use Rattle.mill_base.specs.Solids.{IsLift, lifted, raised as raised_by};
ghost use Rattle.mill_sweep.specs.Lifted.{IsLiftedMove, IsTipPlace};

use mill_base::{Move, Pt3, Solid};

/// The move as the solid's tip makes it.
pub(crate) fn lift(solid: Solid, step: &Move) -> Move
    requires { MoveInRange step.now }
    ensures value { result ≡ lifted solid step.now }
    ensures bound { IsLiftedMove result }
{
    Move {
        from: raised(step.from, solid.lift()),
        to: raised(step.to, solid.lift()),
        ..*step
    }
}

/// The place so much higher.
fn raised(place: Pt3, by: i32) -> Pt3
    requires place_ok { IsInRange place }
    requires by_ok { IsLift by }
    ensures value { result ≡ raised_by by (pos 1) place }
    ensures bound { IsTipPlace result }
{
    Pt3 {
        z: place.z + by,
        ..place
    }
}
