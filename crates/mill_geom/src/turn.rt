ghost use Rattle.std.specs.Prelude.{◌≡◌};
ghost use Rattle.mill_geom.specs.Offsets.{OffsetInRange};
ghost use Rattle.mill_geom.specs.Sides.{turned_to, mirrored_of};

use crate::offset::Offset;
use crate::touch::Axis;

/// The offset as seen with `axis` for x: x and y change places for `Axis::Y`.
pub fn turned(p: Offset, axis: Axis) -> Offset
    requires p_ok { OffsetInRange p }
    ensures value { result ≡ turned_to axis p }
    ensures range { OffsetInRange result }
{
    match axis {
        Axis::X => p,
        Axis::Y => Offset {
            x: p.y,
            y: p.x,
            z: p.z,
        },
    }
}

/// The offset on the other side of the vertical plane along x.
pub fn mirrored(p: Offset) -> Offset
    requires p_ok { OffsetInRange p }
    ensures value { result ≡ mirrored_of p }
    ensures range { OffsetInRange result }
{
    Offset {
        x: p.x,
        y: 0 - p.y,
        z: p.z,
    }
}
