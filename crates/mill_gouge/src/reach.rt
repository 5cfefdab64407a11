ghost use Rattle.std.specs.Prelude.{MatchOption};
ghost use Rattle.mill_base.specs.Ranges.{MoveInRange};
ghost use Rattle.mill_gouge.specs.Gouges.{PassesPart};
ghost use Rattle.mill_gouge.specs.inner.Reaches.{IsReach};

use crate::top::lid;
use mill_base::{Box2, Move, Solid};
use mill_part::Part;
use mill_sweep::{Sweep, reach_box};

/// A solid on a move, the box that a triangle must meet to block it, and the height that it must
/// come over.
#[derive(Drop)]
pub struct Reach {
    pub sweep: Sweep,
    pub area: Box2,
    pub low: i32,
}

/// The solid on the move and where a triangle may block it; none where it stays over the part's
/// highest corner, or at its height, so that it passes the whole part.
pub fn reach_of(solid: Solid, part: &Part, step: &Move) -> Option<Reach>
    requires { MoveInRange step.now }
    ensures { MatchOption
        result
        (PassesPart solid step.now part.now)
        (IsReach solid step.now) }
{
    let (area, low) = reach_box(solid, step);
    if low >= lid(part) {
        return None;
    }
    Some(Reach {
        sweep: Sweep::new(solid, step),
        area,
        low,
    })
}
