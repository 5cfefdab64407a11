ghost use Rattle.std.specs.Prelude.{◌≡◌, MatchOption};
ghost use Rattle.mill_base.specs.Ranges.{MoveInRange, TriInRange};
ghost use Rattle.mill_base.specs.Solids.{at_tip};
ghost use Rattle.mill_gouge.specs.inner.Firsts.{IsEarlier};
ghost use Rattle.mill_gouge.specs.inner.Reaches.{PassesOutside};
ghost use Rattle.mill_gouge.specs.Gouges.{IsFirstGouge, PassesPart};

use crate::reach::reach_of;
use mill_base::{Box2, Move, Solid, Tri};
use mill_part::SortedPart;
use mill_sweep::{Leaf, Sweep};

/// A triangle that a solid doesn't pass on a move, and the leaf of the move that it blocks.
/// Triangles are counted from 0.
#[derive(Clone, Copy)]
pub struct Gouge {
    pub tri: u32,
    pub leaf: Leaf,
}

/// The first triangle that the solid doesn't pass on the tool's move, with the failing leaf; none
/// exactly where it passes each triangle of the part.
///
/// Only the triangles are tried whose boxes are near the move, and that come over the lower end of
/// the solid's way. No triangle is tried where that way stays over the part's highest corner. A
/// leaf of it is one of the move.
///
/// Lengths are in units, and the ends of the move of at most 524,287 in magnitude.
pub fn first_gouge(solid: Solid, part: &SortedPart, step: &Move) -> Option<Gouge>
    requires { MoveInRange step.now }
    ensures { MatchOption
        result
        (PassesPart solid step.now part.now)
        (IsFirstGouge solid step.now part.now) }
{
    match reach_of(solid, part.part(), step) {
        Some(reach) => first_of(&reach.sweep, part, reach.area, reach.low),
        None => None,
    }
}

/// The first triangle that the sweep doesn't pass, where it passes those whose box doesn't meet the
/// area or that don't come over the height.
fn first_of(sweep: &Sweep, part: &SortedPart, area: Box2, low: i32) -> Option<Gouge>
    requires { PassesOutside sweep.now.cutter sweep.now.move area low }
    ensures { MatchOption
        result
        (PassesPart (at_tip sweep.now.cutter) sweep.now.move part.now)
        (IsFirstGouge (at_tip sweep.now.cutter) sweep.now.move part.now) }
{
    let tris = part.part().tris();
    let mut first = None;
    for tri in part.cells().near_over(area, low) {
        first = earlier(first, sweep, &tris[tri as usize], tri);
    }
    first
}

/// The first gouge of those triangles that were tried, and of the triangle of this number.
///
/// The cells give the triangles in no order; one that comes after the first gouge isn't tried.
fn earlier(first: Option<Gouge>, sweep: &Sweep, tri: &Tri, number: u32) -> Option<Gouge>
    requires { TriInRange tri.now }
    ensures { IsEarlier sweep.now.cutter sweep.now.move tri.now number first result }
{
    if let Some(gouge) = first {
        if gouge.tri <= number {
            return first;
        }
    }
    match sweep.first_block(tri) {
        Some(leaf) => Some(Gouge { tri: number, leaf }),
        None => first,
    }
}
