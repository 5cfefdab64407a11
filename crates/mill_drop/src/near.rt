ghost use Rattle.std.specs.Prelude.{◌≡◌};
ghost use Rattle.mill_base.specs.Numbers.{Within};
ghost use Rattle.mill_base.specs.declared.limits.TheConstants.{MAX_COORDINATE};
ghost use Rattle.mill_base.specs.Sizes.{IsCutter};
ghost use Rattle.mill_drop.specs.inner.Solids.{IsRaised};
ghost use Rattle.mill_drop.specs.inner.Near.{AreFree, point_box, square_about};
ghost use Rattle.mill_drop.specs.inner.Spindles.{IsSpindle, IsTipHeight};

use crate::search::Spindle;
use mill_base::{Box2, Cutter};
use mill_part::SortedPart;

/// The square about the place in which a cutter over it is.
pub fn square_around(cutter: Cutter, x: i32, y: i32) -> Box2
    requires cutter_ok { IsCutter cutter }
    requires x_ok { Within MAX_COORDINATE x }
    requires y_ok { Within MAX_COORDINATE y }
    ensures { result ≡ square_about cutter x y }
{
    let radius = cutter.radius();
    Box2 {
        x0: x - radius,
        y0: y - radius,
        x1: x + radius,
        y1: y + radius,
    }
}

/// The area that is the one place (x, y).
fn only(x: i32, y: i32) -> Box2
    ensures { result ≡ point_box x y }
{
    Box2 {
        x0: x,
        y0: y,
        x1: x,
        y1: y,
    }
}

/// The least height, from `from` on, at which those of the part's triangles are free whose boxes meet
/// the area. Those that aren't over the height so far are passed over, and so are whole cells of them.
pub fn raised_near(part: &SortedPart, spindle: Spindle, area: Box2, from: i32) -> i32
    requires spindle_ok { IsSpindle spindle }
    requires from_ok { IsTipHeight from }
    ensures raised { IsRaised spindle.cutter part.now spindle.x spindle.y from result }
    ensures free { AreFree spindle.cutter part.now area spindle.x spindle.y result }
    ensures bound { IsTipHeight result }
{
    let tris = part.part().tris();
    let mut height = from;
    let mut near = part.cells().near_rising(area);
    while let Some(number) = near.next_over(height) {
        height = spindle.raised(&tris[number as usize], height);
    }
    height
}

/// A height, from `from` on, that the drop height isn't under: few triangles are looked at for it, and
/// most of all others are then passed by their heights.
///
/// They are those at the place itself, and for a flat cutter those at two points of its edge, since
/// the highest part point under it is often near there.
pub fn start_height(part: &SortedPart, spindle: Spindle, from: i32) -> i32
    requires spindle_ok { IsSpindle spindle }
    requires from_ok { IsTipHeight from }
    ensures raised { IsRaised spindle.cutter part.now spindle.x spindle.y from result }
    ensures bound { IsTipHeight result }
{
    let area = only(spindle.x, spindle.y);
    let height = raised_near(part, spindle, area, from);
    match spindle.cutter {
        Cutter::Flat { .. } => edge_height(part, spindle, height),
        Cutter::Ball { .. } => height,
        Cutter::Cone { .. } => height,
    }
}

/// The least height, from `from` on, at which the triangles at the edge's ends along x are free.
fn edge_height(part: &SortedPart, spindle: Spindle, from: i32) -> i32
    requires spindle_ok { IsSpindle spindle }
    requires from_ok { IsTipHeight from }
    ensures raised { IsRaised spindle.cutter part.now spindle.x spindle.y from result }
    ensures bound { IsTipHeight result }
{
    let Spindle { cutter, x, y } = spindle;
    let Box2 { x0, x1, .. } = square_around(cutter, x, y);
    let height = raised_near(part, spindle, only(x0, y), from);
    raised_near(part, spindle, only(x1, y), height)
}
