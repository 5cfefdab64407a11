ghost use Rattle.std.specs.Prelude.{◌≡◌, ◌+◌, pos};
ghost use Rattle.mill_base.specs.Contact.{Touches};
ghost use Rattle.mill_base.specs.Ranges.{TriInRange};
ghost use Rattle.mill_base.specs.Sizes.{IsWideCutter};
ghost use Rattle.mill_geom.specs.Offsets.{IsCentre};
ghost use Rattle.mill_geom.specs.Sides.{IsTouch, along};

use mill_base::{Cutter, Pt3, Steps, Tri};
use mill_geom::{Axis, Touch};
use std::sync::ledger::Ledger;

/// How the triangle lies to the cutter with its tip at `tip`: whether some point of it is strictly
/// inside, and if none is, at which positions of the tip along `axis` none is either. That is one
/// step.
///
/// Lengths are in units.
pub fn counted_touch<L: Ledger>(
    tri: &Tri,
    cutter: Cutter,
    tip: Pt3,
    axis: Axis,
    steps: &mut Steps<L>,
) -> Touch
    requires tri_ok { TriInRange tri.now }
    requires cutter_ok { IsWideCutter cutter }
    requires tip_ok { IsCentre tip }
    ensures touch { IsTouch result (λ t. Touches cutter (pos 1) (along axis tip t) tri.now) }
    ensures step { steps.new ≡ steps.old + 1 }
{
    steps.tick();
    match cutter {
        Cutter::Flat { .. } => mill_contact_flat::touch(tri, cutter, tip, axis),
        Cutter::Ball { .. } => mill_contact_ball::touch(tri, cutter, tip, axis),
        Cutter::Cone { .. } => mill_contact_cone::touch(tri, cutter, tip, axis),
    }
}
