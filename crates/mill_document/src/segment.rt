//! The two ends of a segment of a move, in whole units.
ghost use Rattle.std.specs.Prelude.{◌≡◌, ◌+◌, ◌^◌, ◌<◌, ◌≤◌};
ghost use Rattle.mill_base.specs.declared.limits.TheConstants.{MAX_COORDINATE, MAX_DEPTH};
ghost use Rattle.mill_base.specs.Numbers.{Within, round_half_up};
ghost use Rattle.mill_base.specs.Ranges.{MoveInRange};
ghost use Rattle.mill_document.specs.Details.{point_on as point_on_move, segment_at};
ghost use Rattle.mill_sweep.specs.Leaves.{end_of};

use crate::failure::Segment;
use mill_base::{Move, Pt3};
use mill_sweep::{Leaf, end_at, nearest};

/// A leaf of a move, with its ends.
pub(crate) fn segment(step: &Move, leaf: Leaf) -> Segment
    requires step_ok { MoveInRange step.now }
    requires depth { leaf.d ≤ MAX_DEPTH }
    requires number { leaf.k < 2 ^ leaf.d }
    ensures { result ≡ segment_at step.now leaf }
{
    Segment {
        depth: leaf.d,
        number: leaf.k,
        from: point_on(step, leaf.d, leaf.k),
        to: point_on(step, leaf.d, leaf.k + 1),
    }
}

/// Where the tip of a move is at k/2^d.
fn point_on(step: &Move, d: u32, k: u64) -> Pt3
    requires step_ok { MoveInRange step.now }
    requires depth { d ≤ MAX_DEPTH }
    requires number { k ≤ 2 ^ d }
    ensures { result ≡ point_on_move step.now d k }
{
    Pt3 {
        x: coordinate(step.from.x, step.to.x, d, k),
        y: coordinate(step.from.y, step.to.y, d, k),
        z: coordinate(step.from.z, step.to.z, d, k),
    }
}

fn coordinate(from: i32, to: i32, d: u32, k: u64) -> i32
    requires from_ok { Within MAX_COORDINATE from }
    requires to_ok { Within MAX_COORDINATE to }
    requires depth { d ≤ MAX_DEPTH }
    requires number { k ≤ 2 ^ d }
    ensures { result ≡ round_half_up (end_of from to d k) (2 ^ d) }
{
    nearest(end_at(from, to, d, k), d)
}
