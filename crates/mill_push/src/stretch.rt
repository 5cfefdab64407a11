ghost use Rattle.std.specs.Prelude.{◌≡◌, ◌+◌, ◌*◌, ◌^◌, ◌<◌, ◌≤◌, ◌≤ℤ◌, ◌+ℤ◌, ◌-ℤ◌, ◌*ℤ◌, ℕ, pos, nat_abs, false, IsTrue};
ghost use Rattle.mill_base.specs.Numbers.{Within};
ghost use Rattle.mill_base.specs.declared.limits.TheConstants.{MAX_COORDINATE};
ghost use Rattle.mill_base.specs.Ranges.{TriInRange};
ghost use Rattle.mill_geom.specs.Sides.{IsTouch};
ghost use Rattle.mill_push.specs.Fibers.{IsTouched, tip_on};
ghost use Rattle.mill_push.specs.inner.Pushers.{IsPusher};
ghost use Rattle.mill_push.specs.Stretches.{IsStretchAnswer};
ghost use Rattle.mill_push.specs.Touches.{position_count};

use crate::contact::counted_touch;
use crate::fiber::{Fiber, Run};
use crate::inside::counted_inside;
use mill_base::{Cutter, Pt3, Steps, Tri};
use mill_geom::{Axis, Side, Touch};
use mill_hints::Aims;
use std::sync::ledger::Ledger;

/// A cutter that is pushed along the fiber of its tip, which may be lower than any coordinate.
///
/// Every point of the part that it holds is nearer to its axis than the reach.
#[derive(Clone, Copy)]
pub struct Pusher {
    pub cutter: Cutter,
    pub fiber: Fiber,
    pub reach: i32,
}

impl Fiber {
    /// The tip at this position.
    fn tip(self, at: i32) -> Pt3
        ensures { result ≡ tip_on self at }
    {
        match self.axis {
            Axis::X => Pt3 {
                x: at,
                y: self.at,
                z: self.z,
            },
            Axis::Y => Pt3 {
                x: self.at,
                y: at,
                z: self.z,
            },
        }
    }
}

impl Pusher {
    /// How the triangle lies to the cutter at this position, by one touch.
    pub fn touch_at<L: Ledger>(self, tri: &Tri, at: i32, steps: &mut Steps<L>) -> Touch
        requires self_ok { IsPusher self }
        requires tri_ok { TriInRange tri.now }
        requires at_ok { Within MAX_COORDINATE at }
        ensures touch { IsTouch result (λ t. IsTouched self.cutter tri.now self.fiber (at +ℤ t)) }
        ensures step { steps.new ≡ steps.old + 1 }
    {
        counted_touch(tri, self.cutter, self.fiber.tip(at), self.fiber.axis, steps)
    }

    /// Whether some point of the triangle is strictly inside the cutter at this position, by one
    /// touch, which needn't tell on which side the triangle lies.
    pub fn is_touched<L: Ledger>(self, tri: &Tri, at: i32, steps: &mut Steps<L>) -> bool
        requires self_ok { IsPusher self }
        requires tri_ok { TriInRange tri.now }
        requires at_ok { Within MAX_COORDINATE at }
        ensures yes { IsTrue result → IsTouched self.cutter tri.now self.fiber at }
        ensures no { result ≡ false → ¬ IsTouched self.cutter tri.now self.fiber at }
        ensures step { steps.new ≡ steps.old + 1 }
    {
        counted_inside(tri, self.cutter, self.fiber.tip(at), steps)
    }

    /// The positions from `from` to `to` at which the triangle is touched: one run, or none.
    ///
    /// A touch in the middle of the positions that are left finds one, or leaves half of them: that
    /// a triangle isn't touched tells on which side it may be. From one that is touched each end is
    /// looked for in its own half, near its aim first.
    pub fn stretch<L: Ledger>(
        self,
        tri: &Tri,
        from: i32,
        to: i32,
        aims: Aims,
        steps: &mut Steps<L>,
    ) -> Option<Run>
        requires self_ok { IsPusher self }
        requires tri_ok { TriInRange tri.now }
        requires from_ok { Within MAX_COORDINATE from }
        requires to_ok { Within MAX_COORDINATE to }
        requires order { from ≤ℤ to }
        ensures stretch { IsStretchAnswer self.cutter tri.now self.fiber from to result }
        ensures cost { (n : ℕ) → position_count from to < 2 ^ n → steps.new ≤ steps.old + (2 * n + 2 * aims.probes) }
    {
        let mut low = from;
        let mut high = to;
        while low <= high {
            let middle = middle(low, high);
            match self.touch_at(tri, middle, steps) {
                Touch::Inside => {
                    let first = self.first_near(tri, low, middle, aims, steps);
                    let last = self.last_near(tri, middle, high, aims, steps);
                    return Some(Run { first, last });
                }
                Touch::Apart(Side::Less) => high = middle - 1,
                Touch::Apart(Side::More) => low = middle + 1,
                Touch::Apart(Side::Never) => return None,
            }
        }
        None
    }

    /// The same, by a touch at `start` first: where it finds the triangle, only the two ends of the
    /// run are left to be looked for, and where it doesn't, the positions on one side.
    pub fn stretch_from<L: Ledger>(
        self,
        tri: &Tri,
        from: i32,
        to: i32,
        start: i32,
        aims: Aims,
        steps: &mut Steps<L>,
    ) -> Option<Run>
        requires self_ok { IsPusher self }
        requires tri_ok { TriInRange tri.now }
        requires from_ok { Within MAX_COORDINATE from }
        requires to_ok { Within MAX_COORDINATE to }
        requires after { from ≤ℤ start }
        requires before { start ≤ℤ to }
        ensures stretch { IsStretchAnswer self.cutter tri.now self.fiber from to result }
        ensures cost { (n : ℕ) → position_count from to < 2 ^ n → steps.new ≤ steps.old + (1 + 2 * n + 2 * aims.probes) }
    {
        match self.touch_at(tri, start, steps) {
            Touch::Inside => {
                let first = self.first_near(tri, from, start, aims, steps);
                let last = self.last_near(tri, start, to, aims, steps);
                Some(Run { first, last })
            }
            Touch::Apart(Side::Less) => {
                if start <= from {
                    return None;
                }
                self.stretch(tri, from, start - 1, aims, steps)
            }
            Touch::Apart(Side::More) => {
                if to <= start {
                    return None;
                }
                self.stretch(tri, start + 1, to, aims, steps)
            }
            Touch::Apart(Side::Never) => None,
        }
    }
}

/// The middle of the positions from `low` to `high`: at most half of them are before it, and at most
/// half after it.
pub fn middle(low: i32, high: i32) -> i32
    requires low_ok { Within (2 * MAX_COORDINATE) low }
    requires high_ok { Within (2 * MAX_COORDINATE) high }
    requires order { low ≤ℤ high }
    ensures from { low ≤ℤ result }
    ensures to { result ≤ℤ high }
    ensures before { (pos 2 *ℤ (result -ℤ low)) ≤ℤ (high -ℤ low) }
    ensures after { (pos 2 *ℤ (high -ℤ result)) ≤ℤ ((high -ℤ low) +ℤ pos 1) }
{
    low + (high - low) / 2
}
