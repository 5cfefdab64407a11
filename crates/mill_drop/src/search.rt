ghost use Rattle.std.specs.Prelude.{◌≡◌, ◌⊎◌, ◌+ℤ◌, ◌-ℤ◌, ◌≤ℤ◌, ◌<ℤ◌, pos, false, IsTrue};
ghost use Rattle.mill_base.specs.Points.{highest as highest_of};
ghost use Rattle.mill_base.specs.Ranges.{TriInRange};
ghost use Rattle.mill_drop.specs.inner.Solids.{TouchesAt};
ghost use Rattle.mill_drop.specs.inner.Spindles.{IsBracket, IsSpindle, IsTipHeight};

use mill_base::{Cutter, Pt3, Tri};
use mill_sweep::holds_some;

/// A cutter over a place, whose height is looked for.
#[derive(Clone, Copy)]
pub struct Spindle {
    pub cutter: Cutter,
    pub x: i32,
    pub y: i32,
}

impl Spindle {
    /// Whether some point of the triangle is strictly inside the cutter with its tip at height `z`.
    fn holds_some(self, tri: &Tri, z: i32) -> bool
        requires self_ok { IsSpindle self }
        requires tri_ok { TriInRange tri.now }
        requires z_ok { IsTipHeight z }
        ensures yes { IsTrue result → TouchesAt self.cutter tri.now self.x self.y z }
        ensures no { result ≡ false → ¬ TouchesAt self.cutter tri.now self.x self.y z }
    {
        let tip = Pt3 {
            x: self.x,
            y: self.y,
            z,
        };
        holds_some(self.cutter, tip, tri)
    }

    /// The least height over `low` at which the triangle is free, where the cutter holds some of it
    /// at `low` and none at `top`.
    fn least_free(self, tri: &Tri, low: i32, top: i32) -> i32
        requires self_ok { IsSpindle self }
        requires tri_ok { TriInRange tri.now }
        requires bracket { IsBracket self tri.now low top }
        ensures over { low <ℤ result }
        ensures under { result ≤ℤ top }
        ensures free { ¬ TouchesAt self.cutter tri.now self.x self.y result }
        ensures least { TouchesAt self.cutter tri.now self.x self.y (result -ℤ pos 1) }
    {
        let mut low = low;
        let mut high = top;
        while low + 1 < high {
            let tried = between(self.cutter, low, high, top);
            if self.holds_some(tri, tried) {
                low = tried;
            } else {
                high = tried;
            }
        }
        high
    }

    /// The least height, from `from` on, at which the triangle is free.
    ///
    /// Most triangles leave it as it is: those whose highest corner isn't over `from` are passed by
    /// their heights, and of the others most by one test.
    pub fn raised(self, tri: &Tri, from: i32) -> i32
        requires self_ok { IsSpindle self }
        requires tri_ok { TriInRange tri.now }
        requires from_ok { IsTipHeight from }
        ensures kept { from ≤ℤ result }
        ensures bound { IsTipHeight result }
        ensures free { ¬ TouchesAt self.cutter tri.now self.x self.y result }
        ensures least { (result ≡ from) ⊎ TouchesAt self.cutter tri.now self.x self.y (result -ℤ pos 1) }
    {
        let top = highest(tri);
        if top <= from {
            return from;
        }
        if !self.holds_some(tri, from) {
            return from;
        }
        self.least_free(tri, from, top)
    }
}

/// The height between two others that is tried next: mostly one in the middle.
///
/// A flat cutter stands on a triangle's top wherever the highest corner is under it, so for a flat
/// cutter one unit under the top is tried first.
fn between(cutter: Cutter, low: i32, high: i32, top: i32) -> i32
    requires low_ok { IsTipHeight low }
    requires high_ok { IsTipHeight high }
    requires room { (low +ℤ pos 1) <ℤ high }
    ensures over { low <ℤ result }
    ensures under { result <ℤ high }
{
    match cutter {
        Cutter::Flat { .. } if high == top => high - 1,
        _ => low + (high - low) / 2,
    }
}

/// The greatest of a triangle's three heights.
fn highest(tri: &Tri) -> i32
    ensures { result ≡ highest_of tri.now }
{
    tri.a.z.max(tri.b.z).max(tri.c.z)
}
