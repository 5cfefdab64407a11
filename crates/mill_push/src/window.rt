ghost use Rattle.std.specs.Prelude.{◌≡◌, ◌≤ℤ◌, ℤ, IsTrue};
ghost use Rattle.mill_base.specs.Numbers.{Within};
ghost use Rattle.mill_base.specs.declared.limits.TheConstants.{MAX_COORDINATE};
ghost use Rattle.mill_base.specs.Ranges.{TriInRange};
ghost use Rattle.mill_push.specs.Fibers.{IsTouched};
ghost use Rattle.mill_push.specs.inner.Known.{IsRunInRange, IsWindow};
ghost use Rattle.mill_push.specs.inner.Pushers.{IsPusher};
ghost use Rattle.mill_push.specs.inner.Reaches.{IsReachForTri};
ghost use Rattle.mill_push.specs.inner.Windows.{other_than};

use crate::fiber::Run;
use crate::reach::reach_up_to;
use crate::stretch::Pusher;
use mill_base::{MAX_COORDINATE, Pt3, Tri};
use mill_geom::{Axis, extent_over};

impl Pusher {
    /// The positions from `from` to `to` at which what the triangle has over the fiber's height is
    /// within the cutter's reach for it: at no other is the triangle touched. They are all of them
    /// where the fiber is under the lowest coordinate.
    pub fn window(self, tri: &Tri, from: i32, to: i32) -> Run
        requires self_ok { IsPusher self }
        requires tri_ok { TriInRange tri.now }
        requires from_ok { Within MAX_COORDINATE from }
        requires to_ok { Within MAX_COORDINATE to }
        requires order { from ≤ℤ to }
        ensures in_range { IsRunInRange result }
        ensures window { IsWindow self.cutter tri.now self.fiber from to result }
    {
        if self.fiber.z < -(MAX_COORDINATE as i32) {
            return Run {
                first: from,
                last: to,
            };
        }
        let reach = self.reach_for(tri);
        if self.is_beside(tri, reach) {
            return Run {
                first: to,
                last: from,
            };
        }
        let extent = extent_over(tri, self.fiber.axis, self.fiber.z);
        Run {
            first: from.max(extent.first - reach),
            last: to.min(extent.last + reach),
        }
    }

    /// How far from its axis the cutter may hold points of the triangle: each is nearer than that.
    fn reach_for(self, tri: &Tri) -> i32
        requires self_ok { IsPusher self }
        requires tri_ok { TriInRange tri.now }
        ensures { IsReachForTri self.cutter self.fiber.z result tri.now }
    {
        let top = tri.a.z.max(tri.b.z.max(tri.c.z));
        reach_up_to(self.cutter, self.fiber.z, top)
    }

    /// Whether what the triangle has over the fiber's height is farther beside the fiber than the
    /// reach: it is touched nowhere.
    fn is_beside(self, tri: &Tri, reach: i32) -> bool
        requires self_ok { IsPusher self }
        requires tri_ok { TriInRange tri.now }
        requires z_ok { Within MAX_COORDINATE self.fiber.z }
        requires reach_ok { IsReachForTri self.cutter self.fiber.z reach tri.now }
        ensures { IsTrue result → (v : ℤ) → ¬ IsTouched self.cutter tri.now self.fiber v }
    {
        if self.is_near(tri.a, reach) || self.is_near(tri.b, reach) || self.is_near(tri.c, reach) {
            return false;
        }
        let across = extent_over(tri, other(self.fiber.axis), self.fiber.z);
        let at = self.fiber.at;
        across.first - reach > at || across.last + reach < at
    }

    /// Whether a corner is over the fiber's height and no farther beside the fiber than the reach.
    /// Then the triangle isn't beside the fiber, which saves the divisions that would say so.
    fn is_near(self, corner: Pt3, reach: i32) -> bool {
        let across = match self.fiber.axis {
            Axis::X => corner.y,
            Axis::Y => corner.x,
        };
        corner.z > self.fiber.z && across.abs_diff(self.fiber.at) <= reach.unsigned_abs()
    }
}

/// The axis across this one.
fn other(axis: Axis) -> Axis
    ensures { result ≡ other_than axis }
{
    match axis {
        Axis::X => Axis::Y,
        Axis::Y => Axis::X,
    }
}
