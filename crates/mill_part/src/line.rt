ghost use Rattle.std.specs.Prelude.{◌≡◌, ◌^◌, ◌↔◌, ◌*ℤ◌, ◌-ℤ◌, ◌≤ℤ◌, ◌<ℤ◌, pos, IsTrue};
ghost use Rattle.mill_base.specs.Numbers.{Within};
ghost use Rattle.mill_base.specs.declared.limits.TheConstants.{MAX_COORDINATE};
ghost use Rattle.mill_base.specs.Ranges.{IsInRange, TriInRange};
ghost use Rattle.mill_part.specs.inner.Columns.{IsFloor, IsGreatest, IsUpright, StandsOver, turn_of};

use crate::whole::{floor_height, offset, weighted};
use mill_base::{Pt3, Tri};

/// A corner of a triangle that is seen as a line from above: how far along that line it lies from
/// the column, and its height.
#[derive(Clone, Copy)]
struct LineCorner {
    at: i64,
    z: i32,
    ghost at_ok: { Within (2 ^ 20) at },
    ghost z_ok: { Within MAX_COORDINATE z },
}

/// The greatest whole height at which the triangle stands over the column (x, y), where from above
/// it is seen as a line through the column or as a point.
pub fn line_height(tri: &Tri, x: i32, y: i32) -> Option<i32>
    requires tri_ok { TriInRange tri.now }
    requires x_ok { Within MAX_COORDINATE x }
    requires y_ok { Within MAX_COORDINATE y }
    requires bc { turn_of tri.now.b tri.now.c x y ≡ pos 0 }
    requires ca { turn_of tri.now.c tri.now.a x y ≡ pos 0 }
    requires ab { turn_of tri.now.a tri.now.b x y ≡ pos 0 }
    ensures { IsGreatest (StandsOver tri.now x y) result }
{
    if is_upright(tri, x) {
        return LineCorner::edges_height(along_y(&tri.a, y), along_y(&tri.b, y), along_y(&tri.c, y));
    }
    LineCorner::edges_height(along_x(&tri.a, x), along_x(&tri.b, x), along_x(&tri.c, x))
}

/// Whether the three corners have this x.
fn is_upright(tri: &Tri, x: i32) -> bool
    ensures { IsTrue result ↔ IsUpright tri.now x }
{
    if tri.a.x != x {
        return false;
    }
    if tri.b.x != x {
        return false;
    }
    tri.c.x == x
}

/// The place of a corner along x, and along y.
fn along_x(p: &Pt3, x: i32) -> LineCorner
    requires p_ok { IsInRange p.now }
    requires x_ok { Within MAX_COORDINATE x }
    ensures at { result.at ≡ p.now.x -ℤ x }
    ensures z { result.z ≡ p.now.z }
{
    LineCorner {
        at: offset(p.x, x),
        z: p.z,
    }
}

fn along_y(p: &Pt3, y: i32) -> LineCorner
    requires p_ok { IsInRange p.now }
    requires y_ok { Within MAX_COORDINATE y }
    ensures at { result.at ≡ p.now.y -ℤ y }
    ensures z { result.z ≡ p.now.z }
{
    LineCorner {
        at: offset(p.y, y),
        z: p.z,
    }
}

impl LineCorner {
    ghost use Rattle.mill_part.specs.inner.Lines.{EdgeOver, LineOver};

    /// The greatest whole height over the column of the edge to `other`.
    fn edge_height(self, other: LineCorner) -> Option<i32>
        ensures { IsGreatest (EdgeOver self other) result }
    {
        if self.at > other.at {
            return other.rising_height(self);
        }
        self.rising_height(other)
    }

    /// The greatest whole height over the column of the edge to `other`, which doesn't lie before this
    /// place.
    fn rising_height(self, other: LineCorner) -> Option<i32>
        requires { self.at ≤ℤ other.at }
        ensures { IsGreatest (EdgeOver self other) result }
    {
        if self.at > 0 {
            return None;
        }
        if other.at < 0 {
            return None;
        }
        if self.at == other.at {
            return Some(self.z.max(other.z));
        }
        Some(self.height_between(other))
    }

    /// The greatest whole height over the column of the edge to `other`, where the column lies between
    /// the two places, and these aren't both on it.
    fn height_between(self, other: LineCorner) -> i32
        requires self_ok { self.at ≤ℤ pos 0 }
        requires other_ok { pos 0 ≤ℤ other.at }
        requires apart { self.at <ℤ other.at }
        ensures { IsFloor (other.at *ℤ self.z -ℤ self.at *ℤ other.z) (other.at -ℤ self.at) result }
    {
        let heights = weighted(other.at, self.z) - weighted(self.at, other.z);
        floor_height(heights, other.at - self.at)
    }

    /// The greatest whole height over the column of a triangle, which is that of its three edges.
    fn edges_height(a: LineCorner, b: LineCorner, c: LineCorner) -> Option<i32>
        ensures { IsGreatest (LineOver a b c) result }
    {
        let ab = a.edge_height(b);
        let bc = b.edge_height(c);
        let ca = c.edge_height(a);
        ab.max(bc).max(ca)
    }
}
