ghost use Rattle.std.specs.Prelude.{◌≡◌, ◌↔◌, ◌<◌, ◌^◌, ℤ, pos, false, ◌≤ℤ◌, length, IfSome, IsNone, IsTrue};
ghost use Rattle.mill_base.specs.Covers.{Covered, HasPointOver};
ghost use Rattle.mill_base.specs.Numbers.{Within};
ghost use Rattle.mill_base.specs.declared.limits.TheConstants.{MAX_COORDINATE, MAX_RADIUS};
ghost use Rattle.mill_base.specs.Ranges.{TrisInRange};
ghost use Rattle.mill_part.specs.Parts.{top_of};

use crate::near::{Column, highest};
use mill_base::{MAX_COORDINATE, Tri};
use std::marker::Model;

/// The part to be cut: the triangles of its surface, in the order in which they were given.
///
/// Each coordinate's magnitude is at most `MAX_COORDINATE` units, and there are fewer than
/// 2^32 triangles, so that a `u32` numbers them.
#[derive(Drop)]
pub struct Part {
    triangles: Vec<Tri>,
    top: Option<i32>,
}

impl Model for Part {
    ghost use Rattle.std.specs.Prelude.{◌≡◌, List};
    ghost use Rattle.mill_base.specs.declared.points.Tri.{Tri};
    ghost use Rattle.mill_part.specs.Parts.{IsPartList, top_of};

    ghost Value = { List Tri };

    ghost view = { λ part. part.triangles.items };

    ghost invariant = { λ part. IsPartList part.triangles.items
        × (part.top ≡ top_of part.triangles.items) };
}

impl Part {
    ghost use Rattle.mill_base.specs.Ranges.{TrisInRange};
    ghost use Rattle.mill_part.specs.Tops.{IsTop};

    /// The part of these triangles.
    pub fn new(tris: Vec<Tri>) -> Part
        requires in_range { TrisInRange tris.items }
        requires count { length tris.items < 2 ^ 32 }
        ensures { result ≡ tris.items }
    {
        let top = greatest_height(&tris);
        Part {
            triangles: tris,
            top,
        }
    }

    /// The triangles.
    pub fn tris(&self) -> &[Tri]
        ensures list { result.now ≡ self.now }
        ensures in_range { TrisInRange self.now }
        ensures count { length self.now < 2 ^ 32 }
    {
        &self.triangles
    }

    /// The greatest height of any corner, in units; none without triangles.
    ///
    /// It looks at no triangle: `new` has found it.
    pub fn top(&self) -> Option<i32>
        ensures none { IsNone result ↔ (length self.now ≡ 0) }
        ensures greatest { IfSome result (λ top. IsTop self.now top) }
    {
        self.top
    }

    /// Whether the floor, or a point of the part at least as high as `height`, covers the column
    /// (x, y) at that height, exactly: a point on the column does, and one nearer to it than `band`.
    ///
    /// `height` is any; the magnitudes of `floor`, `x` and `y` are at most `MAX_COORDINATE`, and `band`
    /// is from 0 to `MAX_RADIUS`, all in units.
    pub fn covered(&self, floor: i32, x: i32, y: i32, height: i32, band: i32) -> bool
        requires floor_ok { Within MAX_COORDINATE floor }
        requires x_ok { Within MAX_COORDINATE x }
        requires y_ok { Within MAX_COORDINATE y }
        requires band_least { pos 0 ≤ℤ band }
        requires band_most { band ≤ℤ MAX_RADIUS }
        ensures { IsTrue result ↔ Covered self.now floor band x y height }
    {
        let tris = self.tris();
        if height <= floor {
            return true;
        }
        if height > MAX_COORDINATE as i32 {
            return false;
        }
        has_point_over(tris, Column { x, y, band }, height)
    }

    /// The greatest whole height of the column (x, y) that the floor or a point of the part covers,
    /// exactly, in units: a point on the column does, and one nearer to it than `band`.
    ///
    /// It is the floor where no point of the part does. The magnitudes of `floor`, `x` and `y` are at
    /// most `MAX_COORDINATE`, and `band` is from 0 to `MAX_RADIUS`.
    pub fn covered_height(&self, floor: i32, x: i32, y: i32, band: i32) -> i32
        requires floor_ok { Within MAX_COORDINATE floor }
        requires x_ok { Within MAX_COORDINATE x }
        requires y_ok { Within MAX_COORDINATE y }
        requires band_least { pos 0 ≤ℤ band }
        requires band_most { band ≤ℤ MAX_RADIUS }
        ensures exact { (h : ℤ) → Covered self.now floor band x y h ↔ (h ≤ℤ result) }
        ensures bound { Within MAX_COORDINATE result }
    {
        let column = Column { x, y, band };
        let mut height = floor;
        for tri in self.tris() {
            height = column.raised(height, tri);
        }
        height
    }
}

/// The greatest height of any corner; none without triangles.
fn greatest_height(tris: &[Tri]) -> Option<i32>
    ensures { result ≡ top_of tris.now }
{
    let mut top = None;
    for tri in tris {
        top = top.max(Some(highest(tri)));
    }
    top
}

/// Whether a point of the triangles at least as high as `height` covers the column.
fn has_point_over(tris: &[Tri], column: Column, height: i32) -> bool
    requires in_range { TrisInRange tris.now }
    requires height_ok { Within MAX_COORDINATE height }
    ensures yes { IsTrue result → HasPointOver tris.now column.band column.x column.y height }
    ensures no { result ≡ false
        → ¬ HasPointOver tris.now column.band column.x column.y height }
{
    for tri in tris {
        if column.is_covered(tri, height) {
            return true;
        }
    }
    false
}
