ghost use Rattle.std.specs.Prelude.{◌≡◌, ◌↔◌, ℤ, pos, false, ◌≤ℤ◌, IfOk, IsTrue};
ghost use Rattle.mill_base.specs.Covers.{Covered, HasPointOver};
ghost use Rattle.mill_base.specs.Numbers.{Within};
ghost use Rattle.mill_base.specs.Ranges.{TrisInRange};
ghost use Rattle.mill_base.specs.declared.limits.TheConstants.{MAX_COORDINATE, MAX_RADIUS};
ghost use Rattle.mill_cells.specs.Sorted.{sorted_of};

use crate::near::Column;
use crate::part::Part;
use mill_base::{MAX_COORDINATE, Tri, WantOfMemory};
use mill_cells::Cells;
use std::alloc::Global;
use std::marker::Model;

/// A part with its cells: its triangles, sorted into cells of the size that suits them.
///
/// A contract sees the list of the part's triangles.
#[derive(Drop)]
pub struct SortedPart {
    part: Part,
    cells: Cells,
}

impl Model for SortedPart {
    ghost use Rattle.std.specs.Prelude.{◌≡◌, List};
    ghost use Rattle.mill_base.specs.declared.points.Tri.{Tri};
    ghost use Rattle.mill_cells.specs.Sorted.{sorted_of};

    ghost Value = { List Tri };

    ghost view = { λ sorted. sorted.part };

    ghost invariant = { λ sorted. sorted.cells ≡ sorted_of sorted.part };
}

impl SortedPart {
    /// Sorts the part's triangles.
    pub fn new(alloc: Global, part: Part) -> Result<SortedPart, WantOfMemory>
        ensures { IfOk result (λ sorted. sorted ≡ part) }
    {
        let tris = part.tris();
        let cells = Cells::new(alloc, tris, Cells::size_for(tris))?;
        Ok(SortedPart { part, cells })
    }

    /// The part.
    pub fn part(&self) -> &Part
        ensures { result.now ≡ self.now }
    {
        &self.part
    }

    /// Its cells.
    pub fn cells(&self) -> &Cells
        ensures { result.now ≡ sorted_of self.now }
    {
        &self.cells
    }

    /// Whether the column (x, y) is covered at that height, as `Part::covered` tells, by a look at only
    /// those triangles whose boxes are near the column and that come up to the height, until one covers
    /// it.
    ///
    /// It is for many columns: for one alone, making the cells is more work than the looks that they
    /// save.
    pub fn covered_near(&self, floor: i32, x: i32, y: i32, height: i32, band: i32) -> bool
        requires floor_ok { Within MAX_COORDINATE floor }
        requires x_ok { Within MAX_COORDINATE x }
        requires y_ok { Within MAX_COORDINATE y }
        requires band_least { pos 0 ≤ℤ band }
        requires band_most { band ≤ℤ MAX_RADIUS }
        ensures { IsTrue result ↔ Covered self.now floor band x y height }
    {
        let tris = self.part.tris();
        if floor >= height {
            return true;
        }
        if height > MAX_COORDINATE as i32 {
            return false;
        }
        has_near_point_over(tris, &self.cells, Column { x, y, band }, height)
    }

    /// The greatest whole height of the column (x, y) that is covered, as `Part::covered_height` gives
    /// it, by a look at only those triangles whose boxes are near the column.
    ///
    /// It is for many columns: for one alone, making the cells is more work than the looks that they
    /// save.
    pub fn covered_height_near(&self, floor: i32, x: i32, y: i32, band: i32) -> i32
        requires floor_ok { Within MAX_COORDINATE floor }
        requires x_ok { Within MAX_COORDINATE x }
        requires y_ok { Within MAX_COORDINATE y }
        requires band_least { pos 0 ≤ℤ band }
        requires band_most { band ≤ℤ MAX_RADIUS }
        ensures exact { (h : ℤ) → Covered self.now floor band x y h ↔ (h ≤ℤ result) }
        ensures bound { Within MAX_COORDINATE result }
    {
        let tris = self.part.tris();
        let column = Column { x, y, band };
        let mut height = floor;
        let mut near = self.cells.near_rising(column.area());
        while let Some(number) = near.next_over(height) {
            height = column.raised(height, &tris[number as usize]);
        }
        height
    }
}

/// Whether a point of the triangles at least as high as `height` covers the column, by a look at those
/// near the column, which `cells` finds.
///
/// A triangle comes up to a height if its top is over the next lower one.
fn has_near_point_over(tris: &[Tri], cells: &Cells, column: Column, height: i32) -> bool
    requires in_range { TrisInRange tris.now }
    requires cells_ok { cells.now ≡ sorted_of tris.now }
    requires height_ok { Within MAX_COORDINATE height }
    ensures yes { IsTrue result → HasPointOver tris.now column.band column.x column.y height }
    ensures no { result ≡ false
        → ¬ HasPointOver tris.now column.band column.x column.y height }
{
    let lower = height - 1;
    let mut near = cells.near_rising(column.area());
    while let Some(number) = near.next_over(lower) {
        if column.is_covered(&tris[number as usize], height) {
            return true;
        }
    }
    false
}
