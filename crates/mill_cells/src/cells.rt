ghost use Rattle.std.specs.Prelude.{◌≡◌, ◌<◌, ◌^◌, ◌↔◌, ℤ, pos, ◌<ℤ◌, ◌≤ℤ◌, length, IfOk, Contains, ℕ, nat_eq, nat_abs};
ghost use Rattle.std.specs.List.{IsDistinct};
ghost use Rattle.mill_base.specs.Ranges.{TrisInRange};
ghost use Rattle.mill_cells.specs.Boxes.{IsNear};
ghost use Rattle.mill_cells.specs.Sizes.{IsSmallGrid, IsCellSize};
ghost use Rattle.mill_cells.specs.Sorted.{sorted_of, IsNearOver};

use crate::boxes::{bounds, tri_box, tri_top};
use crate::frame::Frame;
use crate::grid::{Grid, sorted};
use crate::near::Near;
use crate::near_over::NearOver;
use crate::near_rising::NearRising;
use crate::size;
use mill_base::{Box2, Tri, WantOfMemory};
use std::alloc::Global;
use std::marker::Model;

/// The boxes of a list of triangles, sorted into square cells, and their greatest heights.
///
/// A contract sees the list of the boxes and that of the tops, both in the order of the triangles. A
/// triangle's top is the greatest of its three heights, in units.
#[derive(Drop)]
pub struct Cells {
    grid: Grid,
}

impl Model for Cells {
    ghost use Rattle.mill_cells.specs.Sorted.{Sorted};

    ghost Value = { Sorted };

    ghost use Rattle.mill_cells.specs.Grids.{IsGrid};

    ghost view = { λ cells. record { boxes = cells.grid.boxes.items; tops = cells.grid.tops.items } };

    ghost invariant = { λ cells. IsGrid cells.grid };
}

impl Cells {
    /// The size of cells that suits these triangles, in units: the least power of two
    /// at which there are at most 2^20 cells, and cells and entries in them together are at most
    /// four for each triangle and four more.
    pub fn size_for(tris: &[Tri]) -> i32
        requires in_range { TrisInRange tris.now }
        requires count { length tris.now < 2 ^ 32 }
        ensures power { (k : ℕ) × (result ≡ pos (2 ^ k)) }
        ensures fits { IsSmallGrid tris.now (nat_abs result) }
        ensures least { (k : ℕ) → (pos (2 ^ k)) <ℤ result → ¬ IsSmallGrid tris.now (2 ^ k) }
        ensures works { (size : ℤ) → result ≤ℤ size → IsCellSize tris.now size }
    {
        size::size_for(tris)
    }

    /// Sorts the triangles into cells of this size.
    ///
    /// `size_for` gives a size that suits, and each greater one will do.
    pub fn new(alloc: Global, tris: &[Tri], size: i32) -> Result<Cells, WantOfMemory>
        requires in_range { TrisInRange tris.now }
        requires count { length tris.now < 2 ^ 32 }
        requires size { IsCellSize tris.now size }
        ensures { IfOk result (λ cells. cells ≡ sorted_of tris.now) }
    {
        let mut boxes = Vec::with_capacity(alloc, tris.len())?;
        let mut tops = Vec::with_capacity(alloc, tris.len())?;
        for tri in tris {
            boxes.push(tri_box(tri))?;
            tops.push(tri_top(tri))?;
        }
        let frame = Frame::over(bounds(tris), size as u32);
        let grid = sorted(alloc, frame, boxes, tops)?;
        Ok(Cells { grid })
    }

    /// The numbers of the triangles whose box meets the area, each once; touching borders meet.
    ///
    /// The area may lie partly or wholly outside the part. Nothing meets an area whose ends are
    /// the wrong way round.
    pub fn near(&self, area: Box2) -> Near<'_>
        ensures each { (i : ℕ) → Contains result i ↔ IsNear self.now.boxes area i }
        ensures once { IsDistinct nat_eq result }
    {
        Near::new(&self.grid, area)
    }

    /// The numbers of the triangles whose box meets the area and whose top, the greatest of its three
    /// heights, is over `z`, each once; touching borders meet.
    ///
    /// The area is as for `near`, and `z` in units. It doesn't look at the triangles of a
    /// cell in which none is over `z`.
    pub fn near_over(&self, area: Box2, z: i32) -> NearOver<'_>
        ensures each { (i : ℕ) → Contains result i ↔ IsNearOver self.now area z i }
        ensures once { IsDistinct nat_eq result }
    {
        NearOver::new(&self.grid, area, z)
    }

    /// The triangles whose box meets the area, of which `NearRising::next_over` gives those over a
    /// height that may rise from call to call; touching borders meet.
    ///
    /// It doesn't look at the triangles of a cell in which none is over the height.
    pub fn near_rising(&self, area: Box2) -> NearRising<'_>
        ensures each { (i : ℕ) → Contains result.numbers i ↔ IsNear self.now.boxes area i }
        ensures once { IsDistinct nat_eq result.numbers }
        ensures tops { result.tops ≡ self.now.tops }
    {
        NearRising::new(&self.grid, area)
    }
}
