ghost use Rattle.std.specs.Prelude.{◌≡◌, ◌<◌, ◌^◌, ◌↔◌, ℕ, ℤ, pos, ◌<ℤ◌, ◌≤ℤ◌, length, IsTrue, nat_abs};
ghost use Rattle.mill_base.specs.Ranges.{TrisInRange};
ghost use Rattle.mill_cells.specs.Boxes.{bounds_of};
ghost use Rattle.mill_cells.specs.Sizes.{IsSmallGrid, IsCellSize};

use crate::boxes::{bounds, tri_box};
use crate::frame::Frame;
use mill_base::{Box2, Tri};

/// A grid has at most 2^20 cells.
const MOST_CELLS: u64 = 1 << 20;

/// At this size every part has one cell.
const MOST_DOUBLINGS: u32 = 20;

/// The least power of two that is fit as a size of cells.
pub fn size_for(tris: &[Tri]) -> i32
    requires in_range { TrisInRange tris.now }
    requires count { length tris.now < 2 ^ 32 }
    ensures power { (k : ℕ) × (result ≡ pos (2 ^ k)) }
    ensures fits { IsSmallGrid tris.now (nat_abs result) }
    ensures least { (k : ℕ) → (pos (2 ^ k)) <ℤ result → ¬ IsSmallGrid tris.now (2 ^ k) }
    ensures works { (size : ℤ) → result ≤ℤ size → IsCellSize tris.now size }
{
    let bounds = bounds(tris);
    for doublings in 0..MOST_DOUBLINGS {
        let size = 1 << doublings;
        if fits(tris, bounds, size) {
            return size as i32;
        }
    }
    1 << MOST_DOUBLINGS
}

/// Whether a size of cells is fit: it makes few cells, and few entries in them.
fn fits(tris: &[Tri], bounds: Box2, size: u32) -> bool
    requires in_range { TrisInRange tris.now }
    requires count { length tris.now < 2 ^ 32 }
    requires bounds { bounds ≡ bounds_of tris.now }
    requires size { 0 < size }
    ensures { IsTrue result ↔ IsSmallGrid tris.now size }
{
    let frame = Frame::over(bounds, size);
    let cells = frame.cells();
    if cells > MOST_CELLS {
        return false;
    }
    let most = 4 * (tris.len() as u64 + 1);
    let mut numbers = cells;
    for tri in tris {
        if numbers > most {
            return false;
        }
        numbers += frame.block(tri_box(tri)).cells();
    }
    numbers <= most
}
