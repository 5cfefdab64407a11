ghost use Rattle.std.specs.Prelude.{◌≡◌, ◌<◌, ◌^◌, length, IfOk};
ghost use Rattle.mill_cells.specs.Boxes.{AllInside};
ghost use Rattle.mill_cells.specs.Frames.{IsFrame};
ghost use Rattle.mill_cells.specs.Grids.{IsGrid};

use crate::frame::Frame;
use crate::lids::lids;
use crate::placing::{count_box, place_box, sum_up};
use mill_base::{Box2, WantOfMemory};
use std::alloc::Global;

/// For each cell, the numbers of the boxes that cover it, ascending, and how high they come.
#[derive(Drop)]
pub struct Grid {
    pub frame: Frame,
    pub boxes: Vec<Box2>,
    /// Where in `entries` each cell begins, and after the last one where it ends.
    pub starts: Vec<usize>,
    /// The numbers of the boxes, cell by cell.
    pub entries: Vec<u32>,
    /// The greatest height of each triangle.
    pub tops: Vec<i32>,
    /// For each cell, a height that none of its triangles is over.
    pub lids: Vec<i32>,
}

/// Sorts the boxes into the cells, by counting first how many each cell holds. `tops` are the
/// greatest heights of the triangles, in the order of the boxes.
pub fn sorted(
    alloc: Global,
    frame: Frame,
    boxes: Vec<Box2>,
    tops: Vec<i32>,
) -> Result<Grid, WantOfMemory>
    requires frame { IsFrame frame }
    requires inside { AllInside frame.bounds boxes.items }
    requires count { length boxes.items < 2 ^ 32 }
    requires tops { length tops.items ≡ length boxes.items }
    ensures { IfOk result (λ grid. (grid.frame ≡ frame) × (grid.boxes.items ≡ boxes.items) × (grid.tops.items ≡ tops.items) × IsGrid grid) }
{
    let cells = frame.cells() as usize;
    let mut starts = vec![in alloc; 0usize; cells + 1]?;
    for number in 0..boxes.len() {
        count_box(&mut starts, &frame, &boxes, number);
    }
    let total = sum_up(&mut starts);
    let mut entries = vec![in alloc; 0u32; total]?;
    for number in 0..boxes.len() {
        place_box(&mut entries, &mut starts, &frame, &boxes, number);
    }
    let lids = lids(alloc, &starts, &entries, &tops)?;
    Ok(Grid {
        frame,
        boxes,
        starts,
        entries,
        tops,
        lids,
    })
}
