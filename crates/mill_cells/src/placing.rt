ghost use Rattle.std.specs.Prelude.{◌≡◌, ℕ, ◌<◌, ◌≤◌, ◌+◌, ◌^◌, length, slice_index};
ghost use Rattle.mill_cells.specs.Boxes.{AllInside};
ghost use Rattle.mill_cells.specs.Frames.{IsFrame, cell_count};
ghost use Rattle.mill_cells.specs.inner.Placing.{IsCounting, IsPlacing, sum_before, AreSmall};

use crate::frame::Frame;
use mill_base::Box2;

/// Counts a box in each cell that it covers: cell `k` at place `k + 1`.
pub fn count_box(starts: &mut [usize], frame: &Frame, boxes: &[Box2], number: usize)
    requires frame { IsFrame frame.now }
    requires inside { AllInside frame.now.bounds boxes.now }
    requires number { number < length boxes.now }
    requires count { length boxes.now < 2 ^ 32 }
    requires counting { IsCounting frame.now boxes.now starts.old number 0 }
    ensures { IsCounting frame.now boxes.now starts.new (number + 1) 0 }
{
    let block = frame.block(boxes[number]);
    for row in block.first_row..block.last_row + 1 {
        let start = row as usize * frame.columns as usize;
        for column in block.first_column..block.last_column + 1 {
            starts[start + column as usize + 1] += 1;
        }
    }
}

/// Replaces the count of each cell, at its place `k + 1`, by the sum of those before it, and gives
/// the sum of all.
pub fn sum_up(starts: &mut [usize]) -> usize
    requires some { 0 < length starts.old }
    requires few { length starts.old ≤ 2 ^ 20 + 1 }
    requires small { AreSmall starts.old }
    ensures sums { (k : ℕ) → k + 1 < length starts.old → slice_index starts.new (k + 1) ≡ sum_before starts.old k }
    ensures first { slice_index starts.new 0 ≡ slice_index starts.old 0 }
    ensures total { (k : ℕ) → k + 1 ≡ length starts.old → result ≡ sum_before starts.old k }
{
    let mut sum = 0;
    for cell in 0..starts.len() - 1 {
        let count = starts[cell + 1];
        starts[cell + 1] = sum;
        sum += count;
    }
    sum
}

/// Writes a box's number into each cell that it covers. The next free place of cell `k` stands at
/// `starts[k + 1]`, and moves on.
pub fn place_box(
    entries: &mut [u32],
    starts: &mut [usize],
    frame: &Frame,
    boxes: &[Box2],
    number: usize,
)
    requires frame { IsFrame frame.now }
    requires inside { AllInside frame.now.bounds boxes.now }
    requires number { number < length boxes.now }
    requires count { length boxes.now < 2 ^ 32 }
    requires placing { IsPlacing frame.now boxes.now starts.old entries.old number 0 }
    ensures { IsPlacing frame.now boxes.now starts.new entries.new (number + 1) 0 }
{
    let block = frame.block(boxes[number]);
    for row in block.first_row..block.last_row + 1 {
        let start = row as usize * frame.columns as usize;
        for column in block.first_column..block.last_column + 1 {
            let cell = start + column as usize;
            let place = starts[cell + 1];
            entries[place] = number as u32;
            starts[cell + 1] = place + 1;
        }
    }
}
