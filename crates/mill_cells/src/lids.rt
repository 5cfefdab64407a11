ghost use Rattle.std.specs.Prelude.{◌≡◌, ℕ, ◌+◌, ◌<◌, ◌≤◌, length, slice_index, All, IfOk};
ghost use Rattle.mill_cells.specs.Sorted.{AreUnder};
ghost use Rattle.mill_cells.specs.inner.Placing.{AreLids};

use mill_base::WantOfMemory;
use std::alloc::Global;

/// For each cell the greatest top of its triangles, and for one without triangles the least number.
pub fn lids(
    alloc: Global,
    starts: &[usize],
    entries: &[u32],
    tops: &[i32],
) -> Result<Vec<i32>, WantOfMemory>
    requires some { 0 < length starts.now }
    requires order { (k : ℕ) → k + 1 < length starts.now → slice_index starts.now k ≤ slice_index starts.now (k + 1) }
    requires room { (k : ℕ) → k < length starts.now → slice_index starts.now k ≤ length entries.now }
    requires known { All (λ i. i < length tops.now) entries.now }
    ensures { IfOk result (λ lids. (length lids.items + 1 ≡ length starts.now) × AreLids starts.now entries.now tops.now lids.items) }
{
    let cells = starts.len() - 1;
    let mut lids = Vec::with_capacity(alloc, cells)?;
    for cell in 0..cells {
        lids.push(lid(&entries[starts[cell]..starts[cell + 1]], tops))?;
    }
    Ok(lids)
}

/// The greatest top of the triangles of these numbers.
fn lid(numbers: &[u32], tops: &[i32]) -> i32
    requires { All (λ i. i < length tops.now) numbers.now }
    ensures { AreUnder tops.now result numbers.now }
{
    let mut lid = i32::MIN;
    for number in numbers {
        lid = lid.max(tops[*number as usize]);
    }
    lid
}
