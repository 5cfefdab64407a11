ghost use Rattle.std.specs.Prelude.{◌≡◌, ◌-◌, ◌^◌, ◌<◌, ◌++◌, pos, ◌*ℤ◌, nat_abs, length, IfOk, OnOk};
ghost use Rattle.mill_drop.specs.Paths.{is_kept_at, is_straight, line_at, path_places, places_after, IsTolerance};
ghost use Rattle.mill_drop.specs.inner.Rows.{AreHeights};

use mill_base::WantOfMemory;
use std::alloc::Global;

/// The places of a row between which a tool goes straight, the first and the last place among them.
/// Places are counted from 0, and `heights` are their drop heights.
pub fn places_of(alloc: Global, heights: &[i32], tol: i32) -> Result<Vec<u32>, WantOfMemory>
    requires heights_ok { AreHeights heights.now }
    requires some { 0 < length heights.now }
    requires tol_ok { IsTolerance tol }
    ensures { IfOk result (λ places. places.items ≡ path_places heights.now tol (length heights.now - 1)) }
{
    let last = (heights.len() - 1) as u32;
    let mut places = Vec::new(alloc);
    places.push(0)?;
    if last > 0 {
        add_places(heights, tol, 0, last, &mut places)?;
    }
    Ok(places)
}

/// Adds the places after `p` up to `q`: `q` alone where the tool may go straight to it, else those of
/// the two halves.
fn add_places(
    heights: &[i32],
    tol: i32,
    p: u32,
    q: u32,
    places: &mut Vec<u32>,
) -> Result<(), WantOfMemory>
    requires heights_ok { AreHeights heights.now }
    requires tol_ok { IsTolerance tol }
    requires order { p < q }
    requires inside { q < length heights.now }
    ensures { OnOk result (places.new.items ≡ places.old.items ++ places_after heights.now tol p q) }
{
    if goes_straight(heights, tol, p, q) {
        places.push(q)?;
        return Ok(());
    }
    let middle = (p + q) / 2;
    add_places(heights, tol, p, middle, places)?;
    add_places(heights, tol, middle, q, places)
}

/// Whether the line from the tip at `p` to the tip at `q` has at each place between them a height from
/// the drop height to the tolerance over it.
fn goes_straight(heights: &[i32], tol: i32, p: u32, q: u32) -> bool
    requires heights_ok { AreHeights heights.now }
    requires tol_ok { IsTolerance tol }
    requires order { p < q }
    requires inside { q < length heights.now }
    ensures { result ≡ is_straight heights.now tol p q }
{
    for k in p + 1..q {
        if !is_over(heights, tol, p, q, k) {
            return false;
        }
    }
    true
}

/// Whether it has such a height at `k`. All heights are taken times the steps from `p` to `q`, so that
/// they are whole.
fn is_over(heights: &[i32], tol: i32, p: u32, q: u32, k: u32) -> bool
    requires heights_ok { AreHeights heights.now }
    requires tol_ok { IsTolerance tol }
    requires after { p < k }
    requires before { k < q }
    requires inside { q < length heights.now }
    ensures { result ≡ is_kept_at heights.now tol p q k }
{
    let height = heights[k as usize];
    let line = line_over(heights, p, q, k);
    scaled(height, q - p) <= line && line <= scaled(height + tol, q - p)
}

/// The height of the line at `k`, times the steps from `p` to `q`.
fn line_over(heights: &[i32], p: u32, q: u32, k: u32) -> i64
    requires heights_ok { AreHeights heights.now }
    requires after { p < k }
    requires before { k < q }
    requires inside { q < length heights.now }
    ensures value { result ≡ line_at heights.now p q k }
    ensures bound { nat_abs result < 2 ^ 42 }
{
    scaled(heights[p as usize], q - k) + scaled(heights[q as usize], k - p)
}

/// A height times a number of steps.
fn scaled(height: i32, steps: u32) -> i64
    requires height_ok { nat_abs height < 2 ^ 20 }
    requires steps_ok { steps < 2 ^ 21 }
    ensures value { result ≡ height *ℤ pos steps }
    ensures bound { nat_abs result < 2 ^ 41 }
{
    i64::from(height) * i64::from(steps)
}
