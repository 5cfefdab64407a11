ghost use Rattle.std.specs.Prelude.{◌≡◌, ◌<◌, ◌≤◌, ◌≤ℤ◌, ◌^◌, ◌+◌, ◌*◌};
ghost use Rattle.mill_base.specs.Numbers.{Within};
ghost use Rattle.mill_base.specs.declared.limits.TheConstants.{MAX_COORDINATE};
ghost use Rattle.mill_cells.specs.Boxes.{IsInside, IsBounds};
ghost use Rattle.mill_cells.specs.Frames.{cell_of, border_of};

use mill_base::Box2;

/// Square cells of one size over a rectangle, row by row from its lower left corner on.
#[derive(Clone, Copy)]
pub struct Frame {
    /// The rectangle.
    pub bounds: Box2,
    /// The side of a cell.
    pub size: u32,
    /// How many cells a row has.
    pub columns: u32,
    /// How many rows there are.
    pub rows: u32,
}

/// The cells from a first to a last column and from a first to a last row.
#[derive(Clone, Copy)]
pub struct Block {
    pub first_column: u32,
    pub last_column: u32,
    pub first_row: u32,
    pub last_row: u32,
}

impl Frame {
    ghost use Rattle.mill_cells.specs.Frames.{frame_over, block_of, cell_count, IsFrame};

    /// The cells of this size over the rectangle.
    pub fn over(bounds: Box2, size: u32) -> Frame
        requires bounds { IsBounds bounds }
        requires size { 0 < size }
        ensures { result ≡ frame_over bounds size }
    {
        Frame {
            bounds,
            size,
            columns: cell_number(bounds.x0, size, bounds.x1) + 1,
            rows: cell_number(bounds.y0, size, bounds.y1) + 1,
        }
    }

    /// How many cells there are.
    pub fn cells(&self) -> u64
        ensures { result ≡ cell_count self.now }
    {
        u64::from(self.columns) * u64::from(self.rows)
    }

    /// The cells that a box within the rectangle covers.
    pub fn block(&self, area: Box2) -> Block
        requires bounds { IsBounds self.now.bounds }
        requires size { 0 < self.now.size }
        requires area { IsInside self.now.bounds area }
        ensures { result ≡ block_of self.now area }
    {
        let Box2 { x0, y0, .. } = self.bounds;
        Block {
            first_column: cell_number(x0, self.size, area.x0),
            last_column: cell_number(x0, self.size, area.x1),
            first_row: cell_number(y0, self.size, area.y0),
            last_row: cell_number(y0, self.size, area.y1),
        }
    }
}

/// The number of the column, or of the row, in which a coordinate lies: that of `low` is 0.
pub fn cell_number(low: i32, size: u32, at: i32) -> u32
    requires low_ok { Within MAX_COORDINATE low }
    requires at_ok { Within MAX_COORDINATE at }
    requires order { low ≤ℤ at }
    requires size { 0 < size }
    ensures value { result ≡ cell_of low size at }
    ensures bound { result < 2 ^ 20 }
{
    (at - low) as u32 / size
}

/// Where the column, or the row, `at` begins, for that of number 0 at `low`; for the first one that
/// is looked at, `low` itself, since what begins before it can't be met before.
pub fn border(low: i32, size: u32, first: u32, at: u32) -> i32
    requires low_ok { Within MAX_COORDINATE low }
    requires room { at * size < 2 ^ 20 }
    ensures { result ≡ border_of low size first at }
{
    if at == first {
        low
    } else {
        low + (at * size) as i32
    }
}

impl Block {
    ghost use Rattle.std.specs.Prelude.{◌+◌};
    ghost use Rattle.mill_cells.specs.Frames.{IsBlock, width_of, frame_area};

    /// How many columns it has.
    pub fn width(self) -> u32
        requires { IsBlock self }
        ensures { result ≡ width_of self }
    {
        self.last_column - self.first_column + 1
    }

    /// How many cells it has.
    pub fn cells(self) -> u64
        requires { IsBlock self }
        ensures value { result ≡ frame_area self }
        ensures bound { result ≤ 2 ^ 40 }
    {
        u64::from(self.width()) * u64::from(self.last_row - self.first_row + 1)
    }
}
