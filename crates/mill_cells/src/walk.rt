ghost use Rattle.std.specs.Prelude.{◌≡◌, ◌+◌, ◌*◌, ◌<◌, ◌≤◌, ◌≤ℤ◌, ◌^◌, ◌↔◌, ℕ, length, Contains, nat_eq, IfNone, IfSome};
ghost use Rattle.std.specs.List.{IsDistinct};
ghost use Rattle.mill_cells.specs.Boxes.{IsNear, IsInside, IsCommon, Meet};
ghost use Rattle.mill_cells.specs.Frames.{cell_count};
ghost use Rattle.mill_cells.specs.Grids.{IsGrid};
ghost use Rattle.mill_cells.specs.Walks.{do_meet, do_overlap, begins_at, is_first_cell};

use crate::frame::{Block, Frame, border};
use crate::grid::Grid;
use mill_base::Box2;

/// A walk through the cells of an area, row by row.
///
/// A box that covers several of them is given at the first one.
#[derive(Clone, Copy)]
pub struct Walk<'a> {
    grid: &'a Grid,
    /// The part of the area that lies in the grid's bounds.
    area: Box2,
    /// The cells that it covers.
    block: Block,
    /// How many of them there are, and how many were entered.
    cells: u32,
    entered: u32,
    /// The cell that comes next, if one does.
    next_column: u32,
    next_row: u32,
    /// The cell that was entered last.
    column: u32,
    row: u32,
    /// A box over that cell is given in it if it begins there or further on, in x and in y.
    west: i32,
    south: i32,
    /// Which entries of that cell are still to be looked at.
    place: usize,
    end: usize,
}

impl<'a> Walk<'a> {
    ghost use Rattle.std.specs.Prelude.{◌∷◌, [], ◌&&◌, int_lt, MatchOption};
    ghost use Rattle.mill_cells.specs.Boxes.{box_at};
    ghost use Rattle.mill_cells.specs.Frames.{block_of};
    ghost use Rattle.mill_cells.specs.Walks.{IsWalk, rest_of, shows, walk_over, moved};
    ghost use Rattle.mill_cells.specs.inner.Passed.{ArePassed, IsNext};
    ghost use Rattle.mill_cells.specs.Sorted.{top_at};

    /// The walk from the first cell of the area on.
    pub fn new(grid: &'a Grid, area: Box2) -> Walk<'a>
        requires { IsGrid grid.now }
        ensures walk { IsWalk result }
        ensures each { (i : ℕ) → Contains (rest_of result) i ↔ IsNear grid.now.boxes.items area i }
        ensures once { IsDistinct nat_eq (rest_of result) }
        ensures tops { result.grid.now.tops.items ≡ grid.now.tops.items }
    {
        let bounds = grid.frame.bounds;
        match common(area, bounds) {
            Some(part) => {
                let block = grid.frame.block(part);
                Walk::over(grid, part, block, block.cells() as u32)
            }
            None => Walk::over(grid, bounds, grid.frame.block(bounds), 0),
        }
    }

    /// The walk through the first `cells` of the cells that an area covers.
    fn over(grid: &'a Grid, area: Box2, block: Block, cells: u32) -> Walk<'a>
        ensures { result ≡ walk_over grid.entry area block cells }
    {
        Walk {
            grid,
            area,
            block,
            cells,
            entered: 0,
            next_column: block.first_column,
            next_row: block.first_row,
            column: 0,
            row: 0,
            west: 0,
            south: 0,
            place: 0,
            end: 0,
        }
    }

    /// The next number, and none after the last.
    pub fn next(&mut self) -> Option<u32>
        requires { IsWalk self.old }
        ensures walk { IsWalk self.new }
        ensures first { MatchOption result ((rest_of self.old ≡ []) × (rest_of self.new ≡ [])) (λ i. rest_of self.old ≡ i ∷ rest_of self.new) }
    {
        loop {
            if let Some(number) = self.next_in_cell() {
                return Some(number);
            }
            if self.entered == self.cells {
                return None;
            }
            self.enter();
        }
    }

    /// The next number in the cell that was entered last.
    fn next_in_cell(&mut self) -> Option<u32>
        requires { IsWalk self.old }
        ensures walk { IsWalk self.new }
        ensures entered { self.new.entered ≡ self.old.entered }
        ensures cells { self.new.cells ≡ self.old.cells }
        ensures first { MatchOption result ((rest_of self.new ≡ rest_of self.old) × (self.new.place ≡ self.new.end)) (λ i. rest_of self.old ≡ i ∷ rest_of self.new) }
    {
        while self.place < self.end {
            let number = self.grid.entries[self.place];
            self.place += 1;
            if self.gives(number) {
                return Some(number);
            }
        }
        None
    }

    /// The next number whose top is over the height. Those that are passed over don't come again.
    // (in place of a call this saves the loop over a drop's triangles some 4 % of its instructions)
    #[inline(always)]
    pub fn next_over(&mut self, height: i32) -> Option<u32>
        requires { IsWalk self.old }
        ensures walk { IsWalk self.new }
        ensures tops { self.new.grid.now.tops.items ≡ self.old.grid.now.tops.items }
        ensures over { MatchOption result (ArePassed self.old.grid.now.tops.items height (rest_of self.old) [] × (rest_of self.new ≡ [])) (λ i. IsNext self.old.grid.now.tops.items height (rest_of self.old) i (rest_of self.new)) }
    {
        loop {
            if let Some(number) = self.next_over_in_cell(height) {
                return Some(number);
            }
            if self.entered == self.cells {
                return None;
            }
            self.enter_over(height);
        }
    }

    /// The next number in the cell that was entered last whose top is over the height.
    fn next_over_in_cell(&mut self, height: i32) -> Option<u32>
        requires { IsWalk self.old }
        ensures walk { IsWalk self.new }
        ensures entered { self.new.entered ≡ self.old.entered }
        ensures cells { self.new.cells ≡ self.old.cells }
        ensures tops { self.new.grid.now.tops.items ≡ self.old.grid.now.tops.items }
        ensures over { MatchOption result (ArePassed self.old.grid.now.tops.items height (rest_of self.old) (rest_of self.new) × (self.new.place ≡ self.new.end)) (λ i. IsNext self.old.grid.now.tops.items height (rest_of self.old) i (rest_of self.new)) }
    {
        while self.place < self.end {
            let number = self.grid.entries[self.place];
            self.place += 1;
            if self.gives_over(number, height) {
                return Some(number);
            }
        }
        None
    }

    /// Goes on to the next cell, or past it where its lid isn't over the height.
    fn enter_over(&mut self, height: i32)
        requires walk { IsWalk self.old }
        requires more { self.old.entered < self.old.cells }
        requires done { self.old.place ≡ self.old.end }
        ensures walk { IsWalk self.new }
        ensures entered { self.new.entered ≡ self.old.entered + 1 }
        ensures cells { self.new.cells ≡ self.old.cells }
        ensures tops { self.new.grid.now.tops.items ≡ self.old.grid.now.tops.items }
        ensures rest { ArePassed self.old.grid.now.tops.items height (rest_of self.old) (rest_of self.new) }
    {
        if self.grid.lids[self.next_cell()] <= height {
            self.pass();
        } else {
            self.enter();
        }
    }

    /// The number of the cell that comes next, counted row by row.
    fn next_cell(&self) -> usize
        requires walk { IsWalk self.now }
        requires more { self.now.entered < self.now.cells }
        ensures value { result ≡ self.now.next_row * self.now.grid.now.frame.columns + self.now.next_column }
        ensures bound { result < cell_count self.now.grid.now.frame }
    {
        self.next_row as usize * self.grid.frame.columns as usize + self.next_column as usize
    }

    /// Goes on to the next cell.
    fn enter(&mut self)
        requires walk { IsWalk self.old }
        requires more { self.old.entered < self.old.cells }
        requires done { self.old.place ≡ self.old.end }
        ensures walk { IsWalk self.new }
        ensures entered { self.new.entered ≡ self.old.entered + 1 }
        ensures cells { self.new.cells ≡ self.old.cells }
        ensures tops { self.new.grid.now.tops.items ≡ self.old.grid.now.tops.items }
        ensures rest { rest_of self.new ≡ rest_of self.old }
    {
        let cell = self.next_cell();
        let Frame { bounds, size, .. } = self.grid.frame;
        self.column = self.next_column;
        self.row = self.next_row;
        self.west = border(bounds.x0, size, self.block.first_column, self.column);
        self.south = border(bounds.y0, size, self.block.first_row, self.row);
        self.place = self.grid.starts[cell];
        self.end = self.grid.starts[cell + 1];
        self.pass();
    }

    /// Makes the cell after the next one the next, along the row or at the begin of the row above.
    fn pass(&mut self)
        requires walk { IsWalk self.old }
        requires more { self.old.entered < self.old.cells }
        ensures walk { IsWalk self.new }
        ensures moved { self.new ≡ moved self.old self.new.next_column self.new.next_row }
    {
        self.entered += 1;
        if self.next_column == self.block.last_column {
            self.next_column = self.block.first_column;
            self.next_row += 1;
        } else {
            self.next_column += 1;
        }
    }

    /// Whether a box of the present cell meets the area, and no earlier cell of the walk has it.
    fn gives(&self, number: u32) -> bool
        requires number { number < length self.now.grid.now.boxes.items }
        requires first { begins_at self.now.west self.now.south (box_at self.now.grid.now.boxes.items number) ≡ is_first_cell (block_of self.now.grid.now.frame self.now.area) (block_of self.now.grid.now.frame (box_at self.now.grid.now.boxes.items number)) self.now.column self.now.row }
        ensures { result ≡ shows self.now.grid.now.frame self.now.area self.now.column self.now.row (box_at self.now.grid.now.boxes.items number) }
    {
        let found = self.grid.boxes[number as usize];
        meet(found, self.area) && begins(found, self.west, self.south)
    }

    /// Whether a triangle is over the height, and its box is given in the present cell.
    fn gives_over(&self, number: u32, height: i32) -> bool
        requires number { number < length self.now.grid.now.boxes.items }
        requires top { number < length self.now.grid.now.tops.items }
        requires first { begins_at self.now.west self.now.south (box_at self.now.grid.now.boxes.items number) ≡ is_first_cell (block_of self.now.grid.now.frame self.now.area) (block_of self.now.grid.now.frame (box_at self.now.grid.now.boxes.items number)) self.now.column self.now.row }
        ensures { result ≡ (int_lt height (top_at self.now.grid.now.tops.items number) && shows self.now.grid.now.frame self.now.area self.now.column self.now.row (box_at self.now.grid.now.boxes.items number)) }
    {
        height < self.grid.tops[number as usize] && self.gives(number)
    }
}

/// Whether a box begins at these borders or further on.
fn begins(found: Box2, west: i32, south: i32) -> bool
    ensures { result ≡ begins_at west south found }
{
    west <= found.x0 && south <= found.y0
}

/// Whether some point is in both boxes, whose ends are the right way round.
fn meet(a: Box2, b: Box2) -> bool
    ensures { result ≡ do_meet a b }
{
    overlap(a.x0, a.x1, b.x0, b.x1) && overlap(a.y0, a.y1, b.y0, b.y1)
}

/// Whether neither of two stretches ends before the other begins.
fn overlap(a0: i32, a1: i32, b0: i32, b1: i32) -> bool
    ensures { result ≡ do_overlap a0 a1 b0 b1 }
{
    a0 <= b1 && b0 <= a1
}

/// What a box has in common with the bounds; none where no point is in both.
fn common(a: Box2, bounds: Box2) -> Option<Box2>
    ensures none { IfNone result (¬ Meet bounds a) }
    ensures inside { IfSome result (IsInside bounds) }
    ensures all { IfSome result (IsCommon a bounds) }
    ensures part { IfSome result (IsInside a) }
{
    let x0 = a.x0.max(bounds.x0);
    let x1 = a.x1.min(bounds.x1);
    if x1 < x0 {
        return None;
    }
    let y0 = a.y0.max(bounds.y0);
    let y1 = a.y1.min(bounds.y1);
    if y1 < y0 {
        return None;
    }
    Some(Box2 { x0, y0, x1, y1 })
}
