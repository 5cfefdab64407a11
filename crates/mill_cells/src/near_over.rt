ghost use Rattle.std.specs.Prelude.{◌↔◌, ℕ, Contains, nat_eq};
ghost use Rattle.std.specs.List.{IsDistinct};
ghost use Rattle.mill_cells.specs.Grids.{IsGrid};
ghost use Rattle.mill_cells.specs.Sorted.{IsNearOver};

use crate::grid::Grid;
use crate::walk::Walk;
use mill_base::Box2;
use std::marker::Model;

/// The numbers of the triangles near an area whose top is over a height, as an iterator.
///
/// A contract sees the list of the numbers that are still to come.
#[derive(Drop)]
pub struct NearOver<'a> {
    walk: Walk<'a>,
    height: i32,
}

impl<'a> Model for NearOver<'a> {
    ghost use Rattle.std.specs.Prelude.{ℕ, List};
    ghost use Rattle.mill_cells.specs.Sorted.{over_of};
    ghost use Rattle.mill_cells.specs.Walks.{IsWalk, rest_of};

    ghost Value = { List ℕ };

    ghost view = { λ near. over_of near.walk.grid.now.tops.items near.height (rest_of near.walk) };

    ghost invariant = { λ near. IsWalk near.walk };
}

impl<'a> NearOver<'a> {
    /// Those of the grid's triangles whose box meets the area and whose top is over the height.
    pub fn new(grid: &'a Grid, area: Box2, height: i32) -> NearOver<'a>
        requires { IsGrid grid.now }
        ensures each { (i : ℕ) → Contains result i ↔ IsNearOver (record { boxes = grid.now.boxes.items; tops = grid.now.tops.items }) area height i }
        ensures once { IsDistinct nat_eq result }
    {
        NearOver {
            walk: Walk::new(grid, area),
            height,
        }
    }
}

impl<'a> Iterator for NearOver<'a> {
    ghost use Rattle.std.specs.Iterator.{YieldsFirst, item_count};

    type Item = u32;

    ghost next_gives = { YieldsFirst (λ left. left) };

    ghost remaining = { item_count (λ left. left) };

    fn next(&mut self) -> Option<u32> {
        self.walk.next_over(self.height)
    }
}
