ghost use Rattle.std.specs.Prelude.{◌↔◌, ℕ, Contains, nat_eq};
ghost use Rattle.std.specs.List.{IsDistinct};
ghost use Rattle.mill_cells.specs.Boxes.{IsNear};
ghost use Rattle.mill_cells.specs.Grids.{IsGrid};

use crate::grid::Grid;
use crate::walk::Walk;
use mill_base::Box2;
use std::marker::Model;

/// The numbers of the triangles near an area, as an iterator.
///
/// A contract sees the list of the numbers that are still to come.
#[derive(Drop)]
pub struct Near<'a> {
    walk: Walk<'a>,
}

impl<'a> Model for Near<'a> {
    ghost use Rattle.std.specs.Prelude.{ℕ, List};
    ghost use Rattle.mill_cells.specs.Walks.{IsWalk, rest_of};

    ghost Value = { List ℕ };

    ghost view = { λ near. rest_of near.walk };

    ghost invariant = { λ near. IsWalk near.walk };
}

impl<'a> Near<'a> {
    /// Those of the grid's boxes that meet the area.
    pub fn new(grid: &'a Grid, area: Box2) -> Near<'a>
        requires { IsGrid grid.now }
        ensures each { (i : ℕ) → Contains result i ↔ IsNear grid.now.boxes.items area i }
        ensures once { IsDistinct nat_eq result }
    {
        Near {
            walk: Walk::new(grid, area),
        }
    }
}

impl<'a> Iterator for Near<'a> {
    ghost use Rattle.std.specs.Iterator.{YieldsFirst, item_count};

    type Item = u32;

    ghost next_gives = { YieldsFirst (λ left. left) };

    ghost remaining = { item_count (λ left. left) };

    fn next(&mut self) -> Option<u32> {
        self.walk.next()
    }
}
