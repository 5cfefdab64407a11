ghost use Rattle.std.specs.Prelude.{◌≡◌, ◌↔◌, ℕ, Contains, nat_eq, MatchOption};
ghost use Rattle.std.specs.List.{IsDistinct};
ghost use Rattle.mill_cells.specs.Ahead.{Comes, NoneComes};
ghost use Rattle.mill_cells.specs.Boxes.{IsNear};
ghost use Rattle.mill_cells.specs.Grids.{IsGrid};

use crate::grid::Grid;
use crate::walk::Walk;
use mill_base::Box2;
use std::marker::Model;

/// The numbers of the triangles near an area, of which those come whose top is over a height.
///
/// A contract sees the list of the numbers that are still to come, and the tops of all triangles.
#[derive(Drop)]
pub struct NearRising<'a> {
    walk: Walk<'a>,
}

impl<'a> Model for NearRising<'a> {
    ghost use Rattle.mill_cells.specs.Ahead.{Ahead};

    ghost Value = { Ahead };

    ghost use Rattle.mill_cells.specs.Walks.{IsWalk, rest_of};

    ghost view = { λ near. record { numbers = rest_of near.walk; tops = near.walk.grid.now.tops.items } };

    ghost invariant = { λ near. IsWalk near.walk };
}

impl<'a> NearRising<'a> {
    /// Those of the grid's boxes that meet the area.
    pub fn new(grid: &'a Grid, area: Box2) -> NearRising<'a>
        requires { IsGrid grid.now }
        ensures each { (i : ℕ) → Contains result.numbers i ↔ IsNear grid.now.boxes.items area i }
        ensures once { IsDistinct nat_eq result.numbers }
        ensures tops { result.tops ≡ grid.now.tops.items }
    {
        NearRising {
            walk: Walk::new(grid, area),
        }
    }

    /// The next of the triangles whose top, the greatest of its three heights, is over this one; none
    /// if there is no such triangle any more.
    ///
    /// The height, in units, may be another one in each call. Triangles that aren't over
    /// it are passed over and don't come in a later call, so a height that rises leaves out none.
    #[inline(always)]
    pub fn next_over(&mut self, height: i32) -> Option<u32>
        ensures { MatchOption result (NoneComes height self.old self.new) (λ i. Comes height self.old i self.new) }
    {
        self.walk.next_over(height)
    }
}
