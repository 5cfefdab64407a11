//! How crossings are joined: from one to the next, and back.
ghost use Rattle.std.specs.Prelude.{◌≡◌, ◌+◌, ◌<◌, true, MatchOption};
ghost use Rattle.mill_level.specs.declared.edge.Edge.{Edge};
ghost use Rattle.mill_level.specs.Grids.{has_edge, is_crossing};
ghost use Rattle.mill_level.specs.Joins.{IsJoin};
ghost use Rattle.mill_level.specs.inner.Maps.{IsSized, grid_of};
ghost use Rattle.mill_level.specs.inner.Squares.{IsAtBorder, IsBeside, first_of_three, next_of, prior_of, square_at};

use crate::edge::Edge;
use crate::grid::LevelMap;
use mill_geom::Axis;

/// A side of a square of four nodes.
#[derive(Clone, Copy)]
pub enum Side {
    Bottom,
    Right,
    Top,
    Left,
}

/// A square of four nodes: its sides, and which of its corners are blocked.
#[derive(Clone, Copy)]
pub struct Square {
    pub bottom: Edge,
    pub right: Edge,
    pub top: Edge,
    pub left: Edge,
    pub low_left: bool,
    pub low_right: bool,
    pub high_right: bool,
    pub high_left: bool,
}

impl LevelMap {
    /// The crossing to which a join goes from this one, if there is one.
    pub fn after(&self, edge: Edge) -> Option<Edge>
        requires sized { IsSized self.now }
        requires edge_ok { is_crossing (grid_of self.now) edge ≡ true }
        ensures { MatchOption result ((e : Edge) → ¬ IsJoin (grid_of self.now) edge e) (IsJoin (grid_of self.now) edge) }
    {
        let (square, side) = self.square_by(edge, self.is_blocked(edge.column, edge.row))?;
        Some(square.to(side))
    }

    /// The crossing from which a join comes to this one, if there is one.
    pub fn before(&self, edge: Edge) -> Option<Edge>
        requires sized { IsSized self.now }
        requires edge_ok { is_crossing (grid_of self.now) edge ≡ true }
        ensures { MatchOption result ((e : Edge) → ¬ IsJoin (grid_of self.now) e edge) (λ e. IsJoin (grid_of self.now) e edge) }
    {
        let (square, side) = self.square_by(edge, !self.is_blocked(edge.column, edge.row))?;
        Some(square.from(side))
    }

    /// One of the two squares beside an edge, if the lattice has it, and which of its sides the edge
    /// is: the one that is ahead where the edge's lower node is on the left hand, or the one that is
    /// ahead where it is on the right hand.
    fn square_by(&self, edge: Edge, lower_on_left: bool) -> Option<(Square, Side)>
        requires sized { IsSized self.now }
        requires edge_ok { has_edge (grid_of self.now) edge ≡ true }
        ensures { MatchOption result (IsAtBorder (grid_of self.now) edge lower_on_left)
            (λ beside. IsBeside (grid_of self.now) edge lower_on_left beside.0 beside.1) }
    {
        let Edge { column, row, axis } = edge;
        match (axis, lower_on_left) {
            (Axis::X, true) if row + 1 < self.rows => Some((
                self.square(column, row),
                Side::Bottom,
            )),
            (Axis::X, false) if row > 0 => Some((self.square(column, row - 1), Side::Top)),
            (Axis::Y, true) if column > 0 => Some((self.square(column - 1, row), Side::Right)),
            (Axis::Y, false) if column + 1 < self.columns => {
                Some((self.square(column, row), Side::Left))
            }
            _ => None,
        }
    }

    /// The square whose lower left node is in this column and row.
    fn square(&self, column: u32, row: u32) -> Square
        requires sized { IsSized self.now }
        requires column_ok { column + 1 < self.now.columns }
        requires row_ok { row + 1 < self.now.rows }
        ensures { result ≡ square_at (grid_of self.now) column row }
    {
        Square {
            bottom: Edge {
                column,
                row,
                axis: Axis::X,
            },
            right: Edge {
                column: column + 1,
                row,
                axis: Axis::Y,
            },
            top: Edge {
                column,
                row: row + 1,
                axis: Axis::X,
            },
            left: Edge {
                column,
                row,
                axis: Axis::Y,
            },
            low_left: self.is_blocked(column, row),
            low_right: self.is_blocked(column + 1, row),
            high_right: self.is_blocked(column + 1, row + 1),
            high_left: self.is_blocked(column, row + 1),
        }
    }
}

impl Square {
    /// The side to which the join goes that comes in at this one: clockwise, the first that crosses.
    fn to(self, side: Side) -> Edge
        ensures { result ≡ next_of self side }
    {
        match side {
            Side::Bottom => first_crossing(
                self.high_left,
                self.high_right,
                self.left,
                self.top,
                self.right,
            ),
            Side::Right => first_crossing(
                self.low_left,
                self.high_left,
                self.bottom,
                self.left,
                self.top,
            ),
            Side::Top => first_crossing(
                self.low_right,
                self.low_left,
                self.right,
                self.bottom,
                self.left,
            ),
            Side::Left => first_crossing(
                self.high_right,
                self.low_right,
                self.top,
                self.right,
                self.bottom,
            ),
        }
    }

    /// The side from which the join comes that goes out at this one: counterclockwise, the first
    /// that crosses.
    fn from(self, side: Side) -> Edge
        ensures { result ≡ prior_of self side }
    {
        match side {
            Side::Bottom => first_crossing(
                self.high_right,
                self.high_left,
                self.right,
                self.top,
                self.left,
            ),
            Side::Right => first_crossing(
                self.high_left,
                self.low_left,
                self.top,
                self.left,
                self.bottom,
            ),
            Side::Top => first_crossing(
                self.low_left,
                self.low_right,
                self.left,
                self.bottom,
                self.right,
            ),
            Side::Left => first_crossing(
                self.low_right,
                self.high_right,
                self.bottom,
                self.right,
                self.top,
            ),
        }
    }
}

/// Of three sides in order round a square, the first behind which the corner is free, where the
/// corner before them is blocked: behind the first is the first corner, and so on; the last one
/// crosses where none before it does.
fn first_crossing(first: bool, second: bool, near: Edge, facing: Edge, far: Edge) -> Edge
    ensures { result ≡ first_of_three first second near facing far }
{
    if !first {
        near
    } else if !second {
        facing
    } else {
        far
    }
}
