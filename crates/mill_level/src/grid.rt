//! What is known of a lattice at a height.
ghost use Rattle.std.specs.Prelude.{◌≡◌, ◌+◌, ◌<◌, ◌*◌, true};
ghost use Rattle.mill_level.specs.Grids.{has_edge, is_blocked, is_crossing};
ghost use Rattle.mill_level.specs.inner.Maps.{IsSized, crossing_at, edge_number, grid_of};

use crate::edge::Edge;
use mill_geom::Axis;

/// Which nodes of a lattice are blocked at a height, and where its crossings are. Lengths are in
/// units.
#[derive(Drop)]
pub struct LevelMap {
    pub columns: u32,
    pub rows: u32,
    /// The positions of the columns in x, and of the rows in y.
    pub xs: Vec<i32>,
    pub ys: Vec<i32>,
    /// Whether each node is blocked, row by row.
    pub blocked: Vec<bool>,
    /// Of each edge that crosses, by its number, the coordinate of its crossing along its axis.
    pub places: Vec<i32>,
}

impl LevelMap {
    /// How many numbers edges have.
    pub fn edge_count(&self) -> u32
        requires { IsSized self.now }
        ensures { result ≡ 2 * (self.now.columns * self.now.rows) }
    {
        2 * (self.columns * self.rows)
    }

    /// The number of an edge: first those along X, row by row, then those along Y, column by column.
    pub fn number(&self, edge: Edge) -> usize
        requires sized { IsSized self.now }
        requires edge_ok { has_edge (grid_of self.now) edge ≡ true }
        ensures value { result ≡ edge_number (grid_of self.now) edge }
        ensures bound { result < 2 * (self.now.columns * self.now.rows) }
    {
        let number = match edge.axis {
            Axis::X => edge.row * self.columns + edge.column,
            Axis::Y => self.columns * self.rows + edge.column * self.rows + edge.row,
        };
        number as usize
    }

    /// The edge of the next number. At the end of a row or column an edge may lead out of the
    /// lattice; after the last number there is none in the lattice.
    pub fn next_edge(&self, edge: Edge) -> Edge
        requires sized { IsSized self.now }
        requires column_ok { edge.column < self.now.columns }
        requires row_ok { edge.row < self.now.rows }
        ensures number { edge_number (grid_of self.now) result ≡ edge_number (grid_of self.now) edge + 1 }
        ensures column { edge_number (grid_of self.now) result < 2 * (self.now.columns * self.now.rows) → result.column < self.now.columns }
        ensures row { result.row < self.now.rows }
    {
        let Edge { column, row, axis } = edge;
        match axis {
            Axis::X if column + 1 < self.columns => Edge {
                column: column + 1,
                row,
                axis,
            },
            Axis::X if row + 1 < self.rows => Edge {
                column: 0,
                row: row + 1,
                axis,
            },
            Axis::X => Edge {
                column: 0,
                row: 0,
                axis: Axis::Y,
            },
            Axis::Y if row + 1 < self.rows => Edge {
                column,
                row: row + 1,
                axis,
            },
            Axis::Y => Edge {
                column: column + 1,
                row: 0,
                axis,
            },
        }
    }

    /// Whether the node in this column and row is blocked.
    pub fn is_blocked(&self, column: u32, row: u32) -> bool
        requires sized { IsSized self.now }
        requires column_ok { column < self.now.columns }
        requires row_ok { row < self.now.rows }
        ensures { result ≡ is_blocked (grid_of self.now) column row }
    {
        self.blocked[(row * self.columns + column) as usize]
    }

    /// Whether one node of the edge is free and one blocked. An edge that leads out of the lattice
    /// doesn't cross.
    pub fn is_crossing(&self, edge: Edge) -> bool
        requires sized { IsSized self.now }
        requires column_ok { edge.column < self.now.columns }
        requires row_ok { edge.row < self.now.rows }
        ensures { result ≡ is_crossing (grid_of self.now) edge }
    {
        let (column, row) = match edge.axis {
            Axis::X => (edge.column + 1, edge.row),
            Axis::Y => (edge.column, edge.row + 1),
        };
        column < self.columns
            && row < self.rows
            && self.is_blocked(edge.column, edge.row) != self.is_blocked(column, row)
    }

    /// Where the crossing of an edge is, in x and y.
    pub fn place(&self, edge: Edge) -> (i32, i32)
        requires sized { IsSized self.now }
        requires edge_ok { has_edge (grid_of self.now) edge ≡ true }
        ensures x { result.0 ≡ (crossing_at self.now edge).x }
        ensures y { result.1 ≡ (crossing_at self.now edge).y }
    {
        let place = self.places[self.number(edge)];
        match edge.axis {
            Axis::X => (place, self.ys[edge.row as usize]),
            Axis::Y => (self.xs[edge.column as usize], place),
        }
    }
}
