use mill_geom::Axis;

/// An edge between two neighbour nodes of a lattice: from its lower node, in this column and row, to
/// the next one along the axis.
#[derive(Clone, Copy, Debug, PartialEq, Eq)]
pub struct Edge {
    pub column: u32,
    pub row: u32,
    pub axis: Axis,
}
