use mill_geom::Axis;

/// A line along an axis, at one height: where the tip of a cutter is pushed. Its positions are the
/// coordinates along the axis.
#[derive(Clone, Copy, Debug, PartialEq, Eq)]
pub struct Fiber {
    pub axis: Axis,
    /// The other one of the coordinates x and y.
    pub at: i32,
    pub z: i32,
}

/// The positions from `first` to `last`, with both of them.
#[derive(Clone, Copy, Debug, PartialEq, Eq)]
pub struct Run {
    pub first: i32,
    pub last: i32,
}
