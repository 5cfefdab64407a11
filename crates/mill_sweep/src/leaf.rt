/// A segment of a move: its moments from k/2^d to (k+1)/2^d. The whole move is d = 0, k = 0.
#[derive(Clone, Copy, Debug, PartialEq, Eq)]
pub struct Leaf {
    pub d: u32,
    pub k: u64,
}

/// Where a leaf of a move lies, in units.
#[derive(Clone, Copy, Debug, PartialEq, Eq)]
pub struct Span {
    /// The middle of the leaf's two ends in x, rounded to a whole unit.
    pub x: i32,
    /// The middle in y.
    pub y: i32,
    /// How far, rounded up, the tip comes from the middle in x and y.
    pub reach: i32,
    /// The height of the lower end, rounded down.
    pub zlow: i32,
}
