/// A point, in whole units, of 0.01 mm or 0.001 mm ([`Unit`](crate::Unit)).
#[derive(Clone, Copy, Debug, PartialEq, Eq)]
pub struct Pt3 {
    pub x: i32,
    pub y: i32,
    pub z: i32,
}

/// A triangle of a part, by its three corners.
///
/// Equal or collinear corners are allowed: such a triangle stands for its point or its edges.
#[derive(Clone, Copy, Debug, PartialEq, Eq)]
pub struct Tri {
    pub a: Pt3,
    pub b: Pt3,
    pub c: Pt3,
}

/// An upright rectangle in x and y, with its borders.
#[derive(Clone, Copy, Debug, PartialEq, Eq)]
pub struct Box2 {
    pub x0: i32,
    pub y0: i32,
    pub x1: i32,
    pub y1: i32,
}
