/// An axis along which a cutter moves at one height.
#[derive(Clone, Copy, Debug, PartialEq, Eq)]
pub enum Axis {
    X,
    Y,
}

/// At which positions along an axis a cutter certainly holds no point of a triangle.
#[derive(Clone, Copy, Debug, PartialEq, Eq)]
pub enum Side {
    /// At the cutter's position and at every greater one.
    Less,
    /// At the cutter's position and at every lesser one.
    More,
    /// At every position.
    Never,
}

/// How a triangle lies to a cutter.
#[derive(Clone, Copy, Debug, PartialEq, Eq)]
pub enum Touch {
    /// Some point of the triangle is strictly inside the cutter.
    Inside,
    /// No point is, and so at all the positions that the side says.
    Apart(Side),
}
