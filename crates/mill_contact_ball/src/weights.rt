/// Weights of the two ends of an edge: of the point `u * p + v * q` over the denominator `u + v`.
#[derive(Clone, Copy, Debug, PartialEq, Eq)]
pub struct EdgeWeights {
    pub u: i64,
    pub v: i64,
}

/// Weights of the three corners of a triangle: of the point `u * a + v * b + w * c` over the
/// denominator `u + v + w`.
#[derive(Clone, Copy, Debug, PartialEq, Eq)]
pub struct Weights {
    pub u: i128,
    pub v: i128,
    pub w: i128,
}
