/// How a decimal is read that lies between two whole units.
#[derive(Clone, Copy, Debug, PartialEq, Eq)]
pub enum Snap {
    /// It is rounded to the nearest unit, ties away from zero.
    Nearest,
    /// It is refused.
    Exact,
}
