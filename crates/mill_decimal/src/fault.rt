use thiserror::Error;

/// Why a text is refused as a decimal. Where several hold, the first of them is told.
#[derive(Clone, Copy, Debug, PartialEq, Eq, Error)]
pub enum DecFault {
    /// It is not of a decimal's form.
    #[error("not a decimal")]
    Spelling,
    /// Its mantissa has more than 24 digits.
    #[error("more than 24 digits")]
    TooManyDigits,
    /// Its units are not whole, under [`Snap::Exact`](crate::Snap::Exact).
    #[error("not a whole number of units")]
    OffGrid,
    /// Its units, rounded, have a magnitude over the unit's greatest coordinate.
    #[error("out of range")]
    OutOfRange,
}
