use crate::limits::{MAX_COORDINATE, MAX_TEXT_COORDINATE};

/// The unit of a text's lengths, as a part of a millimetre.
#[derive(Clone, Copy, Debug, PartialEq, Eq)]
pub enum Unit {
    /// 0.01 mm.
    Hundredth,
    /// 0.001 mm.
    Thousandth,
}

impl Unit {
    ghost use Rattle.std.specs.Prelude.{◌≡◌, pos};
    ghost use Rattle.mill_base.specs.Units.{places_of, greatest_of};

    /// How many decimals of a millimetre stand for whole units: 2 or 3.
    pub fn places(self) -> u32
        ensures { result ≡ places_of self }
    {
        match self {
            Unit::Hundredth => 2,
            Unit::Thousandth => 3,
        }
    }

    /// The greatest magnitude of a coordinate that a text in this unit may give, in units.
    pub fn greatest(self) -> i32
        ensures { result ≡ pos (greatest_of self) }
    {
        match self {
            Unit::Hundredth => MAX_TEXT_COORDINATE as i32,
            Unit::Thousandth => MAX_COORDINATE as i32,
        }
    }
}
