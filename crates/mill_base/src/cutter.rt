ghost use Rattle.std.specs.Prelude.{◌≡◌};

/// A cutter, as a solid that goes upward without end and is located by its tip. Lengths are in whole
/// units.
#[derive(Clone, Copy, Debug, PartialEq, Eq)]
pub enum Cutter {
    /// A flat end mill.
    Flat { radius: i32 },
    /// A ball end mill.
    Ball { radius: i32 },
    /// A cone that rises by `rise` over each `run` until it reaches its radius, and then goes
    /// straight up.
    Cone { radius: i32, rise: i32, run: i32 },
}

impl Cutter {
    ghost use Rattle.mill_base.specs.Sizes.{radius_of};

    /// The radius of the cutter's shank.
    pub fn radius(self) -> i32
        ensures { result ≡ radius_of self }
    {
        match self {
            Cutter::Flat { radius } => radius,
            Cutter::Ball { radius } => radius,
            Cutter::Cone { radius, .. } => radius,
        }
    }
}
