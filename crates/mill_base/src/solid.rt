use crate::cutter::Cutter;
use std::marker::Model;

/// A part of a tool: a cutter that goes upward without end, whose tip stands `lift` over the tool's tip, or
/// under it where `lift` is negative. A holder is such a part too. Lengths are in whole units.
///
/// The cutter's radius is from 1 to 10,000, and the lift from -4,300 to 524,287.
#[derive(Clone, Copy, Debug, PartialEq, Eq)]
pub struct Solid {
    cutter: Cutter,
    lift: i32,
}

impl Model for Solid {
    ghost use Rattle.mill_base.specs.Solids.{Solid as Shape, IsSolid};

    ghost Value = { Shape };

    ghost view = { λ s. record { cutter = s.cutter; lift = s.lift } };

    ghost invariant = { λ s. IsSolid (record { cutter = s.cutter; lift = s.lift }) };

    ghost inverse = { λ v. record { cutter = v.cutter; lift = v.lift } };
}

impl Solid {
    ghost use Rattle.std.specs.Prelude.{◌≡◌};
    ghost use Rattle.mill_base.specs.Sizes.{IsCutter};
    ghost use Rattle.mill_base.specs.Solids.{IsLift, at_tip};

    /// The cutter, with its tip so much over the tool's tip.
    pub fn new(cutter: Cutter, lift: i32) -> Solid
        requires cutter_ok { IsCutter cutter }
        requires lift_ok { IsLift lift }
        ensures { result ≡ record { cutter = cutter; lift = lift } }
    {
        Solid { cutter, lift }
    }

    /// The cutter, with its tip at the tool's tip.
    pub fn at_tip(cutter: Cutter) -> Solid
        requires { IsCutter cutter }
        ensures { result ≡ at_tip cutter }
    {
        Solid { cutter, lift: 0 }
    }

    /// What the solid is, but for its lift.
    pub fn cutter(self) -> Cutter
        ensures value { result ≡ self.cutter }
        ensures in_range { IsCutter result }
    {
        self.cutter
    }

    /// How far its tip stands over the tool's tip.
    pub fn lift(self) -> i32
        ensures value { result ≡ self.lift }
        ensures in_range { IsLift result }
    {
        self.lift
    }
}
