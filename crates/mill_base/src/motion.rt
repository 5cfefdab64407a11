ghost use Rattle.std.specs.Prelude.{◌≡◌};
ghost use Rattle.mill_base.specs.Motion.{are_two as two_of, bent as bent_of};
ghost use Rattle.mill_base.specs.Motion.{bent_kind as bent_kind_of, changes_two as changes_two_of};
ghost use Rattle.mill_base.specs.Motion.{differ as places_differ};

use crate::points::Pt3;

/// How a move is made: G0 is a rapid, G1 a feed (NISTIR 6556, 3.5.1 and 3.5.2).
#[derive(Clone, Copy, Debug, PartialEq, Eq)]
pub enum Kind {
    Rapid,
    Feed,
    /// A rapid whose axes each run at a speed of their own: the tip may be anywhere in the box of
    /// its two ends.
    Dogleg,
}

/// A move of the cutter's tip, straight but for a dogleg.
#[derive(Clone, Copy, Debug, PartialEq, Eq)]
pub struct Move {
    pub kind: Kind,
    pub from: Pt3,
    pub to: Pt3,
}

impl Move {
    /// The move as a machine makes it whose axes run apart on a rapid: a rapid along two axes or
    /// more is a dogleg.
    pub fn bent(self) -> Move
        ensures { result ≡ bent_of self }
    {
        Move {
            kind: bent_kind(self.kind, self.changes_two()),
            ..self
        }
    }

    /// Whether its ends differ along at least two axes.
    fn changes_two(&self) -> bool
        ensures { result ≡ changes_two_of self.now }
    {
        are_two(
            differ(self.from.x, self.to.x),
            differ(self.from.y, self.to.y),
            differ(self.from.z, self.to.z),
        )
    }
}

/// The kind of a move that is or isn't along two axes or more.
fn bent_kind(kind: Kind, two: bool) -> Kind
    ensures { result ≡ bent_kind_of kind two }
{
    match kind {
        Kind::Rapid => { if two { Kind::Dogleg } else { Kind::Rapid } }
        Kind::Feed => Kind::Feed,
        Kind::Dogleg => Kind::Dogleg,
    }
}

/// Whether at least two of three are true.
fn are_two(x: bool, y: bool, z: bool) -> bool
    ensures { result ≡ two_of x y z }
{
    (x && y) || (x && z) || (y && z)
}

/// Whether two places differ.
fn differ(a: i32, b: i32) -> bool
    ensures { result ≡ places_differ a b }
{
    a != b
}
