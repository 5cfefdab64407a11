//! An arc, and whether its start and its end lie on one circle.
ghost use Rattle.std.specs.Prelude.{◌≡◌, ◌*◌, ◌^◌, ◌<◌, ◌≤◌, nat_abs, ◌+ℤ◌, ◌<ℤ◌, ◌≤ℤ◌, pos, false};
ghost use Rattle.std.specs.Prelude.{IsTrue};
ghost use Rattle.mill_base.specs.Numbers.{Within, floor_div, floor_root_of, greater, lesser};
ghost use Rattle.mill_arc.specs.Vectors.{IsNear, dot as dot_of};
ghost use Rattle.mill_arc.specs.Arcs.{AreRadii, IsArc, IsSound, deviation_of, greatest_radius};
ghost use Rattle.mill_arc.specs.Arcs.{is_near as is_near_of, is_ring as is_ring_of};
ghost use Rattle.mill_arc.specs.Arcs.{is_sound as is_sound_of};
ghost use Rattle.mill_arc.specs.Arcs.{is_round as is_round_of, is_unclear as is_unclear_of};
ghost use Rattle.mill_arc.specs.Arcs.{radius_of};

use crate::places::nanometres;
use crate::vectors::{Vector, ahead, dot};
use mill_base::{Unit, floor_root, product};

/// The greatest magnitude of a coordinate of an arc's start from its centre, in nanometres.
pub const MAX_START: u64 = 1_311_000_000;

/// The greatest magnitude of a coordinate of an arc's end from its centre, in nanometres.
pub const MAX_END: u64 = 4_000_000_000;

/// The greatest difference of two radii of one arc, in units.
pub const MAX_TOLERANCE: u8 = 100;

/// The least radius of an arc, in nanometres.
const LEAST_RADIUS: i64 = 1_000;

/// How near the start the end may lie along the arc, if they aren't equal: half a micrometre.
const LEAST_GAP: i64 = 500;

/// An arc in its plane, as seen from its centre. Equal start and end is a whole turn.
#[derive(Clone, Copy, Debug, PartialEq, Eq)]
pub struct Arc {
    /// From the centre to the start, in nanometres.
    pub start: Vector,
    /// From the centre to the end, in nanometres.
    pub end: Vector,
    /// It turns from the plane's first axis to the second one.
    pub counterclockwise: bool,
    /// The unit of the grid.
    pub unit: Unit,
    /// By how much the radii of start and end may differ, in units, from 1 to 100.
    pub tolerance: u8,
}

impl Arc {
    /// Whether start and end lie on one circle, as near as the tolerance asks, and it is clear
    /// how far it is from one to the other.
    #[tactic(auto, unfolding(crate::specs::Arcs::is_sound))]
    pub fn is_sound(&self) -> bool
        requires { IsArc self.now }
        ensures value { result ≡ is_sound_of self.now }
        ensures yes { IsTrue result → IsSound self.now }
        ensures no { result ≡ false → ¬ IsSound self.now }
    {
        dot(self.end, self.end) < 1 << 62 && self.is_round()
    }

    /// The same where the end isn't far away.
    fn is_round(&self) -> bool
        requires arc_ok { IsArc self.now }
        requires short { dot_of self.now.«end» self.now.«end» <ℤ pos (2 ^ 62) }
        ensures value { result ≡ is_round_of self.now }
    {
        let radii = self.radii();
        radii.is_ring(self.deviation()) && !self.is_unclear(radii.greatest())
    }

    /// The radii of start and end.
    #[tactic(auto, using(crate::proofs::Roots::start_short))]
    pub(crate) fn radii(&self) -> Radii
        requires arc_ok { IsArc self.now }
        requires short { dot_of self.now.«end» self.now.«end» <ℤ pos (2 ^ 62) }
        ensures start_is { result.start ≡ radius_of self.now.start }
        ensures end_is { result.«end» ≡ radius_of self.now.«end» }
        ensures bound { AreRadii result }
    {
        Radii {
            start: radius(self.start),
            end: radius(self.end),
        }
    }

    /// By how many nanometres the radii may differ.
    fn deviation(&self) -> i64
        requires { IsArc self.now }
        ensures value { result ≡ deviation_of self.now }
        ensures bound { Within (10 ^ 6) result }
    {
        i64::from(self.tolerance) * nanometres(self.unit)
    }

    /// Whether start and end are so near to each other that it may be a whole turn or nothing.
    fn is_unclear(&self, greatest: i64) -> bool
        requires arc_ok { IsArc self.now }
        requires greatest_ok { Within (2 ^ 31) greatest }
        requires greatest_is { greatest ≡ greatest_radius self.now }
        ensures { result ≡ is_unclear_of self.now }
    {
        self.start != self.end
            && dot(self.start, self.end) > 0
            && ahead(self.counterclockwise, self.start, self.end).abs()
                < product(LEAST_GAP, greatest)
    }
}

/// The lengths of an arc's start and end, rounded down, in nanometres.
#[derive(Clone, Copy)]
pub(crate) struct Radii {
    start: i64,
    end: i64,
}

impl Radii {
    pub(crate) fn start(self) -> i64
        ensures { result ≡ self.start }
    {
        self.start
    }

    pub(crate) fn end(self) -> i64
        ensures { result ≡ self.«end» }
    {
        self.end
    }

    pub(crate) fn least(self) -> i64
        requires { AreRadii self }
        ensures value { result ≡ lesser self.start self.«end» }
        ensures some { pos 0 ≤ℤ result }
        ensures bound { Within (2 ^ 31) result }
    {
        self.start.min(self.end)
    }

    fn greatest(self) -> i64
        requires { AreRadii self }
        ensures value { result ≡ greater self.start self.«end» }
        ensures bound { Within (2 ^ 31) result }
    {
        self.start.max(self.end)
    }

    pub(crate) fn mean(self) -> i64
        requires { AreRadii self }
        ensures value { result ≡ floor_div (self.start +ℤ self.«end») 2 }
        ensures bound { Within (2 ^ 31) result }
    {
        (self.start + self.end) / 2
    }

    /// Whether they are great enough, and near enough to each other.
    fn is_ring(self, deviation: i64) -> bool
        requires { AreRadii self }
        ensures { result
            ≡ is_ring_of (lesser self.start self.«end») (greater self.start self.«end») deviation }
    {
        is_ring(self.least(), self.greatest(), deviation)
    }
}

/// Whether the radii are great enough, and near enough to each other.
fn is_ring(least: i64, greatest: i64, deviation: i64) -> bool
    requires least_ok { Within (2 ^ 31) least }
    requires greatest_ok { Within (2 ^ 31) greatest }
    ensures { result ≡ is_ring_of least greatest deviation }
{
    least >= LEAST_RADIUS && is_near(least, greatest, deviation)
}

fn is_near(least: i64, greatest: i64, deviation: i64) -> bool
    requires least_ok { Within (2 ^ 31) least }
    requires greatest_ok { Within (2 ^ 31) greatest }
    ensures { result ≡ is_near_of least greatest deviation }
{
    greatest - least <= deviation && greatest <= 2 * least
}

/// The length of a vector that is shorter than 2^31, rounded down.
#[tactic(auto, unfolding(crate::specs::Arcs::radius_of))]
pub(crate) fn radius(vector: Vector) -> i64
    requires near { IsNear vector }
    requires short { dot_of vector vector <ℤ pos (2 ^ 62) }
    ensures value { result ≡ radius_of vector }
    ensures some { pos 0 ≤ℤ result }
    ensures bound { Within (2 ^ 31) result }
{
    root(dot(vector, vector)) as i64
}

/// The root of a number without a sign, rounded down.
#[tactic(auto, using(crate::proofs::Roots::root_agrees))]
pub(crate) fn root(number: i128) -> u64
    requires some { pos 0 ≤ℤ number }
    requires short { number <ℤ pos (2 ^ 64) }
    ensures value { result ≡ floor_root_of (nat_abs number) }
    ensures below { result * result ≤ nat_abs number }
    ensures bound { result < 2 ^ 32 }
{
    floor_root(number as u64)
}
