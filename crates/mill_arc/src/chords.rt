//! The chords of an arc.
ghost use Rattle.std.specs.Prelude.{◌≡◌, ◌+◌, ◌-◌, ◌*◌, ◌^◌, ◌<◌, ◌≤◌, ◌++◌, ◌-ℤ◌, ◌*ℤ◌, ◌<ℤ◌};
ghost use Rattle.std.specs.Prelude.{◌≤ℤ◌, pos, nat_abs, false, All, IfOk, IsTrue, length, take};
ghost use Rattle.mill_base.specs.Numbers.{Within};
ghost use Rattle.mill_arc.specs.Arcs.{AreRadii, IsArc, IsSound, radius_of};
ghost use Rattle.mill_arc.specs.Chords.{IsPlaceable, chords_of, chords_from, with_chords};
ghost use Rattle.mill_arc.specs.Chords.{is_flat as is_flat_of, is_short as is_short_of};
ghost use Rattle.mill_arc.specs.Chords.{lengthened as lengthened_of};
ghost use Rattle.mill_arc.specs.Chords.{middle as middle_of, toward_middle as toward_middle_of};
ghost use Rattle.mill_arc.specs.Chords.{end_of, start_of, turn_of};
ghost use Rattle.mill_arc.specs.Places.{nearest as nearest_of};
ghost use Rattle.mill_arc.specs.Vectors.{IsNear, dot as dot_of, opposite as opposite_of};
ghost use Rattle.mill_arc.specs.Vectors.{plus as plus_of, turned_way as turned_way_of};
ghost use Rattle.mill_arc.specs.inner.Lists.{AddsChords, Grows};
ghost use Rattle.mill_arc.specs.inner.Nodes.{IsPart, IsPlain};

use crate::arc::{Arc, Radii, root};
use crate::places::{nanometres, nearest};
use crate::vectors::{Vector, ahead, dot};
use mill_base::{WantOfMemory, product};

/// How often a part of a turn may be halved.
pub const MAX_HALVINGS: u8 = 16;

/// A chord of an arc, by its end: it starts where the chord before it ends, and the first at the
/// arc's start.
#[derive(Clone, Copy, Debug, PartialEq, Eq)]
pub struct Chord {
    /// From the arc's centre to the chord's end, in nanometres.
    pub node: Vector,
    /// So many parts of the turn lie up to its end, of 2 to the power `depth` nearly equal ones.
    pub part: u32,
    /// How often the turn was halved.
    pub depth: u8,
}

/// How an arc's turn is parted.
#[derive(Clone, Copy)]
struct Turn {
    counterclockwise: bool,
    /// That of the middles.
    radius: i64,
    /// How great the product of two radii and of 1 less the cosine between them may be.
    bend: i128,
}

/// A vector from the centre to a point of the arc, and its radius, of which its length is near.
#[derive(Clone, Copy)]
struct Node {
    at: Vector,
    radius: i64,
}

impl Arc {
    /// Adds the arc's chords, in order, if no part of its turn had to be halved more than 16 times
    /// for them. Else it adds none, and the answer is `false`. Where memory gives out, the first
    /// chords may have been added.
    pub fn chords(&self, chords: &mut Vec<Chord>) -> Result<bool, WantOfMemory>
        requires arc { IsArc self.now }
        requires sound { IsSound self.now }
        ensures chords { IfOk result (λ whole.
            (whole, chords.new.items) ≡ with_chords chords.old.items (chords_of self.now)) }
        ensures placeable { All IsPlaceable chords.old.items → All IsPlaceable chords.new.items }
    {
        let count = chords.len();
        let whole = self.add_to(chords)?;
        if !whole {
            chords.truncate(count);
        }
        Ok(whole)
    }

    /// The same, but where the answer is `false` the first chords may have been added.
    fn add_to(&self, chords: &mut Vec<Chord>) -> Result<bool, WantOfMemory>
        requires arc { IsArc self.now }
        requires sound { IsSound self.now }
        ensures adds { IfOk result (λ whole.
            AddsChords chords.old.items chords.new.items whole (chords_of self.now)) }
        ensures grows { Grows chords.old.items chords.new.items }
        ensures placeable { All IsPlaceable chords.old.items → All IsPlaceable chords.new.items }
    {
        let radii = self.radii();
        let start = Node {
            at: self.start,
            radius: radii.start(),
        };
        let end = Node {
            at: self.end,
            radius: radii.end(),
        };
        add_chords(&self.turn(radii), start, end, 0, 0, chords)
    }

    fn turn(&self, radii: Radii) -> Turn
        requires radii_ok { AreRadii radii }
        requires start_is { radii.start ≡ radius_of self.now.start }
        requires end_is { radii.«end» ≡ radius_of self.now.«end» }
        ensures { result ≡ turn_of self.now }
    {
        Turn {
            counterclockwise: self.counterclockwise,
            radius: radii.mean(),
            bend: bend_of(radii.least(), nanometres(self.unit)),
        }
    }
}

/// The greatest bend of a chord.
fn bend_of(least: i64, nanometres: i64) -> i128
    requires least_ok { Within (2 ^ 31) least }
    requires nanometres_ok { Within 10000 nanometres }
    ensures { result ≡ pos 4 *ℤ (least *ℤ nanometres) }
{
    4 * product(least, nanometres)
}

/// Adds the chords of the sector from `from` to `to`, which is part `part` of the turn, counted
/// from 0, as it is where it was halved `depth` times.
fn add_chords(
    turn: &Turn,
    from: Node,
    to: Node,
    part: u32,
    depth: u8,
    chords: &mut Vec<Chord>,
) -> Result<bool, WantOfMemory>
    requires part_ok { IsPart turn.now from to }
    requires part_most { part < 2 ^ depth }
    requires depth_ok { depth ≤ MAX_HALVINGS }
    ensures adds { IfOk result (λ whole. AddsChords chords.old.items chords.new.items whole
        (chords_from (MAX_HALVINGS - depth) turn.now from to part depth)) }
    ensures grows { Grows chords.old.items chords.new.items }
    ensures placeable { All IsPlaceable chords.old.items → All IsPlaceable chords.new.items }
{
    if turn.is_short(from, to) {
        chords.push(Chord {
            node: to.at,
            part: part + 1,
            depth,
        })?;
        return Ok(true);
    }
    if depth >= MAX_HALVINGS {
        return Ok(false);
    }
    let middle = turn.middle(from, to);
    if !add_chords(turn, from, middle, 2 * part, depth + 1, chords)? {
        return Ok(false);
    }
    add_chords(turn, middle, to, 2 * part + 1, depth + 1, chords)
}

impl Turn {
    /// Whether one chord stands for the sector.
    #[tactic(auto, unfolding(crate::specs::Chords::is_short))]
    fn is_short(&self, from: Node, to: Node) -> bool
        requires from_ok { IsPlain from }
        requires to_ok { IsPlain to }
        ensures { result ≡ is_short_of self.now from to }
    {
        ahead(self.counterclockwise, from.at, to.at) > 0
            && self.is_flat(from, to, dot(from.at, to.at))
    }

    /// The same where the sector is less than half a turn.
    fn is_flat(&self, from: Node, to: Node, onward: i128) -> bool
        requires from_ok { Within (2 ^ 32) from.radius }
        requires to_ok { Within (2 ^ 32) to.radius }
        requires onward_ok { Within (2 ^ 81) onward }
        ensures { result ≡ is_flat_of self.now from to onward }
    {
        onward >= 0 && bend(from, to, onward) <= self.bend
    }

    /// The node that halves the sector.
    fn middle(&self, from: Node, to: Node) -> Node
        requires { IsPart self.now from to }
        ensures value { result ≡ middle_of self.now from to }
        ensures first { IsPart self.now from result }
        ensures second { IsPart self.now result to }
    {
        Node {
            at: lengthened(
                toward_middle(self.counterclockwise, from.at, to.at),
                self.radius,
            ),
            radius: self.radius,
        }
    }
}

/// By how much the product of both radii is greater than that of the vectors.
fn bend(from: Node, to: Node, onward: i128) -> i128
    requires from_ok { Within (2 ^ 32) from.radius }
    requires to_ok { Within (2 ^ 32) to.radius }
    requires onward_ok { Within (2 ^ 81) onward }
    ensures { result ≡ (from.radius *ℤ to.radius) -ℤ onward }
{
    product(from.radius, to.radius) - onward
}

/// A vector from the centre to the middle of a sector. Each of its three forms is used where it is
/// long: the sum of both is next to nothing near half a turn, and their difference near a whole
/// one.
#[tactic(auto, unfolding(crate::specs::Chords::toward_middle))]
fn toward_middle(counterclockwise: bool, from: Vector, to: Vector) -> Vector
    requires from_ok { IsNear from }
    requires to_ok { IsNear to }
    ensures { result ≡ toward_middle_of counterclockwise from to }
{
    if dot(from, to) < 0 {
        turned_way(counterclockwise, from, to)
    } else if ahead(counterclockwise, from, to) > 0 {
        plus(from, to)
    } else {
        opposite(plus(from, to))
    }
}

fn plus(a: Vector, b: Vector) -> Vector
    requires a_ok { IsNear a }
    requires b_ok { IsNear b }
    ensures value { result ≡ plus_of a b }
    ensures first { Within (2 ^ 33) result.first }
    ensures second { Within (2 ^ 33) result.second }
{
    Vector {
        first: a.first + b.first,
        second: a.second + b.second,
    }
}

fn opposite(a: Vector) -> Vector
    requires first_ok { Within (2 ^ 33) a.first }
    requires second_ok { Within (2 ^ 33) a.second }
    ensures { result ≡ opposite_of a }
{
    Vector {
        first: -a.first,
        second: -a.second,
    }
}

/// The way from one to the other, turned back by a quarter.
fn turned_way(counterclockwise: bool, from: Vector, to: Vector) -> Vector
    requires from_ok { IsNear from }
    requires to_ok { IsNear to }
    ensures { result ≡ turned_way_of counterclockwise from to }
{
    if counterclockwise {
        Vector {
            first: to.second - from.second,
            second: from.first - to.first,
        }
    } else {
        Vector {
            first: from.second - to.second,
            second: to.first - from.first,
        }
    }
}

/// The vector made so long, its coordinates rounded to whole nanometres.
fn lengthened(vector: Vector, length: i64) -> Vector
    requires near { IsNear vector }
    requires some { pos 1 ≤ℤ dot_of vector vector }
    requires short { dot_of vector vector <ℤ pos (2 ^ 64) }
    requires length_ok { Within (2 ^ 31) length }
    ensures { result ≡ lengthened_of length vector }
{
    let whole = root(dot(vector, vector));
    Vector {
        first: lengthened_along(vector.first, length, whole),
        second: lengthened_along(vector.second, length, whole),
    }
}

/// The same along one axis, for a vector whose length is `whole`, rounded down.
fn lengthened_along(coordinate: i64, length: i64, whole: u64) -> i64
    requires coordinate_ok { nat_abs coordinate ≤ whole }
    requires length_ok { Within (2 ^ 31) length }
    requires some { 0 < whole }
    requires whole_ok { whole < 2 ^ 32 }
    ensures { result ≡ nearest_of (coordinate *ℤ length) whole }
{
    nearest(product(coordinate, length), whole)
}
