//! What is on a chord, rounded to whole units.
ghost use Rattle.std.specs.Prelude.{◌≡◌, ◌-◌, ◌*◌, ◌^◌, ◌<◌, ◌≤◌, ◌+ℤ◌, ◌*ℤ◌, ◌≤ℤ◌, pos, nat_abs};
ghost use Rattle.mill_base.specs.Numbers.{Within};
ghost use Rattle.mill_arc.specs.Arcs.{nanometres_of};
ghost use Rattle.mill_arc.specs.Places.{height_of, nearest as nearest_of};
ghost use Rattle.mill_arc.specs.Places.{nearest_up as nearest_up_of, place_of};
ghost use Rattle.mill_arc.specs.Chords.{IsPlaceable};
ghost use Rattle.mill_arc.specs.Vectors.{IsNear};

use crate::chords::Chord;
use crate::vectors::Vector;
use mill_base::{Unit, power_of_two, product};

/// So many nanometres are a unit of the grid.
pub fn nanometres(unit: Unit) -> i64
    ensures value { result ≡ nanometres_of unit }
    ensures some { pos 1 ≤ℤ result }
    ensures few { result ≤ℤ pos 10000 }
{
    match unit {
        Unit::Hundredth => 10_000,
        Unit::Thousandth => 1_000,
    }
}

/// The place of a node of an arc in the arc's plane, in units, ties away from zero. The centre and
/// the node, which is seen from it, are in nanometres.
pub fn place(centre: Vector, node: Vector, unit: Unit) -> (i64, i64)
    requires centre_ok { IsNear centre }
    requires node_ok { IsNear node }
    ensures first { result.0 ≡ place_of unit centre.first node.first }
    ensures second { result.1 ≡ place_of unit centre.second node.second }
{
    (
        place_along(centre.first, node.first, unit),
        place_along(centre.second, node.second, unit),
    )
}

/// The same along one axis.
fn place_along(centre: i64, node: i64, unit: Unit) -> i64
    requires centre_ok { Within (2 ^ 32) centre }
    requires node_ok { Within (2 ^ 32) node }
    ensures { result ≡ place_of unit centre node }
{
    nearest(i128::from(centre + node), grid(unit))
}

/// The height at the end of a chord, in units, ties away from zero, where the arc goes from one
/// height to the other, which are in nanometres.
pub fn height(from: i64, to: i64, chord: Chord, unit: Unit) -> i64
    requires from_ok { Within (2 ^ 32) from }
    requires to_ok { Within (2 ^ 32) to }
    requires chord_ok { IsPlaceable chord }
    ensures { result ≡ height_of unit from to chord.part chord.depth }
{
    let parts = power_of_two(u32::from(chord.depth));
    nearest(
        height_at(from, to, u64::from(chord.part), parts),
        scaled(parts, grid(unit)),
    )
}

/// The height at the end of a part of the way, times the number of parts.
fn height_at(from: i64, to: i64, part: u64, parts: u64) -> i128
    requires from_ok { Within (2 ^ 32) from }
    requires to_ok { Within (2 ^ 32) to }
    requires part_ok { part ≤ parts }
    requires parts_ok { parts ≤ 2 ^ 16 }
    ensures value { result ≡ (from *ℤ pos (parts - part)) +ℤ (to *ℤ pos part) }
    ensures bound { Within (2 ^ 49) result }
{
    share(from, parts - part) + share(to, part)
}

/// A height so many times.
fn share(height: i64, parts: u64) -> i128
    requires height_ok { Within (2 ^ 32) height }
    requires parts_ok { parts ≤ 2 ^ 16 }
    ensures value { result ≡ height *ℤ pos parts }
    ensures bound { Within (2 ^ 48) result }
{
    i128::from(height) * i128::from(parts)
}

fn scaled(parts: u64, grid: u64) -> u64
    requires parts_ok { parts ≤ 2 ^ 16 }
    requires some { 0 < parts }
    requires grid_ok { grid ≤ 10000 }
    requires grid_some { 0 < grid }
    ensures value { result ≡ parts * grid }
    ensures some { 0 < result }
    ensures bound { result ≤ 2 ^ 32 }
{
    parts * grid
}

/// The unit's nanometres without a sign.
fn grid(unit: Unit) -> u64
    ensures value { result ≡ nat_abs (nanometres_of unit) }
    ensures some { 0 < result }
    ensures few { result ≤ 10000 }
{
    nanometres(unit).unsigned_abs()
}

/// A ratio rounded to the nearest whole number, ties away from zero.
#[tactic(auto, unfolding(crate::specs::Places::nearest))]
pub(crate) fn nearest(number: i128, parts: u64) -> i64
    requires number_ok { nat_abs number ≤ (2 ^ 62) * parts }
    requires some { 0 < parts }
    requires parts_ok { parts ≤ 2 ^ 32 }
    ensures value { result ≡ nearest_of number parts }
    ensures bound { Within (2 ^ 62) result }
{
    let magnitude = nearest_up(number.unsigned_abs(), u128::from(parts)) as i64;
    if number < 0 { -magnitude } else { magnitude }
}

/// The same without signs, halves up.
fn nearest_up(number: u128, parts: u128) -> u128
    requires number_ok { number ≤ (2 ^ 62) * parts }
    requires some { 0 < parts }
    requires parts_ok { parts ≤ 2 ^ 32 }
    ensures value { result ≡ nearest_up_of number parts }
    ensures bound { result ≤ 2 ^ 62 }
{
    (2 * number + parts) / (2 * parts)
}
