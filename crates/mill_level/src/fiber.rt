//! What the runs of a fiber say of positions on it.
ghost use Rattle.std.specs.Prelude.{◌≡◌, ◌≤ℤ◌, ◌<ℤ◌, ◌<◌, IfOk, MatchBool, length};
ghost use Rattle.mill_base.specs.Numbers.{Within};
ghost use Rattle.mill_base.specs.declared.limits.TheConstants.{MAX_COORDINATE};
ghost use Rattle.mill_geom.specs.declared.touch.Axis.TheVariants.{X, Y};
ghost use Rattle.mill_push.specs.Runs.{AreRuns, StandsIn};
ghost use Rattle.mill_push.specs.Touches.{IsFiber};
ghost use Rattle.mill_level.specs.inner.Cuts.{BlockedOn};
ghost use Rattle.mill_level.specs.inner.Fibers.{AreAdded, AreAscending, ArePositions, EndBefore, HoldBlocked, IsPlaceBetween, IsSpot, Places, Tells};

use crate::cut::Cut;
use mill_base::{Steps, WantOfMemory};
use mill_geom::Axis;
use mill_push::{Ends, Fiber, Run, push_after};
use std::alloc::Global;
use std::marker::Brand;
use std::sync::ledger::{Blank, Ledger};

/// A position, and how many of a fiber's runs end before it.
#[derive(Clone, Copy)]
struct Spot {
    position: i32,
    before: usize,
}

/// Adds for each position of the row at y whether it is blocked, and for each but the last the
/// place between it and the next; and 0 for the last.
pub fn add_row(
    alloc: Global,
    cut: &Cut<'_>,
    y: i32,
    xs: &[i32],
    ends: &mut Ends,
    blocked: &mut Vec<bool>,
    places: &mut Vec<i32>,
) -> Result<(), WantOfMemory>
    requires z_ok { Within MAX_COORDINATE cut.now.z }
    requires y_ok { Within MAX_COORDINATE y }
    requires xs_ok { ArePositions xs.now }
    ensures blocked { IfOk result (λ _. AreAdded (Tells (BlockedOn cut.now X y) xs.now) (length xs.now) blocked.old.items blocked.new.items) }
    ensures places { IfOk result (λ _. AreAdded (Places (BlockedOn cut.now X y) xs.now) (length xs.now) places.old.items places.new.items) }
{
    let runs = fiber_runs(alloc, cut, Axis::X, y, xs, ends)?;
    add_blocked(&runs, xs, blocked)?;
    add_places(&runs, xs, places)
}

/// Adds for each position of the column at x but the last the place between it and the next; and 0
/// for the last.
pub fn add_column(
    alloc: Global,
    cut: &Cut<'_>,
    x: i32,
    ys: &[i32],
    ends: &mut Ends,
    places: &mut Vec<i32>,
) -> Result<(), WantOfMemory>
    requires z_ok { Within MAX_COORDINATE cut.now.z }
    requires x_ok { Within MAX_COORDINATE x }
    requires ys_ok { ArePositions ys.now }
    ensures { IfOk result (λ _. AreAdded (Places (BlockedOn cut.now Y x) ys.now) (length ys.now) places.old.items places.new.items) }
{
    let runs = fiber_runs(alloc, cut, Axis::Y, x, ys, ends)?;
    add_places(&runs, ys, places)
}

/// The runs of a fiber, from the first of the positions to the last, at which the tool gouges the
/// part, looked for near the ends that were kept of the fiber before. The touches aren't counted.
fn fiber_runs(
    alloc: Global,
    cut: &Cut<'_>,
    axis: Axis,
    at: i32,
    positions: &[i32],
    ends: &mut Ends,
) -> Result<Vec<Run>, WantOfMemory>
    requires z_ok { Within MAX_COORDINATE cut.now.z }
    requires at_ok { Within MAX_COORDINATE at }
    requires positions_ok { ArePositions positions.now }
    ensures ascending { IfOk result (λ runs. AreAscending runs.items) }
    ensures blocked { IfOk result (λ runs. HoldBlocked (BlockedOn cut.now axis at) positions.now runs.items) }
{
    let fiber = Fiber { axis, at, z: cut.z };
    let from = positions[0];
    let to = positions[positions.len() - 1];
    counted_runs::<Brand>(alloc, cut, fiber, from, to, ends, Blank::new(1))
}

/// The runs from one position to another, with a counter of a blank ledger.
fn counted_runs<L: Ledger>(
    alloc: Global,
    cut: &Cut<'_>,
    fiber: Fiber,
    from: i32,
    to: i32,
    ends: &mut Ends,
    blank: Blank,
) -> Result<Vec<Run>, WantOfMemory>
    requires fiber_ok { IsFiber fiber }
    requires from_ok { Within MAX_COORDINATE from }
    requires to_ok { Within MAX_COORDINATE to }
    requires order { from ≤ℤ to }
    requires name { blank.name ≡ L.name }
    requires parts { blank.parts ≡ L.parts }
    requires some { 0 < blank.parts }
    ensures runs { IfOk result (λ runs. AreRuns cut.now.tool cut.now.part.now fiber from to runs.items) }
{
    let mut steps = Steps::<L>::new(blank);
    push_after(
        alloc, cut.part, &cut.tool, fiber, from, to, ends, &mut steps,
    )
}

/// The spot of a position, where so many of the runs are known to end before it.
fn spot_at(runs: &[Run], known: usize, position: i32) -> Spot
    requires ascending { AreAscending runs.now }
    requires known { EndBefore runs.now position known }
    ensures position { result.position ≡ position }
    ensures spot { IsSpot runs.now result }
{
    let mut before = known;
    while before < runs.len() && runs[before].last < position {
        before += 1;
    }
    Spot { position, before }
}

/// Whether the position of a spot stands in one of the runs.
fn is_held(runs: &[Run], spot: Spot) -> bool
    requires ascending { AreAscending runs.now }
    requires spot { IsSpot runs.now spot }
    ensures { MatchBool result (StandsIn runs.now spot.position) (¬ StandsIn runs.now spot.position) }
{
    let Spot { position, before } = spot;
    before < runs.len() && runs[before].first <= position
}

/// The last free position on the way between two positions of which one is free and one blocked,
/// from the free one; 0 if both are free or both are blocked.
fn place_between(runs: &[Run], low: Spot, high: Spot) -> i32
    requires ascending { AreAscending runs.now }
    requires low_ok { IsSpot runs.now low }
    requires high_ok { IsSpot runs.now high }
    requires order { low.position <ℤ high.position }
    ensures { IsPlaceBetween (StandsIn runs.now) low.position high.position result }
{
    match (is_held(runs, low), is_held(runs, high)) {
        (false, true) => runs[low.before].first - 1,
        (true, false) => runs[high.before - 1].last + 1,
        _ => 0,
    }
}

/// Adds for each position whether it is blocked.
fn add_blocked(runs: &[Run], positions: &[i32], blocked: &mut Vec<bool>) -> Result<(), WantOfMemory>
    requires ascending { AreAscending runs.now }
    requires positions_ok { ArePositions positions.now }
    ensures { IfOk result (λ _. AreAdded (Tells (StandsIn runs.now) positions.now) (length positions.now) blocked.old.items blocked.new.items) }
{
    let mut before = 0;
    for position in positions {
        let spot = spot_at(runs, before, *position);
        blocked.push(is_held(runs, spot))?;
        before = spot.before;
    }
    Ok(())
}

/// Adds for each position but the last the place between it and the next; and 0 for the last.
fn add_places(runs: &[Run], positions: &[i32], places: &mut Vec<i32>) -> Result<(), WantOfMemory>
    requires ascending { AreAscending runs.now }
    requires positions_ok { ArePositions positions.now }
    ensures { IfOk result (λ _. AreAdded (Places (StandsIn runs.now) positions.now) (length positions.now) places.old.items places.new.items) }
{
    let mut low = spot_at(runs, 0, positions[0]);
    for at in 1..positions.len() {
        let high = spot_at(runs, low.before, positions[at]);
        places.push(place_between(runs, low, high))?;
        low = high;
    }
    places.push(0)?;
    Ok(())
}
