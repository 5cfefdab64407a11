ghost use Rattle.std.specs.Prelude.{◌≡◌, ◌<◌, IfOk};
ghost use Rattle.mill_base.specs.Numbers.{Within};
ghost use Rattle.mill_base.specs.declared.limits.TheConstants.{MAX_COORDINATE};
ghost use Rattle.mill_push.specs.Touches.{IsFiber};

use mill_base::{Cutter, LOWEST_LIFT, Solid, Steps, Tool};
use mill_part::SortedPart;
use mill_push::{
    Axis, Ends, Fiber, Run, one_list_of_runs, one_stretch, push_after, runs_hold_blocked,
};
use mill_tables::{coordinate, first_word, halves, part_of, place, tool};
use std::alloc::Global;
use std::marker::Brand;
use std::process::Abort;
use std::sync::ledger::{Blank, Ledger};
use std::test::Fail;

mod steps;

/// A fiber by its axis, its place across it, and its height.
fn fiber_of(text: &str) -> Result<Fiber, Fail>
    ensures { IfOk result (λ fiber. IsFiber fiber) }
{
    let (axis, others) = first_word(text)?;
    let (at, z) = place(others)?;
    let axis = if axis == "x" { Axis::X } else { Axis::Y };
    Ok(Fiber { axis, at, z })
}

/// The runs of the tool, after other pushes, by a counter of its own.
fn counted<L: Ledger>(
    alloc: Global,
    part: &SortedPart,
    tool: &Tool,
    fiber: Fiber,
    from: i32,
    to: i32,
    ends: &mut Ends,
    blank: Blank,
) -> Result<Vec<Run>, Fail>
    requires fiber_ok { IsFiber fiber }
    requires from_ok { Within MAX_COORDINATE from }
    requires to_ok { Within MAX_COORDINATE to }
    requires name { blank.name ≡ L.name }
    requires parts { blank.parts ≡ L.parts }
    requires some { 0 < blank.parts }
{
    if from > to {
        return Err(Fail::from("the window has no position"));
    }
    let mut steps = Steps::<L>::new(blank);
    Ok(push_after(alloc, part, tool, fiber, from, to, ends, &mut steps)?)
}

fn add(alloc: Global, told: &mut String, run: &Run) -> Result<(), Fail> {
    let Run { first, last } = run;
    if !told.is_empty() {
        told.push_str(", ")?;
    }
    told.push_str(&format!(in alloc; "{first} {last}")?)?;
    Ok(())
}

/// Runs by their first and last positions.
fn told(alloc: Global, runs: &[Run]) -> Result<String, Fail> {
    if runs.is_empty() {
        return Ok(String::from_str(alloc, "none")?);
    }
    let mut told = String::new(alloc);
    for run in runs {
        add(alloc, &mut told, run)?;
    }
    Ok(told)
}

/// What the tool's runs along the fiber of a row's text come to: from -2,000 to 2,000, or over the
/// window that the row names.
fn told_of(
    alloc: Global,
    tool: &Tool,
    part: &SortedPart,
    ends: &mut Ends,
    text: &str,
) -> Result<String, Fail> {
    let (fiber, window) = text.split_once(" from ").unwrap_or((text, "-2000 to 2000"));
    let (from, to) = window.split_once(" to ").ok_or("a window without an end")?;
    let (from, to) = (coordinate(from)?, coordinate(to)?);
    let fiber = fiber_of(fiber)?;
    let runs = counted::<Brand>(alloc, part, tool, fiber, from, to, ends, Blank::new(1))?;
    told(alloc, &runs)
}

fn look_at_fiber<R: Abort + AllocGlobal>(
    rt: &R,
    tool: &Tool,
    part: &SortedPart,
    ends: &mut Ends,
    row: &str,
) -> Result<(), Fail> {
    let (fiber, wanted) = halves(row)?;
    let found = told_of(rt.alloc(), tool, part, ends, fiber)?;
    assert_eq!(rt; found.as_str(), wanted, "{row}");
    Ok(())
}

fn look_at_fibers<R: Abort + AllocGlobal>(
    rt: &R,
    tool: &Tool,
    part: &SortedPart,
    table: &str,
) -> Result<(), Fail> {
    let mut ends = Ends::new(rt.alloc(), part.part().tris().len())?;
    for row in table.lines() {
        look_at_fiber(rt, tool, part, &mut ends, row)?;
    }
    Ok(())
}

/// Looks at the runs of a tool over a part: each row has a fiber, and what they come to. Of each row it
/// is kept where the ends were, though its fiber isn't beside the next one.
fn each_fiber<R: Abort + AllocGlobal>(
    rt: &R,
    held: &str,
    part: &str,
    table: &str,
) -> Result<(), Fail> {
    let alloc = rt.alloc();
    let held = tool(held)?;
    let part = part_of(alloc, part)?;
    look_at_fibers(rt, &held, &part, table)
}

const POINT: &str = "500 0 300";

// The cutter holds the point where it is nearer than 100 to the axis, and over the tip. Then with narrow
// windows.
const FLAT: &str = "\
x 0 0 => 401 599
x 100 0 => none
x 0 300 => none
y 500 0 => -99 99
y 600 0 => none
y 500 300 => none
x 0 0 from 400 to 400 => none
x 0 0 from 401 to 401 => 401 401
x 0 0 from 599 to 599 => 599 599
x 0 0 from 600 to 600 => none
x 0 0 from 450 to 550 => 450 550
x 0 0 from -131071 to 131071 => 401 599
x 0 0 from -524287 to 524287 => 401 599
x 101 0 from -524287 to 524287 => none
x 0 300 from -524287 to 524287 => none";

#[test]
fn flat_on_a_point(rt: HostRuntime) -> Result<(), Fail> {
    each_fiber(&rt, "flat 100", POINT, FLAT)
}

// Fibers side by side, 20 apart, of which one is free: 97² + 20², 91² + 40², 79² + 60² and 59² + 80² are
// less than 100², and of the next numbers 98, 92, 80 and 60 that isn't so.
const SIDE_BY_SIDE: &str = "\
x 0 0 => 401 599
x 20 0 => 403 597
x 40 0 => 409 591
x 60 0 => 421 579
x 80 0 => 441 559
x 100 0 => none
x 80 0 => 441 559
x 60 0 => 421 579";

#[test]
fn fibers_side_by_side(rt: HostRuntime) -> Result<(), Fail> {
    each_fiber(&rt, "flat 100", POINT, SIDE_BY_SIDE)
}

// The point is at the height 300. A ball of radius 100 whose tip is h under it, for h up to 100, holds
// it where the square of its distance to the axis is less than h * (200 - h): that is 199 for 1, and
// 60² for 20, where 36² + 48² = 60² and 59² + 10² is less. From 100 on it holds all that is nearer
// than 100.
const BALL: &str = "\
x 0 300 => none
x 0 299 => 486 514
x 14 299 => 499 501
x 15 299 => none
x 0 280 => 441 559
x 36 280 => 453 547
x 59 280 => 490 510
x 60 280 => none
x 0 200 => 401 599
x 60 200 => 421 579
x 99 150 => 486 514
x 100 150 => none";

#[test]
fn ball_near_the_top(rt: HostRuntime) -> Result<(), Fail> {
    each_fiber(&rt, "ball 100", POINT, BALL)
}

// A cone that rises by 3 over each 2 holds the point where its distance to the axis is less than two
// thirds of the height: that is 40/3 for 20, and 100 for 150, where the shank begins; 13² is 169, and
// 13² + 3² = 178 is more than 1600/9.
const CONE: &str = "\
x 0 300 => none
x 0 299 => 500 500
x 1 299 => none
x 0 280 => 487 513
x 13 280 => 498 502
x 14 280 => none
x 0 200 => 434 566
x 0 150 => 401 599
x 99 150 => 486 514
x 60 0 => 421 579
x 100 0 => none";

#[test]
fn cone_near_the_top(rt: HostRuntime) -> Result<(), Fail> {
    each_fiber(&rt, "cone 100 3 2", POINT, CONE)
}

// The edge is 20 over the tip. There the ball is a disk of radius 60, since its centre is 80 over the
// edge and 60² + 80² = 100², and the cone, whose run is twice its rise, one of radius 40. Across the
// edge each reaches as far as its disk. Along it the cone's axis is 24 beside the edge, and its disk
// reaches 32 over each end, since 24² + 32² = 40².
#[test]
fn ball_and_cone_on_an_edge(rt: HostRuntime) -> Result<(), Fail> {
    let edge = "-500 30 300, 500 30 300";
    each_fiber(&rt, "ball 100", edge, "y 0 280 => -29 89")?;
    each_fiber(&rt, "cone 100 1 2", edge, "x 54 280 => -531 531")
}

// The first point is at the height 300, and the second at 360, 30 beside it. A ball of radius 100 whose
// tip is at 280 holds what is nearer to the axis than 60 at the height of the first, and where the
// square of the distance is less than 80 * 120 at that of the second: there 8649 is 93², 900 is 30²,
// 7921 is 89², and 1600 is 40².
const TWO_HEIGHTS: &str = "\
x 0 280 => 441 559, 807 993
x 60 280 => 807 993
x 70 280 => 811 989";

#[test]
fn points_of_two_heights(rt: HostRuntime) -> Result<(), Fail> {
    each_fiber(&rt, "ball 100", "500 0 300; 900 30 360", TWO_HEIGHTS)
}

// The holder's lower face is 50 over the tip. It holds the point where it is nearer than 200 to the
// axis, and over the lower face.
const HELD: &str = "\
x 0 249 => 301 699
x 0 250 => 401 599
x 199 0 => 481 519
x 200 0 => none";

#[test]
fn holder_near_a_point(rt: HostRuntime) -> Result<(), Fail> {
    each_fiber(&rt, "flat 100 in 200 50", POINT, HELD)
}

// The cutter's tip is 4,300 under the fiber, and so under all coordinates in the last row.
const SUNK: &str = "\
x 0 4600 => none
x 0 4599 => 401 599
x 100 0 => none
x 0 -524287 => 401 599";

#[test]
fn cutter_under_its_tip(rt: HostRuntime) -> Result<(), Fail> {
    let flat = Cutter::Flat { radius: 100 };
    let sunk = Tool::bare(Solid::new(flat, LOWEST_LIFT));
    look_at_fibers(&rt, &sunk, &part_of(rt.alloc(), POINT)?, SUNK)
}

/// What the runs of a flat cutter along one fiber over a part come to.
fn told_over(alloc: Global, part: &str) -> Result<String, Fail> {
    let flat = Tool::bare(Solid::at_tip(Cutter::Flat { radius: 100 }));
    let part = part_of(alloc, part)?;
    let mut ends = Ends::new(alloc, 0)?;
    told_of(alloc, &flat, &part, &mut ends, "x 0 0")
}

fn look_at_part<R: Abort + AllocGlobal>(rt: &R, row: &str) -> Result<(), Fail> {
    let (part, wanted) = halves(row)?;
    let found = told_over(rt.alloc(), part)?;
    assert_eq!(rt; found.as_str(), wanted, "{row}");
    Ok(())
}

/// Looks at the runs of the flat cutter along one fiber over many parts: each row has a part, and what
/// they come to.
fn each_part<R: Abort + AllocGlobal>(rt: &R, table: &str) -> Result<(), Fail> {
    for row in table.lines() {
        look_at_part(rt, row)?;
    }
    Ok(())
}

// The second point's stretch begins within the first one's, just after it, or after one free
// position. The order of the points makes no difference.
const TWO_POINTS: &str = "\
nothing => none
500 0 300; 600 0 300 => 401 699
600 0 300; 500 0 300 => 401 699
500 0 300; 699 0 300 => 401 798
699 0 300; 500 0 300 => 401 798
500 0 300; 700 0 300 => 401 599, 601 799
700 0 300; 500 0 300 => 401 599, 601 799";

#[test]
fn two_points(rt: HostRuntime) -> Result<(), Fail> {
    each_part(&rt, TWO_POINTS)?;
    one_list_of_runs();
    runs_hold_blocked();
    one_stretch();
    Ok(())
}

// Four bars, which come in three orders. First the second bar's stretch begins just after the first
// one's, the third one's overlaps both, and the fourth one's lies apart. Then the first one's stretch
// lies in the middle of the second one's, the third one's ends just before that, and the fourth one's
// lies within it.
//
// In the next three rows the first bar's stretch holds all positions at which the cutter can come over
// the second one; the third one's begins before it, and the fourth one's ends after it.
//
// In the last three the fourth bar leaves the fiber, 4 to the side for each 3 along: the position 1125
// is four fifths of 125 from it, so it isn't touched there nor further on. Its box reaches to 1600,
// where the second one's stretch is.
const BARS: &str = "\
1000 0 300; 1199 0 300; 960 0 300, 1150 0 300; 300 0 300 => 201 399, 861 1298
300 0 300; 960 0 300, 1150 0 300; 1199 0 300; 1000 0 300 => 201 399, 861 1298
960 0 300, 1150 0 300; 1000 0 300; 300 0 300; 1199 0 300 => 201 399, 861 1298
1000 0 300; 800 0 300, 1400 0 300; 601 0 300; 900 0 300, 1300 0 300 => 502 1499
900 0 300, 1300 0 300; 601 0 300; 800 0 300, 1400 0 300; 1000 0 300 => 502 1499
601 0 300; 1000 0 300; 900 0 300, 1300 0 300; 800 0 300, 1400 0 300 => 502 1499
1000 0 300, 1100 0 300; 1050 0 300; 850 0 300, 880 0 300; 1180 0 300, 1400 0 300 => 751 1499
1180 0 300, 1400 0 300; 850 0 300, 880 0 300; 1050 0 300; 1000 0 300, 1100 0 300 => 751 1499
850 0 300, 880 0 300; 1000 0 300, 1100 0 300; 1180 0 300, 1400 0 300; 1050 0 300 => 751 1499
300 0 300; 1650 0 300; 401 0 300, 500 0 300; 1000 0 300, 1600 800 300 => 201 599, 901 1124, 1551 1749
1000 0 300, 1600 800 300; 401 0 300, 500 0 300; 1650 0 300; 300 0 300 => 201 599, 901 1124, 1551 1749
401 0 300, 500 0 300; 300 0 300; 1000 0 300, 1600 800 300; 1650 0 300 => 201 599, 901 1124, 1551 1749";

#[test]
fn bars_that_overlap_touch_and_lie_apart(rt: HostRuntime) -> Result<(), Fail> {
    each_part(&rt, BARS)
}
