ghost use Rattle.std.specs.Prelude.{pos, IfOk};
ghost use Rattle.mill_base.specs.Numbers.{Within};
ghost use Rattle.mill_base.specs.declared.limits.TheConstants.{MAX_COORDINATE};
ghost use Rattle.mill_drop.specs.Paths.{IsRow, IsTolerance};

use mill_base::{Box2, Cutter, LOWEST_LIFT, Lattice, MAX_COORDINATE, Pt3, Solid, Tool};
use mill_crew::Threaded;
use mill_drop::{
    DropCrew, drop_at, drop_heights_are_unique, drop_once, one_path, path_drop, paths_are_halved,
};
use mill_part::SortedPart;
use mill_tables::{coordinate, first_word, halves, part_of, tool};
use std::alloc::Global;
use std::process::Abort;
use std::test::Fail;
use std::thread::Threads;

/// The drop height over a part by its triangles, found by its cells and without them.
fn drops(
    alloc: Global,
    tris: &str,
    held: &Tool,
    x: i32,
    y: i32,
    floor: i32,
) -> Result<(i32, i32), Fail>
    requires x_ok { Within MAX_COORDINATE x }
    requires y_ok { Within MAX_COORDINATE y }
    requires floor_ok { Within MAX_COORDINATE floor }
{
    let shape = part_of(alloc, tris)?;
    let height = drop_at(&shape, held, x, y, floor);
    Ok((height, drop_once(shape.part(), held, x, y, floor)))
}

/// A place by its x and y, and the floor.
fn place_over(text: &str) -> Result<(i32, i32, i32), Fail>
    ensures x { IfOk result (λ place. Within MAX_COORDINATE place.0) }
    ensures y { IfOk result (λ place. Within MAX_COORDINATE place.1) }
    ensures floor { IfOk result (λ place. Within MAX_COORDINATE place.2) }
{
    let (place, floor) = text.split_once(" over ").ok_or("a row without a floor")?;
    let (x, y) = first_word(place)?;
    Ok((coordinate(x)?, coordinate(y)?, coordinate(floor)?))
}

/// The drop heights of a tool by a text: at which place, over which floor, and over which part.
fn drops_of(alloc: Global, held: &Tool, text: &str) -> Result<(i32, i32), Fail> {
    let (place, tris) = text.split_once(": ").ok_or("a row without a part")?;
    let (x, y, floor) = place_over(place)?;
    drops(alloc, tris, held, x, y, floor)
}

fn look<R: Abort + AllocGlobal>(rt: &R, row: &str) -> Result<(), Fail> {
    let (text, wanted) = halves(row)?;
    let (held, text) = text.split_once(" at ").ok_or("a row without a place")?;
    let held = tool(held)?;
    let height: i32 = wanted.parse()?;
    assert_eq!(rt;
        drops_of(rt.alloc(), &held, text)?,
        (height, height),
        "{row}"
    );
    Ok(())
}

/// Looks at many drop heights: each row has what it asks for, and the height.
fn each_drop<R: Abort + AllocGlobal>(rt: &R, table: &str) -> Result<(), Fail> {
    for row in table.lines() {
        look(rt, row)?;
    }
    Ok(())
}

// The ball's surface is 80 under its centre at 60 from the axis. Then a cone beside an edge.
const POINT_AND_EDGE: &str = "\
ball 100 at 60 0 over 0: 0 0 300 => 280
ball 100 at 61 0 over 0: 0 0 300 => 280
ball 100 at 100 0 over 0: 0 0 300 => 0
ball 100 at 60 0 over 281: 0 0 300 => 281
cone 100 1 1 at 0 0 over 0: -500 3 300, 500 3 300 => 297";

#[test]
fn cutters_on_a_point_and_an_edge(rt: HostRuntime) -> Result<(), Fail> {
    each_drop(&rt, POINT_AND_EDGE)
}

// The triangle's plane is z = x. In the last rows it is as far out as can be: the flat cutter touches at
// its edge, the cone, whose slope is half the plane's, there too, and the ball's centre is the radius
// times the root of 2 over the plane.
const SLOPES: &str = "\
flat 100 at 0 0 over -2000: -1000 -1000 -1000, 1000 -1000 1000, 0 2000 0 => 100
ball 100 at 0 0 over -2000: -1000 -1000 -1000, 1000 -1000 1000, 0 2000 0 => 42
cone 100 1 2 at 0 0 over -2000: -1000 -1000 -1000, 1000 -1000 1000, 0 2000 0 => 50
flat 10000 at 0 0 over -131071: -131071 -131071 -131071, 131071 -131071 131071, 0 131071 0 => 10000
ball 10000 at 0 0 over -131071: -131071 -131071 -131071, 131071 -131071 131071, 0 131071 0 => 4143
cone 10000 1 2 at 0 0 over -131071: -131071 -131071 -131071, 131071 -131071 131071, 0 131071 0 => 5000
flat 10000 at 0 0 over -524287: -524287 -524287 -524287, 524287 -524287 524287, 0 524287 0 => 10000
ball 10000 at 0 0 over -524287: -524287 -524287 -524287, 524287 -524287 524287, 0 524287 0 => 4143
cone 10000 1 2 at 0 0 over -524287: -524287 -524287 -524287, 524287 -524287 524287, 0 524287 0 => 5000";

#[test]
fn cutters_on_a_slope(rt: HostRuntime) -> Result<(), Fail> {
    each_drop(&rt, SLOPES)?;
    drop_heights_are_unique();
    Ok(())
}

// The point is 180 from the axis: out of the cutter's reach, and in the holder's.
const HELD: &str = "\
flat 150 in 200 50 at 100 100 over 0: 280 100 300 => 250
flat 150 in 200 300 at 100 100 over 0: 280 100 300 => 0";

#[test]
fn holder_on_a_point(rt: HostRuntime) -> Result<(), Fail> {
    each_drop(&rt, HELD)
}

/// The drop heights at (0, 0) of a flat cutter whose tip is 4,300 under the tool's.
fn sunk_drops(alloc: Global, tris: &str) -> Result<(i32, i32), Fail> {
    let flat = Cutter::Flat { radius: 100 };
    let sunk = Tool::bare(Solid::new(flat, LOWEST_LIFT));
    drops(alloc, tris, &sunk, 0, 0, -(MAX_COORDINATE as i32))
}

fn look_at_sunk<R: Abort + AllocGlobal>(rt: &R, tris: &str, height: i32) -> Result<(), Fail> {
    assert_eq!(rt; sunk_drops(rt.alloc(), tris)?, (height, height), "{tris}");
    Ok(())
}

// The last point is the highest that there may be, and the one before it the lowest.
#[test]
fn cutter_under_its_tip(rt: HostRuntime) -> Result<(), Fail> {
    look_at_sunk(&rt, "nothing", -524_287)?;
    look_at_sunk(&rt, "100 0 300", -524_287)?;
    look_at_sunk(&rt, "0 99 300", 4_600)?;
    look_at_sunk(&rt, "0 0 -524287", -519_987)?;
    look_at_sunk(&rt, "0 0 524287", 528_587)
}

const TRIANGLE: &str = "0 0 200, 1000 0 200, 0 1000 200";

/// The heights of a flat cutter along a row that the step doesn't divide: at -200, -125, -50 and 0.
fn row_heights<R: Threads + Sync + AllocGlobal>(
    rt: &R,
    shape: &SortedPart,
) -> Result<Vec<i32>, Fail> {
    let tool = Tool::bare(Solid::at_tip(Cutter::Flat { radius: 100 }));
    let lattice = Lattice {
        area: Box2 {
            x0: -200,
            y0: 0,
            x1: 0,
            y1: 0,
        },
        step: 75,
    };
    let crew = Threaded { rt, workers: 1 };
    Ok(crew.drop_map(rt.alloc(), shape, &tool, &lattice, 0)?)
}

#[test]
fn heights_along_a_row(rt: HostRuntime) -> Result<(), Fail> {
    let shape = part_of(rt.alloc(), TRIANGLE)?;
    let heights = row_heights(&rt, &shape)?;
    assert_eq!(rt; heights.as_slice(), [0, 0, 200, 200].as_slice());
    Ok(())
}

fn add(alloc: Global, told: &mut String, point: &Pt3) -> Result<(), Fail> {
    told.push_str(&format!(in alloc; "{} {}, ", point.x, point.z)?)?;
    Ok(())
}

/// The x and the height of each point.
fn told(alloc: Global, points: &[Pt3]) -> Result<String, Fail> {
    let mut told = String::new(alloc);
    for point in points {
        add(alloc, &mut told, point)?;
    }
    Ok(told)
}

/// The path of a flat cutter along the row at 500.
fn path(alloc: Global, shape: &SortedPart, x0: i32, x1: i32, tol: i32) -> Result<String, Fail>
    requires row_ok { IsRow (pos 500) x0 x1 }
    requires tol_ok { IsTolerance tol }
{
    let tool = Tool::bare(Solid::at_tip(Cutter::Flat { radius: 100 }));
    let points = path_drop(alloc, shape, &tool, 500, x0, x1, 0, tol)?;
    told(alloc, &points)
}

fn look_at_path<R: Abort + AllocGlobal>(
    rt: &R,
    shape: &SortedPart,
    x0: i32,
    x1: i32,
    tol: i32,
    wanted: &str,
) -> Result<(), Fail>
    requires row_ok { IsRow (pos 500) x0 x1 }
    requires tol_ok { IsTolerance tol }
{
    let found = path(rt.alloc(), shape, x0, x1, tol)?;
    assert_eq!(rt; found.as_str(), wanted);
    Ok(())
}

const TIGHT: &str =
    "-300 0, -150 0, -113 0, -104 0, -102 0, -101 0, -100 0, -99 200, -94 200, -75 200, 0 200, 300 200, ";

const LOOSE: &str = "-300 0, -150 0, -113 0, -104 0, -99 200, -94 200, -75 200, 0 200, 300 200, ";

// The cutter's edge comes over the part's after -100.
fn look_at_paths<R: Abort + AllocGlobal>(rt: &R, shape: &SortedPart) -> Result<(), Fail> {
    look_at_path(rt, shape, -300, 300, 0, TIGHT)?;
    look_at_path(rt, shape, -300, 300, 200, LOOSE)?;
    look_at_path(rt, shape, -99, -99, 0, "-99 200, ")
}

#[test]
fn paths_along_a_row(rt: HostRuntime) -> Result<(), Fail> {
    let shape = part_of(rt.alloc(), TRIANGLE)?;
    look_at_paths(&rt, &shape)?;
    paths_are_halved();
    one_path();
    Ok(())
}
