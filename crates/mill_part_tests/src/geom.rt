ghost use Rattle.std.specs.Prelude.{IfOk};
ghost use Rattle.mill_base.specs.Numbers.{Within};
ghost use Rattle.mill_base.specs.Sizes.{HasRadius};
ghost use Rattle.mill_base.specs.declared.limits.TheConstants.{MAX_WIDE_RADIUS};
ghost use Rattle.mill_geom.specs.Offsets.{OffsetInRange};
ghost use Rattle.mill_geom.specs.Widths.{farthest};

use mill_base::MAX_WIDE_RADIUS;
use mill_geom::{Offset, Side, Spot, box_gap, box_side, highest, spot_below, touches_triangle};
use mill_tables::{corners, first_word, halves, number};
use std::process::Abort;
use std::test::Fail;

mod reach;

/// A coordinate of an offset, which may be as great as a point's and a tip's together.
fn coordinate(text: &str) -> Result<i64, Fail>
    ensures { IfOk result (λ number. Within farthest number) }
{
    let number: i64 = text.parse()?;
    if number.unsigned_abs() > 1_069_287 {
        return Err(Fail::from("out of range"));
    }
    Ok(number)
}

fn offset(text: &str) -> Result<Offset, Fail>
    ensures { IfOk result (λ offset. OffsetInRange offset) }
{
    let (x, others) = first_word(text)?;
    let (y, z) = first_word(others)?;
    let (x, y, z) = (coordinate(x)?, coordinate(y)?, coordinate(z)?);
    Ok(Offset { x, y, z })
}

fn side_word(side: Side) -> &'static str {
    match side {
        Side::Less => "less",
        Side::More => "more",
        Side::Never => "never",
    }
}

/// What `touches_triangle` says of a triangle from each of its corners.
fn touches_from_each(a: Offset, b: Offset, c: Offset, by: i32) -> (bool, bool, bool)
    requires a_ok { OffsetInRange a }
    requires b_ok { OffsetInRange b }
    requires c_ok { OffsetInRange c }
    requires by_ok { HasRadius by MAX_WIDE_RADIUS }
{
    let by = i64::from(by);
    (
        touches_triangle(a, b, c, by),
        touches_triangle(b, c, a, by),
        touches_triangle(c, a, b, by),
    )
}

/// Looks at a triangle, from each of its corners: a row has one, a radius, and whether the cylinder of
/// that radius over the level touches it.
fn look_at_touches<R: Abort>(rt: &R, row: &str) -> Result<(), Fail> {
    let (text, wanted) = halves(row)?;
    let (text, by) = text.split_once(" by ").ok_or("a row without a radius")?;
    let (a, b, c) = corners(text);
    let found = touches_from_each(
        offset(a)?,
        offset(b)?,
        offset(c)?,
        number(by, 1, MAX_WIDE_RADIUS)?,
    );
    let touches = wanted == "true";
    assert_eq!(rt; found, (touches, touches, touches), "{row}");
    Ok(())
}

// A level triangle beside the axis by its edge, by its slope and by its level, one unit in and out.
//
// The level cuts a slope in a line of which only the middle is near: with one corner alone over the
// level, and with one alone under it. The line of the level is near, but not between the edges that it
// cuts.
//
// Three equal corners, and three on one line. Then corners as far away as offsets may be, and the widest
// cylinder: a slope that comes up to the level at the axis, and one that is far under it there.
const TOUCHES: &str = "\
99 -500 1, 1099 -500 1, 99 500 1 by 100 => true
100 -500 1, 1100 -500 1, 100 500 1 by 100 => false
-641 -500 1, 359 -500 1, -641 500 1 by 100 => true
-642 -500 1, 358 -500 1, -642 500 1 by 100 => false
-300 -300 1, 700 -300 1, -300 700 1 by 100 => true
-300 -300 0, 700 -300 0, -300 700 0 by 100 => false
-401 -1000 -500, -401 1000 -500, 599 0 500 by 100 => true
-401 -1000 -500, -401 1000 -500, 599 0 500 by 99 => false
599 -1000 500, 599 1000 500, -401 0 -500 by 100 => true
599 -1000 500, 599 1000 500, -401 0 -500 by 99 => false
-401 -1700 -500, -401 300 -500, 599 -700 500 by 100 => false
60 80 1 by 101 => true
60 80 1 by 100 => false
-300 99 1, 200 99 1, -100 99 1 by 100 => true
-300 99 1, 200 99 1, -100 99 1 by 99 => false
-1069287 -1069287 1069287, 1069287 -1069287 -1069287, -1069287 1069287 1069287 by 11024 => true
-1069287 -1069287 1069287, 1069287 -1069287 -1069287, -1069287 1069287 1 by 11024 => false";

#[test]
fn touches(rt: HostRuntime) -> Result<(), Fail> {
    for row in TOUCHES.lines() {
        look_at_touches(&rt, row)?;
    }
    Ok(())
}

// How near to the axis the box of the corners comes, squared, and how high.
const GAPS: &str = "\
30 40 5, 90 70 -5, 30 99 0 => 2500 5
-30 -40 -5, -90 -70 -7, -30 -99 -9 => 2500 -5
-1 40 0, 90 70 8, 1 99 0 => 1600 8
30 1 5, 90 0 -5, 30 -99 0 => 900 5
30 0 5, 0 -40 6, -30 0 6 => 0 6
0 0 1 => 0 1";

/// How near the box comes and how high, from two of the corners.
fn gaps_from_two(a: Offset, b: Offset, c: Offset) -> ((i64, i64), (i64, i64))
    requires a_ok { OffsetInRange a }
    requires b_ok { OffsetInRange b }
    requires c_ok { OffsetInRange c }
{
    (
        (box_gap(a, b, c), highest(a, b, c)),
        (box_gap(b, c, a), highest(c, a, b)),
    )
}

fn look_at_gaps<R: Abort>(rt: &R, row: &str) -> Result<(), Fail> {
    let (text, wanted) = halves(row)?;
    let (a, b, c) = corners(text);
    let found = gaps_from_two(offset(a)?, offset(b)?, offset(c)?);
    let (gap, top) = first_word(wanted)?;
    let wanted: (i64, i64) = (gap.parse()?, top.parse()?);
    assert_eq!(rt; found, (wanted, wanted), "{row}");
    Ok(())
}

#[test]
fn gaps_of_boxes(rt: HostRuntime) -> Result<(), Fail> {
    for row in GAPS.lines() {
        look_at_gaps(&rt, row)?;
    }
    Ok(())
}

// What the upright boxes round the corners show, and what they don't.
const SIDES: &str = "\
100 0 1, 200 50 1 => more
99 0 1, 200 50 1 => none
-100 0 1, -200 50 1 => less
-99 0 1, -200 50 1 => none
0 100 1, 50 200 1 => never
0 99 1, 50 200 1 => none
0 -100 1, 50 -200 1 => never
0 -99 1, 50 -200 1 => none
0 0 0, 0 0 -1 => never
0 0 0, 0 0 1 => none";

/// What the box shows at a cylinder of radius 100.
fn shown(a: Offset, b: Offset, c: Offset) -> &'static str
    requires a_ok { OffsetInRange a }
    requires b_ok { OffsetInRange b }
    requires c_ok { OffsetInRange c }
{
    match box_side(a, b, c, 100) {
        Some(side) => side_word(side),
        None => "none",
    }
}

fn look_at_sides<R: Abort>(rt: &R, row: &str) -> Result<(), Fail> {
    let (text, wanted) = halves(row)?;
    let (a, b, _) = corners(text);
    let (a, b) = (offset(a)?, offset(b)?);
    let found = (shown(a, a, b), shown(a, b, a), shown(b, a, a));
    assert_eq!(rt; found, (wanted, wanted, wanted), "{row}");
    Ok(())
}

#[test]
fn sides_of_boxes(rt: HostRuntime) -> Result<(), Fail> {
    for row in SIDES.lines() {
        look_at_sides(&rt, row)?;
    }
    Ok(())
}

// A corner, a point where an edge crosses the level, and none.
#[test]
fn spots(rt: HostRuntime) -> Result<(), Fail> {
    let (a, b, c) = (
        offset("0 -500 -100")?,
        offset("300 700 200")?,
        offset("9 100 -5")?,
    );
    let corner = Spot {
        x: 300,
        y: 700,
        n: 1,
    };
    let crossing = Spot {
        x: 30_000,
        y: -30_000,
        n: 300,
    };
    let found = (
        spot_below(a, b, c, 701),
        spot_below(a, b, c, 700),
        spot_below(a, b, c, -100),
    );
    assert_eq!(rt; found, (Some(corner), Some(crossing), None));
    Ok(())
}
