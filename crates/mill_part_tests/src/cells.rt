ghost use Rattle.std.specs.Prelude.{◌≡◌, ℕ, ◌≤ℤ◌};
ghost use Rattle.mill_base.specs.Points.{highest};
ghost use Rattle.mill_cells.specs.Boxes.{IsNear};
ghost use Rattle.mill_cells.specs.Sorted.{top_at, sorted_of};

use mill_base::{Box2, Tri};
use mill_cells::Cells;
use mill_part::SortedPart;
use mill_tables::{first_word, halves, part_of};
use std::process::Abort;
use std::test::Fail;

// Two triangles over squares of 10, the second one 100 to the right of the first. Their tops are 5
// and 8.
const APART: &str = "0 0 2, 10 0 5, 0 10 -3; 100 0 8, 110 0 0, 100 10 8";

/// An area by its least x and y, and its greatest ones.
fn area_of(text: &str) -> Result<Box2, Fail> {
    let (x0, others) = first_word(text)?;
    let (y0, others) = first_word(others)?;
    let (x1, y1) = first_word(others)?;
    Ok(Box2 {
        x0: x0.parse()?,
        y0: y0.parse()?,
        x1: x1.parse()?,
        y1: y1.parse()?,
    })
}

/// A triangle's number, or `none`.
fn number_of(word: &str) -> Result<Option<u32>, Fail> {
    if word == "none" {
        return Ok(None);
    }
    Ok(Some(word.parse()?))
}

/// The first three numbers of triangles that a call gives.
type Found = (Option<u32>, Option<u32>, Option<u32>);

/// Two numbers, behind which none comes.
fn wanted_numbers(text: &str) -> Result<Found, Fail> {
    let (first, second) = first_word(text)?;
    Ok((number_of(first)?, number_of(second)?, None))
}

/// An area, and the height that stands behind it.
fn area_over(text: &str) -> Result<(Box2, i32), Fail> {
    let (area, height) = text.split_once(" over ").ok_or("a row without a height")?;
    Ok((area_of(area)?, height.parse()?))
}

fn found_near(cells: &Cells, area: Box2) -> Found {
    let mut near = cells.near(area);
    (near.next(), near.next(), near.next())
}

fn found_over(cells: &Cells, area: Box2, height: i32) -> Found {
    let mut near = cells.near_over(area, height);
    (near.next(), near.next(), near.next())
}

fn found_rising(cells: &Cells, area: Box2, height: i32) -> Found {
    let mut near = cells.near_rising(area);
    let (first, second) = (near.next_over(height), near.next_over(height));
    (first, second, near.next_over(-9))
}

/// What the calls that a row names find: `near` an area, `over` a height there, or over a `rising` one.
fn found(cells: &Cells, call: &str, text: &str) -> Result<Found, Fail> {
    if call == "near" {
        return Ok(found_near(cells, area_of(text)?));
    }
    let (area, height) = area_over(text)?;
    match call {
        "over" => Ok(found_over(cells, area, height)),
        "rising" => Ok(found_rising(cells, area, height)),
        _ => Err(Fail::from("no such call")),
    }
}

fn tri_top(tri: &Tri) -> i32
    ensures { result ≡ highest tri.now }
{
    tri.a.z.max(tri.b.z.max(tri.c.z))
}

// The greatest top of the triangles near the area, and the floor where none is over it.
fn top_near(cells: &Cells, tris: &[Tri], area: Box2, floor: i32) -> i32
    requires { cells.now ≡ sorted_of tris.now }
    ensures { (i : ℕ) → IsNear cells.now.boxes area i → top_at cells.now.tops i ≤ℤ result }
{
    let mut top = floor;
    let mut near = cells.near_rising(area);
    while let Some(number) = near.next_over(top) {
        top = tri_top(&tris[number as usize]);
    }
    top
}

/// Looks at the greatest top near an area, over the floor that stands behind it.
fn look_at_top<R: Abort>(rt: &R, shape: &SortedPart, text: &str, wanted: &str) -> Result<(), Fail> {
    let (area, floor) = area_over(text)?;
    let top = top_near(shape.cells(), shape.part().tris(), area, floor);
    assert_eq!(rt; top, wanted.parse()?, "{text}");
    Ok(())
}

fn look<R: Abort>(rt: &R, shape: &SortedPart, row: &str) -> Result<(), Fail> {
    let (question, wanted) = halves(row)?;
    let (call, text) = first_word(question)?;
    if call == "top" {
        return look_at_top(rt, shape, text, wanted);
    }
    let found = found(shape.cells(), call, text)?;
    assert_eq!(rt; found, wanted_numbers(wanted)?, "{row}");
    Ok(())
}

fn look_at_each<R: Abort>(rt: &R, shape: &SortedPart, table: &str) -> Result<(), Fail> {
    for row in table.lines() {
        look(rt, shape, row)?;
    }
    Ok(())
}

/// Looks at the triangles of a part near many areas: each row has a call and an area, with a height where
/// the call takes one, and the numbers of those that it gives, of which each comes once, or the greatest
/// top.
fn each_row<R: Abort + AllocGlobal>(rt: &R, part: &str, table: &str) -> Result<(), Fail> {
    let shape = part_of(rt.alloc(), part)?;
    look_at_each(rt, &shape, table)
}

// The borders of boxes and areas count, and so does an area that reaches over the grid.
const NEAR: &str = "\
near 11 10 99 900 => none none
near 10 10 99 900 => 0 none
near 11 10 100 900 => 1 none
near -500 10 500 900 => 0 1";

#[test]
fn finds_near_triangles(rt: HostRuntime) -> Result<(), Fail> {
    each_row(&rt, APART, NEAR)
}

// The height rises from call to call, and whole cells are passed over.
const TOPS: &str = "\
top -500 0 500 9 over -9 => 8
top 0 0 50 9 over -9 => 5
top 0 0 50 9 over 6 => 6
top 50 0 60 9 over -9 => -9
top 50 0 500 9 over 7 => 8";

#[test]
fn finds_the_top_near(rt: HostRuntime) -> Result<(), Fail> {
    each_row(&rt, APART, TOPS)
}

// A triangle as high as the height isn't over it, and one that was passed over doesn't come again.
const RISING: &str = "\
rising 0 0 100 10 over 4 => 0 1
rising 0 0 100 10 over 5 => 1 none
rising 0 0 100 10 over 8 => none none";

#[test]
fn gives_what_is_over_a_height(rt: HostRuntime) -> Result<(), Fail> {
    each_row(&rt, APART, RISING)
}

const OVER: &str = "\
over 10 0 100 10 over 4 => 0 1
over 11 0 100 10 over 4 => 1 none
over 10 0 100 10 over 5 => 1 none
over 10 0 100 10 over 8 => none none";

// A level triangle at the height 200: it's over a height that is under its own, and not over its own.
const OVER_PLATE: &str = "\
over 0 0 10 10 over 199 => 0 none
over 0 0 10 10 over 200 => none none";

#[test]
fn gives_each_near_over_a_height(rt: HostRuntime) -> Result<(), Fail> {
    each_row(&rt, APART, OVER)?;
    each_row(&rt, "0 0 200, 100 0 200, 0 100 200", OVER_PLATE)
}
