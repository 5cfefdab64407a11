ghost use Rattle.std.specs.Prelude.{◌≤ℤ◌, pos, IfOk};
ghost use Rattle.mill_base.specs.Numbers.{Within};
ghost use Rattle.mill_base.specs.declared.limits.TheConstants.{MAX_COORDINATE, MAX_RADIUS};

use mill_base::MAX_RADIUS;
use mill_cells::Cells;
use mill_part::{Part, SortedPart, covered_below};
use mill_tables::{coordinate, first_word, halves, number, part_of, placed};
use std::alloc::Global;
use std::process::Abort;
use std::test::Fail;

/// The height up to which a column is covered, and whether it's covered up to `height` and up to one more.
type Cover = (i32, bool, bool);

/// By all triangles.
fn cover(part: &Part, floor: i32, x: i32, y: i32, band: i32, height: i32) -> Cover
    requires floor_ok { Within MAX_COORDINATE floor }
    requires x_ok { Within MAX_COORDINATE x }
    requires y_ok { Within MAX_COORDINATE y }
    requires band_least { pos 0 ≤ℤ band }
    requires band_most { band ≤ℤ MAX_RADIUS }
    requires height_ok { Within MAX_COORDINATE height }
{
    (
        part.covered_height(floor, x, y, band),
        part.covered(floor, x, y, height, band),
        part.covered(floor, x, y, height + 1, band),
    )
}

/// By those near it.
fn cover_near(shape: &SortedPart, floor: i32, x: i32, y: i32, band: i32, height: i32) -> Cover
    requires floor_ok { Within MAX_COORDINATE floor }
    requires x_ok { Within MAX_COORDINATE x }
    requires y_ok { Within MAX_COORDINATE y }
    requires band_least { pos 0 ≤ℤ band }
    requires band_most { band ≤ℤ MAX_RADIUS }
    requires height_ok { Within MAX_COORDINATE height }
{
    (
        shape.covered_height_near(floor, x, y, band),
        shape.covered_near(floor, x, y, height, band),
        shape.covered_near(floor, x, y, height + 1, band),
    )
}

/// A column's x, its y, and the band.
fn column_of(text: &str) -> Result<(i32, i32, i32), Fail>
    ensures x { IfOk result (λ column. Within MAX_COORDINATE column.0) }
    ensures y { IfOk result (λ column. Within MAX_COORDINATE column.1) }
    ensures band_least { IfOk result (λ column. pos 0 ≤ℤ column.2) }
    ensures band_most { IfOk result (λ column. column.2 ≤ℤ MAX_RADIUS) }
{
    let (x, others) = first_word(text)?;
    let (y, band) = first_word(others)?;
    Ok((coordinate(x)?, coordinate(y)?, number(band, 0, MAX_RADIUS)?))
}

/// How a column is covered by all triangles, and by those near it.
fn covers(shape: &SortedPart, floor: i32, column: &str, height: i32) -> Result<(Cover, Cover), Fail>
    requires floor_ok { Within MAX_COORDINATE floor }
    requires height_ok { Within MAX_COORDINATE height }
{
    let (x, y, band) = column_of(column)?;
    Ok((
        cover(shape.part(), floor, x, y, band, height),
        cover_near(shape, floor, x, y, band, height),
    ))
}

/// Looks at the column of a row's text: it's covered up to a height and no higher.
fn look_at<R: Abort>(
    rt: &R,
    shape: &SortedPart,
    floor: i32,
    column: &str,
    wanted: &str,
    row: &str,
) -> Result<(), Fail>
    requires { Within MAX_COORDINATE floor }
{
    let height = coordinate(wanted)?;
    let found = covers(shape, floor, column, height)?;
    let wanted = (height, true, false);
    assert_eq!(rt; found, (wanted, wanted), "{row}");
    Ok(())
}

fn look_at_column<R: Abort>(rt: &R, shape: &SortedPart, floor: i32, row: &str) -> Result<(), Fail>
    requires { Within MAX_COORDINATE floor }
{
    let (column, wanted) = halves(row)?;
    look_at(rt, shape, floor, column, wanted, row)
}

/// Looks at many columns: each row has x, y and the band, and the height up to which that column is
/// covered.
fn look_at_each<R: Abort>(rt: &R, shape: &SortedPart, floor: i32, table: &str) -> Result<(), Fail>
    requires { Within MAX_COORDINATE floor }
{
    for row in table.lines() {
        look_at_column(rt, shape, floor, row)?;
    }
    Ok(())
}

/// The same of the columns of a part by its triangles.
fn each_column<R: Abort + AllocGlobal>(
    rt: &R,
    floor: i32,
    part: &str,
    table: &str,
) -> Result<(), Fail>
    requires { Within MAX_COORDINATE floor }
{
    let shape = part_of(rt.alloc(), part)?;
    look_at_each(rt, &shape, floor, table)
}

/// Looks at a column of a part of one triangle, over a floor at -50.
fn look_at_triangle<R: Abort + AllocGlobal>(rt: &R, row: &str) -> Result<(), Fail> {
    let (text, wanted) = halves(row)?;
    let (corners, column) = placed(text);
    let shape = part_of(rt.alloc(), corners)?;
    look_at(rt, &shape, -50, column, wanted, row)
}

/// The same of many parts: each row has the triangle, the column and the height.
fn each_triangle<R: Abort + AllocGlobal>(rt: &R, table: &str) -> Result<(), Fail> {
    for row in table.lines() {
        look_at_triangle(rt, row)?;
    }
    Ok(())
}

const PLATE: &str = "0 0 200, 200 0 200, 200 200 200; 0 0 200, 200 200 200, 0 200 200";

// Without a band, and within one.
const PLATE_COLUMNS: &str = "\
100 100 0 => 200
0 0 0 => 200
200 200 0 => 200
50 150 0 => 200
201 0 0 => 0
-1 100 0 => 0
100 100 10000 => 200
250 100 0 => 0
250 100 50 => 0
250 100 51 => 200
230 240 50 => 0
230 240 51 => 200
999 999 0 => 0";

#[test]
fn covers_columns(rt: HostRuntime) -> Result<(), Fail> {
    each_column(&rt, 0, PLATE, PLATE_COLUMNS)?;
    each_column(&rt, 300, PLATE, "100 100 0 => 300")?;
    covered_below();
    Ok(())
}

#[test]
fn covers_up_to_any_height(rt: HostRuntime) -> Result<(), Fail> {
    let shape = part_of(rt.alloc(), PLATE)?;
    let part = shape.part();
    let found = (
        part.covered(0, 100, 100, i32::MIN, 10),
        part.covered(0, 100, 100, i32::MAX, 10),
        shape.covered_near(0, 100, 100, i32::MIN, 10),
        shape.covered_near(0, 100, 100, i32::MAX, 10),
    );
    assert_eq!(rt; found, (true, false, true, false));
    Ok(())
}

// A slope rises by 1 over 2: the greatest height nearer than 100 lies between its corners. Then a point,
// and triangles that slope, that stand, and whose corners lie on one line, of which some lie in it.
const TRIANGLES: &str = "\
0 -1000 0, 0 1000 0, 1000 0 500 at 300 0 0 => 150
0 -1000 0, 0 1000 0, 1000 0 500 at 300 0 1 => 150
0 -1000 0, 0 1000 0, 1000 0 500 at 300 0 2 => 150
0 -1000 0, 0 1000 0, 1000 0 500 at 300 0 3 => 151
0 -1000 0, 0 1000 0, 1000 0 500 at 300 0 100 => 199
0 -1000 0, 0 1000 0, 1000 0 500 at 300 0 101 => 200
0 -1000 0, 0 1000 0, 1000 0 500 at 950 0 51 => 500
0 -1000 0, 0 1000 0, 1000 0 500 at 1050 0 50 => -50
0 -1000 0, 0 1000 0, 1000 0 500 at 1050 0 51 => 500
0 0 -7 at 3 4 5 => -50
0 0 -7 at 3 4 6 => -7
0 0 -7 at 0 0 0 => -7
0 0 0, 3 0 10, 0 3 0 at 1 1 0 => 3
0 0 0, 3 0 10, 0 3 0 at 2 0 0 => 6
0 0 0, 3 0 10, 0 3 0 at 3 1 0 => -50
0 0 0, 0 3 0, 3 0 -10 at 1 1 0 => -4
5 5 7 at 5 5 0 => 7
5 5 7 at 5 6 0 => -50
0 0 0, 10 0 0, 5 0 20 at 5 0 0 => 20
0 0 0, 10 0 0, 5 0 20 at 2 0 0 => 8
0 0 0, 10 0 0, 5 0 20 at 5 1 0 => -50
0 0 0, 0 10 10, 0 4 9 at 0 2 0 => 4
0 0 0, 0 10 10, 0 4 9 at 0 7 0 => 9
0 0 5, 10 10 5, 4 4 9 at 5 5 0 => 8
0 0 5, 10 10 5, 4 4 9 at 5 6 0 => -50";

#[test]
fn covers_by_one_triangle(rt: HostRuntime) -> Result<(), Fail> {
    each_triangle(&rt, TRIANGLES)
}

// Two plates over squares of 256, and a post at (512, 1000) between them. The cells are of 512, so that
// the post and a plate's edge lie on their borders.
const PLATES: &str = "\
0 0 200, 256 0 200, 256 256 200; \
0 0 200, 256 256 200, 0 256 200; \
768 0 300, 1024 0 300, 1024 256 300; \
768 0 300, 1024 256 300, 768 256 300; \
512 1000 500, 512 1000 -40, 512 1000 90";

const PLATES_COLUMNS: &str = "\
100 100 0 => 200
256 100 0 => 200
257 100 0 => 0
256 256 0 => 200
768 256 0 => 300
512 100 256 => 0
512 100 257 => 300
512 1000 0 => 500
513 1000 1 => 0
513 1000 2 => 500
513 1000 800 => 500
-600 -800 1000 => 0
-600 -800 1001 => 200
100000 5 10000 => 0
-524287 524287 10000 => 0";

fn cell_size(alloc: Global, part: &str) -> Result<i32, Fail> {
    Ok(Cells::size_for(part_of(alloc, part)?.part().tris()))
}

#[test]
fn covers_by_near_triangles(rt: HostRuntime) -> Result<(), Fail> {
    assert_eq!(rt; cell_size(rt.alloc(), PLATES)?, 512);
    each_column(&rt, 0, PLATES, PLATES_COLUMNS)
}

/// The top of a part, and how many triangles it has.
fn top_of(alloc: Global, part: &str) -> Result<(Option<i32>, usize), Fail> {
    let part = part_of(alloc, part)?;
    let part = part.part();
    Ok((part.top(), part.tris().len()))
}

#[test]
fn has_a_top(rt: HostRuntime) -> Result<(), Fail> {
    let alloc = rt.alloc();
    let found = (
        top_of(alloc, "nothing")?,
        top_of(alloc, "0 0 3, 4 0 9, 0 4 -5")?,
    );
    assert_eq!(rt; found, ((None, 0), (Some(9), 1)));
    Ok(())
}
