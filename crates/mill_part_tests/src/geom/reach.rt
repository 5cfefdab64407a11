use mill_base::MAX_WIDE_RADIUS;
use mill_geom::reaches_cylinder;
use mill_tables::{halves, number, placed, tip, triangle};
use std::process::Abort;
use std::test::Fail;

// Points on the level count: of a level triangle, of an edge and of a corner.
const REACHES: &str = "\
0 0 200, 1000 0 200, 0 1000 200 by 100 at 300 300 200 => true
0 0 200, 1000 0 200, 0 1000 200 by 100 at 300 300 201 => false
0 0 200, 1000 0 200, 0 1000 200 by 100 at -99 500 200 => true
0 0 200, 1000 0 200, 0 1000 200 by 100 at -100 500 200 => false
0 0 200, 1000 0 200, 0 1000 0 by 100 at 500 99 200 => true
0 0 200, 1000 0 200, 0 1000 0 by 100 at 500 100 200 => false
0 0 200, 1000 0 200, 0 1000 0 by 100 at 500 149 190 => true
0 0 200, 1000 0 200, 0 1000 0 by 100 at 500 150 190 => false
0 0 0, 1000 0 0, 0 1000 200 by 50 at 30 1039 200 => true
0 0 0, 1000 0 0, 0 1000 200 by 50 at 30 1040 200 => false
0 0 0, 1000 0 0, 0 1000 200 by 50 at 0 1000 201 => false";

fn look<R: Abort>(rt: &R, row: &str) -> Result<(), Fail> {
    let (text, wanted) = halves(row)?;
    let (text, centre) = placed(text);
    let (text, by) = text.split_once(" by ").ok_or("a row without a radius")?;
    let reaches = reaches_cylinder(
        &triangle(text)?,
        number(by, 1, MAX_WIDE_RADIUS)?,
        tip(centre)?,
    );
    assert_eq!(rt; reaches, wanted == "true", "{row}");
    Ok(())
}

#[test]
fn reaches_the_level(rt: HostRuntime) -> Result<(), Fail> {
    for row in REACHES.lines() {
        look(&rt, row)?;
    }
    Ok(())
}
