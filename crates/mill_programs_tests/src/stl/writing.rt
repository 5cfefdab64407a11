//! Triangles that are written, and read back.
use mill_base::Unit;
use mill_decimal::Snap;
use mill_stl::{read_stl, write_stl};
use std::alloc::Global;
use std::process::Abort;
use std::test::Fail;

const NO_TRIANGLE: &str = "solid stock
endsolid stock
";

const SQUARE: &str = "solid stock
facet normal 0 0 1
outer loop
vertex 0.00 0.00 2.00
vertex 1.00 0.00 2.00
vertex 1.00 1.00 2.00
endloop
endfacet
facet normal 0 0 1
outer loop
vertex 0.00 0.00 2.00
vertex 1.00 1.00 2.00
vertex 0.00 1.00 2.00
endloop
endfacet
endsolid stock
";

const FARTHEST: &str = "solid stock
facet normal 0 0 1
outer loop
vertex -1310.71 1310.71 -0.05
vertex 0.99 -1.00 10.00
vertex -9.99 100.00 -1000.00
endloop
endfacet
endsolid stock
";

const FARTHEST_THOUSANDTHS: &str = "solid stock
facet normal 0 0 1
outer loop
vertex -524.287 524.287 -0.005
vertex 0.999 -1.000 10.000
vertex -9.999 0.000 -100.000
endloop
endfacet
endsolid stock
";

// What a part's text is written as.
fn written(alloc: Global, text: &str, snap: Snap, unit: Unit) -> Result<Vec<u8>, Fail> {
    let read = read_stl(alloc, text.as_bytes(), snap, unit)?;
    Ok(write_stl(alloc, read.tris.as_slice(), unit)?)
}

fn is_written<R: Abort>(
    rt: &R,
    alloc: Global,
    text: &str,
    snap: Snap,
    unit: Unit,
    wanted: &str,
) -> Result<(), Fail> {
    let written = written(alloc, text, snap, unit)?;
    assert_eq!(rt; written.as_slice(), wanted.as_bytes(), "{text}");
    Ok(())
}

fn is_written_again<R: Abort>(rt: &R, alloc: Global, text: &str, unit: Unit) -> Result<(), Fail> {
    is_written(rt, alloc, text, Snap::Exact, unit, text)
}

// What is written is written again as it is.
#[test]
fn writes_what_it_reads(rt: HostRuntime) -> Result<(), Fail> {
    is_written_again(&rt, rt.alloc(), NO_TRIANGLE, Unit::Hundredth)?;
    is_written_again(&rt, rt.alloc(), NO_TRIANGLE, Unit::Thousandth)?;
    is_written_again(&rt, rt.alloc(), SQUARE, Unit::Hundredth)?;
    is_written_again(&rt, rt.alloc(), FARTHEST, Unit::Hundredth)?;
    is_written_again(&rt, rt.alloc(), FARTHEST_THOUSANDTHS, Unit::Thousandth)
}

// A part that came with other normals, words and line ends, and finer than the unit.
const GIVEN: &str =
    "SOLID a\r\nFACET NORMAL nan 1 -1e3 outer loop\r\n\tvertex 0 .001 2\r\n\tvertex 1e0 -0.0 1.999
vertex +1 001 2 endloop endfacet\r\nendsolid b\r\nsolid c\r\nendsolid";

const IN_ONE_FORM: &str = "solid stock
facet normal 0 0 1
outer loop
vertex 0.00 0.00 2.00
vertex 1.00 0.00 2.00
vertex 1.00 1.00 2.00
endloop
endfacet
endsolid stock
";

#[test]
fn writes_in_one_form(rt: HostRuntime) -> Result<(), Fail> {
    let unit = Unit::Hundredth;
    is_written(&rt, rt.alloc(), GIVEN, Snap::Nearest, unit, IN_ONE_FORM)
}

#[test]
fn reads_the_same_from_one_form(rt: HostRuntime) -> Result<(), Fail> {
    let unit = Unit::Hundredth;
    let given = read_stl(rt.alloc(), GIVEN.as_bytes(), Snap::Nearest, unit)?;
    let again = read_stl(rt.alloc(), IN_ONE_FORM.as_bytes(), Snap::Exact, unit)?;
    let found = (again.tris.as_slice(), again.rounded);
    assert_eq!(rt; found, (given.tris.as_slice(), 0));
    Ok(())
}
