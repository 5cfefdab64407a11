//! The parts of the tests.
use std::test::Fail;

/// A plate at the height 200 over the square, of two triangles.
const PLATE: &str = "0 0 200, 300 0 200, 300 300 200; 0 0 200, 300 300 200, 0 300 200";

/// The same with a gap between the two.
const PARTED: &str = "150 0 200, 300 0 200, 300 300 200; 0 0 200, 50 300 200, 0 300 200";

/// One triangle at the height 201, which covers the square that is far out.
const FAR_PLATE: &str = "199900 -100 201, 200200 -100 201, 199900 200 201";

/// The sample part of size 1: a square whose corners are 100, 107, 113 and 125 high.
const SAMPLE: &str = "0 0 100, 100 0 107, 100 100 125; 0 0 100, 100 100 125, 0 100 113";

/// The triangles of a part by its name. A peak is one point at the height 300.
pub(crate) fn corners_of(name: &str) -> Result<&'static str, Fail> {
    match name {
        "plate" => Ok(PLATE),
        "parted" => Ok(PARTED),
        "far-plate" => Ok(FAR_PLATE),
        "sample" => Ok(SAMPLE),
        "peak" => Ok("500 500 300, 500 500 300, 500 500 300"),
        "corner-peak" => Ok("0 0 300, 0 0 300, 0 0 300"),
        "strip-peak" => Ok("60 50 140, 60 50 140, 60 50 140"),
        "middle-peak" => Ok("1000 1000 300, 1000 1000 300, 1000 1000 300"),
        "nothing" => Ok("nothing"),
        _ => Err(Fail::from("no such part")),
    }
}
