// `sample`: its line, whatever the workers. No file is read.
ghost use Rattle.std.specs.Prelude.{IfOk};
ghost use Rattle.mill_run.specs.SamplePart.{IsSample};

use crate::tests::failures::each_tells;
use crate::tests::same;
use mill_base::Tri;
use mill_load::Setup;
use mill_run::sample_setup;
use std::alloc::Global;
use std::process::Abort;
use std::test::Fail;

// The first read would fail.
const SAMPLES: &str =
    r"sample --workers=1 1, out 1000 0, 200 => 0 sample 1 triangles 2 columns 9 moves 42 left 0.03
sample --workers=4 1, out 1000 0, 200 => 0 sample 1 triangles 2 columns 9 moves 42 left 0.03";

#[test]
fn verifies_a_sample(rt: HostRuntime) -> Result<(), Fail> {
    each_tells(&rt, rt.alloc(), SAMPLES)
}

fn sample_of(alloc: Global, size: u32) -> Result<Setup, Fail>
    ensures { IfOk result (λ setup. IsSample size setup.job.fields setup.part) }
{
    if size == 0 || size > 100 {
        return Err("no such size".into());
    }
    Ok(sample_setup(alloc, size)?)
}

/// The height of the first corner at this place.
fn height_at(tris: &[Tri], x: i32, y: i32) -> Option<i32> {
    for tri in tris {
        for corner in [tri.a, tri.b, tri.c] {
            if corner.x == x && corner.y == y {
                return Some(corner.z);
            }
        }
    }
    None
}

fn told_height(alloc: Global, given: &str) -> Result<String, Fail> {
    let (size, place) = given.split_once(" at ").ok_or("a row without a place")?;
    let (x, y) = place.split_once(' ').ok_or("a place of one number")?;
    let sample = sample_of(alloc, size.parse()?)?;
    let height = height_at(sample.part.tris(), x.parse()?, y.parse()?);
    Ok(format!(in alloc; "{}", height.ok_or("no corner there")?)?)
}

fn look_at_height<R: Abort>(rt: &R, alloc: Global, row: &str) -> Result<(), Fail> {
    let (given, wanted) = row.split_once(" => ").ok_or("a row without =>")?;
    same(rt, &told_height(alloc, given)?, wanted, row);
    Ok(())
}

// The part of a size, a place in it, and how high it is there.
const HEIGHTS: &str = "2 at 200 0 => 128
2 at 200 100 => 111
2 at 0 200 => 112
2 at 100 200 => 129
2 at 200 200 => 120";

#[test]
fn makes_the_sample_part(rt: HostRuntime) -> Result<(), Fail> {
    for row in HEIGHTS.lines() {
        look_at_height(&rt, rt.alloc(), row)?;
    }
    Ok(())
}
