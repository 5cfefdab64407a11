//! How many touches a push makes.
ghost use Rattle.std.specs.Prelude.{◌≡◌, ◌+◌, ◌≤◌, ◌<◌, ◌<ℤ◌, ◌≤ℤ◌, pos, [], ◌∷◌, IfOk};
ghost use Rattle.mill_base.specs.Numbers.{Within};
ghost use Rattle.mill_base.specs.declared.limits.TheConstants.{MAX_COORDINATE};
ghost use Rattle.mill_base.specs.Points.{point_at, point_tri};
ghost use Rattle.mill_base.specs.Ranges.{IsInRange, TriInRange};
ghost use Rattle.mill_push.specs.Touches.{IsFiber};

use super::told;
use mill_base::{Cutter, Pt3, Solid, Steps, Tool, Tri};
use mill_part::{Part, SortedPart};
use mill_push::{Axis, Fiber, Run, Side, Touch, counted_touch, push};
use std::marker::Brand;
use std::sync::ledger::{Blank, Ledger};
use std::test::Fail;

const FLAT: Cutter = Cutter::Flat { radius: 100 };

fn at(x: i16, y: i16, z: i16) -> Pt3
    ensures point_ok { IsInRange result }
    ensures value { result ≡ point_at x y z }
{
    Pt3 {
        x: i32::from(x),
        y: i32::from(y),
        z: i32::from(z),
    }
}

fn fiber(axis: Axis, across: i16, z: i16) -> Fiber
    ensures fiber_ok { IsFiber result }
    ensures axis { result.axis ≡ axis }
    ensures at { result.at ≡ across }
    ensures z { result.z ≡ z }
{
    Fiber {
        axis,
        at: i32::from(across),
        z: i32::from(z),
    }
}

/// The triangle of three equal points, at the height 300.
fn point(x: i16) -> Tri
    ensures tri_ok { TriInRange result }
    ensures value { result ≡ point_tri (point_at x (pos 0) (pos 300)) }
{
    Tri {
        a: at(x, 0, 300),
        b: at(x, 0, 300),
        c: at(x, 0, 300),
    }
}

/// The part of one triangle.
fn part_of<R: AllocGlobal>(rt: &R, tri: Tri) -> Result<SortedPart, Fail>
    requires { TriInRange tri }
    ensures { IfOk result (λ part. part ≡ tri ∷ []) }
{
    let mut tris = Vec::new(rt.alloc());
    tris.push(tri)?;
    Ok(SortedPart::new(rt.alloc(), Part::new(tris))?)
}

/// What two touches of the point at 500 tell, at 401 and at 400.
fn two_touches<L: Ledger>(steps: &mut Steps<L>) -> (Touch, Touch)
    ensures { steps.new ≡ steps.old + 2 }
{
    let tri = point(500);
    let held = counted_touch(&tri, FLAT, at(401, 0, 0), Axis::X, steps);
    let free = counted_touch(&tri, FLAT, at(400, 0, 0), Axis::X, steps);
    (held, free)
}

/// The same, by a counter of its own.
fn touches<L: Ledger>(blank: Blank) -> (Touch, Touch)
    requires name { blank.name ≡ L.name }
    requires parts { blank.parts ≡ L.parts }
    requires some { 0 < blank.parts }
{
    let mut steps = Steps::<L>::new(blank);
    two_touches(&mut steps)
}

// At 400 the cutter is to the left of the point, and so it is at every lesser position.
#[test]
fn one_step_a_touch(rt: HostRuntime) {
    let (held, free) = touches::<Brand>(Blank::new(1));
    assert_eq!(rt; held, Touch::Inside);
    assert_eq!(rt; free, Touch::Apart(Side::More));
}

/// The runs of the flat cutter over the point at 500, along X between two ends as far from 0. The
/// point isn't touched where it is more than a radius beside the fiber, or not over it.
fn over_point<L: Ledger, R: AllocGlobal>(
    rt: &R,
    across: i16,
    z: i16,
    far: i32,
    steps: &mut Steps<L>,
) -> Result<Vec<Run>, Fail>
    requires far_ok { Within MAX_COORDINATE far }
    requires far_least { (pos 0) ≤ℤ far }
    ensures most { steps.new ≤ steps.old + 40 }
    ensures beside { (pos 100) <ℤ across → steps.new ≤ steps.old }
    ensures over { (pos 300) ≤ℤ z → steps.new ≤ steps.old }
{
    let part = part_of(rt, point(500))?;
    let tool = Tool::bare(Solid::at_tip(FLAT));
    let runs = push(
        rt.alloc(),
        &part,
        &tool,
        fiber(Axis::X, across, z),
        -far,
        far,
        steps,
    )?;
    Ok(runs)
}

/// The same, by a counter of its own.
fn runs_over_point<L: Ledger, R: AllocGlobal>(
    rt: &R,
    across: i16,
    z: i16,
    far: i32,
    blank: Blank,
) -> Result<Vec<Run>, Fail>
    requires far_ok { Within MAX_COORDINATE far }
    requires far_least { (pos 0) ≤ℤ far }
    requires name { blank.name ≡ L.name }
    requires parts { blank.parts ≡ L.parts }
    requires some { 0 < blank.parts }
{
    let mut steps = Steps::<L>::new(blank);
    over_point(rt, across, z, far, &mut steps)
}

// The widest window has 2^20 - 1 positions, so twice 20 touches are enough for it.
#[test]
fn widest_window(rt: HostRuntime) -> Result<(), Fail> {
    let runs = runs_over_point::<Brand, _>(&rt, 0, 0, 524_287, Blank::new(1))?;
    assert_eq!(rt; told(rt.alloc(), &runs)?.as_str(), "401 599");
    Ok(())
}
