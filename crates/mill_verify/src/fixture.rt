ghost use Rattle.std.specs.Prelude.{◌≡◌, ◌≤◌, false, All, length, IsTrue, MatchOption};
ghost use Rattle.mill_base.specs.Ranges.{MoveInRange};
ghost use Rattle.mill_base.specs.declared.unit.Unit.{Unit};
ghost use Rattle.mill_cells.specs.Boxes.{Meet};
ghost use Rattle.mill_job.specs.Fixtures.{IsFixture};
ghost use Rattle.mill_job.specs.declared.limits.TheConstants.{MAX_FIXTURES};
ghost use Rattle.mill_verify.specs.Fixtures.{BlocksSolid, FailsFixture, IsFirstHit, PassesFixture};
ghost use Rattle.mill_verify.specs.Fixtures.{PassesFixtures};
ghost use Rattle.mill_verify.specs.inner.Reaches.{IsReach};

use mill_base::{Box2, Move, Solid};
use mill_job::Fixture;
use mill_obstacles::{first_half, second_half};
use mill_sweep::{Leaf, Sweep, reach_box};

/// A fixture that a solid doesn't pass on a move, and the leaf of the move that its upper face
/// blocks. Fixtures are counted from 0.
#[derive(Clone, Copy)]
pub struct FixtureHit {
    pub fixture: u32,
    pub leaf: Leaf,
}

/// The first fixture that the solid doesn't pass on the tool's move, with the failing leaf; none
/// exactly where it passes them all.
///
/// A fixture is passed where both triangles of its upper face are. Only those are halved for that
/// are near the move and come over the lower end of the solid's way.
pub fn first_hit(solid: Solid, fixtures: &[Fixture], step: &Move) -> Option<FixtureHit>
    requires move_ok { MoveInRange step.now }
    requires few { length fixtures.now ≤ MAX_FIXTURES }
    requires fixtures_ok { (unit : Unit) × All (IsFixture unit) fixtures.now }
    ensures { MatchOption
        result
        (PassesFixtures solid step.now fixtures.now)
        (IsFirstHit solid step.now fixtures.now) }
{
    if fixtures.is_empty() {
        return None;
    }
    let (area, low) = reach_box(solid, step);
    for number in 0..fixtures.len() {
        if let Some(leaf) = hit_of(solid, step, area, low, &fixtures[number]) {
            return Some(FixtureHit {
                fixture: number as u32,
                leaf,
            });
        }
    }
    None
}

/// The leaf at which the solid fails to pass the fixture on the move, which it passes where the
/// fixture doesn't meet the area, or doesn't come over the height.
fn hit_of(solid: Solid, step: &Move, area: Box2, low: i32, fixture: &Fixture) -> Option<Leaf>
    requires reach { IsReach solid step.now area low }
    requires fixture_ok { (unit : Unit) × IsFixture unit fixture.now }
    ensures { MatchOption
        result
        (PassesFixture solid step.now fixture.now)
        (λ leaf. FailsFixture solid step.now fixture.now leaf
        × BlocksSolid solid step.now fixture.now leaf) }
{
    if fixture.height <= low {
        return None;
    }
    if !meets(fixture.area, area) {
        return None;
    }
    face_hit(solid, step, fixture)
}

/// Whether two boxes have a point in common; a box whose ends are the wrong way round has none.
fn meets(one: Box2, other: Box2) -> bool
    ensures { result ≡ false → ¬ Meet one other }
{
    if other.x1 < one.x0 {
        return false;
    }
    if one.x1 < other.x0 {
        return false;
    }
    if other.y1 < one.y0 {
        return false;
    }
    if one.y1 < other.y0 {
        return false;
    }
    true
}

/// The leaf at which the solid fails to pass one of the two triangles of the fixture's upper face,
/// the first where it fails to pass both; none exactly where it passes them.
fn face_hit(solid: Solid, step: &Move, fixture: &Fixture) -> Option<Leaf>
    requires move_ok { MoveInRange step.now }
    requires fixture_ok { (unit : Unit) × IsFixture unit fixture.now }
    ensures { MatchOption
        result
        (PassesFixture solid step.now fixture.now)
        (λ leaf. FailsFixture solid step.now fixture.now leaf
        × BlocksSolid solid step.now fixture.now leaf) }
{
    let sweep = Sweep::new(solid, step);
    if let Some(leaf) = sweep.first_block(&first_half(fixture)) {
        return Some(leaf);
    }
    sweep.first_block(&second_half(fixture))
}
