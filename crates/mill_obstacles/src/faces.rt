ghost use Rattle.std.specs.Prelude.{◌≡◌};
ghost use Rattle.mill_base.specs.Ranges.{TriInRange};
ghost use Rattle.mill_base.specs.declared.unit.Unit.{Unit};
ghost use Rattle.mill_job.specs.Fixtures.{IsFixture};
ghost use Rattle.mill_obstacles.specs.Faces.{first_half as first_half_of};
ghost use Rattle.mill_obstacles.specs.Faces.{second_half as second_half_of};

use mill_base::{Box2, Pt3, Tri};
use mill_job::Fixture;

/// The triangle of a fixture's upper face that has its corner (x1, y0).
pub fn first_half(fixture: &Fixture) -> Tri
    requires { (unit : Unit) × IsFixture unit fixture.now }
    ensures value { result ≡ first_half_of fixture.now }
    ensures in_range { TriInRange result }
{
    let Box2 { x0, y0, x1, y1 } = fixture.area;
    let z = fixture.height;
    Tri {
        a: Pt3 { x: x0, y: y0, z },
        b: Pt3 { x: x1, y: y0, z },
        c: Pt3 { x: x1, y: y1, z },
    }
}

/// The triangle that has its corner (x0, y1).
pub fn second_half(fixture: &Fixture) -> Tri
    requires { (unit : Unit) × IsFixture unit fixture.now }
    ensures value { result ≡ second_half_of fixture.now }
    ensures in_range { TriInRange result }
{
    let Box2 { x0, y0, x1, y1 } = fixture.area;
    let z = fixture.height;
    Tri {
        a: Pt3 { x: x0, y: y0, z },
        b: Pt3 { x: x1, y: y1, z },
        c: Pt3 { x: x0, y: y1, z },
    }
}
