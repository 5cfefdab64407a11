ghost use Rattle.std.specs.Prelude.{◌≡◌, ◌<◌, ◌≤◌, ◌++◌, [], ◌∷◌, length};
ghost use Rattle.mill_job.specs.declared.limits.TheConstants.{MAX_FIXTURES};

use crate::limits::MAX_FIXTURES;
use mill_base::Box2;
use std::marker::Model;

/// A box that the machine has to keep out of, as a clamp, a vice or a pin: over a rectangle, and
/// from below up to a height. All of it is in units.
#[derive(Clone, Copy, Debug, PartialEq, Eq)]
pub struct Fixture {
    /// The rectangle over which it stands, with x0 at most x1 and y0 at most y1.
    pub area: Box2,
    /// The height of its upper face.
    pub height: i32,
}

/// What stands in the places behind a job's last fixture.
const BLANK: Fixture = Fixture {
    area: Box2 {
        x0: 0,
        y0: 0,
        x1: 0,
        y1: 0,
    },
    height: 0,
};

/// The fixtures of a job, from the first to the last, at most 64, kept in place.
///
/// Behind the last there are blank ones, so that equal lists are equal in memory too.
#[derive(Clone, Copy, Debug, PartialEq, Eq)]
pub struct Fixtures {
    boxes: [Fixture; MAX_FIXTURES],
    count: usize,
}

impl Model for Fixtures {
    ghost use Rattle.std.specs.Prelude.{◌++◌, List, take, length};
    ghost use Rattle.std.proofs.lemmas.List.{length-take-le};
    ghost use Rattle.mill_job.specs.Blank.{blank};
    ghost use Rattle.mill_job.specs.Filled.{IsFilled, blanks, filled};
    ghost use Rattle.mill_job.specs.declared.fixtures.Fixture.{Fixture};
    ghost use Rattle.mill_job.specs.declared.limits.TheConstants.{MAX_FIXTURES};

    ghost Value = { List Fixture };

    ghost view = { λ fixtures. take fixtures.count fixtures.boxes };

    ghost invariant = { λ fixtures. IsFilled MAX_FIXTURES blank fixtures.count fixtures.boxes };

    ghost inverse = { λ boxes. record {
      boxes = boxes ++ blanks MAX_FIXTURES blank (length boxes);
      count = length boxes;
    } };

    ghost inverse_ok = { λ fixtures h i. record {
      boxes = filled MAX_FIXTURES blank fixtures.count fixtures.boxes h i;
      count = length-take-le fixtures.count fixtures.boxes h.few i;
    } };
}

impl Fixtures {
    /// No fixtures.
    pub const NONE: Fixtures = Fixtures {
        boxes: [BLANK; MAX_FIXTURES],
        count: 0,
    };

    /// The fixtures in their order.
    pub fn as_slice(&self) -> &[Fixture]
        ensures list { result.now ≡ self.now }
        ensures few { length self.now ≤ MAX_FIXTURES }
    {
        &self.boxes[..self.count]
    }

    /// Adds a fixture behind the last.
    pub fn push(&mut self, fixture: Fixture)
        requires { length self.old < MAX_FIXTURES }
        ensures { self.new ≡ self.old ++ fixture ∷ [] }
    {
        self.boxes[self.count] = fixture;
        self.count += 1;
    }
}
