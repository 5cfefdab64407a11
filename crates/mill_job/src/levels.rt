ghost use Rattle.std.specs.Prelude.{◌≡◌, ◌<◌, ◌≤◌, ◌++◌, [], ◌∷◌, length};
ghost use Rattle.mill_job.specs.declared.limits.TheConstants.{MAX_LEVELS};

use crate::limits::MAX_LEVELS;
use std::marker::Model;

/// The heights of a job's waterlines, from the first to the last, at most 64, kept in place.
///
/// Behind the last there are zeros, so that equal lists are equal in memory too.
#[derive(Clone, Copy, Debug, PartialEq, Eq)]
pub struct Levels {
    heights: [i32; MAX_LEVELS],
    count: usize,
}

impl Model for Levels {
    ghost use Rattle.std.specs.Prelude.{◌++◌, ℤ, pos, List, take, length};
    ghost use Rattle.std.proofs.lemmas.List.{length-take-le};
    ghost use Rattle.mill_job.specs.Filled.{IsFilled, blanks, filled};
    ghost use Rattle.mill_job.specs.declared.limits.TheConstants.{MAX_LEVELS};

    ghost Value = { List ℤ };

    ghost view = { λ levels. take levels.count levels.heights };

    ghost invariant = { λ levels. IsFilled MAX_LEVELS (pos 0) levels.count levels.heights };

    ghost inverse = { λ heights. record {
      heights = heights ++ blanks MAX_LEVELS (pos 0) (length heights);
      count = length heights;
    } };

    ghost inverse_ok = { λ levels h i. record {
      heights = filled MAX_LEVELS (pos 0) levels.count levels.heights h i;
      count = length-take-le levels.count levels.heights h.few i;
    } };
}

impl Levels {
    /// No levels.
    pub const NONE: Levels = Levels {
        heights: [0; MAX_LEVELS],
        count: 0,
    };

    /// The heights in their order.
    pub fn as_slice(&self) -> &[i32]
        ensures list { result.now ≡ self.now }
        ensures few { length self.now ≤ MAX_LEVELS }
    {
        &self.heights[..self.count]
    }

    /// Adds a height behind the last.
    pub fn push(&mut self, height: i32)
        requires { length self.old < MAX_LEVELS }
        ensures { self.new ≡ self.old ++ height ∷ [] }
    {
        self.heights[self.count] = height;
        self.count += 1;
    }
}
