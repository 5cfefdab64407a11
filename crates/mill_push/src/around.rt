//! The search for a triangle's stretch about a run that is known.
ghost use Rattle.std.specs.Prelude.{◌+◌, ◌*◌, ◌^◌, ◌<◌, ◌≤◌, ◌+ℤ◌, ◌∷◌, [], ℕ, pos};
ghost use Rattle.mill_base.specs.Ranges.{TriInRange};
ghost use Rattle.mill_push.specs.Fibers.{IsTouched};
ghost use Rattle.mill_push.specs.Touches.{position_count};
ghost use Rattle.mill_push.specs.inner.Known.{IsInside, IsNewAnswer, IsNewStretch, IsRunInRange};
ghost use Rattle.mill_push.specs.inner.Pushers.{IsPusher};

use crate::fiber::Run;
use crate::stretch::Pusher;
use mill_base::{Steps, Tri};
use mill_geom::{Side, Touch};
use mill_hints::Aims;
use std::sync::ledger::Ledger;

impl Pusher {
    /// Where the triangle is touched in the rest of a window, as far as that isn't in a known run: by a
    /// touch after the run and one before it, and a search for the end beyond each that finds the
    /// triangle.
    ///
    /// Mostly the triangle is touched only where the run is, and two touches tell so.
    pub fn stretch_around<L: Ledger>(
        self,
        tri: &Tri,
        rest: Run,
        run: Run,
        aims: Aims,
        steps: &mut Steps<L>,
    ) -> Option<Run>
        requires self_ok { IsPusher self }
        requires tri_ok { TriInRange tri.now }
        requires rest_ok { IsRunInRange rest }
        requires inside { IsInside rest run }
        ensures stretch { IsNewAnswer self.cutter tri.now self.fiber rest.first rest.last (run ∷
            []) result }
        ensures cost { (n : ℕ) → position_count rest.first rest.last < 2 ^ n →
            steps.new ≤ steps.old + (2 + 2 * n + 2 * aims.probes) }
    {
        let before = run.first - 1;
        let after = run.last + 1;
        match self.touch_at(tri, after, steps) {
            Touch::Inside => Some(self.stretch_past(tri, rest, run, aims, steps)),
            Touch::Apart(Side::Less) => {
                self.stretch_from(tri, rest.first, before, before, aims, steps)
            }
            Touch::Apart(Side::More) => {
                if rest.last <= after {
                    return None;
                }
                self.stretch(tri, after + 1, rest.last, aims, steps)
            }
            Touch::Apart(Side::Never) => None,
        }
    }

    /// The same of a triangle that is touched just after the run.
    fn stretch_past<L: Ledger>(
        self,
        tri: &Tri,
        rest: Run,
        run: Run,
        aims: Aims,
        steps: &mut Steps<L>,
    ) -> Run
        requires self_ok { IsPusher self }
        requires tri_ok { TriInRange tri.now }
        requires rest_ok { IsRunInRange rest }
        requires inside { IsInside rest run }
        requires held { IsTouched self.cutter tri.now self.fiber (run.last +ℤ pos 1) }
        ensures stretch { IsNewStretch self.cutter tri.now self.fiber rest.first rest.last (run ∷
            []) result }
        ensures cost { (n : ℕ) → position_count rest.first rest.last < 2 ^ n →
            steps.new ≤ steps.old + (1 + 2 * n + 2 * aims.probes) }
    {
        let before = run.first - 1;
        let after = run.last + 1;
        let last = self.last_near(tri, after, rest.last, aims, steps);
        if !self.is_touched(tri, before, steps) {
            return Run { first: after, last };
        }
        let first = self.first_near(tri, rest.first, before, aims, steps);
        Run { first, last }
    }
}
