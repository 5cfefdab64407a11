ghost use Rattle.std.specs.Prelude.{◌≡◌, ◌+◌, ◌*◌, ◌^◌, ◌<◌, ◌≤◌, ◌≤ℤ◌, ℕ, IfOk};
ghost use Rattle.mill_base.specs.Numbers.{Within};
ghost use Rattle.mill_base.specs.declared.limits.TheConstants.{MAX_COORDINATE};
ghost use Rattle.mill_base.specs.Ranges.{TriInRange};
ghost use Rattle.mill_push.specs.inner.Known.{IsNewAnswer};
ghost use Rattle.mill_push.specs.inner.Pushers.{IsPusher};
ghost use Rattle.mill_push.specs.inner.Reaches.{IsReachForPart};
ghost use Rattle.mill_push.specs.Touches.{TouchesFew, position_count, strip_along};
ghost use Rattle.mill_push.specs.inner.Solids.{IsCutterBlocked};
ghost use Rattle.mill_push.specs.inner.Unions.{AreSpans, AreStretches};

use crate::fiber::Run;
use crate::known::Known;
use crate::start::{middle_of, spare_touches, start_in};
use crate::stretch::Pusher;
use mill_base::{Box2, Steps, Tri, WantOfMemory};
use mill_geom::Axis;
use mill_hints::{Aims, Ends};
use mill_part::SortedPart;
use std::alloc::Global;
use std::sync::ledger::Ledger;

impl Pusher {
    /// The rectangle over which the cutter may hold a point of the part from `from` to `to`.
    fn strip(self, from: i32, to: i32) -> Box2
        requires self_ok { IsPusher self }
        requires from_ok { Within MAX_COORDINATE from }
        requires to_ok { Within MAX_COORDINATE to }
        ensures { result ≡ strip_along self.fiber.axis self.fiber.at self.reach from to }
    {
        let reach = self.reach;
        let at = self.fiber.at;
        match self.fiber.axis {
            Axis::X => Box2 {
                x0: from - reach,
                y0: at - reach,
                x1: to + reach,
                y1: at + reach,
            },
            Axis::Y => Box2 {
                x0: at - reach,
                y0: from - reach,
                x1: at + reach,
                y1: to + reach,
            },
        }
    }

    /// Where the triangle is touched from `from` to `to`, as far as that isn't known: a run whose
    /// positions are touched, and beside which none is that doesn't stand in the known runs.
    ///
    /// Only that part of the triangle's window is searched that the known runs leave. Where a known run
    /// lies within it, one touch on each side of the run comes first; else the search begins near the
    /// ends that were kept of the triangle of this number.
    fn new_stretch<L: Ledger>(
        self,
        tri: &Tri,
        number: u32,
        from: i32,
        to: i32,
        known: &Known,
        ends: &Ends,
        steps: &mut Steps<L>,
    ) -> Option<Run>
        requires self_ok { IsPusher self }
        requires tri_ok { TriInRange tri.now }
        requires from_ok { Within MAX_COORDINATE from }
        requires to_ok { Within MAX_COORDINATE to }
        requires order { from ≤ℤ to }
        requires known { AreSpans from to known.now.runs.items }
        ensures stretch { IsNewAnswer self.cutter tri.now self.fiber from to known.now.runs.items
            result }
        ensures cost { (n : ℕ) → position_count from to < 2 ^ n → steps.new ≤ steps.old + 2 * n }
    {
        let window = self.window(tri, from, to);
        let rest = known.cut(window);
        if rest.first > rest.last {
            return None;
        }
        let Some(spare) = spare_touches(rest, from, to) else {
            return self.stretch(tri, rest.first, rest.last, Aims::none(), steps);
        };
        let aims = ends.aims(number).at_most(spare);
        let middle = middle_of(rest, aims);
        if let Some(run) = known.run_inside(rest, middle) {
            return self.stretch_around(tri, rest, run, aims, steps);
        }
        let start = start_in(rest, window, middle);
        self.stretch_from(tri, rest.first, rest.last, start, aims, steps)
    }

    /// Runs that hold the positions from `from` to `to` at which some triangle is touched, and no
    /// other: by a look at those triangles alone whose boxes meet the strip and that are over the
    /// fiber's height, near the ends that were kept of them.
    pub fn stretches<L: Ledger>(
        self,
        alloc: Global,
        part: &SortedPart,
        from: i32,
        to: i32,
        ends: &mut Ends,
        steps: &mut Steps<L>,
    ) -> Result<Vec<Run>, WantOfMemory>
        requires self_ok { IsPusher self }
        requires reach_ok { IsReachForPart self.cutter self.fiber.z self.reach part.now }
        requires from_ok { Within MAX_COORDINATE from }
        requires to_ok { Within MAX_COORDINATE to }
        requires order { from ≤ℤ to }
        ensures stretches { IfOk result (λ runs. AreStretches (IsCutterBlocked self.cutter
            part.now self.fiber) from to runs.items) }
        ensures cost { TouchesFew self.cutter part.now self.fiber from to steps.old steps.new }
    {
        let tris = part.part().tris();
        let mut known = Known::new(alloc, from, to)?;
        let mut near = part.cells().near_rising(self.strip(from, to));
        while let Some(number) = near.next_over(self.fiber.z) {
            let tri = &tris[number as usize];
            let Some(stretch) = self.new_stretch(tri, number, from, to, &known, ends, steps) else {
                continue;
            };
            keep_ends(ends, number, stretch, &known);
            known.add(stretch)?;
        }
        Ok(known.runs)
    }
}

/// Keeps the ends of a triangle's stretch where no known run lies beside them: there the stretch only
/// begins where the run ends.
fn keep_ends(ends: &mut Ends, number: u32, stretch: Run, known: &Known) {
    if known.run_at(stretch.first.saturating_sub(1)).is_none() {
        ends.keep_first(number, stretch.first);
    }
    if known.run_at(stretch.last.saturating_add(1)).is_none() {
        ends.keep_last(number, stretch.last);
    }
}
