//! The runs that were found so far along a fiber.
ghost use Rattle.std.specs.Prelude.{◌≡◌, ◌<◌, ◌≤ℤ◌, ◌<ℤ◌, ℤ, length, [], Contains, IfOk, IfSome, OnOk, IsTrue};
ghost use Rattle.mill_push.specs.Runs.{StandsIn};
ghost use Rattle.mill_push.specs.inner.Known.{AreInRange, AreJoined, IsAt, IsGrown, IsHull, IsInside, IsJoint, IsRest, IsRunInRange};

use crate::fiber::Run;
use mill_base::WantOfMemory;
use std::alloc::Global;

/// How many binary digits the count of a fiber's parts has at most.
const PART_BITS: u32 = 10;

/// How many runs are cut off at most at each end of a window.
const MOST_CUTS: u32 = 8;

/// The runs that were found so far along a fiber, which may overlap or touch.
///
/// The fiber is divided into equal parts, and of each it keeps the number of the run that was found
/// there last: so a run that holds a position is mostly found at once. The parts tell only where to
/// look.
#[derive(Drop)]
pub struct Known {
    pub runs: Vec<Run>,
    /// Where the first part begins.
    from: i32,
    /// A part has two to this power positions.
    part_bits: u32,
    latest: Vec<u32>,
}

impl Known {
    /// No runs, along a fiber from `from` to `to`. The only error is want of memory.
    pub fn new(alloc: Global, from: i32, to: i32) -> Result<Known, WantOfMemory>
        ensures { IfOk result (λ known. known.runs.items ≡ []) }
    {
        let length = from.abs_diff(to);
        let part_bits = length.max(1).ilog2().saturating_sub(PART_BITS - 1);
        let count = length.wrapping_shr(part_bits) as usize + 1;
        Ok(Known {
            runs: Vec::new(alloc),
            from,
            part_bits,
            latest: vec![in alloc; u32::MAX; count]?,
        })
    }

    /// The number of the part in which a position lies.
    fn part(&self, at: i32) -> usize {
        at.abs_diff(self.from).wrapping_shr(self.part_bits) as usize
    }

    /// The number of the run that was found last near a position, if there is one.
    fn number_near(&self, at: i32) -> Option<usize>
        ensures { IfSome result (λ number. number < length self.now.runs.items) }
    {
        let number = *self.latest.get(self.part(at))? as usize;
        if number < self.runs.len() {
            Some(number)
        } else {
            None
        }
    }

    /// A run that holds the position, if one was found there last.
    pub fn run_at(&self, at: i32) -> Option<Run>
        ensures known { IfSome result (Contains self.now.runs.items) }
        ensures at { IfSome result (λ run. IsAt run at) }
    {
        let run = self.runs[self.number_near(at)?];
        if run.first <= at && at <= run.last {
            Some(run)
        } else {
            None
        }
    }

    /// A run that holds the position and lies inside the rest of a window, with a position of the rest
    /// before it and one after it.
    pub fn run_inside(&self, rest: Run, at: i32) -> Option<Run>
        ensures known { IfSome result (Contains self.now.runs.items) }
        ensures inside { IfSome result (IsInside rest) }
    {
        let run = self.run_at(at)?;
        if rest.first < run.first && run.last < rest.last {
            Some(run)
        } else {
            None
        }
    }

    /// The rest of a window: where known runs hold an end of it, what they hold is cut off. Nothing is
    /// left where its first position is after its last one.
    pub fn cut(&self, window: Run) -> Run
        requires { AreInRange self.now.runs.items }
        ensures { IsRest self.now.runs.items window result }
    {
        Run {
            first: self.first_after(window.first),
            last: self.last_before(window.last),
        }
    }

    /// A position from `first` on: those before it are known.
    fn first_after(&self, first: i32) -> i32
        requires { AreInRange self.now.runs.items }
        ensures after { first ≤ℤ result }
        ensures cut { (v : ℤ) → first ≤ℤ v → v <ℤ result → StandsIn self.now.runs.items v }
    {
        let mut after = first;
        for _ in 0..MOST_CUTS {
            let Some(run) = self.run_at(after) else {
                return after;
            };
            after = run.last + 1;
        }
        after
    }

    /// A position up to `last`: those after it are known.
    fn last_before(&self, last: i32) -> i32
        requires { AreInRange self.now.runs.items }
        ensures before { result ≤ℤ last }
        ensures cut { (v : ℤ) → result <ℤ v → v ≤ℤ last → StandsIn self.now.runs.items v }
    {
        let mut before = last;
        for _ in 0..MOST_CUTS {
            let Some(run) = self.run_at(before) else {
                return before;
            };
            before = run.first - 1;
        }
        before
    }

    /// Adds a stretch: it is joined to a run that it overlaps or touches, or becomes a run of its own.
    pub fn add(&mut self, stretch: Run) -> Result<(), WantOfMemory>
        requires runs_ok { AreInRange self.old.runs.items }
        requires stretch_ok { IsRunInRange stretch }
        ensures { OnOk result (IsGrown self.old.runs.items stretch self.new.runs.items) }
    {
        let Some(number) = self.joined(stretch) else {
            self.note(stretch, self.count());
            self.runs.push(stretch)?;
            return Ok(());
        };
        let run = &mut self.runs[number];
        *run = hull(*run, stretch);
        self.note(stretch, number);
        Ok(())
    }

    /// How many runs there are.
    fn count(&self) -> usize {
        self.runs.len()
    }

    /// The number of a run that the stretch overlaps or touches.
    fn joined(&self, stretch: Run) -> Option<usize>
        requires runs_ok { AreInRange self.now.runs.items }
        requires stretch_ok { IsRunInRange stretch }
        ensures { IfSome result (IsJoint self.now.runs.items stretch) }
    {
        for at in [stretch.first - 1, stretch.last + 1] {
            if let Some(number) = self.number_near(at) {
                if are_joined(self.runs[number], stretch) {
                    return Some(number);
                }
            }
        }
        None
    }

    /// Keeps that this run was found last where the stretch is.
    fn note(&mut self, stretch: Run, number: usize)
        ensures { self.new.runs ≡ self.old.runs }
    {
        let number = u32::try_from(number).unwrap_or(u32::MAX);
        let end = self
            .latest
            .len()
            .min(self.part(stretch.last).saturating_add(1));
        for part in self.part(stretch.first)..end {
            self.latest[part] = number;
        }
    }
}

/// Whether two runs overlap or touch.
fn are_joined(a: Run, b: Run) -> bool
    requires a_ok { IsRunInRange a }
    requires b_ok { IsRunInRange b }
    ensures { IsTrue result → AreJoined a b }
{
    a.first <= b.last + 1 && b.first <= a.last + 1
}

/// From the lesser first position of two runs to the greater last one.
fn hull(a: Run, b: Run) -> Run
    requires { AreJoined a b }
    ensures { IsHull a b result }
{
    Run {
        first: a.first.min(b.first),
        last: a.last.max(b.last),
    }
}
