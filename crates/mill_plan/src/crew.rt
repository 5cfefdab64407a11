//! Who does the parts of a plan's work that don't wait for one another.
ghost use Rattle.std.specs.Prelude.{◌≡◌, ℕ, ◌≤◌, ℤ, length, All, IfOk, Ok};
ghost use Rattle.mill_base.specs.Covers.{IsUnder};
ghost use Rattle.mill_base.specs.Ranges.{MovesInRange};
ghost use Rattle.mill_base.specs.declared.limits.TheConstants.{MAX_MOVES};
ghost use Rattle.mill_dexel.specs.Stocks.{IsStock};
ghost use Rattle.mill_paths.specs.Visits.{IsVisit};
ghost use Rattle.mill_plan.specs.inner.Feeds.{SayClear};
ghost use Rattle.mill_verify.specs.Claims.{CutsSafely};
ghost use Rattle.mill_verify.specs.Tests.{GoodBefore};
ghost use Rattle.mill_verify.specs.Verdicts.{IsVerdict};

use crate::feeds::{clear_links_alone, clear_links_by_threads};
use mill_base::{Move, WantOfMemory};
use mill_crew::{Alone, Threaded};
use mill_dexel::Row;
use mill_job::Job;
use mill_part::SortedPart;
use mill_paths::{PathCrew, Visit};
use mill_verify::{Verdict, verdict_on_stock, verify};
use std::alloc::Global;
use std::thread::Threads;

/// A crew that plans: beside drop heights, waterlines and paths it tries a plan's links, and gives
/// the verdict on its moves. The verdict is shared by its workers; the links go to as many threads
/// as the machine has processors.
///
/// What is made doesn't depend on it. It is sealed: `Threaded` and `Alone` are such crews, and no
/// other.
pub trait PlanCrew: PathCrew {
    /// For each visit, in their order, whether the link to it is clear, as `goes_clear` says: to
    /// the first from home, and to each other from the visit before it.
    ///
    /// Where the cutter is before a visit is known beforehand, and no answer looks at the stock, so
    /// no feed waits for another.
    fn clear_links(
        &self,
        alloc: Global,
        job: &Job,
        part: &SortedPart,
        visits: &[Visit],
    ) -> Result<Vec<bool>, WantOfMemory>
        requires crew_ok { Self.ready }
        requires visits_ok { All (IsVisit job.now.fields part.now) visits.now }
        ensures say { IfOk result (λ answers. SayClear job.now.fields part.now visits.now
            answers.items) }
        ensures each { IfOk result (λ answers. length answers.items ≡ length visits.now) };

    /// The verdict on these moves.
    fn verify(
        &self,
        alloc: Global,
        job: &Job,
        part: &SortedPart,
        moves: &[Move],
    ) -> Result<Verdict, WantOfMemory>
        requires crew_ok { Self.ready }
        requires moves_ok { MovesInRange moves.now }
        requires under { IsUnder part.now job.now.fields.top }
        requires few { length moves.now ≤ MAX_MOVES }
        ensures verdict { IfOk result (IsVerdict job.now.fields part.now moves.now) }
        ensures safe { (count columns : ℕ) (left : ℤ)
            → result ≡ Ok (Verdict.Accept count columns left)
            → CutsSafely job.now.fields part.now moves.now };

    /// The verdict on these moves, all of which are good, by the rows of the stock that they leave.
    fn verdict_on_stock(
        &self,
        job: &Job,
        part: &SortedPart,
        moves: &[Move],
        rows: &[Row],
    ) -> Verdict
        requires crew_ok { Self.ready }
        requires moves_ok { MovesInRange moves.now }
        requires good { GoodBefore job.now.fields part.now moves.now (length moves.now) }
        requires rows_ok { IsStock job.now.fields moves.now rows.now }
        ensures verdict { IsVerdict job.now.fields part.now moves.now result }
        ensures safe { (count columns : ℕ) (left : ℤ)
            → result ≡ Verdict.Accept count columns left
            → CutsSafely job.now.fields part.now moves.now };
}

impl<'a, R: Threads + Sync> PlanCrew for Threaded<'a, R> {
    fn clear_links(
        &self,
        alloc: Global,
        job: &Job,
        part: &SortedPart,
        visits: &[Visit],
    ) -> Result<Vec<bool>, WantOfMemory> {
        clear_links_by_threads(self.rt, alloc, job, part, visits)
    }

    fn verify(
        &self,
        alloc: Global,
        job: &Job,
        part: &SortedPart,
        moves: &[Move],
    ) -> Result<Verdict, WantOfMemory> {
        verify(self, alloc, job, part, moves)
    }

    fn verdict_on_stock(
        &self,
        job: &Job,
        part: &SortedPart,
        moves: &[Move],
        rows: &[Row],
    ) -> Verdict {
        verdict_on_stock(self, job, part, moves, rows)
    }
}

impl PlanCrew for Alone {
    fn clear_links(
        &self,
        alloc: Global,
        job: &Job,
        part: &SortedPart,
        visits: &[Visit],
    ) -> Result<Vec<bool>, WantOfMemory> {
        clear_links_alone(alloc, job, part, visits)
    }

    fn verify(
        &self,
        alloc: Global,
        job: &Job,
        part: &SortedPart,
        moves: &[Move],
    ) -> Result<Verdict, WantOfMemory> {
        verify(self, alloc, job, part, moves)
    }

    fn verdict_on_stock(
        &self,
        job: &Job,
        part: &SortedPart,
        moves: &[Move],
        rows: &[Row],
    ) -> Verdict {
        verdict_on_stock(self, job, part, moves, rows)
    }
}
