ghost use Rattle.std.specs.Prelude.{◌≡◌, [], ◌∷◌, MatchOption};
ghost use Rattle.mill_base.specs.Ranges.{MoveInRange};
ghost use Rattle.mill_dexel.specs.Tops.{Stock};
ghost use Rattle.mill_verify.specs.Tests.{IsGoodOn};
ghost use Rattle.mill_report.specs.inner.Steps.{FailsMove};
ghost use Rattle.mill_report.specs.inner.Stops.{IsTold};

use crate::pass::Stop;
use mill_base::Move;
use mill_job::Job;
use mill_part::SortedPart;
use mill_sweep::failing_is_blocked;
use mill_verify::{Reason, clash_reason, first_clash, is_over_floor, stock_reason};

/// The first test that move `number` fails, where the stock that it meets stops it so, or doesn't; none where it
/// passes all.
pub fn finding_of(
    job: &Job,
    part: &SortedPart,
    step: &Move,
    number: u64,
    told: Option<Stop>,
) -> Option<Reason>
    requires step_ok { MoveInRange step.now }
    ensures { (stock : Stock) → IsTold job.now.fields stock step.now told → MatchOption
        result
        (IsGoodOn job.now.fields part.now stock (step.now ∷ []) 0)
        (FailsMove job.now.fields part.now stock step.now number) }
{
    if !is_over_floor(job, step) {
        return Some(Reason::Floor { at: number });
    }
    // A law without code: a leaf that fails, of the cutter or of the holder, is one of the last of its move.
    failing_is_blocked();
    if let Some(clash) = first_clash(job, part, step) {
        return Some(clash_reason(number, clash));
    }
    let stop = told?;
    Some(stock_reason(stop.test, step.kind, number, stop.row, stop.col, stop.leaf))
}
