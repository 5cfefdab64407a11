ghost use Rattle.mill_plan.specs.Laws.{OnePlanAnswer, PlanNeverFails};

use mill_paths::{one_plan, round_is_safe, visits_are_free};
use mill_verify::one_verdict;

/// A job and a part have at most one answer of the planner. So where memory is enough, `plan` gives
/// each of its answers exactly where it is right.
pub fn one_plan_answer()
    ensures { OnePlanAnswer }
{
    // Laws without code: there is at most one plan, and at most one verdict on it.
    one_plan();
    one_verdict();
}

/// A plan, also one that has too many moves, is rejected for no reason but stock that it leaves, or that
/// the holder would touch: none of its moves fails the test of the floor, a test of the part or of a
/// fixture, or the cutter's test of the stock.
pub fn plan_never_fails()
    ensures { PlanNeverFails }
{
    // Laws without code: the visits of a plan are free, and a round through free places goes safely.
    visits_are_free();
    round_is_safe();
}
