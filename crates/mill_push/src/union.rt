ghost use Rattle.std.specs.Prelude.{ℤ, IfOk, Contains};
ghost use Rattle.mill_base.specs.Numbers.{Within};
ghost use Rattle.mill_base.specs.declared.limits.TheConstants.{MAX_COORDINATE};
ghost use Rattle.mill_push.specs.Runs.{RunsOf, StandsIn};
ghost use Rattle.mill_push.specs.inner.Unions.{AreOrdered, AreSpans};
ghost use Rattle.mill_push.specs.declared.fiber.Run.{Run};

use crate::fiber::Run;
use mill_base::WantOfMemory;
use std::alloc::Global;

/// The maximal runs of the positions that stand in any of the stretches, which are in the order of
/// their first positions.
pub fn union(alloc: Global, stretches: &[Run]) -> Result<Vec<Run>, WantOfMemory>
    requires ordered { AreOrdered stretches.now }
    requires firsts { (run : Run) → Contains stretches.now run → Within MAX_COORDINATE run.first }
    requires lasts { (run : Run) → Contains stretches.now run → Within MAX_COORDINATE run.last }
    ensures { IfOk result (λ runs. (from to : ℤ) → AreSpans from to stretches.now → RunsOf (StandsIn stretches.now) from to runs.items) }
{
    let mut runs = Vec::new(alloc);
    let Some((first, others)) = stretches.split_first() else {
        return Ok(runs);
    };
    let mut run = *first;
    for stretch in others {
        if stretch.first <= run.last + 1 {
            run.last = run.last.max(stretch.last);
            continue;
        }
        runs.push(run)?;
        run = *stretch;
    }
    runs.push(run)?;
    Ok(runs)
}
