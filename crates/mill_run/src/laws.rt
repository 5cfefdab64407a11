ghost use Rattle.mill_run.specs.Laws.{OneAnswer};

use mill_answer::one_judgment;
use mill_level::one_waterline;
use mill_plan::one_plan_answer;
use mill_verify::one_list_verdict;

/// A request has at most one answer on files that are told.
///
/// It has no code: what it promises is its contract. With that of `run` it says that two calls of
/// one request on the same files, which hold what the reads of both gave, end with the same status,
/// the same line and the same stored text, where nothing of the outside fails and memory is enough.
pub fn one_answer()
    ensures { OneAnswer }
{
    // Laws without code: there is at most one judgment on a program, one verdict on a list of them, one
    // answer of the planner and one waterline.
    one_judgment();
    one_list_verdict();
    one_plan_answer();
    one_waterline();
}
