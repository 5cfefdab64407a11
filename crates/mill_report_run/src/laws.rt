ghost use Rattle.mill_report_run.specs.Laws.{OneDocument};

use mill_answer::one_judgment;
use mill_gouge::one_lift;
use mill_report::{one_left, one_list};
use mill_verify::one_verdict;

/// There is one document, and one status, on files that are told.
///
/// It has no code: what it promises is its contract. With that of `run` it says that two calls on
/// the same files print the same document and end with the same status, whatever number of workers
/// each was given, where nothing of the outside fails and memory is enough.
pub fn one_document()
    ensures { OneDocument }
{
    // Laws without code: there is at most one judgment on the files, one verdict on a program, one
    // list of its findings, one of the columns that it leaves too high, and one least lift of a
    // move.
    one_judgment();
    one_verdict();
    one_list();
    one_left();
    one_lift();
}
