ghost use Rattle.std.specs.Prelude.{◌≡◌, ◌≤◌, All, length, IfOk};
ghost use Rattle.mill_base.specs.declared.limits.TheConstants.{MAX_MOVES};
ghost use Rattle.mill_base.specs.Ranges.{MovesInRange};
ghost use Rattle.mill_dexel.specs.Tops.{uncut};
ghost use Rattle.mill_verify.specs.Verdicts.{NamesLeaf};
ghost use Rattle.mill_report.specs.Columns.{IsLeftAfter};
ghost use Rattle.mill_report.specs.Findings.{AreFindings};

use crate::left::{LeftColumns, columns_left};
use crate::moves::failing_moves;
use crate::pass::go_through;
use mill_base::{Move, WantOfMemory};
use mill_job::Job;
use mill_part::SortedPart;
use mill_verify::Reason;
use std::alloc::Global;

/// What is wrong with a program: the moves that fail a test, each with the first that it fails, in their
/// order, and the columns left too high.
#[derive(Drop)]
pub struct Findings {
    pub failing: Vec<Reason>,
    pub left: LeftColumns,
}

/// All findings on a program, by the tests of `verify`.
///
/// A move is tested on the stock that every move before it has cut, whether that one fails or not. The
/// reasons are a verdict's: the first is that of the verdict on the program, and the leaf that one names is
/// blocked, as `verify` says of its own. The columns are those of the stock that all moves leave; the first
/// 10,000 of them are told of one by one.
///
/// Lengths are in units. The program has at most 1,000,000 moves. The only error is want of memory, for the
/// rows of the stock, a place for each move and what is found.
pub fn all_findings(
    alloc: Global,
    job: &Job,
    part: &SortedPart,
    moves: &[Move],
) -> Result<Findings, WantOfMemory>
    requires moves_ok { MovesInRange moves.now }
    requires few { length moves.now ≤ MAX_MOVES }
    ensures failing { IfOk result (λ found. AreFindings job.now.fields part.now moves.now found.failing.items) }
    ensures blocked { IfOk result (λ found. All (NamesLeaf job.now.fields part.now (uncut job.now.fields) moves.now) found.failing.items) }
    ensures left { IfOk result (λ found. IsLeftAfter job.now.fields part.now moves.now found.left.shown.items found.left.total) }
{
    let passage = go_through(alloc, job, moves)?;
    let failing = failing_moves(alloc, job, part, moves, &passage.stops)?;
    let left = columns_left(alloc, job, part, &passage.rows)?;
    Ok(Findings { failing, left })
}
