ghost use Rattle.mill_answer.specs.Judgments.{OneJudgment};

use mill_verify::one_verdict;

/// Two judgments on the same three files, which are told, are one.
///
/// It has no code: what it promises is its contract.
pub fn one_judgment()
    ensures { OneJudgment }
{
    // A law without code: there is at most one verdict on a program.
    one_verdict();
}
