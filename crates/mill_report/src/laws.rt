ghost use Rattle.mill_report.specs.Laws.{AcceptedHasNothing, FirstIsVerdict, FirstLeftIsVerdict, NothingIsAccepted, OneLeft, OneList, VerdictIsFirst};

use mill_verify::one_verdict;

/// A job, a part and a list of moves have one list of findings.
///
/// It has no code: what it promises is its contract.
pub fn one_list()
    ensures { OneList }
{}

/// A stock has one list of columns left too high, as it is shown and counted.
///
/// It has no code, as [`one_list`].
pub fn one_left()
    ensures { OneLeft }
{}

/// The verdict on a program that has findings rejects it for the first of them.
///
/// It has no code, as [`one_list`].
pub fn first_is_verdict()
    ensures { FirstIsVerdict }
{}

/// A verdict that rejects a program for a move has that for the first finding.
///
/// It has no code of its own: there is at most one verdict.
pub fn verdict_is_first()
    ensures { VerdictIsFirst }
{
    one_verdict();
}

/// The verdict on a program without findings that leaves columns too high rejects it for the first of these.
///
/// It has no code, as [`one_list`].
pub fn first_left_is_verdict()
    ensures { FirstLeftIsVerdict }
{}

/// A program without findings that leaves no column too high is accepted.
///
/// It has no code, as [`one_list`].
pub fn nothing_is_accepted()
    ensures { NothingIsAccepted }
{}

/// A program that is accepted has no finding and leaves no column too high.
///
/// It has no code, as [`one_list`].
pub fn accepted_has_nothing()
    ensures { AcceptedHasNothing }
{}
