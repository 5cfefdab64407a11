ghost use Rattle.mill_verify.specs.Between.{BetweenIsSafe};
ghost use Rattle.mill_verify.specs.Lists.{AloneIsVerdict, OneListVerdict};
ghost use Rattle.mill_verify.specs.Plain.{PlainIsPlain};
ghost use Rattle.mill_verify.specs.Starts.{StartIsSafe};
ghost use Rattle.mill_verify.specs.TextTips.{TextTipIsReal};
ghost use Rattle.mill_verify.specs.Verdicts.{OneVerdict};

/// A job, a part and a list of moves have at most one verdict.
///
/// It has no code: what it promises is its contract. With `verify`'s it says that the answer is a
/// given verdict exactly where that verdict's conditions hold.
pub fn one_verdict()
    ensures { OneVerdict }
{}

/// A job, a part and a list of files have at most one verdict.
///
/// It has no code, as [`one_verdict`].
pub fn one_list_verdict()
    ensures { OneListVerdict }
{}

/// For one file the verdict of `verify_list` is that of `verify` on its moves, for the job with its cutter.
///
/// It has no code, as [`one_verdict`].
pub fn alone_is_verdict()
    ensures { AloneIsVerdict }
{}

/// Where a job asks for no slack, no overcut and no graze, what is promised of each place where the
/// machine's tip may be is promised of the program's own.
///
/// It has no code, as [`one_verdict`].
pub fn plain_is_plain()
    ensures { PlainIsPlain }
{}

/// Where the tests pass, each tool cuts safely that holds all that the job's cutter removes for
/// sure, and nothing but what it may touch: a worn, a re-ground or a badly measured one.
///
/// It has no code, as [`one_verdict`].
pub fn between_is_safe()
    ensures { BetweenIsSafe }
{}

/// Wherever its tip is before a program, the job's tool, the slack around it, comes safely to a place
/// at or over the clear height: straight up or down to that height, and across, straight or, where
/// the job's machine runs each axis of a rapid for itself, anywhere in the box of the two ends.
///
/// It is to be free where it stands, of the part and of each fixture, and its tip at or over the clear
/// height, or no higher than that place. Then it is free wherever the tip may be. That a machine so
/// begins is what its program's first two lines say. It has no code, as [`one_verdict`].
pub fn start_is_safe()
    ensures { StartIsSafe }
{}

/// A machine that goes by a text's own numbers, and whose tip stays within what rounding leaves of
/// the slack of where it may be on such a way, has a real tip of the move with the rounded ends.
///
/// Rounding takes three units of the slack, and nothing where nothing is rounded. The way and the
/// move are each as the job's machine makes them: where it runs each axis of a rapid for itself, a
/// rapid along two axes or more is a dogleg, whose tip may be anywhere in the box of its own ends.
/// So what is promised at each real tip is promised of such a machine. It has no code, as
/// [`one_verdict`].
pub fn text_tip_is_real()
    ensures { TextTipIsReal }
{}
