ghost use Rattle.mill_gouge.specs.Laws.{HundredthsHaveRoom, LiftedIsClear, OneLift, OverPartPasses, PassesFromLift, PassingNeedsNoLift, RaisingKeepsPass};

/// A law: a tool that passes the part on a move passes it on the move that is raised.
///
/// It has no code: what it promises is its contract.
pub fn raising_keeps_pass()
    ensures { RaisingKeepsPass }
{}

/// A law: a tool passes the part on a move on which the tips of its solids stay over each corner of
/// the part, or at its height.
///
/// It has no code, as [`raising_keeps_pass`].
pub fn over_part_passes()
    ensures { OverPartPasses }
{}

/// A law: a move that is raised by its least lift or by more passes, and by less it doesn't.
///
/// It has no code, as [`raising_keeps_pass`].
pub fn passes_from_lift()
    ensures { PassesFromLift }
{}

/// A law: a move that is raised by its least lift or by more has no part point strictly inside its
/// cutter, or its holder, wherever its tip may be.
///
/// It has no code, as [`raising_keeps_pass`].
pub fn lifted_is_clear()
    ensures { LiftedIsClear }
{}

/// A law: a move passes as it stands exactly where its least lift is 0.
///
/// It has no code, as [`raising_keeps_pass`].
pub fn passing_needs_no_lift()
    ensures { PassingNeedsNoLift }
{}

/// A law: a move has at most one least lift.
///
/// It has no code, as [`raising_keeps_pass`].
pub fn one_lift()
    ensures { OneLift }
{}

/// A law: a move and a part that texts in units of 0.01 mm give leave room to raise the move.
///
/// It has no code, as [`raising_keeps_pass`].
pub fn hundredths_have_room()
    ensures { HundredthsHaveRoom }
{}
