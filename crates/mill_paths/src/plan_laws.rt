ghost use Rattle.mill_paths.specs.Visits.{FinishVisitsAreFree, LevelVisitsAreFree, RoughVisitsAreFree};
ghost use Rattle.mill_paths.specs.Unique.{ManyFinishVisitsMakeMoves, ManyLevelVisitsMakeMoves, ManyRoughVisitsMakeMoves, OnePlan, PlanIsLonger, RoundIsSafe};

/// A job and a part have at most one plan.
pub fn one_plan()
    ensures { OnePlan }
{}

/// A plan has at least as many moves as go through the first of its visits.
pub fn plan_is_longer()
    ensures { PlanIsLonger }
{}

/// Where more than 1,000,000 visits of its roughing, of its levels or of its finishing path differ from
/// the one before them, a plan has more than 1,000,000 moves.
pub fn many_visits_make_moves()
    ensures rough { ManyRoughVisitsMakeMoves }
    ensures level { ManyLevelVisitsMakeMoves }
    ensures finish { ManyFinishVisitsMakeMoves }
{}

/// From home through visits and home again the moves go safely.
pub fn round_is_safe()
    ensures { RoundIsSafe }
{}

/// Each visit of a plan is a place that it may come to: in the unit's range, from the floor on and under
/// the top, and neither the cutter nor its holder gouges there or at any greater height.
pub fn visits_are_free()
    ensures rough { RoughVisitsAreFree }
    ensures level { LevelVisitsAreFree }
    ensures finish { FinishVisitsAreFree }
{}
