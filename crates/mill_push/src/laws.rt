ghost use Rattle.mill_push.specs.Runs.{OneListOfRuns, RunsHoldBlocked};
ghost use Rattle.mill_push.specs.Stretches.{OneStretch};

/// A fiber has at most one list of runs.
pub fn one_list_of_runs()
    ensures { OneListOfRuns }
{}

/// A position is blocked exactly where it stands in a run.
pub fn runs_hold_blocked()
    ensures { RunsHoldBlocked }
{}

/// One triangle is touched at all positions between two at which it is touched.
pub fn one_stretch()
    ensures { OneStretch }
{}
