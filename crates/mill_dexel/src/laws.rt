ghost use Rattle.mill_dexel.specs.Laws.{CutAtEnd, OverTopIsRemoved, PassedIsLeft, PassesAfterCut, PassesLimitAfterCut};

/// The moves remove every point of a column over its top, up to the uncut stock's.
pub fn over_top_is_removed()
    ensures { OverTopIsRemoved }
{}

/// Once the moves are made, the job's cutter with its tip at the end of any of them holds no top of a
/// column strictly inside, where that end isn't under the floor.
pub fn cut_at_end()
    ensures { CutAtEnd }
{}

/// Once the moves are made, a straight move up from the end of any of them, or straight down to it,
/// passes the top of every column, where that end isn't under the floor.
pub fn passes_after_cut()
    ensures { PassesAfterCut }
{}

/// Once the moves are made, a feed straight down from the end of any of them, by at most the job's greatest
/// depth of cut and not under the floor, cuts no column too deep.
pub fn passes_limit_after_cut()
    ensures { PassesLimitAfterCut }
{}

/// A move that passes a point of a column, at or under its top, leaves the column up to there.
pub fn passed_is_left()
    ensures { PassedIsLeft }
{}
