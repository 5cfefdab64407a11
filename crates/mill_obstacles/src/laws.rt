ghost use Rattle.mill_obstacles.specs.Laws.{NoFixturesNoMore};

/// Without fixtures the obstacles are the part.
///
/// It has no code: what it promises is its contract.
pub fn no_fixtures_no_more()
    ensures { NoFixturesNoMore }
{}
