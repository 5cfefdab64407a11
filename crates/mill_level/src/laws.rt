ghost use Rattle.mill_level.specs.Joins.{JoinsAreApart};
ghost use Rattle.mill_level.specs.Waterlines.{OneWaterline};

/// No two joins go from one crossing, and no two come to one.
pub fn joins_are_apart()
    ensures { JoinsAreApart }
{}

/// A part has at most one waterline over a lattice at a height.
pub fn one_waterline()
    ensures { OneWaterline }
{}
