ghost use Rattle.mill_sweep.specs.Moments.{OuterHolds, PassingIsClear, PassingKeepsPoint, FarPasses, FailingIsBlocked};
ghost use Rattle.mill_sweep.specs.Vertical.{VerticalPasses, VerticalPassesPoint};

/// A law: every point strictly inside the cutter at a moment of a leaf is strictly inside the
/// leaf's outer cutter.
pub fn outer_holds()
    ensures { OuterHolds }
{}

/// A law: a solid that passes a triangle on a move never holds a point of it strictly inside,
/// wherever the tip may be on the move.
pub fn halving_is_clear()
    ensures { PassingIsClear }
{}

/// A law: a solid that passes a point on a move holds no whole point at or under it strictly
/// inside, wherever the tip may be on the move.
pub fn halving_keeps_point()
    ensures { PassingKeepsPoint }
{}

/// A law: a solid passes each triangle that is no higher than both ends of its tip's move, or that
/// lies at least the solid's radius and 2 away from the move in x or in y.
pub fn far_passes()
    ensures { FarPasses }
{}

/// A law: a straight move up or down passes each triangle that the cutter doesn't touch with its
/// tip at the move's lower end, or at a place under it.
pub fn vertical_passes()
    ensures { VerticalPasses }
{}

/// A law: a straight move up or down passes each point that the cutter doesn't hold with its tip at
/// the move's lower end, or at a place under it.
pub fn vertical_passes_point()
    ensures { VerticalPassesPoint }
{}

/// A law: a straight move's failing leaf has a reach of at most 2, and of every move it can't be
/// that it isn't blocked.
pub fn failing_is_blocked()
    ensures { FailingIsBlocked }
{}
