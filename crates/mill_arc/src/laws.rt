ghost use Rattle.mill_arc.specs.Rings.{HelixIsNear, MomentIsNear, MomentIsNearInSpace};
ghost use Rattle.mill_arc.specs.Rings.{PointHasMoment};
ghost use Rattle.mill_arc.specs.Turns.{ChordsAreTurn, PartsAreTurn};
ghost use Rattle.mill_arc.specs.Places.{LastHeightIsEnd};

/// A law: at each moment of a chord the tip is within the tolerance and 1.9 units of each point of
/// the ring between the arc's two radii that lies in the direction of the chord's point.
pub fn moment_is_near()
    ensures { MomentIsNear }
{}

/// A law: so it is in space, within the tolerance and 2 units, where the third axis stays.
pub fn moment_is_near_in_space()
    ensures { MomentIsNearInSpace }
{}

/// A law: each point of a chord's sector lies in the direction of the chord's point at some moment.
pub fn point_has_moment()
    ensures { PointHasMoment }
{}

/// A law: each point that a helix may be at, near the chord's point at a moment and within half a
/// unit of its height, is within the tolerance and 2 units of the tip.
pub fn helix_is_near()
    ensures { HelixIsNear }
{}

/// A law: the chords of an arc are its turn. The first one starts where the arc does, the last one
/// ends where it does, and each direction of the turn lies in the sector of exactly one chord.
pub fn chords_are_turn()
    ensures { ChordsAreTurn }
{}

/// A law: the parts of the turn that the chords are stand one behind the other, from nothing to the
/// whole turn. So a height that goes by them goes evenly.
pub fn parts_are_turn()
    ensures { PartsAreTurn }
{}

/// A law: at the end of the turn the height is that of the arc's end, rounded.
pub fn last_height_is_end()
    ensures { LastHeightIsEnd }
{}
